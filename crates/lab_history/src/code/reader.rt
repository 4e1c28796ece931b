//! Entries made of their numbers.
ghost use Rattle.std.specs.Prelude.{◌≡◌, ℕ, List, IfOk, OnOk};
ghost use Rattle.shared_words.specs.Answers.{Returns};
ghost use Rattle.x_codes.specs.StateCode.{later, after_rest, path_rest, state_of, state_rest};
ghost use Rattle.lab_history.specs.EntryCode.{worker_of, cut_of, cut_rest, retracted_read};
ghost use Rattle.lab_history.specs.EntryCode.{grant_of, grant_rest, fault_of, fault_numbered, call_of, call_rest, call_with, call_rest_with};
ghost use Rattle.lab_history.specs.EntryCode.{post_read, split_read, leased_read, reply_of};
ghost use Rattle.lab_history.specs.EntryCode.{reply_with, entry_of, put_back_read, posted_read};
ghost use Rattle.lab_history.specs.Kinds.{kind_of};

use crate::entry::{Call, Entry, Reply};
use crate::fault::BookFault;
use crate::grant::Grant;
use crate::kind::CallKind;
use crate::path::Path;
use packed_rows::Reader;
use std::alloc::{AllocError, Global};
use x_codes::{read_after, read_path, read_state};
use x_steps::Mark;

/// A worker.
fn worker(n: u64) -> u8
    ensures { result ≡ worker_of n }
{
    // A code's worker is below 256 and stays; of any other row some worker is read, and reading has no faults.
    (n % 256) as u8
}

/// Reads a state.
fn read_mark(alloc: Global, reader: &mut Reader<'_>) -> Result<Mark, AllocError>
    ensures state { IfOk result (λ mark. mark ≡ state_of reader.old) }
    ensures rest { OnOk result (reader.new ≡ state_rest reader.old) }
{
    let state = read_state(alloc, reader)?;
    Mark::from(state)
}

/// Reads the choices of a cut, if there is one.
fn read_cut(alloc: Global, reader: &mut Reader<'_>) -> Result<Option<Path>, AllocError>
    ensures cut { IfOk result (λ cut. cut ≡ cut_of reader.old) }
    ensures rest { OnOk result (reader.new ≡ cut_rest reader.old) }
{
    if reader.number() == 0 {
        return Ok(None);
    }
    let path = read_path(alloc, reader)?;
    Ok(Some(Path::from(path)))
}

/// Reads a lease.
fn read_grant(reader: &mut Reader<'_>) -> Grant
    ensures grant { result ≡ grant_of reader.old }
    ensures rest { reader.new ≡ grant_rest reader.old }
{
    // In the order in which they were put, here as in all that follows.
    let id = reader.number();
    let worker = worker(reader.number());
    let index = reader.number();
    Grant { id, worker, index }
}

/// Reads a fault of this kind.
fn read_fault_of(alloc: Global, kind: u64, reader: &mut Reader<'_>) -> Result<BookFault, AllocError>
    ensures { IfOk result (λ fault. fault ≡ fault_numbered kind reader.old) }
{
    match kind {
        1 => Ok(BookFault::UnknownBranch),
        2 => Ok(BookFault::NotWaiting),
        3 => {
            let mark = read_mark(alloc, reader)?;
            Ok(BookFault::StaleLease(mark))
        }
        4 => Ok(BookFault::ForeignProblem),
        5 => Ok(BookFault::NotAfterMark),
        6 => Ok(BookFault::BeyondEnd),
        7 => Ok(BookFault::NotAMark),
        8 => Ok(BookFault::NotAtEnd),
        9 => Ok(BookFault::NothingToRetract),
        10 => Ok(BookFault::SeatMismatch),
        // 11, and what no code has: a row is read by whoever wrote it.
        _ => Ok(BookFault::OutOfMemory),
    }
}

/// Reads a fault.
fn read_fault(alloc: Global, reader: &mut Reader<'_>) -> Result<BookFault, AllocError>
    ensures { IfOk result (λ fault. fault ≡ fault_of reader.old) }
{
    let kind = reader.number();
    let fault = read_fault_of(alloc, kind, reader)?;
    Ok(fault)
}

/// Reads a post.
fn read_post(alloc: Global, reader: &mut Reader<'_>) -> Result<Call, AllocError>
    ensures call { IfOk result (λ call. call ≡ post_read reader.old) }
    ensures rest { OnOk result
        (reader.new ≡ after_rest (state_rest (grant_rest (later reader.old)))) }
{
    let same = reader.number() != 0;
    let lease = read_grant(reader);
    let from = read_mark(alloc, reader)?;
    let to = read_after(alloc, reader, &from.state().path)?;
    let to = Mark::from(to)?;
    Ok(Call::Post {
        lease,
        from,
        to,
        same,
    })
}

/// Reads a split.
fn read_split(alloc: Global, reader: &mut Reader<'_>) -> Result<Call, AllocError>
    ensures call { IfOk result (λ call. call ≡ split_read reader.old) }
    ensures rest { OnOk result (reader.new ≡ path_rest (grant_rest (later reader.old))) }
{
    let same = reader.number() != 0;
    let lease = read_grant(reader);
    let path = read_path(alloc, reader)?;
    Ok(Call::Split {
        lease,
        path: Path::from(path),
        same,
    })
}

/// Reads a call that takes a tile back to a state.
fn read_put_back(alloc: Global, reader: &mut Reader<'_>) -> Result<Call, AllocError>
    ensures call { Returns result (put_back_read reader.old) }
    ensures rest { OnOk result (reader.new ≡ state_rest (later reader.old)) }
{
    let id = reader.number();
    let state = read_mark(alloc, reader)?;
    Ok(Call::PutBack { id, state })
}

/// Reads a call of this kind.
fn read_call_of(alloc: Global, kind: u64, reader: &mut Reader<'_>) -> Result<Call, AllocError>
    ensures call { IfOk result (λ call. call ≡ call_with kind reader.old) }
    ensures rest { OnOk result (reader.new ≡ call_rest_with kind reader.old) }
{
    match kind {
        0 => Ok(Call::Lease(reader.number())),
        1 => Ok(Call::LeaseAny),
        2 => Ok(Call::TakeHeld(reader.number())),
        3 => read_post(alloc, reader),
        4 => read_split(alloc, reader),
        5 => Ok(Call::Retract(read_grant(reader))),
        6 => Ok(Call::Park(read_grant(reader))),
        7 => Ok(Call::Abandon(read_grant(reader))),
        8 => Ok(Call::Close(read_grant(reader))),
        9 => read_put_back(alloc, reader),
        // 10, and what no code has.
        _ => Ok(Call::RequestStop(reader.number())),
    }
}

/// Reads a call.
fn read_call(alloc: Global, reader: &mut Reader<'_>) -> Result<Call, AllocError>
    ensures call { IfOk result (λ call. call ≡ call_of reader.old) }
    ensures rest { OnOk result (reader.new ≡ call_rest reader.old) }
{
    let kind = reader.number();
    let call = read_call_of(alloc, kind, reader)?;
    Ok(call)
}

/// Reads the answer to a worker that leases a tile.
fn read_leased(alloc: Global, reader: &mut Reader<'_>) -> Result<Reply, AllocError>
    ensures { IfOk result (λ reply. reply ≡ leased_read reader.old) }
{
    let waiting = reader.number();
    let lease = read_grant(reader);
    let lo = read_cut(alloc, reader)?;
    let hi = read_cut(alloc, reader)?;
    let mark = read_mark(alloc, reader)?;
    Ok(Reply::Leased {
        lease,
        lo,
        hi,
        mark,
        waiting,
    })
}

/// Reads the answer to a worker that posts.
fn read_posted(reader: &mut Reader<'_>) -> Reply
    ensures { result ≡ posted_read reader.old }
{
    let stop = reader.number() != 0;
    let waiting = reader.number();
    Reply::Posted { stop, waiting }
}

/// Reads the answer to a worker that takes a stretch out again.
fn read_retracted(alloc: Global, reader: &mut Reader<'_>) -> Result<Reply, AllocError>
    ensures { Returns result (retracted_read reader.old) }
{
    let from = read_mark(alloc, reader)?;
    let to = read_mark(alloc, reader)?;
    Ok(Reply::Retracted { from, to })
}

/// Reads an answer of this kind.
fn read_reply_of(alloc: Global, kind: u64, reader: &mut Reader<'_>) -> Result<Reply, AllocError>
    ensures { IfOk result (λ reply. reply ≡ reply_with kind reader.old) }
{
    match kind {
        0 => read_leased(alloc, reader),
        1 => Ok(Reply::NoneWaits),
        2 => Ok(read_posted(reader)),
        3 => Ok(Reply::Split(reader.number())),
        4 => read_retracted(alloc, reader),
        5 => Ok(Reply::Done),
        _ => {
            let fault = read_fault(alloc, reader)?;
            Ok(Reply::Refused(fault))
        }
    }
}

/// Reads an answer.
fn read_reply(alloc: Global, reader: &mut Reader<'_>) -> Result<Reply, AllocError>
    ensures { IfOk result (λ reply. reply ≡ reply_of reader.old) }
{
    let kind = reader.number();
    let reply = read_reply_of(alloc, kind, reader)?;
    Ok(reply)
}

/// Reads an entry.
pub(crate) fn read_entry(alloc: Global, reader: &mut Reader<'_>) -> Result<Entry, AllocError>
    ensures { IfOk result (λ entry. entry ≡ entry_of reader.old) }
{
    let worker = worker(reader.number());
    let call = read_call(alloc, reader)?;
    let reply = read_reply(alloc, reader)?;
    Ok(Entry {
        worker,
        call,
        reply,
    })
}

/// Reads an entry's worker alone.
pub(crate) fn read_worker(reader: &mut Reader<'_>) -> u8
    ensures { result ≡ (entry_of reader.old).worker }
{
    worker(reader.number())
}

/// The kind of a call, by its first number.
fn kind(n: u64) -> CallKind
    ensures { (ns : List ℕ) → result ≡ kind_of (call_with n ns) }
{
    match n {
        0 => CallKind::Lease,
        1 => CallKind::LeaseAny,
        2 => CallKind::TakeHeld,
        3 => CallKind::Post,
        4 => CallKind::Split,
        5 => CallKind::Retract,
        6 => CallKind::Park,
        7 => CallKind::Abandon,
        8 => CallKind::Close,
        9 => CallKind::PutBack,
        // As `read_call_of` takes it.
        _ => CallKind::RequestStop,
    }
}

/// Reads the kind of an entry's call alone.
pub(crate) fn read_kind(reader: &mut Reader<'_>) -> CallKind
    ensures { result ≡ kind_of (entry_of reader.old).call }
{
    // It stands before the kind.
    let _worker = reader.number();
    kind(reader.number())
}
