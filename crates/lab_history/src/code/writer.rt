//! The numbers of an entry.
ghost use Rattle.std.specs.Prelude.{◌≡◌, ◌++◌, ◌∷◌, ◌<◌, [], Some, OnOk};
ghost use Rattle.lab_history.specs.EntryCode.{cut_code, grant_code, fault_code, call_code, reply_code, entry_code, entry_of};
ghost use Rattle.lab_history.specs.EntryCode.{bool_code, ReadsCut, ReadsGrant, ReadsCall, ReadsReply, ReadsFault};

use crate::entry::{Call, Entry, Reply};
use crate::fault::BookFault;
use crate::grant::Grant;
use crate::path::Path;
use packed_rows::Row;
use std::alloc::AllocError;
use x_codes::{put_after, put_path, put_state};
use x_steps::Mark;

/// Adds the choices of a cut.
fn put_some(row: &mut Row, path: &Path) -> Result<(), AllocError>
    ensures code { OnOk result (row.new ≡ row.old ++ cut_code (Some path.now)) }
    ensures reads { OnOk result (ReadsCut (Some path.now)) }
{
    row.put(1)?;
    put_path(row, path.choices())?;
    Ok(())
}

/// Adds the choices of a cut, if there is one.
fn put_cut(row: &mut Row, cut: &Option<Path>) -> Result<(), AllocError>
    ensures code { OnOk result (row.new ≡ row.old ++ cut_code cut.now) }
    ensures reads { OnOk result (ReadsCut cut.now) }
{
    match cut {
        None => row.put(0),
        Some(path) => put_some(row, path),
    }
}

/// A worker's number.
fn byte(n: u8) -> u64
    ensures same { result ≡ n }
    ensures small { n < 256 }
{
    n as u64
}

/// Whether or not.
fn flag(b: bool) -> u64
    ensures { result ≡ bool_code b }
{
    if b { 1 } else { 0 }
}

/// Adds a lease.
fn put_grant(row: &mut Row, grant: Grant) -> Result<(), AllocError>
    ensures code { OnOk result (row.new ≡ row.old ++ grant_code grant) }
    ensures reads { OnOk result (ReadsGrant grant) }
{
    row.put(grant.id)?;
    row.put(byte(grant.worker))?;
    row.put(grant.index)?;
    Ok(())
}

/// Adds the fault of a stale lease.
fn put_stale(row: &mut Row, mark: &Mark) -> Result<(), AllocError>
    ensures code { OnOk result (row.new ≡ row.old ++ fault_code (BookFault.StaleLease mark.now)) }
    ensures reads { OnOk result (ReadsFault (BookFault.StaleLease mark.now)) }
{
    row.put(3)?;
    put_state(row, mark.state())?;
    Ok(())
}

/// Adds a fault.
fn put_fault(row: &mut Row, fault: &BookFault) -> Result<(), AllocError>
    ensures code { OnOk result (row.new ≡ row.old ++ fault_code fault.now) }
    ensures reads { OnOk result (ReadsFault fault.now) }
{
    // As `BookFault::number` has them, and 11 for out of memory, which has none there.
    match fault {
        BookFault::UnknownBranch => row.put(1),
        BookFault::NotWaiting => row.put(2),
        BookFault::StaleLease(mark) => put_stale(row, mark),
        BookFault::ForeignProblem => row.put(4),
        BookFault::NotAfterMark => row.put(5),
        BookFault::BeyondEnd => row.put(6),
        BookFault::NotAMark => row.put(7),
        BookFault::NotAtEnd => row.put(8),
        BookFault::NothingToRetract => row.put(9),
        BookFault::SeatMismatch => row.put(10),
        BookFault::OutOfMemory => row.put(11),
    }
}

/// Adds a kind of call, and a tile's id.
fn put_id(row: &mut Row, kind: u64, id: u64) -> Result<(), AllocError>
    ensures { OnOk result (row.new ≡ row.old ++ kind ∷ id ∷ []) }
{
    row.put(kind)?;
    row.put(id)?;
    Ok(())
}

/// Adds a kind of call, and a lease.
fn put_lease(row: &mut Row, kind: u64, lease: Grant) -> Result<(), AllocError>
    ensures code { OnOk result (row.new ≡ row.old ++ kind ∷ grant_code lease) }
    ensures reads { OnOk result (ReadsGrant lease) }
{
    row.put(kind)?;
    put_grant(row, lease)?;
    Ok(())
}

/// Adds a post.
fn put_post(
    row: &mut Row,
    lease: Grant,
    from: &Mark,
    to: &Mark,
    same: bool,
) -> Result<(), AllocError>
    ensures code { OnOk result
        (row.new ≡ row.old ++ call_code (Call.Post lease from.now to.now same)) }
    ensures reads { OnOk result (ReadsCall (Call.Post lease from.now to.now same)) }
{
    row.put(3)?;
    row.put(flag(same))?;
    put_grant(row, lease)?;
    put_state(row, from.state())?;
    put_after(row, &from.state().path, to.state())?;
    Ok(())
}

/// Adds a split.
fn put_split(row: &mut Row, lease: Grant, path: &Path, same: bool) -> Result<(), AllocError>
    ensures code { OnOk result (row.new ≡ row.old ++ call_code (Call.Split lease path.now same)) }
    ensures reads { OnOk result (ReadsCall (Call.Split lease path.now same)) }
{
    row.put(4)?;
    row.put(flag(same))?;
    put_grant(row, lease)?;
    put_path(row, path.choices())?;
    Ok(())
}

/// Adds a call that takes a tile back to a state.
fn put_put_back(row: &mut Row, id: u64, state: &Mark) -> Result<(), AllocError>
    ensures code { OnOk result (row.new ≡ row.old ++ call_code (Call.PutBack id state.now)) }
    ensures reads { OnOk result (ReadsCall (Call.PutBack id state.now)) }
{
    row.put(9)?;
    row.put(id)?;
    put_state(row, state.state())?;
    Ok(())
}

/// Adds a call.
fn put_call(row: &mut Row, call: &Call) -> Result<(), AllocError>
    ensures code { OnOk result (row.new ≡ row.old ++ call_code call.now) }
    ensures reads { OnOk result (ReadsCall call.now) }
{
    // The kind comes first, since what follows depends on it.
    match call {
        Call::Lease(id) => put_id(row, 0, *id),
        Call::LeaseAny => row.put(1),
        Call::TakeHeld(id) => put_id(row, 2, *id),
        Call::Post {
            lease,
            from,
            to,
            same,
        } => put_post(row, *lease, from, to, *same),
        Call::Split { lease, path, same } => put_split(row, *lease, path, *same),
        Call::Retract(lease) => put_lease(row, 5, *lease),
        Call::Park(lease) => put_lease(row, 6, *lease),
        Call::Abandon(lease) => put_lease(row, 7, *lease),
        Call::Close(lease) => put_lease(row, 8, *lease),
        Call::PutBack { id, state } => put_put_back(row, *id, state),
        Call::RequestStop(id) => put_id(row, 10, *id),
    }
}

/// Adds the answer to a worker that leases a tile.
fn put_leased(
    row: &mut Row,
    lease: Grant,
    lo: &Option<Path>,
    hi: &Option<Path>,
    mark: &Mark,
    waiting: u64,
) -> Result<(), AllocError>
    ensures code { OnOk result
        (row.new ≡ row.old ++ reply_code (Reply.Leased lease lo.now hi.now mark.now waiting)) }
    ensures reads { OnOk result (ReadsReply (Reply.Leased lease lo.now hi.now mark.now waiting)) }
{
    row.put(0)?;
    // What has a fixed length comes first; cuts and states tell their own lengths.
    row.put(waiting)?;
    put_grant(row, lease)?;
    put_cut(row, lo)?;
    put_cut(row, hi)?;
    put_state(row, mark.state())?;
    Ok(())
}

/// Adds the answer to a worker that posts.
fn put_posted(row: &mut Row, stop: bool, waiting: u64) -> Result<(), AllocError>
    ensures code { OnOk result (row.new ≡ row.old ++ reply_code (Reply.Posted stop waiting)) }
    ensures reads { OnOk result (ReadsReply (Reply.Posted stop waiting)) }
{
    row.put(2)?;
    row.put(flag(stop))?;
    row.put(waiting)?;
    Ok(())
}

/// Adds the answer to a worker that takes a stretch out again.
fn put_retracted(row: &mut Row, from: &Mark, to: &Mark) -> Result<(), AllocError>
    ensures code { OnOk result (row.new ≡ row.old ++ reply_code (Reply.Retracted from.now to.now)) }
    ensures reads { OnOk result (ReadsReply (Reply.Retracted from.now to.now)) }
{
    row.put(4)?;
    put_state(row, from.state())?;
    put_state(row, to.state())?;
    Ok(())
}

/// Adds a refusal.
fn put_refused(row: &mut Row, fault: &BookFault) -> Result<(), AllocError>
    ensures code { OnOk result (row.new ≡ row.old ++ reply_code (Reply.Refused fault.now)) }
    ensures reads { OnOk result (ReadsReply (Reply.Refused fault.now)) }
{
    row.put(6)?;
    put_fault(row, fault)?;
    Ok(())
}

/// Adds an answer.
fn put_reply(row: &mut Row, reply: &Reply) -> Result<(), AllocError>
    ensures code { OnOk result (row.new ≡ row.old ++ reply_code reply.now) }
    ensures reads { OnOk result (ReadsReply reply.now) }
{
    match reply {
        Reply::Leased {
            lease,
            lo,
            hi,
            mark,
            waiting,
        } => put_leased(row, *lease, lo, hi, mark, *waiting),
        Reply::NoneWaits => row.put(1),
        Reply::Posted { stop, waiting } => put_posted(row, *stop, *waiting),
        Reply::Split(id) => put_id(row, 3, *id),
        Reply::Retracted { from, to } => put_retracted(row, from, to),
        Reply::Done => row.put(5),
        Reply::Refused(fault) => put_refused(row, fault),
    }
}

/// Adds an entry.
pub(crate) fn put_entry(row: &mut Row, entry: &Entry) -> Result<(), AllocError>
    ensures code { OnOk result (row.new ≡ row.old ++ entry_code entry.now) }
    ensures reads { OnOk result (entry_of (entry_code entry.now) ≡ entry.now) }
{
    // Worker and kind stand in front, where they are read without the rest.
    row.put(byte(entry.worker))?;
    put_call(row, &entry.call)?;
    put_reply(row, &entry.reply)?;
    Ok(())
}
