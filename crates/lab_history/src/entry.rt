//! The entries of a history: who called what, and what was answered.
ghost use Rattle.std.specs.Prelude.{◌≡◌, ◌↔◌, ◌++◌, IsTrue, IfOk, OnOk};
ghost use Rattle.lab_history.specs.EntryCode.{entry_code, entry_of};
ghost use Rattle.lab_history.specs.Kinds.{kind_of};
ghost use Rattle.lab_history.specs.declared.entry.Call.TheVariants as calls;

use crate::code::put_entry;
use crate::fault::BookFault;
use crate::grant::Grant;
use crate::kind::CallKind;
use crate::path::Path;
use packed_rows::Row;
use std::alloc::AllocError;
use x_steps::Mark;

/// A call, as the history keeps it: a stretch by its two states, a cut by its choices, each with whether its problem is the
/// book's, and a lease by its parts.
#[derive(Drop)]
pub enum Call {
    Lease(u64),
    LeaseAny,
    TakeHeld(u64),
    Post {
        lease: Grant,
        from: Mark,
        to: Mark,
        same: bool,
    },
    Split {
        lease: Grant,
        path: Path,
        same: bool,
    },
    Retract(Grant),
    Park(Grant),
    Abandon(Grant),
    Close(Grant),
    PutBack {
        id: u64,
        state: Mark,
    },
    RequestStop(u64),
}

/// An answer, as the history keeps it.
#[derive(Drop)]
pub enum Reply {
    Leased {
        lease: Grant,
        lo: Option<Path>,
        hi: Option<Path>,
        mark: Mark,
        waiting: u64,
    },
    NoneWaits,
    Posted {
        stop: bool,
        waiting: u64,
    },
    Split(u64),
    Retracted {
        from: Mark,
        to: Mark,
    },
    Done,
    Refused(BookFault),
}

/// One entry of a history.
#[derive(Drop)]
pub struct Entry {
    pub worker: u8,
    pub call: Call,
    pub reply: Reply,
}

impl Call {
    /// Whether it is this post.
    fn is_post(&self, lease: Grant, from: &Mark, to: &Mark, same: bool) -> bool
        ensures { IsTrue result ↔ (self.now ≡ calls.Post lease from.now to.now same) }
    {
        match self {
            Call::Post {
                lease: my_lease,
                from: my_from,
                to: my_to,
                same: my_same,
            } => { *my_lease == lease && *my_same == same && my_from.same(from) && my_to.same(to) }
            _ => false,
        }
    }

    /// Whether it is this split.
    fn is_split(&self, lease: Grant, path: &Path, same: bool) -> bool
        ensures { IsTrue result ↔ (self.now ≡ calls.Split lease path.now same) }
    {
        match self {
            Call::Split {
                lease: my_lease,
                path: my_path,
                same: my_same,
            } => *my_lease == lease && *my_same == same && my_path.same(path),
            _ => false,
        }
    }

    /// Whether it is this way back to a state.
    fn is_put_back(&self, id: u64, state: &Mark) -> bool
        ensures { IsTrue result ↔ (self.now ≡ calls.PutBack id state.now) }
    {
        match self {
            Call::PutBack {
                id: my_id,
                state: my_state,
            } => *my_id == id && my_state.same(state),
            _ => false,
        }
    }

    /// Whether it is the same call.
    pub fn same(&self, other: &Call) -> bool
        ensures { IsTrue result ↔ (self.now ≡ other.now) }
    {
        match (self, other) {
            (Call::Lease(one), Call::Lease(other)) => one == other,
            (Call::LeaseAny, Call::LeaseAny) => true,
            (Call::TakeHeld(one), Call::TakeHeld(other)) => one == other,
            (
                Call::Post {
                    lease,
                    from,
                    to,
                    same,
                },
                other,
            ) => other.is_post(*lease, from, to, *same),
            (Call::Split { lease, path, same }, other) => other.is_split(*lease, path, *same),
            (Call::Retract(one), Call::Retract(other)) => one == other,
            (Call::Park(one), Call::Park(other)) => one == other,
            (Call::Abandon(one), Call::Abandon(other)) => one == other,
            (Call::Close(one), Call::Close(other)) => one == other,
            (Call::PutBack { id, state }, other) => other.is_put_back(*id, state),
            (Call::RequestStop(one), Call::RequestStop(other)) => one == other,
            _ => false,
        }
    }

    /// A copy.
    fn copy(&self) -> Result<Call, AllocError>
        ensures { IfOk result (λ call. call ≡ self.now) }
    {
        match self {
            Call::Lease(id) => Ok(Call::Lease(*id)),
            Call::LeaseAny => Ok(Call::LeaseAny),
            Call::TakeHeld(id) => Ok(Call::TakeHeld(*id)),
            Call::Post {
                lease,
                from,
                to,
                same,
            } => {
                let from = from.copy()?;
                let to = to.copy()?;
                Ok(Call::Post {
                    lease: *lease,
                    from,
                    to,
                    same: *same,
                })
            }
            Call::Split { lease, path, same } => Ok(Call::Split {
                lease: *lease,
                path: path.copy()?,
                same: *same,
            }),
            Call::Retract(lease) => Ok(Call::Retract(*lease)),
            Call::Park(lease) => Ok(Call::Park(*lease)),
            Call::Abandon(lease) => Ok(Call::Abandon(*lease)),
            Call::Close(lease) => Ok(Call::Close(*lease)),
            Call::PutBack { id, state } => Ok(Call::PutBack {
                id: *id,
                state: state.copy()?,
            }),
            Call::RequestStop(id) => Ok(Call::RequestStop(*id)),
        }
    }

    /// What kind of call it is.
    pub fn kind(&self) -> CallKind
        ensures { result ≡ kind_of self.now }
    {
        match self {
            Call::Lease(_) => CallKind::Lease,
            Call::LeaseAny => CallKind::LeaseAny,
            Call::TakeHeld(_) => CallKind::TakeHeld,
            Call::Post { .. } => CallKind::Post,
            Call::Split { .. } => CallKind::Split,
            Call::Retract(_) => CallKind::Retract,
            Call::Park(_) => CallKind::Park,
            Call::Abandon(_) => CallKind::Abandon,
            Call::Close(_) => CallKind::Close,
            Call::PutBack { .. } => CallKind::PutBack,
            Call::RequestStop(_) => CallKind::RequestStop,
        }
    }
}

/// Whether two paths, if there are, are the same.
fn are_same(one: &Option<Path>, other: &Option<Path>) -> bool
    ensures { IsTrue result ↔ (one.now ≡ other.now) }
{
    match (one, other) {
        (Some(one), Some(other)) => one.same(other),
        (None, None) => true,
        _ => false,
    }
}

/// A copy of a path, if there is one.
fn copied(path: &Option<Path>) -> Result<Option<Path>, AllocError>
    ensures { IfOk result (λ copy. copy ≡ path.now) }
{
    match path {
        Some(path) => Ok(Some(path.copy()?)),
        None => Ok(None),
    }
}

impl Reply {
    /// A copy.
    fn copy(&self) -> Result<Reply, AllocError>
        ensures { IfOk result (λ reply. reply ≡ self.now) }
    {
        match self {
            Reply::Leased {
                lease,
                lo,
                hi,
                mark,
                waiting,
            } => {
                let lo = copied(lo)?;
                let hi = copied(hi)?;
                let mark = mark.copy()?;
                Ok(Reply::Leased {
                    lease: *lease,
                    lo,
                    hi,
                    mark,
                    waiting: *waiting,
                })
            }
            Reply::NoneWaits => Ok(Reply::NoneWaits),
            Reply::Posted { stop, waiting } => Ok(Reply::Posted {
                stop: *stop,
                waiting: *waiting,
            }),
            Reply::Split(id) => Ok(Reply::Split(*id)),
            Reply::Retracted { from, to } => {
                let from = from.copy()?;
                let to = to.copy()?;
                Ok(Reply::Retracted { from, to })
            }
            Reply::Done => Ok(Reply::Done),
            Reply::Refused(fault) => Ok(Reply::Refused(fault.copy()?)),
        }
    }

    /// Whether it is the same answer.
    pub fn same(&self, other: &Reply) -> bool
        ensures { IsTrue result ↔ (self.now ≡ other.now) }
    {
        match (self, other) {
            (
                Reply::Leased {
                    lease,
                    lo,
                    hi,
                    mark,
                    waiting,
                },
                Reply::Leased {
                    lease: other_lease,
                    lo: other_lo,
                    hi: other_hi,
                    mark: other_mark,
                    waiting: other_waiting,
                },
            ) => {
                lease == other_lease
                    && waiting == other_waiting
                    && are_same(lo, other_lo)
                    && are_same(hi, other_hi)
                    && mark.same(other_mark)
            }
            (Reply::NoneWaits, Reply::NoneWaits) => true,
            (
                Reply::Posted { stop, waiting },
                Reply::Posted {
                    stop: other_stop,
                    waiting: other_waiting,
                },
            ) => stop == other_stop && waiting == other_waiting,
            (Reply::Split(one), Reply::Split(other)) => one == other,
            (
                Reply::Retracted { from, to },
                Reply::Retracted {
                    from: other_from,
                    to: other_to,
                },
            ) => from.same(other_from) && to.same(other_to),
            (Reply::Done, Reply::Done) => true,
            (Reply::Refused(one), Reply::Refused(other)) => one.same(other),
            _ => false,
        }
    }
}

impl Entry {
    /// Whether it is the same entry.
    pub fn same(&self, other: &Entry) -> bool
        ensures { IsTrue result ↔ (self.now ≡ other.now) }
    {
        // The cheapest first: a reply may hold two paths and a state.
        self.worker == other.worker && self.call.same(&other.call) && self.reply.same(&other.reply)
    }

    /// Adds its numbers to a row, from which the entry can be told again. Where memory runs out,
    /// some of them may be there.
    pub fn put(&self, row: &mut Row) -> Result<(), AllocError>
        ensures code { OnOk result (row.new ≡ row.old ++ entry_code self.now) }
        ensures reads { OnOk result (entry_of (entry_code self.now) ≡ self.now) }
    {
        put_entry(row, self)
    }

    /// Writes its numbers into a scratch row, and nothing else.
    pub(crate) fn write(&self, row: &mut Row) -> Result<(), AllocError>
        ensures told { OnOk result (entry_of row.new ≡ self.now) }
        ensures code { OnOk result (row.new ≡ entry_code self.now) }
    {
        // The room of a scratch row stays, so that an entry that fitted once takes no memory again.
        row.clear();
        self.put(row)?;
        Ok(())
    }

    /// A copy.
    pub fn copy(&self) -> Result<Entry, AllocError>
        ensures { IfOk result (λ entry. entry ≡ self.now) }
    {
        let call = self.call.copy()?;
        let reply = self.reply.copy()?;
        Ok(Entry {
            worker: self.worker,
            call,
            reply,
        })
    }

    /// Who called.
    pub fn worker(&self) -> u8
        ensures { result ≡ self.now.worker }
    {
        self.worker
    }

    /// What was called.
    pub fn call(&self) -> &Call
        ensures { result.now ≡ self.now.call }
    {
        &self.call
    }

    /// What was answered.
    pub fn reply(&self) -> &Reply
        ensures { result.now ≡ self.now.reply }
    {
        &self.reply
    }
}
