//! The entries of a history, as they are read back.
ghost use Rattle.std.specs.Prelude.{◌<◌, length};

use crate::asked::{Asked, is_so_in_small};
use crate::books::acts::{Act, make};
use lab_book::{Book, BookFault, Call, CallKind, Entries, Entry, Grant, Path, Reply};
use std::alloc::Global;
use x_steps::{Cursor, Label, Mark};

/// The run is split at the cut 4, both parts are posted to, and a post comes twice.
static ACTS: [Act; 6] = [
    Act::LeaseAny(0),
    Act::Split((0, 0, 0), 4),
    Act::Lease(1, 1),
    Act::Post((0, 0, 0), 0, 20),
    Act::Post((0, 0, 0), 0, 20),
    Act::Post((1, 1, 2), 20, 10),
];

/// Who called, and the kind of the call.
struct Caller(u8, CallKind);

static CALLERS: [Caller; 6] = [
    Caller(0, CallKind::LeaseAny),
    Caller(0, CallKind::Split),
    Caller(1, CallKind::Lease),
    Caller(0, CallKind::Post),
    Caller(0, CallKind::Post),
    Caller(1, CallKind::Post),
];

const FIRST: Grant = Grant {
    id: 0,
    worker: 0,
    index: 0,
};

const SECOND: Grant = Grant {
    id: 1,
    worker: 1,
    index: 2,
};

/// A state: its label, its choices and its cursor.
struct At(Label, &'static [u32], Cursor);

/// The beginning of the run.
static BEGIN: At = At(Label::X1, &[], Cursor::None);

/// Where option 4 is to be tried first.
static CUT: At = At(Label::X5, &[], Cursor::At(4));

/// The step after the visit.
static BEHIND_THE_VISIT: At = At(Label::X8, &[4, 5, 1], Cursor::None);

/// Whether a mark is this state.
fn is_at(mark: &Mark, at: &At) -> bool {
    let state = mark.state();
    state.label == at.0 && state.path.as_slice() == at.1 && state.cursor == at.2
}

/// Whether the choices of a cut are these, if there are any.
fn is_path(path: &Option<Path>, choices: &[u32]) -> bool {
    match path {
        Some(path) => path.choices() == choices,
        None => choices.is_empty(),
    }
}

/// Whether a tile was leased: whose lease, from which choices on, and where; no other waits.
fn is_leased(reply: &Reply, right: Grant, choices: &[u32], begin: &At) -> bool {
    match reply {
        Reply::Leased {
            lease,
            lo,
            hi,
            mark,
            waiting,
        } => {
            *lease == right
                && *waiting == 0
                && is_path(lo, choices)
                && is_path(hi, &[])
                && is_at(mark, begin)
        }
        _ => false,
    }
}

/// Whether it is the split at the cut 4 under the first lease.
fn is_split_call(call: &Call) -> bool {
    match call {
        Call::Split { lease, path, same } => {
            *lease == FIRST && path.choices() == [4].as_slice() && *same
        }
        _ => false,
    }
}

/// Whether the new tile of a split has the id 1.
fn is_split(reply: &Reply) -> bool {
    match reply {
        Reply::Split(id) => *id == 1,
        _ => false,
    }
}

/// Whether it is the post under a lease from one state to another.
fn is_post(call: &Call, right: Grant, begin: &At, end: &At) -> bool {
    match call {
        Call::Post {
            lease,
            from,
            to,
            same,
        } => *lease == right && *same && is_at(from, begin) && is_at(to, end),
        _ => false,
    }
}

/// Whether a post was taken, and its worker is to go on; no tile waits.
fn is_posted(reply: &Reply) -> bool {
    match reply {
        Reply::Posted { stop, waiting } => !*stop && *waiting == 0,
        _ => false,
    }
}

/// Whether a lease was stale, with the mark at the cut 4.
fn is_stale(reply: &Reply) -> bool {
    match reply {
        Reply::Refused(BookFault::StaleLease(mark)) => is_at(mark, &CUT),
        _ => false,
    }
}

/// Whether the call and the reply at a place are those that were typed by hand.
fn is_right(call: &Call, reply: &Reply, place: usize) -> bool {
    match place {
        0 => is_leased(reply, FIRST, &[], &BEGIN),
        1 => is_split_call(call) && is_split(reply),
        2 => is_leased(reply, SECOND, &[4], &CUT),
        3 => is_post(call, FIRST, &BEGIN, &CUT) && is_posted(reply),
        4 => is_post(call, FIRST, &BEGIN, &CUT) && is_stale(reply),
        _ => is_post(call, SECOND, &CUT, &BEHIND_THE_VISIT) && is_posted(reply),
    }
}

/// Whether the entry at a place is right, with who called and the kind of the call, which the history tells without it too.
fn is_told(history: &Entries<'_>, place: usize, caller: &Caller) -> bool
    requires { place < length history.now }
{
    if history.worker(place) != caller.0 || history.kind(place) != caller.1 {
        return false;
    }
    match history.entry(place) {
        Ok(entry) => {
            entry.worker == caller.0
                && entry.call.kind() == caller.1
                && is_right(&entry.call, &entry.reply, place)
        }
        Err(_) => false,
    }
}

/// Whether each entry is right, and there are no others.
fn are_right(book: &Book<'_>) -> bool {
    let history = book.history();
    for (place, caller) in CALLERS.iter().enumerate() {
        if place >= history.len() || !is_told(&history, place, caller) {
            return false;
        }
    }
    history.len() == CALLERS.len()
}

/// Whether the calls are made on a new book, and each entry is right then.
pub fn are_read_back(alloc: Global, book: &mut Book<'_>) -> bool {
    let problem = book.problem();
    for act in &ACTS {
        if make(alloc, problem, book, *act).is_none() {
            return false;
        }
    }
    are_right(book)
}

#[test]
fn entries_are_read_back(rt: HostRuntime) {
    assert!(rt; is_so_in_small(rt.alloc(), &Asked::Entries));
}
