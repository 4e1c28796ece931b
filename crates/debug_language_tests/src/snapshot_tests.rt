//! Parts of the small problem's snapshots that no text has: a reader refuses such breakpoints itself, and no line says a cut of no choices.

use cover_problem::{Problem, read_cover};
use drawn_problems::{SMALL, state_of};
use std::alloc::{AllocError, Global};
use x_snapshot::{Snapshot, SnapshotFault};
use x_steps::{Cursor, Label, State};
use x_texts::Break;

/// The choices of a low cut and breakpoints, and the fault that is the first. The state is X1, and the branch goes to the end.
struct Row(Option<&'static [u32]>, &'static [Break], SnapshotFault);

static REFUSED: [Row; 6] = [
    Row(Some(&[9]), &[Break::Level(8)], SnapshotFault::BadBreak),
    Row(None, &[Break::Option(0)], SnapshotFault::BadBreak),
    Row(None, &[Break::Option(7)], SnapshotFault::BadBreak),
    Row(None, &[Break::Item(8)], SnapshotFault::BadBreak),
    Row(
        None,
        &[Break::Visit, Break::Level(1), Break::Visit],
        SnapshotFault::BadBreak,
    ),
    Row(Some(&[]), &[], SnapshotFault::NotOnRun),
];

/// A path in memory of its own, if there is one.
fn copied(alloc: Global, path: Option<&[u32]>) -> Result<Option<Vec<u32>>, AllocError> {
    match path {
        Some(path) => Ok(Some(Vec::from_slice(alloc, path)?)),
        None => Ok(None),
    }
}

/// The state and the breakpoints of a row, in memory of their own.
fn state_and_breaks(alloc: Global, row: &Row) -> Result<(State, Vec<Break>), AllocError> {
    let state = state_of(alloc, Label::X1, &[], Cursor::None)?;
    Ok((state, Vec::from_slice(alloc, row.1)?))
}

/// The snapshot of a problem with the parts of a row.
fn snapshot_with(alloc: Global, problem: Problem, row: &Row) -> Result<Snapshot, SnapshotFault> {
    let (Ok(lo), Ok((state, breaks))) = (copied(alloc, row.0), state_and_breaks(alloc, row)) else {
        return Err(SnapshotFault::OutOfMemory);
    };
    match Snapshot::new(alloc, problem, lo, None, state, breaks) {
        Ok(snapshot) => Ok(snapshot),
        Err(refused) => Err(refused.fault),
    }
}

/// The same of the small problem.
fn snapshot_of_small(alloc: Global, row: &Row) -> Result<Snapshot, SnapshotFault> {
    match read_cover(alloc, SMALL.as_bytes()) {
        Ok(problem) => snapshot_with(alloc, problem, row),
        Err(_) => Err(SnapshotFault::OutOfMemory),
    }
}

/// Whether the parts of a row have its fault.
fn is_refused(alloc: Global, row: &Row) -> bool {
    match snapshot_of_small(alloc, row) {
        Ok(_) => false,
        Err(found) => found == row.2,
    }
}

#[test]
fn the_first_fault_is_told(rt: HostRuntime) {
    for row in &REFUSED {
        assert!(rt; is_refused(rt.alloc(), row));
    }
}
