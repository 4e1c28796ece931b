//! Which table a run has, where that shows: sets of bits that have no room are refused, and room is asked for all workers.

use crate::ending::ending_under;
use lab_pool::NoGate;
use polylab_engine::{CoverJob, Job, TableKind};
use polylab_line::Request;
use std::alloc::{AllocError, Global};
use std::sync::Wait;
use std::thread::Threads;
use text_lines::write_number;

/// A cover text of 40,000 items and one option. A table has a word of bits for each item, and those of all workers may have 1,048,576.
fn many_items(alloc: Global) -> Result<Vec<u8>, AllocError> {
    let mut text = Vec::from_slice(alloc, b"items")?;
    for item in 0..40_000u32 {
        write_number(&mut text, item)?;
    }
    text.extend_from_slice(b"\noption 0\n")?;
    Ok(text)
}

/// How many workers count its covers, the table that is asked for, if one is, and the status.
struct Row(u32, Option<TableKind>, u8);

static ROWS: [Row; 6] = [
    Row(1, Some(TableKind::Bits), 0),
    Row(26, Some(TableKind::Bits), 0),
    Row(27, Some(TableKind::Bits), 4),
    Row(32, Some(TableKind::Bits), 4),
    Row(32, Some(TableKind::Links), 0),
    Row(32, None, 0),
];

/// Whether the count ends as the row has it.
fn ends_so<R: Threads + Wait + Sync>(rt: &R, alloc: Global, text: &[u8], row: &Row) -> bool {
    let request = Request {
        job: Job::Cover(CoverJob::Count),
        workers: row.0,
        table: row.1,
        cache: None,
    };
    let ending = ending_under(rt, alloc, &NoGate, Ok(request), text);
    if row.2 == 4 {
        ending.is_so(4, b"", b"refused memory\n")
    } else {
        ending.is_so(0, b"visits 0\nsteps 7\nlevels 1\n", b"")
    }
}

/// Whether all rows are so.
fn all_end_so<R: Threads + Wait + Sync>(rt: &R, alloc: Global) -> bool {
    match many_items(alloc) {
        Ok(text) => ROWS.iter().all(|row| ends_so(rt, alloc, &text, row)),
        Err(_) => false,
    }
}

#[test]
fn room_is_asked_for_the_tables_of_all_workers(rt: HostRuntime) {
    assert!(rt; all_end_so(&rt, rt.alloc()));
}
