//! Words of the command line, and the exit statuses of those that name no job.

use crate::ending::ending_under;
use lab_pool::NoGate;
use polylab_engine::{Counted, CoverJob, Group, Job, PuzzleJob, TableKind};
use polylab_line::{LineFault, Request, parse_line};
use std::alloc::Global;
use std::process::Abort;
use std::sync::Wait;
use std::thread::Threads;

/// Words, and what they ask for: a job, how many workers, and a table, if one is named.
struct Line(&'static [&'static str], Job, u32, Option<TableKind>);

static LINES: [Line; 31] = [
    Line(&["cover"], Job::Cover(CoverJob::List), 1, None),
    Line(
        &["cover", "--workers", "2"],
        Job::Cover(CoverJob::List),
        2,
        None,
    ),
    Line(
        &["cover", "--first", "1"],
        Job::Cover(CoverJob::First(1)),
        1,
        None,
    ),
    Line(
        &["cover", "--workers=1", "--first=18446744073709551615"],
        Job::Cover(CoverJob::First(u64::MAX)),
        1,
        None,
    ),
    Line(&["cover", "--count"], Job::Cover(CoverJob::Count), 1, None),
    Line(
        &["cover", "--workers", "3", "--count", "--table=bits"],
        Job::Cover(CoverJob::Count),
        3,
        Some(TableKind::Bits),
    ),
    Line(&["solve"], Job::Puzzle(PuzzleJob::Solve), 1, None),
    Line(
        &["solve", "--first=3"],
        Job::Puzzle(PuzzleJob::First(3)),
        1,
        None,
    ),
    Line(
        &["solve", "--table", "bits", "--first", "2"],
        Job::Puzzle(PuzzleJob::First(2)),
        1,
        Some(TableKind::Bits),
    ),
    Line(
        &["solve", "--workers=32"],
        Job::Puzzle(PuzzleJob::Solve),
        32,
        None,
    ),
    Line(&["count"], Job::Puzzle(PuzzleJob::Count), 1, None),
    Line(
        &["count", "--workers", "8"],
        Job::Puzzle(PuzzleJob::Count),
        8,
        None,
    ),
    Line(
        &["count", "--classes"],
        Job::Puzzle(PuzzleJob::Classes),
        1,
        None,
    ),
    Line(
        &["count", "--workers", "4", "--classes"],
        Job::Puzzle(PuzzleJob::Classes),
        4,
        None,
    ),
    Line(
        &["count", "--table", "bits"],
        Job::Puzzle(PuzzleJob::Count),
        1,
        Some(TableKind::Bits),
    ),
    Line(
        &["solve", "--table=links"],
        Job::Puzzle(PuzzleJob::Solve),
        1,
        Some(TableKind::Links),
    ),
    Line(
        &["cover", "--workers", "3", "--table", "bits"],
        Job::Cover(CoverJob::List),
        3,
        Some(TableKind::Bits),
    ),
    Line(
        &["resume", "--table", "links"],
        Job::Resume {
            steps: None,
            list: false,
        },
        1,
        Some(TableKind::Links),
    ),
    Line(&["options"], Job::Puzzle(PuzzleJob::Options), 1, None),
    Line(
        &["solve", "--up-to", "rotations"],
        Job::Puzzle(PuzzleJob::SolveUpTo(Group::Rotations)),
        1,
        None,
    ),
    Line(
        &["solve", "--workers", "2", "--up-to=symmetries"],
        Job::Puzzle(PuzzleJob::SolveUpTo(Group::Symmetries)),
        2,
        None,
    ),
    Line(
        &["count", "--up-to", "symmetries", "--table", "bits"],
        Job::Puzzle(PuzzleJob::CountUpTo(Group::Symmetries)),
        1,
        Some(TableKind::Bits),
    ),
    Line(
        &["count", "--up-to=rotations", "--workers=8"],
        Job::Puzzle(PuzzleJob::CountUpTo(Group::Rotations)),
        8,
        None,
    ),
    Line(
        &["options", "--up-to", "rotations"],
        Job::Puzzle(PuzzleJob::OptionsUpTo(Group::Rotations)),
        1,
        None,
    ),
    Line(&["debug"], Job::Puzzle(PuzzleJob::Debug), 1, None),
    Line(&["debug", "--cover"], Job::Cover(CoverJob::Debug), 1, None),
    Line(
        &["resume"],
        Job::Resume {
            steps: None,
            list: false,
        },
        1,
        None,
    ),
    Line(
        &["resume", "--list", "--steps", "1"],
        Job::Resume {
            steps: Some(1),
            list: true,
        },
        1,
        None,
    ),
    Line(&["join"], Job::Join(Counted::Covers), 1, None),
    Line(
        &["join", "--packings"],
        Job::Join(Counted::Packings),
        1,
        None,
    ),
    Line(
        &["resume", "--steps=18446744073709551615"],
        Job::Resume {
            steps: Some(u64::MAX),
            list: false,
        },
        1,
        None,
    ),
];

/// Whether words ask for this.
fn is_read(alloc: Global, words: &[&str], wanted: Request) -> bool {
    match parse_line(alloc, words) {
        Ok(read) => read == wanted,
        Err(_) => false,
    }
}

#[test]
fn the_job_is_read(rt: HostRuntime) {
    for line in &LINES {
        let wanted = Request {
            job: line.1,
            workers: line.2,
            table: line.3,
            cache: None,
        };
        assert!(rt; is_read(rt.alloc(), line.0, wanted));
    }
}

/// Words, and the job of one worker and the megabytes that they ask for.
struct CachedLine(&'static [&'static str], Job, u32);

static CACHED: [CachedLine; 5] = [
    CachedLine(&["count", "--cache", "1"], Job::Puzzle(PuzzleJob::Count), 1),
    CachedLine(
        &["count", "--cache=4294967295"],
        Job::Puzzle(PuzzleJob::Count),
        u32::MAX,
    ),
    CachedLine(
        &["count", "--up-to", "rotations", "--cache", "7"],
        Job::Puzzle(PuzzleJob::CountUpTo(Group::Rotations)),
        7,
    ),
    CachedLine(
        &["cover", "--cache", "100", "--count"],
        Job::Cover(CoverJob::Count),
        100,
    ),
    CachedLine(
        &["resume", "--cache", "9"],
        Job::Resume {
            steps: None,
            list: false,
        },
        9,
    ),
];

#[test]
fn the_cache_is_read(rt: HostRuntime) {
    for line in &CACHED {
        let wanted = Request {
            job: line.1,
            workers: 1,
            table: None,
            cache: Some(line.2),
        };
        assert!(rt; is_read(rt.alloc(), line.0, wanted));
    }
}

/// Whether what words ask for, or what was refused of them, ends so over no input: with which status, and whether something is
/// written, and something told.
fn ends_so<R: Threads + Wait + Sync>(
    rt: &R,
    alloc: Global,
    request: Result<Request, LineFault>,
    status: u8,
    writes: bool,
    tells: bool,
) -> bool {
    let ending = ending_under(rt, alloc, &NoGate, request, b"".as_slice());
    ending.status == status
        && ending.written.is_empty() != writes
        && ending.told.is_empty() != tells
}

/// Words of a line.
struct Words(&'static [&'static str]);

/// Asserts that each of these words ends so.
fn assert_end<R: Abort + Threads + Wait + Sync>(
    rt: &R,
    alloc: Global,
    lines: &[Words],
    status: u8,
    writes: bool,
    tells: bool,
) {
    for line in lines {
        let request = parse_line(alloc, line.0);
        assert!(rt; ends_so(rt, alloc, request, status, writes, tells));
    }
}

static HELPED: [Words; 6] = [
    Words(&["--help"]),
    Words(&["cover", "--help"]),
    Words(&["count", "--help"]),
    Words(&["debug", "--help"]),
    Words(&["resume", "--help"]),
    Words(&["--version"]),
];

#[test]
fn help_is_given(rt: HostRuntime) {
    assert_end(&rt, rt.alloc(), &HELPED, 0, true, false);
}

static REFUSED: [Words; 63] = [
    Words(&[]),
    Words(&["cover", "--first", "0"]),
    Words(&["solve", "--first", "x"]),
    Words(&["solve", "--first", "18446744073709551616"]),
    Words(&["cover", "--first"]),
    Words(&["cover", "--first", "1", "--workers", "2"]),
    Words(&["solve", "--workers=32", "--first=1"]),
    Words(&["count", "--first", "1"]),
    Words(&["cover", "--count", "--first", "1"]),
    Words(&["cover", "--count=1"]),
    Words(&["solve", "--count"]),
    Words(&["covers"]),
    Words(&["cover", "--workers", "0"]),
    Words(&["solve", "--workers", "33"]),
    Words(&["count", "--workers", "x"]),
    Words(&["count", "--workers", "-1"]),
    Words(&["cover", "--workers"]),
    Words(&["options", "--workers", "2"]),
    Words(&["debug", "--workers", "2"]),
    Words(&["solve", "--classes"]),
    Words(&["count", "--classes", "2"]),
    Words(&["--classes", "count"]),
    Words(&["debug", "--classes"]),
    Words(&["debug", "--cover", "2"]),
    Words(&["resume", "--steps", "0"]),
    Words(&["resume", "--steps", "x"]),
    Words(&["resume", "--steps", "-1"]),
    Words(&["resume", "--steps", "18446744073709551616"]),
    Words(&["resume", "--steps"]),
    Words(&["resume", "--list", "1"]),
    Words(&["resume", "--workers", "2"]),
    Words(&["count", "--table"]),
    Words(&["cover", "--table", "bit"]),
    Words(&["solve", "--table", "Links"]),
    Words(&["options", "--table", "links"]),
    Words(&["debug", "--table", "bits"]),
    Words(&["resume", "--table", ""]),
    Words(&["solve", "--up-to"]),
    Words(&["count", "--up-to", ""]),
    Words(&["options", "--up-to", "rotation"]),
    Words(&["solve", "--up-to", "Symmetries"]),
    Words(&["solve", "--up-to", "rotations", "--first", "1"]),
    Words(&["solve", "--first=1", "--up-to=symmetries"]),
    Words(&["count", "--up-to", "rotations", "--classes"]),
    Words(&["count", "--classes", "--up-to", "symmetries"]),
    Words(&["cover", "--up-to", "rotations"]),
    Words(&["resume", "--up-to", "rotations"]),
    Words(&["debug", "--up-to", "rotations"]),
    Words(&["options", "--up-to", "rotations", "--up-to", "symmetries"]),
    Words(&["count", "--cache"]),
    Words(&["count", "--cache", "0"]),
    Words(&["count", "--cache", "x"]),
    Words(&["count", "--cache", "4294967296"]),
    Words(&["count", "--cache", "1", "--workers", "2"]),
    Words(&["count", "--cache=1", "--classes"]),
    Words(&["cover", "--cache", "1"]),
    Words(&["cover", "--count", "--cache", "1", "--workers=1"]),
    Words(&["solve", "--cache", "1"]),
    Words(&["options", "--cache", "1"]),
    Words(&["resume", "--cache", "0"]),
    Words(&["resume", "--cache", "1", "--steps", "9"]),
    Words(&["resume", "--list", "--cache", "1"]),
    Words(&["resume", "--cache", "1", "--workers", "2"]),
];

#[test]
fn other_words_are_refused(rt: HostRuntime) {
    assert_end(&rt, rt.alloc(), &REFUSED, 2, false, true);
}

static DONE: [Words; 2] = [Words(&["cover"]), Words(&["cover", "--workers", "2"])];

#[test]
fn a_job_is_done(rt: HostRuntime) {
    assert_end(&rt, rt.alloc(), &DONE, 3, false, true);
}

#[test]
fn want_of_memory_has_its_status(rt: HostRuntime) {
    assert!(rt; ends_so(&rt, rt.alloc(), Err(LineFault::OutOfMemory), 4, false, true));
}
