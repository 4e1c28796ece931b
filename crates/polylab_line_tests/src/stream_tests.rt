//! Broken readers and writers, and a reader without end, under `cover`.

use crate::ending::ending_under;
use crate::request::alone;
use byte_streams::Watched;
use drawn_problems::SMALL;
use lab_pool::NoGate;
use polylab_engine::{CoverJob, Job};
use polylab_line::do_alone;
use std::alloc::Global;
use std::io::{self, ErrorKind, Read, Write};
use std::sync::Wait;
use std::thread::Threads;

/// What is written of the small problem's covers.
const SMALL_OUTPUT: &str = "visit 4 5 1\nvisits 1\nsteps 43\nlevels 1 2 2 1\n";

/// A reader that fails after its bytes.
#[derive(Drop)]
struct Breaks<'a>(&'a [u8]);

impl Read for Breaks<'_> {
    fn read(&mut self, buf: &mut [u8]) -> io::Result<usize> {
        if self.0.is_empty() {
            return Err(io::Error::from(ErrorKind::Other));
        }
        self.0.read(buf)
    }
}

/// A writer that takes a byte a call, so many times.
#[derive(Drop)]
struct Takes {
    left: usize,
    taken: Vec<u8>,
}

impl Write for Takes {
    fn write(&mut self, buf: &[u8]) -> io::Result<usize> {
        if self.left == 0 || buf.is_empty() {
            return Err(io::Error::from(ErrorKind::Other));
        }
        self.left -= 1;
        self.taken.extend_from_slice(&buf[..1])?;
        Ok(1)
    }

    fn flush(&mut self) -> io::Result<()> {
        Ok(())
    }
}

/// A reader that gives its bytes again and again, without end.
#[derive(Drop)]
struct Repeats<'a>(&'a [u8]);

impl Read for Repeats<'_> {
    fn read(&mut self, buf: &mut [u8]) -> io::Result<usize> {
        let mut bytes = self.0;
        bytes.read(buf)
    }
}

/// Whether the input of a reader is refused, and nothing is written.
fn refuses_input<R: Threads + Wait + Sync, I: Read + Drop>(
    rt: &R,
    alloc: Global,
    reader: I,
) -> bool {
    let request = Ok(alone(Job::Cover(CoverJob::List)));
    ending_under(rt, alloc, &NoGate, request, reader).is_so(5, b"", b"refused input\n")
}

/// The same of a reader that fails after so many bytes of the small problem.
fn is_broken_at<R: Threads + Wait + Sync>(rt: &R, alloc: Global, len: usize) -> bool {
    let (bytes, _) = SMALL.as_bytes().split_at(len.min(SMALL.len()));
    refuses_input(rt, alloc, Breaks(bytes))
}

#[test]
fn a_broken_reader_is_told(rt: HostRuntime) {
    for len in 0..=SMALL.len() {
        assert!(rt; is_broken_at(&rt, rt.alloc(), len), "after {len}");
    }
}

/// Whether the comment is refused.
fn refuses_hashes<R: Threads + Wait + Sync>(rt: &R, alloc: Global) -> bool {
    match vec![in alloc; b'#'; 65_536] {
        Ok(hashes) => refuses_input(rt, alloc, Repeats(hashes.as_slice())),
        Err(_) => false,
    }
}

#[test]
fn a_comment_without_end_is_refused(rt: HostRuntime) {
    assert!(rt; refuses_hashes(&rt, rt.alloc()));
}

/// The status of `cover` on the small problem, which it writes to a writer.
fn status_into<O: Write + Drop>(alloc: Global, writer: O, told: &mut Vec<u8>) -> u8 {
    let asked = alone(Job::Cover(CoverJob::List));
    if !asked.is_alone() {
        // This is no status of the program.
        return u8::MAX;
    }
    do_alone(
        alloc,
        asked,
        &mut Watched::reader(SMALL.as_bytes()),
        &mut Watched::writer(writer),
        &mut Watched::writer(told),
    )
}

/// Whether this status and this line are right where so many bytes could be written: all of them, or any other number.
fn is_right_after(left: usize, status: u8, told: &[u8]) -> bool {
    if left == SMALL_OUTPUT.len() {
        status == 0 && told.is_empty()
    } else {
        status == 5 && told == b"refused output\n".as_slice()
    }
}

/// Whether these are the first so many bytes of the small problem's covers.
fn is_begun(taken: &[u8], left: usize) -> bool {
    taken.len() == left && SMALL_OUTPUT.as_bytes().starts_with(taken)
}

/// Whether a writer that takes so many bytes of the small problem's covers gets them, and any other than all of them are told.
fn is_broken_after(alloc: Global, left: usize) -> bool {
    let mut told: Vec<u8> = Vec::new(alloc);
    let mut writer = Takes {
        left,
        taken: Vec::new(alloc),
    };
    let status = status_into(alloc, &mut writer, &mut told);
    is_begun(&writer.taken, left) && is_right_after(left, status, &told)
}

#[test]
fn a_broken_writer_is_told(rt: HostRuntime) {
    for left in 0..SMALL_OUTPUT.len() + 1 {
        assert!(rt; is_broken_after(rt.alloc(), left), "after {left}");
    }
}
