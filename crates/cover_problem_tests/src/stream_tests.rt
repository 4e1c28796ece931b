//! Broken readers and writers, long texts, and input at its limit.

use byte_streams::{InputFault, Watched, read_whole, write_whole};
use std::alloc::AllocError;
use std::io::{self, ErrorKind, Read, Write};

/// A reader that fails after its bytes.
#[derive(Drop)]
struct Breaks<'a>(&'a [u8]);

impl Read for Breaks<'_> {
    fn read(&mut self, buf: &mut [u8]) -> io::Result<usize> {
        if self.0.is_empty() {
            return Err(io::Error::from(ErrorKind::Other));
        }
        self.0.read(buf)
    }
}

/// A reader that makes so many bytes.
#[derive(Drop)]
struct Makes(usize);

impl Read for Makes {
    fn read(&mut self, buf: &mut [u8]) -> io::Result<usize> {
        let count = buf.len().min(self.0);
        self.0 -= count;
        Ok(count)
    }
}

/// A writer that takes a byte a call, so many times, and then none.
#[derive(Drop)]
struct Takes {
    left: usize,
    taken: usize,
}

impl Write for Takes {
    fn write(&mut self, buf: &[u8]) -> io::Result<usize> {
        if self.left == 0 || buf.is_empty() {
            return Ok(0);
        }
        self.left -= 1;
        self.taken = self.taken.wrapping_add(1);
        Ok(1)
    }

    fn flush(&mut self) -> io::Result<()> {
        Ok(())
    }
}

/// How many bytes were read, or why none were.
fn read<R: Read + Drop>(rt: &HostRuntime, reader: R) -> Result<usize, InputFault> {
    let text = read_whole(rt.alloc(), &mut Watched::reader(reader))?;
    Ok(text.len())
}

#[test]
fn a_broken_reader_is_told(rt: HostRuntime) {
    assert!(rt; read(&rt, Breaks(b"")) == Err(InputFault::Failed));
    assert!(rt; read(&rt, Breaks(b"abc")) == Err(InputFault::Failed));
    assert!(rt; read(&rt, b"abc".as_slice()) == Ok(3));
}

#[test]
fn input_is_read_up_to_its_limit(rt: HostRuntime) {
    assert!(rt; read(&rt, Makes(134_217_728)) == Ok(134_217_728));
    assert!(rt; read(&rt, Makes(134_217_729)) == Err(InputFault::PastLimit));
}

/// Whether all of a text was written, and how many bytes were taken.
fn write(left: usize, text: &[u8]) -> (bool, usize) {
    let mut writer = Takes { left, taken: 0 };
    let written = write_whole(&mut Watched::writer(&mut writer), text);
    (written == Ok(()), writer.taken)
}

#[test]
fn a_broken_writer_is_told(rt: HostRuntime) {
    assert!(rt; write(2, b"abc") == (false, 2));
    assert!(rt; write(3, b"abc") == (true, 3));
    assert!(rt; write(0, b"") == (true, 0));
}

/// A reader that gives so many bytes a call, fails at one of its calls, and counts them.
#[derive(Drop)]
struct Gives {
    left: usize,
    most: usize,
    fails_at: usize,
    calls: usize,
}

impl Read for Gives {
    fn read(&mut self, buf: &mut [u8]) -> io::Result<usize> {
        self.calls = self.calls.wrapping_add(1);
        if self.calls == self.fails_at {
            return Err(io::Error::from(ErrorKind::Other));
        }
        let count = buf.len().min(self.left).min(self.most);
        self.left -= count;
        Ok(count)
    }
}

/// What came of reading so many bytes by a reader that fails at one of its calls, and how often it was asked.
fn read_counted(
    rt: &HostRuntime,
    left: usize,
    most: usize,
    fails_at: usize,
) -> (Result<usize, InputFault>, usize) {
    let mut reader = Gives {
        left,
        most,
        fails_at,
        calls: 0,
    };
    let came = read(rt, &mut reader);
    (came, reader.calls)
}

#[test]
fn a_reader_that_fails_once_is_not_asked_again(rt: HostRuntime) {
    assert!(rt; read_counted(&rt, 3, 1, 1) == (Err(InputFault::Failed), 1));
    assert!(rt; read_counted(&rt, 3, 1, 3) == (Err(InputFault::Failed), 3));
    assert!(rt; read_counted(&rt, 3, 1, 4) == (Err(InputFault::Failed), 4));
    assert!(rt; read_counted(&rt, 3, 1, 5) == (Ok(3), 4));
}

#[test]
fn a_long_input_is_read_by_few_calls(rt: HostRuntime) {
    assert!(rt; read_counted(&rt, 1_100_000, 65_536, 0) == (Ok(1_100_000), 18));
    assert!(rt; read_counted(&rt, 1_100_000, 1_000, 0) == (Ok(1_100_000), 1_101));
    assert!(rt; read_counted(&rt, 1_100_000, 65_536, 10) == (Err(InputFault::Failed), 10));
}

/// A writer that takes so many bytes a call, fails at one of its calls, and counts them.
#[derive(Drop)]
struct Keeps {
    taken: usize,
    most: usize,
    fails_at: usize,
    calls: usize,
}

impl Write for Keeps {
    fn write(&mut self, buf: &[u8]) -> io::Result<usize> {
        self.calls = self.calls.wrapping_add(1);
        if self.calls == self.fails_at {
            return Err(io::Error::from(ErrorKind::Other));
        }
        let count = buf.len().min(self.most);
        self.taken = self.taken.wrapping_add(count);
        Ok(count)
    }

    fn flush(&mut self) -> io::Result<()> {
        Ok(())
    }
}

/// Whether all of a text was written by a writer that fails at one of its calls, how many bytes it took, and how often it was asked.
fn write_counted(text: &[u8], most: usize, fails_at: usize) -> (bool, usize, usize) {
    let mut writer = Keeps {
        taken: 0,
        most,
        fails_at,
        calls: 0,
    };
    let written = write_whole(&mut Watched::writer(&mut writer), text);
    (written == Ok(()), writer.taken, writer.calls)
}

#[test]
fn a_writer_that_fails_once_is_not_asked_again(rt: HostRuntime) {
    assert!(rt; write_counted(b"abc", 1, 1) == (false, 0, 1));
    assert!(rt; write_counted(b"abc", 1, 3) == (false, 2, 3));
    assert!(rt; write_counted(b"abc", 1, 4) == (true, 3, 3));
}

#[test]
fn a_long_text_is_written_by_few_calls(rt: HostRuntime) -> Result<(), AllocError> {
    let text = vec![in rt.alloc(); b'a'; 1_100_000]?;
    assert!(rt; write_counted(&text, 2_000_000, 0) == (true, 1_100_000, 1));
    assert!(rt; write_counted(&text, 65_536, 0) == (true, 1_100_000, 17));
    assert!(rt; write_counted(&text, 65_536, 10) == (false, 589_824, 10));
    Ok(())
}
