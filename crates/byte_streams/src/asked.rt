//! The only file that calls a reader or a writer of std: each call adds its answer to those before.
ghost use Rattle.std.specs.Prelude.{◌≡◌, ◌<◌, [], IfOk, length};
ghost use Rattle.std.specs.Io.{ReadsAtMost, WritesAtMost};
ghost use Rattle.std.specs.Io.KnownBytes.{ReadConsumes, WriteAppends};
ghost use Rattle.byte_streams.specs.Stream.{NotesCount};

use crate::answers::Answers;
use crate::stream::Failed;
use std::io::{Read, Write};

/// A reader or a writer, and what it has answered.
#[derive(Drop)]
pub struct Asked<S> {
    inner: S,
    answers: Answers,
}

impl<S> Asked<S> {
    /// A stream that has answered nothing yet.
    pub fn new(inner: S) -> Asked<S>
        ensures inner { result.inner ≡ inner }
        ensures answers { result.answers.told ≡ [] }
    {
        Asked {
            inner,
            answers: Answers::new(),
        }
    }
}

impl<R: Read> Asked<R> {
    /// Asks the reader once. Any error is a failure.
    pub fn read(&mut self, chunk: &mut [u8]) -> Result<usize, Failed>
        ensures bound { ReadsAtMost result chunk.new }
        ensures bytes { ReadConsumes (R.remaining self.old.inner) (R.remaining self.new.inner)
            result chunk.new }
        ensures answers { NotesCount self.old.answers.told self.new.answers.told result }
    {
        let answer = match self.inner.read(chunk) {
            Ok(count) => Ok(count),
            // The kind of error isn't kept. None is tried again, not even one that a signal made.
            Err(_) => Err(Failed),
        };
        self.answers = self.answers.with(&answer);
        answer
    }
}

impl<W: Write> Asked<W> {
    /// Asks the writer once. Any error is a failure, and so is a write that takes none of some bytes.
    pub fn write(&mut self, text: &[u8]) -> Result<usize, Failed>
        ensures bound { WritesAtMost result text.now }
        ensures some { 0 < length text.now → IfOk result (λ count. 0 < count) }
        ensures bytes { WriteAppends (W.contents self.old.inner) (W.contents self.new.inner)
            result text.now }
        ensures answers { NotesCount self.old.answers.told self.new.answers.told result }
    {
        let answer = match self.inner.write(text) {
            // A writer that takes nothing of some bytes would be asked for ever.
            Ok(count) if count > 0 || text.is_empty() => Ok(count),
            _ => Err(Failed),
        };
        self.answers = self.answers.with(&answer);
        answer
    }
}
