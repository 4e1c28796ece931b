//! The readers and writers of std as sources and sinks.
ghost use Rattle.std.specs.Prelude.{◌≡◌, false, []};
ghost use Rattle.byte_streams.specs.Stream.{has_failure};

use crate::asked::Asked;
use crate::stream::{Failed, Sink, Source};
use std::io::{Read, Write};

/// A reader or a writer, and what it has answered.
#[derive(Drop)]
pub struct Watched<S> {
    asked: Asked<S>,
}

impl<R: Read> Watched<R> {
    /// A reader that has not been asked yet.
    pub fn reader(inner: R) -> Watched<R>
        ensures bytes { (⟦<Watched<R> as Source>⟧.stream result).bytes ≡ R.remaining inner }
        ensures sound { (⟦<Watched<R> as Source>⟧.stream result).failed ≡ false }
        ensures answers { (⟦<Watched<R> as Source>⟧.stream result).answers ≡ [] }
    {
        Watched {
            asked: Asked::new(inner),
        }
    }
}

impl<W: Write> Watched<W> {
    /// A writer that has not been asked yet.
    pub fn writer(inner: W) -> Watched<W>
        ensures bytes { (⟦<Watched<W> as Sink>⟧.stream result).bytes ≡ W.contents inner }
        ensures sound { (⟦<Watched<W> as Sink>⟧.stream result).failed ≡ false }
        ensures answers { (⟦<Watched<W> as Sink>⟧.stream result).answers ≡ [] }
    {
        Watched {
            asked: Asked::new(inner),
        }
    }
}

impl<R: Read> Source for Watched<R> {
    ghost stream = { λ s. record {
      bytes = R.remaining s.asked.inner;
      failed = has_failure s.asked.answers.told;
      answers = s.asked.answers.told;
    } };

    /// Asks the reader once. Any error is a failure.
    fn read(&mut self, chunk: &mut [u8]) -> Result<usize, Failed> {
        self.asked.read(chunk)
    }
}

impl<W: Write> Sink for Watched<W> {
    ghost stream = { λ s. record {
      bytes = W.contents s.asked.inner;
      failed = has_failure s.asked.answers.told;
      answers = s.asked.answers.told;
    } };

    /// Asks the writer once. Any error is a failure, and so is a write that takes none of some bytes.
    fn write(&mut self, text: &[u8]) -> Result<usize, Failed> {
        self.asked.write(text)
    }
}
