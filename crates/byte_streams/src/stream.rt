//! Where bytes come from and where they go.
ghost use Rattle.std.specs.Prelude.{◌<◌, IfOk, OnOk, OnErr, length};
ghost use Rattle.std.specs.Io.{ReadsAtMost, WritesAtMost};
ghost use Rattle.byte_streams.specs.Stream.{Stream, IsSound, HasFailed, AnswersOnce, IsToldByAnswers, LosesRead, GainsWritten};

/// A read or a write failed.
#[derive(Clone, Copy, Debug, PartialEq, Eq)]
// It has no field: one failure is as good as another, and no caller asks for its kind.
pub struct Failed;

/// Where bytes come from.
pub trait Source {
    // The bytes that it has left, where they are known, whether a read failed, and what reads have answered.
    ghost stream: { Self → Stream };

    /// Reads some bytes; none only at the end, or into no room.
    fn read(&mut self, chunk: &mut [u8]) -> Result<usize, Failed>
        ensures bound { ReadsAtMost result chunk.new }
        ensures bytes { LosesRead (stream self.old) (stream self.new) result chunk.new }
        ensures once { AnswersOnce (stream self.old) (stream self.new) result }
        ensures told { IsToldByAnswers (stream self.new) }
        ensures sound { OnOk result (IsSound (stream self.old) (stream self.new)) }
        ensures failed { OnErr result (HasFailed (stream self.new)) };
}

/// Where bytes go.
pub trait Sink {
    // The bytes that it holds, where they are known, whether a write failed, and what writes have answered.
    ghost stream: { Self → Stream };

    /// Takes a beginning of the text, which is empty only where the text is.
    fn write(&mut self, text: &[u8]) -> Result<usize, Failed>
        ensures bound { WritesAtMost result text.now }
        ensures some { 0 < length text.now → IfOk result (λ count. 0 < count) }
        ensures bytes { GainsWritten (stream self.old) (stream self.new) result text.now }
        ensures once { AnswersOnce (stream self.old) (stream self.new) result }
        ensures told { IsToldByAnswers (stream self.new) }
        ensures sound { OnOk result (IsSound (stream self.old) (stream self.new)) }
        ensures failed { OnErr result (HasFailed (stream self.new)) };
}
