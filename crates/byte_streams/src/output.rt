//! Writing a whole text.
ghost use Rattle.std.specs.Prelude.{OnOk, OnErr};
ghost use Rattle.byte_streams.specs.Stream.{TakesAll, TakesPart, CountsAlone, StopsAtFailure};

use crate::stream::{Failed, Sink};

/// Writes the text by as many writes as it takes. None that fails is tried again.
pub fn write_whole<S: Sink>(sink: &mut S, text: &[u8]) -> Result<(), Failed>
    ensures all { OnOk result (TakesAll (S.stream sink.old) (S.stream sink.new) text.now) }
    ensures counts { OnOk result (CountsAlone (S.stream sink.old) (S.stream sink.new)) }
    ensures stopped { OnErr result (StopsAtFailure (S.stream sink.old) (S.stream sink.new)) }
    ensures part { OnErr result (TakesPart (S.stream sink.old) (S.stream sink.new) text.now) }
{
    let mut rest = text;
    while !rest.is_empty() {
        let Ok(count) = sink.write(rest) else {
            return Err(Failed);
        };
        // At least one byte was taken, so the rest gets shorter and the loop ends.
        let (_, left) = rest.split_at(count);
        rest = left;
    }
    Ok(())
}
