//! Reading the whole input, up to a limit.
ghost use Rattle.std.specs.Prelude.{◌≡◌, ◌<◌, ◌≤◌, ◌+◌, IfOk, IfErr, OnOk, length, vec_len};
ghost use Rattle.std.specs.Io.KnownBytes.{IsAtEnd};
ghost use Rattle.byte_streams.specs.Stream.{IsSound, AnswersOnce};
ghost use Rattle.byte_streams.specs.Input.{most_input, BringsBytes, IsAllOf, StopsAtEnd, AsksNoMore};
ghost use Rattle.byte_streams.specs.Input.{StopsReading, StopsAfter, LacksMemoryWithin};

use crate::stream::Source;
use std::alloc::{AllocError, Global};
use thiserror::Error;

/// The most bytes that are read.
// 2^27. An input without an end would take all memory before anything is known of it.
const MOST_INPUT: usize = 134_217_728;

/// How many bytes one read asks for.
// A pipe of Linux holds so many.
const CHUNK: usize = 65_536;

/// Why the input was not read.
#[derive(Clone, Copy, Debug, PartialEq, Eq, Error)]
pub enum InputFault {
    /// A read failed.
    #[error("the input could not be read")]
    Failed,
    /// The input goes on past the limit.
    #[error("the input is too long")]
    PastLimit,
    /// There is no memory for the input.
    #[error("out of memory")]
    OutOfMemory,
}

/// So many zeros.
fn zeros(alloc: Global, count: usize) -> Result<Vec<u8>, AllocError>
    ensures { IfOk result (λ chunk. vec_len chunk ≡ count) }
{
    vec![in alloc; 0u8; count]
}

/// Reads once and appends what came, if all is within the limit; answers how many bytes came.
fn read_some<S: Source>(
    source: &mut S,
    chunk: &mut [u8],
    text: &mut Vec<u8>,
) -> Result<usize, InputFault>
    requires room { 0 < length chunk.old }
    requires within { vec_len text.old ≤ most_input }
    ensures grown { IfOk result (λ count. vec_len text.new ≡ vec_len text.old + count) }
    ensures within { OnOk result (vec_len text.new ≤ most_input) }
    ensures read { OnOk result (BringsBytes (S.stream source.old) (S.stream source.new)
        text.old.items text.new.items) }
    ensures end { IfOk result (λ count. count ≡ 0 → IsAtEnd (S.stream source.new).bytes) }
    ensures sound { OnOk result (IsSound (S.stream source.old) (S.stream source.new)) }
    ensures once { OnOk result (AnswersOnce (S.stream source.old) (S.stream source.new) result) }
    ensures stopped { IfErr result (AsksNoMore (S.stream source.old) (S.stream source.new)) }
    ensures fault { IfErr result (StopsAfter (length text.old.items)
        (S.stream source.old) (S.stream source.new)) }
{
    // The chunk is apart from the text: so the text grows by what came, and a failed read leaves it as it is.
    let Ok(count) = source.read(chunk) else {
        return Err(InputFault::Failed);
    };
    // As a difference it can't overflow: the text is never longer than the limit.
    if count > MOST_INPUT - text.len() {
        return Err(InputFault::PastLimit);
    }
    if text.extend_from_slice(&chunk[..count]).is_err() {
        return Err(InputFault::OutOfMemory);
    }
    Ok(count)
}

/// Reads to the end. No read that fails is tried again, and none follows the one that tells the end.
pub fn read_whole<S: Source>(alloc: Global, source: &mut S) -> Result<Vec<u8>, InputFault>
    ensures all { IfOk result (λ text. IsAllOf text.items (S.stream source.old)) }
    ensures within { IfOk result (λ text. length text.items ≤ most_input) }
    ensures sound { OnOk result (IsSound (S.stream source.old) (S.stream source.new)) }
    ensures end { OnOk result (StopsAtEnd (S.stream source.old) (S.stream source.new)) }
    ensures stopped { IfErr result (AsksNoMore (S.stream source.old) (S.stream source.new)) }
    ensures fault { IfErr result (StopsReading (S.stream source.old) (S.stream source.new)) }
    ensures memory { IfErr result (LacksMemoryWithin (S.stream source.old) (S.stream source.new)) }
{
    // It takes no memory until bytes come, and then by doubling.
    let mut text = Vec::new(alloc);
    let Ok(mut chunk) = zeros(alloc, CHUNK) else {
        return Err(InputFault::OutOfMemory);
    };
    loop {
        let count = read_some(source, &mut chunk, &mut text)?;
        // The chunk isn't empty, so only the end is read as no bytes.
        if count == 0 {
            return Ok(text);
        }
    }
}
