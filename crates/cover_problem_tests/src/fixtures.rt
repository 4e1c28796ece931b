//! Texts that several tests read.
use cover_problem::{Problem, read_cover};
use std::alloc::{AllocError, Global};

/// The small problem.
pub const SMALL: &[u8] =
    b"items a b c d e f g\noption c e\noption a d g\noption b c f\noption a d f\noption b g\noption d e g\n";

/// A text of one item and so many options.
pub fn many_options(alloc: Global, count: u32) -> Result<Vec<u8>, AllocError> {
    let mut text = Vec::new(alloc);
    text.extend_from_slice(b"items a\n")?;
    for _ in 0..count {
        text.extend_from_slice(b"option a\n")?;
    }
    Ok(text)
}

/// Whether a text is read as this problem.
pub fn is_read(alloc: Global, problem: &Problem, text: &[u8]) -> bool {
    let Ok(read) = read_cover(alloc, text) else {
        return false;
    };
    problem.same(&read)
}
