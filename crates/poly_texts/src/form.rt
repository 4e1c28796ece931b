//! What the words of a line say of its pieces beside their symbols and cells.
use crate::usage::Usage;

/// How the pieces of a line are used, whether they may be reflected, and how many of them are spare ones, which may be left out.
#[derive(Clone, Copy, Debug, PartialEq, Eq)]
pub struct Form {
    pub(crate) usage: Usage,
    pub(crate) is_mirrored: bool,
    pub(crate) spare: usize,
}
