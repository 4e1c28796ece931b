//! What a stream has answered. It takes no memory, and only contracts read it.
ghost use Rattle.std.specs.Prelude.{◌≡◌, ℕ, List, Option, [], ◌∷◌, ◌++◌};
ghost use Rattle.std.specs.Result.{result_ok};
ghost use Rattle.std.specs.Borrow.{ftrue};

use crate::stream::Failed;
use std::marker::Model;

/// Of each answer so far, in order, how many bytes it told, or none where it was a failure.
#[derive(Drop)]
pub struct Answers {
    pub ghost told: { List (Option ℕ) },
}

impl Model for Answers {
    ghost also_owns = { λ _. ftrue };
}

impl Answers {
    /// No answer yet.
    pub fn new() -> Answers
        ensures { result.told ≡ [] }
    {
        // The list is a ghost: of the answers nothing stands in memory.
        Answers {}
    }

    /// One answer more.
    #[inline(always)]
    pub fn with(&self, _answer: &Result<usize, Failed>) -> Answers
        ensures { result.told ≡ self.now.told ++ result_ok _answer.now ∷ [] }
    {
        Answers {}
    }
}
