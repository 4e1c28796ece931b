//! What keeps the visits of a search.
ghost use Rattle.std.specs.Prelude.{◌≡◌, ◌++◌, ◌∷◌, [], ℕ, List, IfOk, OnOk};

use cover_problem::Lists;
use std::alloc::{AllocError, Global};
use x_texts::VisitText;

/// Visits that are kept, in the order in which they come.
pub trait Visits: Drop {
    // The visits that it keeps.
    ghost visits: { Self → List (List ℕ) };

    /// No visit.
    fn none(alloc: Global) -> Result<Self, AllocError>
        ensures { IfOk result (λ kept. visits kept ≡ []) };

    /// Keeps one visit more.
    fn keep(&mut self, path: &[u32]) -> Result<(), AllocError>
        ensures { OnOk result (visits self.new ≡ visits self.old ++ path.now ∷ []) };
}

/// As lists, to be read again.
impl Visits for Lists {
    ghost visits = { λ lists. lists };

    fn none(alloc: Global) -> Result<Lists, AllocError> {
        Ok(Lists::new(alloc))
    }

    #[inline(always)]
    fn keep(&mut self, path: &[u32]) -> Result<(), AllocError> {
        self.push(path)
    }
}

/// As the text that is written of them.
impl Visits for VisitText {
    ghost visits = { λ text. text };

    fn none(alloc: Global) -> Result<VisitText, AllocError> {
        VisitText::new(alloc)
    }

    #[inline(always)]
    fn keep(&mut self, path: &[u32]) -> Result<(), AllocError> {
        self.push(path)
    }
}
