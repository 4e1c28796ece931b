//! The choices of cuts in memory of their own, as a book keeps them.
ghost use Rattle.std.specs.Prelude.{◌≡◌, ◌↔◌, IfOk, IsTrue};

use std::alloc::{AllocError, Global};
use std::marker::Model;

/// The choices of a cut.
#[derive(Debug, Drop)]
pub struct Path {
    choices: Vec<u32>,
}

impl Model for Path {
    ghost use Rattle.std.specs.Prelude.{ℕ, List};

    ghost Value = { List ℕ };

    ghost view = { λ p. p.choices.items };
}

impl Path {
    /// A copy of choices.
    pub fn of(alloc: Global, choices: &[u32]) -> Result<Path, AllocError>
        ensures { IfOk result (λ path. path ≡ choices.now) }
    {
        let choices = Vec::from_slice(alloc, choices)?;
        Ok(Path { choices })
    }

    /// Choices themselves.
    pub(crate) fn from(choices: Vec<u32>) -> Path
        ensures { result ≡ choices.items }
    {
        Path { choices }
    }

    /// A copy.
    pub(crate) fn copy(&self) -> Result<Path, AllocError>
        ensures { IfOk result (λ path. path ≡ self.now) }
    {
        let choices = self.choices.clone()?;
        Ok(Path { choices })
    }

    /// Whether they are the same choices.
    pub fn same(&self, other: &Path) -> bool
        ensures { IsTrue result ↔ (self.now ≡ other.now) }
    {
        self.choices == other.choices
    }

    /// The choices.
    pub fn choices(&self) -> &[u32]
        ensures { result.now ≡ self.now }
    {
        &self.choices
    }
}
