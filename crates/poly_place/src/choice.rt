//! A piece and a placement of it.
ghost use Rattle.std.specs.Prelude.{◌≡◌};
ghost use Rattle.shared_words.specs.Answers.{Returns};
ghost use Rattle.poly_place.specs.Packings.{choice_with};

use poly_cells::{Cell, Shape};
use poly_texts::PieceName;
use std::alloc::AllocError;
use std::marker::Model;

/// A piece and a placement of it.
#[derive(Drop)]
pub struct Choice {
    name: PieceName,
    cells: Shape,
}

impl Model for Choice {
    ghost use Rattle.poly_place.specs.Packings.{ChoiceValue};

    ghost Value = { ChoiceValue };

    ghost view = { λ a. record { name = a.name; cells = a.cells } };
}

impl Choice {
    ghost use Rattle.std.specs.Prelude.{◌≡◌};

    /// The piece with this name on these cells.
    pub fn new(name: PieceName, cells: Shape) -> Choice
        ensures { result ≡ choice_with name cells }
    {
        Choice { name, cells }
    }

    /// The piece's name.
    pub fn name(&self) -> PieceName
        ensures { result ≡ self.now.name }
    {
        self.name
    }

    /// The cells that the piece takes, in order.
    pub fn cells(&self) -> &[Cell]
        ensures { result.now ≡ self.now.cells }
    {
        self.cells.cells()
    }

    /// An equal choice.
    pub fn copy(&self) -> Result<Choice, AllocError>
        ensures { Returns result self.now }
    {
        Ok(Choice {
            name: self.name,
            cells: self.cells.copy()?,
        })
    }
}
