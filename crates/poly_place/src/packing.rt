//! Packings of a puzzle, made of the exact covers of its problem.
ghost use Rattle.std.specs.Prelude.{◌≡◌, [], flat_map, map, IfOk};
ghost use Rattle.std.specs.Ordering.{nat_cmp};
ghost use Rattle.poly_cells.specs.Sets.{in_order};
ghost use Rattle.poly_texts.specs.Puzzle.{any_names, copy_symbols};
ghost use Rattle.shared_words.specs.Lists.{has};
ghost use Rattle.cover_problem.specs.ExactCover.{IsExactCover};
ghost use Rattle.shared_words.specs.Answers.{Returns, ReturnsItems};
ghost use Rattle.poly_texts.specs.Kinds.{kind_copies};
ghost use Rattle.poly_place.specs.Packings.{IsPacking, packing_problem};
ghost use Rattle.poly_place.specs.Chosen.{AreInPieceOrder, ArePositive, ComeByPiece, choice_numbered, numbering, is_among, packing_value, OptionsStandFor};

use crate::choice::Choice;
use crate::compiled::Compiled;
use poly_cells::{Cell, Shape};
use poly_texts::{PieceKind, Puzzle};
use std::alloc::{AllocError, Global};
use std::marker::Model;

/// A packing of a puzzle: a placement for each piece that is used, or some for one that may be used any number of times, in the order
/// of the pieces.
#[derive(Drop)]
pub struct Packing<'p> {
    puzzle: &'p Puzzle,
    placements: Vec<Choice>,
}

impl<'p> Model for Packing<'p> {
    ghost use Rattle.poly_texts.specs.Puzzle.{copy_symbols};
    ghost use Rattle.poly_place.specs.Chosen.{PackingValue};

    ghost Value = { PackingValue };

    ghost view = { λ a. record {
      region = a.puzzle.now.region;
      maybe_cells = a.puzzle.now.maybe_cells;
      placements = a.placements.items;
      symbols = copy_symbols a.puzzle.now;
    } };
}

impl<'p> Packing<'p> {
    /// The placements, each with the name of its piece.
    pub fn placements(&self) -> &[Choice]
        ensures { result.now ≡ self.now.placements }
    {
        self.placements.as_slice()
    }

    /// The region.
    pub fn region(&self) -> &Shape
        ensures { result.now ≡ self.now.region }
    {
        self.puzzle.region()
    }

    /// The cells of the region that may stay empty.
    pub fn maybe_cells(&self) -> &[Cell]
        ensures { result.now ≡ self.now.maybe_cells }
    {
        self.puzzle.maybe_cells()
    }

    /// The kinds of pieces, with the symbols that show the copies of a piece in turn.
    pub fn kinds(&self) -> &[PieceKind]
        ensures { flat_map kind_copies result.now ≡ self.now.symbols }
    {
        self.puzzle.kinds()
    }
}

/// The packing for which the options of an exact cover stand, given in any order.
pub fn packing_of<'p>(
    alloc: Global,
    compiled: &Compiled<'p>,
    path: &[u32],
) -> Result<Packing<'p>, AllocError>
    requires { IsExactCover (packing_problem compiled.now) (has path.now) }
    ensures value { Returns result (packing_value compiled.now path.now) }
    ensures packs { IfOk result (λ q. IsPacking compiled.now (is_among q.placements)) }
    ensures stands { IfOk result (λ q. OptionsStandFor compiled.now path.now q.placements) }
    ensures by_piece { IfOk result (λ q. ComeByPiece compiled.now q.placements) }
    ensures order { IfOk result
        (λ q. (any_names compiled.now) ≡ [] → AreInPieceOrder compiled.now q.placements) }
{
    let numbers = in_order(alloc, path)?;
    let placements = chosen(alloc, compiled.choices(), numbers.as_slice())?;
    Ok(Packing {
        puzzle: compiled.puzzle(),
        placements,
    })
}

/// The numbers in order, each once.
fn in_order(alloc: Global, path: &[u32]) -> Result<Vec<u32>, AllocError>
    ensures { ReturnsItems result (in_order nat_cmp path.now) }
{
    let mut numbers = Vec::from_slice(alloc, path)?;
    numbers.sort_unstable();
    numbers.dedup();
    Ok(numbers)
}

/// The choices with these numbers, from 1 on. A number past the last one is none of a choice.
fn chosen(alloc: Global, choices: &[Choice], numbers: &[u32]) -> Result<Vec<Choice>, AllocError>
    requires { ArePositive numbers.now }
    ensures { ReturnsItems result
        (map (choice_numbered choices.now) (numbering choices.now numbers.now)) }
{
    let mut chosen = Vec::with_capacity(alloc, numbers.len())?;
    for number in numbers {
        if *number as usize <= choices.len() {
            chosen.push(choices[*number as usize - 1].copy()?)?;
        }
    }
    Ok(chosen)
}
