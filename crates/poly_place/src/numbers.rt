//! The numbers of the items of a puzzle's problem, and the options that they make.
ghost use Rattle.std.specs.Prelude.{◌≡◌, ◌+◌, ◌<◌, ◌≤◌, ℕ, false, length, map};
ghost use Rattle.poly_cells.specs.Sets.{IsIn};
ghost use Rattle.poly_texts.specs.Puzzle.{IsPuzzle, names_of, pieces_of};
ghost use Rattle.poly_cells.specs.Coordinates.{Coordinates};
ghost use Rattle.shared_words.specs.Answers.{Adds, Returns, ReturnsItems};
ghost use Rattle.poly_place.specs.Answers.{AddsTexts};
ghost use Rattle.poly_place.specs.Packings.{every_choice, first_cell, followers, has_room_for, is_any, leaf_of, needed_things, nodes, option_of, place_of, thing_name, things, things_of};
ghost use Rattle.poly_place.specs.Compiled.{cell_items, filled_cells, left_items, needed_names, node_items, node_names, piece_items};

use crate::choice::Choice;
use crate::followers::{fit, following};
use crate::items::{cell_numbers, cell_places, node_name, piece_number};
use crate::nodes::{pairs_of, push_pair, sides_of, tree_for};
use crate::table::bit_index;
use poly_cells::Cell;
use poly_texts::{PieceName, Puzzle};
use std::alloc::{AllocError, Global};
use std::marker::Model;

/// What tells the number of each item of a puzzle's problem: a table of the cells' items, a table of their places, and the trees
/// that keep equal pieces in order.
#[derive(Drop)]
pub struct Numbers<'p> {
    puzzle: &'p Puzzle,
    cells: Vec<u32>,
    places: Vec<u32>,
    pairs: Vec<(PieceName, PieceName)>,
    levels: u32,
    leaves: u32,
    before: u32,
}

impl<'p> Model for Numbers<'p> {
    ghost use Rattle.poly_texts.specs.Puzzle.{PuzzleValue};
    ghost use Rattle.poly_place.specs.Compiled.{IsNumbering};

    ghost Value = { PuzzleValue };

    ghost view = { λ a. a.puzzle.now };

    ghost invariant = { λ a. IsNumbering a.puzzle.now a.cells.items a.places.items a.pairs.items a.levels a.leaves a.before };
}

impl<'p> Numbers<'p> {
    /// The numbers for a puzzle with these required pieces and cells.
    pub fn of(
        alloc: Global,
        puzzle: &'p Puzzle,
        pieces: &[PieceName],
        cells: &[Cell],
    ) -> Result<Numbers<'p>, AllocError>
        requires puzzle { IsPuzzle puzzle.now }
        requires pieces { pieces.now ≡ needed_names puzzle.now }
        requires cells { cells.now ≡ filled_cells puzzle.now }
        ensures { Returns result puzzle.now }
    {
        let numbers = cell_numbers(alloc, puzzle, pieces, cells)?;
        let places = cell_places(alloc, puzzle)?;
        let pairs = pairs_of(alloc, puzzle.kinds())?;
        let (levels, leaves) = tree_for(puzzle.region().cells().len());
        let needed = pieces.len() + cells.len();
        let before = (needed + puzzle.maybe_pieces().len() + puzzle.maybe_cells().len()) as u32;
        Ok(Numbers {
            puzzle,
            cells: numbers,
            places,
            pairs,
            levels,
            leaves,
            before,
        })
    }

    /// The puzzle.
    pub fn puzzle(&self) -> &'p Puzzle
        ensures { result.now ≡ self.now }
    {
        self.puzzle
    }

    /// How many equal pieces follow this one and have to be used.
    pub fn following(&self, name: PieceName) -> usize
        ensures { result ≡ length (followers self.now name) }
    {
        following(self.pairs.as_slice(), self.puzzle, name)
    }

    /// Whether the region has room, from the least of these cells on, for so many copies of as many cells beside them.
    pub fn has_room_for(&self, copies: usize, cells: &[Cell]) -> bool
        requires some { 0 < length cells.now }
        requires inside { IsIn (first_cell cells.now) self.now.region }
        ensures { result ≡ has_room_for self.now copies cells.now }
    {
        let from_there = self.puzzle.region().cells().len() - self.place_of(cells[0]);
        fit(copies, cells.len(), from_there)
    }

    /// How many of the region's cells come before this one.
    fn place_of(&self, cell: Cell) -> usize
        requires { IsIn cell self.now.region }
        ensures { result ≡ place_of self.now.region cell }
    {
        self.places[bit_index(cell.x(), cell.y(), cell.z())] as usize - 1
    }

    /// How many items there are.
    pub fn items(&self) -> usize
        requires { IsPuzzle self.now }
        ensures { result ≡ length (things self.now) }
    {
        self.before as usize + self.pairs.as_slice().len() * (self.leaves as usize - 1)
    }

    /// The option of a choice: its piece, unless that may be used any number of times, its cells, and nodes.
    pub fn option_of(
        &self,
        alloc: Global,
        needed: &[PieceName],
        primary: u32,
        choice: &Choice,
    ) -> Result<Vec<u32>, AllocError>
        requires puzzle { IsPuzzle self.now }
        requires needed { needed.now ≡ needed_names self.now }
        requires primary { primary ≡ length (needed_things self.now) }
        requires member { IsIn choice.now (every_choice self.now) }
        ensures { ReturnsItems result (option_of self.now choice.now) }
    {
        let mut option = Vec::with_capacity(alloc, choice.cells().len() + 1)?;
        self.push_piece(&mut option, needed, primary, choice.name())?;
        self.push_cells(&mut option, choice.cells())?;
        self.push_nodes(&mut option, choice)?;
        Ok(option)
    }

    /// The items of these pieces.
    pub fn items_of(
        &self,
        alloc: Global,
        needed: &[PieceName],
        primary: u32,
        names: &[PieceName],
    ) -> Result<Vec<u32>, AllocError>
        requires puzzle { IsPuzzle self.now }
        requires needed { needed.now ≡ needed_names self.now }
        requires primary { primary ≡ length (needed_things self.now) }
        requires members { (n : ℕ) → IsIn n names.now → IsIn n (names_of (pieces_of self.now)) }
        requires single { (n : ℕ) → IsIn n names.now → is_any self.now n ≡ false }
        ensures { ReturnsItems result (left_items self.now names.now) }
    {
        let mut items = Vec::with_capacity(alloc, names.len())?;
        for name in names {
            items.push(piece_number(self.puzzle, needed, primary, *name))?;
        }
        Ok(items)
    }

    /// Adds the item of a piece, unless it may be used any number of times.
    fn push_piece(
        &self,
        option: &mut Vec<u32>,
        needed: &[PieceName],
        primary: u32,
        name: PieceName,
    ) -> Result<(), AllocError>
        requires puzzle { IsPuzzle self.now }
        requires needed { needed.now ≡ needed_names self.now }
        requires primary { primary ≡ length (needed_things self.now) }
        requires member { IsIn name (names_of (pieces_of self.now)) }
        ensures { Adds result option.old option.new (piece_items self.now name) }
    {
        if self.is_any(name) {
            return Ok(());
        }
        option.push(piece_number(self.puzzle, needed, primary, name))?;
        Ok(())
    }

    /// Whether the piece may be used any number of times.
    fn is_any(&self, name: PieceName) -> bool
        ensures { result ≡ is_any self.now name }
    {
        self.puzzle.is_any(name)
    }

    /// Adds the items of these cells.
    fn push_cells(&self, option: &mut Vec<u32>, cells: &[Cell]) -> Result<(), AllocError>
        requires { (v : Coordinates) → IsIn v cells.now → IsIn v self.now.region }
        ensures { Adds result option.old option.new (cell_items self.now cells.now) }
    {
        for cell in cells {
            option.push(self.cells[bit_index(cell.x(), cell.y(), cell.z())])?;
        }
        Ok(())
    }

    /// Adds the items of the nodes that the leaf of a choice reaches, where its piece is one of equal ones.
    fn push_nodes(&self, option: &mut Vec<u32>, choice: &Choice) -> Result<(), AllocError>
        requires puzzle { IsPuzzle self.now }
        requires member { IsIn choice.now (every_choice self.now) }
        ensures { Adds result option.old option.new (node_items self.now choice.now) }
    {
        if self.pairs.is_empty() {
            return Ok(());
        }
        let leaf = self.leaf_of(choice);
        let mut before = self.before;
        for pair in self.pairs.as_slice() {
            let sides = sides_of(choice.name(), *pair);
            push_pair(option, sides, before, self.levels, leaf)?;
            before += self.leaves - 1;
        }
        Ok(())
    }

    /// The leaf of the least cell of a choice.
    fn leaf_of(&self, choice: &Choice) -> u32
        requires puzzle { IsPuzzle self.now }
        requires member { IsIn choice.now (every_choice self.now) }
        ensures { result ≡ leaf_of self.now choice.now }
    {
        let first = choice.cells()[0];
        self.leaves + self.places[bit_index(first.x(), first.y(), first.z())] - 1
    }

    /// How many items the option of a choice has.
    pub fn size_of(&self, alloc: Global, choice: &Choice) -> Result<usize, AllocError>
        requires puzzle { IsPuzzle self.now }
        requires member { IsIn choice.now (every_choice self.now) }
        ensures { Returns result (length (things_of self.now choice.now)) }
    {
        let cells = choice.cells().len();
        let pieces = if self.is_any(choice.name()) { 0 } else { 1 };
        let mut nodes = Vec::new(alloc);
        self.push_nodes(&mut nodes, choice)?;
        Ok(pieces + cells + nodes.len())
    }

    /// Adds the names of all nodes.
    pub fn add_node_names(&self, alloc: Global, names: &mut Vec<String>) -> Result<(), AllocError>
        ensures { AddsTexts result names.old names.new (node_names self.now) }
    {
        for pair in self.pairs.as_slice() {
            self.add_tree_names(alloc, names, *pair)?;
        }
        Ok(())
    }

    /// Adds the names of the nodes of a pair's tree.
    fn add_tree_names(
        &self,
        alloc: Global,
        names: &mut Vec<String>,
        pair: (PieceName, PieceName),
    ) -> Result<(), AllocError>
        ensures { AddsTexts result names.old names.new (map thing_name (nodes self.now pair)) }
    {
        for node in 1..self.leaves {
            names.push(node_name(alloc, pair.0, node)?)?;
        }
        Ok(())
    }
}
