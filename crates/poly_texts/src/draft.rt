//! What has been read of a puzzle text.
ghost use Rattle.std.specs.Prelude.{◌≡◌, true, false, Ok, ◌<◌, length, IfOk, IfNone};
ghost use Rattle.std.specs.List.Sorted.{IsStrictlySortedBy};
ghost use Rattle.text_lines.specs.Lines.{words_of};
ghost use Rattle.poly_cells.specs.Coordinates.{coordinates_cmp};
ghost use Rattle.text_lines.specs.Answers.{Gives};
ghost use Rattle.poly_texts.specs.Answers.{Becomes};
ghost use Rattle.poly_texts.specs.Puzzle.{PuzzleValue, IsPuzzle, puzzle_from};
ghost use Rattle.poly_texts.specs.Reading as reading;
ghost use Rattle.poly_texts.specs.Reading.{nothing};

mod kind_lines;

use crate::cells::{add_box, add_cells, are_all_in, uncut};
use crate::fault::{Fault, LineRefusal};
use crate::key::{Key, key_of};
use crate::kind::{PieceKind, are_unneeded};
use crate::limits::MOST_REGION_CELLS;
use crate::pieces::{maybe_pieces, pieces_by_name};
use crate::puzzle::Puzzle;
use crate::usage::Usage;
use crate::word::{are_sizes, sizes_of, three_words};
use indexmap::IndexSet;
use poly_cells::{Cell, Shape};
use std::alloc::{AllocError, Global};
use std::marker::Model;
use text_lines::{ByLine, has_words, is_all_plain, outside_comment, split_word};

/// A puzzle as far as its text has been read.
#[derive(Drop)]
pub struct Draft {
    kinds: Vec<PieceKind>,
    is_boxed: bool,
    /// The cells of `box`, `cells` and `maybe cells` lines.
    named: IndexSet<Cell>,
    maybe_cells: IndexSet<Cell>,
    cut: IndexSet<Cell>,
}

impl Model for Draft {
    ghost use Rattle.poly_texts.specs.Reading.{DraftValue};

    ghost Value = { DraftValue };

    ghost view = { λ a. record {
      kinds = a.kinds.items;
      boxed = a.is_boxed;
      named = a.named.keys;
      maybe_cells = a.maybe_cells.keys;
      cut = a.cut.keys;
    } };
}

impl Draft {
    /// The draft of no lines.
    pub fn new(alloc: Global) -> Draft
        ensures { result ≡ nothing }
    {
        Draft {
            kinds: Vec::new(alloc),
            is_boxed: false,
            named: IndexSet::new(alloc),
            maybe_cells: IndexSet::new(alloc),
            cut: IndexSet::new(alloc),
        }
    }

    /// Whether the draft is within the limits.
    fn within(&self) -> Result<(), LineRefusal>
        ensures { Gives (λ _. self.now) result (reading.within self.now) }
    {
        if self.named.len() > MOST_REGION_CELLS {
            return Err(LineRefusal::Fault(Fault::TooLarge));
        }
        Ok(())
    }

    /// Takes the cells of a `box` line.
    #[tactic(auto, unfolding(crate::specs::Reading::box_line))]
    fn take_box(&mut self, words: &[u8]) -> Result<(), LineRefusal>
        ensures { Becomes result self.new (reading.box_line self.old (words_of words.now)) }
    {
        let Some((a, b, c)) = three_words(words) else {
            return Err(LineRefusal::Fault(Fault::BadLine));
        };
        if !are_sizes(a, b, c) {
            return Err(LineRefusal::Fault(Fault::BadLine));
        }
        if self.is_boxed {
            return Err(LineRefusal::Fault(Fault::SecondBox));
        }
        let Some((a, b, c)) = sizes_of(a, b, c) else {
            return Err(LineRefusal::Fault(Fault::TooLarge));
        };
        add_box(&mut self.named, a, b, c)?;
        self.is_boxed = true;
        self.within()
    }

    /// Takes the cells of a `cells` line.
    #[tactic(auto, unfolding(crate::specs::Reading::cells_line))]
    fn take_cells(&mut self, words: &[u8]) -> Result<(), LineRefusal>
        ensures { Becomes result self.new (reading.cells_line self.old (words_of words.now)) }
    {
        if !has_words(words) {
            return Err(LineRefusal::Fault(Fault::BadLine));
        }
        add_cells(&mut self.named, words)?;
        self.within()
    }

    /// Takes the cells of a `maybe cells` line.
    #[tactic(auto, unfolding(crate::specs::Reading::maybe_cells_line))]
    fn take_maybe_cells(&mut self, words: &[u8]) -> Result<(), LineRefusal>
        ensures { Becomes result self.new (reading.maybe_cells_line self.old (words_of words.now)) }
    {
        if !has_words(words) {
            return Err(LineRefusal::Fault(Fault::BadLine));
        }
        add_cells(&mut self.named, words)?;
        add_cells(&mut self.maybe_cells, words)?;
        self.within()
    }

    /// Takes the cells of a `cut` line.
    #[tactic(auto, unfolding(crate::specs::Reading::cut_line))]
    fn take_cut(&mut self, words: &[u8]) -> Result<(), LineRefusal>
        ensures { Becomes result self.new (reading.cut_line self.old (words_of words.now)) }
    {
        if !has_words(words) {
            return Err(LineRefusal::Fault(Fault::BadLine));
        }
        add_cells(&mut self.cut, words)
    }

    /// Takes what a `maybe` line says after that word.
    #[tactic(auto, unfolding(crate::specs::Reading::maybe_line))]
    fn take_maybe(&mut self, alloc: Global, words: &[u8]) -> Result<(), LineRefusal>
        ensures { Becomes result self.new (reading.maybe_line self.old (words_of words.now)) }
    {
        let Some((key, words)) = split_word(words) else {
            return Err(LineRefusal::Fault(Fault::BadLine));
        };
        match key_of(key) {
            Some(Key::Piece) => self.take_piece(alloc, Usage::Maybe, false, words),
            Some(Key::Cells) => self.take_maybe_cells(words),
            Some(Key::Mirror) => self.take_mirror(alloc, Usage::Maybe, words),
            Some(Key::Box)
            | Some(Key::Cut)
            | Some(Key::Maybe)
            | Some(Key::Any)
            | Some(Key::Copies)
            | None => Err(LineRefusal::Fault(Fault::BadLine)),
        }
    }

    /// Takes what an `any` line says after that word.
    #[tactic(auto, unfolding(crate::specs::Reading::any_line))]
    fn take_any(&mut self, alloc: Global, words: &[u8]) -> Result<(), LineRefusal>
        ensures { Becomes result self.new (reading.any_line self.old (words_of words.now)) }
    {
        let Some((key, words)) = split_word(words) else {
            return Err(LineRefusal::Fault(Fault::BadLine));
        };
        match key_of(key) {
            Some(Key::Piece) => self.take_piece(alloc, Usage::Any, false, words),
            Some(Key::Mirror) => self.take_mirror(alloc, Usage::Any, words),
            Some(Key::Cells)
            | Some(Key::Box)
            | Some(Key::Cut)
            | Some(Key::Maybe)
            | Some(Key::Any)
            | Some(Key::Copies)
            | None => Err(LineRefusal::Fault(Fault::BadLine)),
        }
    }

    /// Takes what a `copies` line says after `mirror`, before which no other word stands.
    fn take_mirrored_copies(
        &mut self,
        alloc: Global,
        usage: Usage,
        words: &[u8],
    ) -> Result<(), LineRefusal>
        ensures { Becomes result self.new
            (reading.mirrored_copies self.old usage (words_of words.now)) }
    {
        if !usage.is_once() {
            return Err(LineRefusal::Fault(Fault::BadLine));
        }
        self.take_copies(alloc, true, words)
    }

    /// Takes what a `mirror` line says after that word.
    #[tactic(auto, unfolding(crate::specs::Reading::mirror_line))]
    fn take_mirror(&mut self, alloc: Global, usage: Usage, words: &[u8]) -> Result<(), LineRefusal>
        ensures { Becomes result self.new (reading.mirror_line self.old usage (words_of words.now)) }
    {
        let Some((key, words)) = split_word(words) else {
            return Err(LineRefusal::Fault(Fault::BadLine));
        };
        match key_of(key) {
            Some(Key::Piece) => self.take_piece(alloc, usage, true, words),
            Some(Key::Copies) => self.take_mirrored_copies(alloc, usage, words),
            Some(Key::Cells)
            | Some(Key::Box)
            | Some(Key::Cut)
            | Some(Key::Maybe)
            | Some(Key::Any)
            | Some(Key::Mirror)
            | None => { Err(LineRefusal::Fault(Fault::BadLine)) }
        }
    }

    /// Takes a line of these words.
    #[tactic(auto, unfolding(crate::specs::Reading::words_line))]
    fn take_words(&mut self, alloc: Global, words: &[u8]) -> Result<(), LineRefusal>
        ensures { Becomes result self.new (reading.words_line self.old (words_of words.now)) }
    {
        let Some((key, words)) = split_word(words) else {
            return Ok(());
        };
        match key_of(key) {
            Some(Key::Piece) => self.take_piece(alloc, Usage::Once, false, words),
            Some(Key::Box) => self.take_box(words),
            Some(Key::Cells) => self.take_cells(words),
            Some(Key::Cut) => self.take_cut(words),
            Some(Key::Maybe) => self.take_maybe(alloc, words),
            Some(Key::Any) => self.take_any(alloc, words),
            Some(Key::Mirror) => self.take_mirror(alloc, Usage::Once, words),
            Some(Key::Copies) => self.take_copies(alloc, false, words),
            None => Err(LineRefusal::Fault(Fault::BadLine)),
        }
    }

    /// The cells of the region, in order.
    fn region(&self, alloc: Global) -> Result<Vec<Cell>, AllocError>
        ensures value { IfOk result (λ cells. cells.items ≡ reading.region_of self.now) }
        ensures rises { IfOk result (λ cells. IsStrictlySortedBy coordinates_cmp cells.items) }
    {
        uncut(alloc, &self.named, &self.cut)
    }

    /// The cells of the region that may stay empty, in order.
    fn optional_cells(&self, alloc: Global) -> Result<Vec<Cell>, AllocError>
        ensures { IfOk result (λ cells. cells.items ≡ reading.maybe_region_of self.now) }
    {
        uncut(alloc, &self.maybe_cells, &self.cut)
    }

    /// The fault of a whole text with this region, if it has one.
    fn whole_fault(&self, region: &[Cell]) -> Option<Fault>
        ensures fault { result ≡ reading.whole_fault self.now.kinds region.now self.now.maybe_cells }
        ensures some { IfNone result (0 < length region.now) }
    {
        if region.is_empty() {
            return Some(Fault::EmptyRegion);
        }
        if self.kinds.is_empty() {
            return Some(Fault::NoPiece);
        }
        if are_unneeded(self.kinds.as_slice()) && are_all_in(region, &self.maybe_cells) {
            return Some(Fault::NothingRequired);
        }
        None
    }

    /// The region of a whole text, and its cells that may stay empty.
    #[tactic(auto, unfolding(crate::specs::Reading::whole_puzzle))]
    fn whole_region(&self, alloc: Global) -> Result<(Shape, Vec<Cell>), LineRefusal>
        ensures { Gives (λ r. puzzle_from self.now.kinds r.0 r.1.items) result (reading.whole_puzzle self.now) }
    {
        let region = self.region(alloc)?;
        let maybe_cells = self.optional_cells(alloc)?;
        if let Some(fault) = self.whole_fault(region.as_slice()) {
            return Err(LineRefusal::Fault(fault));
        }
        Ok((Shape::new(region), maybe_cells))
    }

    /// The puzzle of the kinds, with this region and these cells of it that may stay empty.
    fn with_region(
        self,
        alloc: Global,
        region: Shape,
        maybe_cells: Vec<Cell>,
    ) -> Result<Puzzle, AllocError>
        requires { IsPuzzle (puzzle_from self.kinds region maybe_cells.items) }
        ensures { IfOk result (λ p. p ≡ puzzle_from self.kinds region maybe_cells.items) }
    {
        let pieces = pieces_by_name(alloc, self.kinds.as_slice())?;
        let maybe_pieces = maybe_pieces(alloc, self.kinds.as_slice())?;
        Ok(Puzzle {
            kinds: self.kinds,
            region,
            maybe_cells,
            pieces,
            maybe_pieces,
        })
    }

    /// The puzzle of a whole text.
    pub fn into_puzzle(self, alloc: Global) -> Result<Puzzle, LineRefusal>
        requires { (p : PuzzleValue) → reading.whole_puzzle self ≡ Ok p → IsPuzzle p }
        ensures { Gives (λ p. p) result (reading.whole_puzzle self) }
    {
        let (region, maybe_cells) = self.whole_region(alloc)?;
        Ok(self.with_region(alloc, region, maybe_cells)?)
    }
}

impl ByLine for Draft {
    type Fault = Fault;

    ghost line = { reading.line };

    #[tactic(auto, unfolding(crate::specs::Reading::line, text_lines::specs::Reading::plain_line))]
    fn add_line(&mut self, alloc: Global, bytes: &[u8]) -> Result<(), LineRefusal> {
        let said = outside_comment(bytes);
        if !is_all_plain(said) {
            return Err(LineRefusal::Fault(Fault::BadLine));
        }
        self.take_words(alloc, said)
    }
}
