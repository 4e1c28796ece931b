//! The symbols that show pieces: the name of a piece, or for its copies the symbols of its line in turn.
ghost use Rattle.std.specs.Prelude.{◌≡◌, ◌<◌, true, find, flat_map, length, option_map, IfSome};
ghost use Rattle.std.specs.List.{list_any};
ghost use Rattle.poly_texts.specs.Kinds.{kind_copies};
ghost use Rattle.poly_place.specs.Layers.{begins_with, is_earlier_copy, copy_rank, shown_symbol};
ghost use Rattle.poly_place.specs.Packings.{first_cell};

use crate::choice::Choice;
use crate::packing::Packing;
use poly_cells::Cell;
use poly_texts::{PieceKind, PieceName};

/// What shows a piece of the packing: its name; or of the symbols that show its copies in turn that of the copy's rank.
pub fn shown_symbol(packing: &Packing<'_>, choice: &Choice) -> u8
    ensures value { result ≡ shown_symbol packing.now choice.now }
    ensures ascii { result < 128 }
{
    match word_of(packing.kinds(), choice.name()) {
        Some(word) => word[copy_rank(packing.placements(), choice) % word.len()].symbol(),
        None => choice.name().symbol(),
    }
}

/// The symbols that begin with the name, if there are such, of a kind that shows its copies by them.
fn word_of(kinds: &[PieceKind], name: PieceName) -> Option<&[PieceName]>
    ensures value { option_map (λ word. word.now) result ≡
        find (begins_with name) (flat_map kind_copies kinds.now) }
    ensures some { IfSome result (λ word. 0 < length word.now) }
{
    for k in 0..kinds.len() {
        if shows_copies(&kinds[k], name) {
            return Some(kinds[k].symbols());
        }
    }
    None
}

/// Whether the copies of the kind's piece are shown by several symbols, which begin with the name.
fn shows_copies(kind: &PieceKind, name: PieceName) -> bool
    ensures value { result ≡ list_any (begins_with name) (kind_copies kind.now) }
    ensures some { result ≡ true → 0 < length kind.now.symbols }
{
    let symbols = kind.symbols();
    kind.usage().is_any() && symbols.len() > 1 && begins_with(name, symbols)
}

/// Whether the symbols begin with the name.
fn begins_with(name: PieceName, word: &[PieceName]) -> bool
    ensures value { result ≡ begins_with name word.now }
    ensures some { result ≡ true → 0 < length word.now }
{
    match word.first() {
        Some(first) => *first == name,
        None => false,
    }
}

/// How many copies of the piece come before this one.
fn copy_rank(placements: &[Choice], choice: &Choice) -> usize
    ensures { result ≡ copy_rank placements.now choice.now }
{
    let mut rank = 0;
    for other in placements {
        if is_earlier_copy(choice, other) {
            rank += 1;
        }
    }
    rank
}

/// Whether the second is a copy of the same piece whose least cell comes before that of the first.
fn is_earlier_copy(choice: &Choice, other: &Choice) -> bool
    ensures { result ≡ is_earlier_copy choice.now other.now }
{
    other.name() == choice.name()
        && first_cell(other.cells())
            .cmp(&first_cell(choice.cells()))
            .is_lt()
}

/// The least of the cells.
fn first_cell(cells: &[Cell]) -> Cell
    ensures { result ≡ first_cell cells.now }
{
    match cells.first() {
        Some(cell) => *cell,
        None => Cell::new(0, 0, 0).unwrap(),
    }
}
