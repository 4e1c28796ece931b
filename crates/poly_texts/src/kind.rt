//! A kind of pieces: what one line of a puzzle text says.
ghost use Rattle.std.specs.Prelude.{◌≡◌, ◌-◌, length, take, drop};
ghost use Rattle.std.specs.List.{list_all};
ghost use Rattle.poly_texts.specs.Kinds as spec;

use crate::form::Form;
use crate::name::PieceName;
use crate::usage::Usage;
use poly_cells::Shape;
use std::marker::Model;

/// Pieces of one shape that are used in one way: one piece, or several equal ones.
#[derive(Drop)]
pub struct PieceKind {
    pub(crate) form: Form,
    pub(crate) symbols: Vec<PieceName>,
    pub(crate) shape: Shape,
}

impl Model for PieceKind {
    ghost use Rattle.poly_texts.specs.Kinds.{KindValue, kind_with};

    ghost Value = { KindValue };

    ghost view = { λ k. kind_with k.form k.symbols.items k.shape };
}

impl PieceKind {
    /// The symbols of its line, in their order: the names of its pieces; or the name of a piece that may be used any number of times, and
    /// then the other symbols by which its copies are shown.
    pub fn symbols(&self) -> &[PieceName]
        ensures { result.now ≡ self.now.symbols }
    {
        self.symbols.as_slice()
    }

    /// The names of its pieces, in the order of the text.
    pub fn names(&self) -> &[PieceName]
        ensures { result.now ≡ spec.kind_names self.now }
    {
        match self.form.usage {
            Usage::Once => self.symbols(),
            Usage::Maybe => self.symbols(),
            Usage::Any => first_of(self.symbols()),
            Usage::Copies => self.symbols(),
        }
    }

    /// The names of spare copies: the last ones of equal pieces, which may be left out.
    pub fn spare(&self) -> &[PieceName]
        ensures { result.now ≡ spec.kind_spare self.now }
    {
        let symbols = self.symbols();
        &symbols[symbols.len().saturating_sub(self.form.spare)..]
    }

    /// The cells of each piece. The least corner is at 0 0 0.
    pub fn shape(&self) -> &Shape
        ensures { result.now ≡ self.now.cells }
    {
        &self.shape
    }

    /// How its pieces are used.
    pub fn usage(&self) -> Usage
        ensures { result ≡ self.now.usage }
    {
        self.form.usage
    }

    /// Whether its pieces may be reflected.
    pub fn is_mirrored(&self) -> bool
        ensures { result ≡ self.now.mirrored }
    {
        self.form.is_mirrored
    }

    /// Whether no packing has to use a piece of it.
    pub fn is_unneeded(&self) -> bool
        ensures { result ≡ spec.is_unneeded self.now }
    {
        let usage = self.form.usage;
        usage.is_maybe() || usage.is_any() || self.form.spare == self.symbols.len()
    }
}

/// The first of the names, where there is one.
fn first_of(names: &[PieceName]) -> &[PieceName]
    ensures { result.now ≡ take 1 names.now }
{
    if names.is_empty() { names } else { &names[..1] }
}

/// Whether no packing has to use a piece of these kinds.
pub fn are_unneeded(kinds: &[PieceKind]) -> bool
    ensures { result ≡ list_all spec.is_unneeded kinds.now }
{
    kinds.iter().all(|kind| kind.is_unneeded())
}
