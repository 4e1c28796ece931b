//! Which piece takes the place of which where packings are reflected.
ghost use Rattle.std.specs.Prelude.{◌≡◌, ◌==◌, ◌&&◌, ◌||◌, not};
ghost use Rattle.std.specs.List.{list_all, list_any};
ghost use Rattle.shared_words.specs.Answers.{Returns, ReturnsItems};
ghost use Rattle.poly_texts.specs.Puzzle.{equal_names, has_name};
ghost use Rattle.poly_distinct.specs.Distinct.{are_equal, are_mirrors, keeps_flags, tells_names};
ghost use Rattle.poly_distinct.specs.Exchange.{mirror_name, has_mirrors, has_form, formed_pieces, pairs_of, partner, rank_among, second_of};

use crate::formed::{FormedPiece, is_needed, mates};
use poly_texts::{PieceName, Puzzle};
use std::alloc::{AllocError, Global};
use std::marker::Model;

/// Which piece takes the place of which where packings of a puzzle are reflected, and whether that brings all pieces to mirror images.
#[derive(Drop)]
pub struct MirrorNames<'p> {
    puzzle: &'p Puzzle,
    pairs: Vec<(PieceName, PieceName)>,
    whole: bool,
}

impl<'p> Model for MirrorNames<'p> {
    ghost use Rattle.std.specs.Prelude.{◌≡◌};
    ghost use Rattle.poly_texts.specs.Puzzle.{PuzzleValue};
    ghost use Rattle.poly_distinct.specs.Exchange.{has_mirrors, formed_pieces, pairs_of};

    ghost Value = { PuzzleValue };

    ghost view = { λ a. a.puzzle.now };

    ghost invariant = { λ a. (a.pairs.items ≡ pairs_of (formed_pieces a.puzzle.now)) × (a.whole ≡ has_mirrors a.puzzle.now) };
}

impl<'p> MirrorNames<'p> {
    /// That of a puzzle.
    pub fn of(alloc: Global, puzzle: &'p Puzzle) -> Result<MirrorNames<'p>, AllocError>
        ensures { Returns result puzzle.now }
    {
        let pieces = formed_pieces(alloc, puzzle)?;
        let pairs = pairs(alloc, pieces.as_slice())?;
        let whole = are_mirrors(puzzle, pieces.as_slice(), pairs.as_slice());
        Ok(MirrorNames {
            puzzle,
            pairs,
            whole,
        })
    }

    /// The name that takes the place of a name.
    pub fn name(&self, name: PieceName) -> PieceName
        ensures { result ≡ mirror_name self.now name }
    {
        second_of(self.pairs.as_slice(), name)
    }

    /// Whether all pieces are brought to their mirror images, so that packings may be reflected.
    pub fn is_whole(&self) -> bool
        ensures { result ≡ has_mirrors self.now }
    {
        self.whole
    }
}

/// The puzzle's pieces with their forms.
fn formed_pieces(alloc: Global, puzzle: &Puzzle) -> Result<Vec<FormedPiece>, AllocError>
    ensures { ReturnsItems result (formed_pieces puzzle.now) }
{
    let pieces = puzzle.pieces();
    let mut formed = Vec::new(alloc);
    for k in 0..pieces.len() {
        let (name, shape) = pieces.get_index(k).unwrap();
        let piece = FormedPiece::of(alloc, puzzle, *name, shape)?;
        formed.push(piece)?;
    }
    Ok(formed)
}

/// Each name with the one that takes its place.
fn pairs(alloc: Global, pieces: &[FormedPiece]) -> Result<Vec<(PieceName, PieceName)>, AllocError>
    ensures { ReturnsItems result (pairs_of pieces.now) }
{
    let mut pairs = Vec::with_capacity(alloc, pieces.len())?;
    for piece in pieces {
        pairs.push((piece.name(), partner(pieces, piece)))?;
    }
    Ok(pairs)
}

/// The name of the piece that stands among the mirror images of one where that stands itself among those that are like it, or its own name.
fn partner(pieces: &[FormedPiece], piece: &FormedPiece) -> PieceName
    ensures { result ≡ partner pieces.now piece.now }
{
    let place = rank(pieces, piece);
    for other in pieces {
        if piece.is_image(other) && rank(pieces, other) == place {
            return other.name();
        }
    }
    piece.name()
}

/// How many like pieces come before a piece.
fn rank(pieces: &[FormedPiece], piece: &FormedPiece) -> usize
    ensures { result ≡ rank_among pieces.now piece.now }
{
    let mut place = 0;
    for other in pieces {
        if other.name() == piece.name() {
            return place;
        }
        place += usize::from(piece.is_like(other));
    }
    place
}

/// The second of the pair with this name as its first, or the name itself where there is none.
fn second_of(pairs: &[(PieceName, PieceName)], name: PieceName) -> PieceName
    ensures { result ≡ second_of pairs.now name }
{
    for pair in pairs {
        if pair.0 == name {
            return pair.1;
        }
    }
    name
}

/// Whether the pairs bring each piece to its mirror image, and are an exchange of names.
fn are_mirrors(puzzle: &Puzzle, pieces: &[FormedPiece], pairs: &[(PieceName, PieceName)]) -> bool
    requires { pieces.now ≡ formed_pieces puzzle.now }
    ensures { result ≡ are_mirrors puzzle.now (second_of pairs.now) }
{
    all_four(
        mirror_pieces(pieces, pairs),
        keep_flags(puzzle, pieces, pairs),
        tell_names(puzzle, pieces, pairs),
        are_onto(pieces, pairs),
    )
}

/// Whether it is all so.
fn all_four(first: bool, second: bool, third: bool, fourth: bool) -> bool
    ensures { result ≡ (first && (second && (third && fourth))) }
{
    first && second && third && fourth
}

/// Whether each piece is the mirror image of the one that takes its place.
fn mirror_pieces(pieces: &[FormedPiece], pairs: &[(PieceName, PieceName)]) -> bool
    ensures { result ≡ list_all (λ k. list_any
        (λ l. (l.name == second_of pairs.now k.name) && has_form l.images k.cells) pieces.now)
        pieces.now }
{
    for piece in pieces {
        if !mirrors_piece(pieces, pairs, piece) {
            return false;
        }
    }
    true
}

/// Whether a piece is the mirror image of the one that takes its place.
fn mirrors_piece(
    pieces: &[FormedPiece],
    pairs: &[(PieceName, PieceName)],
    piece: &FormedPiece,
) -> bool
    ensures { result ≡ list_any
        (λ l. (l.name == second_of pairs.now piece.now.name) && has_form l.images piece.now.cells)
        pieces.now }
{
    let name = second_of(pairs, piece.name());
    for other in pieces {
        if other.name() == name && piece.is_mirrored(other) {
            return true;
        }
    }
    false
}

/// Whether each piece may be used as the one that takes its place.
fn keep_flags(puzzle: &Puzzle, pieces: &[FormedPiece], pairs: &[(PieceName, PieceName)]) -> bool
    ensures { result ≡ list_all (λ k. keeps_flags puzzle.now (second_of pairs.now) k.name)
        pieces.now }
{
    for piece in pieces {
        if !keeps_flags(puzzle, pairs, piece.name()) {
            return false;
        }
    }
    true
}

/// Whether a piece may be reflected, has to be used, may be used any number of times, and is spare, where the one is that takes its place.
fn keeps_flags(puzzle: &Puzzle, pairs: &[(PieceName, PieceName)], name: PieceName) -> bool
    ensures { result ≡ keeps_flags puzzle.now (second_of pairs.now) name }
{
    let other = second_of(pairs, name);
    all_four(
        puzzle.is_mirrored(other) == puzzle.is_mirrored(name),
        is_needed(puzzle, other) == is_needed(puzzle, name),
        puzzle.is_any(other) == puzzle.is_any(name),
        puzzle.is_spare(other) == puzzle.is_spare(name),
    )
}

/// Whether pieces are equal, or the same, where those are that take their places.
fn tell_names(puzzle: &Puzzle, pieces: &[FormedPiece], pairs: &[(PieceName, PieceName)]) -> bool
    ensures { result ≡ list_all (λ k. list_all
        (λ l. tells_names puzzle.now (second_of pairs.now) k.name l.name) pieces.now) pieces.now }
{
    for piece in pieces {
        if !tell_name(puzzle, pieces, pairs, piece.name()) {
            return false;
        }
    }
    true
}

/// Whether a piece is equal to others, or the same, where those are that take their places.
fn tell_name(
    puzzle: &Puzzle,
    pieces: &[FormedPiece],
    pairs: &[(PieceName, PieceName)],
    name: PieceName,
) -> bool
    ensures { result ≡ list_all
        (λ l. tells_names puzzle.now (second_of pairs.now) name l.name) pieces.now }
{
    let first = second_of(pairs, name);
    for piece in pieces {
        let other = piece.name();
        if !tells(puzzle, first, second_of(pairs, other), name, other) {
            return false;
        }
    }
    true
}

/// Whether two pieces are equal, or the same, where those are that take their places.
fn tells(
    puzzle: &Puzzle,
    first: PieceName,
    second: PieceName,
    name: PieceName,
    other: PieceName,
) -> bool
    ensures { result ≡ ((not (first == second) || (name == other))
        && (not (are_equal puzzle.now first second) || are_equal puzzle.now name other)) }
{
    (first != second || name == other)
        && (!are_equal(puzzle, first, second) || are_equal(puzzle, name, other))
}

/// Whether two names are the same, or those of equal pieces.
fn are_equal(puzzle: &Puzzle, name: PieceName, other: PieceName) -> bool
    ensures { result ≡ are_equal puzzle.now name other }
{
    name == other || are_mates(puzzle, name, other)
}

/// Whether one of the groups of equal pieces has both names.
fn are_mates(puzzle: &Puzzle, name: PieceName, other: PieceName) -> bool
    ensures { result ≡ list_any (λ g. has_name g name && has_name g other) (equal_names puzzle.now) }
{
    puzzle.is_sound();
    mates(puzzle, name).contains(&other)
}

/// Whether each piece takes the place of one.
fn are_onto(pieces: &[FormedPiece], pairs: &[(PieceName, PieceName)]) -> bool
    ensures { result ≡ list_all (λ k. list_any
        (λ l. second_of pairs.now l.name == k.name) pieces.now) pieces.now }
{
    for piece in pieces {
        if !is_reached(pieces, pairs, piece.name()) {
            return false;
        }
    }
    true
}

/// Whether a piece takes the place of one.
fn is_reached(pieces: &[FormedPiece], pairs: &[(PieceName, PieceName)], name: PieceName) -> bool
    ensures { result ≡ list_any (λ l. second_of pairs.now l.name == name) pieces.now }
{
    for other in pieces {
        if second_of(pairs, other.name()) == name {
            return true;
        }
    }
    false
}
