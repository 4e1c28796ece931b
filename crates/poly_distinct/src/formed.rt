//! Pieces with their forms and those of their mirror images, and how they may be used.
ghost use Rattle.std.specs.Prelude.{◌≡◌, ◌==◌, length, filter};
ghost use Rattle.std.specs.List.{position_or_len};
ghost use Rattle.std.specs.Ordering.{is_eq};
ghost use Rattle.shared_words.specs.Answers.{Returns, ReturnsItems};
ghost use Rattle.poly_texts.specs.Kinds.{given_if};
ghost use Rattle.poly_texts.specs.Puzzle.{is_needed, is_spare};
ghost use Rattle.poly_texts.specs.Usages.{are_copies};
ghost use Rattle.poly_place.specs.Placements.{cells_cmp};
ghost use Rattle.poly_distinct.specs.Exchange.{role_of, same_role, formed_piece, forms_by, takes_symmetry, has_form, is_like, is_image};
ghost use Rattle.poly_distinct.specs.Exchange.{mates_of};

use poly_cells::{Shape, Symmetry};
use poly_texts::{PieceKind, PieceName, Puzzle};
use std::alloc::{AllocError, Global};
use std::marker::Model;

/// How a piece may be used.
#[derive(Drop)]
pub struct Role {
    mirrored: bool,
    needed: bool,
    any: bool,
    // Of the group of equal pieces: how many come before it, how many there are, and how many are spare.
    place: usize,
    mates: usize,
    spares: usize,
}

impl Model for Role {
    ghost use Rattle.poly_distinct.specs.Exchange.{RoleValue};

    ghost Value = { RoleValue };

    ghost view = { λ a. record {
      mirrored = a.mirrored;
      needed = a.needed;
      any = a.any;
      place = a.place;
      mates = a.mates;
      spares = a.spares;
    } };
}

/// A piece with its name, its forms, those of its mirror image, and how it may be used.
#[derive(Drop)]
pub struct FormedPiece {
    name: PieceName,
    shape: Shape,
    forms: Vec<Shape>,
    images: Vec<Shape>,
    role: Role,
}

impl Model for FormedPiece {
    ghost use Rattle.poly_distinct.specs.Exchange.{FormedValue};

    ghost Value = { FormedValue };

    ghost view = { λ a. record {
      name = a.name;
      cells = a.shape;
      forms = a.forms.items;
      images = a.images.items;
      role = a.role;
    } };
}

impl FormedPiece {
    /// That of a piece of the puzzle.
    pub fn of(
        alloc: Global,
        puzzle: &Puzzle,
        name: PieceName,
        shape: &Shape,
    ) -> Result<FormedPiece, AllocError>
        ensures { Returns result (formed_piece puzzle.now (name, shape.now)) }
    {
        let role = Role::of(puzzle, name);
        let both = puzzle.is_mirrored(name);
        let forms = all_forms(alloc, shape, true, both)?;
        let images = all_forms(alloc, shape, false, both)?;
        Ok(FormedPiece {
            name,
            shape: shape.copy()?,
            forms,
            images,
            role,
        })
    }

    /// The name.
    pub fn name(&self) -> PieceName
        ensures { result ≡ self.now.name }
    {
        self.name
    }

    /// Whether the other one is this piece turned, and may be used as it.
    pub fn is_like(&self, other: &FormedPiece) -> bool
        ensures { result ≡ is_like self.now other.now }
    {
        has_form(other.forms.as_slice(), &self.shape) && other.role.is_same(&self.role)
    }

    /// Whether this piece is the mirror image of the other one, turned.
    pub fn is_mirrored(&self, other: &FormedPiece) -> bool
        ensures { result ≡ has_form other.now.images self.now.cells }
    {
        has_form(other.images.as_slice(), &self.shape)
    }

    /// Whether this piece is the mirror image of the other one, turned, and the other one may be used as it.
    pub fn is_image(&self, other: &FormedPiece) -> bool
        ensures { result ≡ is_image self.now other.now }
    {
        self.is_mirrored(other) && other.role.is_same(&self.role)
    }
}

impl Role {
    /// That of a piece of the puzzle.
    fn of(puzzle: &Puzzle, name: PieceName) -> Role
        ensures { result ≡ role_of puzzle.now name }
    {
        let mates = mates(puzzle, name);
        Role {
            mirrored: puzzle.is_mirrored(name),
            needed: is_needed(puzzle, name),
            any: puzzle.is_any(name),
            place: place_of(mates, name),
            mates: mates.len(),
            spares: spares(puzzle, mates),
        }
    }

    /// Whether the two are the same.
    fn is_same(&self, other: &Role) -> bool
        ensures { result ≡ same_role self.now other.now }
    {
        self.mirrored == other.mirrored
            && self.needed == other.needed
            && self.any == other.any
            && self.place == other.place
            && self.mates == other.mates
            && self.spares == other.spares
    }
}

/// Whether the piece has to be used, or left out as a spare copy.
pub fn is_needed(puzzle: &Puzzle, name: PieceName) -> bool
    ensures { result ≡ is_needed puzzle.now name }
{
    !puzzle.is_maybe(name) && !puzzle.is_any(name)
}

/// The names of the equal pieces among which one is, or none.
pub fn mates(puzzle: &Puzzle, name: PieceName) -> &[PieceName]
    ensures { result.now ≡ mates_of puzzle.now name }
{
    match puzzle.kind_of(name) {
        Some(kind) => copies(kind),
        None => &[],
    }
}

/// The names of the pieces of a kind, if they are equal ones.
fn copies(kind: &PieceKind) -> &[PieceName]
    ensures { result.now ≡ given_if (are_copies kind.now.usage) kind.now.symbols }
{
    if kind.usage().are_copies() {
        kind.symbols()
    } else {
        &[]
    }
}

/// How many of the names come before one.
fn place_of(names: &[PieceName], name: PieceName) -> usize
    ensures { result ≡ position_or_len (λ n. n == name) names.now }
{
    names.iter().take_while(|other| **other != name).count()
}

/// How many of the names are those of spare pieces.
fn spares(puzzle: &Puzzle, names: &[PieceName]) -> usize
    ensures { result ≡ length (filter (is_spare puzzle.now) names.now) }
{
    names.iter().filter(|name| puzzle.is_spare(**name)).count()
}

/// The piece turned by rotations, or by reflections, or by both.
fn all_forms(
    alloc: Global,
    piece: &Shape,
    rotations: bool,
    both: bool,
) -> Result<Vec<Shape>, AllocError>
    ensures { ReturnsItems result (forms_by (takes_symmetry rotations both) piece.now) }
{
    let mut forms = Vec::new(alloc);
    for n in 0..48 {
        let symmetry = Symmetry::new(n);
        if is_taken(symmetry, rotations, both) {
            forms.push(piece.turned(symmetry)?)?;
        }
    }
    Ok(forms)
}

/// Whether a symmetry is a rotation, or not, or any where both are taken.
fn is_taken(symmetry: Symmetry, rotations: bool, both: bool) -> bool
    ensures { result ≡ takes_symmetry rotations both symmetry }
{
    symmetry.is_rotation() == rotations || both
}

/// Whether a piece is one of these forms.
fn has_form(forms: &[Shape], piece: &Shape) -> bool
    ensures { result ≡ has_form forms.now piece.now }
{
    forms.iter().any(|form| are_same_cells(form, piece))
}

/// Whether two shapes have the same cells.
fn are_same_cells(shape: &Shape, other: &Shape) -> bool
    ensures { result ≡ is_eq (cells_cmp shape.now other.now) }
{
    shape.cells().cmp(&other.cells()).is_eq()
}
