//! The 24 rotations of the cube.
ghost use Rattle.std.specs.Prelude.{◌≡◌, ◌<◌, ◌/◌, ◌*◌, slice_index, true};
ghost use Rattle.poly_cells.specs.Symmetries.{rotations, IsComposed, is_rotation};

use crate::symmetry::Symmetry;
use std::marker::Model;

/// A rotation of the cube, numbered from 0 to 23: the symmetries of determinant 1 in rising order of their numbers.
/// Contracts see its number.
#[derive(Clone, Copy, Debug, PartialEq, Eq, Hash, PartialOrd, Ord)]
pub struct Rotation {
    number: u8,
}

impl Model for Rotation {
    ghost use Rattle.std.specs.Prelude.{ℕ, ◌<◌};

    ghost Value = { ℕ };

    ghost view = { λ r. r.number };

    ghost invariant = { λ r. r.number < 24 };

    ghost inverse = { λ n. record { number = n } };
}

impl Rotation {
    /// The rotation numbered `n`.
    pub fn new(n: u8) -> Self
        requires { n < 24 }
        ensures { result ≡ n }
    {
        Rotation { number: n }
    }

    /// The number, from 0 to 23.
    pub fn number(self) -> u8
        ensures value { result ≡ self }
        ensures limit { result < 24 }
    {
        self.number
    }

    /// This rotation among the symmetries.
    pub fn symmetry(self) -> Symmetry
        ensures value { result ≡ slice_index rotations self }
        ensures rotation { is_rotation result ≡ true }
        ensures limit { result < 48 }
    {
        // Each pair of numbers 2 r and 2 r + 1 differs in one sign, so one of the two is a rotation.
        let even = Symmetry::new(2 * self.number);
        if even.is_rotation() {
            even
        } else {
            Symmetry::new(2 * self.number + 1)
        }
    }

    /// `b` first, then `a`.
    pub fn compose(a: Self, b: Self) -> Self
        ensures composed { IsComposed (slice_index rotations a) (slice_index rotations b) (slice_index rotations result) }
        ensures limit { result < 24 }
    {
        Self::of(Symmetry::compose(a.symmetry(), b.symmetry()))
    }

    /// The rotation that undoes this one.
    pub fn inverse(self) -> Self
        ensures before { IsComposed (slice_index rotations result) (slice_index rotations self) 0 }
        ensures behind { IsComposed (slice_index rotations self) (slice_index rotations result) 0 }
        ensures limit { result < 24 }
    {
        Self::of(self.symmetry().inverse())
    }

    /// The rotation that is this symmetry.
    fn of(symmetry: Symmetry) -> Self
        requires { is_rotation symmetry ≡ true }
        ensures value { slice_index rotations result ≡ symmetry }
        ensures limit { result < 24 }
    {
        Rotation {
            // One of each pair of numbers is a rotation, so half of its number is the pair's.
            number: symmetry.number() / 2,
        }
    }
}
