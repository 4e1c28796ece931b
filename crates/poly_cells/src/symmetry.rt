//! The 48 symmetries of the cube.
ghost use Rattle.std.specs.Prelude.{◌≡◌, ◌<◌, ◌/◌, true};
ghost use Rattle.poly_cells.specs.Symmetries.{matrix, IsComposed, is_rotation};
ghost use Rattle.poly_cells.specs.Products.{is_odd};

use crate::matrix::SignedPermutation;
use std::marker::Model;

/// A symmetry of the cube, numbered from 0 to 47: 8 times the number of its permutation of coordinates in the list
/// 012, 021, 102, 120, 201, 210, and 4, 2 and 1 for a minus sign of x, y and z. Contracts see its number.
#[derive(Clone, Copy, Debug, PartialEq, Eq, Hash, PartialOrd, Ord)]
pub struct Symmetry {
    number: u8,
}

impl Model for Symmetry {
    ghost use Rattle.std.specs.Prelude.{ℕ, ◌<◌};

    ghost Value = { ℕ };

    ghost view = { λ s. s.number };

    ghost invariant = { λ s. s.number < 48 };

    ghost inverse = { λ n. record { number = n } };
}

impl Symmetry {
    /// The symmetry numbered `n`.
    pub fn new(n: u8) -> Self
        requires { n < 48 }
        ensures { result ≡ n }
    {
        Symmetry { number: n }
    }

    /// The number, from 0 to 47.
    pub fn number(self) -> u8
        ensures value { result ≡ self }
        ensures limit { result < 48 }
    {
        self.number
    }

    /// `b` first, then `a`.
    pub fn compose(a: Self, b: Self) -> Self
        ensures composed { IsComposed a b result }
        ensures limit { result < 48 }
        ensures rotation { is_rotation a ≡ true → is_rotation b ≡ true → is_rotation result ≡ true }
    {
        Symmetry {
            // By matrices, where a table would have 48 times 48 numbers.
            number: a.matrix().product(b.matrix()).number(),
        }
    }

    /// The symmetry that undoes this one.
    pub fn inverse(self) -> Self
        ensures before { IsComposed result self 0 }
        ensures behind { IsComposed self result 0 }
        ensures limit { result < 48 }
        ensures rotation { is_rotation self ≡ true → is_rotation result ≡ true }
    {
        Symmetry {
            number: self.matrix().transposed().number(),
        }
    }

    /// Whether the determinant is 1.
    pub fn is_rotation(self) -> bool
        ensures { result ≡ is_rotation self }
    {
        let odd = self.has_odd_permutation();
        let m = self.matrix();
        // Each exchange of two coordinates and each minus sign changes the sign of the determinant.
        !(odd ^ m.minus_x ^ m.minus_y ^ m.minus_z)
    }

    /// Whether an odd number of coordinates change places.
    fn has_odd_permutation(self) -> bool
        ensures { result ≡ is_odd (self / 8) }
    {
        let permutation = self.number / 8;
        // 021, 102 and 210 exchange two coordinates. 012 moves none, and 120 and 201 move three in a ring.
        permutation == 1 || permutation == 2 || permutation == 5
    }

    /// The symmetry's matrix.
    pub(crate) fn matrix(self) -> SignedPermutation
        ensures value { result ≡ matrix self }
        ensures limit { self < 48 }
    {
        let (from_x, from_y, from_z) = match self.number / 8 {
            0 => (0, 1, 2),
            1 => (0, 2, 1),
            2 => (1, 0, 2),
            3 => (1, 2, 0),
            4 => (2, 0, 1),
            _ => (2, 1, 0),
        };
        SignedPermutation {
            from_x,
            from_y,
            from_z,
            minus_x: self.number / 4 % 2 == 1,
            minus_y: self.number / 2 % 2 == 1,
            minus_z: self.number % 2 == 1,
        }
    }
}
