//! Signed permutation matrices, by which symmetries are composed and inverted.
ghost use Rattle.std.specs.Prelude.{◌≡◌, ◌≤◌, ◌<◌};
ghost use Rattle.poly_cells.specs.Products.{from_at, minus_at, product, row_from, transposed, matrix_number};

use std::marker::Model;

/// A signed permutation matrix: row x takes the coordinate at place `from_x`, with a minus sign where `minus_x`, and so on.
// Six small fields and not nine entries: each row of such a matrix has one entry that isn't 0.
#[derive(Clone, Copy)]
pub(crate) struct SignedPermutation {
    /// The place, 0 to 2, from which row x takes its coordinate; so for y and z.
    pub from_x: u8,
    pub from_y: u8,
    pub from_z: u8,
    pub minus_x: bool,
    pub minus_y: bool,
    pub minus_z: bool,
}

impl Model for SignedPermutation {
    ghost use Rattle.std.specs.Prelude.{◌≤◌};
    ghost use Rattle.poly_cells.specs.Symmetries.{Matrix};

    ghost Value = { Matrix };

    ghost view = { λ m. record {
      from_x = m.from_x;
      from_y = m.from_y;
      from_z = m.from_z;
      minus_x = m.minus_x;
      minus_y = m.minus_y;
      minus_z = m.minus_z;
    } };

    ghost invariant = { λ m. (m.from_x ≤ 2) × (m.from_y ≤ 2) × (m.from_z ≤ 2) };

    ghost inverse = { λ m. record {
      from_x = m.from_x;
      from_y = m.from_y;
      from_z = m.from_z;
      minus_x = m.minus_x;
      minus_y = m.minus_y;
      minus_z = m.minus_z;
    } };
}

impl SignedPermutation {
    /// The place from which row `row` takes its coordinate.
    pub fn source(self, row: u8) -> u8
        ensures value { result ≡ from_at self row }
        ensures limit { result ≤ 2 }
    {
        match row {
            0 => self.from_x,
            1 => self.from_y,
            _ => self.from_z,
        }
    }

    /// Whether row `row` has a minus sign.
    pub fn is_minus(self, row: u8) -> bool
        ensures { result ≡ minus_at self row }
    {
        match row {
            0 => self.minus_x,
            1 => self.minus_y,
            _ => self.minus_z,
        }
    }

    /// The row that takes its coordinate from `place`.
    fn row_from(self, place: u8) -> u8
        ensures value { result ≡ row_from self place }
        ensures limit { result ≤ 2 }
    {
        if self.from_x == place {
            0
        } else if self.from_y == place {
            1
        } else {
            // The three sources are 0, 1 and 2 in some order, so it is the row that is left.
            2
        }
    }

    /// `first`, and then this one.
    pub fn product(self, first: Self) -> Self
        ensures { result ≡ product self first }
    {
        SignedPermutation {
            // A row takes what `first` has brought to its source, and two minus signs make a plus.
            from_x: first.source(self.from_x),
            from_y: first.source(self.from_y),
            from_z: first.source(self.from_z),
            minus_x: self.minus_x != first.is_minus(self.from_x),
            minus_y: self.minus_y != first.is_minus(self.from_y),
            minus_z: self.minus_z != first.is_minus(self.from_z),
        }
    }

    /// The inverse: rows and columns exchanged.
    pub fn transposed(self) -> Self
        ensures { result ≡ transposed self }
    {
        // Such a matrix is orthogonal: its transpose is its inverse.
        let x = self.row_from(0);
        let y = self.row_from(1);
        let z = self.row_from(2);
        SignedPermutation {
            from_x: x,
            from_y: y,
            from_z: z,
            minus_x: self.is_minus(x),
            minus_y: self.is_minus(y),
            minus_z: self.is_minus(z),
        }
    }

    /// The number of the symmetry with this matrix.
    pub fn number(self) -> u8
        ensures value { result ≡ matrix_number self }
        ensures limit { result < 48 }
    {
        // In the list of permutations each source of x has two, and the one whose other sources rise comes first.
        let permutation = 2 * self.from_x + u8::from(self.from_z < self.from_y);
        8 * permutation
            + 4 * u8::from(self.minus_x)
            + 2 * u8::from(self.minus_y)
            + u8::from(self.minus_z)
    }
}
