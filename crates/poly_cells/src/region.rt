//! The symmetries of a region.
ghost use Rattle.std.specs.Prelude.{ℕ, ◌<◌, ◌↔◌, ◌≡◌, IfOk, IsTrue};
ghost use Rattle.std.specs.List.Sorted.{IsStrictlyIncreasing};
ghost use Rattle.poly_cells.specs.Sets.{IsIn};
ghost use Rattle.poly_cells.specs.Shapes.{IsShape, normal};
ghost use Rattle.poly_cells.specs.Images.{HasSymmetry};

use crate::shape::Shape;
use crate::symmetry::Symmetry;
use std::alloc::{AllocError, Global};

/// The symmetries after which the region, moved by some translation, is itself, in rising number.
pub fn symmetries_of(alloc: Global, region: &Shape) -> Result<Vec<Symmetry>, AllocError>
    ensures exactly { IfOk result (λ found. (n : ℕ) → IsIn n found.items ↔ ((n < 48) × HasSymmetry n region.now)) }
    ensures rises { IfOk result (λ found. IsStrictlyIncreasing found.items) }
{
    // Both are compared with their least corner at 0 0 0, so any translation is allowed.
    let settled = region.normal()?;
    let mut found = Vec::new(alloc);
    for n in 0..48u8 {
        let symmetry = Symmetry::new(n);
        if is_kept(region, &settled, symmetry)? {
            found.push(symmetry)?;
        }
    }
    Ok(found)
}

/// Whether the symmetry and then some translation bring the region, whose normal form is given, onto itself.
fn is_kept(region: &Shape, settled: &Shape, symmetry: Symmetry) -> Result<bool, AllocError>
    requires shape { IsShape region.now }
    requires settled { settled.now ≡ normal region.now }
    ensures { IfOk result (λ kept. IsTrue kept ↔ HasSymmetry symmetry region.now) }
{
    let turned = region.turned(symmetry)?;
    Ok(turned.cells() == settled.cells())
}
