//! Laws over the definitions alone. Each is a function without a body whose contract states the law.
ghost use Rattle.poly_cells.specs.Laws.{AreMatrices, IsGroup, AreRotations, AgreesWithMatrix, AreImages};

/// The 48 symmetries are exactly the signed permutation matrices over the integers, acting on points.
pub fn symmetries_are_matrices()
    ensures { AreMatrices }
{}

/// Composition is a function on the 48 symmetries, closed, associative, with the neutral symmetry 0 and with inverses.
pub fn symmetries_are_a_group()
    ensures { IsGroup }
{}

/// The rotations are exactly the 24 symmetries of determinant 1; composition and inverse stay among them.
pub fn rotations_have_determinant_one()
    ensures { AreRotations }
{}

/// Turning a cell, with 31 - c for minus c, is the integer matrix and then a translation.
pub fn turns_agree_with_matrices()
    ensures { AgreesWithMatrix }
{}

/// The turned form of a set of cells is its image, and its normal form the set itself, with the least corner at 0 0 0.
pub fn forms_are_images()
    ensures { AreImages }
{}
