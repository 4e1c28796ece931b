//! Laws over the definitions alone. Each is a function without a body whose contract states the law.
ghost use Rattle.poly_place.specs.Placements.{ListsPlacements};
ghost use Rattle.poly_place.specs.Packings.{CoversArePackings, PackingsHaveRoom, PuzzlesHaveProblems};
ghost use Rattle.poly_place.specs.Ranges.{RangesAreSums, SurePuzzlesStay};
ghost use Rattle.poly_place.specs.Counts.{CountsAreOne, CoversAreCounted, EndsAreListed, RangesAddUp};
ghost use Rattle.poly_place.specs.Swaps.{SwapsCountOnce};
ghost use Rattle.poly_place.specs.Volume.{VolumeForces};
ghost use Rattle.poly_place.specs.Plain.{PlainStay};
ghost use Rattle.poly_place.specs.Turns.{GreaterIsShared};
ghost use Rattle.poly_place.specs.ClassCount.{AlikeIsTested, ClassesAreCounted};
ghost use Rattle.poly_place.specs.Labelled.{AlikeThenSwaps, AlikeByNameThenSwaps, ClassesAreLabelled, ClassesAreLabelledByName};

/// The list of placements of a shape in another, by any symmetries, has exactly its placements, each once, in order.
pub fn placements_are_listed()
    ensures { ListsPlacements }
{}

/// The packings of a puzzle and the exact covers of its problem are the same, one for one.
pub fn covers_are_packings()
    ensures { CoversArePackings }
{}

/// In each packing the region has room, from the least cell of a placement on, for it and for the copies that follow and have to be used.
pub fn packings_have_room()
    ensures { PackingsHaveRoom }
{}

/// Each packing is one in which all pieces are told apart, and of those that differ by equal pieces that change places exactly one is
/// a packing.
pub fn swaps_count_once()
    ensures { SwapsCountOnce }
{}

/// The packings of a puzzle with spare copies are those of the puzzles where the numbers of copies are fixed, each of exactly one.
pub fn ranges_are_sums()
    ensures { RangesAreSums }
{}

/// A puzzle has one number of packings, that of its problem's exact covers. With spare copies it is the sum of those of the puzzles where
/// the numbers of copies are fixed, over all ways to leave out spare copies.
pub fn ranges_add_up()
    ensures one { CountsAreOne }
    ensures covers { CoversAreCounted }
    ensures ways { EndsAreListed }
    ensures sums { RangesAddUp }
{}

/// A puzzle without spare copies has the options that lay a piece, and no others.
pub fn sure_puzzles_stay()
    ensures { SurePuzzlesStay }
{}

/// Where no cell may stay empty, no piece may be left out and one piece alone may be used any number of times, each packing has as many
/// copies of it as fill what the other pieces leave.
pub fn volume_forces()
    ensures { VolumeForces }
{}

/// A puzzle without equal pieces, pieces used any number of times and pieces that may be reflected has the problem that is stated without
/// any of these: the same items, with the same names, and the same options.
pub fn plain_puzzles_stay()
    ensures { PlainStay }
{}

/// What stands for a puzzle is a problem, where it is within the limits: no name comes twice, and no item in an option.
pub fn puzzles_have_problems()
    ensures { PuzzlesHaveProblems }
{}

/// A number is greater than another one exactly where their leaves share a node that the one reaches from the right and the other from
/// the left.
pub fn greater_is_shared()
    ensures { GreaterIsShared }
{}

/// A test tells whether two packings of a region are alike, and the number of classes that it counts, and no other number, is how
/// many are like none before them.
pub fn classes_are_counted()
    ensures tests { AlikeIsTested }
    ensures counts { ClassesAreCounted }
{}

/// The packings of a puzzle with equal pieces have as many classes as those in which all pieces are told apart, where symmetries of the
/// region, and then equal pieces that change places, carry some onto others. If other pieces differ, the symmetries may be those that carry
/// each piece onto the piece with its name.
pub fn classes_are_labelled()
    ensures alike { AlikeThenSwaps }
    ensures classes { ClassesAreLabelled }
    ensures named { AlikeByNameThenSwaps }
    ensures named_classes { ClassesAreLabelledByName }
{}
