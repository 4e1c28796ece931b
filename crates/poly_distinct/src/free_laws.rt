//! Laws of free anchors, over the definitions alone.
ghost use Rattle.std.specs.Prelude.{◌≡◌, ◌*◌, ℕ, List, true, map, length};
ghost use Rattle.poly_cells.specs.Sets.{IsIn};
ghost use Rattle.shared_words.specs.Lists.{has};
ghost use Rattle.cover_problem.specs.ExactCover.{IsExactCover};
ghost use Rattle.poly_texts.specs.Puzzle.{PuzzleValue, IsPuzzle};
ghost use Rattle.poly_place.specs.declared.alike.Group.{Group};
ghost use Rattle.poly_place.specs.Packings.{Thing, packing_problem};
ghost use Rattle.poly_place.specs.Chosen.{packing_value};
ghost use Rattle.poly_place.specs.Classes.{AreAlike, IsClassCount};
ghost use Rattle.poly_distinct.specs.Distinct.{IsAnchor, AreAllowed, AreDifferent, AreTheCovers, AreUnlike};
ghost use Rattle.poly_distinct.specs.Distinct.{smaller_problem, whole_path, distinct_paths};
ghost use Rattle.poly_distinct.specs.UpTo.{smaller, whole_paths, new_paths, stood_for};
ghost use Rattle.poly_distinct.specs.Free.{carrier_count, acts_freely, acts_freely_at};

/// If the group acts freely at an anchor, no two different exact covers of the smaller problem stand for packings that are alike.
pub fn free_anchors_tell_classes()
    ensures unlike { (p : PuzzleValue) (group : Group) (t : Thing) (ns : List ℕ)
        (small : List (List ℕ))
        → IsPuzzle p → IsAnchor p t → AreAllowed p group t ns → acts_freely_at p group t ns ≡ true
        → ((q : List ℕ) → IsIn q small → IsExactCover (smaller_problem p t ns) (has q))
        → AreDifferent small
        → AreUnlike p group (map (whole_path p t ns) small) }
    ensures distinct { (p : PuzzleValue) (group : Group) (t : Thing) (ns : List ℕ)
        (small : List (List ℕ))
        → IsPuzzle p → IsAnchor p t → AreAllowed p group t ns → acts_freely_at p group t ns ≡ true
        → ((q : List ℕ) → IsIn q small → IsExactCover (smaller_problem p t ns) (has q))
        → AreDifferent small
        → distinct_paths p group (map (whole_path p t ns) small)
        ≡ map (whole_path p t ns) small }
{}

/// If the group acts freely at the anchor of the rule, no visit of a search up to symmetry is like one before it, and the number of visits
/// is the number of classes of the puzzle's packings. (Visits are different exact covers of the problem of the search.)
pub fn visits_of_free_anchors_are_classes()
    ensures distinct { (p : PuzzleValue) (group : Group) (visits : List (List ℕ))
        → IsPuzzle p → acts_freely p group ≡ true
        → ((q : List ℕ) → IsIn q visits → IsExactCover (smaller p group) (has q))
        → AreDifferent visits
        → new_paths p group visits ≡ whole_paths p group visits }
    ensures number { (p : PuzzleValue) (group : Group) (visits : List (List ℕ))
        → IsPuzzle p → acts_freely p group ≡ true
        → ((q : List ℕ) → IsIn q visits → IsExactCover (smaller p group) (has q))
        → AreDifferent visits
        → length (new_paths p group visits) ≡ length visits }
    ensures classes { (p : PuzzleValue) (group : Group) (all visits : List (List ℕ))
        → IsPuzzle p → acts_freely p group ≡ true
        → AreTheCovers (packing_problem p) all
        → AreTheCovers (smaller p group) visits → AreDifferent visits
        → IsClassCount (AreAlike group) (map (packing_value p) all) (length visits) }
{}

/// Then each visit stands for as many packings as there are ways in which the group moves the region's cells.
pub fn visits_of_free_anchors_multiply()
    ensures visits { (p : PuzzleValue) (group : Group) (visits : List (List ℕ))
        → IsPuzzle p → acts_freely p group ≡ true
        → ((q : List ℕ) → IsIn q visits → IsExactCover (smaller p group) (has q))
        → stood_for p group visits ≡ length visits * carrier_count p group }
    ensures packings { (p : PuzzleValue) (group : Group) (all visits : List (List ℕ))
        → IsPuzzle p → acts_freely p group ≡ true
        → AreTheCovers (packing_problem p) all → AreDifferent all
        → AreTheCovers (smaller p group) visits → AreDifferent visits
        → length all ≡ length visits * carrier_count p group }
{}
