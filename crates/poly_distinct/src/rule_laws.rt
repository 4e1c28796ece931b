//! Laws of the rule by which the anchor is chosen, over the definitions alone.
ghost use Rattle.std.specs.Prelude.{◌≡◌, Some};
ghost use Rattle.poly_texts.specs.Puzzle.{PuzzleValue};
ghost use Rattle.poly_place.specs.declared.alike.Group.{Group};
ghost use Rattle.poly_place.specs.Packings.{Thing};
ghost use Rattle.poly_distinct.specs.Distinct.{IsAnchor, allowed};
ghost use Rattle.poly_distinct.specs.Exchange.{mirror_name, has_mirrors};
ghost use Rattle.poly_distinct.specs.Rule.{anchor_of, symmetries_at};

/// The symmetries that may be used at an anchor are those that are allowed by the exchange of names.
pub fn symmetries_at_anchors_are_allowed()
    ensures { (p : PuzzleValue) (group : Group) (t : Thing) → IsAnchor p t
        → allowed p group (has_mirrors p) (mirror_name p) t ≡ symmetries_at p group t }
{}

/// What the rule chooses is an anchor: exactly one choice of each packing is there.
pub fn the_rule_chooses_an_anchor()
    ensures { (p : PuzzleValue) (group : Group) (t : Thing) → anchor_of p group ≡ Some t → IsAnchor p t }
{}
