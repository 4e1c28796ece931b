//! How many equal pieces follow one and have to be used, and whether there is room for them.
ghost use Rattle.std.specs.Prelude.{◌≡◌, ◌<◌, ◌-◌, ◌*◌, ◌==◌, ◌&&◌, cond, not, nat_le, length};
ghost use Rattle.poly_texts.specs.Puzzle.{is_spare, spare_names};
ghost use Rattle.poly_place.specs.Packings.{sure_followers};

use poly_texts::{PieceName, Puzzle};

/// How many of the pieces that follow one aren't spare, by pairs of which the second piece follows the first.
pub fn following(pairs: &[(PieceName, PieceName)], puzzle: &Puzzle, name: PieceName) -> usize
    ensures { result ≡ length (sure_followers (spare_names puzzle.now) pairs.now name) }
{
    let (mut last, mut count) = (name, 0);
    for pair in pairs {
        count += one_if(is_sure_next(*pair, puzzle, last));
        last = name_after(*pair, last);
    }
    count
}

/// Whether the second piece of the pair follows this one, and isn't spare.
fn is_sure_next(pair: (PieceName, PieceName), puzzle: &Puzzle, last: PieceName) -> bool
    ensures { result ≡ ((pair.0 == last) && not (is_spare puzzle.now (pair.1))) }
{
    pair.0 == last && !puzzle.is_spare(pair.1)
}

/// One if it is so, and else none.
fn one_if(there: bool) -> usize
    ensures { result ≡ cond there 1 0 }
{
    if there { 1 } else { 0 }
}

/// The second piece of the pair where it follows this one, and else this one.
fn name_after(pair: (PieceName, PieceName), last: PieceName) -> PieceName
    ensures { result ≡ cond (pair.0 == last) (pair.1) last }
{
    if pair.0 == last { pair.1 } else { last }
}

/// Whether among so many cells there is room, beside a piece of this size, for these copies of it.
pub fn fit(copies: usize, size: usize, cells: usize) -> bool
    requires { 0 < size }
    ensures { result ≡ nat_le (copies * size) (cells - size) }
{
    if copies == 0 {
        return true;
    }
    copies < cells / size
}
