//! Paths: how far two of them are the same.
ghost use Rattle.x_steps.specs.Order.{IsShared};

use prefixes::steps_alike;

/// How many choices two paths share, up to their first difference.
pub fn shared(one: &[u32], other: &[u32]) -> usize
    ensures { IsShared one.now other.now result }
{
    // Most of what long paths share is passed over in large steps.
    let mut level = 64 * steps_alike(one, other);
    // A path that goes on where the other ends shares all of the shorter one.
    while level < one.len() && level < other.len() && one[level] == other[level] {
        level += 1;
    }
    level
}
