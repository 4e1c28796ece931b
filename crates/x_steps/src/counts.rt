//! Counts level by level.
ghost use Rattle.std.specs.Prelude.{◌≡◌, ◌-◌, ◌↔◌, Some, IsTrue, length, slice_get};
ghost use Rattle.x_steps.specs.Levels.{without_last_zeros};

/// Whether the last count is 0.
fn ends_in_zero(counts: &[u128]) -> bool
    ensures { IsTrue result ↔ (slice_get counts.now (length counts.now - 1) ≡ Some 0) }
{
    matches!(counts.last(), Some(0))
}

/// Takes the counts of 0 at the end away.
pub fn drop_last_zeros(counts: &mut Vec<u128>)
    ensures { counts.new.items ≡ without_last_zeros counts.old.items }
{
    // From the end on: a 0 before a count above 0 belongs to its level, and stays.
    while ends_in_zero(counts) {
        counts.pop();
    }
}
