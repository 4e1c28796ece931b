//! Whether an item is active, and which item of an option is chosen.
ghost use Rattle.std.specs.Prelude.{◌≡◌, ◌⊎◌, ◌<◌, ◌≤◌, ◌-◌, ◌^◌, ℕ, length, IsTrue, ◌↔◌, true, false};
ghost use Rattle.shared_words.specs.Lists.{has};
ghost use Rattle.cover_problem.specs.Covering.{active, choice};
ghost use Rattle.x_steps.specs.Machine.{any_active};

use cover_problem::Table;

/// Whether an item is active.
#[inline(always)]
pub fn has_active<T: Table>(table: &T) -> bool
    ensures { result ≡ any_active (T.problem_value table.now) (T.covered_list table.now) }
{
    table.first_item().is_some()
}

/// Whether an item comes before the best so far: it may be chosen, and its list is shorter, or as short and its number smaller.
#[inline(always)]
fn comes_before(item: u32, len: u32, primary: u32, best: u32, least: u32) -> bool
    ensures { IsTrue result ↔ ((item ≤ primary) × ((len < least) ⊎ ((len ≡ least) × (item < best)))) }
{
    item <= primary && (len < least || (len == least && item < best))
}

/// The item that the search chooses, where an option is known to be left for it: of the option's items the first of those with the
/// fewest options. So a known path is gone down without a look at all active items.
#[inline(always)]
pub fn chosen_of<T: Table>(table: &T, option: &[u32], primary: u32) -> u32
    requires primary { primary ≡ (T.problem_value table.now).primary }
    requires items { (i : ℕ) → has option.now i ≡ true
        → (0 < i) × (i ≤ length (T.problem_value table.now).names) × (has (T.covered_list table.now) i ≡ false) }
    requires few { length (T.problem_value table.now).options < 2 ^ 32 - 1 }
    requires open { 0 < length (active (T.problem_value table.now) (T.covered_list table.now)) }
    requires chosen { has option.now (choice (T.problem_value table.now) (T.covered_list table.now)) ≡ true }
    ensures { result ≡ choice (T.problem_value table.now) (T.covered_list table.now) }
{
    let mut best = 0;
    // No list is so long.
    let mut least = u32::MAX;
    for item in option {
        let len = table.len(*item);
        if comes_before(*item, len, primary, best, least) {
            best = *item;
            least = len;
        }
    }
    best
}
