//! What a search asks of a table.
ghost use Rattle.std.specs.Prelude.{◌≡◌, ◌==◌, ◌<◌, ◌≤◌, List, ◌∷◌, ◌++◌, [], ℕ, length, true, false, OnOk, IfOk};
ghost use Rattle.std.specs.List.{position_or_len};
ghost use Rattle.shared_words.specs.Lists.{has, above, LosesLast};
ghost use Rattle.cover_problem.specs.Problem.{ProblemValue, IsProblem};
ghost use Rattle.cover_problem.specs.Covering.{active, choice, list_of, IsInList, first_left, last_left, next_left, prev_left};
ghost use Rattle.cover_problem.specs.Path.{others};
ghost use Rattle.cover_problem.specs.Coverable.{CanCover};
ghost use Rattle.cover_problem.specs.Table.{IsCoveredList};

use crate::problem::Problem;
use std::alloc::{AllocError, Global};

/// The place of an item in an option.
#[inline(always)]
fn place_of(option: &[u32], item: u32) -> usize
    requires { has option.now item ≡ true }
    ensures { result ≡ position_or_len (λ x. x == item) option.now }
{
    // An option has few items, so its places are not kept anywhere.
    option.iter().take_while(|x| **x != item).count()
}

/// A table stands for a problem and the list of the items that are covered, each once.
///
/// Items and options go by their numbers, from 1. An item that is covered keeps the list of options that it had when it
/// was covered, and the option calls serve it too. (TAOCP volume 4B, section 7.2.2.1.)
pub trait Table: Drop {
    /// The problem.
    ghost problem_value: { Self → ProblemValue };

    /// The covered items, in the order in which they were covered.
    ghost covered_list: { Self → List ℕ };

    /// A table with nothing covered. It has room for all items, so that covering takes no memory.
    fn new(alloc: Global, problem: &Problem) -> Result<Self, AllocError>
        ensures same_problem { IfOk result (λ t. problem_value t ≡ problem.now) }
        ensures covered { IfOk result (λ t. covered_list t ≡ []) };

    /// The covered items, in the order in which they were covered.
    fn covered(&self) -> &[u32]
        ensures list { result.now ≡ covered_list self.now }
        ensures problem { IsProblem (problem_value self.now) }
        ensures distinct { IsCoveredList (problem_value self.now) (covered_list self.now) };

    // Step X3 chooses among the active items, by the lengths of their lists.
    /// The first active item.
    fn first_item(&self) -> Option<u32>
        ensures { result ≡ above 0 (active (problem_value self.now) (covered_list self.now)) };

    /// The active item after an active one.
    fn next_item(&self, item: u32) -> Option<u32>
        requires { has (active (problem_value self.now) (covered_list self.now)) item ≡ true }
        ensures { result ≡ above item (active (problem_value self.now) (covered_list self.now)) };

    /// How many options an item's list has.
    fn len(&self, item: u32) -> u32
        requires some { 0 < item }
        requires within { item ≤ length (problem_value self.now).names }
        ensures { result ≡ length (list_of (problem_value self.now) (covered_list self.now) item) };

    /// The first of the active items with the fewest options left (exercise 9). A table may have a shorter way to it.
    #[inline(always)]
    fn choose(&self) -> u32
        requires problem { IsProblem (problem_value self.now) }
        requires open { 0 < length (active (problem_value self.now) (covered_list self.now)) }
        ensures { result ≡ choice (problem_value self.now) (covered_list self.now) }
    {
        // An item is active, as `open` asks, so there is a first one.
        let mut best = self.first_item().unwrap();
        let mut least = self.len(best);
        let mut item = best;
        while let Some(next) = self.next_item(item) {
            // None has fewer, and of those with as few the first is asked for.
            if least == 0 {
                return best;
            }
            // Only a shorter list displaces the best, so that of those with as few the first stays.
            let len = self.len(next);
            if len < least {
                best = next;
                least = len;
            }
            item = next;
        }
        best
    }

    // Steps X4 to X6 try the options of the chosen item one after another, from the first on.
    /// The first option of an item's list.
    fn first_option(&self, item: u32) -> Option<u32>
        requires some { 0 < item }
        requires within { item ≤ length (problem_value self.now).names }
        ensures { result ≡ first_left (problem_value self.now) (covered_list self.now) item };

    /// The last option of an item's list.
    fn last_option(&self, item: u32) -> Option<u32>
        requires some { 0 < item }
        requires within { item ≤ length (problem_value self.now).names }
        ensures { result ≡ last_left (problem_value self.now) (covered_list self.now) item };

    /// The option after one of an item's list.
    fn next_option(&self, item: u32, option: u32) -> Option<u32>
        requires { IsInList (problem_value self.now) (covered_list self.now) item option }
        ensures { result ≡ next_left (problem_value self.now) (covered_list self.now) item option };

    /// The option before one of an item's list.
    fn prev_option(&self, item: u32, option: u32) -> Option<u32>
        requires { IsInList (problem_value self.now) (covered_list self.now) item option }
        ensures { result ≡ prev_left (problem_value self.now) (covered_list self.now) item option };

    // Steps X4 and X5 cover items, and X6 and X7 uncover them in the reverse order.
    /// Covers an item that isn't covered.
    fn cover(&mut self, item: u32)
        requires some { 0 < item }
        requires within { item ≤ length (problem_value self.old).names }
        requires uncovered { has (covered_list self.old) item ≡ false }
        ensures same_problem { problem_value self.new ≡ problem_value self.old }
        ensures covered { covered_list self.new ≡ covered_list self.old ++ item ∷ [] };

    /// Uncovers the item that was covered last.
    fn uncover(&mut self, item: u32)
        requires { (front : List ℕ) × (covered_list self.old ≡ front ++ item ∷ []) }
        ensures same_problem { problem_value self.new ≡ problem_value self.old }
        ensures covered { covered_list self.old ≡ covered_list self.new ++ item ∷ [] };

    /// The item that was covered last.
    #[inline(always)]
    fn last_covered(&self) -> u32
        requires { 0 < length (covered_list self.now) }
        ensures { (front : List ℕ) × (covered_list self.now ≡ front ++ result ∷ []) }
    {
        let covered = self.covered();
        covered[covered.len() - 1]
    }

    /// Covers the items in order.
    #[inline(always)]
    fn cover_each(&mut self, items: &[u32])
        requires { CanCover (problem_value self.old) (covered_list self.old) items.now }
        ensures same_problem { problem_value self.new ≡ problem_value self.old }
        ensures covered { covered_list self.new ≡ covered_list self.old ++ items.now }
    {
        for item in items {
            self.cover(*item);
        }
    }

    // A step takes a whole option, and takes it back: a table may have a shorter way to do so than item by item.
    /// Covers the option's other items, from the one after `item` to its end and on from its first.
    #[inline(always)]
    fn cover_others(&mut self, option: &[u32], item: u32)
        requires member { has option.now item ≡ true }
        requires can { CanCover (problem_value self.old) (covered_list self.old) (others item option.now) }
        ensures same_problem { problem_value self.new ≡ problem_value self.old }
        ensures covered { covered_list self.new ≡ covered_list self.old ++ others item option.now }
    {
        // The order is round the option, as in Algorithm X: it is seen in the list of covered items.
        let place = place_of(option, item);
        let (_, after) = option.split_at(place + 1);
        self.cover_each(after);
        // The item itself is in neither part: it was covered when it was chosen.
        let (before, _) = option.split_at(place);
        self.cover_each(before);
    }

    /// Uncovers the items that were covered last, as many as told, in reverse.
    #[inline(always)]
    fn uncover_last(&mut self, count: usize)
        requires { (front back : List ℕ) × (covered_list self.old ≡ front ++ back) × (length back ≡ count) }
        ensures same_problem { problem_value self.new ≡ problem_value self.old }
        ensures covered { LosesLast (covered_list self.old) (covered_list self.new) count }
    {
        // A table takes back only what it covered last, so its own list tells which item comes.
        for _ in 0..count {
            let item = self.last_covered();
            self.uncover(item);
        }
    }
}
