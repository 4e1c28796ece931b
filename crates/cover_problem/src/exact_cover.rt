//! Whether options are an exact cover.
ghost use Rattle.std.specs.Prelude.{◌≡◌, ◌<◌, ◌≤◌, ◌↔◌, ◌∷◌, IsTrue, true, length, count_by, nat_le};
ghost use Rattle.std.specs.List.{list_any};
ghost use Rattle.shared_words.specs.Lists.{are_distinct, has};
ghost use Rattle.cover_problem.specs.Problem.{IsProblem, option_at};
ghost use Rattle.cover_problem.specs.ExactCover.{IsExactCover};
ghost use Rattle.cover_problem.specs.CoverTest as cover_test;

use crate::problem::Problem;

/// Whether each number is an option's.
fn are_options(problem: &Problem, chosen: &[u32]) -> bool
    ensures { result ≡ cover_test.are_options problem.now chosen.now }
{
    let most = problem.options();
    chosen.iter().all(|k| 0 < *k && *k <= most)
}

/// How many of the options have the item.
fn occurrences(problem: &Problem, chosen: &[u32], item: u32) -> usize
    requires { cover_test.are_options problem.now chosen.now ≡ true }
    ensures { result ≡ cover_test.occurrences problem.now chosen.now item }
{
    let mut count = 0;
    for k in chosen {
        count += usize::from(problem.option(*k).contains(&item));
    }
    count
}

/// Whether an item is in as many of the options as it may be: a primary item in one, another in at most one.
fn has_right_count(problem: &Problem, chosen: &[u32], item: u32) -> bool
    requires { cover_test.are_options problem.now chosen.now ≡ true }
    ensures { result ≡ cover_test.has_right_count problem.now chosen.now item }
{
    let count = occurrences(problem, chosen, item);
    if item <= problem.primary() {
        count == 1
    } else {
        count <= 1
    }
}

/// Whether each item is in as many of the options as it may be.
fn have_right_counts(problem: &Problem, chosen: &[u32]) -> bool
    requires { cover_test.are_options problem.now chosen.now ≡ true }
    ensures { result ≡ cover_test.have_right_counts problem.now chosen.now }
{
    // For each item all options are gone through: slower than with marks, but it takes no memory.
    for item in 1..problem.items() + 1 {
        if !has_right_count(problem, chosen, item) {
            return false;
        }
    }
    true
}

/// Whether an option has a primary item.
fn has_primary_item(problem: &Problem, k: u32) -> bool
    requires some { 0 < k }
    requires within { k ≤ length problem.now.options }
    ensures { result ≡ cover_test.has_primary_item problem.now k }
{
    let primary = problem.primary();
    problem.option(k).iter().any(|item| *item <= primary)
}

/// Whether each option has a primary item.
fn are_useful(problem: &Problem, chosen: &[u32]) -> bool
    requires { cover_test.are_options problem.now chosen.now ≡ true }
    ensures { result ≡ cover_test.are_useful problem.now chosen.now }
{
    for k in chosen {
        if !has_primary_item(problem, *k) {
            return false;
        }
    }
    true
}

/// Whether these are options that pass each test of an exact cover.
fn passes(problem: &Problem, chosen: &[u32]) -> bool
    ensures { result ≡ cover_test.is_cover problem.now chosen.now }
{
    // Asked first: only an option can be asked for its items.
    if !are_options(problem, chosen) {
        return false;
    }
    // An option that comes twice has its items twice. One without items to cover is on no list that the search goes through.
    have_right_counts(problem, chosen) && are_useful(problem, chosen)
}

impl Problem {
    /// Whether these are the options of an exact cover, each once. Any numbers may come; it takes no memory.
    pub fn is_exact_cover(&self, chosen: &[u32]) -> bool
        ensures { IsTrue result ↔ ((are_distinct chosen.now ≡ true) × IsExactCover self.now (has chosen.now)) }
    {
        // Where a problem is asked, what it keeps true is known.
        let _ = self.items();
        passes(self, chosen)
    }
}
