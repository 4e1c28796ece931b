//! How many lists have each number.
ghost use Rattle.std.specs.Prelude.{◌≡◌, ◌+◌, ◌<◌, ◌^◌, ℕ, [], true, IfOk, length, nat_lt, replicate, slice_index};
ghost use Rattle.std.specs.List.{list_all};
ghost use Rattle.shared_words.specs.Answers.{ReturnsItems};
ghost use Rattle.shared_words.specs.Lists.{are_distinct};
ghost use Rattle.cover_problem.specs.Problem.{IsProblem};
ghost use Rattle.poly_distinct.specs.Counts.{AreCounts, AreMore};

use cover_problem::Problem;
use std::alloc::{AllocError, Global};

/// A list of zeros.
pub fn zeros(alloc: Global, count: usize) -> Result<Vec<usize>, AllocError>
    ensures { ReturnsItems result (replicate count 0) }
{
    vec![in alloc; 0usize; count]
}

/// Adds one to the counts at each of these places.
pub fn add_each(counts: &mut [usize], places: &[u32])
    requires distinct { are_distinct places.now ≡ true }
    requires within { list_all (λ k. nat_lt k (length counts.old)) places.now ≡ true }
    requires room { (k : ℕ) → k < length counts.old → slice_index counts.old k < 2 ^ 32 }
    ensures { AreMore counts.old counts.new places.now }
{
    for place in places {
        counts[*place as usize] += 1;
    }
}

/// For each item how many options have it, at the place of its number.
pub fn option_counts(alloc: Global, problem: &Problem) -> Result<Vec<usize>, AllocError>
    ensures { IfOk result (λ counts. AreCounts (length problem.now.names + 1)
        (λ option. option) problem.now.options counts.items) }
{
    let mut counts = zeros(alloc, problem.items() as usize + 1)?;
    count_options(&mut counts, problem);
    Ok(counts)
}

/// Counts the options that have each item.
fn count_options(counts: &mut [usize], problem: &Problem)
    requires problem { IsProblem problem.now }
    requires none { AreCounts (length problem.now.names + 1) (λ option. option) [] counts.old }
    ensures { AreCounts (length problem.now.names + 1) (λ option. option) problem.now.options counts.new }
{
    for k in 0..problem.options() {
        add_each(counts, problem.option(k + 1));
    }
}
