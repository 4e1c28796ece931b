//! Counts that are added.
ghost use Rattle.std.specs.Prelude.{◌≡◌, ◌+◌, max, length, slice_index_or, IfOk, OnOk};
ghost use Rattle.part_sums.specs.Answers.{counts_value, no_counts, levels_sum, both_counts};

use cover_counts::{Counts, Natural};
use std::alloc::{AllocError, Global};

/// The counts of no step.
pub(crate) fn no_counts(alloc: Global) -> Counts
    ensures { counts_value result ≡ no_counts }
{
    Counts {
        visits: Natural::of(alloc, 0),
        steps: Natural::of(alloc, 0),
        levels: Vec::new(alloc),
    }
}

/// Two numbers added.
fn number_sum(alloc: Global, a: &Natural, b: &Natural) -> Result<Natural, AllocError>
    ensures { IfOk result (λ n. n ≡ a.now + b.now) }
{
    let mut sum = Natural::of(alloc, 0);
    sum.add(a)?;
    sum.add(b)?;
    Ok(sum)
}

/// Adds the number at a level, if there is one.
fn add_level(sum: &mut Natural, numbers: &[Natural], level: usize) -> Result<(), AllocError>
    ensures { OnOk result (sum.new ≡ sum.old + slice_index_or numbers.now level 0) }
{
    match numbers.get(level) {
        Some(number) => sum.add(number),
        None => Ok(()),
    }
}

/// The numbers at a level added.
fn level_sum(
    alloc: Global,
    a: &[Natural],
    b: &[Natural],
    level: usize,
) -> Result<Natural, AllocError>
    ensures { IfOk result (λ n. n ≡ slice_index_or a.now level 0 + slice_index_or b.now level 0) }
{
    let mut sum = Natural::of(alloc, 0);
    add_level(&mut sum, a, level)?;
    add_level(&mut sum, b, level)?;
    Ok(sum)
}

/// How many levels two lists have.
fn most_levels(a: &[Natural], b: &[Natural]) -> usize
    ensures { result ≡ max (length a.now) (length b.now) }
{
    a.len().max(b.len())
}

/// Two lists of levels added, level by level.
fn levels_sum(alloc: Global, a: &[Natural], b: &[Natural]) -> Result<Vec<Natural>, AllocError>
    ensures { IfOk result (λ levels. levels.items ≡ levels_sum a.now b.now) }
{
    let mut levels = Vec::new(alloc);
    for level in 0..most_levels(a, b) {
        levels.push(level_sum(alloc, a, b, level)?)?;
    }
    Ok(levels)
}

/// Two counts added.
pub(crate) fn both_counts(alloc: Global, a: &Counts, b: &Counts) -> Result<Counts, AllocError>
    ensures { IfOk result (λ c. counts_value c ≡ both_counts (counts_value a.now) (counts_value b.now)) }
{
    Ok(Counts {
        visits: number_sum(alloc, &a.visits, &b.visits)?,
        steps: number_sum(alloc, &a.steps, &b.steps)?,
        levels: levels_sum(alloc, &a.levels, &b.levels)?,
    })
}
