//! What all tiles posted, in numbers: a question for them goes over no tile.
ghost use Rattle.std.specs.Prelude.{◌≡◌, ◌≤◌, ◌<◌, ◌+◌, ◌^◌, ◌++◌, [], ℕ, All, OnOk, length, drop, replicate, slice_index};
ghost use Rattle.x_codes.specs.StateCode.{path_of};
ghost use Rattle.x_branches.specs.Refusals.{most_steps};
ghost use Rattle.x_branches.specs.Stretch.{StretchValue, levels_of_stretch, visits_of_stretch};
ghost use Rattle.lab_book.specs.Posted.{HaveRoom};
ghost use Rattle.lab_book.specs.Totals.{Measure, measured, measured_in, total};

use packed_rows::Reader;
use std::alloc::{AllocError, Global};
use std::marker::Model;
use x_branches::{KeptStretch, KeptStretches};
use x_codes::choice;

/// How many paths stretches visit, how many steps they have, and how many X2 states at each level.
#[derive(Drop)]
pub(crate) struct Totals {
    visited: u128,
    steps: u128,
    /// As many as one stretch has had.
    levels: Vec<u128>,
}

impl Model for Totals {
    ghost use Rattle.lab_book.specs.Totals.{TotalsValue};

    ghost Value = { TotalsValue };

    ghost view = { λ t. record { visited = t.visited; steps = t.steps; levels = t.levels.items } };
}

/// Adds to each total its count, as far as there are counts: first their number is read, and then each.
fn add_counts(totals: &mut [u128], counts: Reader<'_>)
    requires levels { length (path_of counts) ≤ length totals.old }
    requires room { HaveRoom totals.old most_steps }
    ensures levels { length totals.new ≡ length totals.old }
    ensures sums { (k : ℕ) → slice_index totals.new k ≡
        slice_index totals.old k + slice_index (path_of counts.entry) k }
    ensures small { (k : ℕ) → slice_index totals.new k ≤ slice_index totals.old k + most_steps }
{
    let mut counts = counts;
    let mut left = counts.number();
    let mut level = 0;
    // A stretch keeps no level behind the last that it reached, so the counts may end before the totals.
    'adding: while left > 0 {
        let Some(count) = counts.next() else {
            return;
        };
        totals[level] += choice(count) as u128;
        level += 1;
        left -= 1;
    }
}

/// Adds counts to the totals from a level on.
fn add_counts_from(totals: &mut [u128], level: u64, counts: Reader<'_>)
    requires levels { level + length (path_of counts) ≤ length totals.old }
    requires room { HaveRoom totals.old most_steps }
    ensures levels { length totals.new ≡ length totals.old }
    ensures sums { (k : ℕ) → slice_index totals.new k ≡
        slice_index totals.old k + slice_index (replicate level 0 ++ path_of counts.entry) k }
    ensures small { (k : ℕ) → slice_index totals.new k ≤ slice_index totals.old k + most_steps }
{
    let (_, below) = totals.split_at_mut(level as usize);
    add_counts(below, counts);
}

/// Takes its count from each total, as far as there are counts.
fn take_counts(totals: &mut [u128], counts: Reader<'_>)
    requires levels { length (path_of counts) ≤ length totals.old }
    requires some { (k : ℕ) → slice_index (path_of counts) k ≤ slice_index totals.old k }
    ensures levels { length totals.new ≡ length totals.old }
    ensures sums { (k : ℕ) →
        slice_index totals.new k + slice_index (path_of counts.entry) k ≡ slice_index totals.old k }
{
    let mut counts = counts;
    let mut left = counts.number();
    let mut level = 0;
    'taking: while left > 0 {
        let Some(count) = counts.next() else {
            return;
        };
        totals[level] -= choice(count) as u128;
        level += 1;
        left -= 1;
    }
}

/// Takes counts from the totals from a level on.
fn take_counts_from(totals: &mut [u128], level: u64, counts: Reader<'_>)
    requires levels { level + length (path_of counts) ≤ length totals.old }
    requires some { (k : ℕ) →
        slice_index (replicate level 0 ++ path_of counts) k ≤ slice_index totals.old k }
    ensures levels { length totals.new ≡ length totals.old }
    ensures sums { (k : ℕ) →
        slice_index totals.new k + slice_index (replicate level 0 ++ path_of counts.entry) k ≡
        slice_index totals.old k }
{
    let (_, deeper) = totals.split_at_mut(level as usize);
    take_counts(deeper, counts);
}

impl Totals {
    /// Those of no stretch.
    pub fn none(alloc: Global) -> Totals
        ensures { result ≡ record { visited = 0; steps = 0; levels = [] } }
    {
        Totals {
            visited: 0,
            steps: 0,
            levels: Vec::new(alloc),
        }
    }

    /// How many paths are visited.
    pub fn visited(&self) -> u128
        ensures { result ≡ self.now.visited }
    {
        self.visited
    }

    /// How many steps there are.
    pub fn steps(&self) -> u128
        ensures { result ≡ self.now.steps }
    {
        self.steps
    }

    /// How many X2 states there are at each level.
    pub fn levels(&self) -> &[u128]
        ensures { result.now ≡ self.now.levels }
    {
        &self.levels
    }

    /// Keeps a total for each of so many levels; where memory runs out, nothing changes.
    pub fn reach(&mut self, levels: usize) -> Result<(), AllocError>
        ensures same { (m : Measure) → total self.new m ≡ total self.old m }
        ensures longer { length self.old.levels ≤ length self.new.levels }
        ensures long { OnOk result (levels ≤ length self.new.levels) }
    {
        if self.levels.len() < levels {
            self.levels.resize(levels, 0)?;
        }
        Ok(())
    }

    /// Adds what a stretch has that visits so many paths. To count them in its row would go over all of them.
    pub fn add(&mut self, visited: u64, stretch: &KeptStretch<'_, '_>)
        requires visited { visited ≡ length (visits_of_stretch stretch.now) }
        requires long { length (levels_of_stretch stretch.now) ≤ length self.old.levels }
        requires room { (m : Measure) → total self.old m + 2 ^ 64 ≤ 2 ^ 128 }
        ensures added { (m : Measure) →
            total self.new m ≡ total self.old m + measured m stretch.now }
        ensures levels { length self.new.levels ≡ length self.old.levels }
        ensures small { (m : Measure) → measured m stretch.now < 2 ^ 64 }
    {
        self.visited += visited as u128;
        self.steps += stretch.steps() as u128;
        // No total above the level where a stretch begins is touched.
        let (level, counts) = stretch.levels();
        add_counts_from(&mut self.levels, level, counts);
    }

    /// Takes away what a stretch has.
    fn take(&mut self, stretch: &KeptStretch<'_, '_>)
        requires long { length (levels_of_stretch stretch.now) ≤ length self.old.levels }
        requires some { (m : Measure) → measured m stretch.now ≤ total self.old m }
        ensures taken { (m : Measure) →
            total self.new m + measured m stretch.now ≡ total self.old m }
        ensures levels { length self.new.levels ≡ length self.old.levels }
    {
        self.visited -= stretch.visited() as u128;
        self.steps -= stretch.steps() as u128;
        let (level, counts) = stretch.levels();
        take_counts_from(&mut self.levels, level, counts);
    }

    /// Takes away what the stretches have that stand behind the first ones.
    pub fn take_behind(&mut self, stretches: &KeptStretches<'_>, count: usize)
        requires within { count ≤ length stretches.now }
        requires long { All
            (λ (x : StretchValue). length (levels_of_stretch x) ≤ length self.old.levels)
            stretches.now }
        requires some { (m : Measure) → measured_in m stretches.now ≤ total self.old m }
        ensures taken { (m : Measure) →
            total self.new m + measured_in m (drop count stretches.now) ≡ total self.old m }
        ensures levels { length self.new.levels ≡ length self.old.levels }
    {
        let mut place = stretches.len();
        'taking: while place > count {
            place -= 1;
            self.take(&stretches.stretch(place));
        }
    }
}
