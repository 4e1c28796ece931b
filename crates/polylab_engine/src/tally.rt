//! What a search comes to, counted walk by walk.
ghost use Rattle.std.specs.Prelude.{◌≡◌, ◌≤◌, ◌↔◌, length, replicate, OnOk, IsTrue, IsSomeAnd};
ghost use Rattle.polylab_engine.specs.Account.{AreSums, with_walk, empty_account, kept_with, visits_with, report_of};
ghost use Rattle.shared_words.specs.Answers.{Returns, ReturnsItems};

use crate::count::Count;
use crate::report::Report;
use crate::visits::Visits;
use std::alloc::{AllocError, Global};
use std::marker::Model;
use x_steps::{Event, Walk, drop_last_zeros};

/// The visits that are kept, and the numbers of visits, of steps, and of X2 states at each level.
#[derive(Drop)]
pub struct RunTally<V: Visits> {
    visits: V,
    visited: Count,
    steps: Count,
    entered: Vec<Count>,
}

impl<V: Visits> Model for RunTally<V> {
    ghost use Rattle.polylab_engine.specs.Account.{Account};

    ghost Value = { Account };

    ghost view = { λ r. record {
      visits = V.visits r.visits;
      visited = r.visited;
      steps = r.steps;
      entered = r.entered.items;
    } };
}

/// So many counts of nothing.
fn no_counts(alloc: Global, count: usize) -> Result<Vec<Count>, AllocError>
    ensures { ReturnsItems result (replicate count 0) }
{
    let mut counts = Vec::with_capacity(alloc, count)?;
    for _ in 0..count {
        counts.push(Count::new(alloc))?;
    }
    Ok(counts)
}

/// Adds to each total its count.
fn add_each(totals: &mut [Count], counts: &[u32]) -> Result<(), AllocError>
    requires { length counts.now ≡ length totals.old }
    ensures { OnOk result (AreSums totals.old counts.now totals.new) }
{
    for (level, count) in counts.iter().enumerate() {
        totals[level].add(*count)?;
    }
    Ok(())
}

/// The counts as numbers.
fn totals_of(alloc: Global, counts: &[Count]) -> Result<Vec<u128>, AllocError>
    ensures { ReturnsItems result counts.now }
{
    let mut totals = Vec::with_capacity(alloc, counts.len())?;
    for count in counts {
        totals.push(count.total())?;
    }
    Ok(totals)
}

impl<V: Visits> RunTally<V> {
    /// The tally of no step, for a problem of so many items.
    pub fn new(alloc: Global, items: u32) -> Result<RunTally<V>, AllocError>
        ensures { Returns result (empty_account items) }
    {
        // A path has an option for each item at most, so there is a level more than items.
        let entered = no_counts(alloc, items as usize + 1)?;
        let visits = V::none(alloc)?;
        Ok(RunTally {
            visits,
            visited: Count::new(alloc),
            steps: Count::new(alloc),
            entered,
        })
    }

    /// Notes a walk: its steps, and its visit, if it came to one; the path there is kept where visits are kept.
    #[inline(always)]
    pub fn note(&mut self, keeps: bool, walk: Walk, path: &[u32]) -> Result<(), AllocError>
        ensures { OnOk result (self.new ≡ with_walk keeps self.old walk.steps walk.event path.now) }
    {
        self.steps.add(walk.steps)?;
        note_visit(&mut self.visited, walk.event)?;
        keep_visit(&mut self.visits, keeps, walk.event, path)
    }

    /// Whether there are as many visits as are asked for, if a number is.
    pub fn is_full(&self, first: Option<u64>) -> bool
        ensures { IsTrue result ↔ IsSomeAnd first (λ n. n ≤ self.now.visited) }
    {
        match first {
            Some(first) => self.visited.total() >= u128::from(first),
            None => false,
        }
    }

    /// Adds counts of X2 states, one for each level.
    pub fn add_counts(&mut self, counts: &[u32]) -> Result<(), AllocError>
        requires { length counts.now ≡ length self.old.entered }
        ensures others { OnOk result (self.new ≡ record self.old { entered = self.new.entered }) }
        ensures sums { OnOk result (AreSums self.old.entered counts.now self.new.entered) }
    {
        add_each(&mut self.entered, counts)
    }

    /// The report of what was counted.
    pub fn report(self, alloc: Global) -> Result<Report<V>, AllocError>
        ensures { Returns result (report_of self) }
    {
        // A run's levels end at the last that was entered; a tally has them all from its beginning.
        let mut levels = totals_of(alloc, &self.entered)?;
        drop_last_zeros(&mut levels);
        Report::of_numbers(
            alloc,
            self.visits,
            self.visited.total(),
            self.steps.total(),
            &levels,
        )
    }
}

/// Counts a visit, if the walk came to one.
fn note_visit(visited: &mut Count, event: Event) -> Result<(), AllocError>
    ensures { OnOk result (visited.new ≡ visits_with visited.old event) }
{
    match event {
        Event::Visited => visited.add(1),
        _ => Ok(()),
    }
}

/// Keeps a visit, if the walk came to one and visits are kept.
fn keep_visit<V: Visits>(
    visits: &mut V,
    keeps: bool,
    event: Event,
    path: &[u32],
) -> Result<(), AllocError>
    ensures { OnOk result (V.visits visits.new ≡ kept_with keeps (V.visits visits.old) event path.now) }
{
    match event {
        // The path is copied here and nowhere else: a count of years keeps one number.
        Event::Visited if keeps => visits.keep(path),
        _ => Ok(()),
    }
}
