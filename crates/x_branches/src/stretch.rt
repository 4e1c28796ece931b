//! Stretches: parts of a run that were walked.
ghost use Rattle.std.specs.Prelude.{◌≡◌, ◌↔◌, IfOk, IsTrue};
ghost use Rattle.x_steps.specs.StateView.{state_value};
ghost use Rattle.x_steps.specs.Run.{steps_between, visits_between};
ghost use Rattle.x_steps.specs.Levels.{trimmed_levels};
ghost use Rattle.x_branches.specs.Stretch.{IsStretch};

use cover_problem::{Lists, Problem};
use std::alloc::AllocError;
use std::marker::Model;
use x_steps::{Mark, State};

/// The part of a problem's run from one state up to another, without that one.
#[derive(Drop)]
pub struct Stretch<'p> {
    pub(crate) problem: &'p Problem,
    pub(crate) from: Mark,
    pub(crate) to: Mark,
    pub(crate) steps: u32,
    pub(crate) visits: Lists,
    /// How many X2 states there are at each level, up to the last level that has one.
    pub(crate) levels: Vec<u32>,
}

impl<'p> Model for Stretch<'p> {
    ghost use Rattle.x_steps.specs.StateView.{state_value};
    ghost use Rattle.x_branches.specs.Stretch.{StretchValue, KeepsStretch};

    ghost Value = { StretchValue };

    ghost view = { λ s. record { problem = s.problem.now; from = s.from; to = s.to } };

    ghost invariant = { λ s. KeepsStretch s.problem.now s.from s.to s.steps s.visits s.levels.items };
}

impl<'p> Stretch<'p> {
    /// The problem whose run it is part of.
    pub fn problem(&self) -> &'p Problem
        ensures { result.now ≡ self.now.problem }
    {
        self.problem
    }

    /// What is true of every stretch, for a proof that needs it: its steps lead from its first state to its last.
    pub fn is_sound(&self)
        ensures stretch { IsStretch self.now.problem self.now.from self.now.to }
    {
        // Where a field is read, what the whole keeps true is known.
        let _from = &self.from;
    }

    /// Its first state.
    pub fn from(&self) -> &State
        ensures state { state_value result.now ≡ self.now.from }
        ensures stretch { IsStretch self.now.problem self.now.from self.now.to }
    {
        self.from.state()
    }

    /// The same, to be shared.
    pub fn from_mark(&self) -> &Mark
        ensures { result.now ≡ self.now.from }
    {
        &self.from
    }

    /// The state that it leads to, which isn't in it.
    pub fn to(&self) -> &State
        ensures { state_value result.now ≡ self.now.to }
    {
        self.to.state()
    }

    /// The same, to be shared.
    pub fn to_mark(&self) -> &Mark
        ensures { result.now ≡ self.now.to }
    {
        &self.to
    }

    /// How many steps it has.
    pub fn steps(&self) -> u32
        ensures { result ≡ steps_between self.now.problem self.now.from self.now.to }
    {
        self.steps
    }

    /// The paths that it visits.
    pub fn visits(&self) -> &Lists
        ensures { result.now ≡ visits_between self.now.problem self.now.from self.now.to }
    {
        &self.visits
    }

    /// How many X2 states it has at each level, up to the last level that has one.
    pub fn levels(&self) -> &[u32]
        ensures { result.now ≡ trimmed_levels self.now.problem self.now.from self.now.to }
    {
        &self.levels
    }

    /// Whether it is the same stretch of the same problem.
    pub fn same(&self, other: &Stretch<'_>) -> bool
        ensures { IsTrue result ↔ (self.now ≡ other.now) }
    {
        // All else that it has follows from these.
        self.problem.same(other.problem) && self.from.same(&other.from) && self.to.same(&other.to)
    }

    /// The same stretch, in memory of its own.
    pub fn copy(&self) -> Result<Stretch<'p>, AllocError>
        ensures { IfOk result (λ stretch. stretch ≡ self.now) }
    {
        let from = self.from.copy()?;
        let to = self.to.copy()?;
        let visits = self.visits.copy()?;
        let levels = self.levels.clone()?;
        Ok(Stretch {
            problem: self.problem,
            from,
            to,
            steps: self.steps,
            visits,
            levels,
        })
    }
}
