//! Workers: a lease with the runner that searches its tile.
ghost use Rattle.std.specs.Prelude.{◌≡◌, ◌≤◌, ◌<◌, ◌⊎◌, IfOk, IfErr, OnOk, OnErr};
ghost use Rattle.shared_words.specs.Answers.{Returns};
ghost use Rattle.x_steps.specs.StateView.{state_value};
ghost use Rattle.x_branches.specs.Runner.{IsRunner};
ghost use Rattle.x_branches.specs.Refusals.{CanAdvance, AdvanceRefused};
ghost use Rattle.x_branches.specs.Walk.{CanAdvanceBy, HasToStop};
ghost use Rattle.lab_book.specs.Book.{BookValue};
ghost use Rattle.lab_world.specs.Worker.{HoldsTile, moved_forward, moved_forward_by, moved_backward, next_event, event_after, MovesOnly};
ghost use Rattle.lab_world.specs.Alone.{StepsLead};

mod ends;
mod leases;
mod posts;
mod splits;

use cover_problem::Table;
use lab_book::{Grant, Lease};
pub(crate) use leases::Wanted;
use std::marker::Model;
use x_branches::{Runner, RunnerFault};
use x_steps::{Event, State, Walk};

/// The lease of a tile and the runner that searches there. A worker that is let go discards its lease: the tile stays leased.
pub struct Worker<'p, T: Table> {
    lease: Lease,
    runner: Runner<'p, T>,
}

impl<'p, T: Table> Model for Worker<'p, T> {
    ghost use Rattle.lab_world.specs.Worker.{WorkerValue};

    ghost Value = { WorkerValue };

    ghost view = { λ w. record { grant = w.lease; runner = w.runner } };
}

impl<'p, T: Table> Drop for Worker<'p, T> {
    fn drop(self) {
        // To end the lease is a call of the book, which isn't here and may refuse.
        let Worker { lease, runner: _ } = self;
        lease.discard();
    }
}

impl<'p, T: Table> Worker<'p, T> {
    /// The parts of its lease.
    pub fn grant(&self) -> Grant
        ensures { result ≡ self.now.grant }
    {
        self.lease.grant()
    }

    /// Its runner.
    pub fn runner(&self) -> &Runner<'p, T>
        ensures { result.now ≡ self.now.runner }
    {
        &self.runner
    }

    /// Where it stands: in its branch or at its end, at its mark or after it.
    pub fn state(&self) -> &State
        ensures state { state_value result.now ≡ self.now.runner.position }
        ensures runner { IsRunner self.now.runner }
    {
        self.runner.state()
    }

    /// Takes one step, as its runner does.
    pub fn step(&mut self) -> Result<Event, RunnerFault>
        ensures state { OnOk result (self.new ≡ moved_forward self.old) }
        ensures event { Returns result (next_event self.old) }
        ensures can { OnOk result (CanAdvance self.old.runner) }
        ensures refused { IfErr result (AdvanceRefused self.old.runner) }
        ensures unchanged { OnErr result (self.new ≡ self.old) }
        ensures holds { (b : BookValue) → HoldsTile b self.old → HoldsTile b self.new }
    {
        self.runner.advance()
    }

    /// Takes steps as `step` does, one after the other, and stops where its runner does: once `most` are taken, where the last one
    /// came to a visit or to the end of the run, or where the next one would be refused. Refused where the first one is, which
    /// changes nothing. In a world of this worker alone it is so many acts `Step`, whatever the book is.
    pub fn walk(&mut self, most: u32) -> Result<Walk, RunnerFault>
        ensures state { IfOk result (λ w. self.new ≡ moved_forward_by self.old w.steps) }
        ensures each_step { IfOk result (λ w. CanAdvanceBy self.old.runner w.steps) }
        ensures event { IfOk result (λ w. w.event ≡ event_after self.old w.steps) }
        ensures moves { IfOk result (λ w. MovesOnly self.old w.steps) }
        ensures played { IfOk result (λ w. StepsLead self.old w.steps self.new) }
        ensures within { IfOk result (λ w. w.steps ≤ most) }
        ensures some { IfOk result (λ w. 0 < most → 0 < w.steps) }
        ensures stops { IfOk result (λ w. (w.steps ≡ most) ⊎ HasToStop self.new.runner w.event) }
        ensures can { OnOk result (CanAdvance self.old.runner) }
        ensures refused { IfErr result (AdvanceRefused self.old.runner) }
        ensures unchanged { OnErr result (self.new ≡ self.old) }
        ensures holds { (b : BookValue) → HoldsTile b self.old → HoldsTile b self.new }
    {
        // The runner looks at its limits once for many steps, and not at each.
        self.runner.walk(most)
    }

    /// Takes the last step back that isn't posted, as its runner does.
    pub fn back(&mut self) -> Result<(), RunnerFault>
        ensures state { OnOk result (self.new ≡ moved_backward self.old) }
        ensures can { OnOk result (self.old.runner.position ≡ self.old.runner.mark → ⊥) }
        ensures refused { IfErr result (λ fault. fault ≡ RunnerFault.AtMark) }
        ensures at_mark { OnErr result (self.old.runner.position ≡ self.old.runner.mark) }
        ensures unchanged { OnErr result (self.new ≡ self.old) }
        ensures holds { (b : BookValue) → HoldsTile b self.old → HoldsTile b self.new }
    {
        self.runner.retreat()
    }
}
