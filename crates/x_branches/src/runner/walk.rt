//! Many steps of a runner at once.
ghost use Rattle.std.specs.Prelude.{◌≡◌, ◌≢◌, ◌<◌, ◌≤◌, ◌+◌, ◌++◌, ◌⊎◌, ◌↔◌, true, false, length, IsTrue, IfOk, IfErr, OnOk, OnErr};
ghost use Rattle.x_steps.specs.StateView.{state_value};
ghost use Rattle.x_steps.specs.Steps.{Fits};
ghost use Rattle.x_steps.specs.Walk.{OnlyMoves, CountsHaveRoom, PassesNoCut, TellsLast, IsWalkOf};
ghost use Rattle.x_branches.specs.Branch.{end_of};
ghost use Rattle.x_branches.specs.Refusals.{CanAdvance, AdvanceRefused};
ghost use Rattle.x_branches.specs.Walk.{advanced_by, CanAdvanceBy, IsHeldUp, HasToStop, AddsVisit, passed_visits, IsOverOrAtVisit};

use crate::fault::RunnerFault;
use crate::runner::{Runner, discount};
use cover_problem::{Lists, Table};
use x_steps::{Event, Label, Machine, State, Walk};

/// Keeps the path where a walk came to a visit; false where memory runs out.
#[inline(always)]
fn keep_visit(visits: &mut Lists, event: Event, state: &State) -> bool
    ensures kept { IsTrue result → AddsVisit visits.old visits.new event (state_value state.now) }
    ensures unchanged { result ≡ false → visits.new ≡ visits.old }
    ensures at_visit { result ≡ false → event ≡ Event.Visited }
{
    match event {
        Event::Visited => visits.push(&state.path).is_ok(),
        _ => true,
    }
}

/// Walks on, and keeps the visit where it came to one. Where there is no memory for that, it stops before the visit's step.
#[inline(always)]
fn walk_noted<T: Table>(
    machine: &mut Machine<'_, T>,
    most: u32,
    end: &[u32],
    visits: &mut Lists,
    counts: &mut [u32],
) -> Walk
    requires fits { Fits machine.old.problem machine.old.state }
    requires goes_on { machine.old.state.label ≢ Label.Done }
    requires levels { length counts.old ≡ length machine.old.problem.names + 1 }
    requires room { CountsHaveRoom most counts.old }
    ensures problem { machine.new.problem ≡ machine.old.problem }
    ensures walk { IsWalkOf machine.old machine.new counts.old counts.new result }
    ensures visits { visits.new ≡ visits.old ++ passed_visits machine.old result.steps }
    ensures within { result.steps ≤ most }
    ensures before { PassesNoCut machine.old result.steps end.now }
    ensures stops { IsOverOrAtVisit most machine.old.problem machine.new.state end.now result }
{
    let Ok(walk) = machine.walk(most, end, counts) else {
        // A walk is refused only at Done.
        unreachable!()
    };
    if keep_visit(visits, walk.event, machine.state()) {
        return walk;
    }
    // Without memory for the visit the search has to stand before it again.
    let Ok(()) = machine.back() else {
        unreachable!()
    };
    discount(counts, machine.state());
    Walk {
        steps: walk.steps - 1,
        // A walk goes on only where a step moved, and so did the one before the visit's, if there is one.
        event: Event::Moved,
    }
}

/// Whether the last step of a walk came to a visit.
#[inline(always)]
fn is_visited(walk: Walk) -> bool
    ensures { IsTrue result ↔ (walk.event ≡ Event.Visited) }
{
    matches!(walk.event, Event::Visited)
}

impl<'p, T: Table> Runner<'p, T> {
    /// Walks on as `walk` does, from where it isn't at its branch's end. It takes no step where the stretch is full, and where there is
    /// no memory for the visit of the first.
    #[inline(always)]
    fn walk_on(&mut self, most: u32) -> Walk
        requires goes_on { self.old.position ≢ end_of self.old.branch.hi }
        ensures state { self.new ≡ advanced_by self.old result.steps }
        ensures each_step { CanAdvanceBy self.old result.steps }
        ensures event { TellsLast self.old.problem self.old.position result }
        ensures moves { OnlyMoves self.old.problem result.steps self.old.position }
        ensures within { result.steps ≤ most }
        ensures stops { (result.steps ≡ most) ⊎ HasToStop self.new result.event }
        ensures none { result.steps ≡ 0 → (most ≡ 0) ⊎ IsHeldUp self.old }
    {
        // The steps of a stretch are counted in 32 bits.
        let room = most.min(u32::MAX - self.steps);
        // A branch that ends with the run has no such choices: Done itself ends the walk.
        let end = self.branch.end_choices();
        let walk = walk_noted(
            &mut self.machine,
            room,
            end,
            &mut self.visits,
            &mut self.counts,
        );
        self.steps += walk.steps;
        walk
    }

    /// Takes steps as `advance` does, one after the other, until `most` are taken, the last one came to a visit or to the end of
    /// the run, or the next one would be refused; tells how many they are, and what the last of them told. Refused where the first
    /// is: at the branch's end, then where the stretch has as many steps as can be counted, and, at a visit alone, when out of
    /// memory; nothing has then changed.
    pub fn walk(&mut self, most: u32) -> Result<Walk, RunnerFault>
        ensures state { IfOk result (λ w. self.new ≡ advanced_by self.old w.steps) }
        ensures each_step { IfOk result (λ w. CanAdvanceBy self.old w.steps) }
        ensures event { IfOk result (λ w. TellsLast self.old.problem self.old.position w) }
        ensures moves { IfOk result (λ w. OnlyMoves self.old.problem w.steps self.old.position) }
        ensures within { IfOk result (λ w. w.steps ≤ most) }
        ensures some { IfOk result (λ w. 0 < most → 0 < w.steps) }
        ensures stops { IfOk result (λ w. (w.steps ≡ most) ⊎ HasToStop self.new w.event) }
        ensures can { OnOk result (CanAdvance self.old) }
        ensures refused { IfErr result (AdvanceRefused self.old) }
        ensures unchanged { OnErr result (self.new ≡ self.old) }
    {
        if self.is_at_end() {
            return Err(RunnerFault::AtBranchEnd);
        }
        if self.steps == u32::MAX {
            return Err(RunnerFault::StretchFull);
        }
        let walk = self.walk_on(most);
        // Neither at the end nor full, it took no step: so the first was a visit's, without memory.
        if walk.steps == 0 && most > 0 {
            return Err(RunnerFault::OutOfMemory);
        }
        Ok(walk)
    }

    /// Takes steps as `advance` does, one after the other, until `most` are taken or the next one would be refused; tells how many
    /// they are. Refused where the first is, as `walk` is; nothing has then changed.
    pub fn advance_by(&mut self, most: u32) -> Result<u32, RunnerFault>
        ensures state { IfOk result (λ steps. self.new ≡ advanced_by self.old steps) }
        ensures each_step { IfOk result (λ steps. CanAdvanceBy self.old steps) }
        ensures within { IfOk result (λ steps. steps ≤ most) }
        ensures some { IfOk result (λ steps. 0 < most → 0 < steps) }
        ensures stops { IfOk result (λ steps. (steps ≡ most) ⊎ IsHeldUp self.new) }
        ensures can { OnOk result (CanAdvance self.old) }
        ensures refused { IfErr result (AdvanceRefused self.old) }
        ensures unchanged { OnErr result (self.new ≡ self.old) }
    {
        let mut walk = self.walk(most)?;
        let mut left = most - walk.steps;
        // Behind a visit no branch ends, so that isn't asked at each of them.
        'walking: while left > 0 && is_visited(walk) {
            walk = self.walk_on(left);
            left -= walk.steps;
        }
        Ok(most - left)
    }
}
