//! Runners: a search within one branch of a run, with the stretch of its steps that was not posted yet.
ghost use Rattle.std.specs.Prelude.{◌≡◌, ◌<◌, ◌+◌, ◌-◌, ◌↔◌, ◌++◌, [], length, true};
ghost use Rattle.std.specs.Prelude.{IfOk, IfErr, OnOk, OnErr, IsErr, IsTrue};
ghost use Rattle.shared_words.specs.Answers.{Returns, RefusedUnchanged};
ghost use Rattle.cover_problem.specs.Problem.{IsProblem};
ghost use Rattle.x_steps.specs.Answers.{ReturnsRows, ReturnsRow};
ghost use Rattle.shared_words.specs.Lists.{LosesLast};
ghost use Rattle.x_steps.specs.StateView.{state_value};
ghost use Rattle.x_steps.specs.Steps.{event_of, is_visit};
ghost use Rattle.x_steps.specs.Run.{steps_between};
ghost use Rattle.x_steps.specs.Machine.{remaining_in, second_in, chosen_in};
ghost use Rattle.x_branches.specs.Branch.{end_of};
ghost use Rattle.x_branches.specs.Runner.{IsRunner, runner_at, one_step_on, one_step_back, StandsBefore, covered_by_runner, visit_here, with_level, without_level};
ghost use Rattle.x_branches.specs.Refusals.{CanStart, StartRefused, CanAdvance, AdvanceRefused};
ghost use Rattle.x_branches.specs.Counts.{HasLevelOf, HasRoomFor, HasCounted};

mod posting;
mod untried;
mod walk;

use crate::branch::Branch;
use crate::fault::{RunnerFault, StartFault};
use cover_problem::{Lists, Problem, Table};
use std::alloc::{AllocError, Global};
use std::marker::Model;
use x_steps::{Event, Label, Machine, Mark, Refused, State, no_counts};

/// A search in one branch of a run. The stretch from its mark up to its position is unposted: the runner keeps how many steps
/// it has, its visits, and how many X2 states it has at each level.
#[derive(Drop)]
pub struct Runner<'p, T: Table> {
    machine: Machine<'p, T>,
    branch: Branch<'p>,
    mark: Mark,
    steps: u32,
    visits: Lists,
    /// For each level from 0 up to the number of items.
    counts: Vec<u32>,
}

impl<'p, T: Table> Model for Runner<'p, T> {
    ghost use Rattle.x_steps.specs.StateView.{state_value};
    ghost use Rattle.x_branches.specs.Runner.{RunnerValue, KeepsRunner};

    ghost Value = { RunnerValue };

    ghost view = { λ r. record {
      problem = r.machine.problem;
      branch = r.branch;
      mark = r.mark;
      position = r.machine.state;
    } };

    ghost invariant = { λ r. KeepsRunner (record {
      problem = r.machine.problem;
      branch = r.branch;
      mark = r.mark;
      position = r.machine.state;
    }) r.steps r.visits r.counts.items };
}

/// Counts a state at its level, if it is one of X2.
#[inline(always)]
fn count(counts: &mut [u32], state: &State)
    requires within { HasLevelOf counts.old (state_value state.now) }
    requires small { HasRoomFor counts.old (state_value state.now) }
    ensures { counts.new ≡ with_level counts.old (state_value state.now) }
{
    // At X2 a level begins, and at no other step.
    match state.label {
        Label::X2 => counts[state.path.len()] += 1,
        _ => (),
    }
}

/// Takes a state's count at its level away, if it is one of X2.
#[inline(always)]
fn discount(counts: &mut [u32], state: &State)
    requires within { HasLevelOf counts.old (state_value state.now) }
    requires some { HasCounted counts.old (state_value state.now) }
    ensures { counts.new ≡ without_level counts.old (state_value state.now) }
{
    match state.label {
        Label::X2 => counts[state.path.len()] -= 1,
        _ => (),
    }
}

/// Notes a state that is left by a step: its visit, and its level at X2. Takes memory at a visit alone, and changes nothing
/// where there is none.
#[inline(always)]
fn note<T: Table>(
    machine: &Machine<'_, T>,
    visits: &mut Lists,
    counts: &mut [u32],
) -> Result<(), AllocError>
    requires within { HasLevelOf counts.old machine.now.state }
    requires small { HasRoomFor counts.old machine.now.state }
    ensures visits { OnOk result (visits.new ≡ visits.old ++ visit_here machine.now) }
    ensures counts { OnOk result (counts.new ≡ with_level counts.old machine.now.state) }
    ensures visits_kept { OnErr result (visits.new ≡ visits.old) }
    ensures counts_kept { OnErr result (counts.new ≡ counts.old) }
    ensures at_visit { OnErr result (is_visit machine.now.problem machine.now.state ≡ true) }
{
    let state = machine.state();
    // The visit comes first: it alone can be refused, and then nothing is counted.
    if machine.is_visit() && visits.push(&state.path).is_err() {
        return Err(AllocError);
    }
    count(counts, state);
    Ok(())
}

/// Takes a state away that was noted: its visit, and its count at its level.
#[inline(always)]
fn forget<T: Table>(machine: &Machine<'_, T>, visits: &mut Lists, counts: &mut [u32])
    requires visit { is_visit machine.now.problem machine.now.state ≡ true → 0 < length visits.old }
    requires within { HasLevelOf counts.old machine.now.state }
    requires some { HasCounted counts.old machine.now.state }
    ensures visits { LosesLast visits.old visits.new (length (visit_here machine.now)) }
    ensures counts { counts.new ≡ without_level counts.old machine.now.state }
{
    // The machine stands again where `note` saw it: so the last visit is this state's, if it is one.
    if machine.is_visit() {
        visits.pop();
    }
    discount(counts, machine.state());
}

impl<'p, T: Table> Runner<'p, T> {
    /// A runner at a state, with its mark there. Refused where the search has no such state, then where the branch isn't one of
    /// the problem's run or the state is outside it, and when out of memory. The table then comes back with nothing covered,
    /// and so does the branch.
    pub fn new(
        alloc: Global,
        problem: &'p Problem,
        table: T,
        branch: Branch<'p>,
        state: &State,
    ) -> Result<Runner<'p, T>, Refused<StartFault, (T, Branch<'p>)>>
        requires same_problem { T.problem_value table ≡ problem.now }
        requires covered { T.covered_list table ≡ [] }
        ensures runner { Returns result
            (runner_at problem.now branch.entry (state_value state.now)) }
        ensures can { OnOk result (CanStart problem.now branch.entry (state_value state.now)) }
        ensures refused { IfErr result
            (λ r. StartRefused problem.now branch.entry (state_value state.now) r.fault) }
        ensures same_problem_back { IfErr result (λ r. T.problem_value r.given.0 ≡ problem.now) }
        ensures covered_back { IfErr result (λ r. T.covered_list r.given.0 ≡ []) }
        ensures branch_back { IfErr result (λ r. r.given.1 ≡ branch.entry) }
    {
        // The state comes first: whether a branch holds it can be asked only where the search has it.
        let machine = match Machine::at(alloc, problem, table, state) {
            Ok(machine) => machine,
            Err(refused) => {
                return Err(Refused {
                    fault: StartFault::Steps(refused.fault),
                    given: (refused.given, branch),
                });
            }
        };
        if !branch.holds(problem, state) {
            return Err(Refused {
                fault: StartFault::Runner(RunnerFault::OutsideBranch),
                given: (machine.into_table(), branch),
            });
        }
        // After the branch, so that a wrong one is told even where this memory is missing.
        let Ok(counts) = no_counts(alloc, problem.items()) else {
            return Err(Refused {
                fault: StartFault::Runner(RunnerFault::OutOfMemory),
                given: (machine.into_table(), branch),
            });
        };
        let Ok(mark) = Mark::of(state) else {
            return Err(Refused {
                fault: StartFault::Runner(RunnerFault::OutOfMemory),
                given: (machine.into_table(), branch),
            });
        };
        Ok(Runner {
            machine,
            branch,
            mark,
            steps: 0,
            visits: Lists::new(alloc),
            counts,
        })
    }

    /// The table, which stands for the items covered at the position.
    pub fn table(&self) -> &T
        ensures same_problem { T.problem_value result.now ≡ self.now.problem }
        ensures covered { T.covered_list result.now ≡ covered_by_runner self.now }
    {
        self.machine.table()
    }

    /// Gives the table back with nothing covered, without memory. What is unposted is lost.
    pub fn into_table(self) -> T
        ensures same_problem { T.problem_value result ≡ self.entry.problem }
        ensures covered { T.covered_list result ≡ [] }
    {
        let Runner {
            machine,
            branch: _,
            mark: _,
            steps: _,
            visits: _,
            counts: _,
        } = self;
        machine.into_table()
    }

    /// The problem whose run it is in.
    pub fn problem(&self) -> &'p Problem
        ensures { result.now ≡ self.now.problem }
    {
        self.machine.problem()
    }

    /// What is true of every runner, for a proof that needs it: mark and position are in its branch, in this order.
    pub fn is_sound(&self)
        ensures runner { IsRunner self.now }
        ensures problem { IsProblem self.now.problem }
    {
        // Where a field is read, what the whole keeps true is known.
        let _branch = &self.branch;
    }

    /// Where the search stands.
    pub fn state(&self) -> &State
        ensures state { state_value result.now ≡ self.now.position }
        ensures runner { IsRunner self.now }
        ensures problem { IsProblem self.now.problem }
    {
        self.machine.state()
    }

    /// From where on its steps are not posted.
    pub fn mark(&self) -> &State
        ensures { state_value result.now ≡ self.now.mark }
    {
        self.mark.state()
    }

    /// Its branch.
    pub fn branch(&self) -> &Branch<'p>
        ensures { result.now ≡ self.now.branch }
    {
        &self.branch
    }

    /// How many steps lead from its mark to its position.
    pub fn unposted(&self) -> u32
        ensures { result ≡ steps_between self.now.problem self.now.mark self.now.position }
    {
        self.steps
    }

    /// The covered items, in the order of covering.
    pub fn covered(&self) -> &[u32]
        ensures { result.now ≡ covered_by_runner self.now }
    {
        self.machine.covered()
    }

    /// The active items in order, each with the options left for it.
    pub fn remaining(&self) -> Result<Vec<(u32, Vec<u32>)>, AllocError>
        ensures { ReturnsRows result (remaining_in self.now.problem self.now.position) }
    {
        self.machine.remaining()
    }

    /// The secondary items that are not covered, in order, each with the options left for it.
    pub fn second(&self) -> Result<Vec<(u32, Vec<u32>)>, AllocError>
        ensures { ReturnsRows result (second_in self.now.problem self.now.position) }
    {
        self.machine.second()
    }

    /// At X4 to X7 the chosen item, with the options of its list.
    pub fn chosen(&self) -> Result<Option<(u32, Vec<u32>)>, AllocError>
        ensures { ReturnsRow result (chosen_in self.now.problem self.now.position) }
    {
        self.machine.chosen()
    }

    /// Whether the next step visits the path: X2, where no item is active.
    #[inline(always)]
    pub fn is_visit(&self) -> bool
        ensures { result ≡ is_visit self.now.problem self.now.position }
    {
        self.machine.is_visit()
    }

    /// Whether it stands at its branch's end.
    #[inline(always)]
    pub fn is_at_end(&self) -> bool
        ensures { IsTrue result ↔ (self.now.position ≡ end_of self.now.branch.hi) }
    {
        self.branch.end().is(self.state())
    }

    /// Takes one step, and tells what the step told. Refused at the branch's end, then where the stretch has as many steps as
    /// can be counted, and, at a visit alone, when out of memory; nothing has then changed.
    #[inline]
    pub fn advance(&mut self) -> Result<Event, RunnerFault>
        ensures state { OnOk result (self.new ≡ one_step_on self.old) }
        ensures event { IfOk result (λ event. event ≡ event_of self.old.problem self.old.position) }
        ensures can { OnOk result (CanAdvance self.old) }
        ensures refused { IfErr result (AdvanceRefused self.old) }
        ensures unchanged { OnErr result (self.new ≡ self.old) }
    {
        if self.is_at_end() {
            return Err(RunnerFault::AtBranchEnd);
        }
        if self.steps == u32::MAX {
            return Err(RunnerFault::StretchFull);
        }
        // Before the step, which leaves the state. What comes after this isn't refused.
        let Ok(()) = note(&self.machine, &mut self.visits, &mut self.counts) else {
            return Err(RunnerFault::OutOfMemory);
        };
        self.steps += 1;
        let Ok(event) = self.machine.step() else {
            // A step is refused only at Done, which no branch has before its end.
            unreachable!()
        };
        Ok(event)
    }

    /// Takes the last step back, without memory; refused only at the mark, which changes nothing.
    #[inline]
    pub fn retreat(&mut self) -> Result<(), RunnerFault>
        ensures state { OnOk result (self.new ≡ one_step_back self.old) }
        ensures before { OnOk result (StandsBefore self.old self.new.position) }
        ensures at_mark { IsErr result ↔ (self.old.position ≡ self.old.mark) }
        ensures refused { RefusedUnchanged result RunnerFault.AtMark self.old self.new }
    {
        // Steps are counted, so the states need not be compared.
        if self.steps == 0 {
            return Err(RunnerFault::AtMark);
        }
        let Ok(()) = self.machine.back() else {
            // A step back is refused only at X1, and here the mark comes before the position.
            unreachable!()
        };
        forget(&self.machine, &mut self.visits, &mut self.counts);
        self.steps -= 1;
        Ok(())
    }
}
