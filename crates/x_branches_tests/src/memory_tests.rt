//! Calls of a runner to which memory is refused: what was handed in comes back, the runner is as it was, and the same call, made again,
//! is answered as where nothing is refused. `dev/do check_memory` runs these tests with one growth refused, each growth in turn.
ghost use Rattle.std.specs.Prelude.{◌≡◌, []};

use crate::fixtures::{branch_of, runner_of, small, whole};
use cover_problem::{PlainTable, Problem, Table};
use drawn_problems::state_of;
use std::alloc::Global;
use std::test::Fail;
use x_branches::{Branch, Cut, Runner, RunnerFault, StartFault, Stretch};
use x_steps::{AtFault, Cursor, Event, Label, Refused, State};

/// A call of a runner that takes memory.
#[derive(Clone, Copy)]
enum Call {
    Advance,
    /// So many steps at once.
    AdvanceBy(u32),
    /// The cut at an option of a level.
    Cut(usize, u32),
    TakeStretch,
}

/// What it is answered.
#[derive(Drop)]
enum Answer<'p> {
    Event(Event),
    Steps(u32),
    Cut(Cut<'p>),
    Stretch(Stretch<'p>),
}

/// Whether two stretches are the same, part by part.
fn are_stretches(stretch: &Stretch<'_>, other: &Stretch<'_>) -> bool {
    stretch.same(other)
        && stretch.steps() == other.steps()
        && stretch.visits().same(other.visits())
        && stretch.levels() == other.levels()
}

impl Answer<'_> {
    /// Whether it is the same answer.
    fn same(&self, other: &Answer<'_>) -> bool {
        match (self, other) {
            (Answer::Event(one), Answer::Event(other)) => one == other,
            (Answer::Steps(one), Answer::Steps(other)) => one == other,
            (Answer::Cut(one), Answer::Cut(other)) => one.same(other),
            (Answer::Stretch(one), Answer::Stretch(other)) => are_stretches(one, other),
            _ => false,
        }
    }
}

/// The stretch of a runner.
fn take_stretch<'p>(runner: &mut Runner<'p, PlainTable>) -> Result<Stretch<'p>, RunnerFault> {
    match runner.take_stretch() {
        Ok(stretch) => Ok(stretch),
        Err(_) => Err(RunnerFault::OutOfMemory),
    }
}

/// Makes a call.
fn make<'p>(runner: &mut Runner<'p, PlainTable>, call: Call) -> Result<Answer<'p>, RunnerFault> {
    match call {
        Call::Advance => Ok(Answer::Event(runner.advance()?)),
        Call::AdvanceBy(most) => Ok(Answer::Steps(runner.advance_by(most)?)),
        Call::Cut(level, option) => Ok(Answer::Cut(runner.cut(level, option)?)),
        Call::TakeStretch => Ok(Answer::Stretch(take_stretch(runner)?)),
    }
}

/// Whether two runners stand alike: branch, mark, state and covered items, and how many steps are unposted.
fn stand_alike(runner: &Runner<'_, PlainTable>, other: &Runner<'_, PlainTable>) -> bool {
    runner.branch().same(other.branch())
        && runner.mark().same(other.mark())
        && runner.state().same(other.state())
        && runner.covered() == other.covered()
        && runner.unposted() == other.unposted()
}

/// What a call is answered, on a second try where the first is refused. None where the second is, too, and where the first changed the
/// runner.
fn made_again<'p>(
    runner: &mut Runner<'p, PlainTable>,
    call: Call,
    before: &Runner<'p, PlainTable>,
) -> Option<Answer<'p>> {
    match make(runner, call) {
        Ok(answer) => Some(answer),
        Err(fault) => {
            if fault != RunnerFault::OutOfMemory || !stand_alike(runner, before) {
                return None;
            }
            make(runner, call).ok()
        }
    }
}

/// Takes so many steps, all of which there have to be.
fn advance(runner: &mut Runner<'_, PlainTable>, steps: u32) -> Result<(), Fail> {
    for _ in 0..steps {
        if runner.advance().is_err() {
            return Err(Fail::from("no step"));
        }
    }
    Ok(())
}

/// A runner of the whole run, after so many steps.
fn advanced<'p>(
    alloc: Global,
    problem: &'p Problem,
    steps: u32,
) -> Result<Runner<'p, PlainTable>, Fail> {
    let mut runner = there(whole(alloc, problem))?;
    advance(&mut runner, steps)?;
    Ok(runner)
}

/// What a test needs, which has to be there.
fn there<V: Drop>(value: Option<V>) -> Result<V, Fail> {
    match value {
        Some(value) => Ok(value),
        None => Err(Fail::from("not made")),
    }
}

/// One growth, which is told where it is refused.
fn grows(alloc: Global) -> Result<(), Fail> {
    match vec![in alloc; 0u8; 1] {
        Ok(_) => Ok(()),
        Err(_) => Err(Fail::from("refused before the call")),
    }
}

/// What a call of a runner is answered to which nothing is refused.
fn answer_of<'p>(runner: &mut Runner<'p, PlainTable>, call: Call) -> Result<Answer<'p>, Fail> {
    match make(runner, call) {
        Ok(answer) => Ok(answer),
        Err(_) => Err(Fail::from("no answer")),
    }
}

/// Whether a call of a runner, which was like a third one before, is answered so, and leaves it like another one.
fn ends_like<'p>(
    runner: &mut Runner<'p, PlainTable>,
    other: &Runner<'p, PlainTable>,
    before: &Runner<'p, PlainTable>,
    call: Call,
    wanted: &Answer<'p>,
) -> bool {
    match made_again(runner, call, before) {
        Some(answer) => answer.same(wanted) && stand_alike(runner, other),
        None => false,
    }
}

/// Whether the same call of two runners that stand like a third one is answered alike, and leaves them alike, memory being refused to
/// the first one alone.
fn ends_alike<'p>(
    alloc: Global,
    runner: &mut Runner<'p, PlainTable>,
    other: &mut Runner<'p, PlainTable>,
    before: &Runner<'p, PlainTable>,
    call: Call,
) -> Result<bool, Fail> {
    let wanted = answer_of(other, call)?;
    grows(alloc)?;
    Ok(ends_like(runner, other, before, call, &wanted))
}

/// The same where the runner to which memory is refused is made here, after so many steps.
fn is_answered_alike<'p>(
    alloc: Global,
    problem: &'p Problem,
    steps: u32,
    call: Call,
    other: &mut Runner<'p, PlainTable>,
    before: &Runner<'p, PlainTable>,
) -> Result<bool, Fail> {
    let mut runner = advanced(alloc, problem, steps)?;
    ends_alike(alloc, &mut runner, other, before, call)
}

/// The same where the other one, to which nothing is refused, is made here, too.
fn is_answered_beside<'p>(
    alloc: Global,
    problem: &'p Problem,
    steps: u32,
    call: Call,
    before: &Runner<'p, PlainTable>,
) -> Result<bool, Fail> {
    let mut other = advanced(alloc, problem, steps)?;
    is_answered_alike(alloc, problem, steps, call, &mut other, before)
}

/// Whether a call after so many steps of the run is answered as where nothing is refused.
fn is_answered_after(
    alloc: Global,
    problem: &Problem,
    steps: u32,
    call: Call,
) -> Result<bool, Fail> {
    let before = advanced(alloc, problem, steps)?;
    is_answered_beside(alloc, problem, steps, call, &before)
}

/// The same of the small problem.
fn is_answered_in_small(alloc: Global, steps: u32, call: Call) -> Result<bool, Fail> {
    let problem = there(small(alloc))?;
    is_answered_after(alloc, &problem, steps, call)
}

#[test]
fn a_refused_visit_is_made_again(rt: HostRuntime) -> Result<(), Fail> {
    assert!(rt; is_answered_in_small(rt.alloc(), 29, Call::Advance)?);
    Ok(())
}

#[test]
fn a_refused_visit_is_made_again_with_the_steps_behind_it(rt: HostRuntime) -> Result<(), Fail> {
    assert!(rt; is_answered_in_small(rt.alloc(), 29, Call::AdvanceBy(14))?);
    Ok(())
}

#[test]
fn a_refused_cut_leaves_the_runner(rt: HostRuntime) -> Result<(), Fail> {
    assert!(rt; is_answered_in_small(rt.alloc(), 5, Call::Cut(0, 4))?);
    Ok(())
}

#[test]
fn a_refused_stretch_stays_with_the_runner(rt: HostRuntime) -> Result<(), Fail> {
    assert!(rt; is_answered_in_small(rt.alloc(), 30, Call::TakeStretch)?);
    Ok(())
}

/// Whether a start was refused for want of memory alone.
fn is_no_memory(fault: StartFault) -> bool {
    fault == StartFault::Steps(AtFault::OutOfMemory)
        || fault == StartFault::Runner(RunnerFault::OutOfMemory)
}

/// The runner of a branch from a state on, from the table and the branch that come back where the first try is refused. None where the
/// second is, too, and where they aren't as before.
fn runner_again<'p>(
    alloc: Global,
    problem: &'p Problem,
    table: PlainTable,
    branch: Branch<'p>,
    copy: &Branch<'p>,
    state: &State,
) -> Option<Runner<'p, PlainTable>>
    requires same_problem { table.problem ≡ problem.now }
    requires covered { table.covered ≡ [] }
{
    let Refused { fault, given } = match Runner::new(alloc, problem, table, branch, state) {
        Ok(runner) => return Some(runner),
        Err(refused) => refused,
    };
    let (table, branch) = given;
    if !is_no_memory(fault) || !table.covered().is_empty() || !branch.same(copy) {
        return None;
    }
    match Runner::new(alloc, problem, table, branch, state) {
        Ok(runner) => Some(runner),
        Err(_) => None,
    }
}

/// Whether a runner stands at a state of a branch with nothing unposted, and visits 4 5 1 after so many steps.
fn goes_on(
    runner: &mut Runner<'_, PlainTable>,
    branch: &Branch<'_>,
    state: &State,
    steps: u32,
) -> Result<bool, Fail> {
    let stands = runner.branch().same(branch) && runner.state().same(state);
    let is_marked = runner.mark().same(state) && runner.unposted() == 0;
    advance(runner, steps)?;
    let is_visit = runner.is_visit() && runner.state().path.as_slice() == [4, 5, 1].as_slice();
    Ok(stands && is_marked && is_visit)
}

/// Whether a runner of a branch goes on so from a state, though what it needs is refused at first.
fn starts_in<'p>(
    alloc: Global,
    problem: &'p Problem,
    branch: Branch<'p>,
    copy: &Branch<'p>,
    state: &State,
) -> Result<bool, Fail> {
    let table = PlainTable::new(alloc, problem)?;
    grows(alloc)?;
    match runner_again(alloc, problem, table, branch, copy, state) {
        Some(mut runner) => goes_on(&mut runner, copy, state, 9),
        None => Ok(false),
    }
}

/// The same of the branch from the cut 4 on.
fn starts_at(alloc: Global, problem: &Problem, state: &State) -> Result<bool, Fail> {
    let copy = there(branch_of(alloc, problem, &[4], &[]))?;
    starts_in(alloc, problem, copy.copy()?, &copy, state)
}

/// The same from its first state on.
fn starts_again(alloc: Global, problem: &Problem) -> Result<bool, Fail> {
    let state = state_of(alloc, Label::X5, &[], Cursor::At(4))?;
    starts_at(alloc, problem, &state)
}

/// The same of the small problem.
fn starts_again_in_small(alloc: Global) -> Result<bool, Fail> {
    let problem = there(small(alloc))?;
    starts_again(alloc, &problem)
}

#[test]
fn a_refused_runner_gives_its_table_and_its_branch_back(rt: HostRuntime) -> Result<(), Fail> {
    assert!(rt; starts_again_in_small(rt.alloc())?);
    Ok(())
}

/// Whether a runner begins a branch where it stands, on a second try where the first is refused for want of memory.
fn begins_again<'p>(
    runner: &mut Runner<'p, PlainTable>,
    branch: Branch<'p>,
    copy: &Branch<'p>,
) -> bool {
    let Refused {
        fault,
        given: branch,
    } = match runner.begin(branch) {
        Ok(()) => return true,
        Err(refused) => refused,
    };
    if fault != RunnerFault::OutOfMemory || !branch.same(copy) || !runner.is_at_end() {
        return false;
    }
    runner.begin(branch).is_ok()
}

/// Whether a runner that stands at the end of its branch begins another one, and goes on there as it should from this state.
fn begins_and_goes_on<'p>(
    alloc: Global,
    runner: &mut Runner<'p, PlainTable>,
    branch: Branch<'p>,
    copy: &Branch<'p>,
) -> Result<bool, Fail> {
    let state = state_of(alloc, Label::X5, &[4], Cursor::At(5))?;
    grows(alloc)?;
    Ok(begins_again(runner, branch, copy) && goes_on(runner, copy, &state, 5)?)
}

/// The same of the branch from the cut 4 5 on, behind the branch that ends there, which has four steps. A state without choices takes no
/// memory: this one has a choice.
fn begins_behind<'p>(alloc: Global, problem: &'p Problem, copy: &Branch<'p>) -> Result<bool, Fail> {
    let mut runner = there(runner_of(alloc, problem, &[4], &[4, 5]))?;
    advance(&mut runner, 4)?;
    begins_and_goes_on(alloc, &mut runner, copy.copy()?, copy)
}

/// The same where the branch is made here.
fn begins_the_rest(alloc: Global, problem: &Problem) -> Result<bool, Fail> {
    let copy = there(branch_of(alloc, problem, &[4, 5], &[]))?;
    begins_behind(alloc, problem, &copy)
}

/// The same of the small problem.
fn begins_the_rest_of_small(alloc: Global) -> Result<bool, Fail> {
    let problem = there(small(alloc))?;
    begins_the_rest(alloc, &problem)
}

#[test]
fn a_refused_branch_is_begun_again(rt: HostRuntime) -> Result<(), Fail> {
    assert!(rt; begins_the_rest_of_small(rt.alloc())?);
    Ok(())
}
