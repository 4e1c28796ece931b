//! A stretch of a run: a machine is taken on, and what it passes is counted.
ghost use Rattle.std.specs.Prelude.{◌≡◌, ◌<◌, ◌≤◌, ◌-◌, ◌+◌, ◌⊎◌, ℕ, Some, length, option_map, IfOk, OnOk, IfSome, IsTrue};
ghost use Rattle.std.specs.Option.{ForSome};
ghost use Rattle.x_steps.specs.StateView.{state_value};
ghost use Rattle.x_steps.specs.Steps.{Fits};
ghost use Rattle.x_steps.specs.Walk.{IsAtCut, IsWalkOf, CountsHaveRoom};
ghost use Rattle.x_branches.specs.RunOrder.{ComesBefore};
ghost use Rattle.polylab_engine.specs.Account.{empty_account};
ghost use Rattle.polylab_engine.specs.Stretch.{end_at, account_from, report_from, IsAtEnd, StopsAt, HasFewerBefore, state_at};
ghost use Rattle.polylab_engine.specs.Searcher.{stands};

use crate::report::Report;
use crate::searcher::{AnyMachine, Searcher};
use crate::tally::RunTally;
use crate::visits::Visits;
use cover_problem::{Lists, Problem, Table};
use std::alloc::{AllocError, Global};
use x_steps::{Event, Machine, State, Walk, no_counts};

/// How many steps a search takes before it is asked again which table it prefers: its first way down is of another kind than what follows.
const BEFORE_ASKING: u32 = 8_000;

/// How many steps of one worker show which table workers prefer who share the search.
const SHOWING: u64 = 200_000;

/// Where a stretch stops, and whether it keeps its visits.
#[derive(Clone, Copy)]
pub struct Bounds<'a> {
    /// The choices of the cut that ends the branch; none if it ends with the run.
    pub end: &'a [u32],
    /// How many steps are asked for, if a number is.
    pub most: Option<u64>,
    /// The number of the last visit that is asked for, if one is.
    pub first: Option<u64>,
    /// Whether the visits are kept.
    pub keeps: bool,
}

/// How many steps a search takes before it is asked the next time, where it took so many before the last time. What it costs to ask stays
/// a small part of what is searched.
fn before_next(steps: u32) -> u32
    requires { 0 < steps }
    ensures { 0 < result }
{
    steps.saturating_mul(4)
}

/// How many steps the next walk may take: as many as there is room for, and no more than are left; none where all visits are there.
fn pace_of(room: u32, left: Option<u64>, is_full: bool) -> u32
    ensures room { result ≤ room }
    ensures left { IfSome left (λ steps. result ≤ steps) }
    ensures full { IsTrue is_full → result ≡ 0 }
    ensures none { result ≡ 0 → IsTrue is_full ⊎ ((room ≡ 0) ⊎ (left ≡ Some 0)) }
{
    // A walk of no step ends the stretch, whichever bound it has met: one way out serves them all.
    if is_full {
        return 0;
    }
    match left {
        Some(steps) if steps < room as u64 => steps as u32,
        _ => room,
    }
}

/// How many steps are left after some.
fn left_after(left: Option<u64>, taken: u32) -> Option<u64>
    requires { ForSome left (λ steps. taken ≤ steps) }
    ensures { result ≡ option_map (λ steps. steps - taken) left }
{
    match left {
        Some(steps) => Some(steps - taken as u64),
        None => None,
    }
}

/// Walks on, as a machine does, and not at Done: a walk of no step stands there, or at the cut of the choices `end`, or was to
/// take none.
fn walk_machine<T: Table>(
    machine: &mut Machine<'_, T>,
    most: u32,
    end: &[u32],
    counts: &mut [u32],
) -> Walk
    requires levels { length counts.old ≡ length machine.old.problem.names + 1 }
    requires room { CountsHaveRoom most counts.old }
    ensures problem { machine.new.problem ≡ machine.old.problem }
    ensures walk { IsWalkOf machine.old machine.new counts.old counts.new result }
    ensures within { result.steps ≤ most }
    ensures before { (i : ℕ) → i < result.steps → IsAtCut (state_at machine.old i) end.now → ⊥ }
    ensures none { result.steps ≡ 0 → (most ≡ 0) ⊎ IsAtEnd machine.new.state end.now }
{
    match machine.walk(most, end, counts) {
        Ok(walk) => walk,
        // At Done there is nothing to walk, and that is where a stretch without a cut ends.
        Err(_) => Walk {
            steps: 0,
            event: Event::Moved,
        },
    }
}

/// The same for a search by either table. Which one is asked for each walk alone, and not for each call of the table.
fn walk_on(searcher: &mut Searcher<'_>, most: u32, end: &[u32], counts: &mut [u32]) -> Walk
    requires levels { length counts.old ≡ length (stands searcher.old).problem.names + 1 }
    requires room { CountsHaveRoom most counts.old }
    ensures problem { (stands searcher.new).problem ≡ (stands searcher.old).problem }
    ensures walk { IsWalkOf (stands searcher.old) (stands searcher.new) counts.old counts.new result }
    ensures within { result.steps ≤ most }
    ensures before { (i : ℕ) → i < result.steps → IsAtCut (state_at (stands searcher.old) i) end.now → ⊥ }
    ensures none { result.steps ≡ 0 → (most ≡ 0) ⊎ IsAtEnd (stands searcher.new).state end.now }
{
    match &mut searcher.machine {
        AnyMachine::Links(machine) => walk_machine(machine, most, end, counts),
        AnyMachine::Bits(machine) => walk_machine(machine, most, end, counts),
    }
}

/// Walks on up to where a stretch stops, and adds all that is passed to the tally, in which there is nothing yet.
// By itself: what it works on is lent, so that no way out of its loop has to let it go.
fn walk_to_stop<V: Visits>(
    alloc: Global,
    searcher: &mut Searcher<'_>,
    tally: &mut RunTally<V>,
    bounds: Bounds<'_>,
) -> Result<(), AllocError>
    requires end { Fits (stands searcher.old).problem (end_at bounds.end.now) }
    requires not_past { ComesBefore (stands searcher.old).problem (end_at bounds.end.now) (stands searcher.old).state → ⊥ }
    requires empty { tally.old ≡ empty_account (length (stands searcher.old).problem.names) }
    ensures stop { OnOk result (StopsAt bounds.entry.first bounds.entry.most (stands searcher.old)
        bounds.entry.end.now tally.new.visited (stands searcher.new).state) }
    ensures first { OnOk result (ForSome bounds.entry.first (λ n. tally.new.visited ≤ n)) }
    ensures soon { OnOk result (ForSome bounds.entry.first (λ n. HasFewerBefore (stands searcher.old) tally.new.steps n)) }
    ensures fits { OnOk result (Fits (stands searcher.old).problem (stands searcher.new).state) }
    ensures account { OnOk result (tally.new ≡ account_from bounds.entry.keeps (stands searcher.old) (stands searcher.new).state) }
{
    searcher.stands_in_run();
    let items = searcher.problem().items();
    let mut counts = no_counts(alloc, items)?;
    // The machine counts in 32 bits, which so many steps can't pass. Then the counts go to totals without a bound, and the table is asked
    // for again.
    let mut paced = BEFORE_ASKING;
    let mut room = paced;
    let mut left = bounds.most;
    loop {
        let walk = walk_on(
            searcher,
            pace_of(room, left, tally.is_full(bounds.first)),
            bounds.end,
            &mut counts,
        );
        if walk.steps == 0 {
            tally.add_counts(&counts)?;
            return Ok(());
        }
        tally.note(bounds.keeps, walk, &searcher.state().path)?;
        left = left_after(left, walk.steps);
        room -= walk.steps;
        if room == 0 {
            tally.add_counts(&counts)?;
            counts = no_counts(alloc, items)?;
            paced = before_next(paced);
            room = paced;
            searcher.ask_again(alloc);
        }
    }
}

/// Takes a search on, up to the end of a branch, which is the cut of the choices `end`, or Done where there are none; or `most` steps, or
/// up to the visit of the number `first`, if these come first. Answers the report of the stretch, which keeps the visits or not, and the
/// state where it stops. Memory doesn't grow with the stretch, but for visits that are kept.
pub fn search_on<V: Visits>(
    alloc: Global,
    searcher: Searcher<'_>,
    bounds: Bounds<'_>,
) -> Result<(Report<V>, State), AllocError>
    requires end { Fits (stands searcher).problem (end_at bounds.end.now) }
    requires not_past { ComesBefore (stands searcher).problem (end_at bounds.end.now) (stands searcher).state → ⊥ }
    ensures stop { IfOk result (λ r.
        StopsAt bounds.entry.first bounds.entry.most (stands searcher.entry) bounds.entry.end.now r.0.visited (state_value r.1)) }
    ensures first { IfOk result (λ r. ForSome bounds.entry.first (λ n. r.0.visited ≤ n)) }
    ensures soon { IfOk result (λ r. ForSome bounds.entry.first (λ n. HasFewerBefore (stands searcher.entry) r.0.steps n)) }
    ensures fits { IfOk result (λ r. Fits (stands searcher.entry).problem (state_value r.1)) }
    ensures report { IfOk result (λ r. r.0 ≡ report_from bounds.entry.keeps (stands searcher.entry) (state_value r.1)) }
{
    searcher.stands_in_run();
    let mut searcher = searcher;
    let mut tally = RunTally::<V>::new(alloc, searcher.problem().items())?;
    walk_to_stop(alloc, &mut searcher, &mut tally, bounds)?;
    let stop = searcher.state().copy()?;
    Ok((tally.report(alloc)?, stop))
}

/// A search after the first steps of a problem's run, by the table that it goes on by there.
pub fn begun(alloc: Global, problem: &Problem) -> Result<Searcher<'_>, AllocError> {
    let mut searcher = Searcher::new(alloc, problem, None)?;
    let mut tally = RunTally::<Lists>::new(alloc, problem.items())?;
    let bounds = Bounds {
        end: &[],
        most: Some(SHOWING),
        first: None,
        keeps: false,
    };
    walk_to_stop(alloc, &mut searcher, &mut tally, bounds)?;
    Ok(searcher)
}
