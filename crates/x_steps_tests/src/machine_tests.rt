//! Runs that are walked to the end and back, and what a machine tells at a state.
use cover_problem::{Lists, PlainTable, Problem, Table, read_cover};
use drawn_problems::{SMALL, state_of};
use std::alloc::{AllocError, Global};
use x_steps::{Cursor, Event, Label, Machine, State, StepFault};

/// A problem whose item c is secondary.
const SECONDARY: &str = "items a b\nmaybe c\noption a c\noption b c\noption a\noption b";

/// What a run had: how many states, its visits, each closed by a 0, whether its last step alone told that it
/// was the last, and whether each step was taken back.
#[derive(Drop)]
pub struct RoundTrip {
    states: usize,
    pub visits: Vec<u32>,
    pub is_finished: bool,
    pub is_undone: bool,
}

/// Takes every step, and notes the states, the visits, and what each step told.
fn forwards<T: Table>(
    machine: &mut Machine<T>,
    states: &mut Vec<State>,
    visits: &mut Vec<u32>,
    events: &mut Vec<Event>,
) -> Result<(), AllocError> {
    for _ in 0..100_000 {
        states.push(machine.state().copy()?)?;
        let Ok(event) = machine.step() else {
            break;
        };
        events.push(event)?;
        if event == Event::Visited {
            visits.extend_from_slice(&machine.state().path)?;
            visits.push(0)?;
        }
    }
    Ok(())
}

/// Whether the last step, and none before it, told that it was the last.
fn ends_finished(events: &[Event]) -> bool {
    match events.split_last() {
        Some((last, before)) => *last == Event::Finished && !before.contains(&Event::Finished),
        None => false,
    }
}

/// Takes every step back: whether the machine stood at each of these states, the last one first.
fn backwards<T: Table>(machine: &mut Machine<T>, states: &[State]) -> bool {
    let mut is_same = true;
    for state in states.iter().rev() {
        is_same = is_same && machine.state().same(state);
        is_same = is_same && (machine.back().is_ok() || state.label == Label::X1);
    }
    is_same
}

/// Whether the run is over, and goes no further.
fn is_over<T: Table>(machine: &mut Machine<T>) -> bool {
    machine.state().label == Label::Done && machine.step() == Err(StepFault::Done)
}

/// Whether the run has not begun, and goes no further back.
fn is_unbegun<T: Table>(machine: &mut Machine<T>) -> bool {
    machine.state().label == Label::X1
        && machine.back() == Err(StepFault::AtFirst)
        && machine.table().covered().is_empty()
}

/// Walks a machine to the end of its run and back.
fn round_trip<T: Table>(alloc: Global, machine: &mut Machine<T>) -> RoundTrip {
    let mut states = Vec::new(alloc);
    let mut visits = Vec::new(alloc);
    let mut events = Vec::new(alloc);
    let is_noted = forwards(machine, &mut states, &mut visits, &mut events).is_ok();
    let is_back = is_over(machine) && backwards(machine, &states) && is_unbegun(machine);
    RoundTrip {
        states: states.len(),
        visits,
        is_finished: ends_finished(&events),
        is_undone: is_noted && is_back,
    }
}

/// Walks a problem's run to its end and back.
pub fn there_and_back(alloc: Global, problem: &Problem) -> Option<RoundTrip> {
    let Ok(table) = PlainTable::new(alloc, problem) else {
        return None;
    };
    match Machine::new(alloc, problem, table) {
        Ok(mut machine) => Some(round_trip(alloc, &mut machine)),
        Err(_) => None,
    }
}

/// Whether it has the states and the one visit of the small problem.
fn is_small_trip(trip: &RoundTrip) -> bool {
    trip.is_finished
        && trip.is_undone
        && trip.states == 44
        && trip.visits.as_slice() == [4, 5, 1, 0].as_slice()
}

/// Whether a problem's run is the small one's.
fn is_small_run(alloc: Global, problem: &Problem) -> bool {
    match there_and_back(alloc, problem) {
        Some(trip) => is_small_trip(&trip),
        None => false,
    }
}

/// The same of the small problem.
fn is_small_right(alloc: Global) -> bool {
    let Ok(problem) = read_cover(alloc, SMALL.as_bytes()) else {
        return false;
    };
    is_small_run(alloc, &problem)
}

#[test]
fn each_step_is_taken_back(rt: HostRuntime) {
    assert!(rt; is_small_right(rt.alloc()));
}

/// A state, and the number of its refusal; none where it is taken.
struct Taken(Label, &'static [u32], Cursor, Option<u8>);

static STATES: [Taken; 8] = [
    Taken(Label::X5, &[2, 3], Cursor::Past, None),
    Taken(Label::X5, &[4, 5], Cursor::At(1), None),
    Taken(Label::Done, &[], Cursor::None, None),
    Taken(Label::X6, &[], Cursor::At(5), Some(3)),
    Taken(Label::X3, &[4, 5, 1], Cursor::None, Some(3)),
    Taken(Label::X8, &[2, 1], Cursor::None, Some(3)),
    Taken(Label::X2, &[0], Cursor::None, Some(3)),
    Taken(
        Label::X2,
        &[2, 2, 2, 2, 2, 2, 2, 2, 2],
        Cursor::None,
        Some(3),
    ),
];

/// Whether a state is taken, and a machine stands there, or it is refused with this number.
fn is_taken_at(alloc: Global, problem: &Problem, state: &State, number: Option<u8>) -> bool {
    let Ok(table) = PlainTable::new(alloc, problem) else {
        return false;
    };
    match Machine::at(alloc, problem, table, state) {
        Ok(machine) => number.is_none() && machine.state().same(state),
        Err(refused) => number.is_some() && refused.fault.number() == number,
    }
}

/// Whether the state of a row is taken or refused as it tells.
fn is_taken_so(alloc: Global, row: &Taken) -> bool {
    let Ok(problem) = read_cover(alloc, SMALL.as_bytes()) else {
        return false;
    };
    let Ok(state) = state_of(alloc, row.0, row.1, row.2) else {
        return false;
    };
    is_taken_at(alloc, &problem, &state, row.3)
}

#[test]
fn states_of_the_search_are_taken(rt: HostRuntime) {
    for row in &STATES {
        assert!(rt; is_taken_so(rt.alloc(), row));
    }
}

/// A part of what a machine tells at a state.
#[derive(Clone, Copy)]
enum Part {
    Covered,
    Remaining,
    Chosen,
    Second,
}

/// A problem and a state; a part of what a machine tells there, and as what list: an item with its options is closed by a 0.
struct Told(
    &'static str,
    Label,
    &'static [u32],
    Cursor,
    Part,
    &'static [u32],
);

/// Adds an item with its options, closed by a 0.
fn add_row(list: &mut Vec<u32>, row: &(u32, Vec<u32>)) -> Result<(), AllocError> {
    list.push(row.0)?;
    list.extend_from_slice(&row.1)?;
    Ok(list.push(0)?)
}

/// Adds items with their options.
fn add_rows(list: &mut Vec<u32>, rows: &[(u32, Vec<u32>)]) -> Result<(), AllocError> {
    for row in rows {
        add_row(list, row)?;
    }
    Ok(())
}

/// Adds the chosen item, if there is one.
fn add_chosen(list: &mut Vec<u32>, chosen: &Option<(u32, Vec<u32>)>) -> Result<(), AllocError> {
    match chosen {
        Some(row) => add_row(list, row),
        None => Ok(()),
    }
}

/// Adds a part of what a machine tells.
fn add_part<T: Table>(
    list: &mut Vec<u32>,
    machine: &Machine<T>,
    part: Part,
) -> Result<(), AllocError> {
    match part {
        Part::Covered => Ok(list.extend_from_slice(machine.covered())?),
        Part::Remaining => add_rows(list, &machine.remaining()?),
        Part::Chosen => add_chosen(list, &machine.chosen()?),
        Part::Second => add_rows(list, &machine.second()?),
    }
}

/// Whether this part of what a machine tells is this list.
fn is_part<T: Table>(alloc: Global, machine: &Machine<T>, part: Part, wanted: &[u32]) -> bool {
    let mut list = Vec::new(alloc);
    let is_added = add_part(&mut list, machine, part).is_ok();
    is_added && list.as_slice() == wanted
}

/// Whether a machine that stands at a state of a problem tells what a row does.
fn is_told_at(alloc: Global, problem: &Problem, state: &State, row: &Told) -> bool {
    let Ok(table) = PlainTable::new(alloc, problem) else {
        return false;
    };
    match Machine::at(alloc, problem, table, state) {
        Ok(machine) => is_part(alloc, &machine, row.4, row.5),
        Err(_) => false,
    }
}

/// The same at the row's problem and state.
fn is_told(alloc: Global, row: &Told) -> bool {
    let Ok(problem) = read_cover(alloc, row.0.as_bytes()) else {
        return false;
    };
    let Ok(state) = state_of(alloc, row.1, row.2, row.3) else {
        return false;
    };
    is_told_at(alloc, &problem, &state, row)
}

static LEFT: [Told; 3] = [
    Told(
        SMALL,
        Label::X2,
        &[2],
        Cursor::None,
        Part::Covered,
        &[1, 4, 7],
    ),
    Told(
        SMALL,
        Label::X2,
        &[2],
        Cursor::None,
        Part::Remaining,
        &[2, 3, 0, 3, 1, 3, 0, 5, 1, 0, 6, 3, 0],
    ),
    Told(SMALL, Label::X2, &[2], Cursor::None, Part::Chosen, &[]),
];

#[test]
fn a_machine_tells_what_is_left(rt: HostRuntime) {
    for row in &LEFT {
        assert!(rt; is_told(rt.alloc(), row));
    }
}

static CHOSEN: [Told; 2] = [
    Told(
        SMALL,
        Label::X5,
        &[4, 5],
        Cursor::At(1),
        Part::Chosen,
        &[3, 1, 0],
    ),
    Told(
        SMALL,
        Label::X6,
        &[4, 5],
        Cursor::At(1),
        Part::Chosen,
        &[3, 1, 0],
    ),
];

#[test]
fn a_machine_tells_the_chosen_item(rt: HostRuntime) {
    for row in &CHOSEN {
        assert!(rt; is_told(rt.alloc(), row));
    }
}

static SECONDS: [Told; 3] = [
    Told(
        SECONDARY,
        Label::X2,
        &[],
        Cursor::None,
        Part::Second,
        &[3, 1, 2, 0],
    ),
    Told(
        SECONDARY,
        Label::X2,
        &[3],
        Cursor::None,
        Part::Second,
        &[3, 2, 0],
    ),
    Told(SECONDARY, Label::X2, &[1], Cursor::None, Part::Second, &[]),
];

#[test]
fn secondary_items_are_listed_until_covered(rt: HostRuntime) {
    for row in &SECONDS {
        assert!(rt; is_told(rt.alloc(), row));
    }
}

/// Whether a copy is the state at X6 at option 1 after 4 and 5, as the state itself is.
fn is_copy(state: &State, copy: &State) -> bool {
    copy.label == Label::X6
        && copy.path.as_slice() == [4, 5].as_slice()
        && copy.cursor == Cursor::At(1)
        && state.same(copy)
}

/// Whether the copy of that state is.
fn is_copied(alloc: Global) -> bool {
    let Ok(state) = state_of(alloc, Label::X6, &[4, 5], Cursor::At(1)) else {
        return false;
    };
    let Ok(copy) = state.copy() else {
        return false;
    };
    is_copy(&state, &copy)
}

#[test]
fn a_copy_is_the_same_state(rt: HostRuntime) {
    assert!(rt; is_copied(rt.alloc()));
}

/// Adds the paths as one list, each closed by a 0.
fn add_paths(list: &mut Vec<u32>, paths: &Lists) -> Result<(), AllocError> {
    for place in 0..paths.len() {
        list.extend_from_slice(paths.list(place))?;
        list.push(0)?;
    }
    Ok(())
}

/// Adds the paths that there are once more, and one behind them.
fn append_copy(paths: &mut Lists) -> Result<(), AllocError> {
    let mut more = paths.copy()?;
    more.push(&[2])?;
    more.push(&[7])?;
    more.pop();
    paths.append(&more)
}

/// Adds two paths, and then these and another one again.
fn add_five(paths: &mut Lists) -> Result<(), AllocError> {
    paths.push(&[4, 5, 1])?;
    paths.push(&[])?;
    append_copy(paths)
}

/// Whether they come in this order.
fn are_five_in_order(alloc: Global) -> bool {
    let mut paths = Lists::new(alloc);
    let mut list = Vec::new(alloc);
    let are_added = add_five(&mut paths).is_ok() && add_paths(&mut list, &paths).is_ok();
    are_added && list.as_slice() == [4, 5, 1, 0, 0, 4, 5, 1, 0, 0, 2, 0].as_slice()
}

#[test]
fn paths_keep_their_order(rt: HostRuntime) {
    assert!(rt; are_five_in_order(rt.alloc()));
}
