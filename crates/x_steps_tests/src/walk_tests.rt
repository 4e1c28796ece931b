//! Walks of many steps beside single steps.
use cover_problem::{PlainTable, Problem, Table, read_cover};
use drawn_problems::SMALL;
use std::alloc::{AllocError, Global};
use x_steps::{Event, Machine, StepFault, Walk, no_counts};

/// A machine at the first step.
fn machine_of<'p>(alloc: Global, problem: &'p Problem) -> Option<Machine<'p, PlainTable>> {
    let Ok(table) = PlainTable::new(alloc, problem) else {
        return None;
    };
    match Machine::new(alloc, problem, table) {
        Ok(machine) => Some(machine),
        Err(_) => None,
    }
}

/// What a walk did, and the X2 states at each level on its way; nothing at Done.
fn walk_on<T: Table>(
    alloc: Global,
    machine: &mut Machine<T>,
    most: u32,
    end: &[u32],
) -> Result<Option<(Walk, Vec<u32>)>, AllocError> {
    let mut counts = no_counts(alloc, machine.problem().items())?;
    match machine.walk(most, end, &mut counts) {
        Ok(walk) => Ok(Some((walk, counts))),
        Err(_) => Ok(None),
    }
}

/// How many steps are allowed and where to stop; how many are taken, what the last of them tells, and the X2
/// states at each level.
struct Row(u32, &'static [u32], u32, Event, [u32; 8]);

static WALKS: [Row; 5] = [
    Row(100, &[], 30, Event::Visited, [1, 2, 2, 1, 0, 0, 0, 0]),
    Row(100, &[4], 20, Event::Moved, [1, 1, 1, 0, 0, 0, 0, 0]),
    Row(100, &[3, 3], 30, Event::Visited, [1, 2, 2, 1, 0, 0, 0, 0]),
    Row(30, &[], 30, Event::Visited, [1, 2, 2, 1, 0, 0, 0, 0]),
    Row(2, &[], 2, Event::Moved, [1, 0, 0, 0, 0, 0, 0, 0]),
];

/// Whether a machine walks as a row tells.
fn walks_so<T: Table>(alloc: Global, machine: &mut Machine<T>, row: &Row) -> bool {
    match walk_on(alloc, machine, row.0, row.1) {
        Ok(Some((walk, counts))) => {
            walk.steps == row.2 && walk.event == row.3 && counts.as_slice() == row.4.as_slice()
        }
        _ => false,
    }
}

/// Whether the first walk in a problem's run is as a row tells.
fn begins_so(alloc: Global, problem: &Problem, row: &Row) -> bool {
    let Some(mut machine) = machine_of(alloc, problem) else {
        return false;
    };
    walks_so(alloc, &mut machine, row)
}

/// The same of the small problem.
fn small_begins_so(alloc: Global, row: &Row) -> bool {
    let Ok(problem) = read_cover(alloc, SMALL.as_bytes()) else {
        return false;
    };
    begins_so(alloc, &problem, row)
}

#[test]
fn a_walk_stops_where_it_should(rt: HostRuntime) {
    for row in &WALKS {
        assert!(rt; small_begins_so(rt.alloc(), row));
    }
}

/// Whether the next walk of a machine has so many steps, and its last one tells this.
fn goes_on_so<T: Table>(alloc: Global, machine: &mut Machine<T>, steps: u32, event: Event) -> bool {
    match walk_on(alloc, machine, 100, &[]) {
        Ok(Some((walk, _))) => walk.steps == steps && walk.event == event,
        _ => false,
    }
}

/// Whether a machine walks no further.
fn is_over<T: Table>(alloc: Global, machine: &mut Machine<T>) -> bool {
    match walk_on(alloc, machine, 100, &[]) {
        Ok(None) => true,
        _ => false,
    }
}

/// Whether a machine walks to the small problem's visit, on to the end, and then no further.
fn goes_on<T: Table>(alloc: Global, machine: &mut Machine<T>) -> bool {
    goes_on_so(alloc, machine, 30, Event::Visited)
        && goes_on_so(alloc, machine, 13, Event::Finished)
        && is_over(alloc, machine)
}

/// The same of a new machine.
fn goes_on_anew(alloc: Global, problem: &Problem) -> bool {
    let Some(mut machine) = machine_of(alloc, problem) else {
        return false;
    };
    goes_on(alloc, &mut machine)
}

/// The same of the small problem, as it has to be.
fn small_goes_on(alloc: Global) -> bool {
    let Ok(problem) = read_cover(alloc, SMALL.as_bytes()) else {
        return false;
    };
    goes_on_anew(alloc, &problem)
}

#[test]
fn a_walk_goes_on_after_a_visit(rt: HostRuntime) {
    assert!(rt; small_goes_on(rt.alloc()));
}

/// Whether as many single steps come to the same state, and the last of them tells the same.
fn is_same_walk<T: Table>(machine: &Machine<T>, stepper: &mut Machine<T>, walk: Walk) -> bool {
    let mut event = Event::Moved;
    for _ in 0..walk.steps {
        match stepper.step() {
            Ok(told) => event = told,
            Err(_) => return false,
        }
    }
    event == walk.event && stepper.state().same(machine.state())
}

/// Whether one machine walks so many steps at a time as another takes single ones, to the end.
fn walk_as_steps<T: Table>(
    alloc: Global,
    machine: &mut Machine<T>,
    stepper: &mut Machine<T>,
    most: u32,
) -> bool {
    for _ in 0..100_000 {
        match walk_on(alloc, machine, most, &[]) {
            Ok(Some((walk, _))) => {
                if !is_same_walk(machine, stepper, walk) {
                    return false;
                }
            }
            Ok(None) => return stepper.step() == Err(StepFault::Done),
            Err(_) => return false,
        }
    }
    false
}

/// Whether a problem's run is the same by walks of so many steps as by single ones.
pub fn walks_as_steps(alloc: Global, problem: &Problem, most: u32) -> bool {
    let Some(mut machine) = machine_of(alloc, problem) else {
        return false;
    };
    let Some(mut stepper) = machine_of(alloc, problem) else {
        return false;
    };
    walk_as_steps(alloc, &mut machine, &mut stepper, most)
}
