//! Stretches of the runs of drawn problems, counted with room for many sets and for none, beside a walk step by step.
use crate::texts::{counted_stretch, passed_text};
use cover_problem::{PlainTable, Problem, Table, read_cover};
use drawn_problems::{drawn_narrow_options, text_of as problem_text};
use std::alloc::Global;
use x_steps::{Event, Label, Machine, State};

/// What a walk has passed: visits, steps, and the X2 states at each level.
#[derive(Drop)]
struct Passed {
    visits: u64,
    steps: u64,
    levels: [u64; 8],
}

/// Takes some steps, as long as the search goes on, and counts what it passes.
fn step_on<T: Table>(machine: &mut Machine<T>, count: u32, passed: &mut Passed) {
    for _ in 0..count {
        let level = machine.state().path.len();
        if machine.state().label == Label::X2 && level < 8 {
            passed.levels[level] = passed.levels[level].wrapping_add(1);
        }
        match machine.step() {
            Ok(event) => {
                passed.steps = passed.steps.wrapping_add(1);
                if event == Event::Visited {
                    passed.visits = passed.visits.wrapping_add(1);
                }
            }
            Err(_) => return,
        }
    }
}

/// Nothing yet.
fn none_passed() -> Passed {
    Passed {
        visits: 0,
        steps: 0,
        levels: [0; 8],
    }
}

/// Whether the stretch between two states is counted as it was walked, with no room and with much.
fn is_counted(alloc: Global, problem: &Problem, from: &State, to: &State, passed: &Passed) -> bool {
    let Ok(text) = passed_text(alloc, passed.visits, passed.steps, &passed.levels) else {
        return false;
    };
    for room in &[0usize, 100_000_000] {
        match counted_stretch::<PlainTable>(alloc, problem, from, to, *room) {
            Some(counted) => {
                if counted.as_slice() != text.as_slice() {
                    return false;
                }
            }
            None => return false,
        }
    }
    true
}

/// Whether each stretch from where a machine stands is counted right: up to each seventh state of the run.
fn are_counted<T: Table>(alloc: Global, problem: &Problem, machine: &mut Machine<T>) -> bool {
    let Ok(from) = machine.state().copy() else {
        return false;
    };
    let mut passed = none_passed();
    for _ in 0..60 {
        if !is_counted(alloc, problem, &from, machine.state(), &passed) {
            return false;
        }
        step_on(machine, 7, &mut passed);
    }
    true
}

/// The same from some states of a problem's run on.
fn is_problem_counted(alloc: Global, problem: &Problem) -> bool {
    for skipped in 0..8 {
        let Ok(table) = PlainTable::new(alloc, problem) else {
            return false;
        };
        let Ok(mut machine) = Machine::new(alloc, problem, table) else {
            return false;
        };
        step_on(&mut machine, skipped * 5, &mut none_passed());
        if !are_counted(alloc, problem, &mut machine) {
            return false;
        }
    }
    true
}

/// The same of a drawn problem.
fn is_drawn_counted(alloc: Global, primary: u32, seed: &mut u64) -> bool {
    let Ok(masks) = drawn_narrow_options(alloc, 12, 16, seed) else {
        return false;
    };
    let Ok(text) = problem_text(alloc, 5, primary, &masks) else {
        return false;
    };
    match read_cover(alloc, text.as_bytes()) {
        Ok(problem) => is_problem_counted(alloc, &problem),
        Err(_) => false,
    }
}

#[test]
fn stretches_are_counted_as_they_are_walked(rt: HostRuntime) {
    let mut seed = 7;
    for round in 0..10 {
        assert!(rt;
            is_drawn_counted(rt.alloc(), round % 5 + 1, &mut seed),
            "at the problem drawn as {round}"
        );
    }
}

/// The small problem, whose run has 43 steps, one visit and 1, 2, 2 and 1 X2 states at its levels.
static SMALL: &str =
    "items a b c d e f g\noption c e\noption a d g\noption b c f\noption a d f\noption b g\noption d e g\n";

/// What each slice of 20 steps passes: visits, steps, and the X2 states at each level.
static SLICES: [&str; 3] = ["0 20 1 1 1 ", "1 20 0 1 1 1 ", "0 3 "];

/// The counts of the next slice of so many steps.
fn slice<'p>(alloc: Global, machine: &mut Machine<'p, PlainTable>, steps: u32) -> Option<Vec<u8>> {
    let problem = machine.problem();
    let Ok(from) = machine.state().copy() else {
        return None;
    };
    step_on(machine, steps, &mut none_passed());
    counted_stretch::<PlainTable>(alloc, problem, &from, machine.state(), 100_000)
}

/// Whether the small problem's run is counted so, slice by slice.
fn is_sliced_so(alloc: Global) -> bool {
    let Ok(problem) = read_cover(alloc, SMALL.as_bytes()) else {
        return false;
    };
    let Ok(table) = PlainTable::new(alloc, &problem) else {
        return false;
    };
    let Ok(mut machine) = Machine::new(alloc, &problem, table) else {
        return false;
    };
    for text in &SLICES {
        match slice(alloc, &mut machine, 20) {
            Some(counted) => {
                if counted.as_slice() != text.as_bytes() {
                    return false;
                }
            }
            None => return false,
        }
    }
    true
}

#[test]
fn slices_of_the_small_problem(rt: HostRuntime) {
    assert!(rt; is_sliced_so(rt.alloc()));
}
