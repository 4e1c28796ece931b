//! Drawn problems, counted with much room, little and none, beside the plain walk.
use crate::texts::{counted, counted_plainly, passed_text};
use cover_problem::{PlainTable, Problem, Table, read_cover};
use drawn_problems::{drawn_narrow_options, text_of as problem_text};
use std::alloc::Global;
use x_steps::{Event, Label, Machine};

/// What a run passes: visits and steps.
#[derive(Drop)]
struct Passed {
    visits: u64,
    steps: u64,
}

/// Counts the machine's state if it is at X2.
fn note_level<T: Table>(machine: &Machine<T>, levels: &mut [u64]) {
    let state = machine.state();
    if state.label == Label::X2 {
        if let Some(level) = levels.get_mut(state.path.len()) {
            *level = level.wrapping_add(1);
        }
    }
}

/// Steps to the end, and counts the X2 states at each level.
fn step_all<T: Table>(machine: &mut Machine<T>, levels: &mut [u64]) -> Passed {
    let mut visits = 0u64;
    let mut steps = 0u64;
    for _ in 0..10_000_000 {
        let Ok(event) = machine.step() else {
            break;
        };
        steps = steps.wrapping_add(1);
        if event == Event::Visited {
            visits = visits.wrapping_add(1);
        }
        note_level(machine, levels);
    }
    Passed { visits, steps }
}

/// The counts of a machine's run, step by step.
fn stepped<T: Table>(alloc: Global, machine: &mut Machine<T>) -> Option<Vec<u8>> {
    let Ok(mut levels) = Vec::from_elem(alloc, 0u64, 8) else {
        return None;
    };
    let passed = step_all(machine, &mut levels);
    passed_text(alloc, passed.visits, passed.steps, &levels).ok()
}

/// The same of a problem's.
fn walked(alloc: Global, problem: &Problem) -> Option<Vec<u8>> {
    let Ok(table) = PlainTable::new(alloc, problem) else {
        return None;
    };
    match Machine::new(alloc, problem, table) {
        Ok(mut machine) => stepped(alloc, &mut machine),
        Err(_) => None,
    }
}

/// Room for nothing, for the first places and some hundred sets, and for more than is needed, in bytes.
static ROOMS: [usize; 4] = [0, 131_072, 150_000, 100_000_000];

/// Whether the counts with each room are those of the text.
fn are_counted(alloc: Global, problem: &Problem, text: &[u8]) -> bool {
    for room in &ROOMS {
        match (
            counted(alloc, problem, *room),
            counted_plainly(alloc, problem, *room),
        ) {
            (Some(a), Some(b)) => {
                if a.as_slice() != text || b.as_slice() != text {
                    return false;
                }
            }
            _ => return false,
        }
    }
    true
}

/// Whether a problem is counted as it is walked.
fn is_counted_right(alloc: Global, problem: &Problem) -> bool {
    match walked(alloc, problem) {
        Some(text) => are_counted(alloc, problem, &text),
        None => false,
    }
}

/// The same of the problem with five items, of which the first `primary` are primary, and these options.
fn is_right(alloc: Global, primary: u32, masks: &[u32]) -> bool {
    let Ok(text) = problem_text(alloc, 5, primary, masks) else {
        return false;
    };
    match read_cover(alloc, text.as_bytes()) {
        Ok(problem) => is_counted_right(alloc, &problem),
        Err(_) => false,
    }
}

/// The same of the problem that is drawn next.
fn is_drawn_right(alloc: Global, primary: u32, seed: &mut u64) -> bool {
    match drawn_narrow_options(alloc, 12, 16, seed) {
        Ok(masks) => is_right(alloc, primary, &masks),
        Err(_) => false,
    }
}

#[test]
fn drawn_problems_are_counted_as_they_are_walked(rt: HostRuntime) {
    let mut seed = 1;
    for round in 0..40 {
        assert!(rt;
            is_drawn_right(rt.alloc(), round % 5 + 1, &mut seed),
            "at the problem drawn as {round}"
        );
    }
}
