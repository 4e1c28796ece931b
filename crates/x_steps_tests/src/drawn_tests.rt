//! Problems drawn by a seed, walked to the end and back, and searched by trying every set of options.
use crate::machine_tests::there_and_back;
use crate::walk_tests::walks_as_steps;
use cover_problem::{Problem, read_cover};
use drawn_problems::{bit, drawn_options, text_of};
use std::alloc::{AllocError, Global};

/// Whether the options of these bits have each primary item once, no item twice, and a primary item each.
fn is_cover(masks: &[u32], primary: u32, set: u32) -> bool {
    let mut rest = set;
    let mut covered = 0;
    for mask in masks {
        if rest % 2 == 1 {
            if covered & *mask != 0 || primary & *mask == 0 {
                return false;
            }
            covered |= *mask;
        }
        rest /= 2;
    }
    rest == 0 && covered & primary == primary
}

/// The sets of up to eight options that are covers, in order as numbers.
fn covers(alloc: Global, masks: &[u32], primary: u32) -> Result<Vec<u32>, AllocError> {
    let mut covers = Vec::new(alloc);
    for set in 0..256 {
        if is_cover(masks, primary, set) {
            covers.push(set)?;
        }
    }
    Ok(covers)
}

/// The options of each visit as bits, in order as numbers; a 0 closes a visit.
fn sets_of(alloc: Global, visits: &[u32]) -> Result<Vec<u32>, AllocError> {
    let mut sets = Vec::new(alloc);
    let mut set = 0;
    for option in visits {
        if *option == 0 {
            sets.push(set)?;
            set = 0;
        } else {
            set |= 1u32.wrapping_shl(option.wrapping_sub(1));
        }
    }
    sets.sort()?;
    Ok(sets)
}

/// Whether visits are all the covers, each once.
fn are_covers(alloc: Global, visits: &[u32], primary: u32, masks: &[u32]) -> bool {
    let Ok(sets) = sets_of(alloc, visits) else {
        return false;
    };
    let Ok(covers) = covers(alloc, masks, bit(primary).wrapping_sub(1)) else {
        return false;
    };
    sets == covers
}

/// Whether the visits of a drawn problem are its covers, its last step was told, each step was taken back,
/// and walks are that many steps.
fn is_run_right(alloc: Global, problem: &Problem, primary: u32, masks: &[u32]) -> bool {
    let Some(trip) = there_and_back(alloc, problem) else {
        return false;
    };
    trip.is_finished
        && trip.is_undone
        && are_covers(alloc, &trip.visits, primary, masks)
        && walks_as_steps(alloc, problem, 7)
}

/// The same of the problem with these options, of which so many items are primary.
fn is_right(alloc: Global, primary: u32, masks: &[u32]) -> bool {
    let Ok(text) = text_of(alloc, 5, primary, masks) else {
        return false;
    };
    let Ok(problem) = read_cover(alloc, text.as_bytes()) else {
        return false;
    };
    is_run_right(alloc, &problem, primary, masks)
}

/// The same of the problem that is drawn next.
fn is_drawn_right(alloc: Global, primary: u32, seed: &mut u64) -> bool {
    let Ok(masks) = drawn_options(alloc, seed) else {
        return false;
    };
    is_right(alloc, primary, &masks)
}

#[test]
fn visits_are_the_covers_of_drawn_problems(rt: HostRuntime) {
    let mut seed = 1;
    for round in 0..60 {
        assert!(rt;
            is_drawn_right(rt.alloc(), round % 5 + 1, &mut seed),
            "at the problem drawn as {round}"
        );
    }
}
