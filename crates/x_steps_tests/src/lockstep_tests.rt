//! Problems drawn by a seed, stepped side by side on a plain table, on links and on bits.

use cover_bits::BitTable;
use cover_links::LinkTable;
use cover_problem::{PlainTable, Problem, Table, read_cover};
use drawn_problems::{bit, draw, text_of};
use std::alloc::{AllocError, Global};
use x_steps::{Cursor, Event, Label, Machine, StepFault};

/// The text of so many items, of which the first are primary, and so many options of one to five items.
fn drawn(
    alloc: Global,
    seed: &mut u64,
    items: u32,
    primary: u32,
    options: u32,
) -> Result<String, AllocError> {
    let mut drawn = Vec::new(alloc);
    for _ in 0..options {
        let mut option = 0;
        for _ in 0..draw(seed) % 5 + 1 {
            option |= bit(draw(seed).checked_rem(items).unwrap_or(0));
        }
        drawn.push(option)?;
    }
    let mut text = text_of(alloc, items, primary, &drawn)?;
    text.push('\n')?;
    Ok(text)
}

/// What a machine tells of its state: its label and its cursor, and all lists in turn, each after its length.
#[derive(PartialEq, Eq, Drop)]
struct Seen {
    label: Label,
    cursor: Cursor,
    lists: Vec<u32>,
}

/// A length as one of the numbers: no list here is as long as the greatest of them.
fn length(list: usize) -> u32 {
    u32::try_from(list).unwrap_or(u32::MAX)
}

/// Adds a list after its length.
fn add_list(lists: &mut Vec<u32>, list: &[u32]) -> Result<(), AllocError> {
    lists.push(length(list.len()))?;
    Ok(lists.extend_from_slice(list)?)
}

/// Adds items with their options, after how many they are.
fn add_rows(lists: &mut Vec<u32>, rows: &[(u32, Vec<u32>)]) -> Result<(), AllocError> {
    lists.push(length(rows.len()))?;
    for row in rows {
        lists.push(row.0)?;
        add_list(lists, &row.1)?;
    }
    Ok(())
}

/// Adds the chosen item, after whether there is one.
fn add_chosen(lists: &mut Vec<u32>, chosen: &Option<(u32, Vec<u32>)>) -> Result<(), AllocError> {
    match chosen {
        Some(row) => {
            lists.push(1)?;
            lists.push(row.0)?;
            add_list(lists, &row.1)
        }
        None => Ok(lists.push(0)?),
    }
}

/// Adds what a machine tells of its state: its choices, the covered items, what is left, the chosen item and the secondary ones.
fn add_told<T: Table>(lists: &mut Vec<u32>, machine: &Machine<T>) -> Result<(), AllocError> {
    add_list(lists, &machine.state().path)?;
    add_list(lists, machine.covered())?;
    add_rows(lists, &machine.remaining()?)?;
    add_chosen(lists, &machine.chosen()?)?;
    add_rows(lists, &machine.second()?)
}

fn look<T: Table>(alloc: Global, machine: &Machine<T>) -> Result<Seen, AllocError> {
    let mut lists = Vec::new(alloc);
    add_told(&mut lists, machine)?;
    Ok(Seen {
        label: machine.state().label,
        cursor: machine.state().cursor,
        lists,
    })
}

/// What was seen on a way, from state to state, what each step told, and the refusal at the end.
#[derive(PartialEq, Eq, Drop)]
struct Walk {
    seen: Vec<Seen>,
    events: Vec<Event>,
    refused: Option<StepFault>,
}

/// Nothing seen yet.
fn empty_walk(alloc: Global) -> Walk {
    Walk {
        seen: Vec::new(alloc),
        events: Vec::new(alloc),
        refused: None,
    }
}

/// Steps on to the end.
fn walk_on<T: Table>(
    alloc: Global,
    machine: &mut Machine<T>,
    walk: &mut Walk,
) -> Result<(), AllocError> {
    for _ in 0..100_000 {
        walk.seen.push(look(alloc, machine)?)?;
        match machine.step() {
            Ok(event) => walk.events.push(event)?,
            Err(fault) => {
                walk.refused = Some(fault);
                break;
            }
        }
    }
    Ok(())
}

/// Steps back to the start.
fn walk_back<T: Table>(
    alloc: Global,
    machine: &mut Machine<T>,
    walk: &mut Walk,
) -> Result<(), AllocError> {
    for _ in 0..100_000 {
        walk.seen.push(look(alloc, machine)?)?;
        if let Err(fault) = machine.back() {
            walk.refused = Some(fault);
            break;
        }
    }
    walk.seen.reverse();
    Ok(())
}

/// The way of a machine to the end, and back.
fn walk_both<T: Table>(alloc: Global, machine: &mut Machine<T>) -> Option<(Walk, Walk)> {
    let mut on = empty_walk(alloc);
    let mut back = empty_walk(alloc);
    let are_noted = walk_on(alloc, machine, &mut on).is_ok()
        && walk_back(alloc, machine, &mut back).is_ok();
    if are_noted { Some((on, back)) } else { None }
}

/// The same of a new machine with a table of this kind.
fn walks<T: Table>(alloc: Global, problem: &Problem) -> Option<(Walk, Walk)> {
    let Ok(table) = T::new(alloc, problem) else {
        return None;
    };
    match Machine::new(alloc, problem, table) {
        Ok(mut machine) => walk_both(alloc, &mut machine),
        Err(_) => None,
    }
}

/// Whether the last step, and none before it, told that it was the last, and led to Done.
fn is_finished(walk: &Walk) -> bool {
    match (walk.events.split_last(), walk.seen.last()) {
        (Some((last, before)), Some(seen)) => {
            *last == Event::Finished
                && !before.contains(&Event::Finished)
                && seen.label == Label::Done
        }
        _ => false,
    }
}

/// Whether this is the way of a machine with a table of this kind, and so again back.
fn are_walks_of<T: Table>(alloc: Global, problem: &Problem, pair: &(Walk, Walk)) -> bool {
    let Some(other) = walks::<T>(alloc, problem) else {
        return false;
    };
    pair.0 == other.0 && pair.1 == other.1
}

/// Whether this is the way of a machine to Done, and so again back to X1.
fn is_way(on: &Walk, back: &Walk) -> bool {
    on.seen == back.seen
        && is_finished(on)
        && on.refused == Some(StepFault::Done)
        && back.refused == Some(StepFault::AtFirst)
}

/// How many steps a machine takes, if with each table it tells the same on its way to Done, and again on
/// its way back to X1; else 100,000.
fn steps_of(alloc: Global, problem: &Problem) -> usize {
    let Some(pair) = walks::<PlainTable>(alloc, problem) else {
        return 100_000;
    };
    let are_same = is_way(&pair.0, &pair.1)
        && are_walks_of::<LinkTable>(alloc, problem, &pair)
        && are_walks_of::<BitTable>(alloc, problem, &pair);
    if are_same {
        pair.0.events.len()
    } else {
        100_000
    }
}

/// How many steps all tables make of the problem of a text that is drawn; 100,000 where it isn't one.
fn drawn_steps(alloc: Global, seed: &mut u64, items: u32, primary: u32, options: u32) -> usize {
    let Ok(text) = drawn(alloc, seed, items, primary, options) else {
        return 100_000;
    };
    let Ok(problem) = read_cover(alloc, text.as_bytes()) else {
        return 100_000;
    };
    steps_of(alloc, &problem)
}

// The steps were counted by another program, from the numbers of states and of visits.
#[test]
fn all_tables_make_the_same_steps(rt: HostRuntime) {
    let mut seed = 1;
    let mut steps = 0usize;
    for round in 0..60u32 {
        let items = round % 4 + 5;
        let options = draw(&mut seed) % 13;
        let more = drawn_steps(rt.alloc(), &mut seed, items, items - round % 3, options);
        steps = steps.saturating_add(more);
    }
    assert!(rt; steps == 1_628);
}

#[test]
fn all_tables_make_the_same_steps_of_larger_problems(rt: HostRuntime) {
    let mut seed = 4;
    let mut steps = 0usize;
    for primary in 9..13 {
        let more = drawn_steps(rt.alloc(), &mut seed, 12, primary, 30);
        steps = steps.saturating_add(more);
    }
    assert!(rt; steps == 2_240);
}

// A set of the options takes up to three words here.
#[test]
fn all_tables_make_the_same_steps_of_sets_of_three_words(rt: HostRuntime) {
    assert!(rt; drawn_steps(rt.alloc(), &mut 1, 12, 2, 150) == 1_359);
}
