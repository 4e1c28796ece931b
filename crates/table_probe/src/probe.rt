//! The short search: a machine is taken on and back, and what its steps cost is counted.
ghost use Rattle.std.specs.Prelude.{◌≡◌, ◌<◌, ◌≤◌};
ghost use Rattle.table_probe.specs.Words.{HasWords};

use crate::costs::{Costs, no_costs};
use crate::words::Words;
use cover_problem::Table;
use std::alloc::{AllocError, Global};
use x_steps::{Cursor, Label, Machine};

/// The most steps of a probe: 64 nodes have some 8 steps each.
const MOST_STEPS: u32 = 512;

/// Where links have paid so much the probe ends: half a millisecond.
const MOST_COST: u128 = 2_000_000;

/// How many items the machine's next step uncovers.
fn uncovered_next<T: Table>(machine: &Machine<'_, T>) -> usize {
    match (machine.state().label, machine.state().cursor) {
        // All of the option but the chosen one.
        (Label::X6, Cursor::At(option)) => machine.problem().option(option).len().saturating_sub(1),
        (Label::X7, _) => 1,
        _ => 0,
    }
}

/// The items from a place of the covered list on are covered.
fn cover_from<T: Table>(words: &mut Words, machine: &Machine<'_, T>, from: usize)
    requires { HasWords machine.now.problem words.old }
    ensures { HasWords machine.now.problem words.new }
{
    let problem = machine.problem();
    let table = machine.table();
    let covered = table.covered();
    for place in from..covered.len() {
        words.cover(problem, table, covered[place]);
    }
}

/// The items from a place of the covered list on are uncovered.
fn uncover_from<T: Table>(words: &mut Words, machine: &Machine<'_, T>, from: usize)
    requires { HasWords machine.now.problem words.old }
    ensures { HasWords machine.now.problem words.new }
{
    let problem = machine.problem();
    let table = machine.table();
    let covered = table.covered();
    for place in from..covered.len() {
        words.uncover(problem, table, covered[place]);
    }
}

/// Counts what the step to come chooses and tries.
fn count_next<T: Table>(words: &mut Words, machine: &Machine<'_, T>) -> Result<(), AllocError>
    requires { HasWords machine.now.problem words.old }
    ensures { HasWords machine.now.problem words.new }
{
    match (machine.state().label, machine.state().cursor) {
        (Label::X4, _) => words.choose(machine.table()),
        (Label::X5, Cursor::At(option)) => {
            words.write(machine.problem(), option);
            Ok(())
        }
        (Label::X7, _) => {
            words.leave();
            Ok(())
        }
        _ => Ok(()),
    }
}

/// Takes a step, and counts what it costs; no more at Done.
fn step_on<T: Table>(words: &mut Words, machine: &mut Machine<'_, T>) -> Result<bool, AllocError>
    requires { HasWords machine.old.problem words.old }
    ensures words { HasWords machine.old.problem words.new }
    ensures problem { machine.new.problem ≡ machine.old.problem }
{
    count_next(words, machine)?;
    let kept = machine
        .covered()
        .len()
        .saturating_sub(uncovered_next(machine));
    // A list is as it was when its item was covered only while the item is covered.
    uncover_from(words, machine, kept);
    if machine.step().is_err() {
        return Ok(false);
    }
    cover_from(words, machine, kept);
    Ok(true)
}

/// Takes steps and counts what they cost, 512 of them, or fewer where links have paid enough before or the search ends.
fn walk_on<T: Table>(words: &mut Words, machine: &mut Machine<'_, T>) -> Result<(), AllocError>
    requires { HasWords machine.old.problem words.old }
    ensures { machine.new.problem ≡ machine.old.problem }
{
    for _ in 0..MOST_STEPS {
        if words.costs.links() >= MOST_COST {
            break;
        }
        if !step_on(words, machine)? {
            break;
        }
    }
    Ok(())
}

/// What the next steps of a search cost, 512 of them, or fewer where links have paid enough before or the search ends. The machine
/// stands where it stood.
pub fn costs_ahead<T: Table>(
    alloc: Global,
    machine: &mut Machine<'_, T>,
) -> Result<Costs, AllocError>
    ensures { machine.new ≡ machine.old }
{
    let start = machine.state().copy()?;
    let mut words = Words::new(alloc, machine.problem())?;
    // What is covered already is not paid for.
    cover_from(&mut words, machine, 0);
    words.costs = no_costs();
    let walked = walk_on(&mut words, machine);
    machine.move_to(&start);
    walked?;
    Ok(words.costs)
}

/// Whether bit sets would search faster than links from here on, as far as a short search tells; false where there is no memory
/// for it. The machine stands where it stood.
pub fn prefers_bits<T: Table>(alloc: Global, machine: &mut Machine<'_, T>) -> bool
    ensures { machine.new ≡ machine.old }
{
    match costs_ahead(alloc, machine) {
        Ok(costs) => costs.favour_bits(),
        // Without memory for it the answer is links, which take less.
        Err(_) => false,
    }
}
