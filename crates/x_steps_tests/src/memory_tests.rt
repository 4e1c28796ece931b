//! Tables that cover and uncover, and machines that walk, step and go back, between the making of all that they need and one growth
//! more. `dev/do check_memory` runs these tests with one growth refused, each growth in turn: behind the last that makes something
//! comes the one at the end, so what stands between them takes none. And tables and machines whose making is refused: what was handed in
//! is as before, and the same call, made again, makes what it makes where nothing is refused.
ghost use Rattle.std.specs.Prelude.{◌≡◌, ◌≤◌, ◌+◌, [], length, replicate, IfSome};
ghost use Rattle.cover_problem.specs.Problem.{size_of};

use crate::link_tests::{cover_three, is_small_table, uncover_three};
use cover_bits::BitTable;
use cover_links::LinkTable;
use cover_problem::{PlainTable, Problem, Table, read_cover};
use drawn_problems::SMALL;
use std::alloc::Global;
use std::test::Fail;
use x_steps::{Event, Machine, Walk, no_counts};

/// Takes single steps to the end: how many.
fn steps_on<T: Table>(machine: &mut Machine<T>) -> u32 {
    let mut steps = 0u32;
    for _ in 0..100_000 {
        if machine.step().is_err() {
            break;
        }
        steps = steps.wrapping_add(1);
    }
    steps
}

/// Takes single steps back to the start: how many.
fn steps_back<T: Table>(machine: &mut Machine<T>) -> u32 {
    let mut steps = 0u32;
    for _ in 0..100_000 {
        if machine.back().is_err() {
            break;
        }
        steps = steps.wrapping_add(1);
    }
    steps
}

/// Walks to the visit, steps on to the end, and steps back to the start: whether the walk was right, and how many single steps these were.
fn walks_about<T: Table>(machine: &mut Machine<T>, counts: &mut [u32]) -> (bool, u32, u32)
    requires { counts.old ≡ replicate (length machine.old.problem.names + 1) 0 }
{
    let walked = machine.walk(100, &[], counts);
    let visit = Walk {
        steps: 30,
        event: Event::Visited,
    };
    let on = steps_on(machine);
    let back = steps_back(machine);
    (walked == Ok(visit), on, back)
}

/// The same of a new machine with this table.
fn goes_about<T: Table>(
    alloc: Global,
    problem: &Problem,
    table: T,
) -> Result<(bool, u32, u32), Fail>
    requires same_problem { T.problem_value table ≡ problem.now }
    requires covered { T.covered_list table ≡ [] }
{
    let mut counts = no_counts(alloc, problem.items())?;
    let mut machine = Machine::new(alloc, problem, table).map_err(|_| "no memory for a machine")?;
    Ok(walks_about(&mut machine, &mut counts))
}

/// Covers and uncovers three items of a new table, and goes about with it.
fn covers_and_goes_about<T: Table>(
    alloc: Global,
    problem: &Problem,
) -> Result<(bool, u32, u32), Fail>
    requires { 7 ≤ length problem.now.names }
{
    let mut table = T::new(alloc, problem)?;
    cover_three(&mut table, 1, 4, 7);
    uncover_three(&mut table, 1, 4, 7);
    goes_about(alloc, problem, table)
}

/// One growth, which is told where it is refused.
fn grows(alloc: Global, refused: &'static str) -> Result<(), Fail> {
    match vec![in alloc; 0u8; 1] {
        Ok(_) => Ok(()),
        Err(_) => Err(Fail::from(refused)),
    }
}

/// Whether a table of this kind goes about in the small problem as it should, with one growth behind all that.
fn is_gone_about<T: Table>(alloc: Global, problem: &Problem) -> Result<bool, Fail> {
    if problem.items() != 7 {
        return Ok(false);
    }
    let went = covers_and_goes_about::<T>(alloc, problem)?;
    grows(alloc, "refused behind the steps")?;
    Ok(went == (true, 13, 43))
}

/// The same, where the small problem is made here.
fn is_small_gone_about<T: Table>(alloc: Global) -> Result<bool, Fail> {
    let problem = read_cover(alloc, SMALL.as_bytes())?;
    is_gone_about::<T>(alloc, &problem)
}

#[test]
fn a_table_of_links_takes_no_memory(rt: HostRuntime) -> Result<(), Fail> {
    assert!(rt; is_small_gone_about::<LinkTable>(rt.alloc())?);
    Ok(())
}

#[test]
fn a_table_of_bits_takes_no_memory(rt: HostRuntime) -> Result<(), Fail> {
    assert!(rt; is_small_gone_about::<BitTable>(rt.alloc())?);
    Ok(())
}

#[test]
fn a_plain_table_takes_no_memory(rt: HostRuntime) -> Result<(), Fail> {
    assert!(rt; is_small_gone_about::<PlainTable>(rt.alloc())?);
    Ok(())
}

/// The table of a problem, on a second try where the first is refused. None where the second is, too, and where the problem isn't as
/// before.
fn table_again<T: Table>(alloc: Global, problem: &Problem, copy: &Problem) -> Option<T>
    ensures { IfSome result (λ t. T.problem_value t ≡ problem.now) }
{
    if let Ok(table) = T::new(alloc, problem) {
        return Some(table);
    }
    if !problem.same(copy) {
        return None;
    }
    T::new(alloc, problem).ok()
}

/// Whether the table of the small problem is made, on a second try where the first is refused.
fn are_links_made(alloc: Global, problem: &Problem, copy: &Problem) -> bool {
    match table_again(alloc, problem, copy) {
        Some(table) => is_small_table(&table),
        None => false,
    }
}

/// The same, with one growth before it is made.
fn are_links_made_again(alloc: Global, problem: &Problem) -> Result<bool, Fail> {
    let copy = problem.copy()?;
    grows(alloc, "refused before the call")?;
    Ok(are_links_made(alloc, problem, &copy))
}

#[test]
fn a_refused_table_is_made_again(rt: HostRuntime) -> Result<(), Fail> {
    let problem = read_cover(rt.alloc(), SMALL.as_bytes())?;
    assert!(rt; are_links_made_again(rt.alloc(), &problem)?);
    Ok(())
}

/// How many options the items a to g of the small problem have. (TAOCP volume 4B, section 7.2.2.1, table 1.)
static LENGTHS: [u32; 7] = [2, 2, 2, 3, 2, 2, 3];

/// Whether a table has the lengths of the small problem's lists, with nothing covered.
fn has_small_lists<T: Table>(table: &T) -> bool
    requires { length (T.problem_value table.now).names ≡ 7 }
{
    for (place, len) in LENGTHS.iter().enumerate() {
        if table.len(place as u32 + 1) != *len {
            return false;
        }
    }
    table.covered().is_empty()
}

/// Whether the table of bits of the small problem is made, on a second try where the first is refused.
fn are_bits_made(alloc: Global, problem: &Problem, copy: &Problem) -> bool
    requires { length problem.now.names ≡ 7 }
{
    match table_again::<BitTable>(alloc, problem, copy) {
        Some(table) => has_small_lists(&table),
        None => false,
    }
}

/// The same, with one growth before it is made.
fn are_bits_made_again(alloc: Global, problem: &Problem) -> Result<bool, Fail>
    requires { length problem.now.names ≡ 7 }
{
    let copy = problem.copy()?;
    grows(alloc, "refused before the call")?;
    Ok(are_bits_made(alloc, problem, &copy))
}

#[test]
fn a_refused_table_of_bits_is_made_again(rt: HostRuntime) -> Result<(), Fail> {
    let problem = read_cover(rt.alloc(), SMALL.as_bytes())?;
    assert!(rt; problem.items() == 7);
    assert!(rt; are_bits_made_again(rt.alloc(), &problem)?);
    Ok(())
}

/// Whether a table is that of the small problem, with nothing covered.
fn is_unused(table: &LinkTable) -> bool {
    is_small_table(table) && table.covered().is_empty()
}

/// The machine over a table, from the table that comes back where the first try is refused. None where the second is, too, and where
/// the table isn't as before.
fn machine_again<'p>(
    alloc: Global,
    problem: &'p Problem,
    table: LinkTable,
) -> Option<Machine<'p, LinkTable>>
    requires same_problem { table.problem ≡ problem.now }
    requires covered { table.covered ≡ [] }
    ensures { IfSome result (λ m. m.problem ≡ problem.now) }
{
    let table = match Machine::new(alloc, problem, table) {
        Ok(machine) => return Some(machine),
        Err(table) => table,
    };
    if !is_unused(&table) {
        return None;
    }
    Machine::new(alloc, problem, table).ok()
}

/// Whether the machine over a table, made on a second try where the first is refused, goes about as one to which nothing is refused.
fn is_made(alloc: Global, problem: &Problem, table: LinkTable, counts: &mut [u32]) -> bool
    requires same_problem { table.problem ≡ problem.now }
    requires covered { table.covered ≡ [] }
    requires counts { counts.old ≡ replicate (length problem.now.names + 1) 0 }
{
    match machine_again(alloc, problem, table) {
        Some(mut machine) => walks_about(&mut machine, counts) == (true, 13, 43),
        None => false,
    }
}

/// The same of the machine over a new table, with one growth before it is made.
fn is_made_anew(alloc: Global, problem: &Problem, counts: &mut [u32]) -> Result<bool, Fail>
    requires { counts.old ≡ replicate (length problem.now.names + 1) 0 }
{
    let table = LinkTable::new(alloc, problem)?;
    grows(alloc, "refused before the call")?;
    Ok(is_made(alloc, problem, table, counts))
}

/// The same with no states counted yet.
fn is_made_uncounted(alloc: Global, problem: &Problem) -> Result<bool, Fail> {
    let mut counts = no_counts(alloc, problem.items())?;
    is_made_anew(alloc, problem, &mut counts)
}

/// The same of the small problem.
fn is_small_made(alloc: Global) -> Result<bool, Fail> {
    let problem = read_cover(alloc, SMALL.as_bytes())?;
    is_made_uncounted(alloc, &problem)
}

#[test]
fn a_refused_machine_gives_its_table_back(rt: HostRuntime) -> Result<(), Fail> {
    assert!(rt; is_small_made(rt.alloc())?);
    Ok(())
}
