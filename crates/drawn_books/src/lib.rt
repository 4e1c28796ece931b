//! What tests of books share: cuts, runners and stretches of a problem, the lease that a book gave, and which tiles a book has.
#![tactic(auto)]

ghost use Rattle.std.specs.Prelude.{◌≡◌, ◌↔◌, [], ◌∷◌, IfOk, IfErr, IsOk, IsTrue, Some};
ghost use Rattle.lab_history.specs.Faults.{number_of};
ghost use Rattle.lab_book.specs.Posted.{posted_visits};

use cover_problem::{PlainTable, Problem, Table};
use drawn_problems::state_of;
use lab_book::{Book, BookFault, Lease, Leased, Tile};
use std::alloc::{AllocError, Global};
use std::test::Fail;
use x_branches::{Branch, Cut, Runner, RunnerFault, StartFault, Stretch};
use x_steps::{Cursor, Label, Refused, State};

/// What was made, or that it was refused.
pub fn value_of<V: Drop, F: Drop>(made: Result<V, F>) -> Result<V, Fail> {
    match made {
        Ok(value) => Ok(value),
        Err(_) => Err(Fail::from("refused")),
    }
}

/// One growth, which is told where it is refused: those before it are a setting's, those after it the call's.
pub fn grows(alloc: Global) -> Result<(), Fail> {
    match vec![in alloc; 0u8; 1] {
        Ok(_) => Ok(()),
        Err(_) => Err(Fail::from("refused before the call")),
    }
}

/// The cut of a path.
pub fn cut_of<'p>(alloc: Global, problem: &'p Problem, path: &[u32]) -> Result<Cut<'p>, Fail> {
    value_of(Cut::new(alloc, problem, Vec::from_slice(alloc, path)?))
}

/// A runner of a branch that goes on from a state.
pub fn runner_of<'p>(
    alloc: Global,
    problem: &'p Problem,
    branch: Branch<'p>,
    state: &State,
) -> Result<Runner<'p, PlainTable>, StartFault> {
    let Ok(table) = PlainTable::new(alloc, problem) else {
        return Err(StartFault::Runner(RunnerFault::OutOfMemory));
    };
    match Runner::new(alloc, problem, table, branch, state) {
        Ok(runner) => Ok(runner),
        Err(Refused { fault, given: _ }) => Err(fault),
    }
}

/// A runner of the whole run, at X1.
pub fn whole<'p>(alloc: Global, problem: &'p Problem) -> Result<Runner<'p, PlainTable>, Fail> {
    let first = state_of(alloc, Label::X1, &[], Cursor::None)?;
    Ok(runner_of(alloc, problem, Branch { lo: None, hi: None }, &first)?)
}

/// Takes so many steps, all of which there have to be.
pub fn advance(runner: &mut Runner<'_, PlainTable>, steps: u32) -> Result<(), RunnerFault> {
    for _ in 0..steps {
        let _event = runner.advance()?;
    }
    Ok(())
}

/// Takes so many steps, and hands out all that is unposted.
pub fn walked<'p>(
    runner: &mut Runner<'p, PlainTable>,
    steps: u32,
) -> Result<Stretch<'p>, RunnerFault> {
    advance(runner, steps)?;
    match runner.take_stretch() {
        Ok(stretch) => Ok(stretch),
        Err(_) => Err(RunnerFault::OutOfMemory),
    }
}

/// Takes so many steps, and hands out so many others behind them.
fn walked_behind<'p>(
    runner: &mut Runner<'p, PlainTable>,
    from: u32,
    steps: u32,
) -> Result<Stretch<'p>, RunnerFault> {
    let _before = walked(runner, from)?;
    walked(runner, steps)
}

/// The stretch of so many steps that begins so many steps after X1.
pub fn stretch_of<'p>(
    alloc: Global,
    problem: &'p Problem,
    from: u32,
    steps: u32,
) -> Result<Stretch<'p>, Fail> {
    let mut runner = whole(alloc, problem)?;
    Ok(walked_behind(&mut runner, from, steps)?)
}

/// The lease that was given, without what came with it.
pub fn lease_in(leased: Leased<'_>) -> Lease
    ensures { result ≡ leased.entry.lease }
{
    let Leased {
        lease,
        branch: _,
        mark: _,
        waiting: _,
    } = leased;
    lease
}

/// The lease of an answer; or why none was given.
pub fn lease_of(answer: Result<Leased<'_>, BookFault>) -> Result<Lease, BookFault> {
    match answer {
        Ok(leased) => Ok(lease_in(leased)),
        Err(fault) => Err(fault),
    }
}

/// A lease that has to be given.
pub fn given_lease(answer: Result<Leased<'_>, BookFault>) -> Result<Lease, Fail> {
    match lease_of(answer) {
        Ok(lease) => Ok(lease),
        Err(_) => Err(Fail::from("no lease")),
    }
}

/// The number of a refusal whose lease comes back, and is let go, or 0; none where there was no memory.
pub fn ended(answer: Result<(), Refused<BookFault, Lease>>) -> Option<u8>
    ensures ended { IfOk answer (λ done. result ≡ Some 0) }
    ensures refused { IfErr answer (λ refused. result ≡ number_of refused.fault) }
{
    match answer {
        Ok(()) => Some(0),
        Err(Refused { fault, given }) => {
            given.discard();
            fault.number()
        }
    }
}

/// Whether a lease was ended; else it is let go.
pub fn is_ended(answer: Result<(), Refused<BookFault, Lease>>) -> bool
    ensures { IsTrue result ↔ IsOk answer }
{
    match answer {
        Ok(()) => true,
        Err(Refused { fault: _, given }) => {
            given.discard();
            false
        }
    }
}

/// Copies of a book's tiles.
pub fn tiles_of<'p>(alloc: Global, book: &Book<'p>) -> Result<Vec<Tile<'p>>, AllocError> {
    let mut tiles = Vec::new(alloc);
    for tile in book.tiles() {
        tiles.push(tile.copy()?)?;
    }
    Ok(tiles)
}

/// Whether a tile is another one, as it says itself and part by part; false tells nothing.
fn is_tile(tile: &Tile<'_>, other: &Tile<'_>) -> bool
    ensures { IsTrue result → tile.now ≡ other.now }
{
    tile.same(other)
        && tile.id() == other.id()
        && tile.branch().same(other.branch())
        && tile.status() == other.status()
        && tile.stop() == other.stop()
        && tile.first_mark().same(other.first_mark())
        && tile.stretches().same(other.stretches())
        && tile.mark().same(other.mark())
}

/// Whether a book's tiles are these; false tells nothing.
pub fn has_tiles(book: &Book<'_>, tiles: &[Tile<'_>]) -> bool
    ensures { IsTrue result → book.now.tiles ≡ tiles.now }
{
    let own = book.tiles();
    if own.len() != tiles.len() {
        return false;
    }
    'comparing: for k in 0..own.len() {
        if !is_tile(&own[k], &tiles[k]) {
            return false;
        }
    }
    true
}

/// Whether a book visits 4 5 1 alone, the one cover of the small problem.
pub fn visits_the_cover(book: &Book<'_>) -> Result<bool, AllocError>
    ensures { IfOk result (λ only. IsTrue only ↔ (posted_visits book.now.tiles ≡ (4 ∷ 5 ∷ 1 ∷ []) ∷ [])) }
{
    let visits = book.visits()?;
    Ok(visits.len() == 1 && visits.list(0) == [4, 5, 1].as_slice())
}
