//! Searches that are taken by commands, which follow the input's text.
ghost use Rattle.std.specs.Prelude.{Ok, IfErr};
ghost use Rattle.debug_script.specs.Input.{raw_lines};
ghost use Rattle.polylab_engine.specs.Debugged.{debug_output};
ghost use Rattle.polylab_engine.specs.Outcome.{debug_outcome, packed_of, puzzle_replies, HasOutcome};
ghost use Rattle.polylab_engine.specs.Refusals.{IsNoTextOf, MayEndBy, MayEndAt};

use crate::answer::{NoText, compiled_of, problem_in, puzzle_in};
use crate::job::TextKind;
use cover_links::LinkTable;
use cover_problem::Problem;
use debug_script::{replies, split_input};
use lab_pool::Gate;
use poly_texts::Puzzle;
use std::alloc::Global;
use std::sync::Wait;
use std::thread::Threads;

/// What the commands that follow a text are answered over its problem, or over the problem of its puzzle.
pub fn replies_for<R: Threads + Wait + Sync, G: Gate>(
    rt: &R,
    alloc: Global,
    kind: TextKind,
    input: &[u8],
    gate: &G,
) -> Result<Vec<u8>, NoText>
    ensures outcome { HasOutcome result (debug_outcome kind input.now) }
    ensures why { IfErr result (IsNoTextOf (MayEndBy input.now)) }
{
    // The commands are lent by the input, which lives until the last is answered.
    let (text, commands) = split_input(input);
    match kind {
        TextKind::Cover => {
            let problem = problem_in(alloc, text)?;
            debug::<R, G>(rt, alloc, &problem, commands, gate)
        }
        TextKind::Puzzle => {
            let puzzle = puzzle_in(alloc, text)?;
            debug_puzzle::<R, G>(rt, alloc, &puzzle, commands, gate)
        }
    }
}

/// What commands are answered over the problem of a puzzle, or the refusal of a puzzle whose problem is past the limits.
fn debug_puzzle<R: Threads + Wait + Sync, G: Gate>(
    rt: &R,
    alloc: Global,
    puzzle: &Puzzle,
    commands: &[u8],
    gate: &G,
) -> Result<Vec<u8>, NoText>
    ensures text { HasOutcome result (packed_of (puzzle_replies (raw_lines commands.now)) (Ok puzzle.now)) }
    ensures why { IfErr result (IsNoTextOf (MayEndAt (raw_lines commands.now))) }
{
    let compiled = compiled_of(alloc, puzzle)?;
    debug::<R, G>(rt, alloc, compiled.problem(), commands, gate)
}

/// What commands over a problem are answered, from the start of its run on. A `pool` names its own
/// number of workers.
#[tactic(auto, unfolding(crate::specs::Debugged::debug_output))]
fn debug<R: Threads + Wait + Sync, G: Gate>(
    rt: &R,
    alloc: Global,
    problem: &Problem,
    commands: &[u8],
    gate: &G,
) -> Result<Vec<u8>, NoText>
    ensures text { HasOutcome result (Ok (debug_output (raw_lines commands.now) problem.now)) }
    ensures why { IfErr result (IsNoTextOf (MayEndAt (raw_lines commands.now))) }
{
    // The number of workers isn't asked of the words: it stands in each `pool`.
    match replies::<LinkTable, R, G>(rt, alloc, problem, commands, gate) {
        Ok(text) => Ok(text),
        Err(fault) => Err(NoText::Fault(fault)),
    }
}
