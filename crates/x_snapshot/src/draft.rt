//! What a text says of a snapshot, before it is judged.
ghost use Rattle.std.specs.Prelude.{◌≡◌, true, Ok, IfOk, OnOk};
ghost use Rattle.x_steps.specs.StateView.{state_value};
ghost use Rattle.x_texts.specs.Breaks.{are_breaks};
ghost use Rattle.x_snapshot.specs.Snapshot.{snapshot_runner};
ghost use Rattle.x_snapshot.specs.Judged.{judged_parts};
ghost use Rattle.x_snapshot.specs.Reader.{parts_of, Says};
ghost use Rattle.shared_words.specs.Answers.{Returns};
ghost use Rattle.x_snapshot.specs.Refusals.{TellsFault};

use crate::fault::SnapshotFault;
use crate::reader::{fault_from, read_parts};
use crate::verdict::{check_position, runner_at};
use cover_problem::{Problem, Table};
use std::alloc::Global;
use std::marker::Model;
use x_branches::Runner;
use x_steps::State;
use x_texts::Break;

/// The parts that a text says. Its breakpoints can be met; whether its cuts and its state are on the run isn't judged.
#[derive(Drop)]
pub struct Draft {
    problem: Problem,
    lo: Option<Vec<u32>>,
    hi: Option<Vec<u32>>,
    state: State,
    breaks: Vec<Break>,
}

impl Model for Draft {
    ghost use Rattle.std.specs.Prelude.{◌≡◌, true};
    ghost use Rattle.x_snapshot.specs.Snapshot.{SnapshotValue, parts_value};
    ghost use Rattle.x_texts.specs.Breaks.{are_breaks};

    ghost Value = { SnapshotValue };

    ghost view = { λ d. parts_value d.problem d.lo d.hi d.state d.breaks.items };

    ghost invariant = { λ d. are_breaks d.problem d.breaks.items ≡ true };
}

/// Reads what a text says. A refusal is the first fault of its lines, of bytes that follow, or of a second version that nothing
/// asks for.
pub fn read_draft(alloc: Global, bytes: &[u8]) -> Result<Draft, SnapshotFault>
    ensures read { IfOk result (λ d. Says bytes.now d) }
    ensures fault { TellsFault result (parts_of bytes.now) }
{
    match read_parts(alloc, bytes) {
        Ok((problem, lo, hi, state, breaks)) => Ok(Draft {
            problem,
            // Cuts and state are judged later, by who needs them: this takes no table.
            lo,
            hi,
            state,
            breaks,
        }),
        Err(refusal) => Err(fault_from(refusal)),
    }
}

impl Draft {
    /// What is true of every draft, for a proof that needs it: its breakpoints can be met, and none comes twice.
    pub fn is_sound(&self)
        ensures breaks { are_breaks self.now.problem self.now.breaks ≡ true }
    {
        // Where a field is read, what the whole keeps true is known.
        let _breaks = &self.breaks;
    }

    /// Its problem.
    pub fn problem(&self) -> &Problem
        ensures problem { result.now ≡ self.now.problem }
        ensures breaks { are_breaks self.now.problem self.now.breaks ≡ true }
    {
        &self.problem
    }

    /// Its state.
    pub fn state(&self) -> &State
        ensures { state_value result.now ≡ self.now.state }
    {
        &self.state
    }

    /// Its breakpoints, in order.
    pub fn breaks(&self) -> &[Break]
        ensures { result.now ≡ self.now.breaks }
    {
        &self.breaks
    }

    /// Whether it is a snapshot: refused where a cut or the state isn't on the run, then where the low cut doesn't come before the
    /// high one, or the state is outside the branch; and when out of memory.
    pub fn check(&self, alloc: Global) -> Result<(), SnapshotFault>
        ensures sound { OnOk result (judged_parts self.now ≡ Ok self.now) }
        ensures fault { TellsFault result (judged_parts self.now) }
    {
        check_position(alloc, &self.problem, &self.lo, &self.hi, &self.state)
    }

    /// A runner of this problem, which is the text's, at its state in its branch. Refused as `check` is. Each path is walked once.
    pub fn runner<'p, T: Table>(
        &self,
        alloc: Global,
        problem: &'p Problem,
    ) -> Result<Runner<'p, T>, SnapshotFault>
        requires { self.now.problem ≡ problem.now }
        ensures runner { Returns result (snapshot_runner problem.now self.now) }
        ensures sound { OnOk result (judged_parts self.now ≡ Ok self.now) }
        ensures fault { TellsFault result (judged_parts self.now) }
    {
        // A runner needs its problem for as long as it lives, and the draft may go before: so the problem is the caller's.
        runner_at(alloc, problem, &self.lo, &self.hi, &self.state)
    }
}
