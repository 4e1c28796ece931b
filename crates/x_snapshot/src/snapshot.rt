//! A snapshot: a problem, a branch of its run, a state within it, and breakpoints.
ghost use Rattle.std.specs.Prelude.{◌≡◌, IfErr, OnOk};
ghost use Rattle.x_steps.specs.StateView.{state_value};
ghost use Rattle.x_snapshot.specs.Snapshot.{IsSnapshot, at_state, parts_value, MakeSnapshot, Lends};
ghost use Rattle.x_snapshot.specs.Refusals.{MakeNone};
ghost use Rattle.shared_words.specs.Answers.{Returns};

use crate::fault::SnapshotFault;
use crate::verdict::check_parts;
use cover_problem::Problem;
use std::alloc::Global;
use std::marker::Model;
use x_steps::{Refused, State};
use x_texts::Break;

/// The parts of a snapshot: its problem, the paths of its low and its high cut, its state, and its breakpoints.
pub type SnapshotParts = (
    Problem,
    Option<Vec<u32>>,
    Option<Vec<u32>>,
    State,
    Vec<Break>,
);

/// The parts that come after its problem.
pub type PartsAfter = (Option<Vec<u32>>, Option<Vec<u32>>, State, Vec<Break>);

/// A position in the search of a problem: a branch of its run, from a cut or the start up to a later cut or the end, and a state
/// in the branch or at its end. With it go the breakpoints of a search that stands there.
#[derive(Drop)]
pub struct Snapshot {
    problem: Problem,
    /// The cuts by their paths: a `Cut` lives no longer than its problem, which moves with the snapshot.
    lo: Option<Vec<u32>>,
    hi: Option<Vec<u32>>,
    state: State,
    breaks: Vec<Break>,
}

impl Model for Snapshot {
    ghost use Rattle.x_snapshot.specs.Snapshot.{SnapshotValue, IsSnapshot, parts_value};

    ghost Value = { SnapshotValue };

    ghost view = { λ s. parts_value s.problem s.lo s.hi s.state s.breaks.items };

    ghost invariant = { λ s. IsSnapshot (parts_value s.problem s.lo s.hi s.state s.breaks.items) };
}

impl Snapshot {
    /// The snapshot of these parts. Refused, in this order, where a breakpoint can't be met or comes twice; where a cut's path
    /// is empty or none that the search can take, or the search has no such state; and where the low cut doesn't come before
    /// the high one, or the state is outside the branch; and when out of memory. All parts come back.
    pub fn new(
        alloc: Global,
        problem: Problem,
        lo: Option<Vec<u32>>,
        hi: Option<Vec<u32>>,
        state: State,
        breaks: Vec<Break>,
    ) -> Result<Snapshot, Refused<SnapshotFault, SnapshotParts>>
        ensures made { Returns result (parts_value problem lo hi state breaks.items) }
        ensures snapshot { OnOk result (MakeSnapshot problem lo hi state breaks.items) }
        ensures refused { IfErr result (λ r. MakeNone problem lo hi state breaks.items r.fault) }
        ensures given_back { IfErr result (λ r. r.given ≡ (problem, lo, hi, state, breaks)) }
    {
        // The parts are lent to the test, so that a refusal can hand them back.
        match check_parts(alloc, &problem, &lo, &hi, &state, &breaks) {
            Ok(()) => Ok(Snapshot {
                problem,
                lo,
                hi,
                state,
                breaks,
            }),
            Err(fault) => Err(Refused {
                fault,
                given: (problem, lo, hi, state, breaks),
            }),
        }
    }

    /// What is true of every snapshot, for a proof that needs it.
    pub fn is_sound(&self)
        ensures snapshot { IsSnapshot self.now }
    {
        // Where a field is read, what the whole keeps true is known.
        let _state = &self.state;
    }

    /// Goes to another state of its branch. No path is walked: the caller knows that the branch has the state.
    pub fn move_to(&mut self, state: State)
        requires { IsSnapshot (at_state self.now (state_value state)) }
        ensures { self.new ≡ at_state self.old (state_value state) }
    {
        self.state = state;
    }

    /// Its problem.
    pub fn problem(&self) -> &Problem
        ensures problem { result.now ≡ self.now.problem }
        ensures snapshot { IsSnapshot self.now }
    {
        &self.problem
    }

    /// The choices of the cut where its branch begins; None where that is the start of the run.
    pub fn lo(&self) -> Option<&[u32]>
        ensures { Lends result self.now.lo }
    {
        self.lo.as_deref()
    }

    /// The choices of the cut where its branch ends; None where that is the end of the run.
    pub fn hi(&self) -> Option<&[u32]>
        ensures { Lends result self.now.hi }
    {
        self.hi.as_deref()
    }

    /// Its state.
    pub fn state(&self) -> &State
        ensures { state_value result.now ≡ self.now.state }
    {
        &self.state
    }

    /// Its breakpoints, in order.
    pub fn breaks(&self) -> &[Break]
        ensures { result.now ≡ self.now.breaks }
    {
        &self.breaks
    }
}
