//! Cuts: where a run is parted.
ghost use Rattle.std.specs.Prelude.{◌≡◌, ◌↔◌, [], IfOk, IfErr, OnOk, IsTrue};
ghost use Rattle.shared_words.specs.Answers.{Returns};
ghost use Rattle.cover_problem.specs.Answers.{IfRefused};
ghost use Rattle.x_steps.specs.Steps.{Fits};
ghost use Rattle.x_branches.specs.Cut.{cut_state, path_cut, IsCut, IsNoCut};
ghost use Rattle.x_branches.specs.declared.fault.CutFault as cut_faults;

use crate::fault::CutFault;
use crate::position::Position;
use cover_problem::{PlainTable, Problem, Table};
use std::alloc::{AllocError, Global};
use std::marker::Model;
use std::sync::ArcSlice;
use x_steps::{AtFault, Cursor, Label, Machine, Refused, State};

/// A nonempty path that a search can take. It stands for the state X5 at its last option, after its other choices. Its copies share the
/// path: it may be long, and a cut ends one branch and begins another.
#[derive(Drop)]
pub struct Cut<'p> {
    problem: &'p Problem,
    path: ArcSlice<u32, Global>,
}

impl<'p> Model for Cut<'p> {
    ghost use Rattle.std.specs.Arc.{arc_slice_items};
    ghost use Rattle.x_branches.specs.Cut.{CutPath, IsCut};

    ghost Value = { CutPath };

    ghost view = { λ c. record { problem = c.problem.now; path = arc_slice_items c.path } };

    ghost invariant = { λ c. IsCut c.problem.now (arc_slice_items c.path) };
}

/// Why a path is no cut, where the search has no such state.
fn fault_of(fault: AtFault) -> CutFault
    ensures not_a_state { (fault ≡ AtFault.NotAState) ↔ (result ≡ CutFault.NotUntried) }
{
    match fault {
        AtFault::NotAState => CutFault::NotUntried,
        AtFault::OutOfMemory => CutFault::OutOfMemory,
    }
}

impl<'p> Cut<'p> {
    /// The cut of a path. Refused exactly where the path is empty or none that the search can take, out of memory aside; the
    /// path comes back.
    pub fn new(
        alloc: Global,
        problem: &'p Problem,
        path: Vec<u32>,
    ) -> Result<Cut<'p>, Refused<CutFault, Vec<u32>>>
        ensures made { Returns result (path_cut problem.now path.items) }
        ensures cut { OnOk result (IsCut problem.now path.items) }
        ensures not_cut { IfRefused result CutFault.NotUntried (IsNoCut problem.now path.items) }
        ensures given_back { IfErr result (λ r. r.given ≡ path) }
    {
        // It serves for one walk down the path, so a plain one will do.
        let Ok(table) = PlainTable::new(alloc, problem) else {
            return Err(Refused {
                fault: CutFault::OutOfMemory,
                given: path,
            });
        };
        let (_, cut) = Cut::with_table(alloc, problem, table, path);
        cut
    }

    /// The same by a table of the problem with nothing covered, which comes back so.
    pub fn with_table<T: Table>(
        alloc: Global,
        problem: &'p Problem,
        table: T,
        path: Vec<u32>,
    ) -> (T, Result<Cut<'p>, Refused<CutFault, Vec<u32>>>)
        requires same_problem { T.problem_value table ≡ problem.now }
        requires covered { T.covered_list table ≡ [] }
        ensures made { Returns result.1 (path_cut problem.now path.items) }
        ensures cut { OnOk result.1 (IsCut problem.now path.items) }
        ensures not_cut { IfRefused result.1 CutFault.NotUntried (IsNoCut problem.now path.items) }
        ensures given_back { IfErr result.1 (λ r. r.given ≡ path) }
        ensures same_problem_back { T.problem_value result.0 ≡ problem.now }
        ensures covered_back { T.covered_list result.0 ≡ [] }
    {
        // The search can take a path exactly where it has X2 with it.
        let state = State {
            label: Label::X2,
            path,
            cursor: Cursor::None,
        };
        let found = Machine::at(alloc, problem, table, &state);
        // The state was made only to ask, and the path has to come back.
        let path = state.path;
        match found {
            Ok(machine) => {
                let table = machine.into_table();
                // The search has X2 with the empty path, but that has no last choice to cut at.
                if path.is_empty() {
                    let fault = CutFault::NotUntried;
                    return (table, Err(Refused { fault, given: path }));
                }
                match Cut::of_path(alloc, problem, &path) {
                    Ok(cut) => (table, Ok(cut)),
                    Err(_) => {
                        let fault = CutFault::OutOfMemory;
                        (table, Err(Refused { fault, given: path }))
                    }
                }
            }
            Err(refused) => {
                let fault = fault_of(refused.fault);
                (refused.given, Err(Refused { fault, given: path }))
            }
        }
    }

    /// The cut of a path that is one.
    pub(crate) fn of_path(
        alloc: Global,
        problem: &'p Problem,
        path: &[u32],
    ) -> Result<Cut<'p>, AllocError>
        requires { IsCut problem.now path.now }
        ensures { Returns result (path_cut problem.now path.now) }
    {
        let path = ArcSlice::from_slice(alloc, path)?;
        Ok(Cut { problem, path })
    }

    /// What is true of every cut, for a proof that needs it: its choices are those of a cut of its problem.
    pub fn is_sound(&self)
        ensures cut { IsCut self.now.problem self.now.path }
    {
        // Where a field is read, what the whole keeps true is known.
        let _path = &self.path;
    }

    /// Its choices.
    pub fn path(&self) -> &[u32]
        ensures path { result.now ≡ self.now.path }
        ensures cut { IsCut self.now.problem self.now.path }
    {
        self.path.as_slice()
    }

    /// Where its state stands.
    #[inline(always)]
    pub(crate) fn position(&self) -> Position<'_>
        ensures position { result ≡ cut_state self.now.path }
        ensures fits { Fits self.now.problem (cut_state self.now.path) }
    {
        Position::at_cut(self.path.as_slice())
    }

    /// Its problem.
    pub fn problem(&self) -> &'p Problem
        ensures { result.now ≡ self.now.problem }
    {
        self.problem
    }

    /// Whether it is the same cut of the same problem.
    pub fn same(&self, other: &Cut<'_>) -> bool
        ensures { IsTrue result ↔ (self.now ≡ other.now) }
    {
        self.problem.same(other.problem) && self.path() == other.path()
    }

    /// The same cut, without a copy of its path.
    pub fn copy(&self) -> Result<Cut<'p>, AllocError>
        ensures { IfOk result (λ cut. cut ≡ self.now) }
    {
        let path = self.path.clone()?;
        Ok(Cut {
            problem: self.problem,
            path,
        })
    }
}
