//! Branches: parts of a run.
ghost use Rattle.std.specs.Prelude.{◌≡◌, ◌↔◌, IsTrue, IfOk, Option, option_copied};
ghost use Rattle.cover_problem.specs.Problem.{ProblemValue};
ghost use Rattle.x_steps.specs.Steps.{Fits};
ghost use Rattle.x_steps.specs.StateView.{state_value};
ghost use Rattle.x_branches.specs.Branch.{first_of, end_of, first_from};
ghost use Rattle.x_branches.specs.RunOrder.{TrueIsBefore};
ghost use Rattle.x_branches.specs.Runner.{IsOf, IsBranch, IsWithin};
ghost use Rattle.x_branches.specs.Walk.{end_choices};

use crate::cut::Cut;
use crate::order::is_before;
use crate::position::Position;
use cover_problem::Problem;
use std::alloc::AllocError;
use x_steps::State;

/// The part of a run from X1, or the cut `lo`, up to but without the cut `hi`, or Done.
#[derive(Drop)]
pub struct Branch<'p> {
    pub lo: Option<Cut<'p>>,
    pub hi: Option<Cut<'p>>,
}

/// A copy of a cut, if there is one.
fn copied<'p>(cut: &Option<Cut<'p>>) -> Result<Option<Cut<'p>>, AllocError>
    ensures { IfOk result (λ copy. copy ≡ cut.now) }
{
    match cut {
        Some(cut) => Ok(Some(cut.copy()?)),
        None => Ok(None),
    }
}

/// Whether two cuts, if there are, are the same.
fn are_same(one: &Option<Cut<'_>>, other: &Option<Cut<'_>>) -> bool
    ensures { IsTrue result ↔ (one.now ≡ other.now) }
{
    match (one, other) {
        (Some(one), Some(other)) => one.same(other),
        (None, None) => true,
        _ => false,
    }
}

/// Whether a cut, if there is one, is the problem's.
fn is_of(cut: &Option<Cut<'_>>, problem: &Problem) -> bool
    ensures { IsTrue result ↔ IsOf problem.now cut.now }
{
    match cut {
        Some(cut) => cut.problem().same(problem),
        None => true,
    }
}

impl<'p> Branch<'p> {
    /// A copy.
    pub fn copy(&self) -> Result<Branch<'p>, AllocError>
        ensures { IfOk result (λ branch. branch ≡ self.now) }
    {
        let lo = copied(&self.lo)?;
        let hi = copied(&self.hi)?;
        Ok(Branch { lo, hi })
    }

    /// Whether it is the same branch.
    pub fn same(&self, other: &Branch<'_>) -> bool
        ensures { IsTrue result ↔ (self.now ≡ other.now) }
    {
        are_same(&self.lo, &other.lo) && are_same(&self.hi, &other.hi)
    }

    /// Where its first state stands.
    #[inline(always)]
    pub(crate) fn first(&self) -> Position<'_>
        ensures position { result ≡ first_of self.now.lo }
        ensures fits { (p : ProblemValue) → IsOf p self.now.lo → Fits p (first_of self.now.lo) }
    {
        match &self.lo {
            Some(cut) => cut.position(),
            None => Position::first(),
        }
    }

    /// Where the state stands that ends it.
    #[inline(always)]
    pub(crate) fn end(&self) -> Position<'_>
        ensures position { result ≡ end_of self.now.hi }
        ensures fits { (p : ProblemValue) → IsOf p self.now.hi → Fits p (end_of self.now.hi) }
    {
        match &self.hi {
            Some(cut) => cut.position(),
            None => Position::last(),
        }
    }

    /// Whether its first state comes before that of a branch whose low cut has these choices, or X1 where it has no low cut.
    pub fn begins_before(&self, choices: Option<&[u32]>) -> bool
        ensures { TrueIsBefore result (first_of self.now.lo)
            (first_from (option_copied choices.entry)) }
    {
        match choices {
            Some(choices) => is_before(&self.first(), &Position::at_cut(choices)),
            None => is_before(&self.first(), &Position::first()),
        }
    }

    /// The choices of the cut that ends it; none where it ends with the run.
    #[inline(always)]
    pub(crate) fn end_choices(&self) -> &[u32]
        ensures { result.now ≡ end_choices self.now.hi }
    {
        match &self.hi {
            Some(cut) => cut.path(),
            None => &[],
        }
    }

    /// What is true of every branch, for a proof that needs it: a search of the problem whose cuts these are has its ends.
    #[inline(always)]
    pub(crate) fn is_sound(&self)
        ensures first_fits { (p : ProblemValue) → IsOf p self.now.lo →
            Fits p (first_of self.now.lo) }
        ensures end_fits { (p : ProblemValue) → IsOf p self.now.hi → Fits p (end_of self.now.hi) }
    {
        let _first = self.first();
        let _end = self.end();
    }

    /// Whether it is a branch of the problem's run: it begins before it ends.
    fn is_of(&self, problem: &Problem) -> bool
        ensures { IsTrue result ↔ IsBranch problem.now self.now }
    {
        // Anyone can put two cuts together: that they are this problem's is asked before they are compared.
        if !is_of(&self.lo, problem) {
            return false;
        }
        if !is_of(&self.hi, problem) {
            return false;
        }
        // A branch without a state is none.
        is_before(&self.first(), &self.end())
    }

    /// Whether it is a branch of the problem's run that has this state, or ends there.
    pub(crate) fn holds(&self, problem: &Problem, state: &State) -> bool
        requires { Fits problem.now (state_value state.now) }
        ensures first_fits { IsTrue result → Fits problem.now (first_of self.now.lo) }
        ensures end_fits { IsTrue result → Fits problem.now (end_of self.now.hi) }
        ensures branch { IsTrue result → IsBranch problem.now self.now }
        ensures within { IsTrue result → IsWithin problem.now self.now (state_value state.now) }
        ensures outside { IsBranch problem.now self.now →
            IsWithin problem.now self.now (state_value state.now) → IsTrue result }
    {
        let position = Position::of(state);
        if !self.is_of(problem) {
            return false;
        }
        if is_before(&position, &self.first()) {
            return false;
        }
        // At the end itself a runner may stand, once it has walked the branch.
        !is_before(&self.end(), &position)
    }
}
