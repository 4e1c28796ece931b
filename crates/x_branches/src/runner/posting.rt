//! The unposted stretch of a runner: it is taken out to be posted, joined again, or let go where another branch begins.
ghost use Rattle.std.specs.Prelude.{◌≡◌, ◌<◌, ◌≤◌, ◌-◌, ◌↔◌, ◌++◌, [], length, take, drop, replicate, slice_index, IsTrue, IfOk, IfErr};
ghost use Rattle.std.specs.Prelude.{OnOk, OnErr};
ghost use Rattle.shared_words.specs.Answers.{Returns};
ghost use Rattle.x_steps.specs.StateView.{state_value};
ghost use Rattle.x_steps.specs.Levels.{without_last_zeros};
ghost use Rattle.x_steps.specs.Steps.{Fits};
ghost use Rattle.x_branches.specs.Branch.{first_of, end_of};
ghost use Rattle.x_branches.specs.Runner.{unposted_stretch, runner_at};
ghost use Rattle.x_branches.specs.Refusals.{CanStart, BeginRefused, EndsHere, CanReopen, ReopenRefused};

use crate::branch::Branch;
use crate::fault::RunnerFault;
use crate::order::is_before;
use crate::position::Position;
use crate::runner::Runner;
use crate::stretch::Stretch;
use cover_problem::{Lists, Table};
use std::alloc::{AllocError, Global};
use std::mem;
use x_steps::{Mark, Refused};

/// Whether the last of the first so many counts is 0.
fn is_zero_before(counts: &[u32], count: usize) -> bool
    requires { count ≤ length counts.now }
    ensures { IsTrue result ↔ ((0 < count) × (slice_index counts.now (count - 1) ≡ 0)) }
{
    count > 0 && counts[count - 1] == 0
}

/// How many counts there are up to the last above 0.
fn counted(counts: &[u32]) -> usize
    ensures within { result ≤ length counts.now }
    ensures cut { take result counts.now ≡ without_last_zeros counts.now }
{
    // From the end on: a 0 between counts above 0 stays.
    let mut count = counts.len();
    while is_zero_before(counts, count) {
        count -= 1;
    }
    count
}

/// The counts up to the last above 0, in memory of just their size.
fn trimmed(alloc: Global, counts: &[u32]) -> Result<Vec<u32>, AllocError>
    ensures { IfOk result (λ levels. levels.items ≡ without_last_zeros counts.now) }
{
    let (front, _) = counts.split_at(counted(counts));
    Vec::from_slice(alloc, front)
}

/// Copies of the visits, and of the counts up to the last above 0.
fn copied(alloc: Global, visits: &Lists, counts: &[u32]) -> Result<(Lists, Vec<u32>), AllocError>
    ensures visits { IfOk result (λ kept. kept.0 ≡ visits.now) }
    ensures levels { IfOk result (λ kept. kept.1.items ≡ without_last_zeros counts.now) }
{
    let visits = visits.copy()?;
    let levels = trimmed(alloc, counts)?;
    Ok((visits, levels))
}

/// Takes all visits and all counts away.
fn forget_all(visits: &mut Lists, counts: &mut [u32])
    ensures visits { visits.new ≡ [] }
    ensures counts { counts.new ≡ replicate (length counts.old) 0 }
{
    visits.clear();
    counts.fill(0);
}

/// Puts counts in place of the first ones.
fn put(counts: &mut [u32], levels: &[u32])
    requires { length levels.now ≤ length counts.old }
    ensures { counts.new ≡ levels.now ++ drop (length levels.now) counts.old }
{
    for (level, count) in levels.iter().enumerate() {
        counts[level] = *count;
    }
}

impl<'p, T: Table> Runner<'p, T> {
    /// Takes the stretch from the mark up to the position out, and sets the mark there. Where memory runs out, nothing changes.
    pub fn take_stretch(&mut self) -> Result<Stretch<'p>, AllocError>
        ensures stretch { Returns result (unposted_stretch self.old) }
        ensures marked { OnOk result (self.new ≡ record self.old { mark = self.old.position }) }
        ensures unchanged { OnErr result (self.new ≡ self.old) }
    {
        let state = self.machine.state();
        // All memory is asked for before the first change.
        let to = Mark::of(state)?;
        let mark = to.copy()?;
        // Copies go out: so the runner keeps its room, for the steps to come.
        let (visits, levels) = copied(*state.path.allocator(), &self.visits, &self.counts)?;
        let steps = self.steps;
        let from = mem::replace(&mut self.mark, mark);
        self.steps = 0;
        forget_all(&mut self.visits, &mut self.counts);
        Ok(Stretch {
            problem: self.machine.problem(),
            from,
            to,
            steps,
            visits,
            levels,
        })
    }

    /// Whether the search stands in a branch of the problem's run, or at its end.
    fn is_in(&self, branch: &Branch<'_>) -> bool
        ensures first_fits { IsTrue result → Fits self.now.problem (first_of branch.now.lo) }
        ensures end_fits { IsTrue result → Fits self.now.problem (end_of branch.now.hi) }
        ensures can { IsTrue result ↔ CanStart self.now.problem branch.now self.now.position }
    {
        branch.holds(self.machine.problem(), self.machine.state())
    }

    /// Begins another branch where the search stands, with the mark there; what is unposted is let go. So who finished a part of a run
    /// goes on in the next one, which needs no walk down to its first state. Refused where the branch isn't one of the problem's run
    /// or the position is outside it, and when out of memory; nothing has then changed, and the branch comes back.
    pub fn begin(&mut self, branch: Branch<'p>) -> Result<(), Refused<RunnerFault, Branch<'p>>>
        ensures runner { OnOk result
            (self.new ≡ runner_at self.old.problem branch.entry self.old.position) }
        ensures can { OnOk result (CanStart self.old.problem branch.entry self.old.position) }
        ensures refused { IfErr result (λ r. BeginRefused self.old branch.entry r.fault) }
        ensures given_back { IfErr result (λ r. r.given ≡ branch.entry) }
        ensures unchanged { OnErr result (self.new ≡ self.old) }
    {
        if !self.is_in(&branch) {
            return Err(Refused {
                fault: RunnerFault::OutsideBranch,
                given: branch,
            });
        }
        let Ok(mark) = Mark::of(self.machine.state()) else {
            return Err(Refused {
                fault: RunnerFault::OutOfMemory,
                given: branch,
            });
        };
        // The mark is where the machine stands, so it has no way to go.
        self.move_to(branch, mark);
        Ok(())
    }

    /// Goes to a state of a branch and begins the branch there, with the mark at that state; what is unposted is let go. Takes no
    /// memory and compares no problems: that a search can start there is known. What is covered at both states stays covered.
    pub fn move_to(&mut self, branch: Branch<'p>, mark: Mark)
        requires { CanStart self.old.problem branch mark }
        ensures { self.new ≡ runner_at self.old.problem branch.entry mark }
    {
        // For the proof alone: the search has the ends of the branch.
        branch.is_sound();
        self.machine.move_to(mark.state());
        let _ = mem::replace(&mut self.branch, branch);
        let _ = mem::replace(&mut self.mark, mark);
        self.steps = 0;
        forget_all(&mut self.visits, &mut self.counts);
    }

    /// Whether it stands at its mark, and a stretch ends there.
    fn is_end_of(&self, stretch: &Stretch<'_>) -> bool
        ensures { IsTrue result ↔ EndsHere self.now stretch.now }
    {
        // With no step the position is the mark, so the end is compared with one of them alone.
        if self.steps > 0 {
            return false;
        }
        stretch.to().same(self.machine.state())
    }

    /// Whether a stretch is the problem's and begins within the branch.
    fn has_begin_of(&self, stretch: &Stretch<'_>) -> bool
        requires { EndsHere self.now stretch.now }
        ensures { IsTrue result ↔ CanReopen self.now stretch.now }
    {
        // The problems first: which of two states comes first makes sense in one search alone.
        if !stretch.problem().same(self.machine.problem()) {
            return false;
        }
        !is_before(&Position::of(stretch.from()), &self.branch.first())
    }

    /// Joins a stretch again that ends at the mark, without memory: it is unposted then, and the mark is where it begins.
    /// Refused where the runner isn't at its mark or the stretch doesn't end there, then where the stretch is another problem's
    /// or begins before the branch; nothing has then changed, and the stretch comes back.
    pub fn reopen(&mut self, stretch: Stretch<'p>) -> Result<(), Refused<RunnerFault, Stretch<'p>>>
        ensures reopened { OnOk result (self.new ≡ record self.old { mark = stretch.entry.from }) }
        ensures can { OnOk result (CanReopen self.old stretch.entry) }
        ensures refused { IfErr result (λ r. ReopenRefused self.old stretch.entry r.fault) }
        ensures given_back { IfErr result (λ r. r.given ≡ stretch.entry) }
        ensures unchanged { OnErr result (self.new ≡ self.old) }
    {
        if !self.is_end_of(&stretch) {
            return Err(Refused {
                fault: RunnerFault::NotAtMark,
                given: stretch,
            });
        }
        if !self.has_begin_of(&stretch) {
            return Err(Refused {
                fault: RunnerFault::OutsideBranch,
                given: stretch,
            });
        }
        let Stretch {
            problem: _,
            from,
            to: _,
            steps,
            visits,
            levels,
        } = stretch;
        // At the mark all counts are 0, so past the last level that the stretch tells they are right as they are.
        put(&mut self.counts, &levels);
        self.mark = from;
        self.steps = steps;
        self.visits = visits;
        Ok(())
    }
}
