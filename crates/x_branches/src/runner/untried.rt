//! What a runner leaves untried in its branch, and where its branch can be cut.
ghost use Rattle.std.specs.Prelude.{All, ◌≡◌, ◌<◌, ◌≤◌, ◌+◌, ◌↔◌, [], ℕ, length, filter, true, Some, None};
ghost use Rattle.std.specs.Prelude.{IfSome, IsTrue};
ghost use Rattle.std.specs.Prelude.{IfOk, IfErr, OnOk, OnErr};
ghost use Rattle.std.specs.List.{slice_get, list_any};
ghost use Rattle.cover_problem.specs.Covering.{IsInList, is_remaining};
ghost use Rattle.shared_words.specs.Lists.{has};
ghost use Rattle.shared_words.specs.Answers.{Returns, ReturnsItems};
ghost use Rattle.cover_problem.specs.Problem.{ProblemValue};
ghost use Rattle.cover_problem.specs.Path.{IsValid, covered_by};
ghost use Rattle.x_steps.specs.StateValue.{at};
ghost use Rattle.x_steps.specs.StateView.{state_value};
ghost use Rattle.x_steps.specs.Steps.{Fits, item_after, remaining_after};
ghost use Rattle.x_branches.specs.Cut.{choices};
ghost use Rattle.x_branches.specs.Branch.{end_of};
ghost use Rattle.x_branches.specs.Untried.{is_before_end, left_above, ListsAbove};
ghost use Rattle.x_branches.specs.Runner.{IsOf, ended_at, earlier_choices, covered_before};
ghost use Rattle.x_branches.specs.Refusals.{untried_in, untried_lists, first_untried_in, NoneUntriedBefore, cut_at, CanShorten, CutRefused, WhyNotLeft};

use crate::branch::Branch;
use crate::cut::Cut;
use crate::fault::RunnerFault;
use crate::order::is_before;
use crate::position::Position;
use crate::runner::Runner;
use cover_problem::{Lists, Problem, Table};
use std::alloc::{AllocError, Global};
use x_steps::{Cursor, Label, Refused, State, shared};

/// A state's choice at a level: the path's, or after the path the cursor's option.
fn choice_at(state: &State, level: usize) -> Option<u32>
    ensures { result ≡ slice_get (choices (state_value state.now)) level }
{
    if level < state.path.len() {
        return Some(state.path[level]);
    }
    // Only X5 and X6 are at an option, and it comes right after the path.
    match state.cursor {
        Cursor::At(option) if level == state.path.len() => Some(option),
        _ => None,
    }
}

/// How many items these choices cover: each covers all items of its option. They are the first of a longer list.
fn covered_count(problem: &Problem, path: &[u32], covered: &[u32]) -> usize
    requires valid { IsValid problem.now path.now }
    requires within { length (covered_by problem.now path.now) ≤ length covered.now }
    ensures { result ≡ length (covered_by problem.now path.now) }
{
    // `covered` isn't read: by its length the proof knows that the sum has room.
    let mut count = 0;
    for option in path {
        count += problem.option(*option).len();
    }
    count
}

/// Whether an item is one of these.
fn has_item(items: &[u32], item: u32) -> bool
    ensures { result ≡ has items.now item }
{
    items.contains(&item)
}

/// Whether one of the option's items is one of these.
fn has_any(items: &[u32], option: &[u32]) -> bool
    ensures { result ≡ list_any (has items.now) option.now }
{
    option.iter().any(|item| has_item(items, *item))
}

/// Whether an option has the item, and none of those that are covered.
fn is_remaining(option: &[u32], item: u32, covered: &[u32]) -> bool
    ensures { result ≡ is_remaining covered.now item option.now }
{
    has_item(option, item) && !has_any(covered, option)
}

/// The options of an item's list above one of them.
fn options_above<T: Table>(
    alloc: Global,
    table: &T,
    item: u32,
    option: u32,
) -> Result<Vec<u32>, AllocError>
    requires { IsInList (T.problem_value table.now) (T.covered_list table.now) item option }
    ensures { ListsAbove result (T.problem_value table.now) (T.covered_list table.now) item option }
{
    let mut options = Vec::new(alloc);
    let mut next = table.next_option(item, option);
    while let Some(above) = next {
        options.push(above)?;
        next = table.next_option(item, above);
    }
    Ok(options)
}

/// Whether the cut at an option after these choices comes before the end of a branch.
fn is_cut_inside(branch: &Branch<'_>, front: &[u32], option: u32) -> bool
    ensures { (p : ProblemValue) → IsOf p branch.now.hi →
        Fits p (at Label.X5 front.now (Cursor.At option)) →
        result ≡ is_before_end p (end_of branch.now.hi) front.now option }
{
    // Made of what is lent, so that comparing it takes no memory.
    let cut = Position {
        label: Label::X5,
        path: front,
        cursor: Cursor::At(option),
    };
    is_before(&cut, &branch.end())
}

/// Of these options those whose cuts, after the choices before them, come before the end of a branch.
fn cut_inside(
    branch: &Branch<'_>,
    front: &[u32],
    options: &[u32],
    alloc: Global,
) -> Result<Vec<u32>, AllocError>
    ensures { (p : ProblemValue) → IsOf p branch.now.hi →
        All (λ k. Fits p (at Label.X5 front.now (Cursor.At k))) options.now →
        IfOk result (λ kept. kept.items ≡
        filter (is_before_end p (end_of branch.now.hi) front.now) options.now) }
{
    let mut kept = Vec::new(alloc);
    for option in options {
        if is_cut_inside(branch, front, *option) {
            kept.push(*option)?;
        }
    }
    Ok(kept)
}

impl<'p, T: Table> Runner<'p, T> {
    /// The options left above the choice at a level.
    fn left_above(&self, level: usize) -> Result<Vec<u32>, AllocError>
        ensures { ReturnsItems result (left_above self.now.problem level self.now.position) }
    {
        let state = self.machine.state();
        let alloc = *state.path.allocator();
        let Some(choice) = choice_at(state, level) else {
            return Ok(Vec::new(alloc));
        };
        self.left_behind(level, choice, self.item_at(level))
    }

    /// What the choices before a level cover, and the item that was chosen there, where there is a choice: it is covered behind them.
    fn covered_at(&self, level: usize) -> (&[u32], u32)
        requires { level < length (choices self.now.position) }
        ensures before { result.0.now ≡ covered_before self.now level }
        ensures item { result.1 ≡ item_after self.now.problem (earlier_choices self.now level) }
    {
        let covered = self.machine.covered();
        let count = covered_count(self.machine.problem(), self.front(level), covered);
        let (before, _) = covered.split_at(count);
        (before, covered[count])
    }

    /// The item that was chosen at a level where there is a choice.
    fn item_at(&self, level: usize) -> u32
        requires { level < length (choices self.now.position) }
        ensures { result ≡ item_after self.now.problem (earlier_choices self.now level) }
    {
        self.covered_at(level).1
    }

    /// Whether an option is left for the item that was chosen at a level. Its items are sought among those that were covered before,
    /// which costs no walk down the item's list.
    fn is_left(&self, level: usize, option: u32) -> bool
        requires level { level < length (choices self.now.position) }
        requires some { 0 < option }
        requires within { option ≤ length self.now.problem.options }
        ensures { result ≡
            has (remaining_after self.now.problem (earlier_choices self.now level)) option }
    {
        let (before, item) = self.covered_at(level);
        is_remaining(self.machine.problem().option(option), item, before)
    }

    /// Whether an option is left above the choice at a level.
    fn is_left_above(&self, level: usize, option: u32) -> bool
        ensures { result ≡ has (left_above self.now.problem level self.now.position) option }
    {
        let Some(choice) = choice_at(self.machine.state(), level) else {
            return false;
        };
        if option <= choice {
            return false;
        }
        // Whoever asks for a cut may name any number, and the option is looked up next.
        if option > self.machine.problem().options() {
            return false;
        }
        self.is_left(level, option)
    }

    /// The options left above the choice at a level. That choice is given, and the item that was chosen there.
    fn left_behind(&self, level: usize, choice: u32, item: u32) -> Result<Vec<u32>, AllocError>
        requires choice { Some choice ≡ slice_get (choices self.now.position) level }
        requires item { item ≡ item_after self.now.problem (earlier_choices self.now level) }
        ensures { ReturnsItems result (left_above self.now.problem level self.now.position) }
    {
        let alloc = *self.machine.state().path.allocator();
        // The item is covered, so its list is that of the time when it was chosen.
        options_above(alloc, self.machine.table(), item, choice)
    }

    /// The choices of the position's path.
    fn path(&self) -> &[u32]
        ensures { result.now ≡ self.now.position.path }
    {
        &self.machine.state().path
    }

    /// The choices before a level where there is one.
    fn front(&self, level: usize) -> &[u32]
        requires { level < length (choices self.now.position) }
        ensures { result.now ≡ earlier_choices self.now level }
    {
        let (front, _) = self.machine.state().path.split_at(level);
        front
    }

    /// The item that was chosen at a level of the path, and how many items the choices up to that level cover. How many those before
    /// it cover is given: the item is covered behind them.
    fn pass_level(&self, level: usize, covered: usize) -> (u32, usize)
        requires level { level < length self.now.position.path }
        requires covered { covered ≡ length (covered_before self.now level) }
        ensures item { result.0 ≡ item_after self.now.problem (earlier_choices self.now level) }
        ensures covered { result.1 ≡ length (covered_before self.now (level + 1)) }
    {
        let items = self.machine.covered();
        let option = self.machine.problem().option(self.path()[level]);
        (items[covered], covered + option.len())
    }

    /// Of the options left above the choice at a level, those whose cuts come before the branch's end.
    fn before_end(&self, level: usize, above: &[u32]) -> Result<Vec<u32>, AllocError>
        requires { above.now ≡ left_above self.now.problem level self.now.position }
        ensures { ReturnsItems result (untried_in self.now level) }
    {
        let alloc = *self.machine.state().path.allocator();
        // Where nothing is left there may be no choice at the level, and `front` asks for one.
        if above.is_empty() {
            return Ok(Vec::new(alloc));
        }
        cut_inside(&self.branch, self.front(level), above, alloc)
    }

    /// The options that are untried at a level: those left there above its choice whose cuts come before the branch's end.
    pub fn untried(&self, level: usize) -> Result<Vec<u32>, AllocError>
        ensures { ReturnsItems result (untried_in self.now level) }
    {
        let above = self.left_above(level)?;
        self.before_end(level, &above)
    }

    /// The same for each level of the path, and then the one of the cursor. It goes once through the choices, where as many calls of
    /// `untried` would go through those before each level again.
    pub fn untried_by_level(&self) -> Result<Lists, AllocError>
        ensures { Returns result (untried_lists self.now) }
    {
        let path = self.path();
        let mut lists = Lists::new(*self.machine.state().path.allocator());
        let mut covered = 0;
        'listing: for level in 0..path.len() {
            let (item, with_level) = self.pass_level(level, covered);
            let above = self.left_behind(level, path[level], item)?;
            let untried = self.before_end(level, &above)?;
            lists.push(&untried)?;
            covered = with_level;
        }
        // The cursor's level is not on the path; where there is no option, its list is empty.
        let untried = self.untried(path.len())?;
        lists.push(&untried)?;
        Ok(lists)
    }

    /// The first option that is untried at a level; None where nothing is. The choice there is given, and the item that was chosen
    /// there. Options that are left rise, so where the first comes after the branch's end, so do all.
    fn first_at(&self, level: usize, choice: u32, item: u32) -> Option<u32>
        requires choice { Some choice ≡ slice_get (choices self.now.position) level }
        requires item { item ≡ item_after self.now.problem (earlier_choices self.now level) }
        ensures { result ≡ first_untried_in self.now level }
    {
        // The item's list is as it was when the item was chosen, so the next option in it is the first one left.
        let Some(option) = self.machine.table().next_option(item, choice) else {
            return None;
        };
        if is_cut_inside(&self.branch, self.front(level), option) {
            Some(option)
        } else {
            None
        }
    }

    /// The same where the choice isn't given: None, too, where there is none.
    fn first_in(&self, level: usize) -> Option<u32>
        ensures { result ≡ first_untried_in self.now level }
    {
        let Some(choice) = choice_at(self.machine.state(), level) else {
            return None;
        };
        self.first_at(level, choice, self.item_at(level))
    }

    /// The least level at which something is untried, with the first option there; None where nothing is untried. It takes no
    /// memory, and is linear in the depth: where the choices are those of the branch's end nothing is untried, so it looks from
    /// the level on at which they part.
    pub fn first_untried(&self) -> Option<(usize, u32)>
        ensures first { IfSome result (λ found. Some found.1 ≡ first_untried_in self.now found.0) }
        ensures least { IfSome result (λ found. NoneUntriedBefore self.now found.0) }
        ensures none { result ≡ None → (level : ℕ) → untried_in self.now level ≡ [] }
    {
        let path = self.path();
        let last = path.len();
        let parted = shared(path, self.branch.end_choices());
        let (front, _) = path.split_at(parted);
        let mut covered = covered_count(self.machine.problem(), front, self.machine.covered());
        'seeking: for level in parted..last {
            let (item, with_level) = self.pass_level(level, covered);
            if let Some(option) = self.first_at(level, path[level], item) {
                return Some((level, option));
            }
            covered = with_level;
        }
        match self.first_in(last) {
            Some(option) => Some((last, option)),
            None => None,
        }
    }

    /// The cut at an untried option of a level. Refused, in this order: where the option is left above the level's choice and
    /// its cut doesn't come before the branch's end; where nothing is untried there; where the option isn't; and when out of
    /// memory. No list is made: it costs the depth, however many options are left.
    pub fn cut(&self, level: usize, option: u32) -> Result<Cut<'p>, RunnerFault>
        ensures cut { Returns result (cut_at self.now level option) }
        ensures untried { OnOk result (has (untried_in self.now level) option ≡ true) }
        ensures can_end { IfOk result (CanShorten self.now) }
        ensures refused { IfErr result (CutRefused self.now level option) }
    {
        if !self.is_left_above(level, option) {
            // Asked for only here: it has to look for what is untried.
            return Err(self.why_not_left(level));
        }
        if !is_cut_inside(&self.branch, self.front(level), option) {
            return Err(RunnerFault::OutsideBranch);
        }
        self.cut_at(level, option)
    }

    /// Why there is no cut at an option that isn't left above the choice at a level.
    fn why_not_left(&self, level: usize) -> RunnerFault
        ensures { WhyNotLeft self.now level result }
    {
        match self.first_in(level) {
            Some(_) => RunnerFault::NotUntried,
            None => RunnerFault::NothingUntried,
        }
    }

    /// The cut at an untried option of a level; refused when out of memory alone.
    fn cut_at(&self, level: usize, option: u32) -> Result<Cut<'p>, RunnerFault>
        requires { has (untried_in self.now level) option ≡ true }
        ensures cut { Returns result (cut_at self.now level option) }
        ensures untried { OnOk result (has (untried_in self.now level) option ≡ true) }
        ensures can_end { IfOk result (CanShorten self.now) }
        ensures refused { IfErr result (CutRefused self.now level option) }
    {
        let alloc = *self.machine.state().path.allocator();
        let Ok(mut path) = Vec::from_slice(alloc, self.front(level)) else {
            return Err(RunnerFault::OutOfMemory);
        };
        let Ok(()) = path.push(option) else {
            return Err(RunnerFault::OutOfMemory);
        };
        // It is known that the search can take the path, so it isn't walked down.
        match Cut::of_path(alloc, self.machine.problem(), &path) {
            Ok(cut) => Ok(cut),
            Err(_) => Err(RunnerFault::OutOfMemory),
        }
    }

    /// Whether the branch can be ended at a cut.
    fn can_shorten(&self, cut: &Cut<'_>) -> bool
        ensures { IsTrue result ↔ CanShorten self.now cut.now }
    {
        // The problems first: only in one search can the states be compared.
        if !cut.problem().same(self.machine.problem()) {
            return false;
        }
        if !is_before(&Position::of(self.machine.state()), &cut.position()) {
            return false;
        }
        is_before(&cut.position(), &self.branch.end())
    }

    /// Ends the branch at a cut, without memory. Refused where the cut is another problem's, doesn't come after the position, or
    /// doesn't come before the branch's end; nothing has then changed, and the cut comes back.
    pub fn shorten(&mut self, cut: Cut<'p>) -> Result<(), Refused<RunnerFault, Cut<'p>>>
        ensures shortened { OnOk result (self.new ≡ ended_at self.old cut.entry) }
        ensures can { OnOk result (CanShorten self.old cut.entry) }
        ensures outside { OnErr result (CanShorten self.old cut.entry → ⊥) }
        ensures refused { IfErr result (λ r. r.fault ≡ RunnerFault.OutsideBranch) }
        ensures given_back { IfErr result (λ r. r.given ≡ cut.entry) }
        ensures unchanged { OnErr result (self.new ≡ self.old) }
    {
        if !self.can_shorten(&cut) {
            return Err(Refused {
                fault: RunnerFault::OutsideBranch,
                given: cut,
            });
        }
        self.end_at(cut);
        Ok(())
    }

    /// The same where it is known that the branch can be ended there: nothing is compared.
    pub fn end_at(&mut self, cut: Cut<'p>)
        requires { CanShorten self.old cut }
        ensures { self.new ≡ ended_at self.old cut.entry }
    {
        self.branch.hi = Some(cut);
    }
}
