//! A stretch of a run is counted: step by step, and at once what lies below a path that it passes as a whole.
ghost use Rattle.std.specs.Prelude.{ℕ, ◌≡◌, ◌≢◌, ◌<◌, ◌↔◌, false, true, [], List, length, OnOk, IfOk};
ghost use Rattle.shared_words.specs.Lists.{above};
ghost use Rattle.cover_problem.specs.Problem.{ProblemValue, IsProblem};
ghost use Rattle.cover_problem.specs.Covering.{active, remaining, choice};
ghost use Rattle.cover_problem.specs.Path.{taken, covered_by, IsChoice, IsValid};
ghost use Rattle.x_steps.specs.StateValue.{at};
ghost use Rattle.x_steps.specs.StateView.{state_value, IsState};
ghost use Rattle.x_steps.specs.Steps.{Fits, is_open, next, next_cursor};
ghost use Rattle.x_branches.specs.RunOrder.{ComesBefore};
ghost use Rattle.cover_counts.specs.Below.{CountsBelow};
ghost use Rattle.cover_counts.specs.Kept.{AreSoundSlots};
ghost use Rattle.cover_counts.specs.Search.{IsTableOf, IsEntered};
ghost use Rattle.cover_counts.specs.Stretch.{Counts, IsTableAt};

use crate::below::Below;
use crate::cache::Cache;
use crate::search::{count_open, enter, has_active, start};
use cover_problem::{Problem, Table};
use std::alloc::AllocError;
use std::cmp::Ordering;
use x_branches::run_order;
use x_steps::{Cursor, Label, State};

/// Goes to this step, with the same path.
fn turn(state: &mut State, label: Label, cursor: Cursor)
    ensures { state_value state.new ≡ at label (state_value state.old).path cursor }
{
    state.label = label;
    state.cursor = cursor;
}

/// The cursor at an option, or past the last one.
fn cursor_at(option: Option<u32>) -> Cursor
    ensures { result ≡ next_cursor option }
{
    match option {
        Some(option) => Cursor::At(option),
        None => Cursor::Past,
    }
}

/// Covers the items of an option with which the path goes on.
fn go_down<T: Table>(table: &mut T, problem: &Problem, option: u32)
    requires at { IsTableOf problem.now (T.problem_value table.old) (T.covered_list table.old) }
    requires choice { IsChoice problem.now (T.covered_list table.old) option }
    ensures at { IsTableOf problem.now (T.problem_value table.new) (T.covered_list table.new) }
    ensures covered { T.covered_list table.new ≡ taken problem.now (T.covered_list table.old) option }
{
    let item = table.choose();
    enter(table, problem, item, option);
}

/// Covers the items of a path.
pub(crate) fn go_down_all<T: Table>(table: &mut T, problem: &Problem, path: &[u32])
    requires at { IsTableOf problem.now (T.problem_value table.old) (T.covered_list table.old) }
    requires none { T.covered_list table.old ≡ [] }
    requires valid { IsValid problem.now path.now }
    ensures at { IsTableOf problem.now (T.problem_value table.new) (T.covered_list table.new) }
    ensures covered { T.covered_list table.new ≡ covered_by problem.now path.now }
{
    for option in path {
        go_down(table, problem, *option);
    }
}

/// Uncovers the items of an option that was taken last.
fn go_up<T: Table>(table: &mut T, problem: &Problem, option: u32)
    requires at { IsTableOf problem.now (T.problem_value table.old) (T.covered_list table.old) }
    requires behind { (c : List ℕ) × IsEntered problem.now c (T.covered_list table.old) (choice problem.now c) option }
    ensures at { IsTableOf problem.now (T.problem_value table.new) (T.covered_list table.new) }
    ensures back { (c : List ℕ) → IsEntered problem.now c (T.covered_list table.old) (choice problem.now c) option
        → T.covered_list table.new ≡ c }
{
    table.uncover_last(problem.option(option).len());
}

/// The cursor at the first option of the chosen item.
fn first_cursor<T: Table>(table: &T, problem: &Problem) -> Cursor
    requires at { IsTableOf problem.now (T.problem_value table.now) (T.covered_list table.now) }
    requires open { 0 < length (active problem.now (T.covered_list table.now)) }
    ensures { result ≡ next_cursor (above 0 (remaining problem.now (T.covered_list table.now)
        (choice problem.now (T.covered_list table.now)))) }
{
    let item = table.choose();
    cursor_at(table.first_option(item))
}

/// The cursor at the chosen item's option after this one.
fn later_cursor<T: Table>(table: &T, problem: &Problem, option: u32) -> Cursor
    requires at { IsTableOf problem.now (T.problem_value table.now) (T.covered_list table.now) }
    requires choice { IsChoice problem.now (T.covered_list table.now) option }
    ensures { result ≡ next_cursor (above option (remaining problem.now (T.covered_list table.now)
        (choice problem.now (T.covered_list table.now)))) }
{
    let item = table.choose();
    cursor_at(table.next_option(item, option))
}

/// From X2 to X3, or to X8 if no item is active.
fn enter_level<T: Table>(table: &T, problem: &Problem, state: &mut State)
    requires stands { IsTableAt problem.now (T.problem_value table.now) (T.covered_list table.now) (state_value state.old) }
    requires label { state.old.label ≡ Label.X2 }
    ensures { state_value state.new ≡ next problem.now (state_value state.old) }
{
    if has_active(table) {
        turn(state, Label::X3, Cursor::None);
    } else {
        turn(state, Label::X8, Cursor::None);
    }
}

/// From X4 to X5 at the first option.
fn open_options<T: Table>(table: &T, problem: &Problem, state: &mut State)
    requires stands { IsTableAt problem.now (T.problem_value table.now) (T.covered_list table.now) (state_value state.old) }
    requires label { state.old.label ≡ Label.X4 }
    ensures { state_value state.new ≡ next problem.now (state_value state.old) }
{
    let cursor = first_cursor(table, problem);
    turn(state, Label::X5, cursor);
}

/// From X5 at an option to X2 with that option as the path's last.
fn take<T: Table>(
    table: &mut T,
    problem: &Problem,
    state: &mut State,
    option: u32,
) -> Result<(), AllocError>
    requires stands { IsTableAt problem.now (T.problem_value table.old) (T.covered_list table.old) (state_value state.old) }
    requires label { state.old.label ≡ Label.X5 }
    requires cursor { state.old.cursor ≡ Cursor.At option }
    ensures stands { OnOk result
        (IsTableAt problem.now (T.problem_value table.new) (T.covered_list table.new) (state_value state.new)) }
    ensures next { OnOk result (state_value state.new ≡ next problem.now (state_value state.old)) }
{
    go_down(table, problem, option);
    state.path.push(option)?;
    turn(state, Label::X2, Cursor::None);
    Ok(())
}

/// From X6 at an option to X5 at the next one.
fn go_on<T: Table>(table: &T, problem: &Problem, state: &mut State, option: u32)
    requires stands { IsTableAt problem.now (T.problem_value table.now) (T.covered_list table.now) (state_value state.old) }
    requires label { state.old.label ≡ Label.X6 }
    requires cursor { state.old.cursor ≡ Cursor.At option }
    ensures { state_value state.new ≡ next problem.now (state_value state.old) }
{
    let cursor = later_cursor(table, problem, option);
    turn(state, Label::X5, cursor);
}

/// From X8 to X6 at the path's last option, which is taken back; or to Done if there is none.
fn take_back<T: Table>(table: &mut T, problem: &Problem, state: &mut State)
    requires stands { IsTableAt problem.now (T.problem_value table.old) (T.covered_list table.old) (state_value state.old) }
    requires label { state.old.label ≡ Label.X8 }
    ensures stands { IsTableAt problem.now (T.problem_value table.new) (T.covered_list table.new) (state_value state.new) }
    ensures next { state_value state.new ≡ next problem.now (state_value state.old) }
{
    match state.path.pop() {
        Some(option) => {
            go_up(table, problem, option);
            turn(state, Label::X6, Cursor::At(option));
        }
        None => turn(state, Label::Done, Cursor::None),
    }
}

/// Takes the step that is about to be done.
fn step<T: Table>(table: &mut T, problem: &Problem, state: &mut State) -> Result<(), AllocError>
    requires stands { IsTableAt problem.now (T.problem_value table.old) (T.covered_list table.old) (state_value state.old) }
    requires goes_on { state.old.label ≢ Label.Done }
    ensures stands { OnOk result
        (IsTableAt problem.now (T.problem_value table.new) (T.covered_list table.new) (state_value state.new)) }
    ensures next { OnOk result (state_value state.new ≡ next problem.now (state_value state.old)) }
{
    match (state.label, state.cursor) {
        (Label::X1, _) => turn(state, Label::X2, Cursor::None),
        (Label::X2, _) => enter_level(table, problem, state),
        (Label::X3, _) => turn(state, Label::X4, Cursor::None),
        (Label::X4, _) => open_options(table, problem, state),
        (Label::X5, Cursor::At(option)) => return take(table, problem, state, option),
        (Label::X5, Cursor::Past) => turn(state, Label::X7, Cursor::None),
        (Label::X6, Cursor::At(option)) => go_on(table, problem, state, option),
        (Label::X7, _) => turn(state, Label::X8, Cursor::None),
        (Label::X8, _) => take_back(table, problem, state),
        // X5 and X6 have no other cursor, and Done isn't left, as `requires` says.
        (Label::X5, _) | (Label::X6, _) | (Label::Done, _) => unreachable!(),
    }
    Ok(())
}

/// Whether all that lies below the path of an X2 comes before the end.
fn is_passed(state: &mut State, end: &State) -> bool
    requires { state.old.label ≡ Label.X2 }
    ensures same { state_value state.new ≡ at Label.X2 (state_value state.old).path Cursor.None }
    ensures passed { (p : ProblemValue) → Fits p (at Label.X8 (state_value state.old).path Cursor.None) → IsState p end.now
        → ((result ≡ false) ↔ ComesBefore p (state_value end.now) (at Label.X8 (state_value state.old).path Cursor.None)) }
{
    turn(state, Label::X8, Cursor::None);
    let order = run_order(state, end);
    turn(state, Label::X2, Cursor::None);
    match order {
        Ordering::Greater => false,
        _ => true,
    }
}

/// What lies below the covered items.
fn below_here<T: Table>(
    table: &mut T,
    problem: &Problem,
    cache: &mut Cache,
) -> Result<Below, AllocError>
    requires at { IsTableOf problem.now (T.problem_value table.old) (T.covered_list table.old) }
    requires kept { AreSoundSlots problem.now cache.old.places.items }
    ensures at { OnOk result (IsTableOf problem.now (T.problem_value table.new) (T.covered_list table.new)) }
    ensures kept { OnOk result (AreSoundSlots problem.now cache.new.places.items) }
    ensures back { OnOk result (T.covered_list table.new ≡ T.covered_list table.old) }
    ensures below { IfOk result (CountsBelow problem.now (T.covered_list table.old)) }
{
    if !has_active(table) {
        return Below::of_visit(cache.alloc());
    }
    let first = start(cache.alloc(), table, problem)?;
    count_open(table, problem, cache, first)
}

/// From X2 to X8 of the same path, with all that lies below it.
fn leap<T: Table>(
    table: &mut T,
    problem: &Problem,
    cache: &mut Cache,
    state: &mut State,
    sum: &mut Below,
) -> Result<(), AllocError>
    requires stands { IsTableAt problem.now (T.problem_value table.old) (T.covered_list table.old) (state_value state.old) }
    requires kept { AreSoundSlots problem.now cache.old.places.items }
    requires label { state.old.label ≡ Label.X2 }
    ensures stands { OnOk result
        (IsTableAt problem.now (T.problem_value table.new) (T.covered_list table.new) (state_value state.new)) }
    ensures kept { OnOk result (AreSoundSlots problem.now cache.new.places.items) }
    ensures there { OnOk result (state_value state.new ≡ at Label.X8 (state_value state.old).path Cursor.None) }
    ensures counts { OnOk result (Counts problem.now (state_value state.old) (state_value state.new) sum.old sum.new) }
{
    let below = below_here(table, problem, cache)?;
    sum.add_at(cache.alloc(), state.path.len(), &below)?;
    turn(state, Label::X8, Cursor::None);
    Ok(())
}

/// From X2, which is counted, to X3. An item is active.
fn open_level<T: Table>(
    table: &mut T,
    problem: &Problem,
    cache: &Cache,
    state: &mut State,
    sum: &mut Below,
) -> Result<(), AllocError>
    requires stands { IsTableAt problem.now (T.problem_value table.old) (T.covered_list table.old) (state_value state.old) }
    requires label { state.old.label ≡ Label.X2 }
    requires open { is_open problem.now (state_value state.old).path ≡ true }
    ensures stands { OnOk result
        (IsTableAt problem.now (T.problem_value table.new) (T.covered_list table.new) (state_value state.new)) }
    ensures next { OnOk result (state_value state.new ≡ next problem.now (state_value state.old)) }
    ensures counts { OnOk result (Counts problem.now (state_value state.old) (state_value state.new) sum.old sum.new) }
{
    let below = Below::of_state(cache.alloc())?;
    sum.add_at(cache.alloc(), state.path.len(), &below)?;
    step(table, problem, state)
}

/// From X2 to X8 of the same path if all that lies below it comes before the end, and otherwise to X3.
fn pass_level<T: Table>(
    table: &mut T,
    problem: &Problem,
    cache: &mut Cache,
    state: &mut State,
    end: &State,
    sum: &mut Below,
) -> Result<(), AllocError>
    requires stands { IsTableAt problem.now (T.problem_value table.old) (T.covered_list table.old) (state_value state.old) }
    requires kept { AreSoundSlots problem.now cache.old.places.items }
    requires label { state.old.label ≡ Label.X2 }
    requires end { IsState problem.now end.now }
    requires before { ComesBefore problem.now (state_value state.old) (state_value end.now) }
    ensures stands { OnOk result
        (IsTableAt problem.now (T.problem_value table.new) (T.covered_list table.new) (state_value state.new)) }
    ensures kept { OnOk result (AreSoundSlots problem.now cache.new.places.items) }
    ensures on { OnOk result (ComesBefore problem.now (state_value state.old) (state_value state.new)) }
    ensures not_past { OnOk result (ComesBefore problem.now (state_value end.now) (state_value state.new) → ⊥) }
    ensures counts { OnOk result (Counts problem.now (state_value state.old) (state_value state.new) sum.old sum.new) }
{
    if is_passed(state, end) {
        leap(table, problem, cache, state, sum)
    } else {
        open_level(table, problem, cache, state, sum)
    }
}

/// Goes on: from X2 to X8 of the same path if all that lies below it comes before the end, and otherwise by a step.
fn advance<T: Table>(
    table: &mut T,
    problem: &Problem,
    cache: &mut Cache,
    state: &mut State,
    end: &State,
    sum: &mut Below,
) -> Result<(), AllocError>
    requires stands { IsTableAt problem.now (T.problem_value table.old) (T.covered_list table.old) (state_value state.old) }
    requires kept { AreSoundSlots problem.now cache.old.places.items }
    requires end { IsState problem.now end.now }
    requires before { ComesBefore problem.now (state_value state.old) (state_value end.now) }
    ensures stands { OnOk result
        (IsTableAt problem.now (T.problem_value table.new) (T.covered_list table.new) (state_value state.new)) }
    ensures kept { OnOk result (AreSoundSlots problem.now cache.new.places.items) }
    ensures on { OnOk result (ComesBefore problem.now (state_value state.old) (state_value state.new)) }
    ensures not_past { OnOk result (ComesBefore problem.now (state_value end.now) (state_value state.new) → ⊥) }
    ensures counts { OnOk result (Counts problem.now (state_value state.old) (state_value state.new) sum.old sum.new) }
{
    match state.label {
        Label::X2 => pass_level(table, problem, cache, state, end, sum),
        _ => step(table, problem, state),
    }
}

/// Counts what a search passes from a state on, up to the end.
pub(crate) fn count_to<T: Table>(
    table: &mut T,
    problem: &Problem,
    cache: &mut Cache,
    state: &mut State,
    end: &State,
    sum: &mut Below,
) -> Result<(), AllocError>
    requires stands { IsTableAt problem.now (T.problem_value table.old) (T.covered_list table.old) (state_value state.old) }
    requires kept { AreSoundSlots problem.now cache.old.places.items }
    requires end { IsState problem.now end.now }
    requires not_past { ComesBefore problem.now (state_value end.now) (state_value state.old) → ⊥ }
    ensures counts { OnOk result (Counts problem.now (state_value state.old) (state_value end.now) sum.old sum.new) }
{
    while !state.same(end) {
        advance(table, problem, cache, state, end, sum)?;
    }
    Ok(())
}
