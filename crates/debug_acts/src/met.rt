//! Which breakpoint a state meets.
ghost use Rattle.std.specs.Prelude.{◌≡◌, ◌||◌};
ghost use Rattle.std.specs.List.{find, list_any};
ghost use Rattle.shared_words.specs.Answers.{Returns};
ghost use Rattle.x_texts.specs.Breaks.{is_same};
ghost use Rattle.debug_acts.specs.Breakpoints.{first_met, is_item_break};

use cover_problem::Table;
use indexmap::IndexSet;
use std::alloc::AllocError;
use x_branches::Runner;
use x_steps::{Cursor, Label};
use x_texts::Break;

/// Whether two breakpoints are the same.
fn is_same(one: Break, other: Break) -> bool
    ensures { result ≡ is_same one other }
{
    one == other
}

/// A breakpoint, if it was set. A search by hand has few of them: to look at each is cheaper than a hash.
fn if_set(breaks: &IndexSet<Break>, breakpoint: Break) -> Option<Break>
    ensures { result ≡ find (is_same breakpoint) breaks.now.keys }
{
    breaks
        .as_slice()
        .iter()
        .copied()
        .find(|it| is_same(breakpoint, *it))
}

/// The one of two breakpoints that was set first, of those that were set.
fn first_set(breaks: &IndexSet<Break>, one: Break, other: Break) -> Option<Break>
    ensures { result ≡ find (λ b. is_same one b || is_same other b) breaks.now.keys }
{
    breaks
        .as_slice()
        .iter()
        .copied()
        .find(|it| is_same(one, *it) || is_same(other, *it))
}

/// Whether a breakpoint is the choice of an item.
fn is_item(breakpoint: Break) -> bool
    ensures { result ≡ is_item_break breakpoint }
{
    match breakpoint {
        Break::Item(_) => true,
        _ => false,
    }
}

/// Whether the choice of an item is one of the breakpoints.
fn has_item(breaks: &[Break]) -> bool
    ensures { result ≡ list_any is_item_break breaks.now }
{
    breaks.iter().any(|breakpoint| is_item(*breakpoint))
}

/// The breakpoint that a runner's state meets at X4. It takes memory where the choice of an item is one.
fn met_at_choice<T: Table>(
    breaks: &IndexSet<Break>,
    runner: &Runner<'_, T>,
) -> Result<Option<Break>, AllocError>
    requires { runner.now.position.label ≡ Label.X4 }
    ensures { Returns result (first_met runner.now.problem breaks.now.keys runner.now.position) }
{
    // Finding the chosen item takes memory and a look at each active one.
    if !has_item(breaks.as_slice()) {
        return Ok(None);
    }
    let Some((item, _)) = runner.chosen()? else {
        // At X4 an item is chosen.
        unreachable!()
    };
    Ok(if_set(breaks, Break::Item(item)))
}

/// The first breakpoint that a runner's state meets, in the order in which they were set. It takes memory at X4 alone, and where the
/// choice of an item is one of them.
pub(crate) fn first_met<T: Table>(
    breaks: &IndexSet<Break>,
    runner: &Runner<'_, T>,
) -> Result<Option<Break>, AllocError>
    ensures { Returns result (first_met runner.now.problem breaks.now.keys runner.now.position) }
{
    if breaks.is_empty() {
        return Ok(None);
    }
    let state = runner.state();
    match (state.label, state.cursor) {
        (Label::X2, _) => {
            let level = Break::Level(state.path.len() as u32);
            if runner.is_visit() {
                Ok(first_set(breaks, level, Break::Visit))
            } else {
                Ok(if_set(breaks, level))
            }
        }
        (Label::X4, _) => met_at_choice(breaks, runner),
        (Label::X5, Cursor::At(option)) => Ok(if_set(breaks, Break::Option(option))),
        // No kind of breakpoint is of another state.
        _ => Ok(None),
    }
}
