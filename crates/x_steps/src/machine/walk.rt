//! Many steps at once. Here a label of the step table is a place in the code, and no choice is made where the table has none.
ghost use Rattle.std.specs.Prelude.{◌≡◌, ◌≢◌, ◌<◌, ◌≤◌, ◌+◌, ◌^◌, ◌↔◌, ◌∷◌, ◌++◌, [], ℕ, List, length, replicate, slice_index};
ghost use Rattle.std.specs.Prelude.{slice_set, IfErr, IfOk, IsErr, IsTrue};
ghost use Rattle.x_steps.specs.Walk.{OnlyMoves, IsAtCut, CountsHaveRoom, Reaches, CountsPassed, PassesNoCut, TellsLast, IsOver, IsRoundOf};
ghost use Rattle.x_steps.specs.Machine.{IsAt};
ghost use Rattle.x_steps.specs.StateView.{state_value};

use crate::event::Event;
use crate::fault::StepFault;
use crate::machine::Machine;
use crate::state::{Cursor, Label, State};
use cover_problem::Table;
use std::alloc::{AllocError, Global};

/// What a walk did: how many steps it took, and what the last of them told.
#[derive(Clone, Copy, Debug, PartialEq, Eq)]
pub struct Walk {
    pub steps: u32,
    pub event: Event,
}

/// A count of nothing for each level that a problem of so many items has.
pub fn no_counts(alloc: Global, items: u32) -> Result<Vec<u32>, AllocError>
    ensures { IfOk result (λ counts. counts.items ≡ replicate (items + 1) 0) }
{
    // The empty path is level 0, and no path has more choices than there are items.
    vec![in alloc; 0; items as usize + 1]
}

/// Whether the search only moved on.
#[inline(always)]
fn is_move(event: Event) -> bool
    ensures { IsTrue result ↔ (event ≡ Event.Moved) }
{
    matches!(event, Event::Moved)
}

/// Counts one more at a level.
#[inline(always)]
fn count_level(counts: &mut [u32], level: usize)
    requires within { level < length counts.old }
    requires room { slice_index counts.old level + 1 < 2 ^ 32 }
    ensures { counts.new ≡ slice_set counts.old level (slice_index counts.old level + 1) }
{
    counts[level] += 1;
}

/// Whether the choices are the path and then the option.
#[inline(always)]
fn are_choices(path: &[u32], option: u32, choices: &[u32]) -> bool
    ensures { IsTrue result ↔ (path.now ++ option ∷ [] ≡ choices.now) }
{
    match choices.split_last() {
        Some((last, front)) => *last == option && front == path,
        None => false,
    }
}

/// Whether the state is X5 at the last of these choices, after the others.
#[inline(always)]
fn is_at_cut(state: &State, choices: &[u32]) -> bool
    ensures { IsTrue result ↔ IsAtCut (state_value state.now) choices.now }
{
    match (state.label, state.cursor) {
        (Label::X5, Cursor::At(option)) => are_choices(&state.path, option, choices),
        _ => false,
    }
}

impl<'p, T: Table> Machine<'p, T> {
    /// Takes steps without memory: until `most` are taken, one of them came to a visit or to the end of the run, or the search
    /// stands at X5 at the last of the choices `end`, after the others; no choices stop it nowhere. To the count of each level
    /// are added the X2 states passed. Refused only at Done, which changes nothing.
    pub fn walk(&mut self, most: u32, end: &[u32], counts: &mut [u32]) -> Result<Walk, StepFault>
        requires levels { length counts.old ≡ length self.old.problem.names + 1 }
        requires room { CountsHaveRoom most counts.old }
        ensures problem { self.new.problem ≡ self.old.problem }
        ensures steps { IfOk result (λ w. Reaches self.old self.new w.steps) }
        ensures within { IfOk result (λ w. w.steps ≤ most) }
        ensures event { IfOk result (λ w. TellsLast self.old.problem self.old.state w) }
        ensures moves { IfOk result (λ w. OnlyMoves self.old.problem w.steps self.old.state) }
        ensures levels { IfOk result (λ w. CountsPassed self.old w.steps counts.old counts.new) }
        ensures before { IfOk result (λ w. PassesNoCut self.old w.steps end.now) }
        ensures stops { IfOk result (λ w. IsOver most self.new.state end.now w) }
        ensures over { IsErr result ↔ (self.old.state.label ≡ Label.Done) }
        ensures refused { IfErr result (λ fault. (fault ≡ StepFault.Done) × (self.new ≡ self.old)
            × (counts.new ≡ counts.old)) }
    {
        if let Label::Done = self.state.label {
            return Err(StepFault::Done);
        }
        let mut walk = Walk {
            steps: 0,
            event: Event::Moved,
        };
        // The walk before this one ended at a visit, so X8 comes next. It is taken before the rounds, and no round asks for this label.
        if most >= 2 && matches!(self.state.label, Label::X8) {
            walk = self.leave_and_retry();
        }
        // The cut is looked for before each round: a walk that begins at it takes no step.
        while is_move(walk.event) && walk.steps < most && !is_at_cut(&self.state, end) {
            let round = self.round(most - walk.steps, counts);
            walk = Walk {
                steps: walk.steps + round.steps,
                event: round.event,
            };
        }
        Ok(walk)
    }

    /// At least one step and at most `most`, with no X5 between them.
    #[inline(always)]
    fn round(&mut self, most: u32, counts: &mut [u32]) -> Walk
        requires goes_on { self.old.state.label ≢ Label.Done }
        requires some { 0 < most }
        requires levels { length counts.old ≡ length self.old.problem.names + 1 }
        requires room { CountsHaveRoom most counts.old }
        ensures problem { self.new.problem ≡ self.old.problem }
        ensures round { IsRoundOf most self.old self.new counts.old counts.new result }
    {
        // A long round has up to four steps. Between its ends lies no X5, so it can't pass a cut.
        match (self.state.label, self.state.cursor) {
            (Label::X5, Cursor::At(option)) if most >= 4 => self.take_and_open(option, counts),
            (Label::X5, Cursor::Past) if most >= 4 => self.close_and_retry(),
            _ => self.single(counts),
        }
    }

    /// X5 at an option: the option is taken, and the next item is opened, or there is none.
    #[inline(always)]
    fn take_and_open(&mut self, option: u32, counts: &mut [u32]) -> Walk
        requires label { self.old.state.label ≡ Label.X5 }
        requires cursor { self.old.state.cursor ≡ Cursor.At option }
        requires levels { length counts.old ≡ length self.old.problem.names + 1 }
        requires room { CountsHaveRoom 4 counts.old }
        ensures problem { self.new.problem ≡ self.old.problem }
        ensures round { IsRoundOf 4 self.old self.new counts.old counts.new result }
    {
        self.take(option);
        // After the option is on the path: the X2 state that is passed is one level deeper.
        count_level(counts, self.state.path.len());
        match self.enter() {
            Event::Moved => {
                self.plan();
                let event = self.open();
                Walk { steps: 4, event }
            }
            // A visit ends the walk, and X8 is next.
            event => Walk { steps: 2, event },
        }
    }

    /// X5 past the last option: the item is closed, and the option before it is tried again, or there is none.
    #[inline(always)]
    fn close_and_retry(&mut self) -> Walk
        requires label { self.old.state.label ≡ Label.X5 }
        requires cursor { self.old.state.cursor ≡ Cursor.Past }
        ensures problem { self.new.problem ≡ self.old.problem }
        ensures round { (counts : List ℕ) → IsRoundOf 4 self.old self.new counts counts result }
    {
        self.give_up();
        self.close();
        let rest = self.leave_and_retry();
        Walk {
            steps: 2 + rest.steps,
            event: rest.event,
        }
    }

    /// X8: the last choice is taken back, and its item's next option comes; or the search ends.
    #[inline(always)]
    fn leave_and_retry(&mut self) -> Walk
        requires { IsAt self.old Label.X8 }
        ensures problem { self.new.problem ≡ self.old.problem }
        ensures round { (counts : List ℕ) → IsRoundOf 2 self.old self.new counts counts result }
    {
        let event = self.leave();
        // X8 leads to X6 at an option, or from the empty path to Done.
        let Cursor::At(option) = self.state.cursor else {
            return Walk { steps: 1, event };
        };
        let event = self.retry(option);
        Walk { steps: 2, event }
    }

    /// One step. Inlined with what it calls, so that no call is handed the machine's address: the compiler then keeps the block's
    /// address in a register while it goes round an option.
    #[inline(always)]
    fn single(&mut self, counts: &mut [u32]) -> Walk
        requires goes_on { self.old.state.label ≢ Label.Done }
        requires levels { length counts.old ≡ length self.old.problem.names + 1 }
        requires room { CountsHaveRoom 1 counts.old }
        ensures problem { self.new.problem ≡ self.old.problem }
        ensures round { IsRoundOf 1 self.old self.new counts.old counts.new result }
    {
        // A level is counted when its X2 is left, and so once.
        if let Label::X2 = self.state.label {
            count_level(counts, self.state.path.len());
        }
        match self.step() {
            Ok(event) => Walk { steps: 1, event },
            // A step is refused only at Done.
            Err(_) => unreachable!(),
        }
    }
}
