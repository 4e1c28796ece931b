//! The machine: a state, and a table that stands for what is covered there.
ghost use Rattle.std.specs.Prelude.{◌≡◌, ◌<◌, ◌≤◌, ◌++◌, ◌∷◌, ◌↔◌, [], length, vec_len, vec_capacity, if◌then◌else◌, ℕ, ◌≢◌, IfOk, IfErr};
ghost use Rattle.std.specs.Prelude.{OnOk, IsErr};
ghost use Rattle.cover_problem.specs.Problem.{IsProblem};
ghost use Rattle.shared_words.specs.Answers.{RefusedUnchanged};
ghost use Rattle.x_steps.specs.StateValue.{start};
ghost use Rattle.x_steps.specs.StateView.{state_value};
ghost use Rattle.x_steps.specs.Steps.{Fits, covered_in, next, event_of, next_cursor};
ghost use Rattle.x_steps.specs.Machine.{IsAt, Goes, item_to_choose};

mod at;
mod back;
mod moving;
mod read;
mod walk;

use crate::covering::has_active;
use crate::event::Event;
use crate::fault::StepFault;
use crate::state::{Cursor, Label, State};
use cover_problem::{Problem, Table, push_within};
use std::alloc::Global;
use std::marker::Model;
pub use walk::{Walk, no_counts};

/// At the option, or past the last.
#[inline(always)]
fn cursor_at(option: Option<u32>) -> Cursor
    ensures { result ≡ next_cursor option }
{
    match option {
        Some(option) => Cursor::At(option),
        None => Cursor::Past,
    }
}

/// The step after X2, by whether an item is active.
#[inline(always)]
fn label_entered(entered: bool) -> Label
    ensures { result ≡ (if entered then Label.X3 else Label.X8) }
{
    if entered { Label::X3 } else { Label::X8 }
}

/// What X2 tells.
#[inline(always)]
fn event_entered(entered: bool) -> Event
    ensures { result ≡ (if entered then Event.Moved else Event.Visited) }
{
    if entered {
        Event::Moved
    } else {
        Event::Visited
    }
}

/// A search that is taken step by step: a problem, a state of its run, and a table that stands for the items covered there.
#[derive(Drop)]
pub struct Machine<'p, T: Table> {
    problem: &'p Problem,
    /// Its list of covered items is always that of the state.
    table: T,
    /// Its path has room for a choice of each item, so that no step takes memory.
    state: State,
}

impl<'p, T: Table> Model for Machine<'p, T> {
    ghost use Rattle.std.specs.Prelude.{vec_capacity};
    ghost use Rattle.x_steps.specs.Machine.{MachineValue, Keeps};

    ghost Value = { MachineValue };

    ghost use Rattle.x_steps.specs.StateView.{state_value};

    ghost view = { λ m. record { problem = m.problem.now; state = state_value m.state } };

    ghost invariant = { λ m. Keeps m.problem.now (state_value m.state) (T.problem_value m.table) (T.covered_list m.table)
        (vec_capacity m.state.path) };
}

impl<'p, T: Table> Machine<'p, T> {
    /// The machine at X1. Refused only when out of memory, and then the table comes back.
    pub fn new(alloc: Global, problem: &'p Problem, table: T) -> Result<Machine<'p, T>, T>
        requires same_problem { T.problem_value table ≡ problem.now }
        requires covered { T.covered_list table ≡ [] }
        ensures at_first { IfOk result (λ m. m ≡ record { problem = problem.now; state = start }) }
        ensures given_back { IfErr result (λ t. t ≡ table) }
    {
        // Each choice covers an item that no other one does, so no path is longer.
        match Vec::with_capacity(alloc, problem.items() as usize) {
            Ok(path) => Ok(Machine {
                problem,
                table,
                state: State {
                    label: Label::X1,
                    path,
                    cursor: Cursor::None,
                },
            }),
            Err(_) => Err(table),
        }
    }

    /// The problem that is searched.
    pub fn problem(&self) -> &'p Problem
        ensures { result.now ≡ self.now.problem }
    {
        self.problem
    }

    /// Where the search stands.
    pub fn state(&self) -> &State
        ensures state { state_value result.now ≡ self.now.state }
        ensures fits { Fits self.now.problem self.now.state }
        ensures problem { IsProblem self.now.problem }
    {
        &self.state
    }

    /// The table, which stands for the items covered at the state.
    pub fn table(&self) -> &T
        ensures same_problem { T.problem_value result.now ≡ self.now.problem }
        ensures covered { T.covered_list result.now ≡ covered_in self.now.problem self.now.state }
    {
        &self.table
    }

    /// Gives the table back with nothing covered, without memory.
    pub fn into_table(self) -> T
        ensures same_problem { T.problem_value result ≡ self.entry.problem }
        ensures covered { T.covered_list result ≡ [] }
    {
        let Machine {
            problem: _,
            mut table,
            state: _,
        } = self;
        let count = table.covered().len();
        // The table's own list is all that has to be taken back, at whichever step the search stands.
        table.uncover_last(count);
        table
    }

    /// Takes one step of the table X1 to X8, without memory; refused only at Done, which changes nothing.
    #[inline(always)]
    pub fn step(&mut self) -> Result<Event, StepFault>
        ensures problem { self.new.problem ≡ self.old.problem }
        ensures state { OnOk result (self.new.state ≡ next self.old.problem self.old.state) }
        ensures event { IfOk result (λ event. event ≡ event_of self.old.problem self.old.state) }
        ensures over { IsErr result ↔ (self.old.state.label ≡ Label.Done) }
        ensures refused { RefusedUnchanged result StepFault.Done self.old self.new }
    {
        let event = match (self.state.label, self.state.cursor) {
            (Label::X1, _) => self.begin(),
            (Label::X2, _) => self.enter(),
            (Label::X3, _) => self.plan(),
            (Label::X4, _) => self.open(),
            (Label::X5, Cursor::At(option)) => self.take(option),
            // The cursor is past the last option here: at X5 it is never none.
            (Label::X5, _) => self.give_up(),
            (Label::X6, Cursor::At(option)) => self.retry(option),
            // A state that fits is at an option at X6.
            (Label::X6, _) => unreachable!(),
            (Label::X7, _) => self.close(),
            (Label::X8, _) => self.leave(),
            (Label::Done, _) => return Err(StepFault::Done),
        };
        Ok(event)
    }

    /// X1: the search begins.
    fn begin(&mut self) -> Event
        requires { IsAt self.old Label.X1 }
        ensures { Goes self.old self.new result }
    {
        self.state.go(Label::X2, Cursor::None);
        Event::Moved
    }

    /// X2: whether an item is active.
    #[inline(always)]
    fn enter(&mut self) -> Event
        requires { IsAt self.old Label.X2 }
        ensures { Goes self.old self.new result }
    {
        let open = has_active(&self.table);
        self.state.go(label_entered(open), Cursor::None);
        event_entered(open)
    }

    /// X3: the next step covers the item.
    #[inline(always)]
    fn plan(&mut self) -> Event
        requires { IsAt self.old Label.X3 }
        ensures { Goes self.old self.new result }
    {
        // A state has no place for the chosen item, so X4 chooses it.
        self.state.go(Label::X4, Cursor::None);
        Event::Moved
    }

    /// X4: the chosen item is covered, and its first option comes.
    #[inline(always)]
    fn open(&mut self) -> Event
        requires { IsAt self.old Label.X4 }
        ensures { Goes self.old self.new result }
    {
        let item = self.table.choose();
        self.open_list(item)
    }

    /// The same where the item that is chosen is known.
    #[inline(always)]
    fn open_list(&mut self, item: u32) -> Event
        requires label { IsAt self.old Label.X4 }
        requires item { item ≡ item_to_choose self.old }
        ensures { Goes self.old self.new result }
    {
        // A covered item keeps its list of options, so the first can be asked for after it.
        self.table.cover(item);
        let cursor = cursor_at(self.table.first_option(item));
        self.state.go(Label::X5, cursor);
        Event::Moved
    }

    /// X5: the option is taken.
    #[inline(always)]
    fn take(&mut self, option: u32) -> Event
        requires label { IsAt self.old Label.X5 }
        requires cursor { self.old.state.cursor ≡ Cursor.At option }
        ensures { Goes self.old self.new result }
    {
        // At X5 the chosen item is the one covered last.
        let item = self.table.last_covered();
        self.table.cover_others(self.problem.option(option), item);
        // There is room for it, so this takes no memory.
        push_within(&mut self.state.path, option);
        self.state.go(Label::X2, Cursor::None);
        Event::Moved
    }

    /// X5 past the last option.
    #[inline(always)]
    fn give_up(&mut self) -> Event
        requires label { IsAt self.old Label.X5 }
        requires cursor { (o : ℕ) → self.old.state.cursor ≢ Cursor.At o }
        ensures { Goes self.old self.new result }
    {
        self.state.go(Label::X7, Cursor::None);
        Event::Moved
    }

    /// X6: the option's other items are uncovered, and the item's next option comes.
    #[inline(always)]
    fn retry(&mut self, option: u32) -> Event
        requires label { IsAt self.old Label.X6 }
        requires cursor { self.old.state.cursor ≡ Cursor.At option }
        ensures { Goes self.old self.new result }
    {
        // All items of the option but the chosen one, which stays covered up to X7.
        let others = self.problem.option(option).len() - 1;
        self.table.uncover_last(others);
        let item = self.table.last_covered();
        let cursor = cursor_at(self.table.next_option(item, option));
        self.state.go(Label::X5, cursor);
        Event::Moved
    }

    /// X7: the item is uncovered.
    #[inline(always)]
    fn close(&mut self) -> Event
        requires { IsAt self.old Label.X7 }
        ensures { Goes self.old self.new result }
    {
        let item = self.table.last_covered();
        self.table.uncover(item);
        self.state.go(Label::X8, Cursor::None);
        Event::Moved
    }

    /// X8: the last choice is taken back, or the search ends.
    #[inline(always)]
    fn leave(&mut self) -> Event
        requires { IsAt self.old Label.X8 }
        ensures { Goes self.old self.new result }
    {
        match self.state.path.pop() {
            None => {
                self.state.go(Label::Done, Cursor::None);
                Event::Finished
            }
            Some(option) => {
                self.state.go(Label::X6, Cursor::At(option));
                Event::Moved
            }
        }
    }
}
