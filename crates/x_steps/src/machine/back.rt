//! The machine, backwards: each method goes from one step of the table to the step before it.
ghost use Rattle.std.specs.Prelude.{◌≡◌, ◌≢◌, ◌↔◌, ℕ, OnOk, IsErr};
ghost use Rattle.shared_words.specs.Lists.{below, last_of};
ghost use Rattle.shared_words.specs.Answers.{RefusedUnchanged};
ghost use Rattle.x_steps.specs.Steps.{remaining_after};
ghost use Rattle.x_steps.specs.Before.{came_from};
ghost use Rattle.x_steps.specs.Steps.{IsBefore};
ghost use Rattle.x_steps.specs.Machine.{IsAt, GoesBack, state_before};

use crate::covering::has_active;
use crate::fault::StepFault;
use crate::machine::Machine;
use crate::state::{Cursor, Label};
use cover_problem::{Table, push_within};

impl<'p, T: Table> Machine<'p, T> {
    /// Takes the last step back, without memory; refused only at X1, which changes nothing.
    #[inline]
    pub fn back(&mut self) -> Result<(), StepFault>
        ensures problem { self.new.problem ≡ self.old.problem }
        ensures state { OnOk result (self.new.state ≡ state_before self.old) }
        ensures before { OnOk result (IsBefore self.old.problem self.new.state self.old.state) }
        ensures first { IsErr result ↔ (self.old.state.label ≡ Label.X1) }
        ensures refused { RefusedUnchanged result StepFault.AtFirst self.old self.new }
    {
        match (self.state.label, self.state.cursor) {
            (Label::X1, _) => return Err(StepFault::AtFirst),
            (Label::X2, _) => self.unenter(),
            (Label::X3, _) => self.unplan(),
            (Label::X4, _) => self.unopen(),
            (Label::X5, Cursor::At(option)) => self.reconsider(option),
            (Label::X5, _) => self.reconsider_last(),
            (Label::X6, Cursor::At(option)) => self.retake(option),
            // As in `step`: no such state fits.
            (Label::X6, _) => unreachable!(),
            (Label::X7, _) => self.unclose(),
            (Label::X8, _) => self.unleave(),
            (Label::Done, _) => self.unend(),
        }
        Ok(())
    }

    /// Before X2: the last option of the path is at hand again, or the search has not begun.
    pub(super) fn unenter(&mut self)
        requires { IsAt self.old Label.X2 }
        ensures { GoesBack self.old self.new }
    {
        match self.state.path.pop() {
            None => self.state.go(Label::X1, Cursor::None),
            Some(option) => {
                // At X5 the chosen item is covered, and no other item of the option.
                let others = self.problem.option(option).len() - 1;
                self.table.uncover_last(others);
                self.state.go(Label::X5, Cursor::At(option));
            }
        }
    }

    /// Before X3: X2.
    fn unplan(&mut self)
        requires { IsAt self.old Label.X3 }
        ensures { GoesBack self.old self.new }
    {
        self.state.go(Label::X2, Cursor::None);
    }

    /// Before X4: X3.
    fn unopen(&mut self)
        requires { IsAt self.old Label.X4 }
        ensures { GoesBack self.old self.new }
    {
        self.state.go(Label::X3, Cursor::None);
    }

    /// Before X5 at an option: the option before it was left, or the item was chosen.
    fn reconsider(&mut self, option: u32)
        requires label { IsAt self.old Label.X5 }
        requires cursor { self.old.state.cursor ≡ Cursor.At option }
        ensures { GoesBack self.old self.new }
    {
        let before = self.option_before(option);
        self.return_to(before);
    }

    /// Before X5 past the last option: that option was left, or the item was chosen and has none.
    fn reconsider_last(&mut self)
        requires label { IsAt self.old Label.X5 }
        requires cursor { (o : ℕ) → self.old.state.cursor ≢ Cursor.At o }
        ensures { GoesBack self.old self.new }
    {
        let before = self.last_left();
        self.return_to(before);
    }

    /// The option before this one, of those left for the chosen item.
    fn option_before(&self, option: u32) -> Option<u32>
        requires label { IsAt self.now Label.X5 }
        requires cursor { self.now.state.cursor ≡ Cursor.At option }
        ensures { result ≡ below option (remaining_after self.now.problem self.now.state.path) }
    {
        let item = self.table.last_covered();
        self.table.prev_option(item, option)
    }

    /// The last of the options left for the chosen item.
    fn last_left(&self) -> Option<u32>
        requires { IsAt self.now Label.X5 }
        ensures { result ≡ last_of (remaining_after self.now.problem self.now.state.path) }
    {
        let item = self.table.last_covered();
        self.table.last_option(item)
    }

    /// From X5 to X6 at the option before, whose other items are covered again, or to X4, where the chosen item is not covered.
    fn return_to(&mut self, before: Option<u32>)
        requires label { IsAt self.old Label.X5 }
        requires came { state_before self.old ≡ came_from self.old.state.path before }
        ensures { GoesBack self.old self.new }
    {
        let item = self.table.last_covered();
        match before {
            None => {
                // Nothing was tried before, so this X5 came from X4, which covered the item.
                self.table.uncover(item);
                self.state.go(Label::X4, Cursor::None);
            }
            Some(option) => {
                // The option before was taken and left again: at X6 its other items are still covered.
                self.table.cover_others(self.problem.option(option), item);
                self.state.go(Label::X6, Cursor::At(option));
            }
        }
    }

    /// Before X6: X8 with the option as the path's last.
    pub(super) fn retake(&mut self, option: u32)
        requires label { IsAt self.old Label.X6 }
        requires cursor { self.old.state.cursor ≡ Cursor.At option }
        ensures { GoesBack self.old self.new }
    {
        push_within(&mut self.state.path, option);
        self.state.go(Label::X8, Cursor::None);
    }

    /// Before X7: X5 past the last option.
    fn unclose(&mut self)
        requires { IsAt self.old Label.X7 }
        ensures { GoesBack self.old self.new }
    {
        self.state.go(Label::X5, Cursor::Past);
    }

    /// Before X8: X7, where the chosen item is covered again, or X2, where no item was active.
    fn unleave(&mut self)
        requires { IsAt self.old Label.X8 }
        ensures { GoesBack self.old self.new }
    {
        // The table tells where X8 came from: X2 goes there only where no item is active.
        if has_active(&self.table) {
            // The same items are covered as at X4, so the same one is chosen.
            let item = self.table.choose();
            self.table.cover(item);
            self.state.go(Label::X7, Cursor::None);
        } else {
            self.state.go(Label::X2, Cursor::None);
        }
    }

    /// Before Done: X8 with the empty path.
    fn unend(&mut self)
        requires { IsAt self.old Label.Done }
        ensures { GoesBack self.old self.new }
    {
        self.state.go(Label::X8, Cursor::None);
    }
}
