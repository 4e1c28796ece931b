//! A machine goes to another state of its search: up its path to where the two paths part, and down the other one from there.
ghost use Rattle.std.specs.Prelude.{◌≡◌, ◌≢◌, ◌<◌, ◌≤◌, ◌-◌, ◌++◌, length, take};
ghost use Rattle.cover_problem.specs.Path.{IsValid};
ghost use Rattle.x_steps.specs.StateView.{state_value, IsState};
ghost use Rattle.x_steps.specs.Steps.{IsOpen};
ghost use Rattle.x_steps.specs.Machine.{IsAt};
ghost use Rattle.x_steps.specs.Resume.{standing_at, at_step, HasStep, longer_by, IsOnPath, IsOnItsPath};

use crate::covering::chosen_of;
use crate::machine::Machine;
use crate::paths::shared;
use crate::state::{Cursor, Label, State};
use cover_problem::Table;

impl<'p, T: Table> Machine<'p, T> {
    /// Goes to another state of the search, without memory: what is covered at both stays covered, and the rest is uncovered and
    /// covered in the order of the search.
    pub fn move_to(&mut self, state: &State)
        requires { IsState self.old.problem state.now }
        ensures { self.new ≡ standing_at self.old (state_value state.now) }
    {
        // First to a step where the path tells what is covered, but for the item chosen after it.
        self.stand_on_path();
        // Only from where they part: the choices that both paths share are not touched.
        let level = shared(&self.state.path, &state.path);
        self.rise_to(level);
        let (_, rest) = state.path.split_at(level);
        self.go_down_all(rest);
        self.arrive(state.label, state.cursor);
    }

    /// Stands on its path, where the same items are covered.
    fn stand_on_path(&mut self)
        ensures on { IsOnItsPath self.new }
        ensures problem { self.new.problem ≡ self.old.problem }
    {
        match (self.state.label, self.state.cursor) {
            // At X5 and X7 the chosen item is covered too; which option came is of no interest here.
            (Label::X5, _) => self.turn(Label::X5, Cursor::Past),
            (Label::X7, _) => self.turn(Label::X5, Cursor::Past),
            // Its items are covered, so it counts as a choice: the way may lead on below it.
            (Label::X6, Cursor::At(option)) => self.retake_choice(option),
            (Label::X6, _) => unreachable!(),
            _ => self.turn(Label::X2, Cursor::None),
        }
    }

    /// From X6 to X2 with the option as the path's last.
    fn retake_choice(&mut self, option: u32)
        requires label { IsAt self.old Label.X6 }
        requires cursor { self.old.state.cursor ≡ Cursor.At option }
        requires fits { HasStep self.old Label.X6 (Cursor.At option) }
        ensures { self.new ≡ longer_by self.old option }
    {
        self.retake(option);
        self.turn(Label::X2, Cursor::None);
    }

    /// From X5 past the last option to X2, with the chosen item uncovered.
    fn close_item(&mut self)
        requires label { IsAt self.old Label.X5 }
        requires cursor { self.old.state.cursor ≡ Cursor.Past }
        requires valid { IsValid self.old.problem self.old.state.path }
        ensures { self.new ≡ at_step self.old Label.X2 Cursor.None }
    {
        self.give_up();
        self.close();
        self.turn(Label::X2, Cursor::None);
    }

    /// Stands at X2 on its path: the item that is chosen after it isn't covered.
    fn uncover_item(&mut self)
        requires { IsOnItsPath self.old }
        ensures { self.new ≡ at_step self.old Label.X2 Cursor.None }
    {
        match self.state.label {
            Label::X5 => self.close_item(),
            // At X2, the other step that `on` allows.
            _ => (),
        }
    }

    /// Stands at X5 on its path: the item that is chosen after it is covered.
    fn cover_item(&mut self)
        requires on { IsOnItsPath self.old }
        requires open { IsOpen self.old.problem self.old.state.path }
        ensures { self.new ≡ at_step self.old Label.X5 Cursor.Past }
    {
        match self.state.label {
            Label::X5 => (),
            _ => self.open_past(),
        }
    }

    /// Takes the last choice of its path back.
    fn rise(&mut self)
        requires on { IsOnItsPath self.old }
        requires some { 0 < length self.old.state.path }
        ensures { IsOnPath self.old.problem (take (length self.old.state.path - 1) self.old.state.path) self.new }
    {
        // The choice can only be taken back from X2.
        self.uncover_item();
        self.unenter();
        // All X5 with this path have the same items covered, so one stands for them.
        self.turn(Label::X5, Cursor::Past);
    }

    /// Takes the choices of its path from a level on back.
    fn rise_to(&mut self, level: usize)
        requires on { IsOnItsPath self.old }
        requires within { level ≤ length self.old.state.path }
        ensures { IsOnPath self.old.problem (take level self.old.state.path) self.new }
    {
        // The path gets shorter on the way, so this is counted first.
        let count = self.state.path.len() - level;
        for _ in 0..count {
            self.rise();
        }
    }

    /// Takes an option with which its path can go on.
    fn go_down(&mut self, option: u32)
        requires on { IsOnItsPath self.old }
        requires fits { HasStep self.old Label.X5 (Cursor.At option) }
        ensures { self.new ≡ longer_by self.old option }
    {
        // Nothing is tested, as the state is known to be of the search.
        self.arrive_at_option(option);
        self.take(option);
    }

    /// Goes to X5 at an option with which its path can go on.
    fn arrive_at_option(&mut self, option: u32)
        requires on { IsOnItsPath self.old }
        requires fits { HasStep self.old Label.X5 (Cursor.At option) }
        ensures { self.new ≡ at_step self.old Label.X5 (Cursor.At option) }
    {
        match self.state.label {
            Label::X5 => self.turn(Label::X5, Cursor::At(option)),
            // At X2, the other step that `on` allows. The option tells which item was chosen.
            _ => self.open_known(option),
        }
    }

    /// From X2 to X5 at an option with which its path can go on.
    fn open_known(&mut self, option: u32)
        requires label { IsAt self.old Label.X2 }
        requires fits { HasStep self.old Label.X5 (Cursor.At option) }
        ensures { self.new ≡ at_step self.old Label.X5 (Cursor.At option) }
    {
        let item = chosen_of(
            &self.table,
            self.problem.option(option),
            self.problem.primary(),
        );
        self.open_for(item, option);
    }

    /// Takes options with which its path can go on, one after the other.
    fn go_down_all(&mut self, path: &[u32])
        requires on { IsOnItsPath self.old }
        requires valid { IsValid self.old.problem (self.old.state.path ++ path.now) }
        ensures { IsOnPath self.old.problem (self.old.state.path ++ path.now) self.new }
    {
        for option in path {
            self.go_down(*option);
        }
    }

    /// Goes to a step that the search has with its path.
    fn arrive(&mut self, label: Label, cursor: Cursor)
        requires on { IsOnItsPath self.old }
        requires fits { HasStep self.old label cursor }
        ensures { self.new ≡ at_step self.old label cursor }
    {
        match (label, cursor) {
            (Label::X5, _) => self.arrive_at_options(cursor),
            (Label::X6, Cursor::At(option)) => self.arrive_after(option),
            (Label::X6, _) => unreachable!(),
            (Label::X7, _) => self.arrive_past(),
            _ => self.arrive_uncovered(label, cursor),
        }
    }

    /// Goes to X5.
    fn arrive_at_options(&mut self, cursor: Cursor)
        requires on { IsOnItsPath self.old }
        requires fits { HasStep self.old Label.X5 cursor }
        ensures { self.new ≡ at_step self.old Label.X5 cursor }
    {
        self.cover_item();
        self.turn(Label::X5, cursor);
    }

    /// Goes to X6.
    fn arrive_after(&mut self, option: u32)
        requires on { IsOnItsPath self.old }
        requires fits { HasStep self.old Label.X6 (Cursor.At option) }
        ensures { self.new ≡ at_step self.old Label.X6 (Cursor.At option) }
    {
        self.go_down(option);
        // To X6 the table leads from X8 alone.
        self.turn(Label::X8, Cursor::None);
        self.leave();
    }

    /// Goes to X7.
    fn arrive_past(&mut self)
        requires on { IsOnItsPath self.old }
        requires fits { HasStep self.old Label.X7 Cursor.None }
        ensures { self.new ≡ at_step self.old Label.X7 Cursor.None }
    {
        self.cover_item();
        self.give_up();
    }

    /// Goes to a step where the item that is chosen after the path isn't covered.
    fn arrive_uncovered(&mut self, label: Label, cursor: Cursor)
        requires on { IsOnItsPath self.old }
        requires fits { HasStep self.old label cursor }
        requires not_X5 { label ≢ Label.X5 }
        requires not_X6 { label ≢ Label.X6 }
        requires not_X7 { label ≢ Label.X7 }
        ensures { self.new ≡ at_step self.old label cursor }
    {
        self.uncover_item();
        self.turn(label, cursor);
    }
}
