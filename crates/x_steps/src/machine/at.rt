//! A machine at a given state: its path is walked down, choice by choice, each tested before it is taken.
ghost use Rattle.std.specs.Prelude.{◌≡◌, ◌<◌, ◌≤◌, ◌&&◌, ◌↔◌, [], All, true, false, length, IsTrue};
ghost use Rattle.std.specs.Prelude.{None, IfSome, OnSome, IfErr, OnOk};
ghost use Rattle.shared_words.specs.Answers.{Returns};
ghost use Rattle.shared_words.specs.Lists.{has};
ghost use Rattle.cover_problem.specs.Path.{IsValid};
ghost use Rattle.cover_problem.specs.Answers.{IfRefused};
ghost use Rattle.x_steps.specs.StateView.{state_value, IsState};
ghost use Rattle.x_steps.specs.Steps.{IsOpen};
ghost use Rattle.x_steps.specs.Machine.{IsAt, covered_items, item_to_choose};
ghost use Rattle.x_steps.specs.Flags.{none_flagged};
ghost use Rattle.x_steps.specs.Resume.{position, opened, standing_at, at_step, HasStep, IsDown, GoesDown};

use crate::covering::has_active;
use crate::fault::AtFault;
use crate::flags::{any_flagged, flag_all, no_flags};
use crate::machine::Machine;
use crate::state::{Cursor, Label, State};
use cover_problem::{Problem, Refused, Table};
use std::alloc::Global;

/// Whether the problem has an option of this number.
fn has_option(problem: &Problem, option: u32) -> bool
    ensures { IsTrue result ↔ ((0 < option) × (option ≤ length problem.now.options)) }
{
    // A state may come from a text, where any number can stand.
    0 < option && option <= problem.options()
}

/// Whether the option has the item, and none that is flagged.
fn is_free(option: &[u32], item: u32, flags: &[bool]) -> bool
    requires { All (λ i. i < length flags.now) option.now }
    ensures { result ≡ (has option.now item && none_flagged flags.now option.now) }
{
    // An option of the item is still not left for it when another of its items is covered.
    option.contains(&item) && !any_flagged(flags, option)
}

impl<'p, T: Table> Machine<'p, T> {
    /// The machine at a state of the search. Refused where the search has no such state, and when out of memory; the table
    /// then comes back with nothing covered.
    pub fn at(
        alloc: Global,
        problem: &'p Problem,
        table: T,
        state: &State,
    ) -> Result<Machine<'p, T>, Refused<AtFault, T>>
        requires same_problem { T.problem_value table ≡ problem.now }
        requires covered { T.covered_list table ≡ [] }
        ensures at { Returns result (position problem.now (state_value state.now)) }
        ensures fits { OnOk result (IsState problem.now state.now) }
        ensures unfit { IfRefused result AtFault.NotAState (IsState problem.now state.now → ⊥) }
        ensures same_problem_back { IfErr result (λ r. T.problem_value r.given ≡ problem.now) }
        ensures covered_back { IfErr result (λ r. T.covered_list r.given ≡ []) }
    {
        // Before the machine: when out of memory here, nothing has to be taken apart.
        let mut flags = match no_flags(alloc, problem.items()) {
            Ok(flags) => flags,
            Err(_) => {
                return Err(Refused {
                    fault: AtFault::OutOfMemory,
                    given: table,
                });
            }
        };
        let mut machine = match Machine::new(alloc, problem, table) {
            Ok(machine) => machine,
            Err(given) => {
                return Err(Refused {
                    fault: AtFault::OutOfMemory,
                    given,
                });
            }
        };
        machine.begin();
        if machine.reach(state, &mut flags) {
            Ok(machine)
        } else {
            Err(Refused {
                fault: AtFault::NotAState,
                // The path may have been walked half-way, so items may be covered.
                given: machine.into_table(),
            })
        }
    }

    /// Goes to the state, if the search has it.
    fn reach(&mut self, state: &State, flags: &mut [bool]) -> bool
        requires { IsDown self.old.problem [] self.old flags.old }
        ensures there { IsTrue result → self.new ≡ standing_at self.old (state_value state.now) }
        ensures fits { IsTrue result → IsState self.old.problem state.now }
        ensures unfit { result ≡ false → IsState self.old.problem state.now → ⊥ }
        ensures problem { self.new.problem ≡ self.old.problem }
    {
        if !self.follow(&state.path, flags) {
            return false;
        }
        self.settle(state.label, state.cursor, flags)
    }

    /// Takes the choices of the path one by one; false where one of them is none.
    fn follow(&mut self, path: &[u32], flags: &mut [bool]) -> bool
        requires { IsDown self.old.problem [] self.old flags.old }
        ensures down { IsTrue result → IsDown self.old.problem path.now self.new flags.new }
        ensures unfit { result ≡ false → IsValid self.old.problem path.now → ⊥ }
        ensures problem { self.new.problem ≡ self.old.problem }
    {
        for option in path {
            if !self.descend(*option, flags) {
                return false;
            }
        }
        true
    }

    /// Takes the option, if it is left for the item that is chosen.
    fn descend(&mut self, option: u32, flags: &mut [bool]) -> bool
        requires { IsDown self.old.problem self.old.state.path self.old flags.old }
        ensures down { IsTrue result → GoesDown self.old option self.new flags.new }
        ensures unfit { result ≡ false → HasStep self.old Label.X5 (Cursor.At option) → ⊥ }
        ensures problem { self.new.problem ≡ self.old.problem }
    {
        let Some(item) = self.item_for(option, flags) else {
            return false;
        };
        self.open_for(item, option);
        self.take(option);
        // The flags follow the table: one look at each item of an option tells whether it is free.
        flag_all(flags, self.problem.option(option));
        true
    }

    /// The item that is chosen, where the path can go on with the option: it is left for that item.
    fn item_for(&self, option: u32, flags: &[bool]) -> Option<u32>
        requires { IsDown self.now.problem self.now.state.path self.now flags.now }
        ensures item { IfSome result (λ item. item ≡ item_to_choose self.now) }
        ensures choice { OnSome result (HasStep self.now Label.X5 (Cursor.At option)) }
        ensures none { result ≡ None → HasStep self.now Label.X5 (Cursor.At option) → ⊥ }
    {
        // First, since the option is looked up below.
        if !has_option(self.problem, option) {
            return None;
        }
        if !has_active(&self.table) {
            return None;
        }
        let item = self.table.choose();
        if is_free(self.problem.option(option), item, flags) {
            Some(item)
        } else {
            None
        }
    }

    /// Whether the path can go on with the option.
    fn is_choice(&self, option: u32, flags: &[bool]) -> bool
        requires { IsDown self.now.problem self.now.state.path self.now flags.now }
        ensures { IsTrue result ↔ HasStep self.now Label.X5 (Cursor.At option) }
    {
        self.item_for(option, flags).is_some()
    }

    /// Whether an item is active.
    fn is_open(&self) -> bool
        requires { IsAt self.now Label.X2 }
        ensures { IsTrue result ↔ IsOpen self.now.problem self.now.state.path }
    {
        has_active(&self.table)
    }

    /// Goes from X2 to the step, if the search stands there with this path.
    fn settle(&mut self, label: Label, cursor: Cursor, flags: &[bool]) -> bool
        requires { IsDown self.old.problem self.old.state.path self.old flags.now }
        ensures there { IsTrue result → self.new ≡ at_step self.old label cursor }
        ensures fits { IsTrue result → HasStep self.old label cursor }
        ensures unfit { result ≡ false → HasStep self.old label cursor → ⊥ }
        ensures problem { self.new.problem ≡ self.old.problem }
    {
        // All is asked before the first step, so a step that is refused has covered nothing.
        if !self.would_fit(label, cursor, flags) {
            return false;
        }
        self.go_to(label, cursor);
        true
    }

    /// Whether the search stands at the step with this path.
    fn would_fit(&self, label: Label, cursor: Cursor, flags: &[bool]) -> bool
        requires { IsDown self.now.problem self.now.state.path self.now flags.now }
        ensures { IsTrue result ↔ HasStep self.now label cursor }
    {
        match (label, cursor) {
            (Label::X1, Cursor::None) => self.state.path.is_empty(),
            (Label::X2, Cursor::None) => true,
            (Label::X3, Cursor::None) => self.is_open(),
            (Label::X4, Cursor::None) => self.is_open(),
            (Label::X5, Cursor::At(option)) => self.is_choice(option, flags),
            (Label::X5, Cursor::Past) => self.is_open(),
            (Label::X6, Cursor::At(option)) => self.is_choice(option, flags),
            (Label::X7, Cursor::None) => self.is_open(),
            // Open or not: X8 comes after X7 and after a visit.
            (Label::X8, Cursor::None) => true,
            (Label::Done, Cursor::None) => self.state.path.is_empty(),
            // Any other cursor isn't one of the step.
            _ => false,
        }
    }

    /// Goes from X2 to a step where the search stands with this path.
    fn go_to(&mut self, label: Label, cursor: Cursor)
        requires label { IsAt self.old Label.X2 }
        requires fits { HasStep self.old label cursor }
        ensures { self.new ≡ at_step self.old label cursor }
    {
        match (label, cursor) {
            (Label::X5, Cursor::At(option)) => self.open_at(option),
            (Label::X6, Cursor::At(option)) => self.take_at(option),
            // At X6 the cursor is at an option, as `fits` says.
            (Label::X6, _) => unreachable!(),
            (Label::X5, _) => self.open_past(),
            (Label::X7, _) => self.pass_all(),
            // At all others exactly the items of the path are covered, as at X2.
            _ => self.turn(label, cursor),
        }
    }

    /// From X2 to X5 at an option that the path can go on with.
    fn open_at(&mut self, option: u32)
        requires label { IsAt self.old Label.X2 }
        requires fits { HasStep self.old Label.X5 (Cursor.At option) }
        ensures { self.new ≡ at_step self.old Label.X5 (Cursor.At option) }
    {
        self.open_level();
        self.turn(Label::X5, Cursor::At(option));
    }

    /// The same where the item that is chosen is known.
    pub(super) fn open_for(&mut self, item: u32, option: u32)
        requires label { IsAt self.old Label.X2 }
        requires item { item ≡ item_to_choose self.old }
        requires fits { HasStep self.old Label.X5 (Cursor.At option) }
        ensures { self.new ≡ at_step self.old Label.X5 (Cursor.At option) }
    {
        // As `open_level`, but choosing goes through all active items: it isn't done twice.
        self.enter();
        self.plan();
        self.open_list(item);
        self.turn(Label::X5, Cursor::At(option));
    }

    /// From X2 to X6 at an option that the path can go on with.
    fn take_at(&mut self, option: u32)
        requires label { IsAt self.old Label.X2 }
        requires fits { HasStep self.old Label.X6 (Cursor.At option) }
        ensures { self.new ≡ at_step self.old Label.X6 (Cursor.At option) }
    {
        self.open_at(option);
        self.take(option);
        // X6 has the option's items covered but not the option on its path: X8 pops it and leaves them.
        self.turn(Label::X8, Cursor::None);
        self.leave();
    }

    /// From X2 to X5 past the last option.
    pub(super) fn open_past(&mut self)
        requires label { IsAt self.old Label.X2 }
        requires fits { HasStep self.old Label.X5 Cursor.Past }
        ensures { self.new ≡ at_step self.old Label.X5 Cursor.Past }
    {
        self.open_level();
        self.turn(Label::X5, Cursor::Past);
    }

    /// From X2 to X7.
    fn pass_all(&mut self)
        requires label { IsAt self.old Label.X2 }
        requires fits { HasStep self.old Label.X7 Cursor.None }
        ensures { self.new ≡ at_step self.old Label.X7 Cursor.None }
    {
        self.open_past();
        self.give_up();
    }

    /// From X2 to X5 with the chosen item covered.
    fn open_level(&mut self)
        requires label { IsAt self.old Label.X2 }
        requires open { IsOpen self.old.problem self.old.state.path }
        ensures { self.new ≡ standing_at self.old (opened self.old.problem self.old.state.path) }
    {
        self.enter();
        self.plan();
        self.open();
    }

    /// Stands at another step, where the same items are covered.
    pub(super) fn turn(&mut self, label: Label, cursor: Cursor)
        requires fits { HasStep self.old label cursor }
        requires same { covered_items (at_step self.old label cursor) ≡ covered_items self.old }
        ensures { self.new ≡ at_step self.old label cursor }
    {
        self.state.go(label, cursor);
    }
}
