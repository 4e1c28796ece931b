//! What a machine tells of the search: the covered items, the item that is chosen, and which items are left.
ghost use Rattle.std.specs.Prelude.{◌≡◌};
ghost use Rattle.x_steps.specs.Answers.{ReturnsRows, ReturnsRow};
ghost use Rattle.x_steps.specs.Steps.{covered_in, is_visit};
ghost use Rattle.x_steps.specs.Machine.{remaining_in, second_in, chosen_item, chosen_in};

use crate::covering::has_active;
use crate::listing::{active_items, options_of, secondary_items};
use crate::machine::Machine;
use crate::state::{Cursor, Label};
use cover_problem::Table;
use std::alloc::AllocError;

impl<'p, T: Table> Machine<'p, T> {
    /// The covered items, in the order of covering.
    pub fn covered(&self) -> &[u32]
        ensures { result.now ≡ covered_in self.now.problem self.now.state }
    {
        self.table.covered()
    }

    /// The active items in order, each with the options left for it.
    pub fn remaining(&self) -> Result<Vec<(u32, Vec<u32>)>, AllocError>
        ensures { ReturnsRows result (remaining_in self.now.problem self.now.state) }
    {
        // The machine keeps no allocator: its path has the one that the machine was made with.
        active_items(*self.state.path.allocator(), &self.table)
    }

    /// The secondary items that are not covered, in order, each with the options left for it.
    pub fn second(&self) -> Result<Vec<(u32, Vec<u32>)>, AllocError>
        ensures { ReturnsRows result (second_in self.now.problem self.now.state) }
    {
        secondary_items(*self.state.path.allocator(), self.problem, &self.table)
    }

    /// At X4 to X7 the chosen item, with the options of its list.
    pub fn chosen(&self) -> Result<Option<(u32, Vec<u32>)>, AllocError>
        ensures { ReturnsRow result (chosen_in self.now.problem self.now.state) }
    {
        let Some(item) = self.chosen_item() else {
            return Ok(None);
        };
        let options = options_of(*self.state.path.allocator(), &self.table, item)?;
        Ok(Some((item, options)))
    }

    /// Whether the step about to be done visits the path: X2, where no item is active.
    #[inline(always)]
    pub fn is_visit(&self) -> bool
        ensures { result ≡ is_visit self.now.problem self.now.state }
    {
        match self.state.label {
            Label::X2 => !has_active(&self.table),
            _ => false,
        }
    }

    /// The item that is chosen at X4 to X7. From X5 on it is covered: last at X5 and X7, and before the option's others at X6.
    fn chosen_item(&self) -> Option<u32>
        ensures { result ≡ chosen_item self.now.problem self.now.state }
    {
        match (self.state.label, self.state.cursor) {
            // Here alone the item is still to be covered, so it is chosen as X4 will.
            (Label::X4, _) => Some(self.table.choose()),
            (Label::X5, _) => Some(self.table.last_covered()),
            (Label::X7, _) => Some(self.table.last_covered()),
            (Label::X6, Cursor::At(option)) => {
                let covered = self.table.covered();
                Some(covered[covered.len() - self.problem.option(option).len()])
            }
            (Label::X6, _) => unreachable!(),
            _ => None,
        }
    }
}
