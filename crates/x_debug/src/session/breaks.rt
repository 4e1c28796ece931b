//! The breakpoints of a session.
ghost use Rattle.std.specs.Prelude.{◌≡◌, true, OnOk, OnErr};
ghost use Rattle.x_texts.specs.Breaks.{is_break};
ghost use Rattle.x_debug.specs.Commands.{break_deed, clear_deed, TellsDeed, done_by};

use crate::session::Session;
use cover_problem::Table;
use debug_language::{Counted, write_counted, write_set};
use std::alloc::AllocError;
use x_texts::Break;

impl<'p, T: Table> Session<'p, T> {
    /// `break`: sets a breakpoint. Out of memory, nothing has changed.
    pub(super) fn obey_break(
        &mut self,
        breakpoint: Break,
        text: &mut Vec<u8>,
    ) -> Result<(), AllocError>
        requires { is_break self.old.book.problem breakpoint ≡ true }
        ensures reply { TellsDeed result text.old text.new (break_deed self.old breakpoint) }
        ensures session { OnOk result
            (self.new ≡ (done_by self.old (break_deed self.old breakpoint)).session) }
        ensures left { OnErr result (self.new ≡ self.old) }
    {
        // The line first: what isn't told isn't set.
        write_set(text, self.book.problem(), breakpoint)?;
        self.breaks.insert(breakpoint)?;
        Ok(())
    }

    /// `clear`: no breakpoint is left. Out of memory, nothing has changed.
    pub(super) fn obey_clear(&mut self, text: &mut Vec<u8>) -> Result<(), AllocError>
        ensures reply { TellsDeed result text.old text.new (clear_deed self.old) }
        ensures session { OnOk result (self.new ≡ (done_by self.old (clear_deed self.old)).session) }
        ensures left { OnErr result (self.new ≡ self.old) }
    {
        // Told before they go, which needs no memory.
        write_counted(text, Counted::Cleared, self.breaks.len() as u128)?;
        self.breaks.clear();
        Ok(())
    }
}
