//! Steps on the branch that is open.
ghost use Rattle.std.specs.Prelude.{◌<◌};
ghost use Rattle.x_debug.specs.Commands.{step_deed, run_deed, back_deed, TellsDeed, DoesDeed};

use crate::session::Session;
use cover_problem::Table;
use debug_acts::{back, run, step};
use debug_language::{DebugFault, write_debug_fault};
use std::alloc::AllocError;

impl<'p, T: Table> Session<'p, T> {
    /// `step`.
    pub(super) fn obey_step(&mut self, most: u32, text: &mut Vec<u8>) -> Result<(), AllocError>
        requires { 0 < most }
        ensures reply { TellsDeed result text.old text.new (step_deed self.old most) }
        ensures session { DoesDeed result self.old self.new (step_deed self.old most) }
    {
        let Some(worker) = &mut self.worker else {
            return write_debug_fault(text, DebugFault::NoBranch);
        };
        step(&mut self.book, worker, most, text)
    }

    /// `run`.
    pub(super) fn obey_run(&mut self, text: &mut Vec<u8>) -> Result<(), AllocError>
        ensures reply { TellsDeed result text.old text.new (run_deed self.old) }
        ensures session { DoesDeed result self.old self.new (run_deed self.old) }
    {
        let Some(worker) = &mut self.worker else {
            return write_debug_fault(text, DebugFault::NoBranch);
        };
        run(&mut self.book, worker, &self.breaks, text)
    }

    /// `back`.
    pub(super) fn obey_back(&mut self, most: u32, text: &mut Vec<u8>) -> Result<(), AllocError>
        requires { 0 < most }
        ensures reply { TellsDeed result text.old text.new (back_deed self.old most) }
        ensures session { DoesDeed result self.old self.new (back_deed self.old most) }
    {
        let Some(worker) = &mut self.worker else {
            return write_debug_fault(text, DebugFault::NoBranch);
        };
        // The book has no part in it: unposted steps are the worker's own.
        back(worker, most, text)
    }
}
