//! The commands of the debugger.

use crate::question::Question;
use x_steps::State;
use x_texts::Break;

/// What a command line asks of the debugger. A cut is given by its choices, and None is the start of the run.
#[derive(Debug, Drop)]
pub enum Command {
    /// A line without words.
    Nothing,
    /// Up to so many steps, from 1.
    Step(u32),
    /// Steps up to a breakpoint.
    Run,
    /// Up to so many steps back, from 1.
    Back(u32),
    /// A breakpoint more.
    Break(Break),
    /// No breakpoints.
    Clear,
    /// Shows something, and changes nothing.
    Ask(Question),
    /// Cuts the branch at an option of a level.
    Split { level: u32, option: u32 },
    /// Gives the branch back.
    Park,
    /// Gives the branch back, with a snapshot.
    Save,
    /// The same, with the breakpoints in the snapshot.
    SaveBreaks,
    /// Ends the branch.
    Close,
    /// Takes the branch that begins at a cut: `open`.
    Enter(Option<Vec<u32>>),
    /// Takes the last posted stretch back.
    Retract,
    /// Asks the branch that begins at a cut to stop.
    Hold(Option<Vec<u32>>),
    /// Takes the posted stretches of the branch that begins at a cut back up to a state.
    PutBack { lo: Option<Vec<u32>>, state: State },
}
