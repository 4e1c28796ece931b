//! The jobs.
ghost use Rattle.std.specs.Prelude.{◌≡◌};
ghost use Rattle.polylab_engine.specs.Jobs.{is_first, debugged, takes_commands};

use part_sums::Counted;
use poly_place::Group;

/// What the program is asked to do with its input.
#[derive(Clone, Copy, Debug, PartialEq, Eq)]
pub enum Job {
    /// With a cover text.
    Cover(CoverJob),
    /// With a puzzle.
    Puzzle(PuzzleJob),
    /// Go on from a snapshot, up to its branch's end, or so many steps on where that comes first; list the visits or count them.
    Resume { steps: Option<u64>, list: bool },
    /// Add up the answers of a search's parts, as those of a cover text or of a puzzle.
    Join(Counted),
}

/// What is asked of a cover text.
#[derive(Clone, Copy, Debug, PartialEq, Eq)]
pub enum CoverJob {
    /// List its exact covers.
    List,
    /// Count its exact covers.
    Count,
    /// List its first exact covers in path order, so many of them.
    First(u64),
    /// Take its search by commands, which follow it.
    Debug,
}

/// What is asked of a puzzle.
#[derive(Clone, Copy, Debug, PartialEq, Eq)]
pub enum PuzzleJob {
    /// Show its packings.
    Solve,
    /// Show its first packings in path order, so many of them.
    First(u64),
    /// Count its packings.
    Count,
    /// Count its packings, and how many are different where symmetries carry some onto others.
    Classes,
    /// Write the cover text whose exact covers are its packings.
    Options,
    /// Show one packing of each class: of those that symmetries of the group carry onto one another.
    SolveUpTo(Group),
    /// Count its packings and these classes, by a search that leaves out what symmetries repeat.
    CountUpTo(Group),
    /// Write the cover text of that search.
    OptionsUpTo(Group),
    /// Take its search by commands, which follow it.
    Debug,
}

/// What stands before the commands of `debug`.
#[derive(Clone, Copy, Debug, PartialEq, Eq)]
pub enum TextKind {
    /// A cover text.
    Cover,
    /// A puzzle.
    Puzzle,
}

impl Job {
    /// Whether it stops at the first ones, which one worker finds.
    pub fn is_first(self) -> bool
        ensures { result ≡ is_first self }
    {
        matches!(
            self,
            Job::Cover(CoverJob::First(_)) | Job::Puzzle(PuzzleJob::First(_))
        )
    }

    /// The kind of text that commands follow, if it answers commands.
    pub fn debugged(self) -> Option<TextKind>
        ensures { result ≡ debugged self }
    {
        match self {
            Job::Cover(CoverJob::Debug) => Some(TextKind::Cover),
            Job::Puzzle(PuzzleJob::Debug) => Some(TextKind::Puzzle),
            _ => None,
        }
    }

    /// Whether it answers commands, which follow the input's text.
    pub fn takes_commands(self) -> bool
        ensures { result ≡ takes_commands self }
    {
        self.debugged().is_some()
    }
}
