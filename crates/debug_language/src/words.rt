//! The words that replies begin with.
ghost use Rattle.std.specs.Prelude.{◌≡◌};
ghost use Rattle.debug_language.specs.Replies.{plain_word, counted_word, listed_word, standing_word, layer_word};

/// A reply that is always the same.
#[derive(Clone, Copy, Debug, PartialEq, Eq)]
pub enum Plain {
    /// The search is at the end of its branch.
    End,
    /// The branch was given back.
    Parked,
    /// The branch was closed.
    Closed,
    /// No option can be cut off.
    NothingUntried,
    /// All branches are closed.
    NoBranches,
}

/// What a reply counts.
#[derive(Clone, Copy, Debug, PartialEq, Eq)]
pub enum Counted {
    /// Steps, or steps back.
    Moved,
    /// Breakpoints that are gone.
    Cleared,
    /// Posted visits.
    Visits,
    /// Lines of a snapshot.
    Snapshot,
    /// Steps of the stretch that was taken back.
    Retracted,
    /// Posted steps.
    Steps,
}

/// An item with its options, as it stands in the search.
#[derive(Clone, Copy, Debug, PartialEq, Eq)]
pub enum Listed {
    /// The item that is to be covered next.
    Chosen,
    /// An item that has to be covered.
    Active,
    /// An item that may be covered.
    Second,
}

/// How a branch stands that is not closed.
#[derive(Clone, Copy, Debug, PartialEq, Eq)]
pub enum Standing {
    /// No worker has it, and any may take it.
    Waiting,
    /// A worker has it.
    Leased,
    /// No worker has it, and only who asks for this one gets it.
    Held,
}

/// The layer that refused a command.
#[derive(Clone, Copy, Debug, PartialEq, Eq)]
pub enum Layer {
    /// The debugger itself (`DebugFault`).
    Debug,
    /// The runner of a search (`RunnerFault`).
    Runner,
    /// The book of branches, whose faults have numbers of their own.
    Book,
    /// Who reads a snapshot (`SnapshotFault`).
    Snapshot,
}

impl Plain {
    /// Its line.
    pub(crate) fn word(self) -> &'static str
        ensures { result.now ≡ plain_word self }
    {
        match self {
            Plain::End => "end",
            Plain::Parked => "parked",
            Plain::Closed => "closed",
            // It begins with the key of the lines that list such options.
            Plain::NothingUntried => "untried none",
            // By the word of the question, as there is no branch to tell of.
            Plain::NoBranches => "branches none",
        }
    }
}

impl Counted {
    /// Its word.
    pub(crate) fn word(self) -> &'static str
        ensures { result.now ≡ counted_word self }
    {
        match self {
            Counted::Moved => "moved",
            Counted::Cleared => "cleared",
            Counted::Visits => "visits",
            Counted::Snapshot => "snapshot",
            Counted::Retracted => "retracted",
            Counted::Steps => "steps",
        }
    }
}

impl Listed {
    /// Its word.
    pub(crate) fn word(self) -> &'static str
        ensures { result.now ≡ listed_word self }
    {
        match self {
            Listed::Chosen => "chosen",
            Listed::Active => "active",
            Listed::Second => "second",
        }
    }
}

impl Standing {
    /// Its word.
    pub(crate) fn word(self) -> &'static str
        ensures { result.now ≡ standing_word self }
    {
        match self {
            Standing::Waiting => "waiting",
            Standing::Leased => "leased",
            Standing::Held => "held",
        }
    }
}

impl Layer {
    /// Its word.
    pub(crate) fn word(self) -> &'static str
        ensures { result.now ≡ layer_word self }
    {
        match self {
            Layer::Debug => "debug",
            Layer::Runner => "runner",
            Layer::Book => "book",
            Layer::Snapshot => "snapshot",
        }
    }
}
