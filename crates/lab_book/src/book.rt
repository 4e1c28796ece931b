//! Books.
ghost use Rattle.std.specs.Prelude.{◌≡◌, ◌<◌, ◌^◌, length, IfSome, IfErr, OnOk};
ghost use Rattle.shared_words.specs.Answers.{Returns};
ghost use Rattle.x_steps.specs.StateView.{state_value};
ghost use Rattle.x_steps.specs.StateValue.{start};
ghost use Rattle.x_branches.specs.Cut.{IsCut};
ghost use Rattle.x_branches.specs.Refusals.{CanStart, StartRefused};
ghost use Rattle.x_branches.specs.Branch.{whole_run};
ghost use Rattle.lab_book.specs.Book.{waiting_in, leased_in, IsTiled, new_book, replayed, outcome, refused, tile_place, first_book};
ghost use Rattle.lab_book.specs.Posted.{posted_count};
ghost use Rattle.lab_book.specs.Calls.{Refuses, RefusedIf, OutOfMemoryOr};

mod ends;
mod leases;
mod posted;
mod posts;
mod retractions;
mod splits;

use crate::status::Status;
use crate::tile::Tile;
use crate::tiles::Tiles;
use cover_problem::{PlainTable, Problem, Table};
use lab_history::{BookFault, Call, Entries, Entry, History, Reply};
use std::alloc::{AllocError, Global};
use std::marker::Model;
use x_branches::{Branch, Cut, Runner, RunnerFault, StartFault};
use x_steps::{AtFault, Cursor, Label, Mark, Refused, State};

/// The tiles into which a branch of a problem's run is parted, and the history of all calls. Its tiles are a tiling after every
/// call, and it is the replay of its history.
#[derive(Drop)]
pub struct Book<'p> {
    problem: &'p Problem,
    branch: Branch<'p>,
    first: Mark,
    tiles: Tiles<'p>,
    history: History,
}

impl<'p> Model for Book<'p> {
    ghost use Rattle.lab_book.specs.Book.{BookValue, KeepsBook};

    ghost Value = { BookValue };

    ghost view = { λ b. record {
      problem = b.problem.now;
      branch = b.branch;
      first = b.first;
      tiles = b.tiles;
      history = b.history.entries;
    } };

    ghost invariant = { λ b. KeepsBook (record {
      problem = b.problem.now;
      branch = b.branch;
      first = b.first;
      tiles = b.tiles;
      history = b.history.entries;
    }) b.history.kept };
}

/// Whether a search can start at a state of a branch: refused as a runner is there.
fn check_start(
    alloc: Global,
    problem: &Problem,
    branch: &Branch<'_>,
    state: &State,
) -> Result<(), StartFault>
    ensures can { OnOk result (CanStart problem.now branch.now (state_value state.now)) }
    ensures refused { IfErr result (StartRefused problem.now branch.now (state_value state.now)) }
{
    // The plain table will do: it is asked for one walk down the paths, and no search goes on from here.
    let Ok(table) = PlainTable::new(alloc, problem) else {
        return Err(StartFault::Steps(AtFault::OutOfMemory));
    };
    let Ok(branch) = branch.copy() else {
        return Err(StartFault::Steps(AtFault::OutOfMemory));
    };
    match Runner::new(alloc, problem, table, branch, state) {
        // The runner is let go. What it walked is known now, and each worker makes its own.
        Ok(_) => Ok(()),
        Err(refused) => Err(refused.fault),
    }
}

/// What a call was given comes back, when out of memory.
fn out_of_memory<G>(given: G) -> Refused<BookFault, G>
    ensures fault { result.fault ≡ BookFault.OutOfMemory }
    ensures given_back { result.given ≡ given }
{
    Refused {
        fault: BookFault::OutOfMemory,
        given,
    }
}

/// A cut of a branch, if there is one, is a cut.
fn is_cut(cut: &Option<Cut<'_>>)
    ensures { IfSome cut.now (λ c. IsCut c.problem c.path) }
{
    // Runs nothing that matters: it tells a proof what each cut keeps true.
    if let Some(cut) = cut {
        cut.is_sound();
    }
}

impl<'p> Book<'p> {
    /// The book of a branch that goes on from a state in it, where a search is known to be able to start: one tile, which waits
    /// there. No path is walked.
    pub fn started(
        alloc: Global,
        problem: &'p Problem,
        branch: &Branch<'p>,
        state: &State,
    ) -> Result<Book<'p>, AllocError>
        requires { CanStart problem.now branch.now (state_value state.now) }
        ensures { Returns result (new_book problem.now branch.now (state_value state.now)) }
    {
        is_cut(&branch.lo);
        is_cut(&branch.hi);
        // The book keeps one of its own: a replay of the history begins there, whatever became of the tiles.
        let first = Mark::of(state)?;
        let begin = first.copy()?;
        let whole = branch.copy()?;
        let tile = Tile::whole(alloc, branch.copy()?, begin)?;
        let tiles = Tiles::of(alloc, tile)?;
        Ok(Book {
            problem,
            branch: whole,
            first,
            tiles,
            history: History::new(alloc),
        })
    }

    /// The book of a whole run: one tile, from X1 to Done, which waits and has the id 0.
    pub fn new(alloc: Global, problem: &'p Problem) -> Result<Book<'p>, AllocError>
        ensures { Returns result (new_book problem.now whole_run start) }
    {
        let branch = Branch { lo: None, hi: None };
        let state = State {
            label: Label::X1,
            path: Vec::new(alloc),
            cursor: Cursor::None,
        };
        Book::started(alloc, problem, &branch, &state)
    }

    /// The book of a branch that goes on from a state in it: one tile, which waits there. Refused as a runner is that starts
    /// there; branch and state then come back.
    pub fn resumed(
        alloc: Global,
        problem: &'p Problem,
        branch: Branch<'p>,
        state: State,
    ) -> Result<Book<'p>, Refused<StartFault, (Branch<'p>, State)>>
        ensures made { Returns result (new_book problem.now branch.entry (state_value state)) }
        ensures can { OnOk result (CanStart problem.now branch.entry (state_value state)) }
        ensures refused { RefusedIf result
            (StartRefused problem.now branch.entry (state_value state)) }
        ensures branch_back { IfErr result (λ r. r.given.0 ≡ branch.entry) }
        ensures state_back { IfErr result (λ r. r.given.1 ≡ state) }
    {
        // Before anything is made of them, so that branch and state come back as they came.
        if let Err(fault) = check_start(alloc, problem, &branch, &state) {
            return Err(Refused {
                fault,
                given: (branch, state),
            });
        }
        let Ok(book) = Book::started(alloc, problem, &branch, &state) else {
            return Err(Refused {
                fault: StartFault::Runner(RunnerFault::OutOfMemory),
                given: (branch, state),
            });
        };
        Ok(book)
    }

    /// The problem.
    pub fn problem(&self) -> &'p Problem
        ensures { result.now ≡ self.now.problem }
    {
        self.problem
    }

    /// The branch of the run that it parts.
    pub fn branch(&self) -> &Branch<'p>
        ensures { result.now ≡ self.now.branch }
    {
        &self.branch
    }

    /// Where its search began.
    pub fn first_mark(&self) -> &State
        ensures { state_value result.now ≡ self.now.first }
    {
        self.first.state()
    }

    /// The tiles in order: they are a tiling of the branch.
    pub fn tiles(&self) -> &[Tile<'p>]
        ensures tiles { result.now ≡ self.now.tiles }
        ensures tiling { IsTiled self.now }
    {
        self.tiles.list()
    }

    /// How many tiles wait.
    pub fn waiting(&self) -> u64
        ensures { result ≡ waiting_in self.now.tiles }
    {
        self.tiles.waiting()
    }

    /// How many tiles are leased.
    pub fn leased(&self) -> u64
        ensures { result ≡ leased_in self.now.tiles }
    {
        self.tiles.leased()
    }

    /// The place of the tile with an id among the tiles; None where no tile has it.
    pub fn place(&self, id: u64) -> Option<usize>
        ensures { result ≡ tile_place id self.now.tiles }
    {
        self.tiles.place(id)
    }

    /// Looks for the tile at this place there from now on, so that a call by its id finds it at once.
    pub fn keep_place(&mut self, place: usize)
        requires { place < length self.old.tiles }
        ensures { self.new ≡ self.old }
    {
        self.tiles.keep_place(place);
    }

    /// The entries of all calls in order: the book is their replay, with each reply.
    pub fn history(&self) -> Entries<'_>
        ensures history { result ≡ self.now.history }
        ensures replay { replayed (first_book self.now) self.now.history ≡ self.now }
    {
        self.history.entries()
    }

    /// What is true of every book, for a proof that needs it: its tiles are a tiling of its branch, and it is its history's replay.
    pub fn is_sound(&self)
        ensures tiling { IsTiled self.now }
        ensures replay { replayed (first_book self.now) self.now.history ≡ self.now }
    {
        // Where a field is read, what the whole keeps true is known.
        let _tiles = &self.tiles;
    }

    /// Each stretch was posted by a call, so there are fewer than a number of 64 bits can count.
    fn count_calls(&self)
        ensures { posted_count self.now.tiles < 2 ^ 64 }
    {
        // It is a number of 64 bits, and no post is without its entry.
        let _calls = self.history.len();
    }

    /// Notes a refusal in the history, unless memory ran out, or runs out here.
    fn refuse(&mut self, w: u8, call: Call, fault: BookFault) -> BookFault
        requires { OutOfMemoryOr fault (outcome self.old w call ≡ refused self.old.tiles fault) }
        ensures refused { Refuses self.old self.new w call result }
    {
        let fault = match fault {
            // No entry tells of it: a replay knows nothing of memory.
            BookFault::OutOfMemory => return BookFault::OutOfMemory,
            fault => fault,
        };
        // One for the history, and one for the caller.
        let Ok(copy) = fault.copy() else {
            return BookFault::OutOfMemory;
        };
        let entry = Entry {
            worker: w,
            call,
            reply: Reply::Refused(copy),
        };
        // With this room nothing after it can fail.
        let Ok(()) = self.history.keep(1) else {
            return BookFault::OutOfMemory;
        };
        self.history.add(entry);
        fault
    }

    /// Notes a refusal as `refuse` does, and hands back what the call was given.
    fn hand_back<G>(
        &mut self,
        w: u8,
        call: Call,
        fault: BookFault,
        given: G,
    ) -> Refused<BookFault, G>
        requires { OutOfMemoryOr fault (outcome self.old w call ≡ refused self.old.tiles fault) }
        ensures refused { Refuses self.old self.new w call result.fault }
        ensures given_back { result.given ≡ given }
    {
        let fault = self.refuse(w, call, fault);
        Refused { fault, given }
    }
}
