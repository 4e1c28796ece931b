//! Workers split their tiles.
ghost use Rattle.std.specs.Prelude.{◌≡◌, true, IfOk, IfErr, OnOk, OnErr};
ghost use Rattle.shared_words.specs.Lists.{has};
ghost use Rattle.x_branches.specs.Refusals.{untried_in};
ghost use Rattle.lab_history.specs.declared.entry.Reply.TheVariants as replies;
ghost use Rattle.lab_world.specs.Worker.{HoldsTile, RefusesSplit, book_after_split, shortened_at, AnswersSplit};

use crate::fault::WorkerFault;
use crate::worker::Worker;
use cover_problem::Table;
use lab_book::Book;
use x_branches::RunnerFault;
use x_steps::Refused;

impl<'p, T: Table> Worker<'p, T> {
    /// Parts its branch at an option of a level: the tile is split at that cut, and its own branch ends there. Answers the new
    /// tile's id. Refused, without a call of the book, as the runner refuses the cut; out of memory, nothing has changed.
    pub fn split(
        &mut self,
        book: &mut Book<'p>,
        level: usize,
        option: u32,
    ) -> Result<u64, WorkerFault>
        requires { HoldsTile book.old self.old }
        ensures untried { OnOk result (has (untried_in self.old.runner level) option ≡ true) }
        ensures book { OnOk result (book.new ≡ book_after_split book.old self.old level option) }
        ensures reply { IfOk result (AnswersSplit book.old self.old level option) }
        ensures worker { OnOk result (self.new ≡ shortened_at self.old level option) }
        ensures refused { RefusesSplit result book.old book.new self.old level option }
        ensures unchanged { OnErr result (self.new ≡ self.old) }
        ensures holds { HoldsTile book.new self.new }
    {
        book.is_sound();
        self.runner.is_sound();
        let cut = match self.runner.cut(level, option) {
            Ok(cut) => cut,
            Err(fault) => return Err(WorkerFault::Runner(fault)),
        };
        // The book keeps the cut. Copied before it is called: a split can't be undone.
        let Ok(copy) = cut.copy() else {
            return Err(WorkerFault::Runner(RunnerFault::OutOfMemory));
        };
        // It holds its tile, and so its problem is the book's.
        let id = match book.split_compared(&self.lease, cut, true) {
            Ok(id) => id,
            Err(Refused { fault, given: _ }) => return Err(WorkerFault::Book(fault)),
        };
        // It was cut from this runner, which has not moved since: nothing is to be compared.
        self.runner.end_at(copy);
        Ok(id)
    }
}
