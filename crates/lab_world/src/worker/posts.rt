//! What a worker walked is posted, and taken back.
ghost use Rattle.std.specs.Prelude.{◌≡◌, ◌<◌, Some, IfOk, IfErr, OnOk, OnErr};
ghost use Rattle.cover_problem.specs.Problem.{is_same};
ghost use Rattle.x_branches.specs.Runner.{unposted_steps};
ghost use Rattle.lab_history.specs.declared.entry.Call.TheVariants as calls;
ghost use Rattle.lab_history.specs.declared.entry.Reply.TheVariants as replies;
ghost use Rattle.lab_world.specs.Worker.{HoldsTile, marked_at, after_call, IsRetracted};
ghost use Rattle.lab_world.specs.Worker.{RetractRefused, WorkerPosts, WorkerPostRefused, retracted_worker};

use crate::fault::WorkerFault;
use crate::worker::Worker;
use cover_problem::Table;
use lab_book::{Book, BookFault, Posted};
use x_branches::RunnerFault;
use x_steps::Refused;

impl<'p, T: Table> Worker<'p, T> {
    /// Posts what it walked since its mark, with the answer of the comparison of its problem and the book's.
    fn post_compared(&mut self, book: &mut Book<'p>, same: bool) -> Result<Posted, BookFault>
        requires { same ≡ is_same self.old.runner.problem book.old.problem }
        ensures made { IfOk result (WorkerPosts book.old book.new self.old) }
        ensures marked { OnOk result (self.new ≡ marked_at self.old self.old.runner.position) }
        ensures refused { IfErr result (WorkerPostRefused book.old book.new self.old) }
        ensures unchanged { OnErr result (self.new ≡ self.old) }
        ensures holds { HoldsTile book.old self.old → HoldsTile book.new self.new }
    {
        book.is_sound();
        self.runner.is_sound();
        // Taken before the book is asked, which keeps it or hands it back.
        let Ok(stretch) = self.runner.take_stretch() else {
            return Err(BookFault::OutOfMemory);
        };
        let refused = match book.post_compared(&self.lease, stretch, same) {
            Ok(posted) => return Ok(posted),
            Err(refused) => refused,
        };
        let Refused { fault, given } = refused;
        // What was taken from this runner fits there again.
        let Ok(()) = self.runner.reopen(given) else {
            unreachable!()
        };
        Err(fault)
    }

    /// Posts what it walked since its mark; its mark is then its position. Refused as the book refuses it; what it walked is then
    /// unposted as before.
    pub fn post(&mut self, book: &mut Book<'p>) -> Result<Posted, BookFault>
        ensures made { IfOk result (WorkerPosts book.old book.new self.old) }
        ensures marked { OnOk result (self.new ≡ marked_at self.old self.old.runner.position) }
        ensures refused { IfErr result (WorkerPostRefused book.old book.new self.old) }
        ensures unchanged { OnErr result (self.new ≡ self.old) }
        ensures holds { HoldsTile book.old self.old → HoldsTile book.new self.new }
    {
        let same = self.runner.problem().same(book.problem());
        self.post_compared(book, same)
    }

    /// The same for a worker that holds its tile: its problem is the book's, and isn't compared.
    pub fn post_held(&mut self, book: &mut Book<'p>) -> Result<Posted, BookFault>
        requires { HoldsTile book.old self.old }
        ensures made { IfOk result (WorkerPosts book.old book.new self.old) }
        ensures marked { OnOk result (self.new ≡ marked_at self.old self.old.runner.position) }
        ensures refused { IfErr result (WorkerPostRefused book.old book.new self.old) }
        ensures unchanged { OnErr result (self.new ≡ self.old) }
        ensures holds { HoldsTile book.new self.new }
    {
        self.post_compared(book, true)
    }

    /// Takes the last posted stretch of its tile out of the book, and walks on from where it began: that stretch is unposted then.
    /// Refused, without a call of the book, where it has unposted steps (6), and as the book refuses it.
    pub fn retract(&mut self, book: &mut Book<'p>) -> Result<(), WorkerFault>
        requires { HoldsTile book.old self.old }
        ensures book { OnOk result (book.new ≡ after_call book.old self.old calls.Retract) }
        ensures worker { OnOk result (Some self.new ≡ retracted_worker book.old self.old) }
        ensures reply { OnOk result (IsRetracted book.old self.old) }
        ensures none_unposted { OnOk result (unposted_steps self.old.runner ≡ 0) }
        ensures refused { IfErr result (RetractRefused book.old book.new self.old) }
        ensures unchanged { OnErr result (self.new ≡ self.old) }
        ensures holds { HoldsTile book.new self.new }
    {
        book.is_sound();
        self.runner.is_sound();
        // Unposted steps begin where that stretch ends: they would lose their beginning.
        if self.runner.unposted() > 0 {
            return Err(WorkerFault::Runner(RunnerFault::NotAtMark));
        }
        let stretch = match book.retract(&self.lease) {
            Ok(stretch) => stretch,
            Err(fault) => return Err(WorkerFault::Book(fault)),
        };
        // The stretch ends at the tile's mark, where this runner stands.
        let Ok(()) = self.runner.reopen(stretch) else {
            unreachable!()
        };
        Ok(())
    }
}
