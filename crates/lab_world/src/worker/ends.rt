//! Workers give their tiles up.
ghost use Rattle.std.specs.Prelude.{◌≡◌, true, IfErr, OnOk, IsOk};
ghost use Rattle.lab_history.specs.Ending.{call_of_end, is_at_mark};
ghost use Rattle.lab_book.specs.Calls.{Ends, RefusesEnd, is_current};

use crate::worker::Worker;
use cover_problem::Table;
use lab_book::{Book, BookFault, Ending, Lease};
use x_branches::Runner;
use x_steps::Refused;

impl<'p, T: Table> Worker<'p, T> {
    /// Its lease and its runner.
    fn parts(self) -> (Lease, Runner<'p, T>)
        ensures lease { result.0 ≡ self.entry.grant }
        ensures runner { result.1 ≡ self.entry.runner }
    {
        // Taken apart here alone: a worker that goes out of scope discards its lease.
        let Worker { lease, runner } = self;
        (lease, runner)
    }

    /// Ends its lease: its tile is parked, abandoned or closed, and what it has not posted is lost. A park or an abandon by the
    /// tile's current lease is never refused, and takes no memory. Else refused as the book refuses it; the worker then comes back.
    pub fn end(
        self,
        book: &mut Book<'p>,
        ending: Ending,
    ) -> Result<(), Refused<BookFault, Worker<'p, T>>>
        ensures made { OnOk result (Ends book.old book.new (call_of_end ending) self.entry.grant) }
        ensures current { is_at_mark ending ≡ true → is_current book.old.tiles self.entry.grant ≡ true → IsOk result }
        ensures refused { RefusesEnd result book.old book.new (call_of_end ending) self.entry.grant }
        ensures given_back { IfErr result (λ r. r.given ≡ self.entry) }
    {
        // The runner waits beside the call, so that a refused worker comes back whole.
        let (lease, runner) = self.parts();
        let refused = match book.end(lease, ending) {
            Ok(()) => return Ok(()),
            Err(refused) => refused,
        };
        let Refused { fault, given } = refused;
        Err(Refused {
            fault,
            given: Worker {
                lease: given,
                runner,
            },
        })
    }
}
