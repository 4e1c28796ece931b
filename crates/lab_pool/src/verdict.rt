//! What is answered of a book, once its workers are through with it.
ghost use Rattle.std.specs.Prelude.{◌≡◌, ◌<◌, ◌≤◌, ◌↔◌, [], true, false, Some, None, IfOk, IfErr, OnOk, IfSome, IsTrue, length, drop};
ghost use Rattle.cover_problem.specs.Answers.{IfRefused};
ghost use Rattle.lab_history.specs.declared.entry.Call.{Call};
ghost use Rattle.lab_history.specs.Kinds.{kind_of};
ghost use Rattle.lab_book.specs.Book.{waiting_in, leased_in};
ghost use Rattle.lab_book.specs.Posted.{AllClosed};
ghost use Rattle.lab_book_laws.specs.AlikeBooks.{held_tiles};
ghost use Rattle.lab_book_laws.specs.Searched as spec;
ghost use Rattle.lab_book_laws.specs.Searched.{ArePoolCalls, IsSearched};
ghost use Rattle.lab_pool.specs.Pool.{GivenBack, OnlyHeld, IsDone, IsUnexplained, LacksThread, IfFault, IfGiven, IfMismatch, NoneAt, GivesBack};

use crate::fault::PoolFault;
use lab_book::{Book, CallKind, Entries};
use x_steps::Refused;

/// Why a pool didn't finish its book, with the book.
pub(crate) fn refuse<'p>(fault: PoolFault, book: Book<'p>) -> Refused<PoolFault, Option<Book<'p>>>
    ensures fault { result.fault ≡ fault }
    ensures given { result.given ≡ Some book.entry }
{
    Refused {
        fault,
        given: Some(book),
    }
}

/// Why it didn't, where the book tells something else than the workers did: no book comes back.
pub(crate) fn mismatch<'p>() -> Refused<PoolFault, Option<Book<'p>>>
    ensures fault { result.fault ≡ PoolFault.Mismatch }
    ensures given { result.given ≡ None }
{
    Refused {
        fault: PoolFault::Mismatch,
        // Such a book may be off from what the workers did: nobody may go on from it.
        given: None,
    }
}

/// Whether a pool makes such calls: it takes no held tile, puts none back, and asks none to stop.
fn is_pool_call(kind: CallKind) -> bool
    ensures { (c : Call) → kind ≡ kind_of c → result ≡ spec.is_pool_call c }
{
    match kind {
        CallKind::TakeHeld => false,
        CallKind::PutBack => false,
        CallKind::RequestStop => false,
        // The others are a worker's own calls, and leave a book that can be searched on.
        _ => true,
    }
}

/// Whether all entries from a place on are of such calls.
fn are_pool_calls(history: &Entries<'_>, from: usize) -> bool
    requires { from ≤ length history.now }
    ensures { IsTrue result ↔ ArePoolCalls (drop from history.now) }
{
    'asking: for place in from..history.len() {
        if !is_pool_call(history.kind(place)) {
            return false;
        }
    }
    true
}

/// What is answered of a book without a tile that waits or is leased: it is finished, or held tiles
/// are left.
pub(crate) fn settle<'p>(book: Book<'p>) -> Result<Book<'p>, Refused<PoolFault, Option<Book<'p>>>>
    requires none_waits { waiting_in book.tiles ≡ 0 }
    requires none_leased { leased_in book.tiles ≡ 0 }
    ensures book { IfOk result (λ b. b ≡ book.entry) }
    ensures finished { IfOk result (λ b. AllClosed b.tiles) }
    ensures none_held { OnOk result (held_tiles book.entry.tiles ≡ []) }
    ensures searched { IfOk result (λ b. IsSearched book.entry b) }
    ensures fault { IfErr result (λ r. r.fault ≡ PoolFault.Held) }
    ensures given { IfErr result (λ r. r.given ≡ Some book.entry) }
    ensures given_back { IfGiven result (λ b. GivenBack book.entry b) }
    ensures held { IfFault result PoolFault.Held (λ b. OnlyHeld book.entry b) }
    ensures held_searched { IfFault result PoolFault.Held (λ b. IsSearched book.entry b) }
    ensures some_held { IfRefused result PoolFault.Held (held_tiles book.entry.tiles ≡ [] → ⊥) }
    ensures open { IfErr result (λ r. AllClosed book.entry.tiles → ⊥) }
{
    // Nothing waits and nothing is leased, so what isn't closed is held.
    if book.finished() {
        return Ok(book);
    }
    Err(refuse(PoolFault::Held, book))
}

/// What is answered of a book whose workers made the calls from an entry on, by what went wrong.
pub(crate) fn answer<'p>(
    book: Book<'p>,
    from: usize,
    memory: bool,
    refused: bool,
) -> Result<Book<'p>, Refused<PoolFault, Option<Book<'p>>>>
    requires begun { from ≤ length book.history }
    ensures book { IfOk result (λ b. b ≡ book.entry) }
    ensures finished { IfOk result (λ b. AllClosed b.tiles) }
    ensures done { OnOk result (IsDone from book.entry) }
    ensures workers { IfErr result (λ r. r.fault ≡ PoolFault.BadWorkerCount → ⊥) }
    ensures book_back { GivesBack result book.entry }
    ensures none_back { NoneAt result PoolFault.Mismatch }
    ensures free { IfGiven result (λ b. leased_in b.tiles ≡ 0) }
    ensures held { IfRefused result PoolFault.Held (IsDone from book.entry) }
    ensures open { IfRefused result PoolFault.Held (AllClosed book.entry.tiles → ⊥) }
    ensures memory { IfRefused result PoolFault.OutOfMemory (0 < waiting_in book.entry.tiles) }
    ensures threads { IfRefused result PoolFault.NoThread (0 < waiting_in book.entry.tiles) }
    ensures memory_told { IfRefused result PoolFault.OutOfMemory (memory ≡ true) }
    ensures refusal_told { IfRefused result PoolFault.NoThread (LacksThread memory refused) }
    ensures unexplained { IfMismatch result (IsUnexplained from memory refused book.entry) }
{
    // Each worker ends its lease; a tile that is still leased has lost its worker.
    if book.leased() > 0 || !are_pool_calls(&book.history(), from) {
        return Err(mismatch());
    }
    // Whatever went wrong meanwhile, others have done the work.
    if book.waiting() == 0 {
        return settle(book);
    }
    // Told before a refused thread: want of memory ends a worker, and a thread too few ends none.
    if memory {
        return Err(refuse(PoolFault::OutOfMemory, book));
    }
    if refused {
        return Err(refuse(PoolFault::NoThread, book));
    }
    Err(mismatch())
}
