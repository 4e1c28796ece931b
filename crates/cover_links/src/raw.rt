//! The only file with `unsafe`: a row of places in one raw block, each empty or holding an entry. Its callers rest on four facts: an
//! allocated row is empty; an entry that was put is what is got; putting changes no other place; and a row is freed at most once.
ghost use Rattle.std.specs.Prelude.{◌≡◌, ℕ, ◌*◌, ◌<◌, ◌≤◌, List, Option, Some, None, length, replicate, get_or, slice_set, IfOk, ⊤};
ghost use base.Fml.{ftrue};
ghost use denote.RawPtr.{Ptr};
ghost use Rattle.cover_links.specs.Ownership.{row_own, row_lent, allocation_owns, entry_size, FitsInBlock};
ghost use Rattle.cover_links.specs.declared.entry.TableEntry.{TableEntry};

use crate::entry::TableEntry;
use std::alloc::{AllocError, Allocator};
use std::marker::{Model, PhantomData, Send, Sync};
use std::mem::{align_of, size_of};

/// Where the row begins. It owns nothing.
pub struct Base {
    pub ptr: *mut TableEntry,
}

impl Clone for Base {
    ghost is_clone = { λ x y. y ≡ x };

    ghost is_infallible = { λ _. ⊤ };

    fn clone(&self) -> Result<Base, AllocError> {
        Ok(*self)
    }
}

impl Copy for Base {}

// It is an address: who reads by it has to lend the slots, and who writes has to own them.
unsafe impl Send for Base {}

unsafe impl Sync for Base {}

/// The owner of the places. It takes no space.
pub struct Slots {
    mark: PhantomData<*const TableEntry>,
    ghost at: { Ptr },
    ghost slots: { List (Option TableEntry) },
}

impl Model for Slots {
    ghost also_owns = { λ c. row_own c.at c.slots };

    ghost also_shares = { λ c _ κ. row_lent c.at c.slots κ };
}

unsafe impl Send for Slots {}

unsafe impl Sync for Slots {}

/// The right to give the row back to its allocator. It takes no space.
pub struct Allocation<A: Allocator> {
    mark: PhantomData<*const A>,
    ghost at: { Ptr },
    ghost len: { ℕ },
    ghost alloc: { A },
}

impl<A: Allocator> Model for Allocation<A> {
    ghost also_owns = { λ d. allocation_owns (A.dealloc_token d.alloc) d.at d.len };

    ghost also_shares = { λ _ _ _. ftrue };
}

unsafe impl<A: Allocator + Send> Send for Allocation<A> {}

// A `&` to it holds nothing.
unsafe impl<A: Allocator> Sync for Allocation<A> {}

/// A row of so many empty places.
pub(crate) fn allocate<A: Allocator>(
    alloc: &A,
    len: usize,
) -> Result<(Base, Slots, Allocation<A>), AllocError>
    requires { FitsInBlock len }
    ensures { IfOk result (λ r. (r.1.at ≡ r.0.ptr) × (r.1.slots ≡ replicate len None) × (r.2.at ≡ r.0.ptr)
        × (r.2.len ≡ len) × (r.2.alloc ≡ alloc.now)) }
{
    match alloc.allocate(len * size_of::<TableEntry>(), align_of::<TableEntry>()) {
        Ok(block) => {
            let base = Base {
                ptr: block as *mut TableEntry,
            };
            Ok((
                base,
                Slots { mark: PhantomData },
                Allocation { mark: PhantomData },
            ))
        }
        Err(error) => Err(error),
    }
}

/// Gives a row back.
pub(crate) fn deallocate<A: Allocator>(
    alloc: &A,
    base: Base,
    len: usize,
    slots: Slots,
    allocation: Allocation<A>,
)
    requires { (slots.at ≡ base.ptr) × (length slots.slots ≡ len) × (allocation.at ≡ base.ptr)
        × (allocation.len ≡ len) × (allocation.alloc ≡ alloc.now) }
{
    // Both end here: no entry can be read after this, and the row can't be freed again.
    let Slots { mark: _ } = slots;
    let Allocation { mark: _ } = allocation;
    unsafe {
        alloc.deallocate(
            base.ptr as *mut u8,
            len * size_of::<TableEntry>(),
            align_of::<TableEntry>(),
        );
    }
}

impl Slots {
    /// The entry at a place, which is told by the bytes before it.
    #[inline(always)]
    pub(crate) fn get(&self, base: Base, bytes: usize) -> &TableEntry
        requires { (base.ptr ≡ self.now.at) × ((i : ℕ) × (bytes ≡ i * entry_size)
            × ((x : TableEntry) × (get_or self.now.slots i None ≡ Some x))) }
        ensures { (i : ℕ) → bytes ≡ i * entry_size → get_or self.now.slots i None ≡ Some result.now }
    {
        // What makes it safe is the clause above: the bytes lead to a place of the row, and an entry was put there.
        unsafe { &*((base.ptr as *mut u8).add(bytes) as *mut TableEntry) }
    }

    /// Puts an entry into a place, over what stood there.
    #[inline(always)]
    pub(crate) fn put(&mut self, base: Base, bytes: usize, entry: TableEntry)
        requires { (base.ptr ≡ self.old.at) × ((i : ℕ) × (bytes ≡ i * entry_size) × (i < length self.old.slots)) }
        ensures { (self.new.at ≡ self.old.at)
            × ((i : ℕ) → bytes ≡ i * entry_size → self.new.slots ≡ slice_set self.old.slots i (Some entry)) }
    {
        // What makes it safe is the clause above: the bytes lead to a place of the row. What stood there needs no drop.
        unsafe { ((base.ptr as *mut u8).add(bytes) as *mut TableEntry).write(entry) }
    }
}
