//! The list of an item: which options it has, and how many.

ghost use Rattle.std.specs.Prelude.{◌≡◌, ◌<◌, ◌*◌, ℕ, List, length, IfSome, None};
ghost use Rattle.cover_bits.specs.Parts.{IsFirstFrom, NoneFrom, IsLastBelow, NoneBelow};
ghost use Rattle.cover_bits.specs.Bits as bits;
ghost use Rattle.cover_bits.specs.Bits.{IsReadable, in_list, IsListOf};

use crate::sets::{Part, count_both, has, last_both, next_both};

/// The options of a set that have an item and none of those that were covered since the set was written.
#[derive(Clone, Copy)]
pub(crate) struct ItemList<'a> {
    pub parts: &'a [Part],
    /// The options that have the item.
    pub column: &'a [u64],
    /// Those of all items.
    pub columns: &'a [u64],
    /// The items that were covered since. In a search there are none: it asks for lists where a set was written.
    pub gone: &'a [u32],
}

impl ItemList<'_> {
    /// Whether an option has one of the items that were covered since.
    #[inline(always)]
    fn is_gone(&self, option: u32) -> bool
        requires sound { IsReadable self.now }
        requires within { option < 64 * length self.now.column.now }
        ensures { result ≡ bits.in_columns (length self.now.column.now) self.now.columns.now
            self.now.gone.now option }
    {
        let bits = 64 * self.column.len();
        self.gone.iter().any(|item| has(
            self.columns,
            (*item - 1) as usize * bits + option as usize,
        ))
    }

    /// The first option from one on.
    #[inline(always)]
    pub(crate) fn first(&self, start: u32) -> Option<u32>
        requires { IsReadable self.now }
        ensures some { IfSome result (λ k. IsFirstFrom (in_list self.now) start k) }
        ensures none { result ≡ None → NoneFrom (in_list self.now) start }
    {
        if self.gone.is_empty() {
            return next_both(self.parts, self.column, start);
        }
        // A copy is handed on, as `count` does.
        let list = *self;
        list.first_kept(start)
    }

    /// The first option from one on, where options are gone.
    #[cold]
    #[inline(never)]
    fn first_kept(&self, start: u32) -> Option<u32>
        requires { IsReadable self.now }
        ensures some { IfSome result (λ k. IsFirstFrom (in_list self.now) start k) }
        ensures none { result ≡ None → NoneFrom (in_list self.now) start }
    {
        let mut start = start;
        while let Some(option) = next_both(self.parts, self.column, start) {
            if !self.is_gone(option) {
                return Some(option);
            }
            start = option + 1;
        }
        None
    }

    /// The last option below one.
    pub(crate) fn last(&self, end: u32) -> Option<u32>
        requires { IsReadable self.now }
        ensures some { IfSome result (λ k. IsLastBelow (in_list self.now) end k) }
        ensures none { result ≡ None → NoneBelow (in_list self.now) end }
    {
        let mut end = end;
        while let Some(option) = last_both(self.parts, self.column, end) {
            if !self.is_gone(option) {
                return Some(option);
            }
            end = option;
        }
        None
    }

    /// How many options there are.
    #[inline(always)]
    pub(crate) fn count(&self) -> u32
        requires { IsReadable self.now }
        ensures { (xs : List ℕ) → IsListOf xs self.now → result ≡ length xs }
    {
        if self.gone.is_empty() {
            return count_both(self.parts, self.column);
        }
        // A copy is handed on: so the list itself stays in registers where a search counts.
        let list = *self;
        list.count_each()
    }

    /// How many options there are, gone through one by one.
    #[cold]
    #[inline(never)]
    fn count_each(&self) -> u32
        requires { IsReadable self.now }
        ensures { (xs : List ℕ) → IsListOf xs self.now → result ≡ length xs }
    {
        let mut count = 0;
        let mut start = 0;
        while let Some(option) = self.first(start) {
            count += 1;
            start = option + 1;
        }
        count
    }
}
