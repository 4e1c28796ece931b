//! The table whose lists are bit sets of options.
ghost use Rattle.std.specs.Prelude.{◌≡◌, ◌<◌, ◌≤◌, ◌+◌, ◌-◌, ◌*◌, ◌^◌, ◌&&◌, ◌||◌, ◌==◌, ◌↔◌, IsTrue, not, true, false, ℕ, List, [], ◌∷◌, ◌++◌, length, take, option_map, vec_capacity, Some};
ghost use Rattle.std.specs.List.{position_or_len, before_first};
ghost use Rattle.shared_words.specs.Lists as members;
ghost use Rattle.shared_words.specs.Lists.{above, are_distinct};
ghost use Rattle.cover_problem.specs.Problem.{IsProblem};
ghost use Rattle.cover_problem.specs.Covering.{active, choice, list_of};
ghost use Rattle.cover_bits.specs.Parts.{words_for, in_row};
ghost use Rattle.cover_bits.specs.Bits.{AreLeftBut, IsListOf};

use crate::active::{activate, activate_each, deactivate, place_of, time_if_last, time_of};
use crate::lists::ItemList;
use crate::making::{add_below, empty_row, fill, note_all};
use crate::passes::{row, set, write_sets};
use crate::sets::{Part, are_few, first_in, words_for};
use crate::walk::{take_next, whole};
use cover_problem::{Problem, Table, push_within};
use std::alloc::{AllocError, Global};
use std::marker::Model;
use std::snapshot::Snapshot;

/// A table of bit sets: the options left, as they were with fewer and fewer items covered. A set is written when an option was taken, for
/// all of its items at once, and when one more item is covered than the last set knows of: so a search writes one for each choice. To
/// uncover items lets the sets go that were written since, and no option is put back. An item's list is what a set shares with its column,
/// which has a bit for each option that has the item. (The table: TAOCP volume 4B, section 7.2.2.1. Sets as bits, their first and last
/// member and how many there are: volume 4A, section 7.1.3.)
#[derive(Drop)]
pub struct BitTable {
    /// The problem, which contracts alone see.
    problem: Snapshot<Problem>,
    options: u32,
    primary: u32,
    /// How many words a set of options takes: one for 64 of them.
    words: usize,
    /// For each item a row of so many words: the options that have it.
    columns: Vec<u64>,
    /// For each number of covered items, from 0 up to all, room for the parts of a set: the options that are left with so many
    /// covered. Only some of these sets are written. All room is taken when the table is made, so covering takes no memory.
    parts: Vec<Part>,
    /// How many parts each of these sets has.
    counts: Vec<u32>,
    /// For each number of covered items, up to how many are covered, the number whose set was the last one written then. The items
    /// between the two haven't been taken out yet.
    bases: Vec<u32>,
    /// One row: the active items.
    active: Vec<u64>,
    /// The covered items, with room for all.
    covered: Vec<u32>,
}

impl Model for BitTable {
    ghost use Rattle.std.specs.Prelude.{vec_capacity};
    ghost use Rattle.cover_problem.specs.Table.{TableValue};
    ghost use Rattle.cover_bits.specs.Bits.{IsBits};

    ghost Value = { TableValue };

    ghost view = { λ a. record { problem = a.problem.value; covered = a.covered.items } };

    ghost invariant = { λ a. IsBits a.problem.value a.options a.primary a.words a.columns.items a.parts.items a.counts.items
        a.bases.items a.active.items a.covered.items (vec_capacity a.covered) };
}

/// The number after one that is counted from 0.
#[inline(always)]
fn after(number: Option<u32>) -> Option<u32>
    requires { (k : ℕ) → number ≡ Some k → k + 1 < 2 ^ 32 }
    ensures { result ≡ option_map (λ k. k + 1) number }
{
    // Sets count from 0, and items and options from 1.
    match number {
        Some(number) => Some(number + 1),
        None => None,
    }
}

// How lists are read.
impl BitTable {
    /// The last set that was written with up to so many items covered, and the items covered since.
    #[inline(always)]
    fn left_at(&self, depth: usize) -> (&[Part], &[u32])
        requires { depth ≤ length self.now.covered }
        ensures { AreLeftBut self.now.problem (take depth self.now.covered)
            (words_for (length self.now.problem.options)) result.0.now result.1.now }
    {
        let base = self.bases[depth] as usize;
        let (front, _) = self.covered.split_at(depth);
        let (_, gone) = front.split_at(base);
        (set(&self.parts, &self.counts, self.words, base), gone)
    }

    /// The list of an item among these parts without the options of the items that are gone.
    #[inline(always)]
    fn list_in<'a>(&'a self, parts: &'a [Part], gone: &'a [u32], item: u32) -> ItemList<'a>
        requires some { 0 < item }
        requires within { item ≤ length self.now.problem.names }
        requires left { AreLeftBut self.now.problem (before_first (λ x. x == item) self.now.covered)
            (words_for (length self.now.problem.options)) parts.now gone.now }
        ensures { IsListOf (list_of self.now.problem self.now.covered item) result }
    {
        ItemList {
            parts,
            column: row(&self.columns, self.words, (item - 1) as usize),
            columns: &self.columns,
            gone,
        }
    }

    /// The list of an item: as it was when the item was covered, or as it is.
    #[inline(always)]
    fn list(&self, item: u32) -> ItemList<'_>
        requires some { 0 < item }
        requires within { item ≤ length self.now.problem.names }
        ensures { IsListOf (list_of self.now.problem self.now.covered item) result }
    {
        let (parts, gone) = self.left_at(time_of(&self.covered, &self.active, self.primary, item));
        self.list_in(parts, gone, item)
    }
}

// How the options of a list come.
impl BitTable {
    /// The first option past one of an item's list; past 0 the first of all. A search asks for the item that was covered last, where a set
    /// was written and has few parts; all else is a call at the end, for which no register is saved.
    #[inline(always)]
    fn option_past(&self, item: u32, option: u32) -> Option<u32>
        requires some { 0 < item }
        requires within { item ≤ length self.now.problem.names }
        ensures { result ≡ above option (list_of self.now.problem self.now.covered item) }
    {
        let Some(time) = time_if_last(&self.covered, item) else {
            return self.sought_past(item, option);
        };
        let (parts, gone) = self.left_at(time);
        if !gone.is_empty() || !are_few(parts) {
            return self.sought_past(item, option);
        }
        // In the column an option has the number below its own, so what comes from its own number on stands after it.
        after(self.list_in(parts, gone, item).first(option))
    }

    /// The same for any item and set. The list is looked up anew: handed on, it would stand in memory, and each call would make room.
    #[inline(never)]
    fn sought_past(&self, item: u32, option: u32) -> Option<u32>
        requires some { 0 < item }
        requires within { item ≤ length self.now.problem.names }
        ensures { result ≡ above option (list_of self.now.problem self.now.covered item) }
    {
        after(self.list(item).first(option))
    }
}

// What is left now.
impl BitTable {
    /// The last set that was written, and the items covered since. The lists of all items that aren't covered are in it.
    #[inline(always)]
    fn left(&self) -> (&[Part], &[u32])
        ensures { AreLeftBut self.now.problem self.now.covered
            (words_for (length self.now.problem.options)) result.0.now result.1.now }
    {
        self.left_at(self.covered.len())
    }

    /// How many of the options left now have an item.
    #[inline(always)]
    fn len_in(&self, left: &[Part], gone: &[u32], item: u32) -> u32
        requires left { AreLeftBut self.now.problem self.now.covered
            (words_for (length self.now.problem.options)) left.now gone.now }
        requires some { 0 < item }
        requires within { item ≤ length self.now.problem.names }
        requires uncovered { members.has self.now.covered item ≡ false }
        ensures { result ≡ length (list_of self.now.problem self.now.covered item) }
    {
        self.list_in(left, gone, item).count()
    }
}

// How an item is chosen.
impl BitTable {
    /// The first of the active items with the fewest of the options left.
    #[inline(always)]
    fn shortest(&self, left: &[Part], gone: &[u32]) -> u32
        requires left { AreLeftBut self.now.problem self.now.covered
            (words_for (length self.now.problem.options)) left.now gone.now }
        requires problem { IsProblem self.now.problem }
        requires open { 0 < length (active self.now.problem self.now.covered) }
        ensures { result ≡ choice self.now.problem self.now.covered }
    {
        // The walk of every table. But `len` would look up for each item which set its list is in, and `next_item` where it stands.
        // Numbers count from 0 here, as those of the row do: so none is worked out twice.
        let mut rest = whole(&self.active);
        let mut best = take_next(&mut rest, &self.active).unwrap();
        let mut least = self.len_in(left, gone, best + 1);
        let mut number = best;
        // None has fewer than no option, and of those with as few the first is asked for.
        while least > 0 {
            let Some(next) = take_next(&mut rest, &self.active) else {
                return best + 1;
            };
            let len = self.len_in(left, gone, next + 1);
            if len < least {
                best = next;
                least = len;
            }
            number = next;
        }
        best + 1
    }

    /// The same where options are gone.
    #[cold]
    #[inline(never)]
    fn shortest_but(&self, left: &[Part], gone: &[u32]) -> u32
        requires left { AreLeftBut self.now.problem self.now.covered
            (words_for (length self.now.problem.options)) left.now gone.now }
        requires problem { IsProblem self.now.problem }
        requires open { 0 < length (active self.now.problem self.now.covered) }
        ensures { result ≡ choice self.now.problem self.now.covered }
    {
        self.shortest(left, gone)
    }

    /// The same, with a loop for each small number of parts: of a number that it knows the compiler keeps the parts in registers, and
    /// counts without a loop. A few levels down a set of most problems has so few.
    #[inline(always)]
    fn shortest_of(&self, left: &[Part], gone: &[u32]) -> u32
        requires left { AreLeftBut self.now.problem self.now.covered
            (words_for (length self.now.problem.options)) left.now gone.now }
        requires problem { IsProblem self.now.problem }
        requires open { 0 < length (active self.now.problem self.now.covered) }
        ensures { result ≡ choice self.now.problem self.now.covered }
    {
        match left.len() {
            1 => self.shortest(left, gone),
            2 => self.shortest(left, gone),
            3 => self.shortest(left, gone),
            4 => self.shortest(left, gone),
            5 => self.shortest(left, gone),
            6 => self.shortest(left, gone),
            7 => self.shortest(left, gone),
            8 => self.shortest(left, gone),
            9 => self.shortest(left, gone),
            10 => self.shortest(left, gone),
            11 => self.shortest(left, gone),
            12 => self.shortest(left, gone),
            _ => self.shortest(left, gone),
        }
    }
}

// How items are covered.
impl BitTable {
    /// Covers an item, and leaves its options in the last set.
    #[inline(always)]
    fn put(&mut self, item: u32)
        requires some { 0 < item }
        requires within { item ≤ length self.old.problem.names }
        requires uncovered { members.has self.old.covered item ≡ false }
        ensures same_problem { self.new.problem ≡ self.old.problem }
        ensures covered { self.new.covered ≡ self.old.covered ++ item ∷ [] }
    {
        let depth = self.covered.len();
        self.bases[depth + 1] = self.bases[depth];
        deactivate(&mut self.active, item);
        push_within(&mut self.covered, item);
    }

    /// Writes the set of the options left now, if it isn't written. In a search it is where an item is chosen.
    #[inline(always)]
    fn settle(&mut self)
        ensures same_problem { self.new.problem ≡ self.old.problem }
        ensures covered { self.new.covered ≡ self.old.covered }
    {
        let depth = self.covered.len();
        if self.bases[depth] as usize != depth {
            self.write_missing();
        }
    }

    /// The same where it isn't written.
    #[cold]
    #[inline(never)]
    fn write_missing(&mut self)
        ensures same_problem { self.new.problem ≡ self.old.problem }
        ensures covered { self.new.covered ≡ self.old.covered }
    {
        self.write_last();
    }

    /// Writes the set of the options left now.
    #[inline(always)]
    fn write_last(&mut self)
        ensures same_problem { self.new.problem ≡ self.old.problem }
        ensures covered { self.new.covered ≡ self.old.covered }
    {
        let depth = self.covered.len();
        let base = self.bases[depth] as usize;
        write_sets(
            &mut self.parts,
            &mut self.counts,
            &self.columns,
            self.words,
            &self.covered,
            base,
        );
        self.bases[depth] = depth as u32;
    }
}

impl Table for BitTable {
    ghost problem_value = { λ t. t.problem };

    ghost covered_list = { λ t. t.covered };

    fn new(alloc: Global, problem: &Problem) -> Result<Self, AllocError> {
        let items = problem.items();
        let options = problem.options();
        let primary = problem.primary();
        let words = words_for(options);
        let mut columns = empty_row(alloc, items as usize * words)?;
        note_all(&mut columns, words, problem);
        let none = Part { word: 0, place: 0 };
        // A set has a part for each word at most, and there is one set more than items.
        let mut parts = vec![in alloc; none; (items as usize + 1) * words]?;
        fill(&mut parts, words, options);
        // The other sets are written, and their parts counted, as items are covered.
        let mut counts = vec![in alloc; 0u32; items as usize + 1]?;
        counts[0] = words as u32;
        let bases = vec![in alloc; 0u32; items as usize + 1]?;
        let mut active = empty_row(alloc, words_for(items))?;
        add_below(&mut active, primary);
        let covered = Vec::with_capacity(alloc, items as usize)?;
        Ok(BitTable {
            problem: Snapshot::of(problem),
            options,
            primary,
            words,
            columns,
            parts,
            counts,
            bases,
            active,
            covered,
        })
    }

    #[inline(always)]
    fn covered(&self) -> &[u32] {
        &self.covered
    }

    #[inline(always)]
    fn first_item(&self) -> Option<u32> {
        after(first_in(&self.active, 0))
    }

    #[inline(always)]
    fn next_item(&self, item: u32) -> Option<u32> {
        // In the set an item has the number below its own, so what comes from its own number on stands after it.
        after(first_in(&self.active, item))
    }

    #[inline(always)]
    fn len(&self, item: u32) -> u32 {
        self.list(item).count()
    }

    // By itself: within the walk of a search its loops lack registers, which costs a tenth of the time.
    #[inline(never)]
    fn choose(&self) -> u32 {
        let (left, gone) = self.left();
        if !gone.is_empty() {
            return self.shortest_but(left, gone);
        }
        self.shortest_of(left, gone)
    }

    // By itself, as `choose` is.
    #[inline(never)]
    fn first_option(&self, item: u32) -> Option<u32> {
        self.option_past(item, 0)
    }

    fn last_option(&self, item: u32) -> Option<u32> {
        after(self.list(item).last(self.options))
    }

    // By itself, as `choose` is.
    #[inline(never)]
    fn next_option(&self, item: u32, option: u32) -> Option<u32> {
        // Where a field is read, what the whole keeps true is known: here, that the option has a number.
        let _primary = &self.primary;
        self.option_past(item, option)
    }

    fn prev_option(&self, item: u32, option: u32) -> Option<u32> {
        // Where a field is read, what the whole keeps true is known: here, that the option has a number.
        let _primary = &self.primary;
        // The option itself has the number below its own, at which the search ends.
        after(self.list(item).last(option - 1))
    }

    #[inline(always)]
    fn cover(&mut self, item: u32) {
        self.settle();
        self.put(item);
    }

    #[inline(always)]
    fn uncover(&mut self, item: u32) {
        // With this the set of the options left without the item is let go, if there is one: what stands past the covered items is room.
        self.covered.pop();
        activate(&mut self.active, self.primary, item);
    }

    #[inline(always)]
    fn uncover_last(&mut self, count: usize) {
        // All at once: item by item the list of covered items would be read and written for each.
        let depth = self.covered.len() - count;
        let (_, back) = self.covered.split_at(depth);
        activate_each(&mut self.active, self.primary, back);
        self.covered.truncate(depth);
    }

    #[inline(always)]
    fn cover_each(&mut self, items: &[u32]) {
        for item in items {
            self.put(*item);
        }
    }

    #[inline(always)]
    fn cover_others(&mut self, option: &[u32], item: u32) {
        // The order is round the option, as in Algorithm X: it is seen in the list of covered items.
        let place = place_of(option, item);
        let (_, after) = option.split_at(place + 1);
        self.cover_each(after);
        let (before, _) = option.split_at(place);
        self.cover_each(before);
        // Once for all of them, and for the item that was covered before them.
        self.write_last();
    }
}
