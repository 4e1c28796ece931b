//! A table that copies the options and scans: the definition, run.
ghost use Rattle.std.specs.Prelude.{◌≡◌, ◌<◌, ◌≤◌, ◌^◌, ◌+◌, ◌-◌, ◌==◌, ℕ, List, [], ◌∷◌, ◌++◌, length, filter, map, not, true, find};
ghost use Rattle.std.specs.Prelude.{replicate, nat_lt, vec_len, IfOk, OnOk, vec_capacity};
ghost use Rattle.std.specs.List.{All, list_all, list_any, prefix_len};
ghost use Rattle.shared_words.specs.Lists.{last_of, numbers_above, RisesFrom};
ghost use Rattle.cover_problem.specs.Plain as plain;
ghost use Rattle.cover_problem.specs.Plain.{IsNoted, holders_of, time_in};
ghost use Rattle.cover_problem.specs.Problem as problem;
ghost use Rattle.cover_problem.specs.Problem.{IsProblem};
ghost use Rattle.cover_problem.specs.Table.{IsCoveredList};
ghost use Rattle.cover_problem.specs.Views.{items_of};

use crate::lists::Lists;
use crate::problem::Problem;
use crate::room::push_within;
use crate::table::Table;
use std::alloc::{AllocError, Global};
use std::marker::Model;
use std::snapshot::Snapshot;

/// The time of an item that isn't covered: later than each that is.
const NEVER: u32 = u32::MAX;

/// A table that scans the options of an item for those that are left.
///
/// It is what the definitions say, run: for small problems, and to compare other tables with. It keeps a copy of the options
/// and takes memory in `new` alone.
#[derive(Drop)]
pub struct PlainTable {
    /// The problem, which contracts alone see.
    problem: Snapshot<Problem>,
    primary: u32,
    options: Lists,
    /// For each item the options that have it, rising.
    holders: Vec<Vec<u32>>,
    /// The covered items, with room for all.
    covered: Vec<u32>,
    /// For each item how many were covered before it, or `NEVER`.
    times: Vec<u32>,
}

impl Model for PlainTable {
    ghost use Rattle.std.specs.Prelude.{vec_capacity};
    ghost use Rattle.cover_problem.specs.Views.{items_of};
    ghost use Rattle.cover_problem.specs.Table.{TableValue};
    ghost use Rattle.cover_problem.specs.Plain.{IsPlain};
    ghost use Rattle.cover_problem.specs.declared.plain.TheConstants.{NEVER};

    ghost Value = { TableValue };

    ghost view = { λ a. record { problem = a.problem.value; covered = a.covered.items } };

    ghost invariant = { λ a. IsPlain a.problem.value a.primary a.options (items_of a.holders.items)
        a.covered.items a.times.items NEVER (vec_capacity a.covered) };
}

/// Whether one of an option's items was covered before this time.
fn is_out(option: &[u32], times: &[u32], limit: u32) -> bool
    requires { All (λ i. (0 < i) × (i ≤ length times.now)) option.now }
    ensures { result ≡ list_any (λ i. nat_lt (time_in times.now i) limit) option.now }
{
    option
        .iter()
        // The time of an item isn't below itself: so the list of a covered item stays as it stood then.
        .any(|item| times[(*item - 1) as usize] < limit)
}

/// Whether none of the items of the option numbered k was covered before this time.
fn is_in(options: &Lists, times: &[u32], limit: u32, k: u32) -> bool
    requires fit { All (λ o. All (λ i. (0 < i) × (i ≤ length times.now)) o) options.now }
    requires some { 0 < k }
    requires within { k ≤ length options.now }
    ensures { result ≡ plain.is_in options.now times.now limit k }
{
    !is_out(options.list((k - 1) as usize), times, limit)
}

/// The first of these options that is left.
fn first_left(options: &Lists, times: &[u32], limit: u32, holders: &[u32]) -> Option<u32>
    requires fit { All (λ o. All (λ i. (0 < i) × (i ≤ length times.now)) o) options.now }
    requires within { All (λ k. (0 < k) × (k ≤ length options.now)) holders.now }
    ensures { result ≡ find (plain.is_in options.now times.now limit) holders.now }
{
    holders
        .iter()
        .copied()
        .find(|k| is_in(options, times, limit, *k))
}

/// The last of these options that is left.
fn last_left(options: &Lists, times: &[u32], limit: u32, holders: &[u32]) -> Option<u32>
    requires fit { All (λ o. All (λ i. (0 < i) × (i ≤ length times.now)) o) options.now }
    requires within { All (λ k. (0 < k) × (k ≤ length options.now)) holders.now }
    ensures { result ≡ last_of (filter (plain.is_in options.now times.now limit) holders.now) }
{
    let mut rest = holders;
    while let Some((k, before)) = rest.split_last() {
        if is_in(options, times, limit, *k) {
            return Some(*k);
        }
        rest = before;
    }
    None
}

/// How many of these options are left.
fn count_left(options: &Lists, times: &[u32], limit: u32, holders: &[u32]) -> usize
    requires fit { All (λ o. All (λ i. (0 < i) × (i ≤ length times.now)) o) options.now }
    requires within { All (λ k. (0 < k) × (k ≤ length options.now)) holders.now }
    ensures { result ≡ length (filter (plain.is_in options.now times.now limit) holders.now) }
{
    holders
        .iter()
        .filter(|k| is_in(options, times, limit, **k))
        .count()
}

/// The first item above one that isn't covered, of the first so many.
fn first_uncovered(times: &[u32], after: u32, primary: u32) -> Option<u32>
    requires after { after ≤ primary }
    requires within { primary ≤ length times.now }
    requires small { primary < 2 ^ 32 - 1 }
    ensures { result ≡ find (λ i. time_in times.now i == NEVER) (numbers_above after primary) }
{
    for item in after + 1..primary + 1 {
        if times[(item - 1) as usize] == NEVER {
            return Some(item);
        }
    }
    None
}

/// So many empty lists.
fn empty_lists(alloc: Global, count: u32) -> Result<Vec<Vec<u32>>, AllocError>
    ensures { IfOk result (λ lists. items_of lists.items ≡ replicate count []) }
{
    let mut lists = Vec::with_capacity(alloc, count as usize)?;
    for _ in 0..count {
        lists.push(Vec::new(alloc))?;
    }
    Ok(lists)
}

/// Notes an option with each of its items.
fn note(holders: &mut [Vec<u32>], option: &[u32], k: u32) -> Result<(), AllocError>
    requires { problem.is_option (length holders.old) option.now ≡ true }
    ensures { OnOk result (IsNoted k option.now (items_of holders.old) (items_of holders.new)) }
{
    for item in option {
        holders[(*item - 1) as usize].push(k)?;
    }
    Ok(())
}

/// For each of so many items the options that have it.
fn note_all(holders: &mut [Vec<u32>], options: &Lists) -> Result<(), AllocError>
    requires options { list_all (problem.is_option (length holders.old)) options.now ≡ true }
    requires empty { items_of holders.old ≡ replicate (length holders.old) [] }
    requires small { length options.now < 2 ^ 32 }
    ensures { OnOk result (items_of holders.new ≡ holders_of (length holders.old) options.now) }
{
    for place in 0..options.len() {
        // Options are noted in rising number, so the options of each item rise.
        note(holders, options.list(place), place as u32 + 1)?;
    }
    Ok(())
}

/// For each of so many items the options that have it.
fn holders_of(alloc: Global, count: u32, options: &Lists) -> Result<Vec<Vec<u32>>, AllocError>
    requires options { list_all (problem.is_option count) options.now ≡ true }
    requires small { length options.now < 2 ^ 32 }
    ensures { IfOk result (λ holders. items_of holders.items ≡ holders_of count options.now) }
{
    let mut holders = empty_lists(alloc, count)?;
    note_all(&mut holders, options)?;
    Ok(holders)
}

/// How many of these rising numbers are below a bound.
fn place_below(holders: &[u32], bound: u32) -> usize
    requires { RisesFrom 1 holders.now }
    ensures count { result ≡ prefix_len (λ k. nat_lt k bound) holders.now }
    ensures within { result ≤ length holders.now }
{
    holders.partition_point(|k| *k < bound)
}

impl PlainTable {
    /// The options that have an item, and when it was covered.
    fn row(&self, item: u32) -> (&[u32], u32)
        requires some { 0 < item }
        requires within { item ≤ length self.now.problem.names }
        ensures options { result.0.now ≡ plain.holding self.now.problem.options item }
        ensures time { result.1 ≡ plain.time_of NEVER self.now.covered item }
        ensures problem { IsProblem self.now.problem }
        ensures distinct { IsCoveredList self.now.problem self.now.covered }
    {
        (
            &self.holders[(item - 1) as usize],
            self.times[(item - 1) as usize],
        )
    }

    /// The first of these options that is left at a time.
    fn first_in(&self, holders: &[u32], time: u32) -> Option<u32>
        requires { All (λ k. (0 < k) × (k ≤ length self.now.problem.options)) holders.now }
        ensures { result ≡ find (plain.was_in NEVER self.now time) holders.now }
    {
        first_left(&self.options, &self.times, time, holders)
    }

    /// The last of these options that is left at a time.
    fn last_in(&self, holders: &[u32], time: u32) -> Option<u32>
        requires { All (λ k. (0 < k) × (k ≤ length self.now.problem.options)) holders.now }
        ensures { result ≡ last_of (filter (plain.was_in NEVER self.now time) holders.now) }
    {
        last_left(&self.options, &self.times, time, holders)
    }

    /// How many of these options are left at a time.
    fn count_in(&self, holders: &[u32], time: u32) -> usize
        requires { All (λ k. (0 < k) × (k ≤ length self.now.problem.options)) holders.now }
        ensures { result ≡ length (filter (plain.was_in NEVER self.now time) holders.now) }
    {
        count_left(&self.options, &self.times, time, holders)
    }
}

impl Table for PlainTable {
    ghost problem_value = { λ t. t.problem };

    ghost covered_list = { λ t. t.covered };

    fn new(alloc: Global, problem: &Problem) -> Result<Self, AllocError> {
        let items = problem.items();
        let options = problem.option_lists().copy()?;
        let holders = holders_of(alloc, items, &options)?;
        let covered = Vec::with_capacity(alloc, items as usize)?;
        let times = vec![in alloc; NEVER; items as usize]?;
        Ok(PlainTable {
            problem: Snapshot::of(problem),
            primary: problem.primary(),
            options,
            holders,
            covered,
            times,
        })
    }

    fn covered(&self) -> &[u32] {
        &self.covered
    }

    fn first_item(&self) -> Option<u32> {
        first_uncovered(&self.times, 0, self.primary)
    }

    fn next_item(&self, item: u32) -> Option<u32> {
        first_uncovered(&self.times, item, self.primary)
    }

    fn len(&self, item: u32) -> u32 {
        let (holders, time) = self.row(item);
        // Counted at each call: this table is for comparing, and a field for each length would be one thing more to be wrong.
        self.count_in(holders, time) as u32
    }

    fn first_option(&self, item: u32) -> Option<u32> {
        let (holders, time) = self.row(item);
        self.first_in(holders, time)
    }

    fn last_option(&self, item: u32) -> Option<u32> {
        let (holders, time) = self.row(item);
        self.last_in(holders, time)
    }

    fn next_option(&self, item: u32, option: u32) -> Option<u32> {
        // Where a field is read, what the whole keeps true is known: here, that the option has a number.
        let _ = &self.primary;
        let (holders, time) = self.row(item);
        let place = place_below(holders, option + 1);
        self.first_in(&holders[place..], time)
    }

    fn prev_option(&self, item: u32, option: u32) -> Option<u32> {
        // Where a field is read, what the whole keeps true is known: here, that the option has a number.
        let _ = &self.primary;
        let (holders, time) = self.row(item);
        let place = place_below(holders, option);
        self.last_in(&holders[..place], time)
    }

    fn cover(&mut self, item: u32) {
        // The first item that is covered has the time 0.
        let time = self.covered.len() as u32;
        self.times[(item - 1) as usize] = time;
        push_within(&mut self.covered, item);
    }

    fn uncover(&mut self, item: u32) {
        self.covered.pop();
        self.times[(item - 1) as usize] = NEVER;
    }
}
