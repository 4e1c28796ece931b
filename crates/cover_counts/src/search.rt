//! The search. It doesn't go below a set of covered items that the cache has.
ghost use Rattle.std.specs.Prelude.{ℕ, ◌≡◌, ◌<◌, List, [], length, false, OnOk, IfOk, IfSome, IfNone, IsTrue, Some, nat_lt};
ghost use Rattle.shared_words.specs.Lists.{above};
ghost use Rattle.cover_problem.specs.Problem.{ProblemValue};
ghost use Rattle.cover_problem.specs.Covering.{active, remaining, choice};
ghost use Rattle.cover_problem.specs.Path.{taken, IsChoice};
ghost use Rattle.cover_problem.specs.Table.{IsCoveredList};
ghost use Rattle.cover_counts.specs.Below.{GainsBelow, CountsBelow};
ghost use Rattle.cover_counts.specs.Keys.{IsKeyOf};
ghost use Rattle.cover_counts.specs.Kept.{AreSoundSlots};
ghost use Rattle.cover_counts.specs.Search.{IsTableOf, IsTaken, IsEntered, IsCounted, left_of};

use crate::below::Below;
use crate::cache::Cache;
use crate::key::{key_of, key_with};
use cover_problem::{Problem, Table};
use std::alloc::{AllocError, Global};

/// A set of covered items that was taken up: the chosen item's options are tried one after the other.
#[derive(Drop)]
pub(crate) struct Open {
    pub(crate) item: u32,
    /// The option that is tried now or next, or none if all were tried.
    pub(crate) next: Option<u32>,
    /// None if there was no memory for it.
    pub(crate) key: Option<Vec<u64>>,
    /// What lies below the options that were tried.
    pub(crate) below: Below,
}

/// Covers the items of an option that is left for the chosen item.
pub(crate) fn enter<T: Table>(table: &mut T, problem: &Problem, item: u32, option: u32)
    requires at { IsTableOf problem.now (T.problem_value table.old) (T.covered_list table.old) }
    requires item { item ≡ choice problem.now (T.covered_list table.old) }
    requires choice { IsChoice problem.now (T.covered_list table.old) option }
    ensures at { IsTableOf problem.now (T.problem_value table.new) (T.covered_list table.new) }
    ensures covered { T.covered_list table.new
        ≡ taken problem.now (T.covered_list table.old) option }
{
    table.cover(item);
    table.cover_others(problem.option(option), item);
}

/// The key of the covered items, or none if there is no memory for it.
fn key_now<T: Table>(alloc: Global, table: &T, problem: &Problem) -> Option<Vec<u64>>
    requires { IsTableOf problem.now (T.problem_value table.now) (T.covered_list table.now) }
    ensures { IfSome result (λ key. IsKeyOf (length problem.now.names)
        (T.covered_list table.now) key.items) }
{
    key_of(alloc, problem.items(), table.covered())
}

/// Takes up a set of covered items, before any option of the chosen item is tried.
fn take_up(
    alloc: Global,
    item: u32,
    next: Option<u32>,
    key: Option<Vec<u64>>,
) -> Result<Open, AllocError>
    ensures { (p : ProblemValue) (c : List ℕ) → IsCoveredList p c → 0 < length (active p c)
        → item ≡ choice p c → next ≡ above 0 (remaining p c (choice p c))
        → IfSome key (λ k. IsKeyOf (length p.names) c k.items) → IfOk result (IsTaken p c) }
{
    let below = Below::of_state(alloc)?;
    Ok(Open {
        item,
        next,
        key,
        below,
    })
}

/// The same of the items that the table covers.
pub(crate) fn start<T: Table>(
    alloc: Global,
    table: &T,
    problem: &Problem,
) -> Result<Open, AllocError>
    requires at { IsTableOf problem.now (T.problem_value table.now) (T.covered_list table.now) }
    requires open { 0 < length (active problem.now (T.covered_list table.now)) }
    ensures { IfOk result (IsTaken problem.now (T.covered_list table.now)) }
{
    let item = table.choose();
    let next = table.first_option(item);
    take_up(alloc, item, next, key_now(alloc, table, problem))
}

/// Adds a dead end, or takes the set of covered items up, whose key is this one. An item is active.
fn open_set<T: Table>(
    alloc: Global,
    table: &T,
    problem: &Problem,
    key: Option<Vec<u64>>,
    sum: &mut Below,
) -> Result<Option<Open>, AllocError>
    requires at { IsTableOf problem.now (T.problem_value table.now) (T.covered_list table.now) }
    requires key { IfSome key (λ k. IsKeyOf (length problem.now.names)
        (T.covered_list table.now) k.items) }
    requires open { 0 < length (active problem.now (T.covered_list table.now)) }
    ensures known { IfOk result (λ r. IfNone r
        (GainsBelow problem.now (T.covered_list table.now) sum.old sum.new)) }
    ensures open { IfOk result (λ r. IfSome r
        (λ o. IsTaken problem.now (T.covered_list table.now) o × (sum.new ≡ sum.old))) }
{
    let item = table.choose();
    let next = table.first_option(item);
    // A dead end isn't kept, since it takes no longer to count it.
    if next.is_none() {
        sum.add_state(alloc)?;
        return Ok(None);
    }
    Ok(Some(take_up(alloc, item, next, key)?))
}

/// Whether an item is active.
pub(crate) fn has_active<T: Table>(table: &T) -> bool
    ensures { result
        ≡ nat_lt 0 (length (active (T.problem_value table.now) (T.covered_list table.now))) }
{
    table.first_item().is_some()
}

/// Adds a visit or a dead end, and takes up any other set of covered items.
fn arrive<T: Table>(
    alloc: Global,
    table: &T,
    problem: &Problem,
    key: Option<Vec<u64>>,
    sum: &mut Below,
) -> Result<Option<Open>, AllocError>
    requires at { IsTableOf problem.now (T.problem_value table.now) (T.covered_list table.now) }
    requires key { IfSome key (λ k. IsKeyOf (length problem.now.names)
        (T.covered_list table.now) k.items) }
    ensures known { IfOk result (λ r. IfNone r
        (GainsBelow problem.now (T.covered_list table.now) sum.old sum.new)) }
    ensures open { IfOk result (λ r. IfSome r
        (λ o. IsTaken problem.now (T.covered_list table.now) o × (sum.new ≡ sum.old))) }
{
    if !has_active(table) {
        sum.add_visit(alloc)?;
        return Ok(None);
    }
    open_set(alloc, table, problem, key, sum)
}

/// Adds what lies below an option if the cache has it, and goes on to the next option. So nothing is covered for it.
fn pass<T: Table>(
    table: &T,
    problem: &Problem,
    cache: &Cache,
    top: &mut Open,
    option: u32,
    key: &Option<Vec<u64>>,
) -> Result<bool, AllocError>
    requires at { IsTableOf problem.now (T.problem_value table.now) (T.covered_list table.now) }
    requires kept { AreSoundSlots problem.now cache.now.places.items }
    requires top { IsTaken problem.now (T.covered_list table.now) top.old }
    requires next { top.old.next ≡ Some option }
    requires key { IfSome key.now (λ k. IsKeyOf (length problem.now.names)
        (taken problem.now (T.covered_list table.now) option) k.items) }
    ensures gone { IfOk result (λ known. IsTrue known
        → IsTaken problem.now (T.covered_list table.now) top.new) }
    ensures fewer { IfOk result (λ known. IsTrue known
        → left_of problem.now top.new.next < left_of problem.now top.old.next) }
    ensures same { IfOk result (λ known. known ≡ false → top.new ≡ top.old) }
{
    match cache.find(key) {
        Some(below) => {
            top.below.add_deeper(cache.alloc(), below)?;
            top.next = table.next_option(top.item, option);
            Ok(true)
        }
        None => Ok(false),
    }
}

/// Uncovers the items of an option and goes on to the next one.
fn go_on<T: Table>(table: &mut T, problem: &Problem, top: &mut Open, option: u32)
    requires at { IsTableOf problem.now (T.problem_value table.old) (T.covered_list table.old) }
    requires behind { (c : List ℕ)
        × IsEntered problem.now c (T.covered_list table.old) top.old.item option }
    ensures at { IsTableOf problem.now (T.problem_value table.new) (T.covered_list table.new) }
    ensures back { (c : List ℕ)
        → IsEntered problem.now c (T.covered_list table.old) top.old.item option
        → T.covered_list table.new ≡ c }
    ensures next { (c : List ℕ)
        → IsEntered problem.now c (T.covered_list table.old) top.old.item option
        → top.new.next ≡ above option (remaining problem.now c (choice problem.now c)) }
    ensures item { top.new.item ≡ top.old.item }
    ensures key { top.new.key ≡ top.old.key }
    ensures below { top.new.below ≡ top.old.below }
{
    table.uncover_last(problem.option(option).len());
    top.next = table.next_option(top.item, option);
}

/// Tries an option: adds what lies below it if that is known, and goes on to the next option; otherwise takes up the set below it.
fn try_option<T: Table>(
    table: &mut T,
    problem: &Problem,
    cache: &Cache,
    top: &mut Open,
    option: u32,
) -> Result<Option<Open>, AllocError>
    requires at { IsTableOf problem.now (T.problem_value table.old) (T.covered_list table.old) }
    requires kept { AreSoundSlots problem.now cache.now.places.items }
    requires top { IsTaken problem.now (T.covered_list table.old) top.old }
    requires next { top.old.next ≡ Some option }
    ensures at { IsTableOf problem.now (T.problem_value table.new) (T.covered_list table.new) }
    ensures back { IfOk result (λ r. IfNone r
        (T.covered_list table.new ≡ T.covered_list table.old)) }
    ensures gone { IfOk result (λ r. IfNone r
        (IsTaken problem.now (T.covered_list table.old) top.new)) }
    ensures fewer { IfOk result (λ r. IfNone r
        (left_of problem.now top.new.next < left_of problem.now top.old.next)) }
    ensures into { IfOk result (λ r. IfSome r
        (λ o. T.covered_list table.new ≡ taken problem.now (T.covered_list table.old) option)) }
    ensures open { IfOk result (λ r. IfSome r
        (λ o. IsTaken problem.now (T.covered_list table.new) o)) }
    ensures same { IfOk result (λ r. IfSome r
        (λ o. IsTaken problem.now (T.covered_list table.old) top.new
        × (top.new.next ≡ Some option))) }
{
    let alloc = cache.alloc();
    let key = key_with(alloc, problem.items(), &top.key, problem.option(option));
    if pass(table, problem, cache, top, option, &key)? {
        return Ok(None);
    }
    enter(table, problem, top.item, option);
    match arrive(alloc, table, problem, key, &mut top.below)? {
        Some(open) => Ok(Some(open)),
        None => {
            go_on(table, problem, top, option);
            Ok(None)
        }
    }
}

/// Adds what was counted below an option, keeps it, and goes on to the parent's next option.
fn close<T: Table>(
    table: &mut T,
    problem: &Problem,
    cache: &mut Cache,
    parent: &mut Open,
    top: Open,
) -> Result<(), AllocError>
    requires at { IsTableOf problem.now (T.problem_value table.old) (T.covered_list table.old) }
    requires kept { AreSoundSlots problem.now cache.old.places.items }
    requires counted { (c : List ℕ)
        × IsCounted problem.now c (T.covered_list table.old) parent.old top }
    ensures at { IsTableOf problem.now (T.problem_value table.new) (T.covered_list table.new) }
    ensures kept { AreSoundSlots problem.now cache.new.places.items }
    ensures back { (c : List ℕ) → IsCounted problem.now c (T.covered_list table.old) parent.old top
        → OnOk result (T.covered_list table.new ≡ c) }
    ensures gone { (c : List ℕ) → IsCounted problem.now c (T.covered_list table.old) parent.old top
        → OnOk result (IsTaken problem.now c parent.new) }
    ensures fewer { OnOk result
        (left_of problem.now parent.new.next < left_of problem.now parent.old.next) }
{
    parent.below.add_deeper(cache.alloc(), &top.below)?;
    cache.keep(top.key, top.below);
    match parent.next {
        Some(option) => {
            go_on(table, problem, parent, option);
            Ok(())
        }
        None => Ok(()),
    }
}

/// What lies below the covered items. Their set is taken up already.
pub(crate) fn count_open<T: Table>(
    table: &mut T,
    problem: &Problem,
    cache: &mut Cache,
    first: Open,
) -> Result<Below, AllocError>
    requires at { IsTableOf problem.now (T.problem_value table.old) (T.covered_list table.old) }
    requires kept { AreSoundSlots problem.now cache.old.places.items }
    requires first { IsTaken problem.now (T.covered_list table.old) first }
    ensures at { OnOk result (IsTableOf problem.now (T.problem_value table.new) (T.covered_list table.new)) }
    ensures kept { OnOk result (AreSoundSlots problem.now cache.new.places.items) }
    ensures back { OnOk result (T.covered_list table.new ≡ T.covered_list table.old) }
    ensures below { IfOk result (CountsBelow problem.now (T.covered_list table.old)) }
{
    let mut parents = Vec::new(cache.alloc());
    let mut top = first;
    loop {
        match top.next {
            Some(option) => {
                if let Some(open) = try_option(table, problem, cache, &mut top, option)? {
                    parents.push(top)?;
                    top = open;
                }
            }
            None => {
                let Some(mut parent) = parents.pop() else {
                    return Ok(top.below);
                };
                close(table, problem, cache, &mut parent, top)?;
                top = parent;
            }
        }
    }
}
