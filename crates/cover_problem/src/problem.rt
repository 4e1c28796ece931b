//! An exact cover problem.
ghost use Rattle.std.specs.Prelude.{◌≡◌, ◌<◌, ◌≤◌, Ok, length, map, IfOk, IfErr, true, IsTrue, IsErrAnd, IsErrOf, ◌↔◌, bytes_eq, position};
ghost use Rattle.std.specs.Cmp.Lexicographic.{pointwise};
ghost use Rattle.std.specs.List.{list_all};
ghost use Rattle.std.specs.String.{string_bytes};
ghost use Rattle.cover_problem.specs.Problem.{IsProblem, is_name, option_at, name_at, item_named, is_same};
ghost use Rattle.text_lines.specs.Answers.{Gives, IsFaultOf};
ghost use Rattle.text_lines.specs.declared.refusal.Refusal.TheVariants as refusals;
ghost use Rattle.cover_problem.specs.declared.fault.Fault.TheVariants.{NoItemLine};
ghost use Rattle.cover_problem.specs.Validation.{LacksPrimary};
ghost use Rattle.cover_problem.specs.Views.{items_of, name_bytes, kept_names, problem_of_parts, problem_of_lists};
ghost use Rattle.cover_problem.specs.Checks.{checked_problem};
ghost use Rattle.shared_words.specs.Answers.{Returns};

use crate::fault::{ProblemFault, Refused};
use crate::lists::Lists;
use crate::name::Name;
use crate::validation::checked_names;
use indexmap::IndexSet;
use std::alloc::{AllocError, Global};
use std::marker::Model;

/// Items with names, of which the first have to be covered, and options.
#[derive(Drop)]
pub struct Problem {
    // In order, and found by a hash: the item numbered i stands at place i - 1.
    names: IndexSet<Name>,
    primary: u32,
    options: Lists,
}

impl Model for Problem {
    ghost use Rattle.cover_problem.specs.Views.{problem_of_parts};
    ghost use Rattle.cover_problem.specs.Problem.{ProblemValue, IsProblem};

    ghost Value = { ProblemValue };

    ghost view = { λ a. problem_of_parts a.names.keys a.primary a.options };

    ghost invariant = { λ a. IsProblem (problem_of_parts a.names.keys a.primary a.options) };
}

/// Whether the names are the same, in the same order.
fn are_same_names(names: &[Name], others: &[Name]) -> bool
    ensures { result ≡ pointwise bytes_eq (name_bytes names.now) (name_bytes others.now) }
{
    names == others
}

/// Whether the options are the same.
fn are_same_options(options: &Lists, others: &Lists) -> bool
    ensures { result ≡ pointwise bytes_eq options.now others.now }
{
    options.same(others)
}

/// The options in one list, flat in memory.
fn flat(alloc: Global, options: &[Vec<u32>]) -> Result<Lists, AllocError>
    ensures { Returns result (items_of options.now) }
{
    let mut lists = Lists::new(alloc);
    for option in options {
        lists.push(option)?;
    }
    Ok(lists)
}

/// Where a name stands.
fn place_of(names: &IndexSet<Name>, name: &str) -> Option<usize>
    requires { list_all is_name (kept_names names.now) ≡ true }
    ensures { result ≡ position (bytes_eq name.now) (kept_names names.now) }
{
    // What doesn't fit into a name is the name of no item.
    let key = Name::from(name).ok()?;
    names.get_index_of(&key)
}

/// The problem of items with these names, of which the first `primary` have to be covered, and these options.
fn checked(
    alloc: Global,
    names: &[String],
    primary: u32,
    options: &[Vec<u32>],
) -> Result<Problem, ProblemFault>
    ensures made { Gives (λ p. p) result (checked_problem names.now primary options.now) }
    ensures primary { IsErrOf result (refusals.Fault NoItemLine) ↔ LacksPrimary names.now primary }
{
    let names = checked_names(alloc, names, primary, options)?;
    let options = flat(alloc, options)?;
    Ok(Problem {
        names,
        primary,
        options,
    })
}

impl Problem {
    /// The problem of items with these names, of which the first `primary` have to be covered, and these options, each a list
    /// of item numbers from 1. A refusal is the first fault, and hands back both lists; whether there are items to cover is
    /// told before any memory is taken.
    pub fn new(
        alloc: Global,
        names: Vec<String>,
        primary: u32,
        options: Vec<Vec<u32>>,
    ) -> Result<Problem, Refused<ProblemFault, (Vec<String>, Vec<Vec<u32>>)>>
        ensures made { IfOk result (λ p. checked_problem names.items primary options.items ≡ Ok p) }
        ensures parts { Returns result (problem_of_lists names.items primary options.items) }
        ensures refused { IfErr result (λ r. IsFaultOf r.fault (checked_problem names.items primary options.items)) }
        ensures primary { IsErrAnd result (λ r. r.fault ≡ refusals.Fault NoItemLine) ↔ LacksPrimary names.items primary }
        ensures given { IfErr result (λ r. r.given ≡ (names, options)) }
    {
        // The lists are lent, so that a refusal can hand them back.
        match checked(alloc, &names, primary, &options) {
            Ok(problem) => Ok(problem),
            Err(fault) => Err(Refused {
                fault,
                given: (names, options),
            }),
        }
    }

    /// The problem of parts that are known to make one.
    pub(crate) fn from_parts(names: IndexSet<Name>, primary: u32, options: Lists) -> Problem
        requires { IsProblem (problem_of_parts names.keys primary options) }
        ensures { result ≡ problem_of_parts names.keys primary options }
    {
        Problem {
            names,
            primary,
            options,
        }
    }

    /// What is true of every problem, for a proof that needs it.
    pub fn is_sound(&self)
        ensures problem { IsProblem self.now }
    {
        // Where a field is read, what the whole keeps true is known.
        let _names = &self.names;
    }

    /// How many items it has.
    pub fn items(&self) -> u32
        ensures count { result ≡ length self.now.names }
        ensures problem { IsProblem self.now }
    {
        self.names.len() as u32
    }

    /// How many of the items have to be covered: the first ones.
    pub fn primary(&self) -> u32
        ensures { result ≡ self.now.primary }
    {
        self.primary
    }

    /// The name of the item numbered i.
    pub fn name(&self, i: u32) -> &str
        requires some { 0 < i }
        requires within { i ≤ length self.now.names }
        ensures { result.now ≡ name_at self.now.names i }
    {
        self.names.as_slice()[(i - 1) as usize].as_str()
    }

    /// The number of the item with a name.
    pub fn item(&self, name: &str) -> Option<u32>
        ensures { result ≡ item_named self.now.names name.now }
    {
        let place = place_of(&self.names, name)?;
        Some(place as u32 + 1)
    }

    /// How many options it has.
    pub fn options(&self) -> u32
        ensures { result ≡ length self.now.options }
    {
        self.options.len() as u32
    }

    /// The items of the option numbered k.
    pub fn option(&self, k: u32) -> &[u32]
        requires some { 0 < k }
        requires within { k ≤ length self.now.options }
        ensures { result.now ≡ option_at self.now k }
    {
        self.options.list((k - 1) as usize)
    }

    /// The names of the items.
    pub(crate) fn name_list(&self) -> &[Name]
        ensures names { name_bytes result.now ≡ self.now.names }
        ensures problem { IsProblem self.now }
    {
        self.names.as_slice()
    }

    /// The items of each option.
    pub(crate) fn option_lists(&self) -> &Lists
        ensures { result.now ≡ self.now.options }
    {
        &self.options
    }

    /// A copy.
    pub fn copy(&self) -> Result<Problem, AllocError>
        ensures { Returns result self.now }
    {
        let names = self.names.clone()?;
        let options = self.options.copy()?;
        Ok(Problem {
            names,
            primary: self.primary,
            options,
        })
    }

    /// Whether it is the same problem: the same names, as many primary items and the same options.
    pub fn same(&self, other: &Problem) -> bool
        ensures test { result ≡ is_same self.now other.now }
        ensures equal { IsTrue result ↔ (self.now ≡ other.now) }
    {
        // What costs least is compared first.
        self.primary == other.primary
            && are_same_names(self.names.as_slice(), other.names.as_slice())
            && are_same_options(&self.options, &other.options)
    }
}
