//! How many options are left, for each 64 of them, and what covering costs.
ghost use Rattle.std.specs.Prelude.{◌≡◌, ◌<◌, ◌≤◌, ◌-◌, ◌*◌, ◌/◌, length, IfOk};
ghost use Rattle.cover_problem.specs.Problem.{IsProblem};
ghost use Rattle.table_probe.specs.Words.{HasWords, ServesItem};

use crate::costs::{Costs, no_costs};
use cover_problem::{Problem, Table};
use std::alloc::{AllocError, Global};

/// How many options share a word of a set. specs/Words.antt has the same number.
const WORD: u32 = 64;

/// How many items of an option one pass over a set takes out.
const PASS: u64 = 6;

/// How many options are left in each word, in how many words one is, and what was paid so far.
#[derive(Debug, Drop)]
pub struct Words {
    left: Vec<u32>,
    words: u64,
    /// For each item that was chosen, and isn't uncovered yet, in how many words an option was left then.
    nodes: Vec<u64>,
    /// How many words a row of the active items takes.
    row: u64,
    pub costs: Costs,
}

/// How many options the word at a place has, where nothing is covered.
fn word_size(options: u32, place: u32) -> u32
    requires { 64 * place ≤ options }
    ensures { result ≤ 64 }
{
    WORD.min(options - WORD * place)
}

/// The place of an option's word.
fn word_of(option: u32) -> usize
    requires { 0 < option }
    ensures { result ≡ (option - 1) / 64 }
{
    ((option - 1) / WORD) as usize
}

impl Words {
    /// The words of a problem with nothing covered.
    pub fn new(alloc: Global, problem: &Problem) -> Result<Words, AllocError>
        ensures { IfOk result (λ w. HasWords problem.now w) }
    {
        let options = problem.options();
        let mut left = Vec::new(alloc);
        for place in 0..options / WORD + 1 {
            left.push(word_size(options, place))?;
        }
        Ok(Words {
            left,
            words: u64::from(options).div_ceil(u64::from(WORD)),
            nodes: Vec::new(alloc),
            row: u64::from(problem.primary()).div_ceil(u64::from(WORD)),
            costs: no_costs(),
        })
    }

    /// An option goes.
    fn lose(&mut self, problem: &Problem, option: u32)
        requires words { HasWords problem.now self.old }
        requires some { 0 < option }
        requires within { option ≤ length problem.now.options }
        ensures { HasWords problem.now self.new }
    {
        let place = word_of(option);
        let left = self.left[place].saturating_sub(1);
        self.left[place] = left;
        if left == 0 {
            self.words = self.words.saturating_sub(1);
        }
        let others = (problem.option(option).len() as u64).saturating_sub(1);
        self.costs.hidden = self.costs.hidden.saturating_add(others);
    }

    /// An option comes back.
    fn regain(&mut self, problem: &Problem, option: u32)
        requires words { HasWords problem.now self.old }
        requires some { 0 < option }
        requires within { option ≤ length problem.now.options }
        ensures { HasWords problem.now self.new }
    {
        let place = word_of(option);
        let left = self.left[place];
        self.left[place] = left.saturating_add(1);
        if left == 0 {
            self.words = self.words.saturating_add(1);
        }
    }

    /// An item is covered: the options of its list go, as the table tells them.
    pub fn cover<T: Table>(&mut self, problem: &Problem, table: &T, item: u32)
        requires words { HasWords problem.now self.old }
        requires serves { ServesItem problem.now (T.problem_value table.now) item }
        ensures { HasWords problem.now self.new }
    {
        let mut next = table.first_option(item);
        while let Some(option) = next {
            self.lose(problem, option);
            next = table.next_option(item, option);
        }
    }

    /// An item is uncovered: the options of its list come back.
    pub fn uncover<T: Table>(&mut self, problem: &Problem, table: &T, item: u32)
        requires words { HasWords problem.now self.old }
        requires serves { ServesItem problem.now (T.problem_value table.now) item }
        ensures { HasWords problem.now self.new }
    {
        let mut next = table.first_option(item);
        while let Some(option) = next {
            self.regain(problem, option);
            next = table.next_option(item, option);
        }
    }

    /// An item is chosen, for which active items are looked at.
    pub fn choose<T: Table>(&mut self, table: &T) -> Result<(), AllocError>
        requires { IsProblem (T.problem_value table.now) }
        ensures { self.new.left ≡ self.old.left }
    {
        let looked = looked_at(table);
        self.costs.chosen = self.costs.chosen.saturating_add(1);
        self.costs.looked = self.costs.looked.saturating_add(looked);
        let words = looked.saturating_mul(self.words);
        self.costs.looked_words = self.costs.looked_words.saturating_add(words);
        self.costs.row_words = self.costs.row_words.saturating_add(self.row);
        self.nodes.push(self.words)?;
        Ok(())
    }

    /// In how many words an option was left as the last item was chosen; now, if it was chosen before the short search.
    fn words_at_node(&self) -> u64 {
        match self.nodes.last() {
            Some(words) => *words,
            None => self.words,
        }
    }

    /// An option is tried: bit sets take its items out of the set of its node.
    pub fn write(&mut self, problem: &Problem, option: u32)
        requires some { 0 < option }
        requires within { option ≤ length problem.now.options }
        ensures { self.new.left ≡ self.old.left }
    {
        let passes = (problem.option(option).len() as u64).div_ceil(PASS);
        let words = self.words_at_node().saturating_mul(passes);
        self.costs.written_words = self.costs.written_words.saturating_add(words);
    }

    /// All options of the item that was chosen last were tried.
    pub fn leave(&mut self)
        ensures { self.new.left ≡ self.old.left }
    {
        self.nodes.pop();
    }
}

/// How many active items are looked at to choose one: up to the first with no option.
fn looked_at<T: Table>(table: &T) -> u64
    requires { IsProblem (T.problem_value table.now) }
{
    let mut looked = 0u64;
    let mut next = table.first_item();
    while let Some(item) = next {
        looked = looked.saturating_add(1);
        // No list is shorter, so choosing stops here.
        if table.len(item) == 0 {
            break;
        }
        next = table.next_item(item);
    }
    looked
}
