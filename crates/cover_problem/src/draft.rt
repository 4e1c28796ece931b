//! What has been read of a cover text.
ghost use Rattle.std.specs.Prelude.{◌≡◌, ◌<◌, ◌≤◌, true, [], ◌∷◌, ◌++◌, length, map, sum_by, nat_lt, OnOk, IfOk};
ghost use Rattle.std.specs.List.{All, list_all};
ghost use Rattle.text_lines.specs.Lines.{words_of};
ghost use Rattle.text_lines.specs.Each.{each};
ghost use Rattle.text_lines.specs.Answers.{Gives};
ghost use Rattle.cover_problem.specs.Faults.{Tells};
ghost use Rattle.cover_problem.specs.Problem as problem;
ghost use Rattle.cover_problem.specs.Problem.{ProblemValue, IsProblem, are_within};
ghost use Rattle.cover_problem.specs.Validation as making;
ghost use Rattle.cover_problem.specs.Validation.{add_name, with_item};
ghost use Rattle.cover_problem.specs.Stamps.{AreStamps};
ghost use Rattle.cover_problem.specs.Reading as reading;
ghost use Rattle.cover_problem.specs.Reading.{item_of, nothing};
ghost use Rattle.cover_problem.specs.Views.{kept_names, problem_of_parts};
ghost use Rattle.cover_problem.specs.Checks.{TakesItem, TakesItems};

use crate::fault::{Fault, ProblemFault, told};
use crate::key::{Key, key_of};
use crate::limits::{MOST_ENTRIES, MOST_ITEMS, MOST_OPTIONS};
use crate::lists::Lists;
use crate::name::{Name, Word, is_name};
use crate::problem::Problem;
use crate::validation::take_name;
use indexmap::IndexSet;
use std::alloc::Global;
use std::marker::Model;
use std::mem;
use text_lines::{ByLine, has_words, is_all_plain, outside_comment, split_word};

/// A problem as far as its text has been read.
#[derive(Drop)]
pub struct Draft {
    names: IndexSet<Name>,
    /// 0 until the `items` line.
    primary: usize,
    options: Lists,
    /// The items of all options together.
    entries: usize,
    /// For each item the number of the last option that took it, or 0.
    marks: Vec<u32>,
    /// Room for the items of an option until its line is read, which is used again.
    taken: Vec<u32>,
}

impl Model for Draft {
    ghost use Rattle.cover_problem.specs.Views.{problem_of_parts};
    ghost use Rattle.cover_problem.specs.Problem.{ProblemValue};
    ghost use Rattle.cover_problem.specs.Stamps.{IsDraft};

    ghost Value = { ProblemValue };

    ghost view = { λ a. problem_of_parts a.names.keys a.primary a.options };

    ghost invariant = { λ a. IsDraft (problem_of_parts a.names.keys a.primary a.options) a.entries a.marks.items };
}

/// The item of a name.
#[tactic(auto, unfolding(crate::specs::Reading::item_of))]
fn item_named(names: &IndexSet<Name>, word: &[u8]) -> Result<u32, Fault>
    requires few { length names.now.keys ≤ MOST_ITEMS }
    requires named { list_all problem.is_name (kept_names names.now) ≡ true }
    ensures item { Tells (λ i. i) result (item_of (kept_names names.now) word.now) }
    ensures some { IfOk result (λ i. 0 < i) }
    ensures within { IfOk result (λ i. i ≤ length names.now.keys) }
{
    // (what stands among the names is a name: only a word that doesn't is looked at again)
    if let Some(place) = names.get_index_of(Word(word)) {
        return Ok(place as u32 + 1);
    }
    if !is_name(word) {
        return Err(Fault::BadName);
    }
    Err(Fault::UnknownItem)
}

/// Takes an item into an option that doesn't have it yet. An item that was taken has the stamp as its mark.
fn take_once(
    marks: &mut [u32],
    stamp: u32,
    option: &mut Vec<u32>,
    item: u32,
) -> Result<(), ProblemFault>
    requires some { 0 < item }
    requires within { item ≤ length marks.old }
    requires marked { AreStamps stamp option.old.items marks.old }
    ensures item { Gives (λ _. option.new.items) result (with_item option.old.items item) }
    ensures marked { OnOk result (AreStamps stamp option.new.items marks.new) }
{
    let place = item as usize - 1;
    // Marks of earlier options are below the stamp, so no mark is cleared between two options.
    told(marks[place] != stamp, Fault::ItemTwiceInOption)?;
    option.push(item)?;
    marks[place] = stamp;
    Ok(())
}

/// Takes the item of a name into an option that doesn't have it yet.
#[tactic(auto, unfolding(crate::specs::Reading::add_item))]
fn take_item(
    names: &IndexSet<Name>,
    marks: &mut [u32],
    stamp: u32,
    option: &mut Vec<u32>,
    word: &[u8],
) -> Result<(), ProblemFault>
    requires few { length names.now.keys ≤ MOST_ITEMS }
    requires named { list_all problem.is_name (kept_names names.now) ≡ true }
    requires each_item { length marks.old ≡ length names.now.keys }
    requires marked { AreStamps stamp option.old.items marks.old }
    ensures item { TakesItem result names.now option.old.items option.new.items word.now }
    ensures marked { OnOk result (AreStamps stamp option.new.items marks.new) }
{
    let item = item_named(names, word)?;
    take_once(marks, stamp, option, item)
}

/// Takes the items of these words into an option that doesn't have them yet.
fn take_items(
    names: &IndexSet<Name>,
    marks: &mut [u32],
    stamp: u32,
    option: &mut Vec<u32>,
    words: &[u8],
) -> Result<(), ProblemFault>
    requires few { length names.now.keys ≤ MOST_ITEMS }
    requires named { list_all problem.is_name (kept_names names.now) ≡ true }
    requires each_item { length marks.old ≡ length names.now.keys }
    requires marked { AreStamps stamp option.old.items marks.old }
    ensures items { TakesItems result names.now option.old.items option.new.items words.now }
    ensures marked { OnOk result (AreStamps stamp option.new.items marks.new) }
{
    let mut rest = words;
    while let Some((word, after)) = split_word(rest) {
        take_item(names, marks, stamp, option, word)?;
        rest = after;
    }
    Ok(())
}

/// Takes the items of these words, once each. All marks are below the stamp.
fn take_option(
    names: &IndexSet<Name>,
    marks: &mut [u32],
    stamp: u32,
    taken: &mut Vec<u32>,
    words: &[u8],
) -> Result<(), ProblemFault>
    requires few { length names.now.keys ≤ MOST_ITEMS }
    requires named { list_all problem.is_name (kept_names names.now) ≡ true }
    requires each_item { length marks.old ≡ length names.now.keys }
    requires old { All (λ mark. mark < stamp) marks.old }
    ensures option { TakesItems result names.now [] taken.new.items words.now }
    ensures marks { OnOk result (All (λ mark. mark ≤ stamp) marks.new) }
{
    // The room of the option before is used again.
    taken.clear();
    take_items(names, marks, stamp, taken, words)
}

/// The names with those of these words.
fn with_names(mut names: IndexSet<Name>, words: &[u8]) -> Result<IndexSet<Name>, ProblemFault>
    ensures { Gives kept_names result (each add_name (kept_names names) (words_of words.now)) }
{
    let mut rest = words;
    while let Some((word, after)) = split_word(rest) {
        take_name(&mut names, word)?;
        rest = after;
    }
    Ok(names)
}

/// Whether so many items, and so many options with so many items together, are within the limits.
fn is_within(items: usize, options: usize, entries: usize) -> bool
    ensures { result ≡ are_within items options entries }
{
    // The order matters: where the first two hold, the difference isn't below 0.
    items <= MOST_ITEMS && options <= MOST_OPTIONS && entries <= MOST_ENTRIES - 2 - items - options
}

/// A draft within the limits.
fn within(
    names: IndexSet<Name>,
    primary: usize,
    options: Lists,
    entries: usize,
    marks: Vec<u32>,
    taken: Vec<u32>,
) -> Result<Draft, Fault>
    requires primary { primary ≤ length names.keys }
    requires named { list_all problem.is_name (kept_names names) ≡ true }
    requires counted { entries ≡ sum_by length options }
    requires marked { length marks.items ≡ length names.keys }
    requires old { All (λ mark. mark ≤ length options) marks.items }
    ensures { Tells (λ d. d) result (making.within (problem_of_parts names.keys primary options)) }
{
    if !is_within(names.len(), options.len(), entries) {
        return Err(Fault::TooLarge);
    }
    Ok(Draft {
        names,
        primary,
        options,
        entries,
        marks,
        taken,
    })
}

/// A draft without options.
fn of_names(alloc: Global, names: IndexSet<Name>, primary: usize) -> Result<Draft, ProblemFault>
    requires primary { primary ≤ length names.keys }
    requires named { list_all problem.is_name (kept_names names) ≡ true }
    ensures { Gives (λ d. d) result (making.within (problem_of_parts names.keys primary [])) }
{
    let marks = vec![in alloc; 0u32; names.len()]?;
    Ok(within(names, primary, Lists::new(alloc), 0, marks, Vec::new(alloc))?)
}

impl Draft {
    /// The draft of no lines.
    pub fn new(alloc: Global) -> Draft
        ensures { result ≡ nothing }
    {
        Draft {
            names: IndexSet::new(alloc),
            primary: 0,
            options: Lists::new(alloc),
            entries: 0,
            marks: Vec::new(alloc),
            taken: Vec::new(alloc),
        }
    }

    /// The draft with the items of an `items` line.
    #[tactic(auto, unfolding(crate::specs::Reading::items_line))]
    fn with_items(self, alloc: Global, words: &[u8]) -> Result<Draft, ProblemFault>
        ensures { Gives (λ d. d) result (reading.items_line self (words_of words.now)) }
    {
        told(has_words(words), Fault::BadLine)?;
        told(self.primary == 0, Fault::BadLine)?;
        // Where no item has to be covered there are no names either, so the set begins empty.
        let names = with_names(IndexSet::new(alloc), words)?;
        let primary = names.len();
        of_names(alloc, names, primary)
    }

    /// The draft with the items of a `maybe` line.
    #[tactic(auto, unfolding(crate::specs::Reading::maybe_line))]
    fn with_maybe(self, alloc: Global, words: &[u8]) -> Result<Draft, ProblemFault>
        ensures { Gives (λ d. d) result (reading.maybe_line self (words_of words.now)) }
    {
        told(has_words(words), Fault::BadLine)?;
        // There are more names than items to cover only after a `maybe` line.
        told(self.primary >= self.names.len(), Fault::BadLine)?;
        told(self.options.is_empty(), Fault::BadLine)?;
        told(self.primary > 0, Fault::NoItemLine)?;
        let Draft { names, primary, .. } = self;
        of_names(alloc, with_names(names, words)?, primary)
    }

    /// The draft with the option of an `option` line.
    #[tactic(auto, unfolding(crate::specs::Reading::option_line))]
    fn with_option(self, words: &[u8]) -> Result<Draft, ProblemFault>
        ensures { Gives (λ d. d) result (reading.option_line self (words_of words.now)) }
    {
        told(has_words(words), Fault::BadLine)?;
        told(self.primary > 0, Fault::NoItemLine)?;
        // Taken apart: marks that an option has set, and options without it, make no draft until it is added.
        let Draft {
            names,
            primary,
            mut options,
            entries,
            mut marks,
            mut taken,
        } = self;
        let stamp = options.len() as u32 + 1;
        take_option(&names, &mut marks, stamp, &mut taken, words)?;
        let entries = entries + taken.len();
        options.push(&taken)?;
        // The limits come last: a line with another fault is refused for that one.
        Ok(within(names, primary, options, entries, marks, taken)?)
    }

    /// The draft with a line of these words.
    #[tactic(auto, unfolding(crate::specs::Reading::words_line))]
    fn with_words(self, alloc: Global, words: &[u8]) -> Result<Draft, ProblemFault>
        ensures { Gives (λ d. d) result (reading.words_line self (words_of words.now)) }
    {
        let Some((key, words)) = split_word(words) else {
            return Ok(self);
        };
        match key_of(key).ok_or(Fault::BadLine)? {
            Key::Items => self.with_items(alloc, words),
            Key::Maybe => self.with_maybe(alloc, words),
            Key::Option => self.with_option(words),
        }
    }

    /// The draft with a line.
    #[tactic(auto, unfolding(crate::specs::Reading::line, text_lines::specs::Reading::plain_line))]
    fn with_line(self, alloc: Global, line: &[u8]) -> Result<Draft, ProblemFault>
        ensures { Gives (λ d. d) result (reading.line self line.now) }
    {
        // Any byte may stand in a comment: only what is said has to be plain.
        let said = outside_comment(line);
        told(is_all_plain(said), Fault::BadLine)?;
        self.with_words(alloc, said)
    }

    /// Whether there was an `items` line.
    pub fn has_items(&self) -> bool
        ensures { result ≡ nat_lt 0 self.now.primary }
    {
        self.primary > 0
    }

    /// The problem of a whole text.
    pub fn into_problem(self) -> Problem
        requires { IsProblem self }
        ensures { result ≡ self }
    {
        // What served the reading alone is let go: the sum, the marks and the room.
        let Draft {
            names,
            primary,
            options,
            ..
        } = self;
        Problem::from_parts(names, primary as u32, options)
    }
}

impl ByLine for Draft {
    type Fault = Fault;

    ghost line = { reading.line };

    fn add_line(&mut self, alloc: Global, bytes: &[u8]) -> Result<(), ProblemFault> {
        // Each kind of line takes the draft by value and answers the next. A refusal leaves the draft of no lines.
        let draft = mem::replace(self, Draft::new(alloc));
        *self = draft.with_line(alloc, bytes)?;
        Ok(())
    }
}
