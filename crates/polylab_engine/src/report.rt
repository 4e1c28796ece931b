//! The report of a whole search.
ghost use Rattle.std.specs.Prelude.{◌≡◌, [], map, IfOk};
ghost use Rattle.text_lines.specs.Writing.{text_of};
ghost use Rattle.x_texts.specs.Words.{visit_words};
ghost use Rattle.x_steps.specs.StateValue.{start};
ghost use Rattle.x_branches.specs.Branch.{whole_run};
ghost use Rattle.lab_book.specs.Posted.{IsFinished};
ghost use Rattle.polylab_engine.specs.Account.{book_visits, report_with};
ghost use Rattle.polylab_engine.specs.Output.{tally_lines, total_lines, whole_report};
ghost use Rattle.text_lines.specs.Writes.{AddsLines};
ghost use Rattle.shared_words.specs.Answers.{Returns};

use crate::numbers::{naturals_of, write_levels, write_natural_line};
use crate::visits::Visits;
use cover_counts::{Counts, Natural};
use cover_problem::Lists;
use lab_book::Book;
use std::alloc::{AllocError, Global};
use std::marker::Model;
use x_texts::VisitText;

/// The visits in path order, where they are kept, how many visits and steps there were, and how many X2 states at each level from 0
/// on, up to the last that has one.
#[derive(Drop)]
pub struct Report<V: Visits> {
    // The tally moves its own in, and would copy them through a constructor.
    pub(crate) visits: V,
    pub(crate) visited: Natural,
    pub(crate) steps: Natural,
    pub(crate) levels: Vec<Natural>,
}

impl<V: Visits> Model for Report<V> {
    ghost use Rattle.polylab_engine.specs.Account.{ReportValue};

    ghost Value = { ReportValue };

    ghost view = { λ r. record {
      visits = V.visits r.visits;
      visited = r.visited;
      steps = r.steps;
      levels = r.levels.items;
    } };
}

/// The visits of a book, or none where they are not kept.
fn visits_of(alloc: Global, book: &Book<'_>, keeps: bool) -> Result<Lists, AllocError>
    ensures { IfOk result (λ paths. IsFinished book.now → paths ≡ book_visits keeps book.now) }
{
    // A book makes the list of its visits from its stretches each time: none where nobody reads it.
    if keeps {
        book.visits()
    } else {
        Ok(Lists::new(alloc))
    }
}

/// These visits as text.
fn told(alloc: Global, visits: &Lists) -> Result<VisitText, AllocError>
    ensures { Returns result visits.now }
{
    let mut text = VisitText::new(alloc)?;
    for place in 0..visits.len() {
        text.push(visits.list(place))?;
    }
    Ok(text)
}

impl Report<Lists> {
    /// The report of a finished book of a whole run.
    pub fn of_book(alloc: Global, book: &Book<'_>, keeps: bool) -> Result<Report<Lists>, AllocError>
        requires finished { IsFinished book.now }
        requires first { book.now.first ≡ start }
        requires branch { book.now.branch ≡ whole_run }
        ensures { Returns result (whole_report keeps book.now.problem) }
    {
        let visits = visits_of(alloc, book, keeps)?;
        let levels = book.levels()?;
        Report::of_numbers(alloc, visits, book.visited(), book.steps(), &levels)
    }

    /// The report of these counts of a stretch, which has no visit.
    pub fn of_counts(alloc: Global, counts: Counts) -> Report<Lists>
        ensures visits { result.visits ≡ [] }
        ensures visited { result.visited ≡ counts.visits }
        ensures steps { result.steps ≡ counts.steps }
        ensures levels { result.levels ≡ counts.levels.items }
    {
        Report {
            visits: Lists::new(alloc),
            visited: counts.visits,
            steps: counts.steps,
            levels: counts.levels,
        }
    }

    /// The visits that are kept.
    pub fn visits(&self) -> &Lists
        ensures { result.now ≡ self.now.visits }
    {
        &self.visits
    }

    /// The same report, with its visits as text.
    pub fn told(self, alloc: Global) -> Result<Report<VisitText>, AllocError>
        ensures { Returns result self }
    {
        let visits = told(alloc, &self.visits)?;
        Ok(Report {
            visits,
            visited: self.visited,
            steps: self.steps,
            levels: self.levels,
        })
    }
}

impl Report<VisitText> {
    /// The lines of the visits that are kept.
    pub fn into_text(self) -> Vec<u8>
        ensures { result.items ≡ text_of (map visit_words self.visits) }
    {
        self.visits.into_text()
    }
}

impl<V: Visits> Report<V> {
    /// The report of these visits and numbers.
    pub fn of_numbers(
        alloc: Global,
        visits: V,
        visited: u128,
        steps: u128,
        levels: &[u128],
    ) -> Result<Report<V>, AllocError>
        ensures { Returns result (report_with (V.visits visits) visited steps levels.now) }
    {
        Ok(Report {
            visits,
            visited: Natural::of_wide(alloc, visited)?,
            steps: Natural::of_wide(alloc, steps)?,
            levels: naturals_of(alloc, levels)?,
        })
    }

    /// How many visits there were.
    pub fn visited(&self) -> &Natural
        ensures { result.now ≡ self.now.visited }
    {
        &self.visited
    }

    /// Adds the lines of the number of visits, of the steps and of the levels.
    pub fn push_totals(&self, alloc: Global, text: &mut Vec<u8>) -> Result<(), AllocError>
        ensures { AddsLines result text.old text.new (total_lines self.now.visited self.now.steps self.now.levels) }
    {
        write_natural_line(alloc, text, "visits", &self.visited)?;
        self.push_steps(alloc, text)
    }

    /// Adds the lines of the steps and of the levels, of level 0 at least.
    pub fn push_steps(&self, alloc: Global, text: &mut Vec<u8>) -> Result<(), AllocError>
        ensures { AddsLines result text.old text.new (tally_lines self.now.steps self.now.levels) }
    {
        write_natural_line(alloc, text, "steps", &self.steps)?;
        write_levels(alloc, text, &self.levels)
    }
}
