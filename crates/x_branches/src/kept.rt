//! Stretches in few bytes, as one keeps them who has many.
ghost use Rattle.std.specs.Prelude.{◌≡◌, ◌↔◌, ◌++◌, ◌∷◌, [], ◌<◌, ◌≤◌, ◌-◌, IfOk, IfErr, OnOk, OnErr, IsTrue, Some, length, take, replicate, slice_get};
ghost use Rattle.shared_words.specs.Answers.{Returns, ReturnsItems};
ghost use Rattle.x_steps.specs.StateView.{state_value};
ghost use Rattle.x_steps.specs.Run.{steps_between};
ghost use Rattle.x_codes.specs.StateCode.{path_of};
ghost use Rattle.x_branches.specs.Stretch.{KeepsRow, counts_of, counts_rest, kept_value, kept_ends, kept_levels, kept_visits};
ghost use Rattle.x_branches.specs.Stretch.{visits_of_stretch, levels_of_stretch};

use crate::stretch::Stretch;
use cover_problem::{Lists, Problem};
use packed_rows::{Reader, Row, Rows};
use std::alloc::{AllocError, Global};
use std::marker::Model;
use x_codes::{
    put_after, put_path, put_paths, put_state, read_after, read_path, read_paths, read_state,
    skip_path, skip_paths,
};
use x_steps::{Mark, State};

/// What is kept of a stretch beside its row: telling it reads nothing.
#[derive(Drop)]
struct Head<'p> {
    problem: &'p Problem,
    steps: u32,
}

impl<'p> Model for Head<'p> {
    ghost use Rattle.x_branches.specs.Stretch.{HeadValue};

    ghost Value = { HeadValue };

    ghost view = { λ h. record { problem = h.problem.now; steps = h.steps } };
}

/// Stretches whose visits, counts and states are numbers of rows, one row for each. Where a stretch begins as one before it ended, as
/// those of one search do, the two share most of what tells it.
#[derive(Drop)]
pub struct KeptStretches<'p> {
    heads: Vec<Head<'p>>,
    /// Of each how many X2 states it has at each level, its visits, its first state, and the one that it leads to.
    rows: Rows,
}

impl<'p> Model for KeptStretches<'p> {
    ghost use Rattle.std.specs.Prelude.{List};
    ghost use Rattle.x_branches.specs.Stretch.{StretchValue, KeepsRows, kept_values};

    ghost Value = { List StretchValue };

    ghost view = { λ s. kept_values s.heads.items s.rows.rows };

    ghost invariant = { λ s. KeepsRows s.heads.items s.rows.rows };
}

/// A stretch that is kept among others, to be read.
#[derive(Drop)]
pub struct KeptStretch<'a, 'p> {
    problem: &'p Problem,
    steps: u32,
    rows: &'a Rows,
    place: usize,
}

impl<'a, 'p> Model for KeptStretch<'a, 'p> {
    ghost use Rattle.std.specs.Prelude.{[], ◌<◌, length, slice_index_or};
    ghost use Rattle.x_branches.specs.Stretch.{StretchValue, KeepsRow, kept_value};

    ghost Value = { StretchValue };

    ghost view = { λ s. kept_value s.problem.now (slice_index_or s.rows.now.rows s.place []) };

    ghost invariant = { λ s. (s.place < length s.rows.now.rows)
        × KeepsRow s.problem.now (slice_index_or s.rows.now.rows s.place []) s.steps };
}

/// How many zeros a list begins with.
fn zeros_of(list: &[u32]) -> usize
    ensures zeros { take result list.now ≡ replicate result 0 }
    ensures within { result ≤ length list.now }
{
    let mut zeros = 0;
    'counting: while zeros < list.len() && list[zeros] == 0 {
        zeros += 1;
    }
    zeros
}

/// Makes a row of a stretch's counts, visits and states. Where memory runs out, some numbers may be there.
fn pack(row: &mut Row, stretch: &Stretch<'_>) -> Result<(), AllocError>
    ensures ends { OnOk result (kept_value stretch.now.problem row.new ≡ stretch.now) }
    ensures visits { OnOk result (kept_visits row.new ≡ visits_of_stretch stretch.now) }
    ensures levels { OnOk result (kept_levels row.new ≡ levels_of_stretch stretch.now) }
{
    row.clear();
    // A stretch that begins far down has no state above: those zeros would be most of its row.
    let levels = stretch.levels();
    let zeros = zeros_of(levels);
    let (_, counts) = levels.split_at(zeros);
    // What is asked for of all stretches at once goes first.
    row.put(zeros as u64)?;
    put_path(row, counts)?;
    put_paths(row, stretch.visits())?;
    let from = stretch.from();
    put_state(row, from)?;
    // Both begin alike, mostly but for the last choices.
    put_after(row, &from.path, stretch.to())?;
    Ok(())
}

/// Reads counts.
fn read_counts(alloc: Global, reader: &mut Reader<'_>) -> Result<Vec<u32>, AllocError>
    ensures counts { IfOk result (λ counts. counts.items ≡ counts_of reader.old) }
    ensures rest { OnOk result (reader.new ≡ counts_rest reader.old) }
{
    let zeros = reader.number();
    let mut counts = vec![in alloc; 0u32; zeros as usize]?;
    let rest = read_path(alloc, reader)?;
    counts.extend_from_slice(&rest)?;
    Ok(counts)
}

/// What follows the counts in a row: its visits, and then its two states.
fn behind_counts(row: Reader<'_>) -> Reader<'_>
    ensures { result ≡ counts_rest row.entry }
{
    let mut reader = row;
    let _zeros = reader.number();
    skip_path(&mut reader);
    reader
}

/// What follows the visits in a row: its two states.
fn ends(row: Reader<'_>) -> Reader<'_>
    ensures { result ≡ kept_ends row.entry }
{
    let mut reader = behind_counts(row);
    let _visited = skip_paths(&mut reader);
    reader
}

/// Copies of heads.
fn copied<'p>(alloc: Global, heads: &[Head<'p>]) -> Result<Vec<Head<'p>>, AllocError>
    ensures { ReturnsItems result heads.now }
{
    let mut copies = Vec::with_capacity(alloc, heads.len())?;
    'copying: for head in heads {
        copies.push(Head {
            problem: head.problem,
            steps: head.steps,
        })?;
    }
    Ok(copies)
}

impl<'p> KeptStretches<'p> {
    /// No stretch.
    pub fn new(alloc: Global) -> KeptStretches<'p>
        ensures { result ≡ [] }
    {
        KeptStretches {
            heads: Vec::new(alloc),
            rows: Rows::new(alloc),
        }
    }

    /// How many there are.
    pub fn len(&self) -> usize
        ensures { result ≡ length self.now }
    {
        self.rows.len()
    }

    /// Whether there is none.
    pub fn is_empty(&self) -> bool
        ensures { IsTrue result ↔ (self.now ≡ []) }
    {
        self.len() == 0
    }

    /// The stretch at a place.
    pub fn stretch(&self, place: usize) -> KeptStretch<'_, 'p>
        requires { place < length self.now }
        ensures { slice_get self.now place ≡ Some result }
    {
        let head = &self.heads[place];
        KeptStretch {
            problem: head.problem,
            steps: head.steps,
            rows: &self.rows,
            place,
        }
    }

    /// Adds the row of a stretch, where there is room for its head.
    fn add(&mut self, draft: &mut Row, stretch: &Stretch<'p>) -> Result<(), AllocError>
        ensures added { OnOk result (self.new ≡ self.old ++ stretch.now ∷ []) }
        ensures unchanged { OnErr result (self.new ≡ self.old) }
    {
        pack(draft, stretch)?;
        self.heads.reserve(1)?;
        self.rows.push(draft)?;
        self.heads.push_reserved(Head {
            problem: stretch.problem,
            steps: stretch.steps,
        });
        Ok(())
    }

    /// Adds a stretch. Where memory runs out, nothing changes and it comes back. Its row is made in a draft, of any numbers: one draft for
    /// all stretches of a search makes them fast, since a row mostly has the long lists of the one before.
    pub fn push(&mut self, draft: &mut Row, stretch: Stretch<'p>) -> Result<(), Stretch<'p>>
        ensures added { OnOk result (self.new ≡ self.old ++ stretch.entry ∷ []) }
        ensures unchanged { OnErr result (self.new ≡ self.old) }
        ensures given_back { IfErr result (λ s. s ≡ stretch.entry) }
    {
        // Only lent up to here, so it can come back.
        match self.add(draft, &stretch) {
            Ok(()) => Ok(()),
            Err(_) => Err(stretch),
        }
    }

    /// Takes the last one away.
    pub fn pop(&mut self)
        requires { 0 < length self.old }
        ensures { self.new ≡ take (length self.old - 1) self.old }
    {
        let count = self.heads.len() - 1;
        self.heads.truncate(count);
        self.rows.pop();
    }

    /// Keeps the first ones alone.
    pub fn truncate(&mut self, count: usize)
        ensures { self.new ≡ take count self.old }
    {
        'taking: while self.len() > count {
            self.pop();
        }
    }

    /// Whether they are the same stretches of the same problems; false tells nothing.
    pub fn same(&self, other: &KeptStretches<'_>) -> bool
        ensures { IsTrue result → self.now ≡ other.now }
    {
        if self.len() != other.len() {
            return false;
        }
        'comparing: for place in 0..self.len() {
            if !self.stretch(place).same(&other.stretch(place)) {
                return false;
            }
        }
        true
    }

    /// The same stretches, in memory of their own.
    pub fn copy(&self) -> Result<KeptStretches<'p>, AllocError>
        ensures { Returns result self.now }
    {
        let rows = self.rows.copy()?;
        let heads = copied(*self.heads.allocator(), &self.heads)?;
        Ok(KeptStretches { heads, rows })
    }
}

impl<'a, 'p> KeptStretch<'a, 'p> {
    /// The stretch that is kept, whole.
    pub fn open(&self, alloc: Global) -> Result<Stretch<'p>, AllocError>
        ensures { IfOk result (λ stretch. stretch ≡ self.now) }
    {
        let mut reader = self.rows.row(self.place);
        // In the order in which `pack` put them.
        let levels = read_counts(alloc, &mut reader)?;
        let mut visits = Lists::new(alloc);
        read_paths(alloc, &mut reader, &mut visits)?;
        let from = read_state(alloc, &mut reader)?;
        let to = read_after(alloc, &mut reader, &from.path)?;
        let from = Mark::from(from)?;
        let to = Mark::from(to)?;
        Ok(Stretch {
            problem: self.problem,
            from,
            to,
            steps: self.steps,
            visits,
            levels,
        })
    }

    /// The problem whose run it is part of.
    pub fn problem(&self) -> &'p Problem
        ensures { result.now ≡ self.now.problem }
    {
        self.problem
    }

    /// Its first state.
    pub fn from(&self, alloc: Global) -> Result<State, AllocError>
        ensures { IfOk result (λ state. state_value state ≡ self.now.from) }
    {
        read_state(alloc, &mut ends(self.rows.row(self.place)))
    }

    /// The state that it leads to, which isn't in it.
    pub fn to(&self, alloc: Global) -> Result<State, AllocError>
        ensures { IfOk result (λ state. state_value state ≡ self.now.to) }
    {
        let mut reader = ends(self.rows.row(self.place));
        let from = read_state(alloc, &mut reader)?;
        read_after(alloc, &mut reader, &from.path)
    }

    /// How many steps it has.
    pub fn steps(&self) -> u32
        ensures { result ≡ steps_between self.now.problem self.now.from self.now.to }
    {
        self.steps
    }

    /// How many paths it visits.
    pub fn visited(&self) -> u64
        ensures { result ≡ length (visits_of_stretch self.now) }
    {
        skip_paths(&mut behind_counts(self.rows.row(self.place)))
    }

    /// Adds the paths that it visits; where memory runs out, some may be there.
    pub fn add_visits(&self, alloc: Global, visits: &mut Lists) -> Result<(), AllocError>
        ensures { OnOk result (visits.new ≡ visits.old ++ visits_of_stretch self.now) }
    {
        read_paths(alloc, &mut behind_counts(self.rows.row(self.place)), visits)
    }

    /// At how many levels, from 0 on, it has no X2 state; and then how many it has at each, up to the last level that has one, to be
    /// read as a list of choices is: first how many levels there are.
    pub fn levels(&self) -> (u64, Reader<'a>)
        ensures { replicate result.0 0 ++ path_of result.1 ≡ levels_of_stretch self.now }
    {
        let mut reader = self.rows.row(self.place);
        let zeros = reader.number();
        (zeros, reader)
    }

    /// Whether it is the same stretch of the same problem; false tells nothing.
    pub fn same(&self, other: &KeptStretch<'_, '_>) -> bool
        ensures { IsTrue result → self.now ≡ other.now }
    {
        // How many steps there are follows from the states. Rows that differ could tell the same states.
        let row = self.rows.row(self.place);
        self.problem.same(other.problem) && row.same(&other.rows.row(other.place))
    }
}
