//! Tiles: the parts into which a book parts the run.
ghost use Rattle.std.specs.Prelude.{◌≡◌, ◌<◌, ◌≤◌, ◌++◌, length, Some, IfSome, OnOk, IfOk, IfErr, OnErr, IsTrue};
ghost use Rattle.shared_words.specs.Answers.{Returns};
ghost use Rattle.x_steps.specs.StateView.{state_value};
ghost use Rattle.x_branches.specs.Branch.{end_of};
ghost use Rattle.x_branches.specs.Cut.{cut_state};
ghost use Rattle.lab_book.specs.Tile.{led_to, mark_of, tile_end, EqualMarksMeet};
ghost use Rattle.lab_book.specs.Posted.{stretch_visits};
ghost use Rattle.lab_book.specs.Book.{whole_tile, posted_tile, retracted_tile, last_stretch, kept_tile};
ghost use Rattle.lab_book.specs.Calls.{LeadTo};

mod halves;

use crate::status::Status;
use cover_problem::Lists;
use packed_rows::Row;
use std::alloc::{AllocError, Global};
use std::marker::Model;
use x_branches::{Branch, Cut, KeptStretches, Stretch};
use x_steps::{Cursor, Label, Mark, State};

/// The parts of a tile.
#[derive(Drop)]
struct Parts<'p> {
    id: u64,
    branch: Branch<'p>,
    /// The state that ends the branch.
    end: Mark,
    status: Status,
    stop: bool,
    first: Mark,
    stretches: KeptStretches<'p>,
    /// Where the stretches end.
    mark: Mark,
}

/// A branch of the run, how it stands, where its search began, and the stretches that were posted of it.
///
/// Its parts stand apart, so that tiles in a list make room for one among them by a move of eight bytes each.
#[derive(Drop)]
pub struct Tile<'p> {
    parts: Box<Parts<'p>>,
}

impl<'p> Model for Tile<'p> {
    ghost use Rattle.lab_book.specs.Tile.{TileValue, KeepsTile};

    ghost Value = { TileValue };

    ghost view = { λ t. record {
      id = t.parts.value.id;
      branch = t.parts.value.branch;
      status = t.parts.value.status;
      stop = t.parts.value.stop;
      first = t.parts.value.first;
      stretches = t.parts.value.stretches;
    } };

    ghost invariant = { λ t. KeepsTile t.parts.value.branch t.parts.value.first t.parts.value.stretches
        t.parts.value.end t.parts.value.mark };
}

/// The state that ends a branch: that of its high cut, or Done.
fn end_state(alloc: Global, hi: &Option<Cut<'_>>) -> Result<Mark, AllocError>
    ensures { IfOk result (λ mark. mark ≡ end_of hi.now) }
{
    match hi {
        Some(cut) => cut_state(alloc, cut),
        None => Mark::from(State {
            label: Label::Done,
            path: Vec::new(alloc),
            cursor: Cursor::None,
        }),
    }
}

/// The state of a cut: X5 at its last choice, after the others.
fn cut_state(alloc: Global, cut: &Cut<'_>) -> Result<Mark, AllocError>
    ensures { IfOk result (λ mark. mark ≡ cut_state cut.now.path) }
{
    let choices = cut.path();
    // A cut has a choice at least: at none the run hasn't chosen yet, and there is nothing to part.
    let (front, last) = choices.split_at(choices.len() - 1);
    let path = Vec::from_slice(alloc, front)?;
    let mark = Mark::from(State {
        label: Label::X5,
        path,
        cursor: Cursor::At(last[0]),
    })?;
    Ok(mark)
}

/// Where a tile stands once it has come so far: one that is done shares the state that ends it.
fn kept_mark(to: &Mark, end: &Mark) -> Result<Mark, AllocError>
    ensures { IfOk result (λ mark. mark ≡ to.now) }
{
    if to.same(end) { end.copy() } else { to.copy() }
}

/// How many stretches come before the first mark that is a state: the marks are the first one and the ends of the stretches.
fn mark_place(
    alloc: Global,
    state: &State,
    first: &State,
    stretches: &KeptStretches<'_>,
) -> Result<Option<usize>, AllocError>
    requires { EqualMarksMeet (state_value first.now) stretches.now }
    ensures place { IfOk result (LeadTo state.now (state_value first.now) stretches.now) }
    ensures within { IfOk result (λ place. IfSome place (λ n. n ≤ length stretches.now)) }
{
    let mut found = None;
    // From the end: who goes back a few stretches of many waits for these alone.
    'looking: for place in (0..stretches.len()).rev() {
        // A kept stretch is packed: its end is made again, and that takes memory.
        let mark = stretches.stretch(place).to(alloc)?;
        if state.same(&mark) {
            // A stretch may have no step, so marks can be equal: the first of them is meant.
            found = Some(place + 1);
        } else if found.is_some() {
            // Those that are equal stand beside each other, so it is none before.
            return Ok(found);
        }
    }
    Ok(if state.same(first) { Some(0) } else { found })
}

impl<'p> Tile<'p> {
    /// The tile of these parts.
    fn of(alloc: Global, parts: Parts<'p>) -> Result<Tile<'p>, AllocError>
        requires end { parts.end ≡ end_of parts.branch.hi }
        requires mark { parts.mark ≡ led_to parts.first parts.stretches }
        ensures { IfOk result (λ tile. tile ≡ record {
          id = parts.entry.id;
          branch = parts.entry.branch;
          status = parts.entry.status;
          stop = parts.entry.stop;
          first = parts.entry.first;
          stretches = parts.entry.stretches;
        }) }
    {
        let parts = Box::new(alloc, parts)?;
        Ok(Tile { parts })
    }

    /// Whether it is the same tile; false tells nothing.
    pub fn same(&self, other: &Tile<'_>) -> bool
        ensures { IsTrue result → self.now ≡ other.now }
    {
        // What is cheap comes first; the stretches are as many as were posted.
        self.id() == other.id()
            && self.status() == other.status()
            && self.stop() == other.stop()
            && self.branch().same(other.branch())
            && self.parts.first.same(&other.parts.first)
            && self.stretches().same(other.stretches())
    }

    /// The one tile of a new book: it waits at its first mark.
    pub(crate) fn whole(
        alloc: Global,
        branch: Branch<'p>,
        first: Mark,
    ) -> Result<Tile<'p>, AllocError>
        ensures { IfOk result (λ tile. tile ≡ whole_tile branch.entry first) }
    {
        // Kept beside the branch: each post and each split compares with it.
        let end = end_state(alloc, &branch.hi)?;
        let mark = first.copy()?;
        Tile::of(
            alloc,
            Parts {
                id: 0,
                branch,
                end,
                status: Status::Waiting,
                stop: false,
                first,
                stretches: KeptStretches::new(alloc),
                mark,
            },
        )
    }

    /// Its id.
    pub fn id(&self) -> u64
        ensures { result ≡ self.now.id }
    {
        self.parts.id
    }

    /// Its branch.
    pub fn branch(&self) -> &Branch<'p>
        ensures { result.now ≡ self.now.branch }
    {
        &self.parts.branch
    }

    /// The cut where it begins, or None at X1.
    pub fn lo(&self) -> &Option<Cut<'p>>
        ensures { result.now ≡ self.now.branch.lo }
    {
        &self.parts.branch.lo
    }

    /// The cut where it ends, or None at Done.
    pub fn hi(&self) -> &Option<Cut<'p>>
        ensures { result.now ≡ self.now.branch.hi }
    {
        &self.parts.branch.hi
    }

    /// How it stands.
    pub fn status(&self) -> Status
        ensures { result ≡ self.now.status }
    {
        self.parts.status
    }

    /// Whether its worker is asked to stop.
    pub fn stop(&self) -> bool
        ensures { result ≡ self.now.stop }
    {
        self.parts.stop
    }

    /// Where its search began.
    pub fn first_mark(&self) -> &State
        ensures { state_value result.now ≡ self.now.first }
    {
        self.parts.first.state()
    }

    /// The stretches that were posted, in order.
    pub fn stretches(&self) -> &KeptStretches<'p>
        ensures { result.now ≡ self.now.stretches }
    {
        &self.parts.stretches
    }

    /// What gives it memory.
    fn allocator(&self) -> Global {
        *self.first_mark().path.allocator()
    }

    /// Where the posted stretches end.
    pub fn mark(&self) -> &State
        ensures { state_value result.now ≡ mark_of self.now }
    {
        self.parts.mark.state()
    }

    /// The same, to be shared.
    pub(crate) fn own_mark(&self) -> &Mark
        ensures { result.now ≡ mark_of self.now }
    {
        &self.parts.mark
    }

    /// The state that ends it.
    pub(crate) fn end(&self) -> &State
        ensures { state_value result.now ≡ tile_end self.now }
    {
        self.parts.end.state()
    }

    /// Stands so from now on.
    pub(crate) fn settle(&mut self, status: Status, stop: bool)
        ensures { self.new ≡ record self.old { status = status; stop = stop } }
    {
        let parts = &mut *self.parts;
        parts.status = status;
        parts.stop = stop;
    }

    /// Adds a stretch, whose row is made in a draft; where memory runs out, nothing changes and it comes back.
    pub(crate) fn add(&mut self, draft: &mut Row, stretch: Stretch<'p>) -> Result<(), Stretch<'p>>
        ensures added { OnOk result (self.new ≡ posted_tile self.old stretch.entry) }
        ensures unchanged { OnErr result (self.new ≡ self.old) }
        ensures given_back { IfErr result (λ s. s ≡ stretch.entry) }
    {
        // While the stretch is whole: packed, its end could only be made again.
        let Ok(mark) = kept_mark(stretch.to_mark(), &self.parts.end) else {
            return Err(stretch);
        };
        let parts = &mut *self.parts;
        parts.stretches.push(draft, stretch)?;
        parts.mark = mark;
        Ok(())
    }

    /// Where so many of its first stretches lead.
    pub(crate) fn mark_after(&self, count: usize) -> Result<Mark, AllocError>
        requires { count ≤ length self.now.stretches }
        ensures { Returns result (mark_of (kept_tile count self.now)) }
    {
        if count == 0 {
            return self.parts.first.copy();
        }
        let state = self.stretches().stretch(count - 1).to(self.allocator())?;
        let mark = Mark::from(state)?;
        Ok(mark)
    }

    /// Its last stretch, and the mark that it has without it.
    pub(crate) fn last(&self) -> Result<(Stretch<'p>, Mark), AllocError>
        requires { 0 < length self.now.stretches }
        ensures stretch { IfOk result (λ last. last_stretch self.now.stretches ≡ Some last.0) }
        ensures mark { IfOk result (λ last. last.1 ≡ mark_of (retracted_tile self.now)) }
    {
        let count = self.stretches().len() - 1;
        let stretch = self.stretches().stretch(count).open(self.allocator())?;
        let mark = self.mark_after(count)?;
        Ok((stretch, mark))
    }

    /// Takes the last stretch out: its mark is this one then.
    pub(crate) fn retract(&mut self, mark: Mark)
        requires some { 0 < length self.old.stretches }
        requires mark { mark ≡ mark_of (retracted_tile self.old) }
        ensures { self.new ≡ retracted_tile self.old }
    {
        let count = self.stretches().len() - 1;
        // The mark was made before, so that this can't fail.
        self.put_back(count, mark);
    }

    /// Keeps the first stretches alone: its mark is this one then.
    pub(crate) fn put_back(&mut self, count: usize, mark: Mark)
        requires some { count ≤ length self.old.stretches }
        requires mark { mark ≡ mark_of (kept_tile count self.old) }
        ensures { self.new ≡ kept_tile count self.old }
    {
        let parts = &mut *self.parts;
        parts.stretches.truncate(count);
        parts.mark = mark;
    }

    /// How many stretches come before the first of its marks that is this state.
    pub(crate) fn mark_place(&self, state: &State) -> Result<Option<usize>, AllocError>
        requires { EqualMarksMeet self.now.first self.now.stretches }
        ensures place { IfOk result (LeadTo state.now self.now.first self.now.stretches) }
        ensures within { IfOk result (λ place. IfSome place (λ n. n ≤ length self.now.stretches)) }
    {
        mark_place(self.allocator(), state, self.first_mark(), self.stretches())
    }

    /// Adds the paths that its stretches visit; where memory runs out, some may be there.
    pub(crate) fn add_visits(&self, visits: &mut Lists) -> Result<(), AllocError>
        ensures { OnOk result (visits.new ≡ visits.old ++ stretch_visits self.now.stretches) }
    {
        let stretches = self.stretches();
        for place in 0..stretches.len() {
            stretches
                .stretch(place)
                .add_visits(self.allocator(), visits)?;
        }
        Ok(())
    }
}
