//! A tile is parted at a cut, or copied.
ghost use Rattle.std.specs.Prelude.{◌≡◌, IfOk};
ghost use Rattle.lab_book.specs.Book.{ended_tile, head_tile, tail_tile};

use crate::status::Status;
use crate::tile::{Parts, Tile, cut_state};
use std::alloc::{AllocError, Global};
use std::mem;
use x_branches::{Branch, Cut, KeptStretches};

impl<'p> Tile<'p> {
    /// The tile that a split at a cut takes, made before anything changes: its end is the one that the split tile gets.
    pub(crate) fn ended(alloc: Global, cut: &Cut<'p>) -> Result<Tile<'p>, AllocError>
        ensures { IfOk result (λ tile. tile ≡ ended_tile cut.now) }
    {
        let hi = cut.copy()?;
        // One state, shared by three: `part` gives the first to the head as its end, the tail keeps two as its marks.
        let end = cut_state(alloc, cut)?;
        let first = end.copy()?;
        let mark = end.copy()?;
        Tile::of(
            alloc,
            Parts {
                id: 0,
                branch: Branch {
                    lo: None,
                    hi: Some(hi),
                },
                end,
                status: Status::Waiting,
                stop: false,
                first,
                stretches: KeptStretches::new(alloc),
                mark,
            },
        )
    }

    /// Ends at a cut from now on; the tile that goes on from there comes out, and waits.
    pub(crate) fn part(&mut self, id: u64, cut: Cut<'p>, mut tail: Tile<'p>) -> Tile<'p>
        requires { tail ≡ ended_tile cut }
        ensures head { self.new ≡ head_tile self.old cut.entry }
        ensures tail { result ≡ tail_tile id self.old cut.entry }
    {
        let head = &mut *self.parts;
        let rest = &mut *tail.parts;
        // What ended the whole ends the tail, and the cut ends the head: two moves, and no memory.
        mem::swap(&mut head.branch.hi, &mut rest.branch.hi);
        mem::swap(&mut head.end, &mut rest.end);
        rest.branch.lo = Some(cut);
        rest.id = id;
        tail
    }

    /// The same tile, in memory of its own.
    pub fn copy(&self) -> Result<Tile<'p>, AllocError>
        ensures { IfOk result (λ tile. tile ≡ self.now) }
    {
        let branch = self.branch().copy()?;
        let end = self.parts.end.copy()?;
        let first = self.parts.first.copy()?;
        let stretches = self.stretches().copy()?;
        let mark = self.parts.mark.copy()?;
        Tile::of(
            self.allocator(),
            Parts {
                id: self.id(),
                branch,
                end,
                status: self.status(),
                stop: self.stop(),
                first,
                stretches,
                mark,
            },
        )
    }
}
