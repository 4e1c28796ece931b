//! What was posted of a book's branch.
ghost use Rattle.std.specs.Prelude.{◌≡◌, ◌↔◌, length, IsTrue, IfOk};
ghost use Rattle.shared_words.specs.Answers.{ReturnsItems};
ghost use Rattle.x_steps.specs.Order.{PathsRise};
ghost use Rattle.lab_book.specs.Posted.{posted_steps, posted_levels, posted_visits, IsFinished, whole_visits, whole_steps, whole_levels};

use crate::book::Book;
use cover_problem::Lists;
use std::alloc::AllocError;
use x_steps::drop_last_zeros;

impl<'p> Book<'p> {
    /// Whether all tiles are closed.
    pub fn finished(&self) -> bool
        ensures { IsTrue result ↔ IsFinished self.now }
    {
        self.tiles
            .list()
            .iter()
            .all(|tile| tile.status().is_closed())
    }

    /// The paths that the posted stretches visit, tile by tile: none comes twice, and where all tiles are closed, they are the
    /// visits of the run from the first mark to the branch's end, in their order.
    pub fn visits(&self) -> Result<Lists, AllocError>
        ensures visits { IfOk result (λ paths. paths ≡ posted_visits self.now.tiles) }
        ensures rise { IfOk result (λ paths. PathsRise paths) }
        ensures whole { IfOk result (λ paths. IsFinished self.now → paths ≡ whole_visits self.now) }
    {
        let mut visits = Lists::new(*self.first.state().path.allocator());
        // Who asks while nothing is found mostly asks again.
        if self.visited() == 0 {
            return Ok(visits);
        }
        // Tiles stand in the order of the run, so the visits of each come after those of all before it.
        for tile in self.tiles.list() {
            tile.add_visits(&mut visits)?;
        }
        Ok(visits)
    }

    /// How many paths the posted stretches visit, with no list of them: where all tiles are closed, the run visits so many from the
    /// first mark to the branch's end.
    pub fn visited(&self) -> u128
        ensures visited { result ≡ length (posted_visits self.now.tiles) }
        ensures whole { IsFinished self.now → result ≡ length (whole_visits self.now) }
    {
        self.tiles.visited()
    }

    /// How many steps the posted stretches have: where all tiles are closed, the run has so many from the first mark to the branch's
    /// end.
    pub fn steps(&self) -> u128
        ensures steps { result ≡ posted_steps self.now.tiles }
        ensures whole { IsFinished self.now → result ≡ whole_steps self.now }
    {
        self.tiles.steps()
    }

    /// How many X2 states the posted stretches have at each level from 0 on, up to the last level that has one: where all tiles
    /// are closed, the run has so many from the first mark to the branch's end.
    pub fn levels(&self) -> Result<Vec<u128>, AllocError>
        ensures levels { ReturnsItems result (posted_levels self.now.problem self.now.tiles) }
        ensures whole { IfOk result (λ v. IsFinished self.now → v.items ≡ whole_levels self.now) }
    {
        let alloc = *self.first.state().path.allocator();
        let mut levels = Vec::from_slice(alloc, self.tiles.levels())?;
        // The run's own levels end with the last one that was reached; a post that was taken back may have gone further.
        drop_last_zeros(&mut levels);
        Ok(levels)
    }
}
