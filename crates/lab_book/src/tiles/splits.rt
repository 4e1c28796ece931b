//! One more tile stands among the others.
ghost use Rattle.std.specs.Prelude.{◌≡◌, ◌<◌, length, IfOk, OnOk, OnErr, IfErr};
ghost use Rattle.lab_book.specs.Tiling.{AreNumbered};
ghost use Rattle.lab_book.specs.Book.{ended_tile, tiles_split};

use crate::tile::Tile;
use crate::tiles::Tiles;
use x_branches::Cut;

impl<'p> Tiles<'p> {
    /// Ends the tile at a place at a cut; behind it stands a tile that goes on from there and waits, whose id comes back: the
    /// number of tiles before. Where memory runs out, nothing changes and the cut comes back.
    pub fn split(&mut self, i: usize, cut: Cut<'p>, tail: Tile<'p>) -> Result<u64, Cut<'p>>
        requires within { i < length self.old }
        requires tail { tail ≡ ended_tile cut }
        ensures tiles { OnOk result (self.new ≡ tiles_split self.old i cut.entry) }
        ensures numbered { OnOk result (AreNumbered self.new) }
        ensures id { IfOk result (λ id. id ≡ length self.old) }
        ensures unchanged { OnErr result (self.new ≡ self.old) }
        ensures given_back { IfErr result (λ c. c ≡ cut.entry) }
    {
        self.keep_place(i);
        // Both rooms before the tile is parted: after that nothing can fail, and nothing has to be joined.
        if self.list.reserve(1).is_err() {
            return Err(cut);
        }
        if self.places.reserve(1).is_err() {
            return Err(cut);
        }
        let id = self.list.len();
        let tail = self.list[i].part(id as u64, cut, tail);
        let Ok(()) = self.list.insert(i + 1, tail) else {
            // Room was reserved, and a place behind a tile is within the list or its end.
            unreachable!()
        };
        // The new id is the last. Tiles behind it moved up, which their places allow.
        self.places.push_reserved(i + 1);
        // The new tile waits, so no search may begin behind it.
        self.from = self.from.min(i + 1);
        self.waiting += 1;
        Ok(id as u64)
    }
}
