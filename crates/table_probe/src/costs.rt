//! What a stretch of a search costs by either table.
ghost use Rattle.std.specs.Prelude.{◌≡◌, ◌<◌, ◌*◌, ◌+◌, ◌↔◌, IsTrue};
ghost use Rattle.table_probe.specs.Costs.{links_cost, bits_cost};

/// What dancing links pay for each item that is looked at, in quarters of a nanosecond. specs/Costs.antt has the same numbers.
const LINKS_LOOK: u128 = 10;
/// What they pay for each node that is hidden.
const LINKS_HIDE: u128 = 16;
/// What bit sets pay more than links each time an item is chosen.
const BITS_CHOOSE: u128 = 50;
/// What they pay for each word of an item that is looked at.
const BITS_LOOK: u128 = 3;
/// What they pay for each word of a set from which an option's items are taken out.
const BITS_WRITE: u128 = 5;
/// What they pay for each word of the row of active items, through which they go for each choice.
const BITS_ROW: u128 = 18;

/// What a stretch of a search looks at and goes through. A count that would pass 2^64 - 1 stays there.
#[derive(Clone, Copy, Debug, PartialEq, Eq)]
pub struct Costs {
    /// How many times an item was chosen.
    pub chosen: u64,
    /// How many active items were looked at for it.
    pub looked: u64,
    /// How many nodes links hid: of each option that went as an item was covered, its other items.
    pub hidden: u64,
    /// For each item that was looked at, the words of 64 options that had an option left.
    pub looked_words: u64,
    /// For each option that was tried, and each six of its items, the words that had an option left as its item was chosen.
    pub written_words: u64,
    /// For each choice the words of the row of active items.
    pub row_words: u64,
}

/// What nothing costs.
pub fn no_costs() -> Costs
    ensures { result ≡ record { chosen = 0; looked = 0; hidden = 0; looked_words = 0; written_words = 0; row_words = 0 } }
{
    Costs {
        chosen: 0,
        looked: 0,
        hidden: 0,
        looked_words: 0,
        written_words: 0,
        row_words: 0,
    }
}

impl Costs {
    /// What dancing links pay.
    pub fn links(&self) -> u128
        ensures { result ≡ links_cost self.now }
    {
        LINKS_LOOK * u128::from(self.looked) + LINKS_HIDE * u128::from(self.hidden)
    }

    /// What bit sets pay.
    pub fn bits(&self) -> u128
        ensures { result ≡ bits_cost self.now }
    {
        BITS_CHOOSE * u128::from(self.chosen)
            + BITS_LOOK * u128::from(self.looked_words)
            + BITS_WRITE * u128::from(self.written_words)
            + BITS_ROW * u128::from(self.row_words)
    }

    /// Whether bit sets pay less.
    pub fn favour_bits(&self) -> bool
        ensures { IsTrue result ↔ (bits_cost self.now < links_cost self.now) }
    {
        self.bits() < self.links()
    }
}
