//! Breakpoints.

/// Where a search that is run by hand stops: at X2 with so many choices; at X5 with this option; at X4 where this item is chosen,
/// by its number; or at a visit.
#[derive(Clone, Copy, Debug, PartialEq, Eq, Hash)]
pub enum Break {
    /// At X2 with so many choices.
    Level(u32),
    /// At X5 with this option.
    Option(u32),
    /// At X4 where the item of this number is chosen.
    Item(u32),
    /// At a visit.
    Visit,
}
