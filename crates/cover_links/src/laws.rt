//! Laws of the links: each is a function that does nothing, whose contract is the law.
ghost use Rattle.cover_links.specs.Entries.{RelinkRestores, ItemRelinkRestores};
ghost use Rattle.cover_links.specs.StandsFor.{BlockStands, UncoverRestores};

/// Where an entry's two neighbours name it, relinking it right after unlinking it gives the block back: in its vertical list,
/// and in the row of active items.
pub fn relink_restores()
    ensures in_list { RelinkRestores }
    ensures in_row { ItemRelinkRestores }
{}

/// Uncovering the item that was covered last gives the block back that stood before.
pub fn uncover_restores()
    ensures { UncoverRestores }
{}

/// The block of the items that are covered stands for them: its links walk the active items, and the options left for each item.
pub fn block_stands()
    ensures { BlockStands }
{}
