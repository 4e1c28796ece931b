//! Whether each exact cover of a search up to symmetry is a class of its own.
ghost use Rattle.std.specs.Prelude.{◌≡◌, ◌==◌, map};
ghost use Rattle.poly_cells.specs.Sets.{in_order};
ghost use Rattle.shared_words.specs.Answers.{Returns};
ghost use Rattle.poly_place.specs.Lists.{lists_of};
ghost use Rattle.poly_place.specs.Answers.{ReturnsLists};
ghost use Rattle.poly_place.specs.Forms.{forms_cmp};
ghost use Rattle.poly_place.specs.Placements.{cells_cmp};
ghost use Rattle.poly_distinct.specs.Free.{carrier_count, have_own_cells, acts_freely};

use crate::up_to::Smaller;
use poly_cells::Cell;
use poly_place::{Choice, Compiled, Group, carriers};
use std::alloc::{AllocError, Global};

impl<'a, 'p> Smaller<'a, 'p> {
    /// Whether the group acts freely at the anchor: no two choices have the same cells, and symmetries bring each choice that stays at the
    /// anchor to as many sets of cells as there are ways in which the group moves the region's cells. Then each exact cover is a class.
    pub fn is_free(&self, alloc: Global) -> Result<bool, AllocError>
        ensures { Returns result (acts_freely self.now.puzzle self.now.group) }
    {
        if !have_own_cells(alloc, self.compiled)? {
            return Ok(false);
        }
        let Some(each) = self.each(alloc)? else {
            return Ok(false);
        };
        Ok(each == carrier_count(alloc, self.compiled, self.group)?)
    }
}

/// Whether no two choices have the same cells.
fn have_own_cells(alloc: Global, compiled: &Compiled<'_>) -> Result<bool, AllocError>
    ensures { Returns result (have_own_cells compiled.now) }
{
    let choices = compiled.choices();
    let mut sets = cells_of(alloc, choices)?;
    put_sets_in_order(&mut sets);
    Ok(sets.len() == choices.len())
}

/// The cells of each choice.
fn cells_of(alloc: Global, choices: &[Choice]) -> Result<Vec<Vec<Cell>>, AllocError>
    ensures { ReturnsLists result (map (λ c. c.cells) choices.now) }
{
    let mut sets = Vec::with_capacity(alloc, choices.len())?;
    for choice in choices {
        sets.push(Vec::from_slice(alloc, choice.cells())?)?;
    }
    Ok(sets)
}

/// Puts sets of cells in order, each once.
fn put_sets_in_order(sets: &mut Vec<Vec<Cell>>)
    ensures { lists_of sets.new.items ≡ in_order cells_cmp (lists_of sets.old.items) }
{
    sets.sort_unstable();
    sets.dedup();
}

/// The number of ways in which the symmetries of a group that keep a puzzle's region and its optional cells move the region's cells.
fn carrier_count(alloc: Global, compiled: &Compiled<'_>, group: Group) -> Result<usize, AllocError>
    ensures { Returns result (carrier_count compiled.now group) }
{
    let _sound = compiled.choices();
    let mut carriers = carriers(alloc, compiled.region(), compiled.maybe_cells(), group)?;
    put_carriers_in_order(&mut carriers);
    Ok(carriers.len())
}

/// Puts carriers in order, each once.
fn put_carriers_in_order(carriers: &mut Vec<Vec<usize>>)
    ensures { lists_of carriers.new.items ≡ in_order forms_cmp (lists_of carriers.old.items) }
{
    carriers.sort_unstable();
    carriers.dedup();
}
