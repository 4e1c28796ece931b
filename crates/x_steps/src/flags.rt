//! A flag for each item, which tells without a search whether the item is on a list.
ghost use Rattle.std.specs.Prelude.{◌≡◌, ◌<◌, ◌≤◌, [], All, length, true, false, slice_index_or, IfOk};
ghost use Rattle.std.specs.List.{list_any};
ghost use Rattle.x_steps.specs.Flags.{AreFlagsOf, FlagsAlso};

use std::alloc::{AllocError, Global};

/// No flag, for this many items.
pub fn no_flags(alloc: Global, items: u32) -> Result<Vec<bool>, AllocError>
    ensures { IfOk result (λ flags. AreFlagsOf flags.items items []) }
{
    // Items are numbered from 1: place 0 is there so that none has to be shifted.
    vec![in alloc; false; items as usize + 1]
}

/// Flags for these, of this many items.
pub fn flags_of(alloc: Global, items: u32, flagged: &[u32]) -> Result<Vec<bool>, AllocError>
    requires { All (λ i. i ≤ items) flagged.now }
    ensures { IfOk result (λ flags. AreFlagsOf flags.items items flagged.now) }
{
    let mut flags = no_flags(alloc, items)?;
    flag_all(&mut flags, flagged);
    Ok(flags)
}

/// Flags these items too.
pub fn flag_all(flags: &mut [bool], items: &[u32])
    requires { All (λ i. i < length flags.old) items.now }
    ensures { FlagsAlso flags.old flags.new items.now }
{
    for item in items {
        flags[*item as usize] = true;
    }
}

/// Whether the item is flagged.
pub fn is_flagged(flags: &[bool], item: u32) -> bool
    requires { item < length flags.now }
    ensures { result ≡ slice_index_or flags.now item false }
{
    flags[item as usize]
}

/// Whether one of these items is flagged.
pub fn any_flagged(flags: &[bool], items: &[u32]) -> bool
    requires { All (λ i. i < length flags.now) items.now }
    ensures { result ≡ list_any (λ i. slice_index_or flags.now i false) items.now }
{
    items.iter().any(|item| flags[*item as usize])
}
