//! What tests of a search share: the texts of the small problem and of problems that are drawn by a seed, and states.
#![tactic(auto)]

use std::alloc::{AllocError, Global};
use x_steps::{Cursor, Label, State};

/// The small problem: its run has 43 steps, the cut 4 stands after 20, and X2 below 4 5 1 after 29.
pub const SMALL: &str =
    "items a b c d e f g\noption c e\noption a d g\noption b c f\noption a d f\noption b g\noption d e g";

/// The next number that is drawn, below 2^31.
pub fn draw(seed: &mut u64) -> u32 {
    *seed = seed
        .wrapping_mul(6_364_136_223_846_793_005)
        .wrapping_add(1_442_695_040_888_963_407);
    (*seed >> 33) as u32
}

/// The bit of an item, from 0.
pub fn bit(item: u32) -> u32 {
    1_u32.wrapping_shl(item)
}

/// Up to eight options of up to five items, each given by its items' bits.
pub fn drawn_options(alloc: Global, seed: &mut u64) -> Result<Vec<u32>, AllocError> {
    let mut options = Vec::new(alloc);
    for _ in 0..draw(seed) % 9 {
        options.push(draw(seed) % 31 + 1)?;
    }
    Ok(options)
}

/// Options of few of five items: `least` of them, and fewer than `counts` more. Each has the item whose turn it
/// is.
pub fn drawn_narrow_options(
    alloc: Global,
    least: u32,
    counts: u32,
    seed: &mut u64,
) -> Result<Vec<u32>, AllocError> {
    let mut options = Vec::new(alloc);
    let more = draw(seed).checked_rem(counts).unwrap_or(0);
    for count in 0..more.wrapping_add(least) {
        let few = draw(seed) & draw(seed) & 31;
        options.push(few | bit(count % 5))?;
    }
    Ok(options)
}

const NAMES: [&str; 12] = [
    " a", " b", " c", " d", " e", " f", " g", " h", " i", " j", " k", " l",
];

/// A line's key, and the names of the items whose bits are set.
fn push_line(text: &mut String, key: &str, items: u32) -> Result<(), AllocError> {
    let mut rest = items;
    text.push_str(key)?;
    for name in NAMES {
        if rest % 2 == 1 {
            text.push_str(name)?;
        }
        rest /= 2;
    }
    Ok(())
}

/// The text of the problem of so many items, up to twelve, of which the first are primary, with options that
/// are given by their items' bits.
pub fn text_of(
    alloc: Global,
    items: u32,
    primary: u32,
    options: &[u32],
) -> Result<String, AllocError> {
    let first = bit(primary).wrapping_sub(1);
    let mut text = String::new(alloc);
    push_line(&mut text, "items", first)?;
    if primary < items {
        push_line(&mut text, "\nmaybe", bit(items).wrapping_sub(1) & !first)?;
    }
    for option in options {
        push_line(&mut text, "\noption", *option)?;
    }
    Ok(text)
}

/// The state at a step after these choices.
pub fn state_of(
    alloc: Global,
    label: Label,
    path: &[u32],
    cursor: Cursor,
) -> Result<State, AllocError> {
    let path = Vec::from_slice(alloc, path)?;
    Ok(State {
        label,
        path,
        cursor,
    })
}
