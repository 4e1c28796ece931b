//! The numbers of a state.
ghost use Rattle.std.specs.Prelude.{◌≡◌, ◌++◌, OnOk, OnErr, map};
ghost use Rattle.x_steps.specs.StateView.{state_value};
ghost use Rattle.x_codes.specs.StateCode.{label_number, cursor_kind, cursor_choice, choice_of};
ghost use Rattle.x_codes.specs.StateCode.{after_code, path_code, paths_code, state_code, ReadsAfter, ReadsPath, ReadsPaths, ReadsState};

use cover_problem::Lists;
use packed_rows::Row;
use std::alloc::AllocError;
use x_steps::{Cursor, Label, State, shared};

/// Adds choices, or other numbers of 32 bits; where memory runs out, none.
pub fn put_choices(row: &mut Row, choices: &[u32]) -> Result<(), AllocError>
    ensures code { OnOk result (row.new ≡ row.old ++ choices.now) }
    ensures unchanged { OnErr result (row.new ≡ row.old) }
    ensures reads { map choice_of choices.now ≡ choices.now }
{
    row.put_list(choices)
}

/// Adds a list of choices, with its length before it; where memory runs out, nothing changes.
pub fn put_path(row: &mut Row, path: &[u32]) -> Result<(), AllocError>
    ensures code { OnOk result (row.new ≡ row.old ++ path_code path.now) }
    ensures unchanged { OnErr result (row.new ≡ row.old) }
    ensures reads { OnOk result (ReadsPath path.now) }
{
    // The length goes first, so that a reader can pass over a list.
    row.put_with_length(path)
}

/// Adds lists of choices, with their number before them; where memory runs out, nothing changes.
pub fn put_paths(row: &mut Row, paths: &Lists) -> Result<(), AllocError>
    ensures code { OnOk result (row.new ≡ row.old ++ paths_code paths.now) }
    ensures unchanged { OnErr result (row.new ≡ row.old) }
    ensures reads { OnOk result (ReadsPaths paths.now) }
{
    // Their number goes first: so a reader knows where they end, with anything after them.
    row.put_lists(paths)
}

/// The number of a step.
fn label_number(label: Label) -> u64
    ensures { result ≡ label_number label }
{
    match label {
        Label::X1 => 1,
        Label::X2 => 2,
        Label::X3 => 3,
        Label::X4 => 4,
        Label::X5 => 5,
        Label::X6 => 6,
        Label::X7 => 7,
        Label::X8 => 8,
        Label::Done => 9,
    }
}

/// What kind of cursor it is.
fn cursor_kind(cursor: Cursor) -> u64
    ensures { result ≡ cursor_kind cursor }
{
    match cursor {
        Cursor::None => 0,
        Cursor::At(_) => 1,
        Cursor::Past => 2,
    }
}

/// The option that a cursor is at.
fn cursor_choice(cursor: Cursor) -> u32
    ensures { result ≡ cursor_choice cursor }
{
    match cursor {
        Cursor::At(option) => option,
        _ => 0,
        // At no option a 0 is put: the place stays, and a reader needs no case.
    }
}

/// Adds the parts of a state. Where memory runs out, some numbers may be there.
fn put_parts(row: &mut Row, label: Label, cursor: Cursor, path: &[u32]) -> Result<(), AllocError>
    ensures code { OnOk result
        (row.new ≡ row.old ++ state_code (record { label = label; path = path.now; cursor = cursor })) }
    ensures reads { OnOk result (ReadsState (record { label = label; path = path.now; cursor = cursor })) }
{
    // The choices go last: before them stand three numbers, the same in each state.
    row.put(label_number(label))?;
    row.put(cursor_kind(cursor))?;
    let choice = cursor_choice(cursor);
    row.put(choice as u64)?;
    put_path(row, path)?;
    Ok(())
}

/// Adds a state. Where memory runs out, some numbers may be there.
pub fn put_state(row: &mut Row, state: &State) -> Result<(), AllocError>
    ensures code { OnOk result (row.new ≡ row.old ++ state_code (state_value state.now)) }
    ensures reads { OnOk result (ReadsState (state_value state.now)) }
{
    put_parts(row, state.label, state.cursor, &state.path)?;
    Ok(())
}

/// Adds a state after a path: how many first choices both have, and the state without them. Where memory runs out, some numbers may be
/// there.
pub fn put_after(row: &mut Row, before: &[u32], state: &State) -> Result<(), AllocError>
    ensures code { OnOk result (row.new ≡ row.old ++ after_code before.now (state_value state.now)) }
    ensures reads { OnOk result (ReadsAfter before.now (state_value state.now)) }
{
    let same = shared(before, &state.path);
    let (_, below) = state.path.split_at(same);
    row.put(same as u64)?;
    put_parts(row, state.label, state.cursor, below)?;
    Ok(())
}
