//! A search goes on from a snapshot.
ghost use Rattle.std.specs.Prelude.{◌≡◌, ◌↔◌, false, None, IfOk, IsTrue};
ghost use Rattle.x_steps.specs.StateValue.{at, done};
ghost use Rattle.x_steps.specs.StateView.{state_value};
ghost use Rattle.x_snapshot.specs.Snapshot.{IsSnapshot, at_state};
ghost use Rattle.polylab_engine.specs.Stretch.{end_at};
ghost use Rattle.polylab_engine.specs.Searcher.{stands};
ghost use Rattle.polylab_engine.specs.Resumed.{branch_end, resume_output, stop_of, rest_text, snapshot_position, report_up_to};
ghost use Rattle.shared_words.specs.Answers.{ReturnsItems};

use crate::cover::report_text;
use crate::report::Report;
use crate::search::count_stretch;
use crate::searcher::{Searcher, last_state};
use crate::stretch::{Bounds, search_on};
use crate::tables::TableKind;
use std::alloc::{AllocError, Global};
use x_snapshot::{Snapshot, write_snapshot};
use x_steps::{Cursor, Label, State};
use x_texts::VisitText;

/// What `resume` writes of a snapshot: the report of the stretch from its state on, with the visits or without them, up to the end of
/// its branch, or as many steps on as are asked for, where that comes first; and then that it ended, or the snapshot there. Where neither
/// visits nor a number of steps are asked for, what lies below a set of covered items is searched once, as long as its counts are kept in
/// `cache` bytes, if some are.
pub fn resume(
    alloc: Global,
    table: Option<TableKind>,
    cache: Option<usize>,
    most: Option<u64>,
    lists: bool,
    snapshot: Snapshot,
) -> Result<Vec<u8>, AllocError>
    ensures { ReturnsItems result (resume_output most lists snapshot) }
{
    match (cache, most, lists) {
        // Counts that are kept tell neither the visits, nor where a number of steps leads.
        (Some(room), None, false) => counted(alloc, table, room, &snapshot),
        _ => walked(alloc, table, most, lists, snapshot),
    }
}

/// The same of a walk.
#[tactic(auto, unfolding(crate::specs::Resumed::resume_output))]
fn walked(
    alloc: Global,
    table: Option<TableKind>,
    most: Option<u64>,
    lists: bool,
    snapshot: Snapshot,
) -> Result<Vec<u8>, AllocError>
    ensures { ReturnsItems result (resume_output most lists snapshot) }
{
    snapshot.is_sound();
    let (report, stop) = stretch_of(alloc, table, most, lists, &snapshot)?;
    let mut text = report_text(alloc, report)?;
    // The rest takes the snapshot with it, so the report is written first.
    let rest = rest_of(alloc, snapshot, stop)?;
    text.extend_from_slice(&rest)?;
    Ok(text)
}

/// The numbers up to the end of the branch, counted with a cache.
fn counted(
    alloc: Global,
    table: Option<TableKind>,
    room: usize,
    snapshot: &Snapshot,
) -> Result<Vec<u8>, AllocError>
    ensures { ReturnsItems result (resume_output None false snapshot.now) }
{
    snapshot.is_sound();
    let end = end_state(alloc, snapshot)?;
    let report = count_stretch(
        alloc,
        snapshot.problem(),
        table,
        snapshot.state(),
        &end,
        room,
    )?;
    let mut text = Vec::new(alloc);
    report.push_totals(alloc, &mut text)?;
    text.extend_from_slice(b"end\n")?;
    Ok(text)
}

/// The state where a snapshot's branch ends.
fn end_state(alloc: Global, snapshot: &Snapshot) -> Result<State, AllocError>
    ensures { IfOk result (λ s. state_value s ≡ branch_end snapshot.now) }
{
    match end_choices(snapshot).split_last() {
        Some((last, front)) => Ok(State {
            label: Label::X5,
            path: Vec::from_slice(alloc, front)?,
            cursor: Cursor::At(*last),
        }),
        None => Ok(last_state(alloc)),
    }
}

/// The choices of the cut where a snapshot's branch ends; none where it ends with the run.
fn end_choices(snapshot: &Snapshot) -> &[u32]
    ensures { end_at result.now ≡ branch_end snapshot.now }
{
    snapshot.is_sound();
    match snapshot.hi() {
        Some(path) => path,
        None => &[],
    }
}

/// A search at a snapshot's state.
fn searcher_at<'p>(
    alloc: Global,
    table: Option<TableKind>,
    snapshot: &'p Snapshot,
) -> Result<Searcher<'p>, AllocError>
    ensures { IfOk result (λ s. stands s ≡ snapshot_position snapshot.now) }
{
    Searcher::at(alloc, snapshot.problem(), table, snapshot.state())
}

/// The report of the stretch from a snapshot's state on, and the state where it stops.
fn stretch_of(
    alloc: Global,
    table: Option<TableKind>,
    most: Option<u64>,
    lists: bool,
    snapshot: &Snapshot,
) -> Result<(Report<VisitText>, State), AllocError>
    ensures stop { IfOk result (λ r. state_value r.1 ≡ stop_of most snapshot.now) }
    ensures report { IfOk result (λ r. r.0 ≡ report_up_to lists snapshot.now (state_value r.1)) }
{
    snapshot.is_sound();
    let searcher = searcher_at(alloc, table, snapshot)?;
    let bounds = Bounds {
        end: end_choices(snapshot),
        most,
        first: None,
        keeps: lists,
    };
    let (report, stop) = search_on(alloc, searcher, bounds)?;
    Ok((report, stop))
}

/// Whether a state is X5 at an option, after these choices.
fn is_cut(state: &State, front: &[u32], option: u32) -> bool
    ensures { IsTrue result ↔ (state_value state.now ≡ at Label.X5 front.now (Cursor.At option)) }
{
    state.label == Label::X5 && state.cursor == Cursor::At(option) && state.path.as_slice() == front
}

/// Whether a state is Done.
fn is_done(state: &State) -> bool
    ensures { IsTrue result ↔ (state_value state.now ≡ done) }
{
    state.label == Label::Done && state.cursor == Cursor::None && state.path.is_empty()
}

/// Whether a state is that of the cut of these choices, or Done where there are none.
fn is_end(state: &State, end: &[u32]) -> bool
    ensures { IsTrue result ↔ (state_value state.now ≡ end_at end.now) }
{
    match end.split_last() {
        Some((last, front)) => is_cut(state, front, *last),
        None => is_done(state),
    }
}

/// What stands last where a stretch stops at a state: the line `end` where the branch ends there, or the snapshot at that state.
fn rest_of(alloc: Global, mut snapshot: Snapshot, state: State) -> Result<Vec<u8>, AllocError>
    requires { IsSnapshot (at_state snapshot (state_value state)) }
    ensures { ReturnsItems result (rest_text snapshot (state_value state)) }
{
    if is_end(&state, end_choices(&snapshot)) {
        return Vec::from_slice(alloc, b"end\n");
    }
    snapshot.move_to(state);
    write_snapshot(alloc, &snapshot)
}
