//! The worked example: a runner on the small problem. What is asked of it stands in rows, each with what it has to tell.
use crate::fixtures::{advances, runner_of, small};
use cover_problem::{PlainTable, Problem, Table};
use std::alloc::Global;
use x_branches::{KeptStretch, KeptStretches, Runner, RunnerFault, Stretch};
use x_steps::{Cursor, Event, Label};

/// What is asked of a runner, and what it has to tell.
enum Row {
    /// So many steps are taken, one by one.
    Advances(u32),
    /// Of so many steps so many are taken at once, and the last one tells this.
    Walks(u32, u32, Event),
    /// Of so many steps so many are taken at once, past a visit too.
    AdvancesBy(u32, u32),
    /// It stands at X5 at this option, with no choice before it and so many steps unposted.
    StandsAt(u32, u32),
    /// No step on is taken, one by one or at once.
    IsAtEnd,
    /// No step back is taken.
    IsAtMark,
    /// At a level these options are untried.
    Untried(usize, &'static [u32]),
    /// The cut at an option of a level is answered, or refused so.
    Cut(usize, u32, Option<RunnerFault>),
    /// Its branch is ended at an option of a level.
    Shortens(usize, u32),
    /// The stretch that is taken out is joined again, with all its steps.
    Rejoins,
    /// The stretch that is taken out, its copy, and what is kept of it have these parts.
    HandsOut(Parts),
}

impl Row {
    /// Whether a runner tells what it has to.
    fn holds<T: Table>(&self, runner: &mut Runner<'_, T>) -> bool {
        match self {
            Row::Advances(steps) => advances(runner, *steps),
            Row::Walks(most, steps, event) => walks(runner, *most, *steps, *event),
            Row::AdvancesBy(most, steps) => runner.advance_by(*most) == Ok(*steps),
            Row::StandsAt(option, steps) => stands_at(runner, *option, *steps),
            Row::IsAtEnd => is_at_end(runner),
            Row::IsAtMark => runner.retreat() == Err(RunnerFault::AtMark),
            Row::Untried(level, options) => is_untried(runner, *level, options),
            Row::Cut(level, option, fault) => is_cut(runner, *level, *option, *fault),
            Row::Shortens(level, option) => shortens(runner, *level, *option),
            Row::Rejoins => rejoins(runner),
            Row::HandsOut(parts) => hands_out(runner, *parts),
        }
    }
}

fn walks<T: Table>(runner: &mut Runner<'_, T>, most: u32, steps: u32, event: Event) -> bool {
    match runner.walk(most) {
        Ok(walk) => walk.steps == steps && walk.event == event,
        Err(_) => false,
    }
}

fn stands_at<T: Table>(runner: &Runner<'_, T>, option: u32, steps: u32) -> bool {
    let state = runner.state();
    let here = state.label == Label::X5 && state.path.is_empty();
    here && state.cursor == Cursor::At(option) && runner.unposted() == steps
}

fn is_at_end<T: Table>(runner: &mut Runner<'_, T>) -> bool {
    let is_refused = match (runner.advance(), runner.walk(1)) {
        (Err(one), Err(many)) => one == RunnerFault::AtBranchEnd && many == one,
        _ => false,
    };
    is_refused && runner.advance_by(1) == Err(RunnerFault::AtBranchEnd)
}

fn is_untried<T: Table>(runner: &Runner<'_, T>, level: usize, options: &[u32]) -> bool {
    match runner.untried(level) {
        Ok(untried) => untried.as_slice() == options,
        Err(_) => false,
    }
}

fn is_cut<T: Table>(
    runner: &Runner<'_, T>,
    level: usize,
    option: u32,
    refused: Option<RunnerFault>,
) -> bool {
    match runner.cut(level, option) {
        Ok(_) => refused.is_none(),
        Err(fault) => refused == Some(fault),
    }
}

fn shortens<T: Table>(runner: &mut Runner<'_, T>, level: usize, option: u32) -> bool {
    match runner.cut(level, option) {
        Ok(cut) => runner.shorten(cut).is_ok(),
        Err(_) => false,
    }
}

fn rejoins<T: Table>(runner: &mut Runner<'_, T>) -> bool {
    let steps = runner.unposted();
    match runner.take_stretch() {
        Ok(stretch) => runner.reopen(stretch).is_ok() && runner.unposted() == steps,
        Err(_) => false,
    }
}

/// What a stretch has: so many steps, these visits, and so many X2 states at each level.
#[derive(Clone, Copy)]
struct Parts {
    steps: u32,
    visits: &'static [&'static [u32]],
    levels: &'static [u32],
}

/// Whether a stretch has these parts.
fn is_stretch(stretch: &Stretch<'_>, parts: Parts) -> bool {
    if stretch.visits().len() != parts.visits.len() {
        return false;
    }
    for (place, visit) in parts.visits.iter().enumerate() {
        if stretch.visits().list(place) != *visit {
            return false;
        }
    }
    stretch.steps() == parts.steps && stretch.levels() == parts.levels
}

/// Whether a stretch begins and ends where another of its problem does.
fn has_ends_of(stretch: &Stretch<'_>, other: &Stretch<'_>) -> bool {
    let problem = stretch.problem().same(other.problem());
    problem && stretch.from().same(other.from()) && stretch.to().same(other.to())
}

/// The same of a stretch and its copy, which has its ends.
fn is_copied(stretch: &Stretch<'_>, parts: Parts) -> bool {
    let Ok(copy) = stretch.copy() else {
        return false;
    };
    has_ends_of(&copy, stretch) && is_stretch(stretch, parts) && is_stretch(&copy, parts)
}

/// Whether what is kept of a stretch begins and ends where it does.
fn has_kept_ends(kept: &KeptStretch<'_, '_>, stretch: &Stretch<'_>) -> bool {
    let alloc = *stretch.from().path.allocator();
    let Ok(from) = kept.from(alloc) else {
        return false;
    };
    let Ok(to) = kept.to(alloc) else {
        return false;
    };
    from.same(stretch.from()) && to.same(stretch.to())
}

/// Whether it is the stretch again when it is opened.
fn opens_as(kept: &KeptStretch<'_, '_>, stretch: &Stretch<'_>, parts: Parts) -> bool {
    let Ok(opened) = kept.open(*stretch.from().path.allocator()) else {
        return false;
    };
    has_ends_of(&opened, stretch) && is_stretch(&opened, parts)
}

/// Whether what is kept of a stretch tells its ends, steps and visits, and is the stretch again when it is opened.
fn tells_kept(kept: &KeptStretch<'_, '_>, stretch: &Stretch<'_>, parts: Parts) -> bool {
    let is_counted = kept.steps() == parts.steps && kept.visited() == parts.visits.len() as u64;
    is_counted && has_kept_ends(kept, stretch) && opens_as(kept, stretch, parts)
}

/// Whether all of these are the stretch as it is kept.
fn all_tell(kept: &KeptStretches<'_>, stretch: &Stretch<'_>, parts: Parts) -> bool {
    for place in 0..kept.len() {
        if !tells_kept(&kept.stretch(place), stretch, parts) {
            return false;
        }
    }
    true
}

/// The same of a copy, and of it without the last one.
fn is_kept_copied(kept: &KeptStretches<'_>, stretch: &Stretch<'_>, parts: Parts) -> bool {
    let Ok(mut copy) = kept.copy() else {
        return false;
    };
    if !kept.same(&copy) || !all_tell(&copy, stretch, parts) {
        return false;
    }
    copy.truncate(1);
    !kept.same(&copy) && copy.len() == 1 && all_tell(&copy, stretch, parts)
}

/// Keeps so many copies of a stretch.
fn keep<'p>(kept: &mut KeptStretches<'p>, stretch: &Stretch<'p>, count: usize) -> bool {
    let mut draft = packed_rows::Row::new(*stretch.from().path.allocator());
    for _ in 0..count {
        let Ok(copy) = stretch.copy() else {
            return false;
        };
        if kept.push(&mut draft, copy).is_err() {
            return false;
        }
    }
    true
}

/// Whether a stretch that is kept three times is told three times, and so by a copy.
fn is_kept(stretch: &Stretch<'_>, parts: Parts) -> bool {
    let mut kept = KeptStretches::new(*stretch.from().path.allocator());
    keep(&mut kept, stretch, 3)
        && kept.len() == 3
        && all_tell(&kept, stretch, parts)
        && is_kept_copied(&kept, stretch, parts)
}

fn hands_out<T: Table>(runner: &mut Runner<'_, T>, parts: Parts) -> bool {
    match runner.take_stretch() {
        Ok(stretch) => is_kept(&stretch, parts) && is_copied(&stretch, parts),
        Err(_) => false,
    }
}

/// After which choices a runner of the small problem begins, what is asked of it, and what it has to tell.
struct Play(&'static [u32], &'static [Row]);

/// Whether a runner tells what it has to, row by row.
fn all_hold<T: Table>(runner: &mut Runner<'_, T>, rows: &[Row]) -> bool {
    for row in rows {
        if !row.holds(runner) {
            return false;
        }
    }
    true
}

/// Whether a runner of the branch from a cut to the end, or of the whole run, tells what it has to.
fn plays(alloc: Global, problem: &Problem, play: &Play) -> bool {
    let Some(mut runner) = runner_of::<PlainTable>(alloc, problem, play.0, &[]) else {
        return false;
    };
    all_hold(&mut runner, play.1)
}

/// The same of the small problem.
fn plays_in_small(alloc: Global, play: &Play) -> bool {
    let Some(problem) = small(alloc) else {
        return false;
    };
    plays(alloc, &problem, play)
}

const CUT_AND_WALKED: [Row; 16] = [
    Row::Advances(5),
    Row::Untried(0, &[4]),
    Row::Untried(1, &[]),
    Row::Cut(0, 2, Some(RunnerFault::NotUntried)),
    Row::Cut(1, 3, Some(RunnerFault::NothingUntried)),
    Row::Cut(0, 4, None),
    Row::Shortens(0, 4),
    Row::Untried(0, &[]),
    Row::Cut(0, 4, Some(RunnerFault::OutsideBranch)),
    Row::Cut(0, 2, Some(RunnerFault::NothingUntried)),
    Row::Advances(15),
    Row::StandsAt(4, 20),
    Row::IsAtEnd,
    Row::HandsOut(Parts {
        steps: 20,
        visits: &[],
        levels: &[1, 1, 1],
    }),
    Row::IsAtMark,
    Row::HandsOut(Parts {
        steps: 0,
        visits: &[],
        levels: &[],
    }),
];

const REST: [Row; 4] = [
    Row::StandsAt(4, 0),
    Row::Advances(23),
    Row::IsAtEnd,
    Row::HandsOut(Parts {
        steps: 23,
        visits: &[&[4, 5, 1]],
        levels: &[0, 1, 1, 1],
    }),
];

const JOINED_AGAIN: [Row; 3] = [
    Row::Advances(43),
    Row::Rejoins,
    Row::HandsOut(Parts {
        steps: 43,
        visits: &[&[4, 5, 1]],
        levels: &[1, 2, 2, 1],
    }),
];

const WALKED: [Row; 8] = [
    Row::Walks(0, 0, Event::Moved),
    Row::Walks(5, 5, Event::Moved),
    Row::Walks(24, 24, Event::Moved),
    Row::Walks(100, 1, Event::Visited),
    Row::Rejoins,
    Row::Walks(100, 13, Event::Finished),
    Row::IsAtEnd,
    Row::HandsOut(Parts {
        steps: 43,
        visits: &[&[4, 5, 1]],
        levels: &[1, 2, 2, 1],
    }),
];

const WALKED_TO_A_CUT: [Row; 6] = [
    Row::Walks(5, 5, Event::Moved),
    Row::Shortens(0, 4),
    Row::Walks(100, 15, Event::Moved),
    Row::StandsAt(4, 20),
    Row::IsAtEnd,
    Row::HandsOut(Parts {
        steps: 20,
        visits: &[],
        levels: &[1, 1, 1],
    }),
];

const ADVANCED_AT_ONCE: [Row; 5] = [
    Row::AdvancesBy(0, 0),
    Row::AdvancesBy(5, 5),
    Row::AdvancesBy(100, 38),
    Row::IsAtEnd,
    Row::HandsOut(Parts {
        steps: 43,
        visits: &[&[4, 5, 1]],
        levels: &[1, 2, 2, 1],
    }),
];

const ADVANCED_TO_A_CUT: [Row; 5] = [
    Row::Advances(5),
    Row::Shortens(0, 4),
    Row::AdvancesBy(100, 15),
    Row::StandsAt(4, 20),
    Row::IsAtEnd,
];

static PLAYS: [Play; 7] = [
    Play(&[], &CUT_AND_WALKED),
    Play(&[4], &REST),
    Play(&[], &JOINED_AGAIN),
    Play(&[], &WALKED),
    Play(&[], &WALKED_TO_A_CUT),
    Play(&[], &ADVANCED_AT_ONCE),
    Play(&[], &ADVANCED_TO_A_CUT),
];

#[test]
fn a_runner_tells_what_it_has_to(rt: HostRuntime) {
    for play in &PLAYS {
        assert!(rt; plays_in_small(rt.alloc(), play));
    }
}
