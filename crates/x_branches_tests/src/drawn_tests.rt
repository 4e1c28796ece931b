//! Problems drawn by a seed: the states of each run come in the order of their positions, and a run that is cut at drawn positions,
//! and walked by drawn steps on and back, is the run, stretch by stretch, over both tables.
use crate::fixtures::runner_of;
use crate::order_tests::ordered_states;
use cover_links::LinkTable;
use cover_problem::{PlainTable, Problem, Table, read_cover};
use drawn_problems::{draw, drawn_options, state_of, text_of};
use std::alloc::{AllocError, Global};
use x_branches::{Runner, Stretch};
use x_steps::{Cursor, Label, Machine, State, no_counts};

/// The text of a problem of the items a to e, of which so many are primary, with up to eight options.
fn drawn_text(alloc: Global, primary: u32, seed: &mut u64) -> Result<String, AllocError> {
    let options = drawn_options(alloc, seed)?;
    text_of(alloc, 5, primary, &options)
}

/// Whether the states of the run of the next problem that is drawn come in order.
fn are_drawn_in_order(alloc: Global, primary: u32, seed: &mut u64) -> bool {
    let Ok(text) = drawn_text(alloc, primary, seed) else {
        return false;
    };
    ordered_states(alloc, &text).is_some()
}

#[test]
fn states_of_drawn_problems_come_in_order(rt: HostRuntime) {
    let mut seed = 7;
    for round in 0..30 {
        assert!(rt;
            are_drawn_in_order(rt.alloc(), round % 5 + 1, &mut seed),
            "at the problem drawn as {round}"
        );
    }
}

/// Counts so many more at a level.
fn count(levels: &mut [u32], level: usize, more: u32) {
    if level < levels.len() {
        levels[level] = levels[level].wrapping_add(more);
    }
}

/// What a run has from X1 on: how many steps, its visits with a 0 after each, and how many X2 states at each level.
#[derive(Drop, PartialEq, Eq)]
struct Tally {
    steps: u32,
    visits: Vec<u32>,
    levels: Vec<u32>,
}

impl Tally {
    /// Nothing yet, for a problem of so many items.
    fn new(alloc: Global, items: u32) -> Result<Tally, AllocError> {
        Ok(Tally {
            steps: 0,
            visits: Vec::new(alloc),
            levels: no_counts(alloc, items)?,
        })
    }

    fn push_visit(&mut self, path: &[u32]) -> Result<(), AllocError> {
        self.visits.extend_from_slice(path)?;
        self.visits.push(0)?;
        Ok(())
    }

    /// Adds a state of the run.
    fn note(&mut self, state: &State, is_visit: bool) -> Result<(), AllocError> {
        self.steps = self.steps.wrapping_add(1);
        if state.label == Label::X2 {
            count(&mut self.levels, state.path.len(), 1);
        }
        if is_visit {
            self.push_visit(&state.path)?;
        }
        Ok(())
    }

    /// Adds a stretch.
    fn add(&mut self, stretch: &Stretch<'_>) -> Result<(), AllocError> {
        self.steps = self.steps.wrapping_add(stretch.steps());
        for (level, more) in stretch.levels().iter().enumerate() {
            count(&mut self.levels, level, *more);
        }
        for place in 0..stretch.visits().len() {
            self.push_visit(stretch.visits().list(place))?;
        }
        Ok(())
    }
}

/// The run by single steps.
fn note_run<T: Table>(machine: &mut Machine<'_, T>, tally: &mut Tally) -> Result<(), AllocError> {
    for _ in 0..100_000 {
        if machine.state().label == Label::Done {
            return Ok(());
        }
        tally.note(machine.state(), machine.is_visit())?;
        let _ = machine.step();
    }
    Ok(())
}

/// The run of a problem from X1 on, by single steps; false where it can't be made.
fn note_whole(alloc: Global, problem: &Problem, tally: &mut Tally) -> bool {
    let Ok(table) = PlainTable::new(alloc, problem) else {
        return false;
    };
    match Machine::new(alloc, problem, table) {
        Ok(mut machine) => note_run(&mut machine, tally).is_ok(),
        Err(_) => false,
    }
}

/// What the run of a problem has, by single steps.
fn one_run(alloc: Global, problem: &Problem) -> Option<Tally> {
    let Ok(mut tally) = Tally::new(alloc, problem.items()) else {
        return None;
    };
    if note_whole(alloc, problem, &mut tally) {
        Some(tally)
    } else {
        None
    }
}

/// A run that is walked in parts: what its stretches have, where the last of them ended, and where it was cut, nearest last.
#[derive(Drop)]
struct Parts {
    tally: Tally,
    end: State,
    cuts: Vec<Vec<u32>>,
}

/// Whether a walk goes on, if all was right so far.
fn on(is_right: bool) -> Option<bool> {
    if is_right { Some(true) } else { None }
}

impl Parts {
    /// Nothing yet, at X1, for a problem of so many items.
    fn new(alloc: Global, items: u32) -> Option<Parts> {
        let Ok(tally) = Tally::new(alloc, items) else {
            return None;
        };
        let Ok(end) = state_of(alloc, Label::X1, &[], Cursor::None) else {
            return None;
        };
        let cuts = Vec::new(alloc);
        Some(Parts { tally, end, cuts })
    }

    /// Adds a stretch, which has to begin where the last one ended.
    fn add(&mut self, stretch: &Stretch<'_>) -> bool {
        if !stretch.from().same(&self.end) {
            return false;
        }
        let Ok(end) = stretch.to().copy() else {
            return false;
        };
        self.end = end;
        self.tally.add(stretch).is_ok()
    }

    /// Takes the stretch out, and adds it.
    fn post<T: Table>(&mut self, runner: &mut Runner<'_, T>) -> bool {
        match runner.take_stretch() {
            Ok(stretch) => self.add(&stretch),
            Err(_) => false,
        }
    }

    fn push_cut(&mut self, alloc: Global, path: &[u32]) -> bool {
        match Vec::from_slice(alloc, path) {
            Ok(path) => self.cuts.push(path).is_ok(),
            Err(_) => false,
        }
    }

    /// Ends the branch at an option that is untried.
    fn cut_at<T: Table>(
        &mut self,
        alloc: Global,
        runner: &mut Runner<'_, T>,
        level: usize,
        option: u32,
    ) -> bool {
        let Ok(cut) = runner.cut(level, option) else {
            return false;
        };
        let is_pushed = self.push_cut(alloc, cut.path());
        is_pushed && runner.shorten(cut).is_ok()
    }

    /// Ends the branch at the first option that is untried, if there is one.
    fn cut<T: Table>(&mut self, alloc: Global, runner: &mut Runner<'_, T>) -> bool {
        match first_untried(runner) {
            Ok(Some((level, option))) => self.cut_at(alloc, runner, level, option),
            Ok(None) => true,
            Err(_) => false,
        }
    }

    /// Does what is drawn; false where there is no step any more, and None where something is wrong.
    fn go<T: Table>(
        &mut self,
        alloc: Global,
        runner: &mut Runner<'_, T>,
        seed: &mut u64,
    ) -> Option<bool> {
        match draw(seed) % 9 {
            0 => on(self.cut(alloc, runner)),
            1 => on(self.post(runner)),
            2 => on(reopen(runner)),
            3 => {
                retreat(runner, draw(seed) % 6);
                Some(true)
            }
            4 => Some(runner.walk(draw(seed) % 9).is_ok()),
            5 => Some(runner.advance_by(draw(seed) % 40).is_ok()),
            _ => Some(runner.advance().is_ok()),
        }
    }

    /// Walks a branch to its end.
    fn walk<T: Table>(
        &mut self,
        alloc: Global,
        runner: &mut Runner<'_, T>,
        seed: &mut u64,
    ) -> bool {
        for _ in 0..100_000 {
            match self.go(alloc, runner, seed) {
                Some(true) => (),
                Some(false) => return self.post(runner),
                None => return false,
            }
        }
        false
    }

    /// Walks the branch from a cut to the nearest one after it.
    fn walk_from<T: Table>(
        &mut self,
        alloc: Global,
        problem: &Problem,
        first: &[u32],
        seed: &mut u64,
    ) -> bool {
        let Some(mut runner) = runner_of::<T>(alloc, problem, first, last_of(&self.cuts)) else {
            return false;
        };
        self.walk(alloc, &mut runner, seed)
    }

    /// Walks the run of a problem, branch by branch.
    fn walk_all<T: Table>(&mut self, alloc: Global, problem: &Problem, seed: &mut u64) -> bool {
        let mut first = Vec::new(alloc);
        for _ in 0..10_000 {
            if !self.walk_from::<T>(alloc, problem, &first, seed) {
                return false;
            }
            match self.cuts.pop() {
                Some(cut) => first = cut,
                None => return true,
            }
        }
        false
    }
}

/// The first option that is untried, and its level.
fn first_untried<T: Table>(runner: &Runner<'_, T>) -> Result<Option<(usize, u32)>, AllocError> {
    for level in 0..6 {
        let untried = runner.untried(level)?;
        if let Some(option) = untried.first() {
            return Ok(Some((level, *option)));
        }
    }
    Ok(None)
}

/// Takes the stretch out, and joins it again.
fn reopen<T: Table>(runner: &mut Runner<'_, T>) -> bool {
    match runner.take_stretch() {
        Ok(stretch) => runner.reopen(stretch).is_ok(),
        Err(_) => false,
    }
}

/// Takes so many steps back, as far as there are any.
fn retreat<T: Table>(runner: &mut Runner<'_, T>, steps: u32) {
    for _ in 0..steps {
        let _ = runner.retreat();
    }
}

/// The last cut; nothing where there is none.
fn last_of(cuts: &[Vec<u32>]) -> &[u32] {
    match cuts.last() {
        Some(cut) => cut,
        None => &[],
    }
}

/// Whether the run of a problem, by branches between drawn cuts, is this one.
fn is_in_parts<T: Table>(alloc: Global, problem: &Problem, run: &Tally, seed: &mut u64) -> bool {
    let Some(mut parts) = Parts::new(alloc, problem.items()) else {
        return false;
    };
    parts.walk_all::<T>(alloc, problem, seed) && parts.tally == *run
}

/// Whether a problem's run is its parts, with either table.
fn is_its_parts(alloc: Global, problem: &Problem, seed: &mut u64) -> bool {
    let Some(run) = one_run(alloc, problem) else {
        return false;
    };
    is_in_parts::<PlainTable>(alloc, problem, &run, seed)
        && is_in_parts::<LinkTable>(alloc, problem, &run, seed)
}

/// Whether the run of the next problem that is drawn is its parts.
fn is_drawn_its_parts(alloc: Global, primary: u32, seed: &mut u64) -> bool {
    let Ok(text) = drawn_text(alloc, primary, seed) else {
        return false;
    };
    let Ok(problem) = read_cover(alloc, text.as_bytes()) else {
        return false;
    };
    is_its_parts(alloc, &problem, seed)
}

#[test]
fn drawn_runs_are_their_parts(rt: HostRuntime) {
    let mut seed = 5;
    for round in 0..60 {
        assert!(rt;
            is_drawn_its_parts(rt.alloc(), round % 5 + 1, &mut seed),
            "at the problem drawn as {round}"
        );
    }
}
