//! Who takes a run.
ghost use Rattle.shared_words.specs.Answers.{Returns};
ghost use Rattle.polylab_engine.specs.Output.{whole_report};
ghost use Rattle.polylab_engine.specs.Refusals.{IsNoTextOf, MayEndBy, NoPool, pool_faults};
ghost use Rattle.debug_script.specs.Refusals.{MayRefuse, IsWantOrPool};
ghost use Rattle.polylab_engine.specs.Jobs.{takes_commands};
ghost use Rattle.polylab_engine.specs.Outcome.{debug_outcome, HasOutcome};
ghost use Rattle.std.specs.Prelude.{◌≡◌, true, false, IfErr};
ghost use Rattle.lab_pool.specs.declared.fault.PoolFault.{PoolFault};

use crate::answer::{Answering, NoText, text_for};
use crate::job::{Job, TextKind};
use crate::report::Report;
use crate::search::{count_alone, search_alone};
use crate::tables::TableKind;
use cover_problem::{Lists, Problem};
use debug_script::JobFault;
use std::alloc::Global;
use x_texts::VisitText;

/// Workers who share a search.
#[derive(Drop)]
pub struct Team<'a, R, G> {
    /// On whose threads they work.
    pub rt: &'a R,
    /// By what each is seen.
    pub gate: &'a G,
    /// How many they are, 1 to 32.
    pub count: u32,
    /// The table that was asked for, if one was; else a short search chooses it.
    pub table: Option<TableKind>,
}

/// Who takes a problem's run.
pub trait Workers {
    // They can be called, and what they answer is right.
    ghost ready: { Self → Type 0 };

    // The faults with which they may refuse a search, beside want of memory.
    ghost refuses: { Self → PoolFault → Type 0 };

    /// The table that was asked for, if one was.
    fn table(&self) -> Option<TableKind>;

    /// How many bytes are for counts of what lies below sets of covered items, if some are.
    fn cache(&self) -> Option<usize>;

    /// Takes the run of the problem from X1 to Done, and reports it: the totals, and the visits in path order where they are kept.
    fn search(
        &self,
        alloc: Global,
        problem: &Problem,
        keeps: bool,
    ) -> Result<Report<Lists>, JobFault>
        requires { ready self.now }
        ensures report { Returns result (whole_report keeps problem.now) }
        ensures why { IfErr result (IsWantOrPool (refuses self.now)) };

    /// The same with its visits kept, each as the line that it is written as.
    fn list(&self, alloc: Global, problem: &Problem) -> Result<Report<VisitText>, JobFault>
        requires { ready self.now }
        ensures report { Returns result (whole_report true problem.now) }
        ensures why { IfErr result (IsWantOrPool (refuses self.now)) };
}

/// One worker, whose calls return: it takes a machine through the run, in memory that doesn't grow with the run.
#[derive(Drop)]
pub struct Alone {
    /// The table that was asked for, if one was; else a short search chooses it.
    pub table: Option<TableKind>,
    /// How many bytes are for counts of what lies below sets of covered items, if some are: where no visit is asked for, each such set is
    /// then searched once, as long as its counts are kept.
    pub cache: Option<usize>,
}

impl Workers for Alone {
    ghost ready = { λ _. Unit {0} };

    ghost refuses = { λ _. NoPool };

    fn table(&self) -> Option<TableKind> {
        self.table
    }

    fn cache(&self) -> Option<usize> {
        self.cache
    }

    fn search(
        &self,
        alloc: Global,
        problem: &Problem,
        keeps: bool,
    ) -> Result<Report<Lists>, JobFault> {
        Ok(match self.cache {
            Some(room) if !keeps => count_alone(alloc, problem, self.table, room)?,
            _ => search_alone::<Lists>(alloc, problem, self.table, keeps)?,
        })
    }

    fn list(&self, alloc: Global, problem: &Problem) -> Result<Report<VisitText>, JobFault> {
        Ok(search_alone::<VisitText>(alloc, problem, self.table, true)?)
    }
}

/// Workers on threads, by what calls them: a closure may wait where the function that makes it may.
#[derive(Drop)]
pub struct Together<S, D> {
    pub table: Option<TableKind>,
    pub count: u32,
    /// Shares the run of a problem.
    pub search: S,
    /// Answers the commands that follow a text.
    pub replies: D,
}

impl<S: Fn(Global, &Problem, bool) -> Result<Report<Lists>, JobFault>, D> Workers
    for Together<S, D> {
    ghost ready = { λ w. S.IsAlwaysCallable w.search
        × ((a : _) (p : _) (k : _) (r : _) → S.post w.search a p k r → Returns r (whole_report k p.now))
        × ((a : _) (p : _) (k : _) (r : _) → S.post w.search a p k r → IfErr r (IsWantOrPool (MayRefuse w.count))) };

    ghost refuses = { λ w. MayRefuse w.count };

    fn table(&self) -> Option<TableKind> {
        self.table
    }

    fn cache(&self) -> Option<usize> {
        // It would be one for each of them.
        None
    }

    fn search(
        &self,
        alloc: Global,
        problem: &Problem,
        keeps: bool,
    ) -> Result<Report<Lists>, JobFault> {
        (self.search)(alloc, problem, keeps)
    }

    fn list(&self, alloc: Global, problem: &Problem) -> Result<Report<VisitText>, JobFault> {
        // Their book keeps the visits in few bytes, and tells them as lists.
        let report = (self.search)(alloc, problem, true)?;
        Ok(report.told(alloc)?)
    }
}

impl Answering for Alone {
    ghost ready = { λ _ job. takes_commands job ≡ false };

    ghost refuses = { λ _ job. pool_faults job NoPool };

    fn answer(&self, alloc: Global, job: Job, input: Vec<u8>) -> Result<Vec<u8>, NoText> {
        text_for(alloc, job, self, input)
    }
}

impl<
    S: Fn(Global, &Problem, bool) -> Result<Report<Lists>, JobFault>,
    D: Fn(Global, TextKind, &[u8]) -> Result<Vec<u8>, NoText>,
> Answering for Together<S, D> {
    ghost ready = { λ w _. S.IsAlwaysCallable w.search × D.IsAlwaysCallable w.replies
        × ((a : _) (p : _) (k : _) (r : _) → S.post w.search a p k r → Returns r (whole_report k p.now))
        × ((a : _) (p : _) (k : _) (r : _) → S.post w.search a p k r → IfErr r (IsWantOrPool (MayRefuse w.count)))
        × ((a : _) (k : _) (i : _) (r : _) → D.post w.replies a k i r → HasOutcome r (debug_outcome k i.now))
        × ((a : _) (k : _) (i : _) (r : _) → D.post w.replies a k i r → IfErr r (IsNoTextOf (MayEndBy i.now))) };

    ghost refuses = { λ w job. pool_faults job (MayRefuse w.count) };

    fn answer(&self, alloc: Global, job: Job, input: Vec<u8>) -> Result<Vec<u8>, NoText> {
        match job.debugged() {
            // The commands stand in the input, which lives until the last is answered.
            Some(kind) => (self.replies)(alloc, kind, &input),
            None => text_for(alloc, job, self, input),
        }
    }
}
