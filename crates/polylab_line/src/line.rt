//! The command line: which job the words ask for.

ghost use Rattle.std.specs.Prelude.{◌≡◌, ◌≤◌, IfOk, IsTrue};
ghost use Rattle.shared_words.specs.Workers.{most_workers};
ghost use Rattle.polylab_engine.specs.Jobs.{is_first};
ghost use Rattle.polylab_line.specs.Line.{is_alone, status_of};

use crate::help::{self, JobHelp};
use clap::error::ErrorKind;
use clap::{Arg, ArgAction, ArgMatches, Command, Error, value_parser};
use polylab_engine::{Counted, CoverJob, Group, Job, PuzzleJob, TableKind};
use shared_words::MOST_WORKERS;
use std::alloc::{AllocError, Global};

/// A job, how many workers do it, 1 to 32, and the table and the cache that were asked for, if they were.
#[derive(Clone, Copy, Debug, PartialEq, Eq)]
pub struct Request {
    /// What is to be done.
    pub job: Job,
    /// How many threads do it, 1 to 32.
    pub workers: u32,
    /// The table that was named; None where a short search chooses.
    pub table: Option<TableKind>,
    /// How many megabytes are for counts that are kept, if some are. One worker keeps them.
    pub cache: Option<u32>,
}

/// Why the words name no job. The texts are `clap`'s, but for `--first` with several workers, and for words that are not text.
#[derive(Debug, Drop, thiserror::Error)]
pub enum LineFault {
    /// Help or the version was asked for; this is the text.
    #[error("{0}")]
    Help(String),
    /// The words were refused; this is why.
    #[error("{0}")]
    Usage(String),
    /// There is no memory to read the words.
    #[error("out of memory")]
    OutOfMemory,
}

impl Request {
    /// Whether one worker does the job without threads. Commands may ask for more workers, so they need threads.
    pub fn is_alone(&self) -> bool
        ensures { result ≡ is_alone self.now }
    {
        self.workers == 1 && !self.job.takes_commands()
    }
}

impl LineFault {
    /// The program's exit status.
    pub fn status(&self) -> u8
        ensures { result ≡ status_of self.now }
    {
        match self {
            LineFault::Help(_) => 0,
            LineFault::Usage(_) => 2,
            LineFault::OutOfMemory => 4,
        }
    }
}

/// A subcommand with its usage and its help.
fn job<'a>(alloc: Global, told: &JobHelp) -> Command<'a> {
    Command::new(alloc, told.name)
        .about(told.about)
        .override_usage(told.usage)
        .after_help(told.text)
}

/// An option of this name, with a value that help calls so.
fn option<'a>(alloc: Global, name: &'static str, value: &'static str) -> Arg<'a> {
    Arg::new(alloc, name).long(name).value_name(value)
}

/// A word that is there or not.
fn flag<'a>(alloc: Global, name: &'static str, help: &'static str) -> Arg<'a> {
    Arg::new(alloc, name)
        .long(name)
        .action(ArgAction::SetTrue)
        .help(help)
}

/// The option that says how many workers search.
fn workers<'a>(alloc: Global) -> Arg<'a> {
    option(alloc, "workers", "N")
        .value_parser(value_parser!(u32).range(1..=i64::from(MOST_WORKERS)))
        // So the search always gets a number, said or not.
        .default_value("1")
        .help(help::WORKERS)
}

/// The option that says which table the search has.
fn table<'a>(alloc: Global) -> Arg<'a> {
    option(alloc, "table", "TABLE")
        .value_parser(help::TABLES)
        .help(help::TABLE)
}

/// The option that says how many megabytes are for counts that are kept.
fn cache<'a>(alloc: Global) -> Arg<'a> {
    option(alloc, "cache", "MB")
        .value_parser(value_parser!(u32).range(1..))
        .help(help::CACHE)
}

/// The same of a job that workers may do: they share no cache.
fn own_cache<'a>(alloc: Global) -> Result<Arg<'a>, AllocError> {
    cache(alloc).conflicts_with("workers")
}

/// The option that says how many are asked for.
fn first<'a>(alloc: Global) -> Arg<'a> {
    option(alloc, "first", "N")
        // The first none would be found without a search.
        .value_parser(value_parser!(u64).range(1..))
        .help(help::FIRST)
}

/// The option that says how many steps are taken at most.
fn steps<'a>(alloc: Global) -> Arg<'a> {
    option(alloc, "steps", "N")
        // No steps would be the same snapshot again.
        .value_parser(value_parser!(u64).range(1..))
        .help(help::STEPS)
}

/// The option that says by which symmetries packings are told apart. That a value is one of these words is `clap`'s to see.
fn up_to<'a>(alloc: Global) -> Arg<'a> {
    option(alloc, "up-to", "WORD")
        .value_parser(help::GROUPS)
        .help(help::UP_TO)
}

/// A job that lists all, or the first ones: `cover` or `solve`.
fn listed<'a>(alloc: Global, told: &JobHelp) -> Result<Command<'a>, AllocError> {
    job(alloc, told)
        .arg(workers(alloc))?
        .arg(first(alloc))?
        .arg(table(alloc))
}

/// The job `cover`.
fn cover<'a>(alloc: Global) -> Result<Command<'a>, AllocError> {
    let count = flag(alloc, "count", help::COUNT_ALONE);
    listed(alloc, &help::COVER)?
        .arg(count.conflicts_with("first")?)?
        .arg(own_cache(alloc)?.requires_arg("count")?)
}

/// The job `solve`.
fn solve<'a>(alloc: Global) -> Result<Command<'a>, AllocError> {
    listed(alloc, &help::SOLVE)?.arg(up_to(alloc).conflicts_with("first")?)
}

/// The job `count`.
fn count<'a>(alloc: Global) -> Result<Command<'a>, AllocError> {
    job(alloc, &help::COUNT)
        .arg(workers(alloc))?
        .arg(table(alloc))?
        .arg(flag(alloc, "classes", help::CLASSES))?
        .arg(up_to(alloc).conflicts_with("classes")?)?
        .arg(own_cache(alloc)?.conflicts_with("classes")?)
}

/// The job `resume`.
fn resume<'a>(alloc: Global) -> Result<Command<'a>, AllocError> {
    job(alloc, &help::RESUME)
        .arg(table(alloc))?
        .arg(steps(alloc))?
        .arg(flag(alloc, "list", help::LIST))?
        // Counts that are kept tell neither the visits, nor where a number of steps leads.
        .arg(
            cache(alloc)
                .conflicts_with("steps")?
                .conflicts_with("list")?,
        )
}

/// The job `join`.
fn join<'a>(alloc: Global) -> Result<Command<'a>, AllocError> {
    job(alloc, &help::JOIN).arg(flag(alloc, "packings", help::PACKINGS))
}

/// The command line that the program takes.
fn command<'a>(alloc: Global) -> Result<Command<'a>, AllocError> {
    Command::new(alloc, "polylab")
        .about(help::ABOUT)
        .after_help(help::STATUSES)
        .version("0.1.0")
        // Who calls this has left the program's name out.
        .no_binary_name(true)
        .subcommand_required(true)
        // Without any word the answer is the help.
        .arg_required_else_help(true)
        .subcommand(cover(alloc)?)?
        .subcommand(solve(alloc)?)?
        .subcommand(count(alloc)?)?
        .subcommand(job(alloc, &help::OPTIONS).arg(up_to(alloc))?)?
        .subcommand(job(alloc, &help::DEBUG).arg(flag(alloc, "cover", help::OF_COVER))?)?
        .subcommand(resume(alloc)?)?
        .subcommand(join(alloc)?)
}

/// How many workers the words of a job ask for. That it is 1 to 32, and 1 where it isn't said, is `clap`'s to see; its answer is
/// looked at once more.
fn workers_in(words: &ArgMatches<'_>) -> u32
    ensures { (1 ≤ result) × (result ≤ most_workers) }
{
    match words.get_one::<u32>("workers") {
        Some(workers) if workers >= 1 && workers <= MOST_WORKERS => workers,
        _ => 1,
    }
}

/// The table that the words of a job ask for, if they ask for one.
fn table_in(words: &ArgMatches<'_>) -> Option<TableKind> {
    match words.get_str("table") {
        Some("links") => Some(TableKind::Links),
        Some("bits") => Some(TableKind::Bits),
        // The words are those of `help::TABLES`, which `clap` has compared: no other comes here.
        _ => None,
    }
}

/// The symmetries that the words of a job ask for, if they ask for some.
fn group_in(words: &ArgMatches<'_>) -> Option<Group> {
    match words.get_str("up-to") {
        Some("rotations") => Some(Group::Rotations),
        Some("symmetries") => Some(Group::Symmetries),
        // The words are those of `help::GROUPS`, which `clap` has compared: no other comes here.
        _ => None,
    }
}

/// What the words ask for.
fn request_in(matches: &ArgMatches<'_>) -> Request
    ensures { (1 ≤ result.workers) × (result.workers ≤ most_workers) }
{
    // `clap` asks for a subcommand, so this isn't met. Any job would do here.
    let Some((name, words)) = matches.subcommand() else {
        return Request {
            job: Job::Cover(CoverJob::List),
            workers: 1,
            table: None,
            cache: None,
        };
    };
    Request {
        job: job_of(name, words),
        workers: workers_in(words),
        table: table_in(words),
        cache: words.get_one::<u32>("cache"),
    }
}

/// The job of this name that the words after it ask for.
fn job_of(name: &str, words: &ArgMatches<'_>) -> Job {
    match name {
        "solve" => solving(words.get_one::<u64>("first"), group_in(words)),
        "count" => counting(words.get_flag("classes"), group_in(words)),
        "options" => Job::Puzzle(match group_in(words) {
            Some(group) => PuzzleJob::OptionsUpTo(group),
            None => PuzzleJob::Options,
        }),
        "debug" if words.get_flag("cover") => Job::Cover(CoverJob::Debug),
        "debug" => Job::Puzzle(PuzzleJob::Debug),
        "resume" => Job::Resume {
            steps: words.get_one::<u64>("steps"),
            list: words.get_flag("list"),
        },
        "join" if words.get_flag("packings") => Job::Join(Counted::Packings),
        "join" => Job::Join(Counted::Covers),
        // `cover`: `clap` knows no other name.
        _ => listing(words.get_one::<u64>("first"), words.get_flag("count")),
    }
}

/// The job of all packings, or of the first ones, if a number is asked for, or of one of each class, if a group is. `clap` lets no line
/// ask for both.
fn solving(first: Option<u64>, group: Option<Group>) -> Job {
    Job::Puzzle(match (first, group) {
        (Some(first), _) => PuzzleJob::First(first),
        (None, Some(group)) => PuzzleJob::SolveUpTo(group),
        (None, None) => PuzzleJob::Solve,
    })
}

/// The job of the number of packings, also of their classes, if these are asked for, or by a search up to symmetry, if a group is. `clap`
/// lets no line ask for both.
fn counting(classes: bool, group: Option<Group>) -> Job {
    Job::Puzzle(match group {
        Some(group) => PuzzleJob::CountUpTo(group),
        None if classes => PuzzleJob::Classes,
        None => PuzzleJob::Count,
    })
}

/// The job of all exact covers, or of the first ones, if a number is asked for, or of their number alone. `clap` lets no line ask for both.
fn listing(first: Option<u64>, count: bool) -> Job {
    Job::Cover(match first {
        Some(first) => CoverJob::First(first),
        None if count => CoverJob::Count,
        None => CoverJob::List,
    })
}

/// What is asked for, but for workers who would have to share the search for the first ones.
fn allowed(alloc: Global, request: Request) -> Result<Request, LineFault>
    ensures same { IfOk result (λ asked. asked ≡ request) }
    ensures alone { IfOk result (λ asked. IsTrue (is_first asked.job) → asked.workers ≡ 1) }
{
    // Several workers find later ones before earlier ones, and would have to wait for these.
    if request.workers == 1 || !request.job.is_first() {
        return Ok(request);
    }
    match String::from_str(alloc, help::FIRST_SHARED) {
        Ok(text) => Err(LineFault::Usage(text)),
        Err(_) => Err(LineFault::OutOfMemory),
    }
}

/// What a refusal by `clap` means.
fn refused(alloc: Global, error: &Error) -> LineFault {
    // Where memory ran out `clap` has no text, and none can be made.
    if error.kind() == ErrorKind::OutOfMemory {
        return LineFault::OutOfMemory;
    }
    match error.to_string(alloc) {
        Err(_) => LineFault::OutOfMemory,
        // Help and the version are errors to `clap` too, but go to standard output.
        Ok(text) if error.use_stderr() => LineFault::Usage(text),
        Ok(text) => LineFault::Help(text),
    }
}

/// Reads the words of a command line, without the program's name.
pub fn parse_line(alloc: Global, words: &[&str]) -> Result<Request, LineFault>
    ensures workers { IfOk result (λ asked. (1 ≤ asked.workers) × (asked.workers ≤ most_workers)) }
    ensures alone { IfOk result (λ asked. IsTrue (is_first asked.job) → asked.workers ≡ 1) }
{
    let Ok(command) = command(alloc) else {
        return Err(LineFault::OutOfMemory);
    };
    match command.try_get_matches_from(words) {
        Ok(matches) => allowed(alloc, request_in(&matches)),
        Err(error) => Err(refused(alloc, &error)),
    }
}
