//! Polylab: every way to pack a region with polycubes, by exact cover.
#![tactic(auto)]

ghost use Rattle.std.specs.Prelude.{◌≡◌};
ghost use Rattle.polylab_line.specs.Line.{status_of};

use byte_streams::Watched;
use lab_pool::NoGate;
use polylab_line::{LineFault, Request, Threading, do_alone, do_together, parse_line, tell_no_job};
use std::alloc::Global;
use std::env;
use std::io::{self, ErrorKind};
use std::process::ExitCode;

/// The words of the command line, without the program's name.
fn words(rt: &HostRuntime) -> io::Result<Vec<String>> {
    // The first is the program's name.
    let words = env::args(rt)?.skip(1).collect::<Vec<String>>(rt.alloc())?;
    Ok(words)
}

/// Why the words of the command line could not be had: there is no memory for them, or they are no text.
fn no_words(alloc: Global, error: &io::Error) -> LineFault
    ensures no_help { status_of result ≡ 0 → ⊥ }
{
    if error.kind() == ErrorKind::OutOfMemory {
        return LineFault::OutOfMemory;
    }
    // Words that are no UTF-8 end as those that `clap` refuses do.
    match String::from_str(alloc, "error: the words of the command line are not text\n") {
        Ok(text) => LineFault::Usage(text),
        Err(_) => LineFault::OutOfMemory,
    }
}

/// The job that these words ask for.
fn job_of(alloc: Global, words: &[String]) -> Result<Request, LineFault> {
    let Ok(words) = words
        .iter()
        .map(|word| word.as_str())
        .collect::<Vec<&str>>(alloc)
    else {
        return Err(LineFault::OutOfMemory);
    };
    parse_line(alloc, &words)
}

/// The job that the command line asks for.
fn asked(rt: &HostRuntime) -> Result<Request, LineFault> {
    match words(rt) {
        Ok(words) => job_of(rt.alloc(), &words),
        Err(error) => Err(no_words(rt.alloc(), &error)),
    }
}

fn main(rt: HostRuntime) -> ExitCode {
    let alloc = rt.alloc();
    let mut reader = Watched::reader(rt.stdin());
    let mut writer = Watched::writer(rt.stdout());
    let mut faults = Watched::writer(rt.stderr());
    let status = match asked(&rt) {
        Err(fault) => tell_no_job(&fault, &mut writer, &mut faults),
        Ok(asked) if asked.is_alone() => do_alone(
            alloc,
            asked,
            &mut reader,
            &mut writer,
            &mut faults,
        ),
        Ok(asked) => {
            // A gate may hold workers back between their acts, which tests do. Here none is held.
            let threading = Threading {
                rt: &rt,
                gate: &NoGate,
            };
            do_together(
                &threading,
                alloc,
                asked,
                &mut reader,
                &mut writer,
                &mut faults,
            )
        }
    };
    ExitCode::from(status)
}
