//! A problem with some of its options alone.
ghost use Rattle.std.specs.Prelude.{◌≡◌, ◌≤◌, length, map};
ghost use Rattle.std.specs.String.{string_bytes};
ghost use Rattle.shared_words.specs.Lists.{RisesFrom};
ghost use Rattle.cover_problem.specs.Problem.{option_at};
ghost use Rattle.shared_words.specs.Answers.{Returns};
ghost use Rattle.poly_place.specs.Answers.{ReturnsLists, ReturnsTexts};
ghost use Rattle.poly_distinct.specs.Fewer.{with_options, AreNumbersTo};

use cover_problem::{Problem, ProblemFault};
use std::alloc::{AllocError, Global};

/// The problem with these of its options alone, given by rising numbers.
pub fn with_options(alloc: Global, problem: &Problem, kept: &[u32]) -> Result<Problem, AllocError>
    requires numbers { AreNumbersTo (length problem.now.options) kept.now }
    requires rise { RisesFrom 1 kept.now }
    ensures { Returns result (with_options problem.now kept.now) }
{
    problem.is_sound();
    let names = names_of(alloc, problem)?;
    let options = chosen(alloc, problem, kept)?;
    match Problem::new(alloc, names, problem.primary(), options) {
        Ok(fewer) => Ok(fewer),
        Err(refused) => match refused.fault {
            ProblemFault::Fault(_) => unreachable!(),
            ProblemFault::OutOfMemory => Err(AllocError),
        },
    }
}

/// The names of the items.
fn names_of(alloc: Global, problem: &Problem) -> Result<Vec<String>, AllocError>
    ensures { ReturnsTexts result problem.now.names }
{
    let mut names = Vec::new(alloc);
    for item in 0..problem.items() {
        names.push(String::from_str(alloc, problem.name(item + 1))?)?;
    }
    Ok(names)
}

/// These of the options, in this order.
fn chosen(alloc: Global, problem: &Problem, kept: &[u32]) -> Result<Vec<Vec<u32>>, AllocError>
    requires { AreNumbersTo (length problem.now.options) kept.now }
    ensures { ReturnsLists result (map (option_at problem.now) kept.now) }
{
    let mut options = Vec::with_capacity(alloc, kept.len())?;
    for number in kept {
        options.push(Vec::from_slice(alloc, problem.option(*number))?)?;
    }
    Ok(options)
}
