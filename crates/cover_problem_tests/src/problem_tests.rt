//! Problems that are made of names and options, with answers that were worked out by hand.
use crate::fixtures::{SMALL, is_read, many_options};
use cover_problem::{Fault, Problem, ProblemFault, Refused, read_cover};
use std::alloc::{AllocError, Global};

/// What a problem is made of: names and options.
type Parts = (Vec<String>, Vec<Vec<u32>>);

type Made = Result<Problem, Refused<ProblemFault, Parts>>;

/// Names of items, how many of them are primary, and options.
struct Of(&'static [&'static str], u32, &'static [&'static [u32]]);

static SMALL_PARTS: Of = Of(
    &["a", "b", "c", "d", "e", "f", "g"],
    7,
    &[
        &[3, 5],
        &[1, 4, 7],
        &[2, 3, 6],
        &[1, 4, 6],
        &[2, 7],
        &[4, 5, 7],
    ],
);

/// Parts, each with the first fault.
static REFUSED: [(Of, Fault); 10] = [
    (Of(&[], 0, &[]), Fault::NoItemLine),
    (Of(&["a", "a"], 0, &[&[]]), Fault::NoItemLine),
    (Of(&["a", "b"], 3, &[]), Fault::NoItemLine),
    (Of(&["a", "a b", "a"], 2, &[&[]]), Fault::BadName),
    (Of(&["123456789"], 1, &[]), Fault::BadName),
    (Of(&["a", "b", "a"], 2, &[&[]]), Fault::RepeatedItem),
    (Of(&["a", "b"], 2, &[&[1], &[], &[3]]), Fault::BadLine),
    (Of(&["a", "b"], 2, &[&[1, 3, 1], &[]]), Fault::UnknownItem),
    (Of(&["a", "b"], 2, &[&[0]]), Fault::UnknownItem),
    (
        Of(&["a", "b"], 2, &[&[1], &[1, 2, 1, 3]]),
        Fault::ItemTwiceInOption,
    ),
];

/// The parts of a problem with a secondary item, and its text.
static SECONDARY_PARTS: Of = Of(&["a", "b", "c"], 2, &[&[1, 3], &[2, 3], &[1], &[2]]);

const SECONDARY: &[u8] = b"items a b\nmaybe c\noption a c\noption b c\noption a\noption b\n";

fn words(alloc: Global, names: &[&str]) -> Result<Vec<String>, AllocError> {
    let mut words = Vec::new(alloc);
    for name in names {
        words.push(String::from_str(alloc, name)?)?;
    }
    Ok(words)
}

fn lists(alloc: Global, options: &[&[u32]]) -> Result<Vec<Vec<u32>>, AllocError> {
    let mut lists = Vec::new(alloc);
    for option in options {
        lists.push(Vec::from_slice(alloc, option)?)?;
    }
    Ok(lists)
}

/// Names and options, where there is memory for both.
fn both(
    names: Result<Vec<String>, AllocError>,
    options: Result<Vec<Vec<u32>>, AllocError>,
) -> Option<Parts> {
    let Ok(names) = names else {
        return None;
    };
    let Ok(options) = options else {
        return None;
    };
    Some((names, options))
}

fn parts_of(alloc: Global, of: &Of) -> Option<Parts> {
    both(words(alloc, of.0), lists(alloc, of.2))
}

/// What comes of parts, where there are any.
fn made_of(alloc: Global, primary: u32, parts: Option<Parts>) -> Option<Made> {
    let Some((names, options)) = parts else {
        return None;
    };
    Some(Problem::new(alloc, names, primary, options))
}

/// The problem that was made, if one was.
fn problem_in(made: Option<Made>) -> Option<Problem> {
    match made {
        Some(Ok(problem)) => Some(problem),
        _ => None,
    }
}

fn problem_of(alloc: Global, of: &Of) -> Option<Problem> {
    problem_in(made_of(alloc, of.1, parts_of(alloc, of)))
}

/// Whether it has seven items, all of them primary, and six options.
fn is_counted(problem: &Problem) -> bool {
    problem.items() == 7 && problem.primary() == 7 && problem.options() == 6
}

/// The names of the first and the last item, and the second option.
fn has_parts(problem: &Problem) -> bool {
    if problem.items() < 7 || problem.options() < 2 {
        return false;
    }
    problem.name(1) == "a" && problem.name(7) == "g" && problem.option(2) == [1, 4, 7].as_slice()
}

/// Whether a problem has what the small one has.
fn is_small(problem: &Problem) -> bool {
    is_counted(problem) && has_parts(problem)
}

/// Whether the problem that is made of the small one's parts has.
fn is_small_made(alloc: Global) -> bool {
    let Some(problem) = problem_of(alloc, &SMALL_PARTS) else {
        return false;
    };
    is_small(&problem)
}

#[test]
fn the_small_problem_is_made(rt: HostRuntime) {
    assert!(rt; is_small_made(rt.alloc()));
}

/// Whether parts make the problem of this text; false where they or the text make none.
fn is_of_text(alloc: Global, of: &Of, text: &[u8]) -> bool {
    let Some(problem) = problem_of(alloc, of) else {
        return false;
    };
    let Ok(read) = read_cover(alloc, text) else {
        return false;
    };
    problem.same(&read)
}

/// Whether it is a refusal with this fault, which hands these parts back.
fn is_refused(made: &Made, fault: Fault, parts: &Parts) -> bool {
    match made {
        Ok(_) => false,
        Err(refused) => {
            refused.fault == ProblemFault::Fault(fault)
                && refused.given.0 == parts.0
                && refused.given.1 == parts.1
        }
    }
}

/// Whether parts are refused with this fault, and come back.
fn are_refused(alloc: Global, of: &Of, fault: Fault) -> bool {
    let Some(parts) = parts_of(alloc, of) else {
        return false;
    };
    let Some(made) = made_of(alloc, of.1, parts_of(alloc, of)) else {
        return false;
    };
    is_refused(&made, fault, &parts)
}

#[test]
fn each_fault_is_the_first_one(rt: HostRuntime) {
    for row in &REFUSED {
        assert!(rt; are_refused(rt.alloc(), &row.0, row.1));
    }
}

/// So many names, which are the numbers from 0.
fn numbers(alloc: Global, count: u32) -> Result<Vec<String>, AllocError> {
    let mut names = Vec::new(alloc);
    for number in 0..count {
        names.push(format!(in alloc; "{number}")?)?;
    }
    Ok(names)
}

/// The option of the items to this one.
fn first_items(alloc: Global, last: u32) -> Result<Vec<u32>, AllocError> {
    let mut option = Vec::new(alloc);
    for item in 1..=last {
        option.push(item)?;
    }
    Ok(option)
}

/// Options, each of the first so many items.
fn options_of(alloc: Global, sizes: &[u32]) -> Result<Vec<Vec<u32>>, AllocError> {
    let mut options = Vec::new(alloc);
    for size in sizes {
        options.push(first_items(alloc, *size)?)?;
    }
    Ok(options)
}

/// What comes of so many items with these options, each of the first so many items.
fn large(alloc: Global, items: u32, sizes: &[u32]) -> Option<Made> {
    made_of(
        alloc,
        1,
        both(numbers(alloc, items), options_of(alloc, sizes)),
    )
}

/// So many options with the first item.
fn ones(alloc: Global, count: u32) -> Result<Vec<Vec<u32>>, AllocError> {
    let mut options = Vec::new(alloc);
    for _ in 0..count {
        options.push(Vec::from_slice(alloc, &[1])?)?;
    }
    Ok(options)
}

/// What comes of an item with so many options.
fn many(alloc: Global, count: u32) -> Option<Made> {
    made_of(alloc, 1, both(words(alloc, &["a"]), ones(alloc, count)))
}

/// Whether a problem of so many names and options was made.
fn is_made(made: Option<Made>, names: u32, options: u32) -> bool {
    match problem_in(made) {
        Some(problem) => problem.items() == names && problem.options() == options,
        None => false,
    }
}

/// Whether it is too large, and as many names and options are handed back.
fn is_too_large(made: Option<Made>, names: usize, options: usize) -> bool {
    match made {
        Some(Err(refused)) => {
            refused.fault == ProblemFault::Fault(Fault::TooLarge)
                && refused.given.0.len() == names
                && refused.given.1.len() == options
        }
        _ => false,
    }
}

#[test]
fn a_made_problem_is_the_one_of_its_text(rt: HostRuntime) {
    assert!(rt; is_of_text(rt.alloc(), &SMALL_PARTS, SMALL));
    assert!(rt; is_of_text(rt.alloc(), &SECONDARY_PARTS, SECONDARY));
}

/// Whether so many equal options make the problem of their text.
fn is_of_equal_options(alloc: Global, count: u32) -> bool {
    let Some(problem) = problem_in(many(alloc, count)) else {
        return false;
    };
    let Ok(text) = many_options(alloc, count) else {
        return false;
    };
    is_read(alloc, &problem, &text)
}

#[test]
fn a_problem_of_many_options_is_the_one_of_its_text(rt: HostRuntime) {
    assert!(rt; is_of_equal_options(rt.alloc(), 70_000));
}

#[test]
fn the_limit_on_options_is_exact(rt: HostRuntime) {
    assert!(rt; is_made(many(rt.alloc(), 262_143), 1, 262_143));
    assert!(rt; is_too_large(many(rt.alloc(), 262_144), 1, 262_144));
}

#[test]
fn the_limit_on_items_is_exact(rt: HostRuntime) {
    assert!(rt; is_made(large(rt.alloc(), 65_535, &[]), 65_535, 0));
    assert!(rt; is_too_large(large(rt.alloc(), 65_536, &[]), 65_536, 0));
}

/// 127 options of all 65,535 items are one entry too many: 2 and 65,535 and 127 times 65,536 are 8,388,609.
#[test]
fn the_limit_on_entries_is_exact(rt: HostRuntime) {
    let mut sizes = [65_535; 127];
    assert!(rt; is_too_large(large(rt.alloc(), 65_535, &sizes), 65_535, 127));
    sizes[126] = 65_534;
    assert!(rt; is_made(large(rt.alloc(), 65_535, &sizes), 65_535, 127));
}
