//! The short search that tells which table is preferred: what it counts on problems worked by hand, and that the machine is back.

use cover_links::LinkTable;
use cover_problem::{Problem, Table, read_cover};
use drawn_problems::SMALL;
use std::alloc::Global;
use table_probe::{Costs, costs_ahead, prefers_bits};
use x_steps::Machine;

/// A text; how many steps are taken before; the costs from there on; and whether bits are preferred there.
struct Row(&'static str, u32, Costs, bool);

/// Eight items, all in each of ten options: after the first item is covered nothing is left, and each option is a cover.
const ALIKE: &str =
    "items a b c d e f g h\noption a b c d e f g h\noption a b c d e f g h\noption a b c d e f g h\n\
option a b c d e f g h\noption a b c d e f g h\noption a b c d e f g h\noption a b c d e f g h\noption a b c d e f g h\n\
option a b c d e f g h\noption a b c d e f g h";

static ROWS: [Row; 4] = [
    // The small problem from its first step on. A node, the lengths of the lists that are looked at, the item chosen; then for each
    // item covered its options and the words left before (one while an option is left):
    //   -      a2 b2 c2 d3 e2 f2 g3, a; a: 2 4, one. Option 2, d: 6, one; g: 5, one.
    //   2      b1 c2 e1 f1, b; b: 3, one. Option 3, c: 1, one; f: none, no word.
    //   2 3    e0, e; e: none, no word.
    //          Option 4 of a, d: 6, one; f: 3, one.
    //   4      b1 c1 e1 g1, b; b: 5, one. Option 5, g: none, one.
    //   4 5    c1 e1, c; c: 1, one. Option 1, e: none, no word.
    // So five items are chosen, after 7 + 4 + 1 + 4 + 2 looks, all but that at e0 with a word; of the options 2 4 6 5, 3 1, 6 3, 5, 1
    // the other items are 2 + 2 + 2 + 1, 2 + 1, 2 + 2, 1, 1; and with a word left as a, a, b, b, c was chosen the options 2, 4, 3, 5, 1
    // are tried. The row of the seven primary items has a word.
    Row(
        SMALL,
        0,
        Costs {
            chosen: 5,
            looked: 18,
            hidden: 16,
            looked_words: 17,
            written_words: 5,
            row_words: 5,
        },
        true,
    ),
    // From X5 at option 4 on: a is chosen and covered already. Only what stands above from there on is paid.
    Row(
        SMALL,
        20,
        Costs {
            chosen: 2,
            looked: 6,
            hidden: 6,
            looked_words: 6,
            written_words: 3,
            row_words: 2,
        },
        false,
    ),
    // Done: nothing is left to pay.
    Row(
        SMALL,
        43,
        Costs {
            chosen: 0,
            looked: 0,
            hidden: 0,
            looked_words: 0,
            written_words: 0,
            row_words: 0,
        },
        false,
    ),
    // Eight looks, and ten options with seven other items each, which are tried in two passes, since they have more than six items:
    // 50 + 3 x 8 + 5 x 20 + 18 is less than 10 x 8 + 16 x 70.
    Row(
        ALIKE,
        0,
        Costs {
            chosen: 1,
            looked: 8,
            hidden: 70,
            looked_words: 8,
            written_words: 20,
            row_words: 1,
        },
        true,
    ),
];

/// Takes steps, up to Done.
fn take_steps<T: Table>(machine: &mut Machine<T>, steps: u32) {
    for _ in 0..steps {
        if machine.step().is_err() {
            return;
        }
    }
}

/// Whether the costs from where a machine stands are these, and it is back there.
fn costs_so<T: Table>(alloc: Global, machine: &mut Machine<T>, costs: Costs) -> bool {
    let Ok(before) = machine.state().copy() else {
        return false;
    };
    match costs_ahead(alloc, machine) {
        Ok(told) => told == costs && machine.state().same(&before),
        Err(_) => false,
    }
}

/// The same of a machine that took steps before, and whether it prefers bits.
fn is_row_so<T: Table>(alloc: Global, machine: &mut Machine<T>, row: &Row) -> bool {
    take_steps(machine, row.1);
    costs_so(alloc, machine, row.2) && prefers_bits(alloc, machine) == row.3
}

/// The same of a machine by links over a row's problem.
fn is_problem_so(alloc: Global, problem: &Problem, row: &Row) -> bool {
    let Ok(table) = LinkTable::new(alloc, problem) else {
        return false;
    };
    match Machine::new(alloc, problem, table) {
        Ok(machine) => {
            let mut machine = machine;
            is_row_so(alloc, &mut machine, row)
        }
        Err(_) => false,
    }
}

/// The same of a row's text.
fn is_text_so(alloc: Global, row: &Row) -> bool {
    match read_cover(alloc, row.0.as_bytes()) {
        Ok(problem) => is_problem_so(alloc, &problem, row),
        Err(_) => false,
    }
}

#[test]
fn costs_are_counted_as_by_hand(rt: HostRuntime) {
    for row in &ROWS {
        assert!(rt; is_text_so(rt.alloc(), row));
    }
}
