//! The small problem's run up to the cut 4 and from there on, whose numbers are those of its 43 steps; and the same text spoilt.
use part_sums::{Counted, JoinFault, join};
use std::alloc::{AllocError, Global};
use text_lines::TextRefusal;

/// The small problem's lines in a snapshot.
const PROBLEM: &str =
    "polysnap 1\nproblem 7\nitems a b c d e f g\noption c e\noption a d g\noption b c f\noption a d f\noption b g\noption d e g\n";

/// The run as a whole.
const WHOLE: &str = "from start\nto end\nstate X1 -\nend\n";

/// Its first 20 steps.
const FIRST: &str = "from start\nto 4\nstate X1 -\nend\nvisits 0\nsteps 20\nlevels 1 1 1\nend\n";

/// The others.
const LAST: &str = "from 4\nto end\nstate X5 4\nend\nvisits 1\nsteps 23\nlevels 0 1 1 1\nend\n";

/// Four texts, one after the other.
struct Text(&'static str, &'static str, &'static str, &'static str);

/// A text, and the fault and the line that it is refused with.
struct Row(Text, JoinFault, u64);

/// A text, what is counted, and the lines of the sum.
struct Sum(Text, Counted, &'static str);

static SUMS: [Sum; 6] = [
    Sum(
        Text(PROBLEM, WHOLE, FIRST, LAST),
        Counted::Covers,
        "visits 1\nsteps 43\nlevels 1 2 2 1\n",
    ),
    Sum(
        Text(PROBLEM, WHOLE, FIRST, LAST),
        Counted::Packings,
        "packings 1\noptions 6\nsteps 43\nlevels 1 2 2 1\n",
    ),
    // A branch is a whole too.
    Sum(
        Text(PROBLEM, "from 4\nto end\nstate X5 4\nend\n", LAST, ""),
        Counted::Covers,
        "visits 1\nsteps 23\nlevels 0 1 1 1\n",
    ),
    // No step, and no state of X2.
    Sum(
        Text(
            PROBLEM,
            "from start\nto 4\nstate X5 4\nend\n",
            "from start\nto 4\nstate X5 4\nend\n",
            "visits 0\nsteps 0\nlevels 0\nend\n",
        ),
        Counted::Covers,
        "visits 0\nsteps 0\nlevels 0\n",
    ),
    // Numbers above 64 and above 128 bits.
    Sum(
        Text(
            PROBLEM,
            "from start\nto end\nstate X1 -\nend\nfrom start\nto 4\nstate X1 -\nend\n",
            "visits 340282366920938463463374607431768211455\nsteps 1361129467683753853853498429727072845824\nlevels 340282366920938463463374607431768211456\nend\n",
            LAST,
        ),
        Counted::Covers,
        "visits 340282366920938463463374607431768211456\nsteps 1361129467683753853853498429727072845847\nlevels 340282366920938463463374607431768211456 1 1 1\n",
    ),
    // Other numbers than the part's, which fit all the same.
    Sum(
        Text(
            PROBLEM,
            "from start\nto end\nstate X1 -\nend\nfrom start\nto 4\nstate X1 -\nend\n",
            "visits 2\nsteps 12\nlevels 1 1 1\nend\n",
            LAST,
        ),
        Counted::Covers,
        "visits 3\nsteps 35\nlevels 1 2 2 1\n",
    ),
];

static SPOILT: [Row; 27] = [
    Row(Text("", "", "", ""), JoinFault::Truncated, 1),
    Row(Text(PROBLEM, FIRST, LAST, ""), JoinFault::BadPart, 14),
    Row(Text("hello\nend\n", FIRST, LAST, ""), JoinFault::NoWhole, 1),
    Row(Text(PROBLEM, WHOLE, "", ""), JoinFault::LeftOut, 13),
    Row(Text(PROBLEM, WHOLE, FIRST, ""), JoinFault::LeftOut, 21),
    Row(Text(PROBLEM, WHOLE, LAST, ""), JoinFault::Gap, 14),
    Row(Text(PROBLEM, WHOLE, FIRST, FIRST), JoinFault::Twice, 22),
    Row(
        Text(
            PROBLEM,
            WHOLE,
            FIRST,
            "from start\nto end\nstate X3 -\nend\n",
        ),
        JoinFault::Overlap,
        22,
    ),
    Row(
        Text(PROBLEM, WHOLE, "from start\nto 9\nstate X1 -\nend\n", ""),
        JoinFault::NotOnRun,
        14,
    ),
    Row(
        Text(PROBLEM, WHOLE, "from start\nto 4\nstate X5 4\nend\n", LAST),
        JoinFault::Gap,
        14,
    ),
    Row(
        Text(PROBLEM, WHOLE, "from start\nto 4\nstate X1 -\nend \n", ""),
        JoinFault::Truncated,
        14,
    ),
    Row(
        Text(PROBLEM, WHOLE, "from start\nto  4\nstate X1 -\nend\n", LAST),
        JoinFault::BadPart,
        14,
    ),
    Row(
        Text(
            PROBLEM,
            WHOLE,
            "from start\nto 4\nstate X1 -\nend\n",
            "visits 0\nsteps 20\nlevels 1 1 0\nend\n",
        ),
        JoinFault::BadAnswer,
        18,
    ),
    Row(
        Text(
            PROBLEM,
            WHOLE,
            "from start\nto 4\nstate X1 -\nend\n",
            "visits 0\nsteps 20\nlevels 1 1 1\n",
        ),
        JoinFault::Truncated,
        18,
    ),
    Row(
        Text(
            PROBLEM,
            WHOLE,
            "from start\nto 4\nstate X1 -\nend\n",
            "visits 0\nsteps 020\nlevels 1 1 1\nend\n",
        ),
        JoinFault::BadAnswer,
        18,
    ),
    Row(
        Text(
            PROBLEM,
            WHOLE,
            "from start\nto 4\nstate X1 -\nend\n",
            "steps 20\nvisits 0\nlevels 1 1 1\nend\n",
        ),
        JoinFault::BadAnswer,
        18,
    ),
    Row(
        Text(
            PROBLEM,
            WHOLE,
            "from start\nto 4\nstate X1 -\nend\n",
            "visits 0 0\nsteps 20\nlevels 1 1 1\nend\n",
        ),
        JoinFault::BadAnswer,
        18,
    ),
    Row(
        Text(
            PROBLEM,
            WHOLE,
            "from start\nto 4\nstate X1 -\nend\n",
            "visits 0\nsteps 20\nlevels 1 1 1\nend of it\n",
        ),
        JoinFault::BadAnswer,
        18,
    ),
    Row(
        Text(
            PROBLEM,
            WHOLE,
            FIRST,
            "from 4\nto end\nstate X5 4\nend\nvisits 1\nsteps",
        ),
        JoinFault::Truncated,
        26,
    ),
    // A step, a visit or a state too many.
    Row(
        Text(
            PROBLEM,
            WHOLE,
            "from start\nto 4\nstate X1 -\nend\n",
            "visits 0\nsteps 21\nlevels 1 1 1\nend\n",
        ),
        JoinFault::BadNumbers,
        18,
    ),
    Row(
        Text(
            PROBLEM,
            WHOLE,
            "from start\nto 4\nstate X1 -\nend\n",
            "visits 1\nsteps 20\nlevels 1 1 1\nend\n",
        ),
        JoinFault::BadNumbers,
        18,
    ),
    Row(
        Text(
            PROBLEM,
            WHOLE,
            "from start\nto 4\nstate X1 -\nend\n",
            "visits 0\nsteps 20\nlevels 1 1 2\nend\n",
        ),
        JoinFault::BadNumbers,
        18,
    ),
    // The same but for 2^64.
    Row(
        Text(
            PROBLEM,
            WHOLE,
            "from start\nto 4\nstate X1 -\nend\n",
            "visits 0\nsteps 18446744073709551636\nlevels 1 1 1\nend\n",
        ),
        JoinFault::BadNumbers,
        18,
    ),
    // The numbers of the first part, for the second.
    Row(
        Text(
            PROBLEM,
            WHOLE,
            FIRST,
            "from 4\nto end\nstate X5 4\nend\nvisits 0\nsteps 20\nlevels 1 1 1\nend\n",
        ),
        JoinFault::BadNumbers,
        26,
    ),
    // What stands before the numbers is looked at first.
    Row(
        Text(
            PROBLEM,
            WHOLE,
            "from 4\nto end\nstate X5 4\nend\n",
            "visits 1\nsteps 24\nlevels 0 1 1 1\nend\n",
        ),
        JoinFault::Gap,
        14,
    ),
    Row(
        Text(
            PROBLEM,
            WHOLE,
            "from start\nto 4\nstate X1 -\nend\n",
            "visits 0\nsteps 21\nlevels 1 1 1\nends\n",
        ),
        JoinFault::BadAnswer,
        18,
    ),
    Row(
        Text(PROBLEM, WHOLE, "items a\n", LAST),
        JoinFault::BadPart,
        14,
    ),
];

/// The text in one.
fn whole_text(alloc: Global, text: &Text) -> Result<Vec<u8>, AllocError> {
    let mut whole = Vec::new(alloc);
    whole.extend_from_slice(text.0.as_bytes())?;
    whole.extend_from_slice(text.1.as_bytes())?;
    whole.extend_from_slice(text.2.as_bytes())?;
    whole.extend_from_slice(text.3.as_bytes())?;
    Ok(whole)
}

/// Whether the parts of a text add up so.
fn adds_up(alloc: Global, sum: &Sum) -> bool {
    let Ok(whole) = whole_text(alloc, &sum.0) else {
        return false;
    };
    match join(alloc, &whole, sum.1) {
        Ok(lines) => lines.as_slice() == sum.2.as_bytes(),
        Err(_) => false,
    }
}

/// Whether a text is refused as its row says.
fn is_refused_so(alloc: Global, row: &Row) -> bool {
    let Ok(whole) = whole_text(alloc, &row.0) else {
        return false;
    };
    match join(alloc, &whole, Counted::Covers) {
        Err(TextRefusal::Fault { fault, line }) => fault == row.1 && line == row.2,
        _ => false,
    }
}

#[test]
fn parts_add_up(rt: HostRuntime) {
    for sum in &SUMS {
        assert!(rt; adds_up(rt.alloc(), sum));
    }
}

#[test]
fn spoilt_texts_are_refused(rt: HostRuntime) {
    for row in &SPOILT {
        assert!(rt; is_refused_so(rt.alloc(), row));
    }
}
