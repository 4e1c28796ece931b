//! What the program says of its words: help, usage lines, and the refusal that clap has no word for.

/// What is said of a job.
pub(crate) struct JobHelp {
    /// The word that asks for it.
    pub name: &'static str,
    /// The line of usage. `clap` would name the options, but not what is read.
    pub usage: &'static str,
    /// The job in a sentence.
    pub about: &'static str,
    /// What is read, what is written, and what the options do.
    pub text: &'static str,
}

pub(crate) const ABOUT: &str =
    "Packs polycubes into regions, and lists exact covers: every one, each once.";

pub(crate) const STATUSES: &str = "\
Every job reads standard input and writes standard output.

Exit statuses:
  0  done
  2  the command line was refused
  3  the input was refused; one line on standard error says why, and
     `polylab explain FILE` says what to do about it
  4  there was not enough memory, or workers did not finish their search
  5  reading or writing failed";

pub(crate) const COVER: JobHelp = JobHelp {
    name: "cover",
    usage: "polylab cover [[--workers N] [--count] | --count --cache MB | --first N]
       [--table links|bits] < COVER-TEXT",
    about: "Lists the exact covers of a cover text.",
    text: "\
The text names items, then options as lists of items. An exact cover is a set of
options in which each item of the line `items` is once, and each item of the
line `maybe` at most once. A `#` begins a comment.

Example, saved as small.cover:
  items a b c d e f g
  option c e
  option a d g
  option b c f
  option a d f
  option b g
  option d e g

`polylab cover < small.cover` prints
  visit 4 5 1
  visits 1
  steps 43
  levels 1 2 2 1

Each `visit` line is an exact cover, as option numbers from 1 in the order in
which the search took them; then come the number of covers, the number of steps
of Algorithm X, and how many paths of 0, 1, 2, .. choices it met.

With --first N the search stops at the N-th cover, if there are so many: the
first N are printed as above, and then the line `first N`. One worker finds them.

With --count the lines `visit` are left out, and no cover is kept. With --cache
MB too, what lies below a set of items is counted once, as long as its counts
are kept in MB megabytes (see `count --help`); what is printed is the same.

With --workers N, N threads share the search; what is printed is the same.
--table links takes dancing links and --table bits bit sets, where a short
search chooses else; what is printed is the same. Bit sets of more than 25 MB
are refused as memory is.

Exit statuses: 0 done, 2 command line refused, 3 text refused, 4 no memory or
workers not done, 5 reading or writing failed.",
};

pub(crate) const SOLVE: JobHelp = JobHelp {
    name: "solve",
    usage: "polylab solve [--workers N | --first N] [--table links|bits]
       [--up-to rotations|symmetries] < PUZZLE",
    about: "Shows every packing of a puzzle, in layers of text.",
    text: "\
The text has a line for each piece, with its name (a letter or digit) and its
cells, and lines that say the region: `box a b c`, `cells ..`, `cut ..`. A cell
is three of 0-9 and a-v: its x, y and z. After `maybe` a piece may be left out,
and cells may stay empty. `copies` has equal pieces; after `any` a piece may be
used any number of times, after `mirror` reflected. A `#` begins a comment.

Example, saved as dominoes.puzzle:
  piece A 000 100
  piece B 000 100
  box 2 2 1

`polylab solve < dominoes.puzzle` prints four packings and their number, first
  packing 1
  AB
  AB

A packing has a line for each y, in it a block for each z, and in that a letter
for each x: the piece there, `_` for an empty cell, `.` outside the region.

With --first N the search stops at the N-th packing, if there are so many: the
first N are shown as above, and then the line `first N`. One worker finds them,
often at once where a whole search would take years.

With --up-to rotations it shows one packing of all that rotations of the region
carry onto one another, whatever the names of the pieces, and with --up-to
symmetries of all that rotations and reflections do; the last line is then as
`rotations 1` or `symmetries 1`. The search leaves out what symmetry repeats.

With --workers N, N threads share the search, and --table TABLE chooses how it
keeps its options (see `cover --help`); what is printed is the same.

A refusal is one line on standard error: `refused puzzle 6 EmptyRegion line 0`.
Exit statuses: 0 done, 2 command line refused, 3 text refused, 4 no memory or
workers not done, 5 reading or writing failed.",
};

pub(crate) const COUNT: JobHelp = JobHelp {
    name: "count",
    usage: "polylab count [--workers N | --cache MB] [--table links|bits]
       [--classes | --up-to rotations|symmetries] < PUZZLE",
    about: "Counts the packings of a puzzle.",
    text: "\
It reads the text that `solve` reads, and prints the number of packings and of
options (the ways to lay a piece, and to leave out spare copies), the number of
steps of Algorithm X, and how many paths of 0, 1, 2, .. choices the search met.

Example: for two dominoes in the box 2 2 1
  packings 4
  options 8
  steps 55
  levels 1 4 4

With --classes come two more lines, here `rotations 1` and `symmetries 1`: how
many packings are left where those count as one that a rotation of the region,
or a rotation or reflection, carries onto one another, whatever the names of
the pieces. All packings are then kept in memory until the end.

With --up-to rotations or --up-to symmetries one of these numbers comes after
the number of packings, and the other lines are of a search that leaves out what
symmetry repeats: for the two dominoes, up to rotations
  packings 4
  rotations 1
  options 5
  steps 19
  levels 1 1 1

With --workers N, N threads share the search; what is printed is the same. They
keep what they posted until the end, visits too: about 1 GB for 10^10 steps at
the depth of polycubes, more for deeper runs, and 12 GB where visits are as many
as with dominoes. One worker keeps these numbers alone. --table TABLE is as with
`cover` (see `cover --help`).

With --cache MB one worker searches what lies below a set of pieces and cells
once, as long as its counts are kept in MB megabytes. What is printed is the
same, with all digits, and comes much sooner if pieces may be used any number of
times: with --cache 3000 the 2444888770250892795802079170816 packings of
dominoes in 16 x 16 take some seconds. If each piece is used once, it is slower
than without.

Exit statuses: 0 done, 2 command line refused, 3 text refused, 4 no memory or
workers not done, 5 reading or writing failed.",
};

pub(crate) const CLASSES: &str =
    "Also counts the packings up to rotations, and up to all symmetries";

pub(crate) const CACHE: &str =
    "How many megabytes are for counts that one worker keeps, 1 to 4294967295";

pub(crate) const WORKERS: &str = "How many threads share the search, 1 to 32";

pub(crate) const TABLE: &str = "The table of the search; what is printed is the same";

pub(crate) const TABLES: &[&str] = &["links", "bits"];

pub(crate) const UP_TO: &str =
    "Up to which symmetries, by a search that leaves out what they repeat";

pub(crate) const GROUPS: &[&str] = &["rotations", "symmetries"];

pub(crate) const OPTIONS: JobHelp = JobHelp {
    name: "options",
    usage: "polylab options [--up-to rotations|symmetries] < PUZZLE",
    about: "Writes the cover text whose exact covers are the packings of a puzzle.",
    text: "\
It reads the text that `solve` reads, and writes a text that `cover` reads: the
items are the pieces, the cells, and what keeps equal pieces in order; the
options are the ways to lay a piece, and to leave out spare copies.

With --up-to rotations or --up-to symmetries it leaves out options that symmetry
repeats: at one piece or cell, which a comment names, with how many packings
each cover then stands for, where that is one number. Each packing of the puzzle
is then like one for which a cover stands (see `solve --help`).

Exit statuses: 0 done, 2 command line refused, 3 text refused, 4 no memory,
5 reading or writing failed.",
};

pub(crate) const DEBUG: JobHelp = JobHelp {
    name: "debug",
    usage: "polylab debug [--cover] < PROBLEM-AND-COMMANDS",
    about: "Takes the search of a puzzle step by step, by commands.",
    text: "\
It reads the text that `solve` reads (with --cover, the text that `cover` reads)
up to a line `%%`, and then a command from each line:
  step [N]         N steps, 1 where N isn't given, to the branch's end at most
  run              steps up to the first breakpoint, or to the branch's end
  back [N]         N steps back, down to where it was posted last
  break level N    a breakpoint: a path of N choices
  break option N   ... an option that is about to be tried
  break item NAME  ... an item that was chosen
  break visit      ... a visit
  clear            no breakpoints
  show             the state: what is covered, and the options that are left
  untried          at each level the options that can be cut off
  split L O        cuts the branch at the option O of level L
  park             posts what was walked, and gives the branch back
  save             the same, and prints a snapshot; save breaks: breakpoints too
  close            at its end, posts what was walked, and closes the branch
  open LO          opens the branch that begins at LO: `start`, or choices
  branches         the branches that are not closed
  retract          takes what was posted last back, to walk it again
  hold LO          asks the branch that begins at LO to stop
  putback LO STATE takes what it has posted after a state back
  visits           the visits that were posted; steps, levels: how many
  pool N           N workers, 1 to 32, search all branches that wait
  load K           goes on at the snapshot in the next K lines
  quit             ends

Each reply is one or more lines. What can't be done is refused in one line, as
`refused debug 1 BadCommand`, and changes nothing. docs/DEBUGGER.md teaches it.

Exit statuses: 0 done, 2 command line refused, 3 text refused, 4 no memory or
workers of `pool` not done, 5 reading or writing failed.",
};

pub(crate) const RESUME: JobHelp = JobHelp {
    name: "resume",
    usage: "polylab resume [[--steps N] [--list] | --cache MB] [--table links|bits]
       < SNAPSHOT",
    about: "Counts a branch of a search from a snapshot on, in slices if you like.",
    text: "\
It reads a snapshot, which `save` of `debug` prints (without the line before it,
that tells the number of its lines), and takes the search from there on, up to
the end of the snapshot's branch. It prints the number of visits, the number of
steps of Algorithm X, and how many paths of 0, 1, 2, .. choices it met, all on
the way, and then the line `end`.

With --steps N, N from 1 on, it stops after N steps, if the branch's end doesn't
come first. In place of `end` stands then the snapshot of where it stopped, the
next input: from the line `polysnap` on to the end. What such slices print adds
up to what one run prints, and so does what branches print that join.

Example: of the snapshot at the start of small.cover (see `cover --help`),
`polylab resume --steps 40` prints
  visits 1
  steps 40
  levels 1 2 2 1
  polysnap 1
and the rest of the snapshot there, of which `polylab resume` prints
  visits 0
  steps 3
  levels 0
  end

--table TABLE is as with `cover` (see `cover --help`).

With --list a line `visit` comes first for each visit, as `cover` prints it;
without it no visit is kept.

With --cache MB it prints the same numbers, and searches what lies below a set
of items once, as long as its counts are kept in MB megabytes (see `count
--help`). It goes with neither --steps nor --list.

A refusal is one line on standard error: `refused snapshot 5 NotOnRun`.
Exit statuses: 0 done, 2 command line refused, 3 text refused, 4 no memory,
5 reading or writing failed.",
};

pub(crate) const JOIN: JobHelp = JobHelp {
    name: "join",
    usage: "polylab join [--packings] < WHOLE-AND-PARTS",
    about: "Adds up what `resume` counted of the parts of a search.",
    text: "\
It reads the snapshot of the whole search, up to its line `end`, and then of each
part, in order, the lines of its snapshot from `from` to `end` and what `polylab
resume` printed of it, up to `end` too. It prints what `cover --count` prints of
the whole; with --packings what `count` prints, of the problem of a puzzle.

It checks that each part is of this problem and on its run, and begins where the
one before it ends, the first where the whole begins and the last up to its end.
It searches nothing: that the answers are those of the parts is what you say.

Example: of small.cover (see `cover --help`), whose run is cut at the choice 4,
the lines of the snapshot at its start are followed by
  from start
  to 4
  state X1 -
  end
  visits 0
  steps 20
  levels 1 1 1
  end
and by those of the part from 4 to end, and it prints
  visits 1
  steps 43
  levels 1 2 2 1

A refusal is one line on standard error: `refused join 4 Gap line 14`.
Exit statuses: 0 done, 2 command line refused, 3 text refused, 4 no memory,
5 reading or writing failed.",
};

pub(crate) const PACKINGS: &str = "The visits are packings of a puzzle";

pub(crate) const COUNT_ALONE: &str = "Prints their number, the steps and the levels alone";

pub(crate) const FIRST: &str = "Stop at the N-th, for a worker alone, 1 to 18446744073709551615";

pub(crate) const FIRST_SHARED: &str = "\
error: the argument '--first <N>' cannot be used with '--workers <N>' above 1: one worker finds the first

For more information, try '--help'.
";

pub(crate) const STEPS: &str = "How many steps to take at most, 1 to 18446744073709551615";

pub(crate) const LIST: &str = "Also lists the visits";

pub(crate) const OF_COVER: &str = "The problem is a cover text";
