//! Rows are read as they were written, in as many bytes as their numbers have groups of seven bits.

ghost use Rattle.std.specs.Prelude.{◌≡◌, ◌<◌, ◌∷◌, [], ◌+◌, length, IfOk, OnOk};

use crate::{Reader, Row, Rows};
use std::alloc::{AllocError, Global};
use std::process::Abort;

/// Numbers, and how many groups of seven bits each has.
static SIZES: [(u64, usize); 10] = [
    (0, 1),
    (127, 1),
    (128, 2),
    (16383, 2),
    (16384, 3),
    (2097151, 3),
    (2097152, 4),
    (4294967295, 5),
    (9223372036854775807, 9),
    (18446744073709551615, 10),
];

/// A row of two numbers.
fn row_of(alloc: Global, first: u64, second: u64) -> Result<Row, AllocError>
    ensures { IfOk result (λ row. row ≡ first ∷ second ∷ []) }
{
    let mut row = Row::new(alloc);
    row.put(first)?;
    row.put(second)?;
    Ok(row)
}

/// Each number takes its bytes and a 1 beside it one, and both are read back; after them there is none.
fn assert_sizes(rt: &impl Abort, alloc: Global) -> Result<(), AllocError> {
    for (number, size) in &SIZES {
        let row = row_of(alloc, *number, 1)?;
        assert!(rt; row.size() == *size + 1);
        let mut reader = row.reader();
        assert!(rt; reader.next() == Some(*number));
        assert!(rt; reader.number() == 1);
        assert!(rt; reader.next() == None);
        assert!(rt; reader.number() == 0);
    }
    Ok(())
}

#[test]
fn a_number_takes_a_byte_for_seven_bits(rt: HostRuntime) -> Result<(), AllocError> {
    assert_sizes(&rt, rt.alloc())
}

/// A row and its copy tell the same, and once one is cleared they don't.
fn assert_copies(rt: &impl Abort, row: &mut Row) -> Result<(), AllocError> {
    let copy = row.copy()?;
    assert!(rt; copy.reader().same(&row.reader()));
    row.clear();
    assert!(rt; row.size() == 0);
    assert!(rt; !copy.reader().same(&row.reader()));
    Ok(())
}

#[test]
fn a_copy_stays_when_a_row_is_cleared(rt: HostRuntime) -> Result<(), AllocError> {
    let mut row = row_of(rt.alloc(), 300, 70000)?;
    assert_copies(&rt, &mut row)
}

/// A row of so many times two numbers, of three bytes together.
fn long_row(alloc: Global, count: u32) -> Result<Row, AllocError> {
    let mut row = Row::new(alloc);
    'putting: for _k in 0..count {
        row.put(300)?;
        row.put(7)?;
    }
    Ok(row)
}

/// Whether two rows, one of which was put number by number, tell the same from some numbers on.
fn tell_alike(one: &Row, rows: &Rows, skipped: u32) -> bool
    requires { 0 < length rows.now.rows }
{
    let mut mine = one.reader();
    let mut other = rows.row(0);
    'skipping: for _k in 0..skipped {
        if mine.next() != other.next() {
            return false;
        }
    }
    mine.same(&other)
}

/// A row of so many numbers tells the same as its copy in a block, from each end of it on, and not once it has a number more.
fn assert_alike(rt: &impl Abort, row: &mut Row, rows: &mut Rows) -> Result<(), AllocError> {
    rows.push(row)?;
    assert!(rt; tell_alike(row, rows, 0));
    assert!(rt; tell_alike(row, rows, 3));
    assert!(rt; tell_alike(row, rows, 3999));
    row.put(0)?;
    assert!(rt; !tell_alike(row, rows, 3));
    Ok(())
}

#[test]
fn long_rows_are_told_alike(rt: HostRuntime) -> Result<(), AllocError> {
    let mut row = long_row(rt.alloc(), 2000)?;
    let mut rows = Rows::new(rt.alloc());
    assert_alike(&rt, &mut row, &mut rows)
}

/// Two rows, of a row's two numbers with two more and with one.
fn add_two(row: &Row, rows: &mut Rows) -> Result<(), AllocError>
    requires { row.now ≡ 300 ∷ 70000 ∷ [] }
    ensures { OnOk result (length rows.new.rows ≡ length rows.old.rows + 2) }
{
    rows.keep(1, 4)?;
    rows.add(row, &[1, 2]);
    rows.add_kept(row, &[3]);
    Ok(())
}

/// What the next three numbers of a row are.
fn next_three(reader: &mut Reader<'_>) -> (u64, u64, u64) {
    let first = reader.number();
    let second = reader.number();
    (first, second, reader.number())
}

/// The two rows are read back, each from its own first number on.
fn assert_two(rt: &impl Abort, rows: &Rows)
    requires { length rows.now.rows ≡ 2 }
{
    let mut first = rows.row(0);
    assert!(rt; next_three(&mut first) == (300, 70000, 1));
    assert!(rt; next_three(&mut first) == (2, 0, 0));
    let mut second = rows.row(1);
    assert!(rt; next_three(&mut second) == (300, 70000, 3));
    assert!(rt; second.next() == None);
}

#[test]
fn rows_are_read_apart(rt: HostRuntime) -> Result<(), AllocError> {
    let row = row_of(rt.alloc(), 300, 70000)?;
    let mut rows = Rows::new(rt.alloc());
    add_two(&row, &mut rows)?;
    rows.give_up();
    assert_two(&rt, &rows);
    Ok(())
}

/// A row of 7, a list that counts from `first` up, in which the last twenty numbers are `last`, and 9.
fn list_row(alloc: Global, first: u32, last: u32) -> Result<Row, AllocError> {
    let mut list = Vec::new(alloc);
    'putting: for k in 0..2000u32 {
        list.push(if k < 1980 {
            first.wrapping_add(k)
        } else {
            last
        })?;
    }
    let mut row = Row::new(alloc);
    row.put(7)?;
    row.put_list(&list)?;
    row.put(9)?;
    Ok(row)
}

/// Lists by their first number and the last twenty, and the fewest and the most bytes that a row more with one takes, with its places.
static LISTS: [(u32, u32, usize, usize); 5] = [
    // The first is written whole.
    (300, 5, 3000, 4100),
    // Most of it stands there: the rest of at most 5 bytes for each number, and three places.
    (300, 4294967295, 100, 180),
    (300, 6, 20, 100),
    // None of it does.
    (301, 5, 3000, 4100),
    // All of it does.
    (301, 5, 20, 100),
];

/// Pushes each row, which takes as many bytes as it may.
fn push_lists(rt: &impl Abort, alloc: Global, rows: &mut Rows) -> Result<(), AllocError> {
    for (first, last, least, most) in &LISTS {
        let before = rows.size();
        rows.push(&list_row(alloc, *first, *last)?)?;
        let taken = rows.size().saturating_sub(before);
        assert!(rt; *least <= taken);
        assert!(rt; taken <= *most);
    }
    Ok(())
}

/// Whether the row at a place tells the same as a row, read from either.
fn row_is(rows: &Rows, place: usize, row: &Row) -> bool {
    place < rows.len() && rows.row(place).same(&row.reader()) && row.reader().same(&rows.row(place))
}

/// Each row is read back as it was pushed, and as no other.
fn assert_lists(rt: &impl Abort, alloc: Global, rows: &Rows) -> Result<(), AllocError> {
    for (place, (first, last, _, _)) in LISTS.iter().enumerate() {
        let row = list_row(alloc, *first, *last)?;
        assert!(rt; row_is(rows, place, &row));
        assert!(rt; !row_is(rows, (place + 2) % 5, &row));
    }
    Ok(())
}

#[test]
fn rows_share_what_is_the_same_in_long_lists(rt: HostRuntime) -> Result<(), AllocError> {
    let mut rows = Rows::new(rt.alloc());
    push_lists(&rt, rt.alloc(), &mut rows)?;
    assert_lists(&rt, rt.alloc(), &rows)
}

/// Whether the next numbers count from one up.
fn counts_up(reader: &mut Reader<'_>, first: u64, count: u32) -> bool {
    'reading: for k in 0..count {
        if reader.next() != Some(first.wrapping_add(k as u64)) {
            return false;
        }
    }
    true
}

/// The second row is read over the borders of its three pieces.
fn assert_numbers(rt: &impl Abort, rows: &Rows)
    requires { 1 < length rows.now.rows }
{
    let mut reader = rows.row(1);
    assert!(rt; reader.next() == Some(7));
    assert!(rt; counts_up(&mut reader, 300, 1980));
    assert!(rt; reader.next() == Some(4294967295));
    assert!(rt; !reader.is_empty());
    'reading: for _k in 0..19u32 {
        let _last = reader.next();
    }
    assert!(rt; reader.next() == Some(9));
    assert!(rt; reader.is_empty());
    assert!(rt; reader.next() == None);
}

#[test]
fn numbers_are_read_over_borders(rt: HostRuntime) -> Result<(), AllocError> {
    let mut rows = Rows::new(rt.alloc());
    push_lists(&rt, rt.alloc(), &mut rows)?;
    assert!(rt; rows.len() > 1);
    assert_numbers(&rt, &rows);
    Ok(())
}

/// The first rows, so many, are as they were pushed, and the others are not.
fn assert_left(
    rt: &impl Abort,
    alloc: Global,
    rows: &Rows,
    count: usize,
) -> Result<(), AllocError> {
    for (place, (first, last, _, _)) in LISTS.iter().enumerate() {
        let row = list_row(alloc, *first, *last)?;
        assert!(rt; row_is(rows, place, &row) == (place < count));
    }
    Ok(())
}

#[test]
fn a_row_is_taken_away(rt: HostRuntime) -> Result<(), AllocError> {
    let mut rows = Rows::new(rt.alloc());
    push_lists(&rt, rt.alloc(), &mut rows)?;
    let copy = rows.copy()?;
    assert!(rt; rows.len() > 0);
    rows.pop();
    // The copy has memory of its own.
    assert_left(&rt, rt.alloc(), &copy, 5)?;
    assert_left(&rt, rt.alloc(), &rows, 4)
}
