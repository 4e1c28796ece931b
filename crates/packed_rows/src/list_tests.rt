//! Lists are read as they were put, whatever list stood in the row before.

use crate::Row;
use cover_problem::Lists;
use std::alloc::{AllocError, Global};
use std::process::Abort;

/// Numbers of one to five bytes.
static NUMBERS: [u32; 5] = [1, 300, 70_000, 3_000_000, 4_000_000_000];

/// The number at a place of a list that agrees with others in its first numbers, so many.
fn number_at(place: u32, agreed: u32) -> u32 {
    let other = if place < agreed { 0 } else { 1 };
    NUMBERS[(place % 5) as usize]
        .wrapping_add(place / 5)
        .wrapping_add(other)
}

/// So many of its numbers.
fn list_of(alloc: Global, count: u32, agreed: u32) -> Result<Vec<u32>, AllocError> {
    let mut list = Vec::new(alloc);
    'putting: for place in 0..count {
        list.push(number_at(place, agreed))?;
    }
    Ok(list)
}

/// How many numbers lists have, each put where the one before it stood, and in how many of them they agree with the first.
static LISTS: [(u32, u32); 12] = [
    (200, 200),
    (200, 0),
    (200, 63),
    (200, 64),
    (200, 200),
    (200, 65),
    (63, 200),
    (64, 200),
    (129, 128),
    (65, 200),
    (0, 0),
    (300, 200),
];

/// A list that is put alone is read as it was put.
fn assert_list(rt: &impl Abort, row: &mut Row, list: &[u32]) -> Result<(), AllocError> {
    row.clear();
    row.put_list(list)?;
    let mut reader = row.reader();
    'reading: for n in list {
        assert!(rt; reader.next() == Some(*n as u64));
    }
    assert!(rt; reader.is_empty());
    Ok(())
}

#[test]
fn a_list_is_read_whatever_stood_before(rt: HostRuntime) -> Result<(), AllocError> {
    let mut row = Row::new(rt.alloc());
    for (count, agreed) in &LISTS {
        let list = list_of(rt.alloc(), *count, *agreed)?;
        assert_list(&rt, &mut row, &list)?;
    }
    Ok(())
}

/// How many numbers lists have that are put at once: from none on, and about where a list is shared, and where one is known.
static LENGTHS: [u32; 12] = [0, 1, 5, 31, 32, 2, 33, 63, 3, 64, 200, 4];

/// Lists of so many numbers, four times over.
fn lists_of(alloc: Global) -> Result<Lists, AllocError> {
    let mut lists = Lists::new(alloc);
    for agreed in 0..4u32 {
        for count in &LENGTHS {
            lists.push(&list_of(alloc, *count, agreed)?)?;
        }
    }
    Ok(lists)
}

/// No two neighbours have one length, so each list stands behind twice its own.
#[test]
fn lists_at_once_are_put_as_one_by_one(rt: HostRuntime) -> Result<(), AllocError> {
    let lists = lists_of(rt.alloc())?;
    let mut at_once = Row::new(rt.alloc());
    at_once.put(7)?;
    at_once.put_lists(&lists)?;
    let mut one_by_one = Row::new(rt.alloc());
    one_by_one.put(7)?;
    one_by_one.put(48)?;
    for place in 0..lists.len() {
        one_by_one.put(2 * lists.list(place).len() as u64)?;
        one_by_one.put_list(lists.list(place))?;
    }
    assert!(rt; at_once.size() == one_by_one.size());
    assert!(rt; at_once.reader().same(&one_by_one.reader()));
    Ok(())
}

/// A row has these numbers, and no more.
fn assert_numbers(rt: &impl Abort, row: &Row, numbers: &[u64]) {
    let mut reader = row.reader();
    'reading: for n in numbers {
        assert!(rt; reader.next() == Some(*n));
    }
    assert!(rt; reader.is_empty());
}

/// Lists, all numbers that tell them, and how many bytes these take.
struct Told(&'static [&'static [u32]], &'static [u64], usize);

static TOLD: [Told; 8] = [
    // Steps of 0 and 63 take a byte; after 72, 136 is a step of 64.
    Told(&[&[9], &[9], &[72], &[136]], &[4, 2, 9, 1, 127, 2, 136], 8),
    Told(
        &[&[5, 300, 70000], &[5, 300, 70001], &[5, 300, 70003]],
        &[3, 6, 5, 300, 70000, 3, 5],
        10,
    ),
    // The last number falls.
    Told(&[&[3, 9], &[3, 8]], &[2, 4, 3, 9, 4, 3, 8], 7),
    // Another first number, in the second list and in the third, and then the same one.
    Told(
        &[&[1, 1, 5], &[2, 1, 5], &[2, 2, 5], &[2, 2, 6]],
        &[4, 6, 1, 1, 5, 6, 2, 1, 5, 6, 2, 2, 5, 3],
        14,
    ),
    // Another length.
    Told(
        &[&[1, 5], &[1, 5, 6], &[1, 5]],
        &[3, 4, 1, 5, 6, 1, 5, 6, 4, 1, 5],
        11,
    ),
    // No number, and what stood before such a list.
    Told(&[&[], &[], &[7], &[], &[7]], &[5, 0, 0, 2, 7, 0, 2, 7], 8),
    // Numbers of five bytes. None is a step after the last number of 32 bits.
    Told(
        &[&[4294967294], &[4294967295], &[0]],
        &[3, 2, 4294967294, 3, 2, 0],
        10,
    ),
    Told(&[], &[0], 1),
];

/// Lists are told by these numbers, in so many bytes.
fn assert_told(rt: &impl Abort, alloc: Global, told: &Told) -> Result<(), AllocError> {
    let mut lists = Lists::new(alloc);
    'pushing: for list in told.0 {
        lists.push(list)?;
    }
    let mut row = Row::new(alloc);
    row.put_lists(&lists)?;
    assert_numbers(rt, &row, told.1);
    assert!(rt; row.size() == told.2);
    Ok(())
}

#[test]
fn a_list_is_told_after_the_one_before_it(rt: HostRuntime) -> Result<(), AllocError> {
    for told in &TOLD {
        assert_told(&rt, rt.alloc(), told)?;
    }
    Ok(())
}

/// A list of so many numbers, and then as many more as there are steps, each in which the last number rises by 2.
fn lists_in_steps(alloc: Global, count: u32, steps: u32) -> Result<Lists, AllocError> {
    let mut list = list_of(alloc, count, count)?;
    let mut lists = Lists::new(alloc);
    lists.push(&list)?;
    'pushing: for _ in 0..steps {
        let last = list.pop().unwrap_or(0);
        list.push(last.wrapping_add(2))?;
        lists.push(&list)?;
    }
    Ok(lists)
}

/// However long lists are, each takes a byte where its last number alone rises: so more than room is made for at once.
fn assert_steps(rt: &impl Abort, alloc: Global, count: u32, before: u64) -> Result<(), AllocError> {
    let mut one = Row::new(alloc);
    one.put_lists(&lists_in_steps(alloc, count, 0)?)?;
    let lists = lists_in_steps(alloc, count, 500)?;
    let mut row = Row::new(alloc);
    row.put_lists(&lists)?;
    // The number of lists takes a byte more.
    assert!(rt; row.size() == one.size() + 501);
    let mut reader = row.reader();
    'passing: for _ in 0..before {
        reader.number();
    }
    'reading: for _ in 0..500 {
        assert!(rt; reader.next() == Some(5));
    }
    assert!(rt; reader.is_empty());
    Ok(())
}

#[test]
fn long_lists_in_steps_take_a_byte_each(rt: HostRuntime) -> Result<(), AllocError> {
    // Before the steps stand the number of lists, twice the length, and the list.
    assert_steps(&rt, rt.alloc(), 3, 5)?;
    assert_steps(&rt, rt.alloc(), 31, 33)?;
    assert_steps(&rt, rt.alloc(), 32, 34)?;
    assert_steps(&rt, rt.alloc(), 70, 72)
}

#[test]
fn a_length_stands_before_its_list(rt: HostRuntime) -> Result<(), AllocError> {
    let mut row = Row::new(rt.alloc());
    row.put(7)?;
    row.put_with_length(&[9, 200])?;
    row.put_with_length(&[])?;
    assert!(rt; row.size() == 6);
    assert_numbers(&rt, &row, &[7, 2, 9, 200, 0]);
    Ok(())
}
