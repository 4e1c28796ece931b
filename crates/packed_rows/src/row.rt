//! One row.
ghost use Rattle.std.specs.Prelude.{◌≡◌, ◌++◌, ◌∷◌, [], ◌<◌, ◌^◌, ◌≤◌, ◌+◌, ◌*◌, length, vec_len, vec_capacity};
ghost use Rattle.std.specs.Prelude.{OnOk, OnErr};
ghost use Rattle.std.specs.List.{flat_map};
ghost use Rattle.shared_words.specs.Answers.{Returns};
ghost use Rattle.packed_rows.specs.Numbers.{front, bytes_of, numbers_of, IsRow};

mod lists;

use crate::draft::{LONG, put_bytes};
use crate::known::{Known, STEP};
use crate::reader::Reader;
use crate::rope::Rope;
use std::alloc::{AllocError, Global};
use std::marker::Model;
use std::mem;

/// A row of numbers, below 2^64 each: one byte for each seven bits of a number, and one byte at least.
#[derive(Drop)]
pub struct Row {
    bytes: Vec<u8>,
    /// Before how many bytes long lists begin: where later rows may agree with it.
    marks: Vec<usize>,
    /// The long list that was put last, also before all numbers were taken out: the next one mostly begins alike.
    known: Known,
}

impl Model for Row {
    ghost use Rattle.std.specs.Prelude.{ℕ, List};
    ghost use Rattle.packed_rows.specs.Numbers.{numbers_of, IsRow};

    ghost Value = { List ℕ };

    ghost view = { λ r. numbers_of r.bytes.items };

    ghost invariant = { λ r. IsRow r.bytes.items };
}

/// Adds the bytes before a number's last one, `most` at most.
fn put_front(bytes: &mut Vec<u8>, n: u64, most: usize)
    requires small { n < 128 ^ most }
    requires room { vec_len bytes.old + most ≤ vec_capacity bytes.old }
    ensures added { bytes.new.items ≡ bytes.old.items ++ front most n }
    ensures long { vec_len bytes.new ≤ vec_len bytes.old + most }
    ensures capacity { vec_capacity bytes.new ≡ vec_capacity bytes.old }
{
    if n == 0 {
        return;
    }
    // The highest seven bits go first, each byte but the last with a sign that more follow: a reader adds them up as they come.
    put_front(bytes, n / 128, most - 1);
    bytes.push_reserved((n % 128) as u8 + 128);
}

/// Adds the bytes of a number.
pub(crate) fn put(bytes: &mut Vec<u8>, n: u64)
    requires room { vec_len bytes.old + 10 ≤ vec_capacity bytes.old }
    ensures added { bytes.new.items ≡ bytes.old.items ++ bytes_of n }
    ensures long { vec_len bytes.new ≤ vec_len bytes.old + 10 }
    ensures capacity { vec_capacity bytes.new ≡ vec_capacity bytes.old }
{
    // Most numbers have one byte, and no call is made for it.
    if n < 128 {
        bytes.push_reserved(n as u8);
        return;
    }
    // 64 bits are ten groups of seven, so nine at most stand before the last.
    put_front(bytes, n / 128, 9);
    bytes.push_reserved((n % 128) as u8);
}

/// The bytes with those before a number's last one, `most` at most.
// By value: whoever has the parts of the vector in registers need not put them into memory to lend it.
fn with_front(bytes: Vec<u8>, n: u64, most: usize) -> Vec<u8>
    requires small { n < 128 ^ most }
    requires room { vec_len bytes + most ≤ vec_capacity bytes }
    ensures added { result.items ≡ bytes.items ++ front most n }
    ensures long { vec_len result ≤ vec_len bytes + most }
    ensures capacity { vec_capacity result ≡ vec_capacity bytes }
{
    let mut bytes = bytes;
    put_front(&mut bytes, n, most);
    bytes
}

/// Adds the bytes of a number of 32 bits.
#[inline(always)]
fn put_word(bytes: &mut Vec<u8>, n: u32)
    requires room { vec_len bytes.old + 5 ≤ vec_capacity bytes.old }
    ensures added { bytes.new.items ≡ bytes.old.items ++ bytes_of n }
    ensures long { vec_len bytes.new ≤ vec_len bytes.old + 5 }
    ensures capacity { vec_capacity bytes.new ≡ vec_capacity bytes.old }
{
    if n < 128 {
        bytes.push_reserved(n as u8);
        return;
    }
    // Most numbers of long lists take two bytes, and no call for each is made.
    if n < 16_384 {
        bytes.push_reserved((n / 128) as u8 + 128);
        bytes.push_reserved((n % 128) as u8);
        return;
    }
    // Handed on by value, and not lent, as `with_front` tells.
    let alloc = *bytes.allocator();
    let taken = mem::replace(bytes, Vec::new(alloc));
    *bytes = with_front(taken, (n / 128) as u64, 4);
    bytes.push_reserved((n % 128) as u8);
}

/// Adds the bytes of numbers of 32 bits.
#[inline(always)]
pub(crate) fn put_words(bytes: &mut Vec<u8>, list: &[u32])
    requires room { vec_len bytes.old + 5 * length list.now ≤ vec_capacity bytes.old }
    ensures added { bytes.new.items ≡ bytes.old.items ++ flat_map bytes_of list.now }
{
    'putting: for n in list {
        put_word(bytes, *n);
    }
}

/// Adds the bytes of a long list; where memory runs out, nothing changes. The whole steps with which the list before it began alike keep
/// their bytes: those are copied, and only the rest is made.
fn put_long(bytes: &mut Vec<u8>, known: &mut Known, list: &[u32]) -> Result<(), AllocError>
    ensures added { OnOk result (bytes.new.items ≡ bytes.old.items ++ flat_map bytes_of list.now) }
    ensures unchanged { OnErr result (bytes.new.items ≡ bytes.old.items) }
{
    let rest = known.learn(list)?;
    let first = known.bytes();
    bytes.reserve(rest.len().saturating_mul(5).saturating_add(first.len()))?;
    put_bytes(bytes, first);
    put_words(bytes, rest);
    Ok(())
}

/// Adds the bytes of a list; where memory runs out, nothing changes.
fn put_numbers(bytes: &mut Vec<u8>, known: &mut Known, list: &[u32]) -> Result<(), AllocError>
    ensures added { OnOk result (bytes.new.items ≡ bytes.old.items ++ flat_map bytes_of list.now) }
    ensures unchanged { OnErr result (bytes.new.items ≡ bytes.old.items) }
{
    if list.len() >= STEP {
        return put_long(bytes, known, list);
    }
    // Five bytes are enough for each number: room is taken once for all.
    bytes.reserve(5 * list.len())?;
    put_words(bytes, list);
    Ok(())
}

/// A list of fewer numbers isn't shared.
const SHARED: usize = LONG / 2;

/// A list of so many numbers begins at a place.
fn mark(marks: &mut Vec<usize>, place: usize, size: usize) -> Result<(), AllocError> {
    if size < SHARED {
        return Ok(());
    }
    marks.push(place)?;
    Ok(())
}

impl Row {
    /// No number.
    pub fn new(alloc: Global) -> Row
        ensures { result ≡ [] }
    {
        Row {
            bytes: Vec::new(alloc),
            marks: Vec::new(alloc),
            known: Known::new(alloc),
        }
    }

    /// Takes all numbers out, and keeps the room.
    pub fn clear(&mut self)
        ensures { self.new ≡ [] }
    {
        self.bytes.clear();
        self.marks.clear();
    }

    /// Adds a number; where memory runs out, nothing changes.
    pub fn put(&mut self, n: u64) -> Result<(), AllocError>
        ensures added { OnOk result (self.new ≡ self.old ++ n ∷ []) }
        ensures unchanged { OnErr result (self.new ≡ self.old) }
    {
        // Room for the longest number first, so that a refusal leaves no part of one.
        self.bytes.reserve(10)?;
        put(&mut self.bytes, n);
        Ok(())
    }

    /// Adds a list of numbers; where memory runs out, nothing changes. Rows that hold one for long share what is the same in long lists.
    pub fn put_list(&mut self, list: &[u32]) -> Result<(), AllocError>
        ensures added { OnOk result (self.new ≡ self.old ++ list.now) }
        ensures unchanged { OnErr result (self.new ≡ self.old) }
    {
        let place = self.size();
        mark(&mut self.marks, place, list.len())?;
        put_numbers(&mut self.bytes, &mut self.known, list)?;
        Ok(())
    }

    /// Its numbers, to be read.
    pub fn reader(&self) -> Reader<'_>
        ensures { result ≡ self.now }
    {
        Reader::of(Rope::of(&self.bytes))
    }

    /// Its bytes.
    pub(crate) fn bytes(&self) -> &[u8]
        ensures numbers { numbers_of result.now ≡ self.now }
        ensures row { IsRow result.now }
        ensures bound { length result.now < 2 ^ 63 }
    {
        &self.bytes
    }

    /// Where long lists begin among its bytes.
    pub(crate) fn marks(&self) -> &[usize] {
        &self.marks
    }

    /// How many bytes it takes: as many as it has numbers, or more.
    pub fn size(&self) -> usize
        ensures numbers { length self.now ≤ result }
        ensures bound { result < 2 ^ 63 }
    {
        self.bytes.len()
    }

    /// The same row, in memory of just its size.
    pub fn copy(&self) -> Result<Row, AllocError>
        ensures { Returns result self.now }
    {
        // A row that grew has room for more: a copy, which may stand for long, is made to measure.
        let alloc = *self.bytes.allocator();
        let bytes = Vec::from_slice(alloc, &self.bytes)?;
        let marks = Vec::from_slice(alloc, &self.marks)?;
        let known = Known::new(alloc);
        Ok(Row {
            bytes,
            marks,
            known,
        })
    }
}
