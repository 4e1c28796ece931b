//! The line of a visit, kept for the next visit. In path order neighbours begin alike, and what they share is made into digits once.
ghost use Rattle.std.specs.Prelude.{◌≡◌, ◌≤◌, ◌<◌, ◌+◌, ◌*◌, ◌++◌, ◌∷◌, [], take, max, length, decimal, map, OnOk, OnErr};
ghost use Rattle.text_lines.specs.Writing.{line_text};
ghost use Rattle.shared_words.specs.Answers.{Returns};
ghost use Rattle.x_texts.specs.Ends.{IsVisitLine, LineHasRoom, HoldsLine};
ghost use Rattle.x_texts.specs.Words.{visit_words};

use itoa::Buffer;
use std::alloc::{AllocError, Global};
use std::marker::Model;

/// The bytes of a visit's line, where in them its first word and each choice end, and its choices. Behind what a list says of this visit
/// may stand what a longer one has left.
#[derive(Drop)]
pub(crate) struct VisitLine {
    bytes: Vec<u8>,
    // The word's end stands before those of the choices: so many choices end at the place of that number.
    ends: Vec<usize>,
    path: Vec<u32>,
    /// How many choices this visit has.
    count: usize,
}

impl Model for VisitLine {
    ghost use Rattle.std.specs.Prelude.{ℕ, List, take};
    ghost use Rattle.x_texts.specs.Ends.{HoldsLine};

    ghost Value = { List ℕ };

    ghost view = { λ l. take l.count l.path.items };

    ghost invariant = { λ l. HoldsLine l.bytes.items l.ends.items l.path.items l.count };
}

/// How many choices two visits share from the first on.
fn shared(before: &[u32], path: &[u32]) -> usize
    ensures alike { take result before.now ≡ take result path.now }
    ensures in_first { result ≤ length before.now }
    ensures in_second { result ≤ length path.now }
{
    let most = before.len().min(path.len());
    for place in 0..most {
        if before[place] != path[place] {
            return place;
        }
    }
    most
}

/// Writes a number of at most two digits after a space. Where it ends.
#[inline(always)]
fn put_small(bytes: &mut [u8], at: usize, choice: u32) -> usize
    requires small { choice < 100 }
    requires room { at + 3 ≤ length bytes.old }
    ensures written { take result bytes.new ≡ take at bytes.old ++ 32 ∷ decimal choice }
    ensures short { result ≤ at + 3 }
    ensures size { length bytes.new ≡ length bytes.old }
{
    let ones = b'0' + (choice % 10) as u8;
    let first = if choice < 10 {
        ones
    } else {
        b'0' + (choice / 10) as u8
    };
    bytes[at] = b' ';
    bytes[at + 1] = first;
    bytes[at + 2] = ones;
    // A digit too many isn't counted: a jump that hangs on the choice would often be guessed wrong.
    at + 3 - (choice < 10) as usize
}

/// Writes a number of three digits after a space. Where it ends.
#[inline(always)]
fn put_three(bytes: &mut [u8], at: usize, choice: u32) -> usize
    requires three_digits { (100 ≤ choice) × (choice < 1000) }
    requires room { at + 4 ≤ length bytes.old }
    ensures written { take result bytes.new ≡ take at bytes.old ++ 32 ∷ decimal choice }
    ensures short { result ≤ at + 4 }
    ensures size { length bytes.new ≡ length bytes.old }
{
    bytes[at] = b' ';
    bytes[at + 1] = b'0' + (choice / 100) as u8;
    bytes[at + 2] = b'0' + (choice / 10 % 10) as u8;
    bytes[at + 3] = b'0' + (choice % 10) as u8;
    at + 4
}

/// Writes a number after a space. Where it ends.
#[inline(never)]
fn put_any(bytes: &mut [u8], at: usize, choice: u32) -> usize
    requires room { at + 11 ≤ length bytes.old }
    ensures written { take result bytes.new ≡ take at bytes.old ++ 32 ∷ decimal choice }
    ensures short { result ≤ at + 11 }
    ensures size { length bytes.new ≡ length bytes.old }
{
    let mut buffer = Buffer::new();
    let word = buffer.format(choice).as_bytes();
    bytes[at] = b' ';
    let mut end = at + 1;
    // Byte by byte: for a few digits a copy of memory takes longer.
    for byte in word {
        bytes[end] = *byte;
        end += 1;
    }
    end
}

/// Writes a choice after a space. Where it ends. A small one is written here: a call of `format` takes longer.
#[inline(always)]
fn put_choice(bytes: &mut [u8], at: usize, choice: u32) -> usize
    requires room { at + 11 ≤ length bytes.old }
    ensures written { take result bytes.new ≡ take at bytes.old ++ 32 ∷ decimal choice }
    ensures short { result ≤ at + 11 }
    ensures size { length bytes.new ≡ length bytes.old }
{
    if choice < 100 {
        put_small(bytes, at, choice)
    } else if choice < 1000 {
        put_three(bytes, at, choice)
    } else {
        put_any(bytes, at, choice)
    }
}

/// Writes the choices of a visit behind the first ones, which stand there, and the line's end.
#[inline(always)]
fn put_rest(bytes: &mut [u8], ends: &mut [usize], kept: &mut [u32], count: usize, path: &[u32])
    requires count { count ≤ length path.now }
    requires first_ones { IsVisitLine bytes.old ends.old (take count path.now) }
    requires kept { take count kept.old ≡ take count path.now }
    requires wide { length path.now ≤ length kept.old }
    requires room { LineHasRoom bytes.old ends.old kept.old }
    ensures line { HoldsLine bytes.new ends.new kept.new (length path.now) }
    ensures kept { take (length path.now) kept.new ≡ path.now }
    ensures bytes_size { length bytes.new ≡ length bytes.old }
    ensures ends_size { length ends.new ≡ length ends.old }
    ensures path_size { length kept.new ≡ length kept.old }
{
    let mut end = ends[count];
    for place in count..path.len() {
        let choice = path[place];
        end = put_choice(bytes, end, choice);
        ends[place + 1] = end;
        kept[place] = choice;
    }
    bytes[end] = b'\n';
}

/// Makes a list at least so long; where memory runs out, nothing changes.
#[inline(never)]
fn widen<T: Copy>(list: &mut Vec<T>, size: usize, filler: T) -> Result<(), AllocError>
    ensures same { take (length list.old.items) list.new.items ≡ list.old.items }
    ensures widened { OnOk result (length list.new.items ≡ max (length list.old.items) size) }
    ensures unchanged { OnErr result (list.new.items ≡ list.old.items) }
{
    if list.len() < size {
        list.resize(size, filler)?;
    }
    Ok(())
}

impl VisitLine {
    /// The line of a visit without choices.
    pub(crate) fn new(alloc: Global) -> Result<VisitLine, AllocError>
        ensures { Returns result [] }
    {
        let bytes = Vec::from_slice(alloc, b"visit\n")?;
        let ends = Vec::from_slice(alloc, &[5])?;
        Ok(VisitLine {
            bytes,
            ends,
            path: Vec::new(alloc),
            count: 0,
        })
    }

    /// The line with its end.
    #[inline(always)]
    pub(crate) fn bytes(&self) -> &[u8]
        ensures { result.now ≡ line_text (visit_words self.now) }
    {
        &self.bytes[..self.ends[self.count] + 1]
    }

    /// Makes it the line of another visit; where memory runs out, nothing changes.
    #[inline(always)]
    pub(crate) fn turn(&mut self, path: &[u32]) -> Result<(), AllocError>
        ensures turned { OnOk result (self.new ≡ path.now) }
        ensures unchanged { OnErr result (self.new ≡ self.old) }
    {
        if self.path.len() < path.len() {
            // A space and ten digits are the most that a choice takes; `visit` and the line's end take six bytes.
            let most = path.len().saturating_mul(11).saturating_add(6);
            widen(&mut self.bytes, most, 0)?;
            widen(&mut self.ends, path.len() + 1, 0)?;
            widen(&mut self.path, path.len(), 0)?;
        }
        let count = shared(&self.path[..self.count], path);
        put_rest(&mut self.bytes, &mut self.ends, &mut self.path, count, path);
        self.count = path.len();
        Ok(())
    }
}
