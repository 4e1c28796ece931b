//! A list whose bytes are known, so that the next one's need not be made again as far as it begins alike.
ghost use Rattle.std.specs.Prelude.{◌≡◌, ◌++◌, [], ◌≤◌, ◌*◌, length, take, OnOk, OnErr, IfOk};
ghost use Rattle.std.specs.List.{flat_map};
ghost use Rattle.packed_rows.specs.Numbers.{bytes_of};

use crate::row::put_words;
use crate::rows::start_of;
use prefixes::steps_alike;
use std::alloc::{AllocError, Global};
use std::marker::Model;

/// How many numbers are compared, and learned, at once.
pub(crate) const STEP: usize = 64;

/// Whole steps of a list, with their bytes.
#[derive(Drop)]
pub(crate) struct Known {
    numbers: Vec<u32>,
    bytes: Vec<u8>,
    /// Where each step ends among the bytes.
    ends: Vec<usize>,
}

impl Model for Known {
    ghost use Rattle.std.specs.Prelude.{ℕ, List};
    ghost use Rattle.packed_rows.specs.Known.{IsKnown};

    ghost Value = { List ℕ };

    ghost view = { λ k. k.numbers.items };

    ghost invariant = { λ k. IsKnown k.numbers.items k.bytes.items k.ends.items };
}

impl Known {
    /// No list yet.
    pub fn new(alloc: Global) -> Known
        ensures { result ≡ [] }
    {
        Known {
            numbers: Vec::new(alloc),
            bytes: Vec::new(alloc),
            ends: Vec::new(alloc),
        }
    }

    /// Forgets all but its first steps.
    fn keep(&mut self, steps: usize)
        requires { 64 * steps ≤ length self.old }
        ensures { self.new ≡ take (64 * steps) self.old }
    {
        let end = start_of(&self.ends, steps);
        self.numbers.truncate(STEP * steps);
        self.bytes.truncate(end);
        self.ends.truncate(steps);
    }

    /// Learns a step more; where memory runs out, none.
    fn learn_step(&mut self, step: &[u32]) -> Result<(), AllocError>
        requires { length step.now ≡ 64 }
        ensures learned { OnOk result (self.new ≡ self.old ++ step.now) }
        ensures unchanged { OnErr result (self.new ≡ self.old) }
    {
        self.ends.reserve(1)?;
        self.bytes.reserve(5 * STEP)?;
        self.numbers.extend_from_slice(step)?;
        put_words(&mut self.bytes, step);
        self.ends.push_reserved(self.bytes.len());
        Ok(())
    }

    /// Learns a list in place of its own, but for the numbers behind the last whole step, which it returns.
    pub fn learn<'a>(&mut self, list: &'a [u32]) -> Result<&'a [u32], AllocError>
        ensures { IfOk result (λ rest. list.now ≡ self.new ++ rest.now) }
    {
        let steps = steps_alike(&self.numbers, list);
        self.keep(steps);
        let (_, mut left) = list.split_at(STEP * steps);
        'learning: while left.len() >= STEP {
            let (step, rest) = left.split_at(STEP);
            self.learn_step(step)?;
            left = rest;
        }
        Ok(left)
    }

    /// The bytes of its numbers.
    pub fn bytes(&self) -> &[u8]
        ensures { result.now ≡ flat_map bytes_of self.now }
    {
        &self.bytes
    }
}
