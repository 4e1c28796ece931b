//! The names of pieces.
ghost use Rattle.std.specs.Prelude.{◌≡◌, true, IfOk, option_map};
ghost use Rattle.poly_texts.specs.Words as words;

use crate::usage::Usage;
use std::alloc::{AllocError, Global};
use std::marker::Model;

/// The name of a piece: one of `0-9A-Za-z`. Contracts see its code.
#[derive(Clone, Copy, Debug, PartialEq, Eq, Hash)]
pub struct PieceName {
    symbol: u8,
}

impl Model for PieceName {
    ghost use Rattle.std.specs.Prelude.{ℕ, ◌≡◌, true};
    ghost use Rattle.poly_texts.specs.Words.{is_name};

    ghost Value = { ℕ };

    ghost view = { λ n. n.symbol };

    ghost invariant = { λ n. is_name n.symbol ≡ true };

    ghost inverse = { λ v. record { symbol = v } };
}

/// Whether a byte is a letter or a digit.
fn is_name(symbol: u8) -> bool
    ensures { result ≡ words.is_name symbol }
{
    matches!(symbol, b'0'..=b'9' | b'A'..=b'Z' | b'a'..=b'z')
}

impl PieceName {
    /// The symbols that a word is, as many as the line may have.
    pub(crate) fn all_of(
        alloc: Global,
        usage: Usage,
        word: &[u8],
    ) -> Result<Option<Vec<PieceName>>, AllocError>
        ensures { IfOk result (λ found. option_map (λ names. names.items) found ≡
            words.word_names usage word.now) }
    {
        if !usage.are_so_many(word.len()) {
            return Ok(None);
        }
        let mut names = Vec::with_capacity(alloc, word.len())?;
        for symbol in word {
            if !is_name(*symbol) {
                return Ok(None);
            }
            names.push(PieceName { symbol: *symbol })?;
        }
        Ok(Some(names))
    }

    /// The letter or digit.
    pub fn symbol(self) -> u8
        ensures value { result ≡ self }
        ensures name { words.is_name self ≡ true }
    {
        self.symbol
    }
}
