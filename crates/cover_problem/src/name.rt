//! The names of items.
ghost use Rattle.std.specs.Prelude.{◌≡◌, true, false, MatchResult, nat_eq};
ghost use Rattle.std.specs.List.{list_all};
ghost use Rattle.std.specs.Str.{bytes_eq};
ghost use Rattle.std.specs.Hash as fed;
ghost use Rattle.std.specs.Cmp.{on_equiv, on_per, partial_equiv_from_equiv};
ghost use Rattle.std.specs.Cmp.Lexicographic.{pointwise, bytes_decides, nat_list_eq_equiv};
ghost use Rattle.std.specs.Cmp.Rules.{hashing};
ghost use Rattle.std.proofs.Common.{ap, rules};
ghost use Rattle.cover_problem.specs.Problem as problem;
ghost use Rattle.cover_problem.specs.declared.fault.Fault.TheVariants.{BadName};

use crate::fault::Fault;
use crate::limits::MOST_NAME_BYTES;
use arrayvec::ArrayString;
use indexmap::Equivalent;
use std::hash::{Hash, Hasher};

/// The name of an item.
pub type Name = ArrayString<MOST_NAME_BYTES>;

/// Whether it is a letter, a digit or `_`.
fn is_name_byte(byte: u8) -> bool
    ensures { result ≡ problem.is_name_byte byte }
{
    matches!(byte, b'0'..=b'9' | b'A'..=b'Z' | b'a'..=b'z' | b'_')
}

/// Whether these are letters, digits and `_`.
fn are_name_bytes(word: &[u8]) -> bool
    ensures { result ≡ list_all problem.is_name_byte word.now }
{
    word.iter().all(|byte| is_name_byte(*byte))
}

/// Whether a word is a name: one to eight letters, digits and `_`.
pub fn is_name(word: &[u8]) -> bool
    ensures { result ≡ problem.is_name word.now }
{
    !word.is_empty() && word.len() <= MOST_NAME_BYTES && are_name_bytes(word)
}

/// A word as a name, or the fault that it is none.
pub fn name_of(word: &[u8]) -> Result<Name, Fault>
    ensures { MatchResult result
        (λ name. (problem.is_name word.now ≡ true) × (name.bytes ≡ word.now))
        (λ fault. (fault ≡ BadName) × (problem.is_name word.now ≡ false)) }
{
    if !is_name(word) {
        return Err(Fault::BadName);
    }
    // A name is ASCII and short, so neither of the two refusals comes.
    match str::from_utf8(word) {
        Ok(text) => Name::from(text).map_err(|_| Fault::BadName),
        Err(_) => Err(Fault::BadName),
    }
}

/// A word of a text, by which a name is looked up without being made of it first.
#[derive(Clone, Copy)]
pub struct Word<'a>(pub &'a [u8]);

impl PartialEq for Word<'_> {
    ghost eq = { λ a b. pointwise nat_eq a.0.now b.0.now };

    ghost laws = { on_per (λ w. w.0.now) (partial_equiv_from_equiv nat_list_eq_equiv) };

    fn eq(&self, other: &Self) -> bool {
        self.0 == other.0
    }
}

impl Eq for Word<'_> {
    ghost laws = { on_equiv (λ w. w.0.now) nat_list_eq_equiv };
}

impl Hash for Word<'_> {
    ghost hash_input = { λ w. fed.str w.0.now };

    ghost respects_eq = { Prim.search (hashing, rules) };

    fn hash<H: Hasher>(&self, state: &mut H) {
        // As `str` is hashed: its bytes, and then a byte that no text has. A name is found by a word only if both are hashed alike.
        state.write(self.0);
        state.write_u8(0xff);
    }
}

impl Equivalent<Name> for Word<'_> {
    ghost equivalent = { λ w name. bytes_eq w.0.now name.bytes };

    ghost respects_hash = { λ w name h. ap fed.str ((bytes_decides w.0.now name.bytes).0 h) };

    ghost respects_eq = { λ w x y. nat_list_eq_equiv.congr w.0.now x.bytes y.bytes };

    fn equivalent(&self, name: &Name) -> bool {
        self.0 == name.as_bytes()
    }
}
