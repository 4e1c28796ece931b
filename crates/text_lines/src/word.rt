//! The words of a line: what stands between spaces and tabs.

ghost use Rattle.std.specs.Prelude.{◌≡◌, ◌<◌, ◌≤◌, ◌∷◌, [], drop, length, not, IfSome, IfNone, IsTrue, ◌↔◌};
ghost use Rattle.std.specs.List.{prefix_len, position_or_len};
ghost use Rattle.text_lines.specs.Lines as spec;
ghost use Rattle.text_lines.specs.Lines.{words_of, is_empty};
ghost use Rattle.text_lines.specs.Writing.{spaced};

/// A space or a tab.
fn is_blank(byte: u8) -> bool
    ensures { result ≡ spec.is_blank byte }
{
    byte == b' ' || byte == b'\t'
}

/// How many blanks stand at the front.
fn blanks(said: &[u8]) -> usize
    ensures front { result ≡ prefix_len spec.is_blank said.now }
    ensures within { result ≤ length said.now }
{
    said.iter().take_while(|byte| is_blank(**byte)).count()
}

/// What stands after the blanks at the front.
fn past_blanks(said: &[u8]) -> &[u8]
    ensures { result.now ≡ drop (prefix_len spec.is_blank said.now) said.now }
{
    said.split_at(blanks(said)).1
}

/// How many bytes other than blanks stand at the front.
fn word_len(said: &[u8]) -> usize
    ensures front { result ≡ position_or_len spec.is_blank said.now }
    ensures within { result ≤ length said.now }
{
    said.iter().take_while(|byte| !is_blank(**byte)).count()
}

/// The first word, and what stands after it; None where there is no word.
pub fn split_word(said: &[u8]) -> Option<(&[u8], &[u8])>
    ensures some { IfSome result (λ found. words_of said.now ≡ found.0.now ∷ words_of found.1.now) }
    ensures shorter { IfSome result (λ found. length found.1.now < length said.now) }
    ensures none { IfNone result (words_of said.now ≡ []) }
{
    let after = past_blanks(said);
    if after.is_empty() {
        return None;
    }
    // The blanks behind the word stay with the rest: the next call passes over them.
    Some(after.split_at(word_len(after)))
}

/// Whether there is a word.
pub fn has_words(said: &[u8]) -> bool
    ensures { result ≡ not (is_empty (words_of said.now)) }
{
    let after = past_blanks(said);
    !after.is_empty()
}

/// Whether a line is its words with one space between two: no tab, no space before, after or beside another.
pub fn is_spaced(line: &[u8]) -> bool
    ensures { IsTrue result ↔ (line.now ≡ spaced (words_of line.now)) }
{
    // A word has to begin at the front and after each blank.
    let mut wants_word = true;
    for byte in line {
        if is_blank(*byte) && (wants_word || *byte != b' ') {
            return false;
        }
        wants_word = is_blank(*byte);
    }
    // A blank at the end leaves a word wanted. An empty line has no words, and none is wanted.
    line.is_empty() || !wants_word
}
