//! The lines of a text, and what a line says outside its comment.

ghost use Rattle.std.specs.Prelude.{◌≡◌, true, ◌<◌, ◌≤◌, ◌++◌, ◌∷◌, [], length, IfSome, IfNone};
ghost use Rattle.std.specs.List.{list_all, position_or_len};
ghost use Rattle.text_lines.specs.Lines as spec;
ghost use Rattle.text_lines.specs.Lines.{lines_of, is_newline, is_one_line, is_plain};

use memchr::memchr;

/// The place of the first newline, or the length where there is none.
fn newline_at(text: &[u8]) -> usize
    ensures first { result ≡ position_or_len is_newline text.now }
    ensures within { result ≤ length text.now }
{
    // Most bytes of a text are passed over here, and `memchr` tests many of them at once.
    memchr(b'\n', text).unwrap_or(text.len())
}

/// The first line of a text that isn't empty, without its end, and what stands after that end.
///
/// A line ends at a newline; the last may end with the text.
pub fn split_line(text: &[u8]) -> (&[u8], &[u8])
    requires { 0 < length text.now }
    ensures lines { lines_of text.now ≡ result.0.now ∷ lines_of result.1.now }
    ensures shorter { length result.1.now < length text.now }
{
    let (line, rest) = text.split_at(newline_at(text));
    match rest {
        [_, after @ ..] => (line, after),
        // The text ends without a newline, so nothing is left.
        [] => (line, rest),
    }
}

/// The first line, without its newline, and what stands after that newline; None where the text has no newline.
///
/// This is the call for texts whose last line must be ended too.
pub fn split_ended_line(text: &[u8]) -> Option<(&[u8], &[u8])>
    ensures some { IfSome result (λ found. text.now ≡ found.0.now ++ 10 ∷ found.1.now) }
    ensures first { IfSome result (λ found. is_one_line found.0.now ≡ true) }
    ensures shorter { IfSome result (λ found. length found.1.now < length text.now) }
    ensures none { IfNone result (is_one_line text.now ≡ true) }
{
    let (line, rest) = text.split_at(newline_at(text));
    match rest {
        [_, after @ ..] => Some((line, after)),
        // A text whose last line isn't ended may have lost its end: no part of that line is lent.
        [] => None,
    }
}

/// A line without one carriage return at its end.
pub fn without_return(line: &[u8]) -> &[u8]
    ensures { result.now ≡ spec.without_return line.now }
{
    match line {
        // A line of a DOS text ends in a return and a newline. A second return stays, and isn't plain.
        [front @ .., b'\r'] => front,
        _ => line,
    }
}

/// The place of the first comment sign, or the length where there is none.
fn comment_at(line: &[u8]) -> usize
    ensures first { result ≡ position_or_len spec.begins_comment line.now }
    ensures within { result ≤ length line.now }
{
    memchr(b'#', line).unwrap_or(line.len())
}

/// What a line says: without one carriage return at its end, and without its comment.
pub fn outside_comment(line: &[u8]) -> &[u8]
    ensures { result.now ≡ spec.outside_comment line.now }
{
    // The return goes first: one that stands before a comment isn't at the line's end, and stays.
    let kept = without_return(line);
    &kept[..comment_at(kept)]
}

/// Whether a byte is a tab or printable (32 to 126).
fn is_plain_byte(byte: u8) -> bool
    ensures { result ≡ is_plain byte }
{
    // `|` and `&` ask for no branch, so that many bytes can be tested at once.
    (byte == b'\t') | ((byte >= b' ') & (byte <= b'~'))
}

/// Whether each byte is a tab or printable (32 to 126), as each outside a comment has to be.
pub fn is_all_plain(said: &[u8]) -> bool
    ensures { result ≡ list_all is_plain said.now }
{
    // All bytes are tested, with no way out at the first that isn't plain: so many are tested at once.
    let mut all = true;
    for byte in said {
        all &= is_plain_byte(*byte);
    }
    all
}
