//! The parts of what the debugger reads.
ghost use Rattle.std.specs.Prelude.{◌≡◌, ◌<◌, ◌≤◌, ◌++◌, ◌∷◌, length, take, drop};
ghost use Rattle.std.specs.List.{concat};
ghost use Rattle.debug_script.specs.Input as spec;
ghost use Rattle.debug_script.specs.Input.{raw_lines, problem_text, command_lines};

use text_lines::{split_ended_line, without_return};

/// The line between a problem's text and the commands.
const MARK: &[u8] = b"%%";

/// The first line of a text that isn't empty, with its newline, if it has one, and what stands after it.
pub fn raw_line(text: &[u8]) -> (&[u8], &[u8])
    requires { 0 < length text.now }
    ensures lines { raw_lines text.now ≡ result.0.now ∷ raw_lines result.1.now }
    ensures parts { text.now ≡ result.0.now ++ result.1.now }
    ensures shorter { length result.1.now < length text.now }
{
    match split_ended_line(text) {
        Some((line, _)) => text.split_at(line.len() + 1),
        // The last line of a text may have no newline.
        None => text.split_at(text.len()),
    }
}

/// A line without one newline at its end.
pub fn without_newline(line: &[u8]) -> &[u8]
    ensures { result.now ≡ spec.without_newline line.now }
{
    match line {
        [front @ .., b'\n'] => front,
        _ => line,
    }
}

/// Whether a line is the mark.
#[tactic(auto, unfolding(crate::specs::Input::is_mark))]
fn is_mark(line: &[u8]) -> bool
    ensures { result ≡ spec.is_mark line.now }
{
    // A line of a DOS text has a return before its newline.
    without_return(without_newline(line)) == MARK
}

/// The next lines, so many or as many as there are, and what stands after them.
pub fn take_lines(text: &[u8], most: u32) -> (&[u8], &[u8])
    ensures taken { result.0.now ≡ concat (take most (raw_lines text.now)) }
    ensures rest { raw_lines result.1.now ≡ drop most (raw_lines text.now) }
    ensures no_longer { length result.1.now ≤ length text.now }
{
    let mut rest = text;
    let mut left = most;
    while left > 0 && !rest.is_empty() {
        let (_, after) = raw_line(rest);
        rest = after;
        left -= 1;
    }
    // Lines that follow one another are one piece of the text: nothing is copied.
    text.split_at(text.len() - rest.len())
}

/// A problem's text, which stands before the first mark, and the commands after it. Where no line is the mark, all is the problem's
/// text.
pub fn split_input(input: &[u8]) -> (&[u8], &[u8])
    ensures problem { result.0.now ≡ problem_text input.now }
    ensures commands { raw_lines result.1.now ≡ command_lines input.now }
{
    let mut rest = input;
    while !rest.is_empty() {
        let (line, after) = raw_line(rest);
        if is_mark(line) {
            // The mark is of neither part.
            let (problem, _) = input.split_at(input.len() - rest.len());
            return (problem, after);
        }
        rest = after;
    }
    (input, rest)
}
