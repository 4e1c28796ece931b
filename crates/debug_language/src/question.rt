//! What a search is asked to show.
ghost use Rattle.std.specs.Prelude.{◌≡◌};
ghost use Rattle.debug_language.specs.Question.{question_of};

use crate::reader::is_word;

/// A question: the answer shows something, and nothing changes.
#[derive(Clone, Copy, Debug, PartialEq, Eq)]
pub enum Question {
    /// Where the search of the open branch stands.
    Show,
    /// The options of the open branch that can be cut off.
    Untried,
    /// The branches that are not closed.
    Branches,
    /// The visits that were posted.
    Visits,
    /// How many steps were posted.
    Steps,
    /// How many states at each level were posted.
    Levels,
}

impl Question {
    /// The question that a word is.
    pub(crate) fn of_word(word: &[u8]) -> Option<Question>
        ensures { result ≡ question_of word.now }
    {
        // Tests in a chain, as for commands of one word.
        if is_word(word, b"show") {
            Some(Question::Show)
        } else if is_word(word, b"untried") {
            Some(Question::Untried)
        } else if is_word(word, b"branches") {
            Some(Question::Branches)
        } else if is_word(word, b"visits") {
            Some(Question::Visits)
        } else if is_word(word, b"steps") {
            Some(Question::Steps)
        } else if is_word(word, b"levels") {
            Some(Question::Levels)
        } else {
            None
        }
    }
}
