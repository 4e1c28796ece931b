//! Laws of the definitions that the contracts cite. The functions do nothing: their clauses are what is proved.

ghost use Rattle.std.specs.Prelude.{◌≡◌, true, ◌↔◌, ◌≤◌, ◌<◌, ◌^◌, ℕ, List, [], map, Result, Ok, Err, Some, decimal};
ghost use Rattle.text_lines.specs.Lines.{lines_of};
ghost use Rattle.text_lines.specs.Writing.{are_words, text_of, words_of_line, are_plain};
ghost use Rattle.text_lines.specs.Numbers.{number_within};
ghost use Rattle.text_lines.specs.Each.{each, GoesThrough, Fails};
ghost use Rattle.text_lines.specs.Reading.{FaultIsFirst, FaultIsOfWhole, SaysItsWords};

/// Lines of words that are written are read as the same lines of words.
pub fn written_text_is_read()
    ensures words { (lines : List (List (List ℕ))) → are_words lines ≡ true →
        map words_of_line (lines_of (text_of lines)) ≡ lines }
    ensures plain { (lines : List (List (List ℕ))) → are_words lines ≡ true → are_plain (lines_of (text_of lines)) ≡ true }
{}

/// Lines that are plain outside their comments say words alone, so what is read from them can be written.
pub fn plain_lines_say_words()
    ensures { (lines : List (List ℕ)) → are_plain lines ≡ true → are_words (map words_of_line lines) ≡ true }
{}

/// The word of a number is the text that printing it gives, and no other.
pub fn number_is_as_printed()
    ensures { (most n : ℕ) (word : List ℕ) → most < 2 ^ 64 →
        ((number_within most word ≡ Some n) ↔ ((word ≡ decimal n) × (n ≤ most))) }
{}

/// Steps give a state where each of them goes on from what the one before left.
pub fn each_goes_on<S, X, F>()
    ensures { (step : S → X → Result S F) (s t : S) (xs : List X) → ((each step s xs ≡ Ok t) ↔ GoesThrough step s xs t) }
{}

/// Steps give a fault where the first step that doesn't go on gives it.
pub fn each_stops_at_the_first_fault<S, X, F>()
    ensures { (step : S → X → Result S F) (s : S) (f : F) (xs : List X) → ((each step s xs ≡ Err f) ↔ Fails step s xs f) }
{}

/// The fault of a text that is read line by line is that of the first line with a fault, and has that line's number; a fault
/// with the number 0 is one of the whole text, where no line has one.
pub fn fault_is_first<S, P, F>()
    ensures line { (line : S → List ℕ → Result S F) (nothing : S) (whole : S → Result P F) → FaultIsFirst line nothing whole }
    ensures whole { (line : S → List ℕ → Result S F) (nothing : S) (whole : S → Result P F) →
        FaultIsOfWhole line nothing whole }
{}

/// A text that is read by the words of its lines says what those words say: comments, blanks and empty lines say nothing.
pub fn text_says_its_words<S, F>()
    ensures { (bad : F) (words_line : S → List (List ℕ) → Result S F) → ((s : S) → words_line s [] ≡ Ok s) →
        SaysItsWords bad words_line }
{}
