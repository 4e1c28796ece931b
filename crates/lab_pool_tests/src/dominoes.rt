//! Five dominoes in the box 5 2 1: a problem with which two workers have something to do.

use crate::books::has_counts;
use lab_book::Book;

static PIECES: [&str; 5] = ["A", "B", "C", "D", "E"];

/// The places of a domino in the box 5 2 1, in the order of their cells.
static PLACES: [&str; 13] = [
    " 000 010", " 000 100", " 010 110", " 100 110", " 100 200", " 110 210", " 200 210", " 200 300",
    " 210 310", " 300 310", " 300 400", " 310 410", " 400 410",
];

/// Whether a word is added to a text.
fn add(text: &mut String, word: &str) -> bool {
    text.push_str(word).is_ok()
}

/// Whether the options of a piece are added.
fn add_options(text: &mut String, piece: &str) -> bool {
    for place in &PLACES {
        if !add(text, "\noption ") || !add(text, piece) || !add(text, place) {
            return false;
        }
    }
    true
}

/// Whether the text of five dominoes in the box 5 2 1 is added: eight ways to lay them, 120 ways to name them.
pub fn add_dominoes(text: &mut String) -> bool {
    if !add(
        text,
        "items A B C D E 000 010 100 110 200 210 300 310 400 410",
    ) {
        return false;
    }
    for piece in &PIECES {
        if !add_options(text, piece) {
            return false;
        }
    }
    true
}

/// Whether a book has the dominoes' visits and steps.
pub fn has_dominoes(book: &Book<'_>) -> bool {
    has_counts(book, 960, 14_487)
}
