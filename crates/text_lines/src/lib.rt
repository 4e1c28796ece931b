//! Lines, words and decimal numbers of texts that are bytes: what all readers and writers of texts in the project share.
//! Each call of a reader takes a part off the front of a slice, so it takes no memory, and a loop over it is linear in the text.
#![tactic(auto)]

mod decimal;
mod laws;
mod line;
mod reading;
mod refusal;
mod word;
mod writing;

pub use decimal::{is_all_digits, is_decimal, number};
pub use laws::{
    each_goes_on, each_stops_at_the_first_fault, fault_is_first, number_is_as_printed,
    plain_lines_say_words, text_says_its_words, written_text_is_read,
};
pub use line::{is_all_plain, outside_comment, split_ended_line, split_line, without_return};
pub use reading::{ByLine, read_lines};
pub use refusal::{Refusal, TextRefusal};
pub use word::{has_words, is_spaced, split_word};
pub use writing::{write_number, write_number_line, write_numbers, write_numbers_line, write_word};
