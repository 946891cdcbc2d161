//! The lines of a script, the words of a line, the fields of a word, and the numbers and names that words write.
//!
//! The text of scripts is the project's own; numbers are written as strtoul(3) reads them.
#![tactic(auto)]

mod arguments;
mod lines;
mod names;
mod numbers;
mod words;

pub use arguments::{first_two, four_words, one_word, three_words, two_words};
pub use lines::{Line, Pending, last_line, split_feeds, split_line, whole_line};
pub use names::{Name, is_name};
pub use numbers::{number, number_16, number_32, numeral, signed_16, signed_32, signed_64};
pub use words::{is_plain, split_field, split_word};
