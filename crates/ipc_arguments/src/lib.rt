//! The arguments of a script's calls and directives: what each takes, and what is wrong with a word that it doesn't take.
//!
//! The texts are for people, and the project's own.
#![tactic(auto)]

mod arguments;
mod flags;
mod forms;
mod numbers;
mod operations;
mod spelling;
mod texts;
mod values;
mod words;

pub use arguments::{Argument, are_numbers};
pub use flags::{has_suspects, warn_of_decimal};
pub use forms::{CALLS, Form, form_of};
pub use spelling::{is_like, is_one_of, nearest};
pub use values::{explain_comment, explain_word};
pub use words::{Quoted, Shown, Told, Word, words_in};
