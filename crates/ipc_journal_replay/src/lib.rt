//! Where the rows of a journal differ from what the definitions give, in words: the line of their text, what stands there,
//! and what should.
#![tactic(auto)]

mod telling;

pub use telling::print_difference;
