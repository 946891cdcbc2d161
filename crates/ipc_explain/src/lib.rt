//! What a script did, in words: its rows with the lines of the script above them, and notes below them, of each refusal, of each call that
//! waits, of each wait that ends and of each end of a thread.
#![tactic(auto)]

mod explainer;
mod leaving;

pub use explainer::{Explained, explain};
