//! Lines as explanations show them: those of a script with their flags by name, and texts that are folded to the width of a screen.
//! How they look is the project's own.
#![tactic(auto)]

mod flags;
mod folding;
mod script_lines;

pub use flags::{Flag, print_flags};
pub use folding::fold;
pub use script_lines::print_line;
