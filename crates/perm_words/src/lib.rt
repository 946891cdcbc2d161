//! An object and its permissions in words: its line, by what a caller comes into its class at an object, and what the mode gives that class.
#![tactic(auto)]

mod class_text;
mod object_text;
mod standing;

pub use class_text::{print_class, rights_name};
pub use object_text::{kind_name, print_mode, print_object};
pub use standing::{Standing, class_bits, is_within, rights_in, stands};
