//! A map by client and number: of each client what it has under its numbers, in the order of clients and then of numbers.
//! Only `ClientMap::insert` can fail for want of memory.
#![tactic(auto)]

mod map;
mod narrowing;

pub use map::ClientMap;
pub use narrowing::narrow;
