//! The messages between a process and the server of a namespace: what a process asks and what it is told, as bytes. The
//! layout is the project's own.
//!
//! Each number is little-endian, and a message has at most 70000 bytes. A request is `op u32, seq u32, a u64 x 5` and a payload:
//! the code of an operation, a number that its reply repeats, and what the operation takes. What it doesn't take is 0, and else
//! the bytes are no request. A signed number is its two's complement of 64 bits, and the upper half of a number of 32 bits is 0.
//! A reply is `seq u32, error u32, rule u32, sort u32, v u64 x 3` and a payload.
#![tactic(auto)]

mod calls;
pub mod laws;
mod operations;
mod reading;
mod requests;
mod told;
mod words;
mod writing;

pub use calls::id_of;
pub use reading::{BadMessage, read};
pub use requests::{Ask, Look, Message, Request};
pub use told::{Hindrance, Told};
pub use writing::ReplyBytes;
