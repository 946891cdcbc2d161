//! A client of a service behind one value that is changed in place: it asks nothing, has a call in flight, or has a reply to
//! take. It is what a handle of the C library stands for. It is the project's own.
#![tactic(auto)]

mod calls;
mod journal;
mod opening;
mod raw;
mod seat;

pub use calls::Progress;
pub use opening::{NotOpened, open};
pub use raw::{advance_code, post_code, read_code};
pub use seat::{Seat, SeatError};
