//! The calls that wait, by client and in order of arrival. None is copied, and only what parks one can
//! fail for want of memory.
#![tactic(auto)]

mod arrivals;
mod deadlines;
mod marks;
mod parked;
mod touched;
mod waits;

pub use parked::{Arrival, Parked, waits_on};
pub use touched::Touched;
