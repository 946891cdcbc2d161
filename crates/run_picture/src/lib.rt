//! A picture of a run as SVG: a lane for each client with a line for each thread that it stands for, a mark for each call and
//! a bar for each wait, and below them, over the same axis of events, what changes in queues and semaphores. The picture is the
//! project's own.
#![tactic(auto)]

mod entering;
mod lanes;
mod layout;
mod picture;
mod run;
mod series;
mod style;
mod words;

pub use entering::enter_call;
pub use picture::draw;
pub use run::{Call, End, Lane, Life, Mark, Point, Run, Series, Wait};
pub use style::STYLE;
