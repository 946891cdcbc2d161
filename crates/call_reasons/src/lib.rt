//! Why a call was refused, what it waits for, and what ended its wait, in words: what can be seen of it in the namespace that its
//! event left.
//!
//! The words are for people, and the project's own: what a call is answered is said by its row alone.
#![tactic(auto)]

mod asked;
mod calls;
mod cases;
mod changes;
mod denials;
mod ends;
mod objects;
mod processes;
mod queues;
mod refusals;
mod segments;
mod sets;
mod trials;
mod waits;

pub use asked::{Asked, Target, asked_by, controlled_by};
pub use cases::{Case, LatestEvent, NamedObject, latest_event, object_named};
pub use denials::{Denial, denial_of};
pub use ends::{Ender, Wait, explain_end};
pub use refusals::explain_refusal;
pub use trials::{Stopped, refused_by};
pub use waits::{Awaited, awaited_by, print_awaited};
