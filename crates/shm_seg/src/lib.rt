//! Shared memory segments and who has which of them attached (shmget(2), shmop(2), shmctl(2)): the bytes of a segment
//! with the mark of its removal, the attachments of clients, and how many are to each segment. A segment to which nobody
//! has written takes no memory for its bytes, whatever its size. Only `Segment::read`, the first `Segment::write` that
//! isn't empty and `Attachments::attach` can fail for want of memory. That an attachment is known by a number of its
//! client, and that its bytes are read and written at offsets by calls, is the project's own: there is no address space
//! here.
#![tactic(auto)]

mod attachments;
mod bytes;
mod segment;

pub use attachments::{Attachment, Attachments};
pub use segment::{Fault, Segment};
