//! Worked queues and calls that wait, and random ones beside plain lists that answer the same: tests over the public items
//! of `msg_queue`, `msg_calls` and `ipc_parked`. No threads.
#![tactic(auto)]

#[cfg(test)]
mod lists;
#[cfg(test)]
mod messages;
#[cfg(test)]
mod parked;
#[cfg(test)]
mod queues;
#[cfg(test)]
mod waits;
