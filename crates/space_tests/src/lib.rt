//! Worked examples of a namespace, of its journal and replay, and of what it is made of beside queues: the plain types,
//! credentials, the tables of slots and of objects, semaphores and semadj. Tests over the public items of the crates below.
//! No threads.
#![tactic(auto)]

#[cfg(test)]
mod calls;
#[cfg(test)]
mod creds;
#[cfg(test)]
mod ids;
#[cfg(test)]
mod journal;
#[cfg(test)]
mod objects;
#[cfg(test)]
mod replays;
#[cfg(test)]
mod semaphores;
#[cfg(test)]
mod spaces;
#[cfg(test)]
mod undo;
#[cfg(test)]
mod users;
