//! As many clients as a namespace may have: tests over the public items of `ipc_space`.
#![tactic(auto)]

#[cfg(test)]
mod deadlines;
#[cfg(test)]
mod processes;
#[cfg(test)]
mod spaces;
