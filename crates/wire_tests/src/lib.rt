//! Messages of the layout as bytes: tests over the public items of `ipc_wire`.
#![tactic(auto)]

#[cfg(test)]
mod messages;
