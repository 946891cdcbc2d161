//! The service over the publication list, alone and in threads: tests over the public items of `ipc_combiner`.
#![tactic(auto)]

#[cfg(test)]
mod asleep;
#[cfg(test)]
mod passes;
#[cfg(test)]
mod quiet;
#[cfg(test)]
mod refusals;
#[cfg(test)]
mod services;
#[cfg(test)]
mod still;
