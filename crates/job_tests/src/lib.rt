//! The jobs of clients in threads of their own: tests over the public items of `ipc_jobs`.
#![tactic(auto)]

#[cfg(test)]
mod clients;
#[cfg(test)]
mod jobs;
