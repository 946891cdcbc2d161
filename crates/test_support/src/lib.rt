//! What tests and measurements have in common: clients, calls, rows of a journal, random numbers and random calls, how
//! a thread waits for another, and how a measurement is kept.
#![tactic(auto)]

pub mod any_calls;
pub mod calls;
pub mod clients;
pub mod journal;
pub mod measuring;
pub mod numbers;
pub mod waiting;
