//! The permissions of an object, and the decision on who may do what to it. That a decision names its ground
//! or its rule is the project's own.
#![tactic(auto)]

mod access;

pub use access::{
    Class, Ground, TO_ALTER, TO_READ, Verdict, Want, asked_of_flags, decide, may_become,
    may_control, may_interrupt,
};
pub use ipc_call::{Mode, Perm};
