//! The service, and what a client of it is: it hasn't joined, asks nothing, or has a call in flight.
ghost use Rattle.std.specs.Prelude.{◌≡◌};
ghost use Rattle.std.proofs.Props.{props};
ghost use Rattle.ipc_combiner.specs.Laws.{IsLegal-prop};
ghost use Rattle.ipc_combiner.specs.States.{IsIdle, IsInFlight, IsOpened};

use crate::shared::Shared;
use crate::sleeping::Sleepers;
use pub_list::{Fresh, Joined, List};

/// A namespace that its clients serve together. Threads share it by reference.
#[derive(Drop)]
pub struct Service {
    pub(crate) list: List<Shared>,
    pub(crate) sleepers: Sleepers,
    ghost opened: { IsOpened list },
}

/// A client that hasn't joined.
#[derive(Drop)]
pub struct Unjoined {
    pub(crate) fresh: Fresh<Shared>,
}

/// A client that asks nothing.
#[derive(Drop)]
pub struct Idle {
    pub(crate) joined: Joined<Shared>,
    ghost own: { IsIdle joined } by { Prim.hlevel (props, IsLegal-prop) },
}

/// A client with a call in flight.
#[derive(Drop)]
pub struct InFlight {
    pub(crate) joined: Joined<Shared>,
    ghost own: { IsInFlight joined } by { Prim.hlevel (props, IsLegal-prop) },
}
