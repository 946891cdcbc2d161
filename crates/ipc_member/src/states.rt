//! A client with its service: it asks nothing, or has a call in flight.
ghost use Rattle.std.specs.Arc.{arc_value};
ghost use Rattle.std.proofs.Props.{props};
ghost use Rattle.ipc_combiner.specs.States.{IsOf};
ghost use Rattle.ipc_member.specs.Laws.{IsOf-prop};

use ipc_combiner::{Idle, InFlight, Service};
use std::alloc::Global;
use std::sync::Arc;

/// A client that asks nothing.
#[derive(Drop)]
pub struct Member {
    pub(crate) service: Arc<Service, Global>,
    pub(crate) idle: Idle,
    ghost own: { IsOf (arc_value service).list idle.joined } by { Prim.hlevel (props, IsOf-prop) },
}

/// A client with a call in flight.
#[derive(Drop)]
pub struct Posted {
    pub(crate) service: Arc<Service, Global>,
    pub(crate) flight: InFlight,
    ghost own: { IsOf (arc_value service).list flight.joined } by { Prim.hlevel (props, IsOf-prop) },
}
