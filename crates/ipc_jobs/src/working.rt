//! How a client does its jobs, one after another.
ghost use Rattle.std.specs.Prelude.{◌≡◌, [], ◌∷◌};
ghost use Rattle.pub_list.specs.Clients.{work as knows};
ghost use Rattle.ipc_combiner.specs.States.{IsOf, IsUnjoinedOf};
ghost use Rattle.ipc_jobs.specs.Working.{HasAsked, HasDone, IsEndOf};
ghost use Rattle.ipc_jobs.specs.Calls.{timed, counted_with as with_reply};

use crate::gates::Gate;
use ipc_call::{Call, Reply};
use ipc_combiner::{Idle, Service, Unjoined};
use ipc_commands::{Job, Part, answered_id, get_of};
use std::sync::Wait;

/// A client before its work.
#[derive(Drop)]
pub(crate) struct Worker {
    pub(crate) client: Unjoined,
    pub(crate) jobs: Vec<Job>,
}

/// A client at work.
#[derive(Drop)]
pub(crate) struct Caller {
    pub(crate) idle: Idle,
    /// For how many of its calls an allocation failed. It stays at the largest number that it holds.
    pub(crate) memory: u64,
}

/// A client after its work.
#[derive(Drop)]
pub(crate) struct Ended {
    pub(crate) caller: Caller,
    /// Whether the gate stopped it.
    pub(crate) held: bool,
}

/// The client joins and does its jobs, until none is left or the gate stops it.
pub(crate) fn work<R: Wait, G: Gate>(rt: &R, service: &Service, gate: &G, worker: Worker) -> Ended
    requires { IsUnjoinedOf service.now.list worker.client.fresh }
    ensures { IsEndOf (G.may_hold gate.now) (G.was_told gate.now) service.now.list worker result }
{
    let Worker { client, jobs } = worker;
    let idle = client.join(service);
    let own = idle.client();
    let mut caller = Caller { idle, memory: 0 };
    let mut nth: u64 = 0;
    for job in jobs {
        nth += 1;
        if !gate.before(own, nth) {
            return Ended { caller, held: true };
        }
        caller = do_job(rt, service, caller, job);
        gate.after(own, nth);
    }
    Ended {
        caller,
        held: false,
    }
}

// Makes the calls of a job.
fn do_job<R: Wait>(rt: &R, service: &Service, caller: Caller, job: Job) -> Caller
    requires { IsOf service.now.list caller.idle.joined }
    ensures service { IsOf service.now.list result.idle.joined }
    ensures client { result.idle.joined.client ≡ caller.idle.joined.client }
    ensures done { HasDone (timed job) (knows caller.idle.joined) (knows result.idle.joined) caller.memory result.memory }
{
    let Job { now, command } = job;
    let mut caller = caller;
    for part in command.into_vec() {
        caller = do_part(rt, service, caller, now, part);
    }
    caller
}

// Makes the calls of a part, each at this time.
fn do_part<R: Wait>(rt: &R, service: &Service, caller: Caller, now: u64, part: Part) -> Caller
    requires { IsOf service.now.list caller.idle.joined }
    ensures service { IsOf service.now.list result.idle.joined }
    ensures client { result.idle.joined.client ≡ caller.idle.joined.client }
    ensures done { HasDone ((now, part) ∷ []) (knows caller.idle.joined) (knows result.idle.joined) caller.memory result.memory }
{
    match part {
        Part::Plain(call) => ask(rt, service, caller, now, call).0,
        Part::RemoveByKey(kind, key) => {
            let (caller, found) = ask(rt, service, caller, now, get_of(kind, key));
            match found {
                Some(id) => ask(rt, service, caller, now, Call::IpcRmid { kind, id }).0,
                None => caller,
            }
        }
    }
}

// Makes a call, and gives the identifier that it is answered, if any.
fn ask<R: Wait>(
    rt: &R,
    service: &Service,
    caller: Caller,
    now: u64,
    call: Call,
) -> (Caller, Option<u32>)
    requires { IsOf service.now.list caller.idle.joined }
    ensures service { IsOf service.now.list result.0.idle.joined }
    ensures client { result.0.idle.joined.client ≡ caller.idle.joined.client }
    ensures asked { HasAsked (now, call) result.1 (knows caller.idle.joined) (knows result.0.idle.joined) caller.memory result.0.memory }
{
    let Caller { idle, memory } = caller;
    let (idle, reply) = idle.call(rt, service, now, call);
    let id = answered_id(&reply);
    let memory = counted_with(memory, &reply);
    (Caller { idle, memory }, id)
}

// For how many calls an allocation failed, after one more with this reply.
fn counted_with(memory: u64, reply: &Reply) -> u64
    ensures { result ≡ with_reply memory reply.now }
{
    match reply {
        Reply::Memory => memory.saturating_add(1),
        Reply::Entered { .. } => memory,
    }
}
