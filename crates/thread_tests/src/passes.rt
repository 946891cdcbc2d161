// What a test does with all clients of a service: each posts a call, one combines, each is told, and all are handed in.
ghost use Rattle.std.specs.Prelude.{All, IfOk};
ghost use Rattle.ipc_combiner.specs.Closing.{IsClientOf};
ghost use Rattle.ipc_combiner.specs.States.{IsOf};

use crate::services::{ended, has_passed};
use ipc_call::{Call, Reply};
use ipc_combiner::{Client, Idle, InFlight, Service};
use std::alloc::{AllocError, Global};
use std::process::Abort;
use std::test::Fail;
use test_support::calls::get;

/// Each client posts the last of these calls that is left, and where none is, a get of key 5.
pub(crate) fn all_posted(
    alloc: Global,
    service: &Service,
    idles: Vec<Idle>,
    mut calls: Vec<Call>,
) -> Result<Vec<InFlight>, AllocError>
    requires { All (λ i. IsOf service.now.list i.joined) idles.items }
    ensures { IfOk result (λ m. All (λ f. IsOf service.now.list f.joined) m.items) }
{
    let mut flights = Vec::new(alloc);
    for idle in idles {
        let call = calls.pop().unwrap_or(get(5));
        flights.push(idle.post(service, 0, call))?;
    }
    Ok(flights)
}

/// A client goes back to the others, as the last.
pub(crate) fn put_back(
    service: &Service,
    idles: &mut Vec<Idle>,
    idle: Idle,
) -> Result<(), AllocError>
    requires one { IsOf service.now.list idle.joined }
    requires rest { All (λ i. IsOf service.now.list i.joined) idles.old.items }
    ensures { IfOk result (λ _. All (λ i. IsOf service.now.list i.joined) idles.new.items) }
{
    idles.push(idle)?;
    Ok(())
}

/// One of the calls combines, and whether it passed. It takes no memory.
pub(crate) fn pass(service: &Service, flights: &mut Vec<InFlight>) -> Result<bool, AllocError>
    requires { All (λ f. IsOf service.now.list f.joined) flights.old.items }
    ensures { IfOk result (λ _. All (λ f. IsOf service.now.list f.joined) flights.new.items) }
{
    let Some(mut last) = flights.pop() else {
        return Ok(false);
    };
    let passed = has_passed(last.combine(service));
    flights.push(last)?;
    Ok(passed)
}

/// A client whose call has ended, and whether an allocation failed for it.
#[derive(Drop)]
pub(crate) struct Told {
    pub(crate) idle: Idle,
    pub(crate) failed: bool,
}

fn is_memory(reply: Reply) -> bool {
    matches!(reply, Reply::Memory)
}

pub(crate) fn all_told(
    rt: &(impl Abort + AllocGlobal),
    service: &Service,
    flights: Vec<InFlight>,
) -> Result<Vec<Told>, Fail>
    requires { All (λ f. IsOf service.now.list f.joined) flights.items }
    ensures { IfOk result (λ m. All (λ t. IsOf service.now.list t.idle.joined) m.items) }
{
    let mut told = Vec::new(rt.alloc());
    for flight in flights {
        let (idle, reply) = ended(rt, service, flight);
        let failed = is_memory(reply);
        told.push(Told { idle, failed })?;
    }
    Ok(told)
}

/// All clients, to be handed in: those that were told, and two more.
pub(crate) fn handed_in(
    alloc: Global,
    service: &Service,
    told: Vec<Told>,
    third: Client,
    fourth: Client,
) -> Result<Vec<Client>, AllocError>
    requires told { All (λ t. IsOf service.now.list t.idle.joined) told.items }
    requires third { IsClientOf service.now.list third }
    requires fourth { IsClientOf service.now.list fourth }
    ensures { IfOk result (λ m. All (λ c. IsClientOf service.now.list c) m.items) }
{
    let mut clients = Vec::new(alloc);
    for each in told {
        clients.push(Client::Idle(each.idle))?;
    }
    clients.push(third)?;
    clients.push(fourth)?;
    Ok(clients)
}
