// A client that stands still: inside a pass, before one, and while it holds a posted call.
ghost use Rattle.std.specs.Prelude.{◌≤◌, ⊤, All, IfOk, IfSome};
ghost use Rattle.ipc_combiner.specs.States.{IsOf};

use crate::passes::all_posted;
use crate::services::{ended, has_id, has_passed, joined, service_for};
use ipc_combiner::{Idle, InFlight, Pass, PassGate, Polled, Seen, Service};
use std::alloc::{AllocError, Global};
use std::process::Abort;
use std::sync::Wait;
use std::sync::atomic::{AtomicU64, Ordering};
use std::test::Fail;
use std::thread;
use std::thread::Threads;
use test_support::calls::get;
use test_support::waiting::wait_for;

/// A gate at which a combiner stands still after so many records, until it is let through.
#[derive(Drop)]
struct Halt {
    visited: u32,
    inside: AtomicU64,
    open: AtomicU64,
}

impl PassGate for Halt {
    ghost was_told = { λ gate visited clients. ⊤ };

    fn between(&self, visited: u32, _clients: u32) {
        if visited == self.visited {
            self.inside.store(1, Ordering::SeqCst);
            wait_for(&self.open);
        }
    }
}

/// One of the clients, and the others.
#[derive(Drop)]
struct Chosen {
    one: Option<Idle>,
    others: Vec<Idle>,
}

/// The client of a number, apart from the others.
fn choose(
    alloc: Global,
    service: &Service,
    idles: Vec<Idle>,
    number: u32,
) -> Result<Chosen, AllocError>
    requires { All (λ i. IsOf service.now.list i.joined) idles.items }
    ensures one { IfOk result (λ m. IfSome m.one (λ i. IsOf service.now.list i.joined)) }
    ensures others { IfOk result (λ m. All (λ i. IsOf service.now.list i.joined) m.others.items) }
{
    let mut one = None;
    let mut others = Vec::new(alloc);
    for idle in idles {
        if idle.client() == number {
            one = Some(idle);
        } else {
            others.push(idle)?;
        }
    }
    Ok(Chosen { one, others })
}

/// A client that combined at a gate: whether it passed.
#[derive(Drop)]
struct Halted {
    idle: Idle,
    passed: bool,
}

fn stand_still(service: &Service, mut idle: Idle, gate: &Halt) -> Halted
    requires { IsOf service.now.list idle.joined }
    ensures { IsOf service.now.list result.idle.joined }
{
    let passed = has_passed(idle.combine_with(service, gate));
    Halted { idle, passed }
}

/// Calls that were made while another client stood still, and how many of them met it.
#[derive(Drop)]
struct Meanwhile {
    flights: Vec<InFlight>,
    met: u32,
}

/// A client posts, looks for its reply, and tries to combine: the call in flight, and whether it was still posted and the client
/// of this number combined.
fn meet(service: &Service, idle: Idle, still: u32) -> Option<(InFlight, bool)>
    requires { IsOf service.now.list idle.joined }
    ensures { IfSome result (λ m. IsOf service.now.list m.0.joined) }
{
    match idle.post(service, 0, get(5)).poll(service) {
        Polled::Done(_, _) => None,
        Polled::Still(mut flight, seen) => {
            let pass = flight.combine(service);
            let is_met = matches!(seen, Seen::Posted)
                && matches!(pass, Pass::Busy(client) if client == still);
            Some((flight, is_met))
        }
    }
}

/// While a client stands still, each other calls; then it is let through.
fn call_meanwhile(
    alloc: Global,
    service: &Service,
    idles: Vec<Idle>,
    still: u32,
    gate: &Halt,
) -> Result<Meanwhile, AllocError>
    requires { All (λ i. IsOf service.now.list i.joined) idles.items }
    ensures { IfOk result (λ m. All (λ f. IsOf service.now.list f.joined) m.flights.items) }
{
    wait_for(&gate.inside);
    let mut flights = Vec::new(alloc);
    let mut met: u32 = 0;
    for idle in idles {
        if let Some((flight, is_met)) = meet(service, idle, still) {
            flights.push(flight)?;
            met = met.wrapping_add(u32::from(is_met));
        }
    }
    gate.open.store(1, Ordering::SeqCst);
    Ok(Meanwhile { flights, met })
}

/// Both at once.
fn at_once<R: Threads>(
    rt: &R,
    alloc: Global,
    service: &Service,
    still: Idle,
    idles: Vec<Idle>,
    gate: &Halt,
) -> (Halted, Result<Meanwhile, AllocError>)
    requires still { IsOf service.now.list still.joined }
    requires idles { All (λ i. IsOf service.now.list i.joined) idles.items }
    ensures still { IsOf service.now.list result.0.idle.joined }
    ensures idles { IfOk result.1 (λ m. All (λ f. IsOf service.now.list f.joined) m.flights.items) }
{
    let number = still.client();
    thread::join(
        rt,
        move || -> Halted
            requires { IsOf service.now.list still.joined }
            ensures { IsOf service.entry.now.list result.idle.joined }
        { stand_still(service, still, gate) },
        move || -> Result<Meanwhile, AllocError>
            requires { All (λ i. IsOf service.now.list i.joined) idles.items }
            ensures { IfOk result (λ m. All (λ f. IsOf service.entry.now.list f.joined) m.flights.items) }
        { call_meanwhile(alloc, service, idles, number, gate) },
    )
}

/// A pass of one of these calls serves all that are left: how many are granted then.
fn count_granted(rt: &impl Abort, service: &Service, mut flights: Vec<InFlight>) -> usize
    requires { All (λ f. IsOf service.now.list f.joined) flights.items }
{
    let mut granted: usize = 0;
    if let Some(mut last) = flights.pop() {
        assert!(rt; has_passed(last.combine(service)));
        let (_, reply) = ended(rt, service, last);
        assert!(rt; has_id(reply));
        granted = 1;
    }
    for flight in flights {
        let (_, reply) = ended(rt, service, flight);
        assert!(rt; has_id(reply));
        granted = granted.wrapping_add(1);
    }
    granted
}

/// Of so many clients that of a number stands still in its pass, after so many records.
fn halts<R: Threads + Abort + AllocGlobal>(
    rt: &R,
    count: u32,
    number: u32,
    visited: u32,
) -> Result<(), Fail>
    requires { (1 ≤ count) × (count ≤ 64) }
{
    let (service, clients) = service_for(rt, count)?;
    let idles = joined(rt, &service, clients)?;
    let Chosen { one, others } = choose(rt.alloc(), &service, idles, number)?;
    let gate = Halt {
        visited,
        inside: AtomicU64::new(0),
        open: AtomicU64::new(0),
    };
    let Some(still) = one else {
        panic!(rt; "there is no such client");
    };
    let (halted, meanwhile) = at_once(rt, rt.alloc(), &service, still, others, &gate);
    let Meanwhile { flights, met } = meanwhile?;
    assert!(rt; halted.passed);
    assert_eq!(rt; met.wrapping_add(1), count);
    assert_eq!(rt;
        count_granted(rt, &service, flights).wrapping_add(1),
        count as usize
    );
    Ok(())
}

/// Of so many clients that of a number stands still before any pass, where `posts` with a posted call.
fn stands_before<R: Abort + AllocGlobal>(
    rt: &R,
    count: u32,
    number: u32,
    posts: bool,
) -> Result<(), Fail>
    requires { (1 ≤ count) × (count ≤ 64) }
{
    let (service, clients) = service_for(rt, count)?;
    let idles = joined(rt, &service, clients)?;
    let Chosen { one, others } = choose(rt.alloc(), &service, idles, number)?;
    let Some(still) = one else {
        panic!(rt; "there is no such client");
    };
    let flights = all_posted(rt.alloc(), &service, others, Vec::new(rt.alloc()))?;
    if posts {
        let flight = still.post(&service, 0, get(5));
        assert_eq!(rt;
            count_granted(rt, &service, flights).wrapping_add(1),
            count as usize
        );
        let (_, reply) = ended(rt, &service, flight);
        assert!(rt; has_id(reply));
    } else {
        assert_eq!(rt;
            count_granted(rt, &service, flights).wrapping_add(1),
            count as usize
        );
    }
    Ok(())
}

/// In each position of so many clients.
fn everywhere<R: Threads + Abort + AllocGlobal>(rt: &R, count: u32) -> Result<(), Fail>
    requires { (2 ≤ count) × (count ≤ 64) }
{
    for number in 0..count {
        halts(rt, count, number, 1)?;
        halts(rt, count, number, count - 1)?;
        stands_before(rt, count, number, false)?;
        stands_before(rt, count, number, true)?;
    }
    Ok(())
}

#[test]
fn each_of_three_stands_still(rt: HostRuntime) -> Result<(), Fail> {
    everywhere(&rt, 3)
}

#[test]
fn each_of_sixty_four_stands_still(rt: HostRuntime) -> Result<(), Fail> {
    everywhere(&rt, 64)
}
