// What takes no memory. A test writes a line to standard error before such calls and one behind them; `./check memory` counts the
// allocations in between, which the test can't.
ghost use Rattle.std.specs.Prelude.{◌≡◌, vec_len, All, IfOk};
ghost use Rattle.ipc_combiner.specs.Closing.{IsClientOf};
ghost use Rattle.ipc_combiner.specs.States.{IsOf, IsUnjoinedOf};

use crate::passes::{all_posted, pass, put_back};
use crate::services::{
    ended, has_passed, is_granted, joined, one_of, one_unjoined, served, service_for, waiting,
};
use ipc_call::{Boxed, Call, IPC_CREAT, Identity, Items, Kind, SEM_UNDO};
use ipc_combiner::{Client, Idle, InFlight, Polled, Seen, Service, Unjoined};
use std::alloc::{AllocError, Global};
use std::process::Abort;
use std::test::Fail;
use test_support::calls::{get, receive, semop, send, text};

/// A client makes these calls one after another, the last first, and each is granted.
fn all_granted(rt: &impl Abort, service: &Service, mut idle: Idle, mut calls: Vec<Call>) -> Idle
    requires { IsOf service.now.list idle.joined }
    ensures { IsOf service.now.list result.joined }
{
    for _ in 0..calls.len() {
        let call = calls.pop().unwrap_or(get(5));
        let (next, reply) = served(rt, service, idle, call);
        assert!(rt; is_granted(reply));
        idle = next;
    }
    idle
}

fn attach() -> Call {
    Call::ShmAt { id: 0, flags: 0 }
}

/// So many gets, each of which adds two rows to the journal. Its room doubles where it ends, so that after 35 events there is
/// room for those of a pass.
fn gets(alloc: Global, count: usize) -> Result<Vec<Call>, AllocError> {
    let mut calls = Vec::new(alloc);
    for _ in 0..count {
        calls.push(get(5))?;
    }
    Ok(calls)
}

/// A client writes to what it has attached.
fn write(alloc: Global) -> Result<Call, AllocError> {
    Ok(Call::ShmWrite {
        att: 0,
        offset: 3,
        bytes: text(alloc)?,
    })
}

/// What is done before the pass, the last first: a queue with a message, a set and a segment are made. The segment is written
/// to, since the first write to it takes its memory.
fn made_before(alloc: Global) -> Result<Vec<Call>, AllocError> {
    let (key, flags) = (5, IPC_CREAT | 0o600);
    let mut calls = gets(alloc, 29)?;
    calls.push(send(alloc, 1)?)?;
    calls.push(write(alloc)?)?;
    calls.push(attach())?;
    calls.push(Call::ShmGet {
        key,
        size: 16,
        flags,
    })?;
    calls.push(Call::SemGet {
        key,
        nsems: 2,
        flags,
    })?;
    calls.push(get(key))?;
    Ok(calls)
}

/// The new owner of a semaphore set.
fn set_owner() -> Call {
    Call::IpcSet {
        kind: Kind::Sems,
        id: 0,
        uid: 100,
        gid: 10,
        mode: 0o600,
        qbytes: None,
    }
}

/// What a client does that exits in the pass, the last first: it attaches the segment, and raises the second value by 1, which
/// its exit undoes.
fn before_exit(alloc: Global) -> Result<Vec<Call>, AllocError> {
    let mut calls = Vec::new(alloc);
    calls.push(semop(alloc, 1, 1, SEM_UNDO as u16)?)?;
    calls.push(attach())?;
    Ok(calls)
}

/// What the clients call in the pass, the last one's call first, which is served first: the last to join is the first on the
/// list. None takes memory but for what the call itself brings. The interrupt ends no call: the list of those that an event ended
/// is handed out, and the next event would need a new one. The removal ends two calls that wait.
fn quiet_calls(alloc: Global) -> Result<Vec<Call>, AllocError> {
    let (id, kind) = (0, Kind::Queue);
    let values = Items::new(vec![in alloc; 1, 2]?);
    let mut calls = Vec::new(alloc);
    calls.push(write(alloc)?)?;
    calls.push(Call::ShmDt { att: 0 })?;
    calls.push(Call::Exit)?;
    calls.push(Call::Interrupt { pid: 1 })?;
    calls.push(receive(0, 1))?;
    calls.push(Call::SetAll { id, values })?;
    calls.push(semop(alloc, 0, -1, 0)?)?;
    calls.push(Call::SetVal {
        id,
        num: 1,
        value: 7,
    })?;
    calls.push(Call::IpcRmid { kind, id })?;
    calls.push(set_owner())?;
    Ok(calls)
}

/// Each of these calls ended, and was granted.
fn check_granted(rt: &impl Abort, service: &Service, flights: Vec<InFlight>)
    requires { All (λ f. IsOf service.now.list f.joined) flights.items }
{
    for flight in flights {
        let (_, reply) = ended(rt, service, flight);
        assert!(rt; is_granted(reply));
    }
}

/// The pass, of calls that are posted while two clients wait.
fn quiet_pass<R: Abort + AllocGlobal + Eprint>(
    rt: &R,
    service: &Service,
    mut flights: Vec<InFlight>,
    third: InFlight,
    fourth: InFlight,
) -> Result<(), Fail>
    requires flights { All (λ f. IsOf service.now.list f.joined) flights.items }
    requires third { IsOf service.now.list third.joined }
    requires fourth { IsOf service.now.list fourth.joined }
{
    eprintln!(rt; "quiet begins")?;
    let passed = pass(service, &mut flights)?;
    eprintln!(rt; "quiet ends")?;
    assert!(rt; passed && flights.len() == 10);
    check_granted(rt, service, flights);
    let (_, _) = ended(rt, service, third);
    let (_, _) = ended(rt, service, fourth);
    Ok(())
}

#[test]
fn a_pass_of_calls_that_need_no_memory_takes_none(rt: HostRuntime) -> Result<(), Fail> {
    let (service, clients) = service_for(&rt, 12)?;
    let mut idles = joined(&rt, &service, clients)?;
    let fourth = one_of(&rt, &service, &mut idles);
    let third = one_of(&rt, &service, &mut idles);
    let last = one_of(&rt, &service, &mut idles);
    let other = one_of(&rt, &service, &mut idles);
    let leaver = one_of(&rt, &service, &mut idles);
    let last = all_granted(&rt, &service, last, made_before(rt.alloc())?);
    let leaver = all_granted(&rt, &service, leaver, before_exit(rt.alloc())?);
    let third = waiting(&rt, &service, third, receive(0, 3));
    let fourth = waiting(&rt, &service, fourth, receive(0, 4));
    let (other, reply) = served(&rt, &service, other, attach());
    assert!(rt; is_granted(reply));
    put_back(&service, &mut idles, leaver)?;
    put_back(&service, &mut idles, other)?;
    put_back(&service, &mut idles, last)?;
    let calls = quiet_calls(rt.alloc())?;
    let flights = all_posted(rt.alloc(), &service, idles, calls)?;
    quiet_pass(&rt, &service, flights, third, fourth)
}

/// The credentials that a process begins with, or that a thread assumes.
fn identity(alloc: Global) -> Result<Boxed<Identity>, AllocError> {
    let (uid, gid) = (100, 10);
    let groups = Items::new(vec![in alloc; 20, 30]?);
    let identity = Identity {
        euid: uid,
        egid: gid,
        groups,
        caps: 0,
        ruid: uid,
        suid: uid,
        rgid: gid,
        sgid: gid,
    };
    Boxed::new(alloc, identity)
}

/// What eight clients call, of whose threads the last one's, of client 6, has ended, as has that of client 8, which isn't among
/// them. The thread of client 7 waits, until its process is killed.
fn calls_on_processes(alloc: Global) -> Result<Vec<Call>, AllocError> {
    let mut calls = Vec::new(alloc);
    calls.push(Call::Begin {
        pid: 70,
        creds: identity(alloc)?,
    })?;
    calls.push(Call::Clone { child: 8 })?;
    calls.push(Call::Assume {
        creds: identity(alloc)?,
    })?;
    calls.push(Call::Name { pid: 60 })?;
    calls.push(Call::Exec)?;
    calls.push(Call::SetCreds {
        euid: 100,
        egid: 10,
        groups: None,
    })?;
    calls.push(Call::Kill { pid: 8 })?;
    Ok(calls)
}

/// The pass of those calls.
fn pass_on_processes<R: Abort + AllocGlobal + Eprint>(
    rt: &R,
    service: &Service,
    idles: Vec<Idle>,
) -> Result<(), Fail>
    requires { All (λ i. IsOf service.now.list i.joined) idles.items }
{
    let calls = calls_on_processes(rt.alloc())?;
    let mut flights = all_posted(rt.alloc(), service, idles, calls)?;
    eprintln!(rt; "quiet begins")?;
    let passed = pass(service, &mut flights)?;
    eprintln!(rt; "quiet ends")?;
    assert!(rt; passed && flights.len() == 7);
    check_granted(rt, service, flights);
    Ok(())
}

#[test]
fn calls_on_processes_take_no_memory(rt: HostRuntime) -> Result<(), Fail> {
    let (service, clients) = service_for(&rt, 9)?;
    let mut idles = joined(&rt, &service, clients)?;
    let child = one_of(&rt, &service, &mut idles);
    let waiter = one_of(&rt, &service, &mut idles);
    let ended = one_of(&rt, &service, &mut idles);
    let ended = all_granted(&rt, &service, ended, gets(rt.alloc(), 7)?);
    let (_, reply) = served(&rt, &service, child, Call::Exit);
    assert!(rt; is_granted(reply));
    let waiter = waiting(&rt, &service, waiter, receive(0, 3));
    let (ended, reply) = served(&rt, &service, ended, Call::Exit);
    assert!(rt; is_granted(reply));
    put_back(&service, &mut idles, ended)?;
    pass_on_processes(&rt, &service, idles)?;
    let (_, reply) = crate::services::ended(&rt, &service, waiter);
    assert!(rt; !is_granted(reply));
    Ok(())
}

/// A call, which is posted.
fn posted(rt: &impl Abort, service: &Service, flight: InFlight) -> InFlight
    requires { IsOf service.now.list flight.joined }
    ensures { IsOf service.now.list result.joined }
{
    match flight.poll(service) {
        Polled::Still(still, Seen::Posted) => still,
        _ => panic!(rt; "no call is posted"),
    }
}

/// Bob joins, hears of alice's call and serves it; she is told, and he learns what she knows.
fn heard_and_told(rt: &impl Abort, service: &Service, alice: Idle, bob: Unjoined) -> (Idle, Idle)
    requires alice { IsOf service.now.list alice.joined }
    requires bob { IsUnjoinedOf service.now.list bob.fresh }
    ensures { IsOf service.now.list result.0.joined × IsOf service.now.list result.1.joined }
{
    let mut bob = bob.join(service);
    let mut alice = posted(rt, service, alice.post(service, 0, get(5)));
    bob.hear(service, &mut alice);
    assert!(rt; has_passed(bob.combine(service)));
    alice.told(service, &mut bob);
    let (mut alice, reply) = ended(rt, service, alice);
    assert!(rt; is_granted(reply));
    bob.learn(service, &mut alice);
    (alice, bob)
}

/// Both clients, to be handed in.
fn both(alloc: Global, service: &Service, alice: Idle, bob: Idle) -> Result<Vec<Client>, AllocError>
    requires alice { IsOf service.now.list alice.joined }
    requires bob { IsOf service.now.list bob.joined }
    ensures count { IfOk result (λ m. vec_len m ≡ 2) }
    ensures service { IfOk result (λ m. All (λ c. IsClientOf service.now.list c) m.items) }
{
    let mut clients = Vec::new(alloc);
    clients.push(Client::Idle(alice))?;
    clients.push(Client::Idle(bob))?;
    Ok(clients)
}

#[test]
fn what_is_around_a_call_takes_no_memory(rt: HostRuntime) -> Result<(), Fail> {
    let (service, mut clients) = service_for(&rt, 2)?;
    let bob = one_unjoined(&rt, &service, &mut clients);
    let mut idles = joined(&rt, &service, clients)?;
    let alice = one_of(&rt, &service, &mut idles);
    let alice = all_granted(&rt, &service, alice, gets(rt.alloc(), 3)?);
    eprintln!(rt; "quiet begins")?;
    let (alice, bob) = heard_and_told(&rt, &service, alice, bob);
    eprintln!(rt; "quiet ends")?;
    let clients = both(rt.alloc(), &service, alice, bob)?;
    eprintln!(rt; "quiet begins")?;
    let space = service.close(clients);
    eprintln!(rt; "quiet ends")?;
    assert!(rt; space.events() == 4);
    drop(space);
    Ok(())
}
