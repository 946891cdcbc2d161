// Clients of one service, alone and in threads.
ghost use Rattle.std.specs.Prelude.{◌≡◌, ◌≤◌, ⊤, vec_len, All, IfOk};
ghost use Rattle.ipc_combiner.specs.Closing.{IsClientOf};
ghost use Rattle.ipc_combiner.specs.States.{IsOf, IsUnjoinedOf, keeping};
ghost use Rattle.ipc_combiner.specs.declared.entries.Keeping.TheVariants.{Whole};

use ipc_call::{Answer, Call, IPC_NOWAIT, JournalRow, Kind, Limits, Outcome, Reply, Rule};
use ipc_combiner::{Client, Idle, InFlight, Pass, PassGate, Polled, Seen, Service, Unjoined};
use ipc_space::Space;
use std::alloc::{AllocError, Global};
use std::process::Abort;
use std::sync::Wait;
use std::sync::atomic::{AtomicU64, Ordering};
use std::test::Fail;
use std::thread;
use std::thread::Threads;
use test_support::calls::{get, receive, send, text};
use test_support::clients::users;
use test_support::waiting::wait_for;

const ROUNDS: u64 = 1000;

/// A service for so many clients of one user.
pub(crate) fn service_for(
    rt: &impl AllocGlobal,
    count: u32,
) -> Result<(Service, Vec<Unjoined>), Fail>
    requires { (1 ≤ count) × (count ≤ 64) }
    ensures service { IfOk result (λ m. All (λ u. IsUnjoinedOf m.0.list u.fresh) m.1.items) }
    ensures keeping { IfOk result (λ m. keeping m.0.list ≡ Whole) }
    ensures count { IfOk result (λ m. (vec_len m.1 ≡ count) × (m.0.list.clients ≡ count)) }
{
    let alloc = rt.alloc();
    let creds = users(alloc, count as usize)?;
    Ok(Service::start(alloc, Limits::default(), creds)?)
}

pub(crate) fn has_passed(pass: Pass) -> bool {
    matches!(pass, Pass::Passed)
}

/// Each client joins, and passes once.
pub(crate) fn joined(
    rt: &(impl Abort + AllocGlobal),
    service: &Service,
    clients: Vec<Unjoined>,
) -> Result<Vec<Idle>, Fail>
    requires { All (λ u. IsUnjoinedOf service.now.list u.fresh) clients.items }
    ensures { IfOk result (λ m. All (λ i. IsOf service.now.list i.joined) m.items) }
{
    let mut idles = Vec::new(rt.alloc());
    for client in clients {
        let mut idle = client.join(service);
        assert!(rt; has_passed(idle.combine(service)));
        idles.push(idle)?;
    }
    Ok(idles)
}

/// One of the clients, the last first.
pub(crate) fn one_of(rt: &impl Abort, service: &Service, idles: &mut Vec<Idle>) -> Idle
    requires { All (λ i. IsOf service.now.list i.joined) idles.old.items }
    ensures one { IsOf service.now.list result.joined }
    ensures rest { All (λ i. IsOf service.now.list i.joined) idles.new.items }
{
    match idles.pop() {
        Some(idle) => idle,
        None => panic!(rt; "no client is left"),
    }
}

/// The reply to a call, which has ended.
pub(crate) fn ended(rt: &impl Abort, service: &Service, flight: InFlight) -> (Idle, Reply)
    requires { IsOf service.now.list flight.joined }
    ensures { IsOf service.now.list result.0.joined }
{
    match flight.poll(service) {
        Polled::Done(idle, reply) => (idle, reply),
        Polled::Still(_, _) => panic!(rt; "a call is in flight"),
    }
}

/// A call, which waits.
pub(crate) fn parked(rt: &impl Abort, service: &Service, flight: InFlight) -> InFlight
    requires { IsOf service.now.list flight.joined }
    ensures { IsOf service.now.list result.joined }
{
    match flight.poll(service) {
        Polled::Still(still, Seen::Parked) => still,
        _ => panic!(rt; "no call waits"),
    }
}

/// A client calls, passes, and has the reply.
pub(crate) fn served(rt: &impl Abort, service: &Service, idle: Idle, call: Call) -> (Idle, Reply)
    requires { IsOf service.now.list idle.joined }
    ensures { IsOf service.now.list result.0.joined }
{
    let mut flight = idle.post(service, 0, call);
    assert!(rt; has_passed(flight.combine(service)));
    ended(rt, service, flight)
}

/// A client calls, passes, and waits.
pub(crate) fn waiting(rt: &impl Abort, service: &Service, idle: Idle, call: Call) -> InFlight
    requires { IsOf service.now.list idle.joined }
    ensures { IsOf service.now.list result.joined }
{
    let mut flight = idle.post(service, 0, call);
    assert!(rt; has_passed(flight.combine(service)));
    parked(rt, service, flight)
}

/// The call was entered, and ended so.
fn has_ended(reply: Reply, wanted: Outcome) -> bool {
    match reply {
        Reply::Entered { outcome, .. } => outcome == wanted,
        Reply::Memory => false,
    }
}

/// A client calls, passes, and has the reply that is wanted.
pub(crate) fn replied(
    rt: &impl Abort,
    service: &Service,
    idle: Idle,
    call: Call,
    wanted: Outcome,
) -> Idle
    requires { IsOf service.now.list idle.joined }
    ensures { IsOf service.now.list result.joined }
{
    let (idle, reply) = served(rt, service, idle, call);
    assert!(rt; has_ended(reply, wanted));
    idle
}

/// Receives a message of the first queue, where there is one.
fn receive_now() -> Call {
    Call::MsgRcv {
        id: 0,
        size: 10,
        msgtyp: 0,
        flags: IPC_NOWAIT,
    }
}

fn message(alloc: Global) -> Result<Outcome, AllocError> {
    Ok(Ok(Answer::Message {
        mtype: 3,
        text: text(alloc)?,
    }))
}

/// How many of so many tries to combine passed.
fn passes(service: &Service, idle: &mut Idle, tries: u32) -> u32
    requires { IsOf service.now.list idle.old.joined }
{
    let mut passed: u32 = 0;
    for _ in 0..tries {
        if has_passed(idle.combine(service)) {
            passed = passed.wrapping_add(1);
        }
    }
    passed
}

#[test]
fn one_of_four_acts_alone_and_passes_each_time(rt: HostRuntime) -> Result<(), Fail> {
    let (service, clients) = service_for(&rt, 4)?;
    let mut idles = joined(&rt, &service, clients)?;
    assert_eq!(rt; idles.len(), 4);
    let mut idle = one_of(&rt, &service, &mut idles);
    assert_eq!(rt; passes(&service, &mut idle, 100), 100);
    Ok(())
}

#[test]
fn with_memory_no_call_is_refused_for_it(rt: HostRuntime) -> Result<(), Fail> {
    let (service, clients) = service_for(&rt, 1)?;
    let mut idles = joined(&rt, &service, clients)?;
    let text = message(rt.alloc())?;
    let sent = send(rt.alloc(), 3)?;
    let alice = one_of(&rt, &service, &mut idles);
    let alice = replied(&rt, &service, alice, get(5), Ok(Answer::Id(0)));
    let alice = replied(&rt, &service, alice, sent, Ok(Answer::Done));
    let alice = replied(&rt, &service, alice, receive(0, 0), text);
    let refused = Err(Rule::NoMessage);
    drop(replied(&rt, &service, alice, receive_now(), refused));
    Ok(())
}

#[test]
fn a_pass_serves_who_was_heard_of_and_who_was_not(rt: HostRuntime) -> Result<(), Fail> {
    let (service, clients) = service_for(&rt, 3)?;
    let mut idles = joined(&rt, &service, clients)?;
    let mut alice = one_of(&rt, &service, &mut idles);
    let bob = one_of(&rt, &service, &mut idles);
    let carol = one_of(&rt, &service, &mut idles);
    let mut bob = bob.post(&service, 0, get(6));
    let carol = carol.post(&service, 0, get(7));
    alice.hear(&service, &mut bob);
    assert!(rt; has_passed(alice.combine(&service)));
    bob.told(&service, &mut alice);
    let (_, bobs) = ended(&rt, &service, bob);
    let (_, carols) = ended(&rt, &service, carol);
    assert!(rt; has_id(bobs) && has_id(carols));
    Ok(())
}

#[test]
fn who_learns_of_a_sender_receives_its_message(rt: HostRuntime) -> Result<(), Fail> {
    let (service, clients) = service_for(&rt, 2)?;
    let mut idles = joined(&rt, &service, clients)?;
    let text = message(rt.alloc())?;
    let sent = send(rt.alloc(), 3)?;
    let mut bob = one_of(&rt, &service, &mut idles);
    let alice = one_of(&rt, &service, &mut idles);
    let alice = replied(&rt, &service, alice, get(5), Ok(Answer::Id(0)));
    let mut alice = replied(&rt, &service, alice, sent, Ok(Answer::Done));
    bob.learn(&service, &mut alice);
    drop(replied(&rt, &service, bob, receive_now(), text));
    Ok(())
}

/// Each client receives, and waits.
fn all_waiting(
    rt: &(impl Abort + AllocGlobal),
    service: &Service,
    idles: Vec<Idle>,
) -> Result<Vec<InFlight>, Fail>
    requires { All (λ i. IsOf service.now.list i.joined) idles.items }
    ensures { IfOk result (λ m. All (λ f. IsOf service.now.list f.joined) m.items) }
{
    let mut flights = Vec::new(rt.alloc());
    for idle in idles {
        flights.push(waiting(rt, service, idle, receive(0, 0)))?;
    }
    Ok(flights)
}

/// How many of the calls have ended, as the queue is gone.
fn count_removed(rt: &impl Abort, service: &Service, flights: Vec<InFlight>) -> usize
    requires { All (λ f. IsOf service.now.list f.joined) flights.items }
{
    let mut count: usize = 0;
    for flight in flights {
        let (_, reply) = ended(rt, service, flight);
        assert!(rt; has_ended(reply, Err(Rule::Removed)));
        count = count.wrapping_add(1);
    }
    count
}

#[test]
fn one_event_ends_sixty_three_waiting_calls(rt: HostRuntime) -> Result<(), Fail> {
    let (service, clients) = service_for(&rt, 64)?;
    let mut idles = joined(&rt, &service, clients)?;
    let alice = one_of(&rt, &service, &mut idles);
    let alice = replied(&rt, &service, alice, get(5), Ok(Answer::Id(0)));
    let flights = all_waiting(&rt, &service, idles)?;
    let (kind, id) = (Kind::Queue, 0);
    drop(replied(
        &rt,
        &service,
        alice,
        Call::IpcRmid { kind, id },
        Ok(Answer::Done),
    ));
    assert_eq!(rt; count_removed(&rt, &service, flights), 63);
    Ok(())
}

/// One of the clients that haven't joined, the last first.
pub(crate) fn one_unjoined(
    rt: &impl Abort,
    service: &Service,
    clients: &mut Vec<Unjoined>,
) -> Unjoined
    requires { All (λ u. IsUnjoinedOf service.now.list u.fresh) clients.old.items }
    ensures one { IsUnjoinedOf service.now.list result.fresh }
    ensures rest { All (λ u. IsUnjoinedOf service.now.list u.fresh) clients.new.items }
{
    match clients.pop() {
        Some(client) => client,
        None => panic!(rt; "no client is left"),
    }
}

/// Three clients, one of each kind, to be handed in.
fn one_of_each(
    alloc: Global,
    service: &Service,
    first: Unjoined,
    second: Idle,
    third: InFlight,
) -> Result<Vec<Client>, AllocError>
    requires first { IsUnjoinedOf service.now.list first.fresh }
    requires second { IsOf service.now.list second.joined }
    requires third { IsOf service.now.list third.joined }
    ensures count { IfOk result (λ m. vec_len m ≡ 3) }
    ensures service { IfOk result (λ m. All (λ c. IsClientOf service.now.list c) m.items) }
{
    let mut clients = Vec::new(alloc);
    clients.push(Client::Unjoined(first))?;
    clients.push(Client::Idle(second))?;
    clients.push(Client::InFlight(third))?;
    Ok(clients)
}

/// Alice has made a queue, and bob, who is client 1, waits.
fn check_closed(rt: &impl Abort, space: &Space) {
    assert!(rt; space.events() == 2 && space.journal().len() == 3);
    assert!(rt; space.is_waiting(1));
}

#[test]
fn a_service_closes_while_a_call_waits(rt: HostRuntime) -> Result<(), Fail> {
    let (service, mut clients) = service_for(&rt, 3)?;
    let carol = one_unjoined(&rt, &service, &mut clients);
    let mut idles = joined(&rt, &service, clients)?;
    let bob = one_of(&rt, &service, &mut idles);
    let alice = one_of(&rt, &service, &mut idles);
    let alice = replied(&rt, &service, alice, get(5), Ok(Answer::Id(0)));
    let bob = waiting(&rt, &service, bob, receive(0, 0));
    let clients = one_of_each(rt.alloc(), &service, carol, alice, bob)?;
    let space = service.close(clients);
    check_closed(&rt, &space);
    drop(space);
    Ok(())
}

/// A client, and how many of its calls were entered and granted.
#[derive(Drop)]
struct Asked {
    idle: Idle,
    granted: u64,
}

/// Whether a call was granted.
pub(crate) fn is_granted(reply: Reply) -> bool {
    matches!(reply, Reply::Entered { outcome: Ok(_), .. })
}

/// Whether a call was granted an identifier.
pub(crate) fn has_id(reply: Reply) -> bool {
    matches!(
        reply,
        Reply::Entered {
            outcome: Ok(Answer::Id(_)),
            ..
        }
    )
}

/// A thousand calls of one client.
fn ask_all<R: Wait>(rt: &R, service: &Service, client: Unjoined) -> Asked
    requires { IsUnjoinedOf service.now.list client.fresh }
    ensures { IsOf service.now.list result.idle.joined }
{
    let mut idle = client.join(service);
    let mut granted: u64 = 0;
    for round in 0..ROUNDS {
        let (next, reply) = idle.call(rt, service, round, get(5));
        idle = next;
        if has_id(reply) {
            granted = granted.wrapping_add(1);
        }
    }
    Asked { idle, granted }
}

/// Each client makes its thousand calls in a thread of its own.
fn in_threads<R: Threads + Sync + Wait>(
    rt: &R,
    service: &Service,
    clients: Vec<Unjoined>,
) -> Result<Vec<Asked>, AllocError>
    requires { All (λ u. IsUnjoinedOf service.now.list u.fresh) clients.items }
    ensures count { IfOk result (λ m. vec_len m ≡ vec_len clients) }
    ensures service { IfOk result (λ m. All (λ a. IsOf service.now.list a.idle.joined) m.items) }
{
    thread::map_vec(
        rt,
        clients,
        &|client: Unjoined| -> Asked
            requires { IsUnjoinedOf service.now.list client.fresh }
            ensures { IsOf service.entry.now.list result.idle.joined }
        { ask_all(rt, service, client) },
    )
}

/// All clients are handed in.
fn closed(
    rt: &(impl Abort + AllocGlobal),
    service: Service,
    asked: Vec<Asked>,
) -> Result<Space, Fail>
    requires keeping { keeping service.list ≡ Whole }
    requires count { vec_len asked ≡ service.list.clients }
    requires service { All (λ a. IsOf service.list a.idle.joined) asked.items }
{
    let mut clients = Vec::new(rt.alloc());
    for each in asked {
        assert_eq!(rt; each.granted, ROUNDS);
        clients.push(Client::Idle(each.idle))?;
    }
    Ok(service.close(clients))
}

/// The journal has each client's thousand calls in their order, and as many replies to it.
fn check_journal(rt: &impl Abort, space: &Space, clients: u32) {
    let mut calls = [0u64; 64];
    let mut answers = [0u64; 64];
    assert!(rt; clients <= 64);
    assert_eq!(rt; space.events(), u64::from(clients) * ROUNDS);
    for row in space.journal() {
        match *row {
            JournalRow::Called { client, now, .. } => {
                assert!(rt; client < clients);
                assert_eq!(rt; now, calls[client as usize]);
                calls[client as usize] = now.wrapping_add(1);
            }
            JournalRow::Answered { client, rule, .. } => {
                assert!(rt; client < clients && rule.is_none());
                let before = answers[client as usize];
                answers[client as usize] = before.wrapping_add(1);
            }
        }
    }
    for client in 0..clients {
        assert_eq!(rt; calls[client as usize], ROUNDS);
        assert_eq!(rt; answers[client as usize], ROUNDS);
    }
}

/// So many clients each call a thousand times.
fn run<R: Threads + Sync + Wait + Abort + AllocGlobal>(rt: &R, count: u32) -> Result<(), Fail>
    requires { (1 ≤ count) × (count ≤ 64) }
{
    let (service, clients) = service_for(rt, count)?;
    let asked = in_threads(rt, &service, clients)?;
    let space = closed(rt, service, asked)?;
    check_journal(rt, &space, count);
    drop(space);
    Ok(())
}

#[test]
fn a_thousand_calls_by_a_client_alone(rt: HostRuntime) -> Result<(), Fail> {
    run(&rt, 1)
}

#[test]
fn a_thousand_calls_each_by_two_threads(rt: HostRuntime) -> Result<(), Fail> {
    run(&rt, 2)
}

#[test]
fn a_thousand_calls_each_by_eight_threads(rt: HostRuntime) -> Result<(), Fail> {
    run(&rt, 8)
}

#[test]
fn a_thousand_calls_each_by_sixty_four_threads(rt: HostRuntime) -> Result<(), Fail> {
    run(&rt, 64)
}

/// A gate at which a combiner stands still until it is let through, or for so many turns.
#[derive(Drop)]
struct Gate {
    inside: AtomicU64,
    open: AtomicU64,
}

impl PassGate for Gate {
    ghost was_told = { λ gate visited clients. ⊤ };

    fn between(&self, _visited: u32, _clients: u32) {
        self.inside.store(1, Ordering::SeqCst);
        wait_for(&self.open);
    }
}

/// A client that tried to combine, and the client that combined where it was another.
#[derive(Drop)]
struct Tried {
    idle: Idle,
    busy: Option<u32>,
}

fn tried_by(idle: Idle, pass: Pass) -> Tried
    ensures { result.idle ≡ idle }
{
    let busy = match pass {
        Pass::Passed => None,
        Pass::Busy(client) => Some(client),
    };
    Tried { idle, busy }
}

/// A client combines, and stands still at the gate.
fn stand_still(service: &Service, mut idle: Idle, gate: &Gate) -> Tried
    requires { IsOf service.now.list idle.joined }
    ensures { IsOf service.now.list result.idle.joined }
{
    let pass = idle.combine_with(service, gate);
    tried_by(idle, pass)
}

/// While another stands still, a client tries to combine; then it lets the other through.
fn try_meanwhile(service: &Service, mut idle: Idle, gate: &Gate) -> Tried
    requires { IsOf service.now.list idle.joined }
    ensures { IsOf service.now.list result.idle.joined }
{
    wait_for(&gate.inside);
    let pass = idle.combine(service);
    gate.open.store(1, Ordering::SeqCst);
    tried_by(idle, pass)
}

/// Both at once.
fn at_the_gate<R: Threads>(
    rt: &R,
    service: &Service,
    still: Idle,
    other: Idle,
    gate: &Gate,
) -> (Tried, Tried)
    requires still { IsOf service.now.list still.joined }
    requires other { IsOf service.now.list other.joined }
    ensures { IsOf service.now.list result.0.idle.joined × IsOf service.now.list result.1.idle.joined }
{
    thread::join(
        rt,
        move || -> Tried
            requires { IsOf service.now.list still.joined }
            ensures { IsOf service.entry.now.list result.idle.joined }
        { stand_still(service, still, gate) },
        move || -> Tried
            requires { IsOf service.now.list other.joined }
            ensures { IsOf service.entry.now.list result.idle.joined }
        { try_meanwhile(service, other, gate) },
    )
}

#[test]
fn who_stands_still_in_a_pass_leaves_the_others_busy(rt: HostRuntime) -> Result<(), Fail> {
    let (service, clients) = service_for(&rt, 3)?;
    let mut idles = joined(&rt, &service, clients)?;
    let alice = one_of(&rt, &service, &mut idles);
    let bob = one_of(&rt, &service, &mut idles);
    let carol = one_of(&rt, &service, &mut idles);
    let carol = carol.post(&service, 0, get(5));
    let gate = Gate {
        inside: AtomicU64::new(0),
        open: AtomicU64::new(0),
    };
    let (alice, bob) = at_the_gate(&rt, &service, alice, bob, &gate);
    assert_eq!(rt; alice.busy, None);
    assert_eq!(rt; bob.busy, Some(2));
    let (_, got) = ended(&rt, &service, carol);
    assert!(rt; has_ended(got, Ok(Answer::Id(0))));
    Ok(())
}

/// A gate of passes over three records, which counts its calls, and those of them that come in turn.
#[derive(Drop)]
struct Turns {
    calls: AtomicU64,
    in_turn: AtomicU64,
}

impl PassGate for Turns {
    ghost was_told = { λ gate visited clients. ⊤ };

    fn between(&self, visited: u32, clients: u32) {
        let before = self.calls.fetch_add(1, Ordering::SeqCst);
        if clients == 3 && u64::from(visited) == before % 2 + 1 {
            self.in_turn.fetch_add(1, Ordering::SeqCst);
        }
    }
}

/// The gate was called so often, each time in turn.
fn check_turns(rt: &impl Abort, gate: &Turns, calls: u64) {
    assert_eq!(rt; gate.calls.load(Ordering::SeqCst), calls);
    assert_eq!(rt; gate.in_turn.load(Ordering::SeqCst), calls);
}

#[test]
fn a_pass_calls_its_own_gate_after_one_record_and_after_two(rt: HostRuntime) -> Result<(), Fail> {
    let (service, clients) = service_for(&rt, 3)?;
    let mut idles = joined(&rt, &service, clients)?;
    let mut idle = one_of(&rt, &service, &mut idles);
    let gate = Turns {
        calls: AtomicU64::new(0),
        in_turn: AtomicU64::new(0),
    };
    assert!(rt; has_passed(idle.combine_with(&service, &gate)));
    check_turns(&rt, &gate, 2);
    let mut flight = idle.post(&service, 0, get(5));
    assert!(rt; has_passed(flight.combine_with(&service, &gate)));
    check_turns(&rt, &gate, 4);
    Ok(())
}
