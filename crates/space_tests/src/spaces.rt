// Worked calls, with the replies that they must have.

use bitflags::Flags;
use ipc_call::{Answer, Call, Kind, Limits, Outcome, Reply, Rule};
use ipc_creds::{Caps, Creds};
use ipc_space::{Effects, Space};
use std::process::Abort;
use std::test::Fail;
use test_support::clients::user;

const ALICE: u32 = 0;

const DAVE: u32 = 1;

/// A call, and the outcome that it must have.
#[derive(Debug, Drop)]
struct Worked {
    client: u32,
    now: u64,
    call: Call,
    wanted: Outcome,
}

fn get(client: u32, now: u64, key: u32, flags: u32, wanted: Outcome) -> Worked {
    let call = Call::MsgGet { key, flags };
    Worked {
        client,
        now,
        call,
        wanted,
    }
}

/// A call at the start of the clock.
fn at_once(client: u32, call: Call, wanted: Outcome) -> Worked {
    Worked {
        client,
        now: 0,
        call,
        wanted,
    }
}

fn remove(client: u32, id: u32, wanted: Outcome) -> Worked {
    let kind = Kind::Queue;
    at_once(client, Call::IpcRmid { kind, id }, wanted)
}

fn fork(child: u32, pid: u32, wanted: Outcome) -> Worked {
    at_once(ALICE, Call::Fork { child, pid }, wanted)
}

/// Alice is 100:10, and dave is 300:30 with the supplementary group 10.
fn users(rt: &(impl Abort + AllocGlobal)) -> Result<Vec<Creds>, Fail> {
    let alloc = rt.alloc();
    let mut clients = Vec::new(alloc);
    clients.push(user(100, 10))?;
    clients.push(Creds::new(300, 30, &[10], Caps::empty()))?;
    Ok(clients)
}

/// A namespace of alice and dave.
fn space_with(rt: &(impl Abort + AllocGlobal), limits: Limits) -> Result<Space, Fail> {
    assert!(rt; limits.in_range());
    let clients = users(rt)?;
    assert_eq!(rt; clients.len(), 2);
    Ok(Space::start(limits, clients)?)
}

fn effects_of(
    rt: &impl Abort,
    space: &mut Space,
    client: u32,
    now: u64,
    call: Call,
) -> Result<Effects, Fail> {
    assert!(rt; client < space.clients());
    assert!(rt; !space.is_waiting(client));
    let effects = space.apply(client, now, call)?;
    Ok(effects)
}

/// The call was the event at this place, and ended so.
fn check_reply(rt: &impl Abort, reply: &Reply, place: u64, wanted: &Outcome) {
    let Reply::Entered {
        place: told,
        turn,
        outcome,
    } = reply
    else {
        panic!(rt; "no event at {place}");
    };
    assert_eq!(rt; (*told, *turn), (place, 0));
    assert_eq!(rt; outcome, wanted, "at {place}");
}

/// The call was the event at this place, ended so, and ended no waiting call.
fn check_effects(rt: &impl Abort, effects: &Effects, place: u64, wanted: &Outcome) {
    assert_eq!(rt; effects.place, place);
    assert_eq!(rt; effects.others.len(), 0, "at {place}");
    match &effects.own {
        Some(reply) => check_reply(rt, reply, place, wanted),
        None => panic!(rt; "no reply at {place}"),
    }
}

/// Makes a call, which must be the event at this place, and end no waiting call.
fn make(rt: &impl Abort, space: &mut Space, place: u64, worked: &Worked) -> Result<(), Fail> {
    let call = worked.call.copy()?;
    let effects = effects_of(rt, space, worked.client, worked.now, call)?;
    check_effects(rt, &effects, place, &worked.wanted);
    drop(effects);
    Ok(())
}

/// Makes these calls in a namespace that has served none. Its clock never goes back.
fn make_in(rt: &impl Abort, space: &mut Space, calls: &[Worked]) -> Result<(), Fail> {
    let mut place: u64 = 0;
    let mut clock: u64 = 0;
    for worked in calls {
        place = place.wrapping_add(1);
        clock = clock.max(worked.now);
        make(rt, space, place, worked)?;
        assert_eq!(rt; space.clock(), clock, "at {place}");
    }
    Ok(())
}

/// Makes these calls, the first of a namespace with these limits.
fn make_each(
    rt: &(impl Abort + AllocGlobal),
    limits: Limits,
    calls: &[Worked],
) -> Result<(), Fail> {
    let mut space = space_with(rt, limits)?;
    let made = make_in(rt, &mut space, calls);
    drop(space);
    made
}

#[test]
fn a_removed_queue_is_gone(rt: HostRuntime) -> Result<(), Fail> {
    let calls = [
        get(ALICE, 0, 5, 0o1666, Ok(Answer::Id(0))),
        remove(DAVE, 0, Err(Rule::NotOwner)),
        remove(ALICE, 0, Ok(Answer::Done)),
        remove(ALICE, 0, Err(Rule::BadId)),
    ];
    make_each(&rt, Limits::default(), &calls)
}

#[test]
fn a_get_asks_its_bits_of_the_group(rt: HostRuntime) -> Result<(), Fail> {
    let calls = [
        get(ALICE, 0, 5, 0o1640, Ok(Answer::Id(0))),
        get(DAVE, 0, 5, 0o040, Ok(Answer::Id(0))),
        get(DAVE, 0, 5, 0o020, Err(Rule::GroupBits)),
        get(DAVE, 0, 5, 0, Ok(Answer::Id(0))),
        get(DAVE, 0, 6, 0, Err(Rule::NoKey)),
        get(ALICE, 0, 5, 0o3640, Err(Rule::KeyExists)),
    ];
    make_each(&rt, Limits::default(), &calls)
}

#[test]
fn a_private_key_makes_a_queue_each_time(rt: HostRuntime) -> Result<(), Fail> {
    let limits = Limits {
        queues: 2,
        first_seq: 65535,
        ..Limits::default()
    };
    let calls = [
        get(ALICE, 0, 0, 0o600, Ok(Answer::Id(2_147_450_880))),
        get(ALICE, 0, 0, 0o600, Ok(Answer::Id(2_147_450_881))),
        get(ALICE, 0, 0, 0o600, Err(Rule::NoSlot)),
    ];
    make_each(&rt, limits, &calls)
}

#[test]
fn the_clock_never_goes_back(rt: HostRuntime) -> Result<(), Fail> {
    let calls = [
        get(ALICE, 50, 5, 0o3600, Ok(Answer::Id(0))),
        get(DAVE, 20, 6, 0, Err(Rule::NoKey)),
        get(DAVE, 60, 6, 0, Err(Rule::NoKey)),
    ];
    make_each(&rt, Limits::default(), &calls)
}

#[test]
fn a_client_that_there_is_not_is_not_taken(rt: HostRuntime) -> Result<(), Fail> {
    let calls = [
        fork(2, 0, Err(Rule::BadPid)),
        fork(2, 2, Err(Rule::NoClient)),
        fork(u32::MAX, 9, Err(Rule::NoClient)),
        at_once(ALICE, Call::Clone { child: 2 }, Err(Rule::NoClient)),
        at_once(
            ALICE,
            Call::InterruptThread { client: 2 },
            Err(Rule::NoClient),
        ),
        fork(DAVE, 9, Err(Rule::ClientInUse)),
        at_once(DAVE, Call::Exit, Ok(Answer::Done)),
        fork(DAVE, 9, Ok(Answer::Done)),
    ];
    make_each(&rt, Limits::default(), &calls)
}
