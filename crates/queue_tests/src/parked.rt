// Worked lists of calls that wait.

use ipc_call::{Call, Items, Kind};
use ipc_parked::{Arrival, Parked, Touched, waits_on};
use std::process::Abort;
use std::test::Fail;
use test_support::calls::receive;

/// What is done with a list of calls that wait.
#[derive(Clone, Copy, Debug, Drop)]
enum Step {
    /// A client waits for a message of a queue, from the event at a place on: how many wait then.
    Park(u32, u64, u32),
    /// A client waits for a message of queue 7, until a second of the clock: how many wait then.
    ParkUntil(u32, u64),
    /// The client's call leaves the list: how many are left.
    Finish(u32),
    /// The place of the event that brought the client's call.
    PlaceOf(u32),
    /// The client at an index in order of arrival.
    Nth(usize),
    /// The earliest that waits at a queue, of the clients from one on.
    AtQueue(u32, u32),
    /// The earliest that waits at a semaphore set.
    AtSet(u32),
    /// The client at an index among those that wait at a queue.
    NthAtQueue(u32, usize),
    /// The earliest whose deadline is reached at a second of the clock.
    Due(u64),
}

fn park(
    parked: &mut Parked,
    client: u32,
    place: u64,
    id: u32,
    deadline: Option<u64>,
) -> Result<(), Fail> {
    if parked.is_waiting(client) {
        return Err(Fail::from("it waits"));
    }
    let arrival = Arrival {
        place,
        call: receive(id, 0),
        deadline,
    };
    parked.park(client, arrival)?;
    Ok(())
}

/// Ends the call of a client, which is the one that waits.
fn finish(rt: &impl Abort, parked: &mut Parked, client: u32) {
    if parked.is_waiting(client) {
        let told = parked.call_of(client).copy();
        let call = parked.finish(client);
        assert!(rt; told.is_ok_and(|told| told == call));
    }
}

/// The earliest of these clients that waits at an object.
fn at_object(parked: &Parked, kind: Kind, id: u32, least: u32) -> Option<u32> {
    parked.on_object(kind, id, |client, _| least <= client)
}

fn nth_at(parked: &Parked, kind: Kind, id: u32, index: usize) -> Option<u32> {
    parked.nth_touched(Touched::Object { kind, id }, index)
}

fn nth(parked: &Parked, index: usize) -> Option<u32> {
    let (client, _) = parked.nth(index)?;
    Some(client)
}

fn place_of(parked: &Parked, client: u32) -> Option<u64> {
    let arrival = parked.get(client)?;
    Some(arrival.place)
}

/// What a step tells that changes nothing.
fn seen(parked: &Parked, step: Step) -> Option<u64> {
    let client = match step {
        Step::Nth(index) => nth(parked, index),
        Step::AtQueue(id, least) => at_object(parked, Kind::Queue, id, least),
        Step::AtSet(id) => at_object(parked, Kind::Sems, id, 0),
        Step::NthAtQueue(id, index) => nth_at(parked, Kind::Queue, id, index),
        Step::Due(clock) => parked.due(clock),
        Step::PlaceOf(client) => return place_of(parked, client),
        _ => None,
    };
    client.map(u64::from)
}

/// Does a step, and answers what it tells.
fn told(rt: &impl Abort, parked: &mut Parked, step: Step) -> Result<Option<u64>, Fail> {
    match step {
        Step::Park(client, place, id) => park(parked, client, place, id, None)?,
        Step::ParkUntil(client, deadline) => park(parked, client, 1, 7, Some(deadline))?,
        Step::Finish(client) => finish(rt, parked, client),
        _ => return Ok(seen(parked, step)),
    }
    Ok(Some(parked.len() as u64))
}

/// Does these steps, each of which must tell what stands beside it.
fn follow(rt: &impl Abort, parked: &mut Parked, steps: &[(Step, Option<u64>)]) -> Result<(), Fail> {
    for (step, wanted) in steps {
        assert_eq!(rt; told(rt, parked, *step)?, *wanted, "{step:?}");
    }
    Ok(())
}

#[test]
fn what_is_left_keeps_its_order(rt: HostRuntime) -> Result<(), Fail> {
    let mut parked = Parked::new(rt.alloc());
    let steps = [
        (Step::Nth(0), None),
        (Step::Park(5, 2, 7), Some(1)),
        (Step::Park(0, 3, 8), Some(2)),
        (Step::Park(9, 6, 7), Some(3)),
        (Step::PlaceOf(0), Some(3)),
        (Step::PlaceOf(1), None),
        (Step::PlaceOf(5), Some(2)),
        (Step::Finish(0), Some(2)),
        (Step::PlaceOf(0), None),
        (Step::Nth(0), Some(5)),
        (Step::Park(0, 7, 7), Some(3)),
        (Step::Finish(5), Some(2)),
        (Step::Nth(0), Some(9)),
        (Step::PlaceOf(0), Some(7)),
    ];
    follow(&rt, &mut parked, &steps)
}

#[test]
fn the_earliest_that_passes_is_told(rt: HostRuntime) -> Result<(), Fail> {
    let mut parked = Parked::new(rt.alloc());
    let steps = [
        (Step::Park(5, 2, 7), Some(1)),
        (Step::Park(0, 3, 8), Some(2)),
        (Step::Park(9, 6, 8), Some(3)),
        (Step::Nth(1), Some(0)),
        (Step::Nth(3), None),
        (Step::AtQueue(8, 0), Some(0)),
        (Step::AtQueue(8, 4), Some(9)),
        (Step::AtQueue(9, 0), None),
        (Step::AtSet(8), None),
        (Step::NthAtQueue(8, 0), Some(0)),
        (Step::NthAtQueue(8, 1), Some(9)),
        (Step::NthAtQueue(8, 2), None),
        (Step::NthAtQueue(7, 0), Some(5)),
        (Step::NthAtQueue(9, 0), None),
    ];
    follow(&rt, &mut parked, &steps)
}

#[test]
fn the_earliest_that_is_due_is_told(rt: HostRuntime) -> Result<(), Fail> {
    let mut parked = Parked::new(rt.alloc());
    let steps = [
        (Step::Due(u64::MAX), None),
        (Step::Park(1, 2, 7), Some(1)),
        (Step::Due(u64::MAX), None),
        (Step::ParkUntil(5, 9), Some(2)),
        (Step::ParkUntil(3, 7), Some(3)),
        (Step::ParkUntil(4, u64::MAX), Some(4)),
        (Step::Due(6), None),
        (Step::Due(7), Some(3)),
        (Step::Due(9), Some(5)),
        (Step::Finish(3), Some(3)),
        (Step::Due(8), None),
        (Step::Finish(5), Some(2)),
        (Step::Due(u64::MAX - 1), None),
        (Step::Due(u64::MAX), Some(4)),
    ];
    follow(&rt, &mut parked, &steps)
}

#[test]
fn calls_are_found_and_leave_without_memory(rt: HostRuntime) -> Result<(), Fail> {
    let mut parked = Parked::new(rt.alloc());
    let steps = [
        (Step::Park(5, 2, 7), Some(1)),
        (Step::ParkUntil(3, 9), Some(2)),
        (Step::Park(9, 6, 8), Some(3)),
    ];
    follow(&rt, &mut parked, &steps)?;
    eprintln!(rt; "quiet begins")?;
    let steps = [
        (Step::Nth(1), Some(3)),
        (Step::AtQueue(7, 0), Some(5)),
        (Step::NthAtQueue(7, 1), Some(3)),
        (Step::PlaceOf(9), Some(6)),
        (Step::Due(9), Some(3)),
        (Step::Finish(3), Some(2)),
        (Step::Due(9), None),
        (Step::Finish(5), Some(1)),
        (Step::Finish(9), Some(0)),
    ];
    follow(&rt, &mut parked, &steps)?;
    eprintln!(rt; "quiet ends")?;
    Ok(())
}

#[test]
fn a_send_and_a_receive_wait_on_their_queue(rt: HostRuntime) {
    let (id, kind) = (3, Kind::Queue);
    let send = Call::MsgSnd {
        id,
        mtype: 1,
        text: Items::new(Vec::new(rt.alloc())),
        flags: 0,
    };
    assert!(rt; waits_on(kind, 3, &send) && !waits_on(kind, 4, &send));
    assert!(rt; !waits_on(Kind::Segment, 3, &send));
    assert!(rt;
        waits_on(kind, 7, &receive(7, 0)) && !waits_on(kind, 3, &Call::IpcRmid { kind, id })
    );
}
