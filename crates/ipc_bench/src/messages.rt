// Measurements of messages and of calls that wait for them, through a whole namespace and its journal.

use crate::spaces::{answer, done, effects, in_space, in_spaces, msgget, wait};
use ipc_call::{Answer, Call, IPC_NOWAIT, Items};
use ipc_space::{Effects, Space};
use std::alloc::Global;
use std::io;
use std::time::{Clock, Instant};
use test_support::calls::answer_in;
use test_support::measuring::{Numbers, Run, unanswered};

/// The type of the messages that are received.
const LAST: i64 = 2;

/// The type of those that stand before them.
const BEFORE: i64 = 1;

/// How a text goes from client to client.
#[derive(Clone, Copy, Debug)]
pub(crate) enum Way {
    /// A client sends it to an empty queue, and receives it.
    Queue,
    /// A client waits for it, and another sends it.
    Receiver,
}

/// Sends a text to a queue.
fn send(space: &mut Space, id: u32, mtype: i64, text: Items<u8>) -> io::Result<()> {
    let call = Call::MsgSnd {
        id,
        mtype,
        text,
        flags: IPC_NOWAIT,
    };
    done(space, call)
}

/// Receives the first text of a type from a queue.
fn receive(space: &mut Space, id: u32, msgtyp: i64) -> io::Result<Items<u8>> {
    let call = Call::MsgRcv {
        id,
        size: u64::MAX,
        msgtyp,
        flags: IPC_NOWAIT,
    };
    match answer(space, call) {
        Some(Answer::Message { text, .. }) => Ok(text),
        _ => Err(unanswered()),
    }
}

/// A client begins to wait for a message of a queue.
fn wait_for_any(space: &mut Space, client: u32, id: u32) -> io::Result<()> {
    let call = Call::MsgRcv {
        id,
        size: u64::MAX,
        msgtyp: 0,
        flags: 0,
    };
    wait(space, client, call)
}

/// Client 0 sends a text for which another client waits: the text that it gets.
fn hand_over(space: &mut Space, id: u32, text: Items<u8>) -> io::Result<Items<u8>> {
    let call = Call::MsgSnd {
        id,
        mtype: LAST,
        text,
        flags: 0,
    };
    let Effects { mut others, .. } = effects(space, 0, call)?;
    match others.pop().and_then(|(_, reply)| answer_in(reply)) {
        Some(Answer::Message { text, .. }) => Ok(text),
        _ => Err(unanswered()),
    }
}

/// Sends a text to an empty queue and receives it, so many times: the text at the end.
fn send_and_receive(
    space: &mut Space,
    id: u32,
    mut text: Items<u8>,
    passes: u32,
) -> io::Result<Items<u8>> {
    for _ in 0..passes {
        send(space, id, LAST, text)?;
        text = receive(space, id, LAST)?;
    }
    Ok(text)
}

/// Client 1 begins to wait and client 0 sends it a text, so many times: the text at the end.
fn wait_and_send(
    space: &mut Space,
    id: u32,
    mut text: Items<u8>,
    passes: u32,
) -> io::Result<Items<u8>> {
    for _ in 0..passes {
        wait_for_any(space, 1, id)?;
        text = hand_over(space, id, text)?;
    }
    Ok(text)
}

/// Counts the times for which a text of so many bytes is passed in a namespace.
fn add_passes<R: Clock + AllocGlobal>(
    rt: &R,
    space: &mut Space,
    run: &mut Run,
    way: Way,
    bytes: u32,
    passes: u32,
) -> io::Result<()> {
    let id = msgget(space, 0, 0o600)?;
    let text = Items::new(vec![in rt.alloc(); 97u8; bytes as usize]?);
    let (start, text) = match way {
        Way::Queue => (
            Instant::now(rt)?,
            send_and_receive(space, id, text, passes)?,
        ),
        Way::Receiver => (Instant::now(rt)?, wait_and_send(space, id, text, passes)?),
    };
    run.add_time(rt, start)?;
    run.add_answer(u32::try_from(text.len()).unwrap_or(u32::MAX));
    Ok(())
}

/// Passes a text of so many bytes: the two calls that pass it count as one.
pub(crate) fn pass<R: Clock + AllocGlobal>(
    rt: &R,
    way: Way,
    bytes: u32,
    calls: u32,
) -> io::Result<Run> {
    let clients = match way {
        Way::Queue => 1,
        Way::Receiver => 2,
    };
    in_spaces(
        rt.alloc(),
        clients,
        calls,
        |space, run, passes| add_passes(rt, space, run, way, bytes, passes),
    )
}

/// Client 0 passes an empty message, while all others wait for one of another queue.
fn pass_beside_waiting<R: Clock + AllocGlobal>(
    rt: &R,
    space: &mut Space,
    calls: u32,
) -> io::Result<Run> {
    let busy = msgget(space, 0, 0o600)?;
    for client in 1..space.clients() {
        wait_for_any(space, client, busy)?;
    }
    let mut run = Run::new(calls);
    add_passes(rt, space, &mut run, Way::Queue, 0, calls)?;
    Ok(run)
}

/// Sends an empty message to a queue and receives it, while so many clients wait on another queue: a pair of
/// calls counts as one.
pub(crate) fn while_others_wait<R: Clock + AllocGlobal>(
    rt: &R,
    waiting: u32,
    calls: u32,
) -> io::Result<Run> {
    in_space(
        rt.alloc(),
        waiting.saturating_add(1),
        |space| pass_beside_waiting(rt, space, calls),
    )
}

/// Makes a queue with so many messages, of which the last alone has its type.
fn filled_queue(alloc: Global, space: &mut Space, messages: u32) -> io::Result<u32> {
    let id = msgget(space, 0, 0o600)?;
    for _ in 1..messages {
        send(space, id, BEFORE, Items::new(Vec::new(alloc)))?;
    }
    send(space, id, LAST, Items::new(Vec::new(alloc)))?;
    Ok(id)
}

/// Makes a queue with a message of each of so many types, from that of the last on.
fn queue_of_types(alloc: Global, space: &mut Space, types: u32) -> io::Result<u32> {
    let id = msgget(space, 0, 0o600)?;
    for number in 0..types {
        let mtype = LAST + i64::from(number);
        send(space, id, mtype, Items::new(Vec::new(alloc)))?;
    }
    Ok(id)
}

/// Receives a message of one of so many types from a queue and sends it again: the two calls count as one.
fn receive_and_send<R: Clock>(
    rt: &R,
    space: &mut Space,
    id: u32,
    types: u32,
    calls: u32,
) -> io::Result<Run> {
    let mut numbers = Numbers::new();
    let mut run = Run::new(calls);
    let start = Instant::now(rt)?;
    for _ in 0..calls {
        let mtype = LAST + i64::from(numbers.below(types));
        let text = receive(space, id, mtype)?;
        send(space, id, mtype, text)?;
        run.add_answer(id);
    }
    run.add_time(rt, start)?;
    Ok(run)
}

/// Receives the last of so many messages, which alone has the type that is asked for, and sends it again.
pub(crate) fn receive_last<R: Clock + AllocGlobal>(
    rt: &R,
    messages: u32,
    calls: u32,
) -> io::Result<Run> {
    in_space(rt.alloc(), 1, |space| {
        let id = filled_queue(rt.alloc(), space, messages)?;
        receive_and_send(rt, space, id, 1, calls)
    })
}

/// Receives a message of one of so many types, of which a queue has one each, and sends it again.
pub(crate) fn receive_among<R: Clock + AllocGlobal>(
    rt: &R,
    types: u32,
    calls: u32,
) -> io::Result<Run> {
    in_space(rt.alloc(), 1, |space| {
        let id = queue_of_types(rt.alloc(), space, types)?;
        receive_and_send(rt, space, id, types, calls)
    })
}
