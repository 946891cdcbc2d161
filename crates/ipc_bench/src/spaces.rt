// A whole namespace: its clients, their calls and the answers, and what a msgget, an IPC_STAT, a denied call and a
// listing take.

use ipc_call::{Answer, Call, IPC_CREAT, IPC_NOWAIT, Kind};
use ipc_space::{Effects, Space};
use std::alloc::{AllocError, Global};
use std::io;
use std::time::{Clock, Instant};
use test_support::calls::answer_in;
use test_support::clients::few_users;
use test_support::measuring::{KEPT, Numbers, Run, key_of, unanswered, widest_limits};

/// Measures in a namespace of its own, of so many clients of one user, 1 to 64, with as many slots as there may be.
pub(crate) fn in_space<T, Measure: FnOnce(&mut Space) -> io::Result<T>>(
    alloc: Global,
    clients: u32,
    measure: Measure,
) -> io::Result<T>
    requires { Measure.IsAlwaysCallable measure }
{
    let mut space = Space::start(widest_limits(), few_users(alloc, clients)?)?;
    let measured = measure(&mut space);
    drop(space);
    measured
}

/// Measures so many calls in such namespaces, at most `KEPT` in each.
pub(crate) fn in_spaces<Add: Fn(&mut Space, &mut Run, u32) -> io::Result<()>>(
    alloc: Global,
    clients: u32,
    calls: u32,
    add: Add,
) -> io::Result<Run>
    requires { Add.IsAlwaysCallable add }
{
    let mut run = Run::new(calls);
    for _ in 0..calls / KEPT {
        in_space(alloc, clients, |space| add(space, &mut run, KEPT))?;
    }
    in_space(alloc, clients, |space| add(space, &mut run, calls % KEPT))?;
    Ok(run)
}

/// What a call of a client tells. It is as where memory fails where there is no such client or it waits.
#[inline(always)]
pub(crate) fn effects(space: &mut Space, client: u32, call: Call) -> Result<Effects, AllocError> {
    if client >= space.clients() || space.is_waiting(client) {
        drop(call);
        return Err(AllocError);
    }
    space.apply(client, 0, call)
}

/// The answer to a call of client 0, None where it isn't served.
#[inline(always)]
pub(crate) fn answer(space: &mut Space, call: Call) -> Option<Answer> {
    let Effects { own, .. } = effects(space, 0, call).ok()?;
    own.and_then(answer_in)
}

/// Client 0 makes a call that is answered with nothing.
pub(crate) fn done(space: &mut Space, call: Call) -> io::Result<()> {
    match answer(space, call) {
        Some(Answer::Done) => Ok(()),
        _ => Err(unanswered()),
    }
}

/// A client makes a call that waits.
pub(crate) fn wait(space: &mut Space, client: u32, call: Call) -> io::Result<()> {
    effects(space, client, call)?;
    if space.is_waiting(client) {
        Ok(())
    } else {
        Err(unanswered())
    }
}

/// One msgget of client 0.
pub(crate) fn msgget(space: &mut Space, key: u32, flags: u32) -> io::Result<u32> {
    match answer(space, Call::MsgGet { key, flags }) {
        Some(Answer::Id(id)) => Ok(id),
        _ => Ok(u32::MAX),
    }
}

/// Makes so many queues, each with a key.
fn make_queues(space: &mut Space, size: u32) -> io::Result<()> {
    for number in 0..size {
        msgget(space, key_of(number), IPC_CREAT | 0o600)?;
    }
    Ok(())
}

/// Makes so many queues, and gets them by their keys.
fn get_each<R: Clock + AllocGlobal>(
    rt: &R,
    space: &mut Space,
    size: u32,
    calls: u32,
) -> io::Result<Run> {
    make_queues(space, size)?;
    let mut numbers = Numbers::new();
    let mut run = Run::new(calls);
    let start = Instant::now(rt)?;
    for _ in 0..calls {
        run.add_answer(msgget(space, key_of(numbers.below(size)), 0o600)?);
    }
    run.add_time(rt, start)?;
    Ok(run)
}

/// Gets the queues of keys that are there.
pub(crate) fn get_of_a_key<R: Clock + AllocGlobal>(
    rt: &R,
    size: u32,
    calls: u32,
) -> io::Result<Run> {
    in_space(rt.alloc(), 1, |space| get_each(rt, space, size, calls))
}

/// What is asked of one queue again and again.
#[derive(Clone, Copy, Debug)]
pub(crate) enum Asked {
    /// Its status: IPC_STAT.
    Status,
    /// A message, of a queue whose permission bits deny it to its owner.
    Denied,
}

impl Asked {
    fn mode(self) -> u32 {
        match self {
            Asked::Status => 0o600,
            Asked::Denied => 0,
        }
    }

    fn call(self, id: u32) -> Call {
        match self {
            Asked::Status => Call::IpcStat {
                kind: Kind::Queue,
                id,
            },
            Asked::Denied => Call::MsgRcv {
                id,
                size: u64::MAX,
                msgtyp: 0,
                flags: IPC_NOWAIT,
            },
        }
    }

    /// Asks it so many times.
    fn ask_each<R: Clock>(self, rt: &R, space: &mut Space, calls: u32) -> io::Result<Run> {
        let id = msgget(space, 0, self.mode())?;
        let mut run = Run::new(calls);
        let start = Instant::now(rt)?;
        for _ in 0..calls {
            let is_answered = answer(space, self.call(id)).is_some();
            run.add_answer(u32::from(is_answered));
        }
        run.add_time(rt, start)?;
        Ok(run)
    }

    /// Asks it so many times in a namespace of its own.
    pub(crate) fn ask<R: Clock + AllocGlobal>(self, rt: &R, calls: u32) -> io::Result<Run> {
        in_space(rt.alloc(), 1, |space| self.ask_each(rt, space, calls))
    }
}

/// How many queues client 0 is shown.
fn shown(space: &mut Space) -> io::Result<u32> {
    match answer(space, Call::Listing { kind: Kind::Queue }) {
        Some(Answer::Rows(rows)) => Ok(u32::try_from(rows.len()).unwrap_or(u32::MAX)),
        _ => Err(unanswered()),
    }
}

/// Makes so many queues, and lists them.
fn list_each<R: Clock + AllocGlobal>(
    rt: &R,
    space: &mut Space,
    size: u32,
    calls: u32,
) -> io::Result<Run> {
    make_queues(space, size)?;
    let mut run = Run::new(calls);
    let start = Instant::now(rt)?;
    for _ in 0..calls {
        run.add_answer(shown(space)?);
    }
    run.add_time(rt, start)?;
    Ok(run)
}

/// Lists the queues that there are: so many rows in all, in one listing at least.
pub(crate) fn list<R: Clock + AllocGlobal>(rt: &R, size: u32, rows: u32) -> io::Result<Run> {
    in_space(
        rt.alloc(),
        1,
        |space| list_each(rt, space, size, (rows / size.max(1)).max(1)),
    )
}
