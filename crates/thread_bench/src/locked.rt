//! Measurements of a namespace alone, and of a mutex round one, beside those of the service.

use crate::asking::{Asker, Made, Patience, Task, Took, calls_each};
use crossbeam_utils::Backoff;
use ipc_call::{Call, Reply};
use ipc_space::{Effects, Space};
use std::alloc::AllocError;
use std::sync::{Mutex, Wait};
use std::thread::Threads;
use std::time::Instant;
use std::{io, thread};
use test_support::clients::few_users;
use test_support::measuring::{Run, unanswered, widest_limits};

/// How often a client asks for a message, or for the lock, before it gives up.
const TURNS: u64 = 10_000_000;

/// A client by its number, and its calls.
#[derive(Debug, Drop)]
struct Worker {
    client: u32,
    asker: Asker,
}

/// One call of a client: its reply, none where it waits.
fn call(space: &mut Space, client: u32, asked: Call) -> Option<Reply> {
    if client >= space.clients() || space.is_waiting(client) {
        return None;
    }
    match space.apply(client, 0, asked) {
        Ok(Effects { own, .. }) => own,
        Err(_) => None,
    }
}

/// A client makes what it needs.
fn begin(rt: &HostRuntime, space: &mut Space, task: Task, client: u32) -> io::Result<Worker> {
    let mut asker = Asker::new(
        rt.alloc(),
        task,
        Patience::AsksAgain,
        client,
        space.clients(),
    )?;
    for made in [Made::Queue, Made::Set, Made::Segment] {
        let reply = call(space, client, asker.making(made)).ok_or(unanswered())?;
        if !asker.take_made(made, reply) {
            return Err(unanswered());
        }
    }
    Ok(Worker { client, asker })
}

/// Each of so many clients makes what it needs.
fn begun(rt: &HostRuntime, space: &mut Space, task: Task, clients: u32) -> io::Result<Vec<Worker>> {
    let mut workers = Vec::new(rt.alloc());
    for client in 0..clients {
        workers.push(begin(rt, space, task, client)?)?;
    }
    Ok(workers)
}

/// One call of a client, with no lock: whether it was answered as it should be.
fn ask(space: &mut Space, client: u32, asker: &mut Asker) -> Took {
    let Ok(asked) = asker.next() else {
        return Took::Unwanted;
    };
    match call(space, client, asked) {
        Some(reply) => asker.take(reply),
        None => Took::Unwanted,
    }
}

/// So many calls of a client, with no lock: how many were answered as they should be.
fn ask_alone(space: &mut Space, mut asker: Asker, calls: u32) -> u32 {
    let mut answered: u32 = 0;
    for _ in 0..calls {
        answered = answered.wrapping_add(u32::from(ask(space, 0, &mut asker) == Took::Wanted));
    }
    answered
}

/// One call of a client under the mutex, again and again while it has to wait.
fn ask_locked<R: Wait>(rt: &R, space: &Mutex<Space>, client: u32, asker: &mut Asker) -> Took {
    let backoff = Backoff::new();
    for _ in 0..TURNS {
        let Ok(asked) = asker.next() else {
            return Took::Unwanted;
        };
        let reply = call(&mut space.lock(rt), client, asked);
        match reply.map(|reply| asker.take(reply)) {
            Some(Took::NotYet) => backoff.snooze(),
            Some(took) => return took,
            None => return Took::Unwanted,
        }
    }
    Took::NotYet
}

/// So many calls of a client, each under the lock: how many were answered as they should be.
fn ask_often<R: Wait>(rt: &R, space: &Mutex<Space>, worker: Worker, calls: u32) -> u32 {
    let Worker { client, mut asker } = worker;
    let mut answered: u32 = 0;
    for _ in 0..calls {
        let took = ask_locked(rt, space, client, &mut asker);
        answered = answered.wrapping_add(u32::from(took == Took::Wanted));
    }
    answered
}

/// Each client makes so many calls under the lock, in a thread of its own: how many of each were answered as
/// they should.
fn asked<R: Threads + Wait + Sync>(
    rt: &R,
    space: &Mutex<Space>,
    workers: Vec<Worker>,
    calls: u32,
) -> Result<Vec<u32>, AllocError> {
    thread::map_vec(
        rt,
        workers,
        &|worker: Worker| -> u32 { ask_often(rt, space, worker, calls) },
    )
}

/// Times so many calls of client 0.
fn time_alone(rt: &HostRuntime, space: &mut Space, task: Task, calls: u32) -> io::Result<Run> {
    let Worker { asker, .. } = begin(rt, space, task, 0)?;
    let start = Instant::now(rt)?;
    let answered = ask_alone(space, asker, calls);
    Run::of_each(rt, start, calls, &[answered])
}

/// A namespace of so many clients, 1 to 64.
fn opened(rt: &HostRuntime, clients: u32) -> io::Result<Space> {
    Ok(Space::start(widest_limits(), few_users(rt.alloc(), clients)?)?)
}

/// One client of a namespace makes so many calls.
pub fn of_space(rt: &HostRuntime, task: Task, calls: u32) -> io::Result<Run> {
    let mut space = opened(rt, 1)?;
    let run = time_alone(rt, &mut space, task, calls);
    drop(space);
    run
}

/// A namespace of so many clients under a mutex, in which each has made what it needs.
fn shared(rt: &HostRuntime, task: Task, clients: u32) -> io::Result<(Mutex<Space>, Vec<Worker>)> {
    let mut space = opened(rt, clients)?;
    match begun(rt, &mut space, task, clients) {
        Ok(workers) => Ok((Mutex::new(space), workers)),
        Err(error) => {
            drop(space);
            Err(error)
        }
    }
}

/// So many clients of a namespace under a mutex make as many calls together, each in a thread of its own.
pub fn of_mutex<W: Threads + Wait + Sync>(
    rt: &HostRuntime,
    threads: &W,
    task: Task,
    clients: u32,
    calls: u32,
) -> io::Result<Run> {
    let each = calls_each(calls, clients);
    let (space, workers) = shared(rt, task, clients)?;
    let start = Instant::now(rt)?;
    let answered = asked(threads, &space, workers, each)?;
    Run::of_each(rt, start, each, answered.as_slice())
}
