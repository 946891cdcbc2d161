//! Measurements of the service, whose clients combine.
ghost use Rattle.std.specs.Prelude.{All, IfOk, IfSome};
ghost use Rattle.thread_bench.specs.Service.{IsClientOf, IsNewOf};

use crate::asking::{Asker, Made, Patience, Task, Took, calls_each};
use ipc_combiner::{Idle, Service, Unjoined};
use std::alloc::{AllocError, Global};
use std::sync::Wait;
use std::thread::Threads;
use std::time::Instant;
use std::{io, thread};
use test_support::clients::few_users;
use test_support::measuring::{Run, unanswered, widest_limits};

/// A client of the service, and its calls.
#[derive(Drop)]
struct Worker {
    idle: Idle,
    asker: Asker,
}

/// A client makes a queue, a set or a segment.
fn make<R: Wait>(
    rt: &R,
    service: &Service,
    idle: Idle,
    asker: &mut Asker,
    made: Made,
) -> Option<Idle>
    requires { IsClientOf service.now idle }
    ensures { IfSome result (λ idle. IsClientOf service.now idle) }
{
    let (idle, reply) = idle.call(rt, service, 0, asker.making(made));
    if asker.take_made(made, reply) {
        Some(idle)
    } else {
        None
    }
}

/// A client of so many joins, and makes what it needs.
fn begin<R: Wait>(
    rt: &R,
    service: &Service,
    unjoined: Unjoined,
    alloc: Global,
    task: Task,
    clients: u32,
) -> Option<Worker>
    requires { IsNewOf service.now unjoined }
    ensures { IfSome result (λ w. IsClientOf service.now w.idle) }
{
    let idle = unjoined.join(service);
    let mut asker = Asker::new(alloc, task, Patience::Waits, idle.client(), clients).ok()?;
    let idle = make(rt, service, idle, &mut asker, Made::Queue)?;
    let idle = make(rt, service, idle, &mut asker, Made::Set)?;
    let idle = make(rt, service, idle, &mut asker, Made::Segment)?;
    Some(Worker { idle, asker })
}

/// So many calls of a client that joined: how many were answered as they should be.
fn ask_often<R: Wait>(rt: &R, worker: Option<Worker>, service: &Service, calls: u32) -> u32
    requires { IfSome worker (λ x. IsClientOf service.now x.idle) }
{
    let Some(
        Worker {
            mut idle,
            mut asker,
        },
    ) = worker
    else {
        return 0;
    };
    let mut answered: u32 = 0;
    for _ in 0..calls {
        let Ok(asked) = asker.next() else {
            return answered;
        };
        let (next, reply) = idle.call(rt, service, 0, asked);
        idle = next;
        answered = answered.wrapping_add(u32::from(asker.take(reply) == Took::Wanted));
    }
    answered
}

/// Each client joins, in a thread of its own.
fn begun<R: Threads + Wait + Sync>(
    rt: &R,
    service: &Service,
    clients: Vec<Unjoined>,
    alloc: Global,
    task: Task,
) -> Result<Vec<Option<Worker>>, AllocError>
    requires { All (λ u. IsNewOf service.now u) clients.items }
    ensures { IfOk result (λ m. All (λ w. IfSome w (λ x. IsClientOf service.now x.idle)) m.items) }
{
    let count = u32::try_from(clients.len()).unwrap_or(u32::MAX);
    thread::map_vec(
        rt,
        clients,
        &|unjoined: Unjoined| -> Option<Worker>
            requires { IsNewOf service.now unjoined }
            ensures { IfSome result (λ x. IsClientOf service.entry.now x.idle) }
        { begin(rt, service, unjoined, alloc, task, count) },
    )
}

/// Each client makes so many calls, in a thread of its own: how many of each were answered as they should.
fn asked<R: Threads + Wait + Sync>(
    rt: &R,
    service: &Service,
    workers: Vec<Option<Worker>>,
    calls: u32,
) -> Result<Vec<u32>, AllocError>
    requires { All (λ w. IfSome w (λ x. IsClientOf service.now x.idle)) workers.items }
{
    thread::map_vec(
        rt,
        workers,
        &|worker: Option<Worker>| -> u32
            requires { IfSome worker (λ x. IsClientOf service.now x.idle) }
        { ask_often(rt, worker, service, calls) },
    )
}

/// A service for so many clients, 1 to 64.
fn started(rt: &HostRuntime, clients: u32) -> io::Result<(Service, Vec<Unjoined>)>
    ensures { IfOk result (λ m. All (λ u. IsNewOf m.0 u) m.1.items) }
{
    let all = few_users(rt.alloc(), clients)?;
    Ok(Service::start(rt.alloc(), widest_limits(), all)?)
}

/// So many clients of the service make as many calls together, each in a thread of its own.
pub fn of_service<W: Threads + Wait + Sync>(
    rt: &HostRuntime,
    threads: &W,
    task: Task,
    clients: u32,
    calls: u32,
) -> io::Result<Run> {
    let each = calls_each(calls, clients);
    let (service, unjoined) = started(rt, clients)?;
    let workers = begun(threads, &service, unjoined, rt.alloc(), task)?;
    let start = Instant::now(rt)?;
    let answered = asked(threads, &service, workers, each)?;
    Run::of_each(rt, start, each, answered.as_slice())
}

/// One client of so many that joined makes all calls; the others ask nothing.
pub fn among_idle<W: Threads + Wait + Sync>(
    rt: &HostRuntime,
    threads: &W,
    task: Task,
    clients: u32,
    calls: u32,
) -> io::Result<Run> {
    let (service, unjoined) = started(rt, clients)?;
    let mut workers = begun(threads, &service, unjoined, rt.alloc(), task)?;
    let Some(worker) = workers.pop() else {
        return Err(unanswered());
    };
    let start = Instant::now(rt)?;
    let answered = ask_often(threads, worker, &service, calls);
    Run::of_each(rt, start, calls, &[answered])
}
