//! Each client's jobs in a thread of its own.
ghost use Rattle.std.specs.Prelude.{◌≡◌, ◌≤◌, All, count_by, length, map, vec_len, IfOk, IsTrue};
ghost use Rattle.std.specs.List.{zip};
ghost use Rattle.ipc_call.specs.Limits.{are_in_range};
ghost use Rattle.ipc_history.specs.History.{IsLegal};
ghost use Rattle.ipc_combiner.specs.States.{IsUnjoinedOf};
ghost use Rattle.ipc_jobs.specs.Courses.{AreCounts, HaveGone};
ghost use Rattle.ipc_jobs.specs.Working.{AreEnds, IsEndOf, client_of, worker_of};

use crate::counting::{Counts, counts_of};
use crate::gates::Gate;
use crate::working::{Ended, Worker, work};
use ipc_call::{Limits, Memory};
use ipc_combiner::{Client, Service, Unjoined};
use ipc_commands::Job;
use ipc_creds::Creds;
use ipc_space::Space;
use std::alloc::Global;
use std::sync::Wait;
use std::thread;
use std::thread::Threads;

/// What the threads leave behind.
#[derive(Debug, Drop)]
pub struct ThreadsEnd {
    /// The namespace, with the journal of all calls.
    pub space: Space,
    /// How many calls of each client ended in which way.
    pub counts: Vec<Counts>,
    /// How many clients the gate stopped.
    pub held: u32,
}

/// Opens a service, with limits as for `Service::start` and a list of jobs for each client; lets each client do its jobs
/// in a thread of its own, one call after another; joins the threads and closes the service. Where no more threads can
/// be started, those that run do the jobs of several clients, one client after another. Memory (ENOMEM) is for an
/// allocation that fails outside the calls; the threads that were started are joined first. It may never return: a call
/// that waits ends by another client's call alone.
pub fn run_threads<R: Threads + Sync + Wait, G: Gate + Sync>(
    rt: &R,
    alloc: Global,
    limits: Limits,
    creds: Vec<Creds>,
    jobs: Vec<Vec<Job>>,
    gate: &G,
) -> Result<ThreadsEnd, Memory>
    requires limits { IsTrue (are_in_range limits) }
    requires some { 1 ≤ vec_len creds }
    requires few { vec_len creds ≤ 64 }
    requires jobs { vec_len jobs ≡ vec_len creds }
    ensures opening { IfOk result (λ end. (end.space.limits ≡ limits) × (end.space.clients ≡ creds.items)) }
    ensures legal { IfOk result (λ end. IsLegal end.space) }
    ensures courses { IfOk result (λ end. HaveGone (G.may_hold gate.now) (G.was_told gate.now) end.space (map (λ own. own.items) jobs.items) end.held end.counts.items) }
    ensures counts { IfOk result (λ end. AreCounts end.space end.counts.items) }
{
    let (service, clients) = Service::start(alloc, limits, creds)?;
    let workers = workers_of(alloc, clients, jobs)?;
    let ended = work_all(rt, &service, gate, workers)?;
    let held = count_held(&ended);
    let memory = memory_of(alloc, &ended)?;
    let space = service.close(clients_of(alloc, ended)?);
    counted(alloc, space, memory.as_slice(), held)
}

// The namespace with what each client has in its journal.
fn counted(alloc: Global, space: Space, memory: &[u64], held: u32) -> Result<ThreadsEnd, Memory>
    requires { length memory.now ≡ length space.clients }
    ensures same { IfOk result (λ end. (end.space ≡ space) × (end.held ≡ held)) }
    ensures counts { IfOk result (λ end. AreCounts end.space end.counts.items) }
    ensures memory { IfOk result (λ end. map (λ n. n.memory) end.counts.items ≡ memory.now) }
{
    match counts_of(alloc, &space, memory) {
        Ok(counts) => Ok(ThreadsEnd {
            space,
            counts,
            held,
        }),
        Err(memory) => {
            drop(space);
            Err(memory)
        }
    }
}

// Each client with its jobs.
fn workers_of(
    alloc: Global,
    clients: Vec<Unjoined>,
    jobs: Vec<Vec<Job>>,
) -> Result<Vec<Worker>, Memory>
    ensures { IfOk result (λ workers. workers.items ≡ map worker_of (zip clients.items jobs.items)) }
{
    clients
        .into_iter()
        .zip(jobs)
        .map(|(client, jobs)| Worker { client, jobs })
        .collect(alloc)
}

// Each client works in a thread of its own.
fn work_all<R: Threads + Sync + Wait, G: Gate + Sync>(
    rt: &R,
    service: &Service,
    gate: &G,
    workers: Vec<Worker>,
) -> Result<Vec<Ended>, Memory>
    requires { All (λ w. IsUnjoinedOf service.now.list w.client.fresh) workers.items }
    ensures { IfOk result (λ ended. AreEnds (G.may_hold gate.now) (G.was_told gate.now) service.now.list workers.items ended.items) }
{
    thread::map_vec(
        rt,
        workers,
        &|worker: Worker| -> Ended
            requires { IsUnjoinedOf service.now.list worker.client.fresh }
            ensures { IsEndOf (G.may_hold gate.entry.now) (G.was_told gate.entry.now) service.entry.now.list worker result }
        { work(rt, service, gate, worker) },
    )
}

fn count_held(ended: &[Ended]) -> u32
    requires { length ended.now ≤ 64 }
    ensures { result ≡ count_by (λ e. e.held) ended.now }
{
    let mut held: u32 = 0;
    for client in ended {
        if client.held {
            held += 1;
        }
    }
    held
}

// For how many calls of each client an allocation failed.
fn memory_of(alloc: Global, ended: &[Ended]) -> Result<Vec<u64>, Memory>
    ensures { IfOk result (λ memory. memory.items ≡ map (λ e. e.caller.memory) ended.now) }
{
    let mut memory = Vec::new(alloc);
    for client in ended {
        memory.push(client.caller.memory)?;
    }
    Ok(memory)
}

// The clients, to be handed in as the service is closed.
fn clients_of(alloc: Global, ended: Vec<Ended>) -> Result<Vec<Client>, Memory>
    ensures { IfOk result (λ clients. clients.items ≡ map client_of ended.items) }
{
    ended
        .into_iter()
        .map(|client| Client::Idle(client.caller.idle))
        .collect(alloc)
}
