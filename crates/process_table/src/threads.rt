// The threads by client, with their index by pid.

ghost use Rattle.std.specs.Prelude.{◌≡◌, ℕ, ◌+◌, ◌<◌, ◌≤◌, ◌≢◌, true, false, length, map, slice_set, IfNone, IfOk, IfSome};
ghost use Rattle.ipc_model.specs.State.{first_threads, has_pid};
ghost use Rattle.ipc_model.specs.Tidy.{IsLive, thread_in};
ghost use Rattle.process_table.specs.Index.{as_ended, changed_if, client_under as client_in, under_pid};
ghost use Rattle.process_table.specs.Rows.{row_of as row_under};

use crate::rows::Rows;
use ipc_call::{Memory, Thread};
use ipc_creds::Creds;
use std::alloc::Global;
use std::marker::Model;

/// How many rows are of a pid.
const CLIENTS: u64 = 0x1_0000_0000;

/// What each client is a thread of. Contracts see the threads by client.
#[derive(Debug, Drop)]
pub(crate) struct Threads {
    items: Vec<Thread>,
    /// The pid, in the upper half, and the client of each thread that hasn't ended. There is room for all clients.
    rows: Rows,
}

impl Model for Threads {
    ghost use Rattle.std.specs.Prelude.{List};
    ghost use Rattle.ipc_model.specs.State.{Thread};
    ghost use Rattle.process_table.specs.Index.{IsIndexed};

    ghost Value = { List Thread };

    ghost view = { λ t. t.items.items };

    ghost invariant = { λ t. IsIndexed t.items.items t.rows };
}

impl Threads {
    /// Each client as the only thread of a process of its own, whose pid is the client's number plus 1. Memory comes where an
    /// allocation fails.
    pub(crate) fn new(alloc: Global, clients: &[Creds]) -> Result<Threads, Memory>
        requires few { length clients.now ≤ 4096 }
        ensures { IfOk result (λ threads. threads ≡ first_threads 0 clients.now) }
    {
        let mut items = Vec::with_capacity(alloc, clients.len())?;
        let mut rows = Rows::with_capacity(alloc, clients.len())?;
        for client in 0..clients.len() {
            let pid = client as u32 + 1;
            items.push(Thread {
                process: client as u64,
                pid,
                has_ended: false,
            })?;
            rows.add(row_of(pid, client as u32));
        }
        Ok(Threads { items, rows })
    }

    /// The clients' threads.
    pub(crate) fn as_slice(&self) -> &[Thread]
        ensures { result.now ≡ self.now }
    {
        self.items.as_slice()
    }

    /// The client's thread.
    pub(crate) fn get(&self, client: u32) -> Thread
        requires { client < length self.now }
        ensures { result ≡ thread_in self.now client }
    {
        self.items[client as usize]
    }

    /// The first client from this one on that is a thread of the process of a pid.
    pub(crate) fn next_with_pid(&self, pid: u32, from: u32) -> Option<u32>
        ensures none { IfNone result ((c : ℕ) → from ≤ c → has_pid pid (thread_in self.now c) ≡ false) }
        ensures there { IfSome result (λ client. has_pid pid (thread_in self.now client) ≡ true) }
        ensures from { IfSome result (λ client. from ≤ client) }
        ensures least { IfSome result (λ client. (c : ℕ) → from ≤ c → c < client → has_pid pid (thread_in self.now c) ≡ false) }
    {
        match self.rows.next(row_of(pid, from)) {
            None => None,
            Some(row) => client_under(pid, row),
        }
    }

    /// The client, whose thread has ended, is this thread from now on.
    pub(crate) fn put(&mut self, client: u32, thread: Thread)
        requires known { client < length self.old }
        requires ended { (thread_in self.old client).has_ended ≡ true }
        requires live { thread.has_ended ≡ false }
        ensures { self.new ≡ slice_set self.old client thread }
    {
        self.rows.add(row_of(thread.pid, client));
        self.items[client as usize] = thread;
    }

    /// The client's thread ends.
    pub(crate) fn end(&mut self, client: u32)
        requires { IsLive self.old client }
        ensures { self.new ≡ slice_set self.old client (record (thread_in self.old client) { has_ended = true }) }
    {
        let thread = self.items[client as usize];
        self.rows.remove(row_of(thread.pid, client));
        self.items[client as usize] = Thread {
            has_ended: true,
            ..thread
        };
    }

    /// All threads of the process of a pid end. The cost is that of each.
    pub(crate) fn end_all(&mut self, pid: u32)
        ensures { self.new ≡ map (changed_if (has_pid pid) as_ended) self.old }
    {
        while let Some(client) = self.next_with_pid(pid, 0) {
            self.end(client);
        }
    }

    /// The process of a pid takes another one. The cost is that of each of its threads.
    pub(crate) fn rename(&mut self, pid: u32, other: u32)
        requires { pid ≢ other }
        ensures { self.new ≡ map (changed_if (has_pid pid) (under_pid other)) self.old }
    {
        while let Some(client) = self.next_with_pid(pid, 0) {
            let thread = self.get(client);
            self.end(client);
            self.put(
                client,
                Thread {
                    pid: other,
                    ..thread
                },
            );
        }
    }
}

/// The row of a client under a pid.
fn row_of(pid: u32, client: u32) -> u64
    ensures { result ≡ row_under pid client }
{
    u64::from(pid) * CLIENTS + u64::from(client)
}

/// The client of a row, where that is of the pid.
fn client_under(pid: u32, row: u64) -> Option<u32>
    ensures { result ≡ client_in pid row }
{
    if row / CLIENTS == u64::from(pid) {
        Some((row % CLIENTS) as u32)
    } else {
        None
    }
}
