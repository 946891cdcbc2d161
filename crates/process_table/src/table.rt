//! The clients' threads, and how processes begin and end.

ghost use Rattle.std.specs.Prelude.{◌≡◌, ℕ, ◌+◌, ◌<◌, ◌≤◌, ◌^◌, true, false, length, map, slice_set, IfNone, IfOk, IfSome, OnErr};
ghost use Rattle.std.specs.List.{find, list_any};
ghost use Rattle.std.specs.Option.{option_map};
ghost use Rattle.ipc_model.specs.Processes.{ends, is_other, renamed};
ghost use Rattle.ipc_model.specs.State.{first_threads, has_pid, runs};
ghost use Rattle.ipc_model.specs.Tidy.{IsLive, thread_in};

use crate::threads::Threads;
use ipc_call::{Memory, Thread};
use ipc_creds::Creds;
use std::alloc::{AllocError, Global};
use std::marker::Model;

/// The clients' threads, and the serial number of the process that comes next. What a function costs doesn't grow with the
/// threads of other processes, but where it says more: a search among those that run is logarithmic, and where a thread
/// begins, ends or takes another pid, the 8 bytes of each that runs under a greater pid are moved.
#[derive(Debug, Drop)]
pub struct ProcessTable {
    threads: Threads,
    next: u64,
}

impl Model for ProcessTable {
    ghost use Rattle.ipc_model.specs.Tidy.{AreNumbered};
    ghost use Rattle.process_table.specs.Index.{HaveOnePid};
    ghost use Rattle.process_table.specs.Table.{Table};

    ghost Value = { Table };

    ghost view = { λ t. record { threads = t.threads; next = t.next } };

    ghost invariant = { λ t. AreNumbered t.threads t.next × HaveOnePid t.threads };
}

impl ProcessTable {
    /// Each client as the only thread of a process of its own, whose pid is the client's number plus 1. Memory (ENOMEM) comes
    /// where an allocation fails; nothing else takes memory.
    pub fn new(alloc: Global, clients: &[Creds]) -> Result<ProcessTable, Memory>
        requires few { length clients.now ≤ 4096 }
        ensures { IfOk result (λ table. table ≡ record { threads = first_threads 0 clients.now; next = length clients.now }) }
    {
        Ok(ProcessTable {
            threads: Threads::new(alloc, clients)?,
            next: clients.len() as u64,
        })
    }

    /// The clients' threads, by client.
    pub fn threads(&self) -> &[Thread]
        ensures { result.now ≡ self.now.threads }
    {
        self.threads.as_slice()
    }

    /// The serial number of the process that comes next. Memory where there is none after it.
    pub fn next(&self) -> Result<u64, Memory>
        ensures next { IfOk result (λ next. next ≡ self.now.next) }
        ensures more { IfOk result (λ next. next + 1 < 2 ^ 64) }
        ensures last { OnErr result (2 ^ 64 ≤ self.now.next + 1) }
    {
        if self.next < u64::MAX {
            Ok(self.next)
        } else {
            Err(AllocError)
        }
    }

    /// The first client that is a thread of the process of a pid.
    pub fn with_pid(&self, pid: u32) -> Option<u32>
        ensures first { option_map (thread_in self.now.threads) result ≡ find (has_pid pid) self.now.threads }
        ensures known { IfSome result (λ client. client < length self.now.threads) }
        ensures live { IfSome result (λ client. IsLive self.now.threads client) }
    {
        self.threads.next_with_pid(pid, 0)
    }

    /// The first client from this one on that is a thread of the process of a pid.
    pub fn next_with_pid(&self, pid: u32, from: u32) -> Option<u32>
        ensures none { IfNone result ((c : ℕ) → from ≤ c → has_pid pid (thread_in self.now.threads c) ≡ false) }
        ensures there { IfSome result (λ client. has_pid pid (thread_in self.now.threads client) ≡ true) }
        ensures from { IfSome result (λ client. from ≤ client) }
        ensures least { IfSome result (λ client. (c : ℕ) → from ≤ c → c < client → has_pid pid (thread_in self.now.threads c) ≡ false) }
    {
        self.threads.next_with_pid(pid, from)
    }

    /// The first client from this one on that is a thread of the client's process.
    pub fn next_of(&self, client: u32, from: u32) -> Option<u32>
        requires live { IsLive self.now.threads client }
        ensures none { IfNone result ((c : ℕ) → from ≤ c → runs (thread_in self.now.threads client).process (thread_in self.now.threads c) ≡ false) }
        ensures there { IfSome result (λ found. runs (thread_in self.now.threads client).process (thread_in self.now.threads found) ≡ true) }
        ensures from { IfSome result (λ found. from ≤ found) }
        ensures least { IfSome result (λ found. (c : ℕ) → from ≤ c → c < found → runs (thread_in self.now.threads client).process (thread_in self.now.threads c) ≡ false) }
    {
        self.threads
            .next_with_pid(self.threads.get(client).pid, from)
    }

    /// Whether a process has the pid.
    pub fn is_process(&self, pid: u32) -> bool
        ensures { result ≡ list_any (has_pid pid) self.now.threads }
    {
        self.with_pid(pid).is_some()
    }

    /// Whether another process than this one has the pid.
    pub fn is_of_another(&self, process: u64, pid: u32) -> bool
        ensures { result ≡ list_any (is_other process pid) self.now.threads }
    {
        match self.with_pid(pid) {
            None => false,
            Some(client) => self.threads.get(client).process != process,
        }
    }

    /// The client, whose thread has ended, is the only thread of a new process, which takes the pid.
    pub fn begin(&mut self, client: u32, pid: u32)
        requires known { client < length self.old.threads }
        requires ended { (thread_in self.old.threads client).has_ended ≡ true }
        requires some { 0 < pid }
        requires unused { list_any (has_pid pid) self.old.threads ≡ false }
        requires more { self.old.next + 1 < 2 ^ 64 }
        ensures { self.new ≡ record {
          threads = slice_set self.old.threads client (record { process = self.old.next; pid = pid; has_ended = false });
          next = self.old.next + 1;
        } }
    {
        let process = self.next;
        self.next = process + 1;
        self.threads.put(
            client,
            Thread {
                process,
                pid,
                has_ended: false,
            },
        );
    }

    /// The child, a client whose thread has ended, is one more thread of the client's process.
    pub fn clone(&mut self, client: u32, child: u32)
        requires known { child < length self.old.threads }
        requires live { IsLive self.old.threads client }
        requires ended { (thread_in self.old.threads child).has_ended ≡ true }
        ensures { self.new ≡ record self.old {
          threads = slice_set self.old.threads child (record {
            process = (thread_in self.old.threads client).process;
            pid = (thread_in self.old.threads client).pid;
            has_ended = false;
          });
        } }
    {
        let Thread { process, pid, .. } = self.threads.get(client);
        self.threads.put(
            child,
            Thread {
                process,
                pid,
                has_ended: false,
            },
        );
    }

    /// The client's thread ends. Whether its process has another.
    pub fn end(&mut self, client: u32) -> bool
        requires live { IsLive self.old.threads client }
        ensures table { self.new ≡ record self.old { threads = slice_set self.old.threads client (record (thread_in self.old.threads client) { has_ended = true }) } }
        ensures runs { result ≡ list_any (runs (thread_in self.old.threads client).process) self.new.threads }
    {
        let pid = self.threads.get(client).pid;
        self.threads.end(client);
        self.is_process(pid)
    }

    /// All threads of the client's process end. The cost is that of each.
    pub fn end_all(&mut self, client: u32)
        requires live { IsLive self.old.threads client }
        ensures { self.new ≡ record self.old { threads = map (ends (thread_in self.old.threads client).process) self.old.threads } }
    {
        let pid = self.threads.get(client).pid;
        self.threads.end_all(pid);
    }

    /// All threads of the client's process end but its own. The cost is that of each.
    pub fn end_others(&mut self, client: u32)
        requires live { IsLive self.old.threads client }
        ensures { self.new ≡ record self.old {
          threads = slice_set (map (ends (thread_in self.old.threads client).process) self.old.threads) client (thread_in self.old.threads client);
        } }
    {
        let thread = self.threads.get(client);
        self.threads.end_all(thread.pid);
        self.threads.put(client, thread);
    }

    /// The client's process takes another pid. The cost is that of each of its threads.
    pub fn rename(&mut self, client: u32, pid: u32)
        requires live { IsLive self.old.threads client }
        requires some { 0 < pid }
        requires unused { list_any (is_other (thread_in self.old.threads client).process pid) self.old.threads ≡ false }
        ensures { self.new ≡ record self.old { threads = map (renamed (thread_in self.old.threads client).process pid) self.old.threads } }
    {
        let own = self.threads.get(client).pid;
        if own != pid {
            self.threads.rename(own, pid);
        }
    }
}
