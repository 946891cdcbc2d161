// What the loop tells a server. An event is served where what the last one gave was taken and there is room for what it may
// give: else nothing has changed.

ghost use Rattle.std.specs.Prelude.{◌≡◌, ◌+◌, true, false, IfOk, OnErr, OnOk, length};
ghost use Rattle.ipc_namespace.specs.Looking.{soonest};
ghost use Rattle.ipc_server.specs.Held.{Costs, Goes, HasRoom, is_ready as is_ready_in};
ghost use Rattle.ipc_server.specs.Servers.{state};
ghost use Rattle.ipc_server.specs.Steps.{Closed, Connected, Ended, ForkLost, Mapped, Sent, Tick, finds, step, ticks};
ghost use Rattle.ipc_server.specs.declared.peers.Supply.TheVariants.{Enough};

use crate::opening::{OUTPUTS_MAX, ROWS_MAX};
use crate::peers::{Sender, Supply};
use crate::server::{MEMORY_MAX, SUPERVISOR, Server};
use ipc_call::Call;
use ipc_creds::Creds;

/// An event can't be served: what the last one gave is to be taken first, or `Server::make_ready` is to make room.
#[derive(Clone, Copy, Debug, PartialEq, Eq)]
pub struct NotReady;

/// How many events a server can count.
const EVENTS_MAX: u64 = 1 << 63;

impl Server {
    /// A process opens a connection, to which the loop gave a number. Its credentials are these but for its supplementary
    /// groups, which stand apart, since there may be more of them than credentials have. `now` is in microseconds here and
    /// below.
    pub fn connected(
        &mut self,
        now: u64,
        conn: u32,
        pid: u32,
        creds: Creds,
        groups: &[u32],
    ) -> Result<(), NotReady>
        ensures ok { OnOk result (Goes self.old self.new (step Enough now (Connected conn pid (record creds { groups = groups.now })))) }
        ensures ready { OnOk result (is_ready_in self.old ≡ true) }
        ensures err { OnErr result (self.new ≡ self.old) }
        ensures unready { OnErr result (is_ready_in self.old ≡ false) }
    {
        if !self.is_ready() {
            return Err(NotReady);
        }
        self.connect(conn, pid, creds, groups);
        self.sweep();
        Ok(())
    }

    /// A process sends a message. `sender` is who sent it as the kernel says (SCM_CREDENTIALS of unix(7)); `token` is a random
    /// number that nobody can guess, by which the child is known if the message announces one.
    pub fn sent(
        &mut self,
        now: u64,
        conn: u32,
        sender: Sender,
        bytes: &[u8],
        token: u64,
    ) -> Result<Supply, NotReady>
        ensures ok { IfOk result (λ supply. Goes self.old self.new (step supply now (Sent conn sender bytes.now token))) }
        ensures ready { OnOk result (is_ready_in self.old ≡ true) }
        ensures err { OnErr result (self.new ≡ self.old) }
        ensures unready { OnErr result (is_ready_in self.old ≡ false) }
    {
        if !self.is_ready() {
            return Err(NotReady);
        }
        let supply = self.hear(now, conn, sender, bytes, token);
        self.sweep();
        Ok(supply)
    }

    /// A connection has ended.
    pub fn closed(&mut self, now: u64, conn: u32) -> Result<(), NotReady>
        ensures ok { OnOk result (Goes self.old self.new (step Enough now (Closed conn))) }
        ensures ready { OnOk result (is_ready_in self.old ≡ true) }
        ensures err { OnErr result (self.new ≡ self.old) }
        ensures unready { OnErr result (is_ready_in self.old ≡ false) }
    {
        if !self.is_ready() {
            return Err(NotReady);
        }
        self.leave(now, conn);
        self.sweep();
        Ok(())
    }

    /// A process, for which `Output::Ask` asked, has memory of segments mapped or has none.
    pub fn mapped(&mut self, now: u64, pid: u32, is_mapped: bool) -> Result<(), NotReady>
        ensures ok { OnOk result (Goes self.old self.new (step Enough now (Mapped pid is_mapped))) }
        ensures ready { OnOk result (is_ready_in self.old ≡ true) }
        ensures err { OnErr result (self.new ≡ self.old) }
        ensures unready { OnErr result (is_ready_in self.old ≡ false) }
    {
        if !self.is_ready() {
            return Err(NotReady);
        }
        self.find(now, pid, is_mapped);
        self.sweep();
        Ok(())
    }

    /// A process has ended. Where its pid comes again, this is to be told before.
    pub fn ended(&mut self, now: u64, pid: u32) -> Result<(), NotReady>
        ensures ok { OnOk result (Goes self.old self.new (step Enough now (Ended pid))) }
        ensures ready { OnOk result (is_ready_in self.old ≡ true) }
        ensures err { OnErr result (self.new ≡ self.old) }
        ensures unready { OnErr result (is_ready_in self.old ≡ false) }
    {
        if !self.is_ready() {
            return Err(NotReady);
        }
        self.end(now, pid);
        self.sweep();
        Ok(())
    }

    /// Nobody holds the descriptor of a fork any more (`Pass::Fork`). Where its child hasn't come, it isn't to come.
    pub fn fork_lost(&mut self, now: u64, token: u64) -> Result<(), NotReady>
        ensures ok { OnOk result (Goes self.old self.new (step Enough now (ForkLost token))) }
        ensures ready { OnOk result (is_ready_in self.old ≡ true) }
        ensures err { OnErr result (self.new ≡ self.old) }
        ensures unready { OnErr result (is_ready_in self.old ≡ false) }
    {
        if !self.is_ready() {
            return Err(NotReady);
        }
        self.lose(now, token);
        self.sweep();
        Ok(())
    }

    /// Time has passed.
    pub fn tick(&mut self, now: u64) -> Result<(), NotReady>
        ensures ok { OnOk result (Goes self.old self.new (step Enough now Tick)) }
        ensures ready { OnOk result (is_ready_in self.old ≡ true) }
        ensures err { OnErr result (self.new ≡ self.old) }
        ensures unready { OnErr result (is_ready_in self.old ≡ false) }
    {
        if !self.is_ready() {
            return Err(NotReady);
        }
        self.expire(now);
        self.sweep();
        Ok(())
    }
}

impl Server {
    /// Whether the next event can be served.
    pub fn is_ready(&self) -> bool
        ensures { result ≡ is_ready_in self.now }
    {
        self.outputs.is_empty()
            && self.outputs.room() >= OUTPUTS_MAX + MEMORY_MAX + self.conns.len()
            && self.ledger.room() >= ROWS_MAX
            && self.ledger.events() < EVENTS_MAX - ROWS_MAX as u64
    }

    /// When the soonest deadline of a waiting call is, at which `tick` is to be called.
    pub fn wakes_at(&self) -> Option<u64>
        ensures { result ≡ soonest (state self.now.server).parked }
    {
        self.ledger.namespace().soonest_deadline()
    }

    /// Whether a process has something mapped was found out.
    fn find(&mut self, now: u64, pid: u32, is_mapped: bool)
        requires room { HasRoom self.old 4098 4096 }
        ensures went { Goes self.old self.new (finds now pid is_mapped) }
        ensures cost { Costs self.old self.new 4098 4096 }
    {
        if !is_mapped {
            self.execute(now, pid);
        }
    }

    /// Ends the waiting calls whose deadline is reached.
    fn expire(&mut self, now: u64)
        requires room { HasRoom self.old 4098 4096 }
        ensures went { Goes self.old self.new (ticks now) }
        ensures cost { Costs self.old self.new 4098 4096 }
    {
        if let Some(deadline) = self.wakes_at()
            && deadline <= now
        {
            self.make(now, SUPERVISOR, Call::Interrupt { pid: 0 });
        }
    }
}
