// How processes end, and children that were announced and don't come.

ghost use Rattle.std.specs.Prelude.{◌≡◌, ◌+◌, ◌<◌, ◌≤◌, [], ◌++◌, length, map, slice_index_or, slice_set, vec_len};
ghost use Rattle.ipc_server.specs.Held.{Costs, Goes, HasRoom};
ghost use Rattle.ipc_server.specs.Lives.{closed_from, closed_one, closes_all, dies, ends, executes, executes_of, kills, without};
ghost use Rattle.ipc_server.specs.declared.peers.Conn.TheVariants.{Absent};
ghost use Rattle.ipc_server.specs.Servers.{child_of as child_in, is_of, is_process, lead_of as lead_in};

use crate::outputs::{Closing, Output};
use crate::peers::Conn;
use crate::queue::Outputs;
use crate::server::{FIRST_CHILD, SUPERVISOR, Server};
use ipc_call::Call;

impl Server {
    /// A process has ended.
    pub(crate) fn end(&mut self, now: u64, pid: u32)
        requires room { HasRoom self.old 4098 (length self.old.server.conns + 4096) }
        ensures went { Goes self.old self.new (ends now pid) }
        ensures cost { Costs self.old self.new 4098 (length self.old.server.conns + 4096) }
    {
        self.close_all(pid);
        self.kill(now, pid);
    }

    fn kill(&mut self, now: u64, pid: u32)
        requires room { HasRoom self.old 4098 4096 }
        ensures went { Goes self.old self.new (λ s. kills now pid (lead_in s pid) s) }
        ensures cost { Costs self.old self.new 4098 4096 }
    {
        match self.lead_of(pid) {
            None => {}
            Some(_) => self.make(now, SUPERVISOR, Call::Kill { pid }),
        }
    }

    /// Closes all connections of a process.
    fn close_all(&mut self, pid: u32)
        requires room { HasRoom self.old 0 (length self.old.server.conns) }
        ensures went { Goes self.old self.new (closes_all pid) }
        ensures cost { Costs self.old self.new 0 (length self.old.server.conns) }
    {
        close_each(&mut self.conns, pid, &mut self.outputs);
    }

    /// A process without connections has nothing mapped.
    pub(crate) fn execute(&mut self, now: u64, pid: u32)
        requires room { HasRoom self.old 4098 4096 }
        ensures went { Goes self.old self.new (λ s. executes now pid (lead_in s pid) s) }
        ensures cost { Costs self.old self.new 4098 4096 }
    {
        match self.lead_of(pid) {
            None => {}
            Some(lead) => self.execute_of(now, pid, lead),
        }
    }

    fn execute_of(&mut self, now: u64, pid: u32, lead: u32)
        requires room { HasRoom self.old 4098 4096 }
        ensures went { Goes self.old self.new (executes_of now pid lead) }
        ensures cost { Costs self.old self.new 4098 4096 }
    {
        if !self.has_member(pid) {
            self.make(now, lead, Call::Exec);
        }
    }

    /// The child that was announced with a token isn't to come.
    pub(crate) fn lose(&mut self, now: u64, token: u64)
        requires room { HasRoom self.old 4098 4096 }
        ensures went { Goes self.old self.new (λ s. dies now (child_in s token) s) }
        ensures cost { Costs self.old self.new 4098 4096 }
    {
        match self.child_of(token) {
            None => {}
            Some(child) => {
                let pid = FIRST_CHILD + child;
                self.make(now, SUPERVISOR, Call::Kill { pid });
            }
        }
    }
}

/// Closes the connections of a process, by number.
fn close_each(conns: &mut Vec<Conn>, pid: u32, outputs: &mut Outputs)
    requires few { vec_len conns.old ≤ 65536 }
    requires room { vec_len conns.old ≤ outputs.old.room }
    ensures conns { conns.new.items ≡ map (without (is_of (is_process pid))) conns.old.items }
    ensures told { outputs.new.list ≡ outputs.old.list ++ closed_from pid 0 conns.old.items }
    ensures room { outputs.old.room ≤ outputs.new.room + vec_len conns.old }
{
    for at in 0..conns.len() {
        close_one(conns, at, pid, outputs);
    }
}

/// Closes a connection if it is one of the process.
fn close_one(conns: &mut Vec<Conn>, at: usize, pid: u32, outputs: &mut Outputs)
    requires within { at < vec_len conns.old }
    requires few { vec_len conns.old ≤ 65536 }
    requires room { 0 < outputs.old.room }
    ensures conns { conns.new.items ≡ slice_set conns.old.items at (without (is_of (is_process pid)) (slice_index_or conns.old.items at Absent)) }
    ensures count { vec_len conns.new ≡ vec_len conns.old }
    ensures told { outputs.new.list ≡ outputs.old.list ++ closed_one (is_of (is_process pid) (slice_index_or conns.old.items at Absent)) at [] }
    ensures room { outputs.old.room ≤ outputs.new.room + 1 }
{
    if conns[at].is_of_process(pid) {
        conns[at] = Conn::Absent;
        outputs.push(Output::Close {
            conn: at as u32,
            why: Closing::Ended,
        });
    }
}
