// How connections come and go.

ghost use Rattle.std.specs.Prelude.{◌≡◌, ◌<◌, false, true, length, None, is_some};
ghost use Rattle.ipc_server.specs.Held.{Costs, Goes, HasRoom};
ghost use Rattle.ipc_server.specs.Going.{says as says_in, stays};
ghost use Rattle.ipc_server.specs.Lives.{bar as bar_in, closes, connects, connects_unless, departs, departs_if, has_attached as has_attached_in, is_free as is_free_in, interrupts, leaves, member_in, new_bar, wonders, wonders_of};
ghost use Rattle.ipc_server.specs.Servers.{conn_at, lead_of as lead_in, peer_in, with_conn};
ghost use Rattle.ipc_server.specs.declared.outputs.Output.TheVariants.{Ask, Close};
ghost use Rattle.ipc_server.specs.declared.peers.Conn.TheVariants.{Absent};

use crate::outputs::{Closing, Output};
use crate::peers::{Conn, Peer};
use crate::server::{FIRST_CHILD, SUPERVISOR, Server};
use ipc_call::Call;
use ipc_creds::{Creds, GROUPS_MAX};
use std::mem;

impl Server {
    /// A connection of a process with these credentials and supplementary groups.
    pub(crate) fn connect(&mut self, conn: u32, pid: u32, mut creds: Creds, groups: &[u32])
        requires room { HasRoom self.old 0 1 }
        ensures went { Goes self.old self.new (connects conn pid (record creds { groups = groups.now })) }
        ensures cost { Costs self.old self.new 0 1 }
    {
        if groups.len() > GROUPS_MAX {
            let why = Closing::TooManyGroups;
            self.push(Output::Close { conn, why });
            return;
        }
        let (euid, egid) = (creds.euid(), creds.egid());
        creds.take_on(euid, egid, Some(groups));
        self.connect_as(conn, pid, creds);
    }

    /// A connection of a process with these credentials.
    fn connect_as(&mut self, conn: u32, pid: u32, creds: Creds)
        requires room { HasRoom self.old 0 1 }
        ensures went { Goes self.old self.new (λ s. connects_unless (bar_in s conn pid creds) conn (record { pid = pid; creds = creds }) s) }
        ensures cost { Costs self.old self.new 0 1 }
    {
        match self.bar(conn, pid, &creds) {
            Some(why) => {
                drop(creds);
                self.push(Output::Close { conn, why });
            }
            None => self.conns[conn as usize] = Conn::Silent(Peer { pid, creds }),
        }
    }

    /// Why the connection may not be.
    fn bar(&self, conn: u32, pid: u32, creds: &Creds) -> Option<Closing>
        ensures bar { result ≡ bar_in self.now.server conn pid creds.now }
        ensures known { result ≡ None → conn < length self.now.server.conns }
    {
        if self.is_free(conn) {
            self.new_bar(pid, creds.euid())
        } else {
            Some(Closing::BadNumber)
        }
    }

    /// Whether there may be a connection of this number, and there is none.
    fn is_free(&self, conn: u32) -> bool
        ensures free { result ≡ is_free_in self.now.server conn }
        ensures known { result ≡ true → conn < length self.now.server.conns }
    {
        match self.conns.get(conn as usize) {
            None => false,
            Some(conn) => !is_there(conn),
        }
    }

    fn new_bar(&self, pid: u32, euid: u32) -> Option<Closing>
        ensures { result ≡ new_bar self.now.server pid euid }
    {
        if pid == 0 || pid >= FIRST_CHILD {
            Some(Closing::BadPid)
        } else if self.silent() >= self.bounds.silent as usize {
            Some(Closing::TooManySilent)
        } else if self.conns_of(euid) >= self.bounds.conns_of_user as usize {
            Some(Closing::TooManyOfUser)
        } else if self.silent_of(euid) >= self.bounds.silent_of_user as usize {
            Some(Closing::TooManySilentOfUser)
        } else {
            None
        }
    }

    /// The server closes a connection.
    pub(crate) fn close(&mut self, now: u64, conn: u32, why: Closing)
        requires room { HasRoom self.old 8196 8194 }
        ensures went { Goes self.old self.new (closes now conn why) }
        ensures cost { Costs self.old self.new 8196 8194 }
    {
        self.push(Output::Close { conn, why });
        self.leave(now, conn);
    }

    /// A connection is there no more.
    pub(crate) fn leave(&mut self, now: u64, conn: u32)
        requires room { HasRoom self.old 8196 8193 }
        ensures went { Goes self.old self.new (λ s. leaves now conn (conn_at s conn) s) }
        ensures cost { Costs self.old self.new 8196 8193 }
    {
        match self.take_out(conn) {
            None => {}
            Some((pid, client)) => self.depart(now, pid, client),
        }
    }

    /// Takes out a connection, and gives its process and its client, if it has one.
    fn take_out(&mut self, conn: u32) -> Option<(u32, u32)>
        ensures member { result ≡ member_in (conn_at self.old.server conn) }
        ensures went { Goes self.old self.new (λ s. stays (with_conn s conn Absent)) }
        ensures cost { Costs self.old self.new 0 0 }
    {
        if conn as usize >= self.conns.len() {
            return None;
        }
        let before = mem::replace(&mut self.conns[conn as usize], Conn::Absent);
        let member = member_of(&before);
        drop(before);
        member
    }

    /// The client of a connection that was taken out departs.
    fn depart(&mut self, now: u64, pid: u32, client: u32)
        requires room { HasRoom self.old 8196 8193 }
        ensures went { Goes self.old self.new (departs now pid client) }
        ensures cost { Costs self.old self.new 8196 8193 }
    {
        self.interrupt(now, client);
        self.make(now, client, Call::Exit);
        self.wonder(pid);
    }

    /// Ends what a client waits for.
    pub(crate) fn interrupt(&mut self, now: u64, client: u32)
        requires room { HasRoom self.old 4098 4096 }
        ensures went { Goes self.old self.new (interrupts now client) }
        ensures cost { Costs self.old self.new 4098 4096 }
    {
        if self.ledger.namespace().is_waiting(client) {
            self.make(now, SUPERVISOR, Call::InterruptThread { client });
        }
    }

    /// Asks whether a process has memory mapped that has no connection any more and something attached.
    fn wonder(&mut self, pid: u32)
        requires room { HasRoom self.old 0 1 }
        ensures went { Goes self.old self.new (λ s. wonders pid (lead_in s pid) s) }
        ensures cost { Costs self.old self.new 0 1 }
    {
        match self.lead_of(pid) {
            None => {}
            Some(lead) => self.wonder_of(pid, lead),
        }
    }

    fn wonder_of(&mut self, pid: u32, lead: u32)
        requires room { HasRoom self.old 0 1 }
        ensures went { Goes self.old self.new (wonders_of pid lead) }
        ensures cost { Costs self.old self.new 0 1 }
    {
        if !self.has_member(pid) && self.has_attached(lead) {
            self.push(Output::Ask { pid });
        }
    }

    fn has_attached(&self, client: u32) -> bool
        ensures { result ≡ has_attached_in self.now.server client }
    {
        self.ledger.namespace().next_attachment(client, 0).is_some()
    }
}

fn is_there(conn: &Conn) -> bool
    ensures { result ≡ is_some (peer_in conn.now) }
{
    match conn {
        Conn::Absent => false,
        Conn::Silent(_) | Conn::Member { .. } => true,
    }
}

fn member_of(conn: &Conn) -> Option<(u32, u32)>
    ensures { result ≡ member_in conn.now }
{
    match conn {
        Conn::Member { peer, client, .. } => Some((peer.pid, *client)),
        Conn::Absent | Conn::Silent(_) => None,
    }
}
