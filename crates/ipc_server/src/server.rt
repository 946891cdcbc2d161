//! The server, and what is held of it between events.

ghost use Rattle.std.specs.Prelude.{◌≡◌, drop, length, slice_get};
ghost use Rattle.ipc_server.specs.Going.{says, stays};
ghost use Rattle.ipc_server.specs.Guests.{peer_at};
ghost use Rattle.ipc_server.specs.Held.{Costs, Goes, HasRoom};
ghost use Rattle.ipc_server.specs.Servers.{with_conn, with_role};

use crate::outputs::Output;
use crate::peers::{Bounds, Conn, Peer, Role};
use crate::queue::Outputs;
use ipc_call::Reply;
use ipc_space::Ledger;
use std::marker::Model;

/// The most waiting calls that an event may end: each client has one at most.
pub(crate) const ENDED_MAX: usize = 4_096;

/// The most segments that may have memory, and one more: so there is always room for another.
pub(crate) const MEMORY_MAX: usize = 32_769;

/// The client of the server's own.
pub(crate) const SUPERVISOR: u32 = 0;

/// The pid of the least child that is announced; no process has one so high.
pub(crate) const FIRST_CHILD: u32 = 2_147_483_648;

/// A server of a namespace. What its events give is to be taken before the next one.
#[derive(Drop)]
pub struct Server {
    pub(crate) ledger: Ledger,
    pub(crate) conns: Vec<Conn>,
    pub(crate) roles: Vec<Role>,
    pub(crate) memory: Vec<u32>,
    pub(crate) bounds: Bounds,
    pub(crate) outputs: Outputs,
    /// The replies to waiting calls that an event ends. Between events it is empty, and keeps its room.
    pub(crate) others: Vec<(u32, Reply)>,
}

impl Model for Server {
    ghost use Rattle.std.specs.Prelude.{vec_capacity};
    ghost use Rattle.ipc_server.specs.Held.{Held, IsSound};

    ghost Value = { Held };

    ghost view = { λ s. record {
      server = record {
        history = s.ledger.history;
        conns = s.conns.items;
        roles = s.roles.items;
        memory = s.memory.items;
        bounds = s.bounds;
      };
      given = s.ledger.given;
      room = s.ledger.room;
      outputs = s.outputs;
    } };

    ghost invariant = { λ s. IsSound s.ledger.history s.conns.items s.roles.items s.memory.items s.others.items (vec_capacity s.others) (vec_capacity s.memory) };
}

impl Server {
    /// Adds one to what is to be done.
    pub(crate) fn push(&mut self, output: Output)
        requires room { HasRoom self.old 0 1 }
        ensures went { Goes self.old self.new (says output) }
        ensures cost { Costs self.old self.new 0 1 }
    {
        self.outputs.push(output);
    }

    /// The connection of a number is another one.
    pub(crate) fn set_conn(&mut self, conn: u32, other: Conn)
        ensures went { Goes self.old self.new (λ s. stays (with_conn s conn other)) }
        ensures cost { Costs self.old self.new 0 0 }
    {
        let at = conn as usize;
        if at < self.conns.len() {
            self.conns[at] = other;
        }
    }

    /// The client of a number is lent for something else.
    pub(crate) fn set_role(&mut self, client: u32, role: Role)
        ensures went { Goes self.old self.new (λ s. stays (with_role s client role)) }
        ensures cost { Costs self.old self.new 0 0 }
    {
        let at = client as usize;
        if at < self.roles.len() {
            self.roles[at] = role;
        }
    }

    /// A copy of a connection's peer.
    pub(crate) fn peer_of(&self, conn: u32) -> Peer
        ensures { result ≡ peer_at self.now.server conn }
    {
        match self.conns.get(conn as usize) {
            None => Conn::Absent.peer(),
            Some(conn) => conn.peer(),
        }
    }

    /// The process of a connection's peer.
    pub(crate) fn peer_pid(&self, conn: u32) -> u32
        ensures { result ≡ (peer_at self.now.server conn).pid }
    {
        match self.conns.get(conn as usize) {
            None => 0,
            Some(conn) => conn.pid(),
        }
    }

    /// The effective user of a connection's peer.
    pub(crate) fn peer_user(&self, conn: u32) -> u32
        ensures { result ≡ (peer_at self.now.server conn).creds.euid }
    {
        match self.conns.get(conn as usize) {
            None => 0,
            Some(conn) => conn.euid(),
        }
    }
}
