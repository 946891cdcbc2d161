// The first message of a connection, by which a client is lent to it.

ghost use Rattle.std.specs.Prelude.{◌≡◌, ◌<◌, ◌≤◌, ◌^◌, false, length, IfOk, IsOk, OnErr, OnOk};
ghost use Rattle.ipc_model.specs.State.{creds_at};
ghost use Rattle.ipc_namespace.specs.Wanting.{have_all_come};
ghost use Rattle.ipc_server.specs.Guests.{peer_at};
ghost use Rattle.ipc_server.specs.Held.{Costs, Goes, HasRoom, Stays};
ghost use Rattle.ipc_server.specs.Lives.{begins as begins_in, comes_forth, enters, founds, grows_up, has_room as has_room_in, hello as hello_in, hindered, identity_of as identity_in, is_begun, is_grown_up, is_let_in, joins, lends, more_of, shows_up};
ghost use Rattle.ipc_server.specs.Servers.{child_of as child_in, free_after, free_client as free_in, lead_of as lead_in, state};

use crate::outputs::Closing;
use crate::peers::{Conn, Peer, Role};
use crate::server::Server;
use bitflags::Flags;
use ipc_call::{Boxed, Call, Identity, Items, Memory};
use ipc_creds::Creds;
use ipc_wire::{Hindrance, Told};
use std::alloc::Global;

/// The version of the layout of messages.
const VERSION: u32 = 1;

/// A connection that wants a client, with its peer and the number of its request.
#[derive(Drop)]
pub(crate) struct Guest {
    conn: u32,
    seq: u32,
    peer: Peer,
}

impl Server {
    /// The first message of a connection. The error comes only where an allocation fails, and then nothing has changed.
    pub(crate) fn hello(
        &mut self,
        now: u64,
        conn: u32,
        seq: u32,
        version: u32,
        token: u64,
    ) -> Result<(), Memory>
        requires room { HasRoom self.old 16392 16400 }
        ensures went { OnOk result (Goes self.old self.new (λ s. hello_in now conn (peer_at s conn) seq version token s)) }
        ensures cost { OnOk result (Costs self.old self.new 16392 16400) }
        ensures err { OnErr result (Stays self.old self.new) }
    {
        if version != VERSION {
            self.close(now, conn, Closing::BadVersion);
            return Ok(());
        }
        let guest = self.guest(conn, seq);
        if token == 0 {
            self.enter(now, guest)
        } else {
            self.come_forth(now, guest, token)
        }
    }

    /// The connection with its peer.
    fn guest(&self, conn: u32, seq: u32) -> Guest
        ensures { result ≡ record { conn = conn; seq = seq; peer = peer_at self.now.server conn } }
    {
        let peer = self.peer_of(conn);
        Guest { conn, seq, peer }
    }

    /// A thread of a process that no token names.
    fn enter(&mut self, now: u64, guest: Guest) -> Result<(), Memory>
        requires room { HasRoom self.old 12294 12289 }
        ensures went { OnOk result (Goes self.old self.new (λ s. enters now guest.conn guest.peer guest.seq (lead_in s guest.peer.pid) s)) }
        ensures cost { OnOk result (Costs self.old self.new 12294 12289) }
        ensures err { OnErr result (Stays self.old self.new) }
    {
        match self.lead_of(guest.peer.pid) {
            Some(lead) => self.join(now, guest, lead),
            None => self.begin(now, guest),
        }
    }

    /// A further thread of a process that is there.
    fn join(&mut self, now: u64, guest: Guest, lead: u32) -> Result<(), Memory>
        requires room { HasRoom self.old 8196 8193 }
        ensures went { OnOk result (Goes self.old self.new (λ s. joins now guest.conn guest.peer guest.seq lead (free_in s) s)) }
        ensures cost { OnOk result (Costs self.old self.new 8196 8193) }
        ensures err { OnErr result (Stays self.old self.new) }
    {
        let Some(client) = self.free_client() else {
            return self.hinder(guest, Hindrance::NoClientLeft);
        };
        if !self.has_room(guest.peer.creds.euid(), 1) {
            return self.hinder(guest, Hindrance::TooManyOfUser);
        }
        let creds = identity_of(self.ledger.alloc(), &guest.peer.creds)?;
        self.lend(now, guest, creds, lead, client);
        Ok(())
    }

    /// The first thread of a process.
    fn begin(&mut self, now: u64, guest: Guest) -> Result<(), Memory>
        requires room { HasRoom self.old 12294 12289 }
        ensures went { OnOk result (Goes self.old self.new (λ s. begins_in now guest.conn guest.peer guest.seq (free_in s) (free_after (free_in s) s) s)) }
        ensures cost { OnOk result (Costs self.old self.new 12294 12289) }
        ensures err { OnErr result (Stays self.old self.new) }
    {
        let lead = self.free_client();
        let (Some(lead), Some(client)) = (lead, self.free_after(lead)) else {
            return self.hinder(guest, Hindrance::NoClientLeft);
        };
        if !self.has_room(guest.peer.creds.euid(), 2) {
            return self.hinder(guest, Hindrance::TooManyOfUser);
        }
        let alloc = self.ledger.alloc();
        let first = identity_of(alloc, &guest.peer.creds)?;
        let second = identity_of(alloc, &guest.peer.creds)?;
        self.begin_as(now, guest, first, second, lead, client);
        Ok(())
    }

    /// A child that was announced by this token.
    fn come_forth(&mut self, now: u64, guest: Guest, token: u64) -> Result<(), Memory>
        requires room { HasRoom self.old 16392 16400 }
        ensures went { OnOk result (Goes self.old self.new (λ s. comes_forth now guest.conn guest.peer guest.seq (child_in s token) (lead_in s guest.peer.pid) s)) }
        ensures cost { OnOk result (Costs self.old self.new 16392 16400) }
        ensures err { OnErr result (Stays self.old self.new) }
    {
        match (self.child_of(token), self.lead_of(guest.peer.pid)) {
            (Some(child), None) => self.grow_up(now, guest, child),
            _ => {
                self.close(now, guest.conn, Closing::BadToken);
                Ok(())
            }
        }
    }

    /// The child is a process with a number and credentials of its own, and has its first thread that is lent.
    fn grow_up(&mut self, now: u64, guest: Guest, child: u32) -> Result<(), Memory>
        requires room { HasRoom self.old 16392 16385 }
        ensures went { OnOk result (Goes self.old self.new (λ s. grows_up now guest.conn guest.peer guest.seq child (free_in s) s)) }
        ensures cost { OnOk result (Costs self.old self.new 16392 16385) }
        ensures err { OnErr result (Stays self.old self.new) }
    {
        let Some(client) = self.free_client() else {
            return self.hinder(guest, Hindrance::NoClientLeft);
        };
        if !self.has_room_for(&guest.peer.creds, child) {
            return self.hinder(guest, Hindrance::TooManyOfUser);
        }
        let alloc = self.ledger.alloc();
        let first = identity_of(alloc, &guest.peer.creds)?;
        let second = identity_of(alloc, &guest.peer.creds)?;
        self.grow_up_as(now, guest, first, second, child, client);
        Ok(())
    }
}

impl Server {
    fn begin_as(
        &mut self,
        now: u64,
        guest: Guest,
        first: Boxed<Identity>,
        second: Boxed<Identity>,
        lead: u32,
        client: u32,
    )
        requires first { first ≡ identity_in guest.peer.creds }
        requires second { second ≡ identity_in guest.peer.creds }
        requires room { HasRoom self.old 12294 12289 }
        ensures went { Goes self.old self.new (is_begun now guest.conn guest.peer guest.seq lead client) }
        ensures cost { Costs self.old self.new 12294 12289 }
    {
        self.found(now, guest.peer.pid, first, lead);
        self.lend(now, guest, second, lead, client);
    }

    fn grow_up_as(
        &mut self,
        now: u64,
        guest: Guest,
        first: Boxed<Identity>,
        second: Boxed<Identity>,
        child: u32,
        client: u32,
    )
        requires first { first ≡ identity_in guest.peer.creds }
        requires second { second ≡ identity_in guest.peer.creds }
        requires room { HasRoom self.old 16392 16385 }
        ensures went { Goes self.old self.new (is_grown_up now guest.conn guest.peer guest.seq child client) }
        ensures cost { Costs self.old self.new 16392 16385 }
    {
        self.show_up(now, guest.peer.pid, first, child);
        self.lend(now, guest, second, child, client);
    }

    /// A process begins, whose lead is the client.
    fn found(&mut self, now: u64, pid: u32, creds: Boxed<Identity>, lead: u32)
        requires room { HasRoom self.old 4098 4096 }
        ensures went { Goes self.old self.new (founds now pid creds lead) }
        ensures cost { Costs self.old self.new 4098 4096 }
    {
        self.know_few();
        self.make(now, lead, Call::Begin { pid, creds });
        self.set_role(lead, Role::Lead);
    }

    /// A child that was announced tells its number and its credentials.
    fn show_up(&mut self, now: u64, pid: u32, creds: Boxed<Identity>, child: u32)
        requires room { HasRoom self.old 8196 8192 }
        ensures went { Goes self.old self.new (shows_up now pid creds child) }
        ensures cost { Costs self.old self.new 8196 8192 }
    {
        self.make(now, child, Call::Name { pid });
        self.make(now, child, Call::Assume { creds });
        self.set_role(child, Role::Lead);
    }

    /// A client is lent to the connection: a thread of its peer's process, with its credentials.
    fn lend(&mut self, now: u64, guest: Guest, creds: Boxed<Identity>, lead: u32, client: u32)
        requires creds { creds ≡ identity_in guest.peer.creds }
        requires room { HasRoom self.old 8196 8193 }
        ensures went { Goes self.old self.new (lends now guest.conn guest.peer guest.seq lead client) }
        ensures cost { Costs self.old self.new 8196 8193 }
    {
        self.make(now, lead, Call::Clone { child: client });
        self.make(now, client, Call::Assume { creds });
        self.let_in(guest, client);
    }

    /// The connection has the client, and is told so.
    fn let_in(&mut self, guest: Guest, client: u32)
        requires room { HasRoom self.old 0 1 }
        ensures went { Goes self.old self.new (is_let_in guest.conn guest.peer guest.seq client) }
        ensures cost { Costs self.old self.new 0 1 }
    {
        let Guest { conn, seq, peer } = guest;
        self.set_conn(conn, Conn::Member { peer, client, seq });
        self.set_role(client, Role::Lent { conn });
        self.say(conn, seq, Told::Client(client));
    }

    /// The server itself refuses.
    fn hinder(&mut self, guest: Guest, why: Hindrance) -> Result<(), Memory>
        requires room { HasRoom self.old 0 1 }
        ensures ok { IsOk result }
        ensures went { Goes self.old self.new (hindered guest.conn guest.seq why) }
        ensures cost { Costs self.old self.new 0 1 }
    {
        self.say(guest.conn, guest.seq, Told::Hindered(why));
        Ok(())
    }

    /// Whether the child may be a client of the user, beside one that is lent.
    fn has_room_for(&self, creds: &Creds, child: u32) -> bool
        ensures { result ≡ has_room_in self.now.server creds.now.euid (more_of (creds_at (state self.now.server) child).euid creds.now.euid) }
    {
        let more = if self.euid_of(child) == creds.euid() {
            1
        } else {
            2
        };
        self.has_room(creds.euid(), more)
    }

    /// Whether so many clients more may have this user.
    pub(crate) fn has_room(&self, euid: u32, more: u32) -> bool
        requires few { more ≤ 2 }
        ensures { result ≡ has_room_in self.now.server euid more }
    {
        self.of_user(euid) + more <= self.bounds.clients_of_user
    }

    /// Not as many processes have come as there can be.
    fn know_few(&self)
        requires counted { length self.now.server.history.events < 2 ^ 63 }
        ensures { have_all_come (state self.now.server) ≡ false }
    {
        self.ledger.events();
    }
}

/// The credentials as a call hands them in. The error comes only where an allocation fails.
fn identity_of(alloc: Global, creds: &Creds) -> Result<Boxed<Identity>, Memory>
    ensures { IfOk result (λ identity. identity ≡ identity_in creds.now) }
{
    let groups = Items::new(Vec::from_slice(alloc, creds.groups())?);
    let (ruid, rgid) = creds.real();
    let (suid, sgid) = creds.saved();
    Boxed::new(
        alloc,
        Identity {
            euid: creds.euid(),
            egid: creds.egid(),
            groups,
            caps: creds.caps().bits(),
            ruid,
            suid,
            rgid,
            sgid,
        },
    )
}
