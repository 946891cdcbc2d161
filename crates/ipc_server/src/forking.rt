// How a fork is announced before it happens.

ghost use Rattle.std.specs.Prelude.{◌≡◌, OnErr, OnOk};
ghost use Rattle.ipc_server.specs.Guests.{peer_at};
ghost use Rattle.ipc_server.specs.Held.{Costs, Goes, HasRoom, Stays};
ghost use Rattle.ipc_server.specs.Lives.{announces, fork_bar as fork_bar_in, forks, grants_fork};
ghost use Rattle.ipc_server.specs.Servers.{free_client as free_in, lead_of as lead_in};

use crate::outputs::{Output, Pass};
use crate::peers::Role;
use crate::server::{FIRST_CHILD, Server};
use ipc_call::{Call, Memory};
use ipc_wire::{Hindrance, Told};

impl Server {
    /// A process announces a child, which the token is to name. The error comes only where an allocation fails, and then
    /// nothing has changed.
    pub(crate) fn fork(&mut self, now: u64, conn: u32, seq: u32, token: u64) -> Result<(), Memory>
        requires room { HasRoom self.old 4098 4097 }
        ensures went { OnOk result (Goes self.old self.new (λ s. forks now conn (peer_at s conn).pid (peer_at s conn).creds.euid seq token s)) }
        ensures cost { OnOk result (Costs self.old self.new 4098 4097) }
        ensures err { OnErr result (Stays self.old self.new) }
    {
        let pid = self.peer_pid(conn);
        let euid = self.peer_user(conn);
        self.fork_of(now, conn, pid, euid, seq, token)
    }

    fn fork_of(
        &mut self,
        now: u64,
        conn: u32,
        pid: u32,
        euid: u32,
        seq: u32,
        token: u64,
    ) -> Result<(), Memory>
        requires room { HasRoom self.old 4098 4097 }
        ensures went { OnOk result (Goes self.old self.new (forks now conn pid euid seq token)) }
        ensures cost { OnOk result (Costs self.old self.new 4098 4097) }
        ensures err { OnErr result (Stays self.old self.new) }
    {
        match self.fork_bar(euid, token) {
            Some(hindrance) => {
                self.say(conn, seq, Told::Hindered(hindrance));
                Ok(())
            }
            None => self.announce(now, conn, seq, token, pid, euid),
        }
    }

    /// Why the fork may not be.
    fn fork_bar(&self, euid: u32, token: u64) -> Option<Hindrance>
        ensures { result ≡ fork_bar_in self.now.server euid token }
    {
        if self.children() >= self.bounds.forks
            || self.children_of(euid) >= self.bounds.forks_of_user
        {
            Some(Hindrance::TooManyForks)
        } else if !self.has_room(euid, 1) {
            Some(Hindrance::TooManyOfUser)
        } else if token == 0 || self.child_of(token).is_some() {
            Some(Hindrance::TooManyForks)
        } else {
            None
        }
    }

    /// The lead of the process makes the fork.
    fn announce(
        &mut self,
        now: u64,
        conn: u32,
        seq: u32,
        token: u64,
        pid: u32,
        euid: u32,
    ) -> Result<(), Memory>
        requires room { HasRoom self.old 4098 4097 }
        ensures went { OnOk result (Goes self.old self.new (λ s. announces now conn euid seq token (lead_in s pid) (free_in s) s)) }
        ensures cost { OnOk result (Costs self.old self.new 4098 4097) }
        ensures err { OnErr result (Stays self.old self.new) }
    {
        let (Some(lead), Some(child)) = (self.lead_of(pid), self.free_client()) else {
            self.say(conn, seq, Told::Hindered(Hindrance::NoClientLeft));
            return Ok(());
        };
        let pid = FIRST_CHILD + child;
        self.try_to_make(now, lead, Call::Fork { child, pid })?;
        self.grant_fork(conn, seq, token, child, euid);
        Ok(())
    }

    /// The child is announced, and the connection is told its token.
    fn grant_fork(&mut self, conn: u32, seq: u32, token: u64, child: u32, euid: u32)
        requires room { HasRoom self.old 0 1 }
        ensures went { Goes self.old self.new (grants_fork conn seq token child euid) }
        ensures cost { Costs self.old self.new 0 1 }
    {
        self.set_role(child, Role::Child { token, euid });
        self.push(Output::Reply {
            conn,
            seq,
            told: Told::Token(token),
            pass: Pass::Fork { token },
        });
    }
}
