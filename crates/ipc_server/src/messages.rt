// What a message of a process asks.

ghost use Rattle.std.specs.Prelude.{◌≡◌, OnErr, OnOk, Some, option_map};
ghost use Rattle.ipc_server.specs.Guests.{peer_at, sender_of as sender_in, standing_of};
ghost use Rattle.ipc_server.specs.Held.{Costs, Goes, HasRoom, Stays};
ghost use Rattle.ipc_server.specs.Servers.{conn_at, peer_in};
ghost use Rattle.ipc_server.specs.Steps.{first as first_in, hears, meanwhile as meanwhile_in, next as next_in, served, takes};
ghost use Rattle.ipc_wire.specs.Requests.{decode};

use crate::outputs::Closing;
use crate::peers::{Conn, Sender, Supply};
use crate::server::Server;
use ipc_call::Memory;
use ipc_wire::{BadMessage, Hindrance, Message, Request, Told, read};

/// What a connection is, without its peer.
#[derive(Clone, Copy)]
pub(crate) enum Standing {
    Absent,
    Silent,
    Member { client: u32, seq: u32 },
}

impl Server {
    /// The bytes of a message, with its sender.
    pub(crate) fn hear(
        &mut self,
        now: u64,
        conn: u32,
        sender: Sender,
        bytes: &[u8],
        token: u64,
    ) -> Supply
        requires room { HasRoom self.old 16392 16400 }
        ensures went { Goes self.old self.new (λ s. hears result now conn sender bytes.now token (peer_in (conn_at s conn)) s) }
        ensures cost { Costs self.old self.new 16392 16400 }
    {
        match self.sender_of(conn) {
            None => Supply::Enough,
            Some(own) if own == sender => self.serve(now, conn, bytes, token),
            Some(_) => {
                self.close(now, conn, Closing::AnotherSender);
                Supply::Enough
            }
        }
    }

    /// Who may send on a connection.
    fn sender_of(&self, conn: u32) -> Option<Sender>
        ensures { result ≡ option_map sender_in (peer_in (conn_at self.now.server conn)) }
    {
        match self.conns.get(conn as usize) {
            None => None,
            Some(conn) => conn.sender(),
        }
    }

    /// The bytes of a message of the one who may send it.
    fn serve(&mut self, now: u64, conn: u32, bytes: &[u8], token: u64) -> Supply
        requires room { HasRoom self.old 16392 16400 }
        ensures went { Goes self.old self.new (λ s. served result now conn token (decode bytes.now) s) }
        ensures cost { Costs self.old self.new 16392 16400 }
    {
        match read(self.ledger.alloc(), bytes) {
            Ok(message) => self.take(now, conn, token, message),
            Err(BadMessage::Unknown) => {
                self.close(now, conn, Closing::NoRequest);
                Supply::Enough
            }
            Err(BadMessage::Memory) => {
                self.close(now, conn, Closing::Memory);
                Supply::Unread
            }
        }
    }

    /// A message.
    fn take(&mut self, now: u64, conn: u32, token: u64, message: Message) -> Supply
        requires room { HasRoom self.old 16392 16400 }
        ensures went { Goes self.old self.new (λ s. served result now conn token (Some message) s) }
        ensures cost { Costs self.old self.new 16392 16400 }
    {
        let Message { seq, request } = message;
        match self.request(now, conn, token, seq, request) {
            Ok(()) => Supply::Enough,
            Err(_) => {
                self.say(conn, seq, Told::Hindered(Hindrance::Memory));
                Supply::Short
            }
        }
    }

    /// A request. The error comes only where an allocation fails, and then nothing has changed.
    fn request(
        &mut self,
        now: u64,
        conn: u32,
        token: u64,
        seq: u32,
        request: Request,
    ) -> Result<(), Memory>
        requires room { HasRoom self.old 16392 16400 }
        ensures went { OnOk result (Goes self.old self.new (λ s. takes now conn token (record { seq = seq; request = request }) (conn_at s conn) s)) }
        ensures cost { OnOk result (Costs self.old self.new 16392 16400) }
        ensures err { OnErr result (Stays self.old self.new) }
    {
        match self.standing(conn) {
            Standing::Absent => Ok(()),
            Standing::Silent => self.first(now, conn, seq, request),
            Standing::Member {
                client,
                seq: waiting,
            } => {
                if self.ledger.namespace().is_waiting(client) {
                    self.meanwhile(now, conn, client, waiting, request);
                    Ok(())
                } else {
                    self.next(now, conn, client, token, seq, request)
                }
            }
        }
    }

    /// What a connection is.
    fn standing(&self, conn: u32) -> Standing
        ensures { result ≡ standing_of (conn_at self.now.server conn) }
    {
        match self.conns.get(conn as usize) {
            None | Some(Conn::Absent) => Standing::Absent,
            Some(Conn::Silent(_)) => Standing::Silent,
            Some(Conn::Member { client, seq, .. }) => Standing::Member {
                client: *client,
                seq: *seq,
            },
        }
    }
}

impl Server {
    /// The first request of a connection.
    fn first(&mut self, now: u64, conn: u32, seq: u32, request: Request) -> Result<(), Memory>
        requires room { HasRoom self.old 16392 16400 }
        ensures went { OnOk result (Goes self.old self.new (λ s. first_in now conn (peer_at s conn) seq request s)) }
        ensures cost { OnOk result (Costs self.old self.new 16392 16400) }
        ensures err { OnErr result (Stays self.old self.new) }
    {
        match request {
            Request::Hello { version, token } => self.hello(now, conn, seq, version, token),
            other => {
                drop(other);
                self.close(now, conn, Closing::OutOfTurn);
                Ok(())
            }
        }
    }

    /// A request while one of the connection waits.
    fn meanwhile(&mut self, now: u64, conn: u32, client: u32, waiting: u32, request: Request)
        requires room { HasRoom self.old 16392 16400 }
        ensures went { Goes self.old self.new (meanwhile_in now conn client waiting request) }
        ensures cost { Costs self.old self.new 16392 16400 }
    {
        match request {
            Request::Cancel { seq } => {
                if seq == waiting {
                    self.interrupt(now, client);
                }
            }
            other => {
                drop(other);
                self.close(now, conn, Closing::TwoRequests);
            }
        }
    }

    /// A request while none waits.
    fn next(
        &mut self,
        now: u64,
        conn: u32,
        client: u32,
        token: u64,
        seq: u32,
        request: Request,
    ) -> Result<(), Memory>
        requires room { HasRoom self.old 16392 16400 }
        ensures went { OnOk result (Goes self.old self.new (λ s. next_in now conn (peer_at s conn) client token seq request s)) }
        ensures cost { OnOk result (Costs self.old self.new 16392 16400) }
        ensures err { OnErr result (Stays self.old self.new) }
    {
        match request {
            Request::Calls(ask) => self.ask(now, conn, client, seq, ask.call()),
            Request::Looks(look) => self.look(conn, seq, look),
            Request::Fork => self.fork(now, conn, seq, token),
            Request::Cancel { .. } => Ok(()),
            Request::Hello { .. } => {
                self.close(now, conn, Closing::OutOfTurn);
                Ok(())
            }
        }
    }
}
