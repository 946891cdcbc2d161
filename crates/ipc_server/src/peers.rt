//! Who opens a connection, and what the server keeps of connections and clients.

ghost use Rattle.std.specs.Prelude.{◌≡◌, option_map};
ghost use Rattle.ipc_server.specs.Guests.{peer_of as peer_in_or_nobody, sender_of as sender_in};
ghost use Rattle.ipc_server.specs.Servers.{has_user as has_user_in, is_member as is_member_in, is_of, is_process, is_silent as is_silent_in, peer_in};

use bitflags::Flags;
use ipc_creds::{Caps, Creds};

/// Who opened a connection, as the kernel tells at that moment: the process (SO_PEERCRED of unix(7)) and its credentials (proc(5)).
#[derive(Debug, Drop)]
pub struct Peer {
    pub pid: u32,
    pub creds: Creds,
}

/// Who sent a message, as the kernel tells: the process and the real user (SCM_CREDENTIALS of unix(7)).
#[derive(Clone, Copy, Debug, PartialEq, Eq)]
pub struct Sender {
    pub pid: u32,
    pub ruid: u32,
}

/// A connection.
#[derive(Debug, Drop)]
pub enum Conn {
    /// There is none of this number.
    Absent,
    /// It has said nothing.
    Silent(Peer),
    /// A client is lent to it. `seq` is the number of the last call that waited.
    Member { peer: Peer, client: u32, seq: u32 },
}

/// What the server has lent a client for. That of a client whose thread has ended means nothing.
#[derive(Clone, Copy, Debug, PartialEq, Eq)]
pub enum Role {
    /// Nothing.
    Free,
    /// It makes the calls of a process as such.
    Lead,
    /// It makes the calls of a connection.
    Lent { conn: u32 },
    /// It is the child that a fork announced, which the token names. `euid` is the user who announced it.
    Child { token: u64, euid: u32 },
}

/// How many there may be at most, in all and of one effective user. They are counted whenever one more comes.
#[derive(Clone, Copy, Debug, PartialEq, Eq)]
pub struct Bounds {
    /// Connections that have said nothing.
    pub silent: u32,
    /// Forks that were announced.
    pub forks: u32,
    /// Connections of one user.
    pub conns_of_user: u32,
    /// Connections of one user that have said nothing.
    pub silent_of_user: u32,
    /// Forks that one user has announced.
    pub forks_of_user: u32,
    /// Clients whose effective user is the same.
    pub clients_of_user: u32,
}

/// What memory there was for a message.
#[derive(Clone, Copy, Debug, PartialEq, Eq)]
pub enum Supply {
    /// All that it wanted.
    Enough,
    /// An allocation failed for what it asks. The request is answered so, and nothing has changed.
    Short,
    /// An allocation failed while it was read. The connection is closed.
    Unread,
}

impl Peer {
    fn copy(&self) -> Peer
        ensures { result ≡ self.now }
    {
        let creds = self.creds.copy();
        Peer {
            pid: self.pid,
            creds,
        }
    }

    fn sender(&self) -> Sender
        ensures { result ≡ sender_in self.now }
    {
        let (ruid, _) = self.creds.real();
        Sender {
            pid: self.pid,
            ruid,
        }
    }
}

impl Conn {
    /// A copy of its peer. That of a connection that isn't there is nobody.
    pub(crate) fn peer(&self) -> Peer
        ensures { result ≡ peer_in_or_nobody self.now }
    {
        match self {
            Conn::Absent => Peer {
                pid: 0,
                creds: Creds::new(0, 0, &[], Caps::empty()),
            },
            Conn::Silent(peer) | Conn::Member { peer, .. } => peer.copy(),
        }
    }

    /// The process of its peer, 0 where it isn't there.
    pub(crate) fn pid(&self) -> u32
        ensures { result ≡ (peer_in_or_nobody self.now).pid }
    {
        match self {
            Conn::Absent => 0,
            Conn::Silent(peer) | Conn::Member { peer, .. } => peer.pid,
        }
    }

    /// The effective user of its peer, 0 where it isn't there.
    pub(crate) fn euid(&self) -> u32
        ensures { result ≡ (peer_in_or_nobody self.now).creds.euid }
    {
        match self {
            Conn::Absent => 0,
            Conn::Silent(peer) | Conn::Member { peer, .. } => peer.creds.euid(),
        }
    }

    /// Who may send on it.
    pub(crate) fn sender(&self) -> Option<Sender>
        ensures { result ≡ option_map sender_in (peer_in self.now) }
    {
        match self {
            Conn::Absent => None,
            Conn::Silent(peer) | Conn::Member { peer, .. } => Some(peer.sender()),
        }
    }

    /// Whether it has said nothing.
    pub(crate) fn is_silent(&self) -> bool
        ensures { result ≡ is_silent_in self.now }
    {
        matches!(self, Conn::Silent(_))
    }

    /// Whether a client is lent to it.
    pub(crate) fn is_member(&self) -> bool
        ensures { result ≡ is_member_in self.now }
    {
        matches!(self, Conn::Member { .. })
    }

    /// Whether its effective user is this.
    pub(crate) fn has_user(&self, euid: u32) -> bool
        ensures { result ≡ is_of (has_user_in euid) self.now }
    {
        match self {
            Conn::Absent => false,
            Conn::Silent(peer) | Conn::Member { peer, .. } => peer.creds.euid() == euid,
        }
    }

    /// Whether its process is this.
    pub(crate) fn is_of_process(&self, pid: u32) -> bool
        ensures { result ≡ is_of (is_process pid) self.now }
    {
        match self {
            Conn::Absent => false,
            Conn::Silent(peer) | Conn::Member { peer, .. } => peer.pid == pid,
        }
    }
}
