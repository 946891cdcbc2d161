//! What a service is opened with.

ghost use Rattle.std.specs.Prelude.{◌≡◌, ◌↔◌, map, All, IfOk, IsTrue};
ghost use Rattle.ipc_abi.specs.Openings.{IsValid, creds_in, journal_in, limits_in};

use bitflags::Flags;
use ipc_call::{Limits, Memory};
use ipc_creds::{Caps, Creds, GROUPS_MAX};
use std::alloc::Global;

/// What a service is opened with beside its clients: the limits of its namespace, in numbers, and whether it keeps its journal
/// until it is read, where `journal` isn't 0, or not at all.
#[repr(C)]
#[derive(Clone, Copy, Debug, PartialEq, Eq)]
pub struct RawLimits {
    pub queues: u32,
    pub sets: u32,
    pub segments: u32,
    pub msg_max: u32,
    pub msg_mnb: u32,
    pub sem_msl: u32,
    pub sem_opm: u32,
    pub shm_max: u32,
    pub first_seq: u32,
    pub journal: u32,
}

/// The credentials of a client: its user and group, its supplementary groups, of which the first `ngroups` count, and its
/// capabilities as bits.
#[repr(C)]
#[derive(Clone, Copy)]
pub struct RawClient {
    pub uid: u32,
    pub gid: u32,
    pub caps: u32,
    pub ngroups: u32,
    pub groups: [u32; 32],
}

impl RawLimits {
    /// The limits that the numbers mean. A sequence number is cut to its low 16 bits.
    pub fn limits(&self) -> Limits
        ensures { result ≡ limits_in self.now }
    {
        Limits {
            queues: self.queues,
            sets: self.sets,
            segments: self.segments,
            first_seq: (self.first_seq % 65536) as u16,
            msg_max: self.msg_max,
            msg_mnb: self.msg_mnb,
            sem_msl: self.sem_msl,
            sem_opm: self.sem_opm,
            shm_max: self.shm_max,
        }
    }

    /// Whether the service keeps its journal until it is read.
    pub fn keeps_journal(&self) -> bool
        ensures { result ≡ journal_in self.now }
    {
        self.journal != 0
    }
}

impl RawClient {
    /// Whether it has at most 32 supplementary groups, and no capability that the service doesn't know.
    pub fn is_valid(&self) -> bool
        ensures { IsTrue result ↔ IsValid self.now }
    {
        self.ngroups as usize <= GROUPS_MAX && self.caps < 32
    }

    /// The credentials.
    pub fn creds(&self) -> Creds
        requires { IsValid self.now }
        ensures { result ≡ creds_in self.now }
    {
        let groups = &self.groups[..self.ngroups as usize];
        let caps = Caps::from_bits_retain(self.caps as u8);
        Creds::new(self.uid, self.gid, groups, caps)
    }
}

/// The credentials of clients, in their order.
pub fn creds_of(alloc: Global, clients: &[RawClient]) -> Result<Vec<Creds>, Memory>
    requires { All IsValid clients.now }
    ensures { IfOk result (λ creds. creds.items ≡ map creds_in clients.now) }
{
    let mut all = Vec::with_capacity(alloc, clients.len())?;
    for client in clients {
        all.push(client.creds())?;
    }
    Ok(all)
}
