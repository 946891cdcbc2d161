//! The credentials of a client.

ghost use Rattle.std.specs.Prelude.{◌≡◌, ◌≤◌, ◌==◌, IfOk, IfSome, length, option_map};
ghost use Rattle.std.specs.List.{list_any};
ghost use Rattle.ipc_creds.specs.Credentials.{became, executed, is_in_group, own_groups, own_users};

use crate::caps::Caps;
use arrayvec::ArrayVec;
use std::alloc::{AllocError, Global};
use std::marker::Model;

/// How many supplementary groups a client may have at most. Linux's NGROUPS_MAX is 65536.
pub const GROUPS_MAX: usize = 32;

/// The credentials of a client (credentials(7)). They take no memory of their own: there is room for all groups in the value.
#[derive(Debug, Drop)]
pub struct Creds {
    euid: u32,
    egid: u32,
    groups: ArrayVec<u32, GROUPS_MAX>,
    caps: Caps,
    ruid: u32,
    suid: u32,
    rgid: u32,
    sgid: u32,
}

impl Model for Creds {
    ghost use Rattle.std.specs.Prelude.{◌≤◌};
    ghost use Rattle.arrayvec.specs.ArrayVec.{array_vec_len};
    ghost use Rattle.ipc_creds.specs.Credentials.{Credentials, groups_max};

    ghost Value = { Credentials };

    ghost view = { λ c. record { euid = c.euid; egid = c.egid; groups = c.groups.items; caps = c.caps.0; ruid = c.ruid; suid = c.suid; rgid = c.rgid; sgid = c.sgid } };

    ghost invariant = { λ c. array_vec_len c.groups ≤ groups_max };
}

impl Creds {
    /// Credentials of these parts; the real and the saved user and group are the effective ones.
    pub fn new(euid: u32, egid: u32, groups: &[u32], caps: Caps) -> Creds
        requires { length groups.now ≤ GROUPS_MAX }
        ensures { result ≡ record { euid = euid; egid = egid; groups = groups.now; caps = caps.0; ruid = euid; suid = euid; rgid = egid; sgid = egid } }
    {
        Creds {
            euid,
            egid,
            groups: held(groups),
            caps,
            ruid: euid,
            suid: euid,
            rgid: egid,
            sgid: egid,
        }
    }

    /// The same with another saved user and group (credentials(7)).
    pub fn with_saved(self, suid: u32, sgid: u32) -> Creds
        ensures { result ≡ record self { suid = suid; sgid = sgid } }
    {
        Creds { suid, sgid, ..self }
    }

    /// The same with another real user and group (credentials(7)).
    pub fn with_real(self, ruid: u32, rgid: u32) -> Creds
        ensures { result ≡ record self { ruid = ruid; rgid = rgid } }
    {
        Creds { ruid, rgid, ..self }
    }

    /// As execve(2) leaves them: the saved user and group are the effective ones.
    pub fn execute(&mut self)
        ensures { self.new ≡ executed self.old }
    {
        self.suid = self.euid;
        self.sgid = self.egid;
    }

    /// The same with another effective user and group, and other supplementary groups where some are given.
    pub fn take_on(&mut self, euid: u32, egid: u32, groups: Option<&[u32]>)
        requires few { IfSome groups (λ groups. length groups.now ≤ GROUPS_MAX) }
        ensures { self.new ≡ became euid egid (option_map (λ groups. groups.now) groups.entry) self.old }
    {
        self.euid = euid;
        self.egid = egid;
        if let Some(groups) = groups {
            self.groups = held(groups);
        }
    }

    /// Whether the user is the effective, the real or the saved one.
    pub fn is_own_user(&self, uid: u32) -> bool
        ensures { result ≡ list_any (λ own. own == uid) (own_users self.now) }
    {
        self.euid == uid || self.ruid == uid || self.suid == uid
    }

    /// Whether the group is the effective, the real or the saved one.
    pub fn is_own_group(&self, gid: u32) -> bool
        ensures { result ≡ list_any (λ own. own == gid) (own_groups self.now) }
    {
        self.egid == gid || self.rgid == gid || self.sgid == gid
    }

    /// The effective user.
    pub fn euid(&self) -> u32
        ensures { result ≡ self.now.euid }
    {
        self.euid
    }

    /// The effective group.
    pub fn egid(&self) -> u32
        ensures { result ≡ self.now.egid }
    {
        self.egid
    }

    /// The real user and group.
    pub fn real(&self) -> (u32, u32)
        ensures { result ≡ (self.now.ruid, self.now.rgid) }
    {
        (self.ruid, self.rgid)
    }

    /// The saved user and group.
    pub fn saved(&self) -> (u32, u32)
        ensures { result ≡ (self.now.suid, self.now.sgid) }
    {
        (self.suid, self.sgid)
    }

    /// The supplementary groups, in the order in which they were given.
    pub fn groups(&self) -> &[u32]
        ensures groups { result.now ≡ self.now.groups }
        ensures few { length result.now ≤ GROUPS_MAX }
    {
        self.groups.as_slice()
    }

    /// The capabilities.
    pub fn caps(&self) -> Caps
        ensures { result.0 ≡ self.now.caps }
    {
        self.caps
    }

    /// Whether the group is the effective one or a supplementary one.
    pub fn in_group(&self, gid: u32) -> bool
        ensures { result ≡ is_in_group self.now gid }
    {
        gid == self.egid() || self.groups().contains(&gid)
    }

    /// A copy.
    pub fn copy(&self) -> Creds
        ensures { result ≡ self.now }
    {
        let Creds {
            euid,
            egid,
            groups,
            caps,
            ruid,
            suid,
            rgid,
            sgid,
        } = self;
        Creds {
            euid: *euid,
            egid: *egid,
            groups: held(groups.as_slice()),
            caps: *caps,
            ruid: *ruid,
            suid: *suid,
            rgid: *rgid,
            sgid: *sgid,
        }
    }
}

/// The groups in a list with room for all that a client may have.
fn held(groups: &[u32]) -> ArrayVec<u32, GROUPS_MAX>
    requires { length groups.now ≤ GROUPS_MAX }
    ensures { result.items ≡ groups.now }
{
    let mut held = ArrayVec::new();
    held.try_extend_from_slice(groups).unwrap();
    held
}

/// Copies of credentials, in their order. The error comes only where the allocation of the list fails.
pub fn copies(alloc: Global, clients: &[Creds]) -> Result<Vec<Creds>, AllocError>
    ensures { IfOk result (λ copied. copied.items ≡ clients.now) }
{
    let mut copied = Vec::with_capacity(alloc, clients.len())?;
    for creds in clients {
        copied.push(creds.copy())?;
    }
    Ok(copied)
}
