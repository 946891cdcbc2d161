//! Clients without supplementary groups and capabilities.

ghost use Rattle.std.specs.Prelude.{◌≡◌, ◌≤◌, vec_len, IfOk};

use bitflags::Flags;
use ipc_creds::{Caps, Creds};
use std::alloc::{AllocError, Global};
use std::io;

/// A client of this user and group.
pub fn user(uid: u32, gid: u32) -> Creds {
    Creds::new(uid, gid, &[], Caps::empty())
}

/// So many clients of one user, 100, and its group, 10.
pub fn users(alloc: Global, count: usize) -> Result<Vec<Creds>, AllocError>
    ensures { IfOk result (λ users. vec_len users ≡ count) }
{
    let mut users = Vec::new(alloc);
    for number in 0..count {
        users.push(user(100, 10))?;
    }
    Ok(users)
}

/// The same, where a namespace may have so many: 1 to 64.
pub fn few_users(alloc: Global, count: u32) -> io::Result<Vec<Creds>>
    ensures { IfOk result (λ users. (1 ≤ vec_len users) × (vec_len users ≤ 64)) }
{
    if count == 0 || count > 64 {
        return Err(io::Error::from(io::ErrorKind::InvalidInput));
    }
    Ok(users(alloc, count as usize)?)
}
