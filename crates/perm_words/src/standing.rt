//! By what a caller comes into its class at an object.

ghost use Rattle.std.specs.Prelude.{◌≡◌};
ghost use Rattle.ipc_perm.specs.Access.{bits_of, class_of, is_subset, rights};
ghost use Rattle.perm_words.specs.Standing.{class_in, standing_of};

use ipc_creds::Creds;
use ipc_perm::{Perm, Want};

/// By what a caller comes into its class at an object. The first that fits.
#[derive(Clone, Copy, Debug, PartialEq, Eq)]
pub enum Standing {
    /// Its effective user is the owner.
    Owner,
    /// Its effective user is the creator.
    Creator,
    /// One of its groups is the owner's.
    OwnersGroup,
    /// One of its groups is the creator's.
    CreatorsGroup,
    /// Nothing of that.
    Other,
}

/// By what a caller of these credentials comes into the class whose bits decide.
pub fn stands(creds: &Creds, perm: &Perm) -> Standing
    ensures standing { result ≡ standing_of creds.now perm.now }
    ensures class { class_in result ≡ class_of creds.now perm.now }
{
    if perm.uid == creds.euid() {
        Standing::Owner
    } else if perm.cuid == creds.euid() {
        Standing::Creator
    } else if creds.in_group(perm.gid) {
        Standing::OwnersGroup
    } else if creds.in_group(perm.cgid) {
        Standing::CreatorsGroup
    } else {
        Standing::Other
    }
}

/// The three bits that a mode gives the class: 4 to read, 2 to write.
pub fn class_bits(standing: Standing, mode: u16) -> u16
    ensures { result ≡ bits_of (class_in standing) mode }
{
    match standing {
        Standing::Owner | Standing::Creator => mode >> 6 & 7,
        Standing::OwnersGroup | Standing::CreatorsGroup => mode >> 3 & 7,
        Standing::Other => mode & 7,
    }
}

/// What three permission bits allow.
pub fn rights_in(bits: u16) -> Want
    ensures { result ≡ rights bits }
{
    Want {
        read: bits / 4 % 2 == 1,
        alter: bits / 2 % 2 == 1,
    }
}

/// Whether each right of the first set is in the second.
pub fn is_within(asked: Want, given: Want) -> bool
    ensures { result ≡ is_subset asked given }
{
    (!asked.read || given.read) && (!asked.alter || given.alter)
}
