//! Who may do what to an object.

ghost use Rattle.std.specs.Prelude.{◌≡◌};
ghost use Rattle.ipc_creds.specs.Credentials.{is_in_group};
ghost use Rattle.ipc_perm.specs.Access.{
  rights,
  class_of,
  bits_of,
  rule_of,
  ground_of,
  is_subset,
  asked_of,
  is_owner,
  verdict_on,
  permits,
  denial,
  Permission,
  Control,
  control_verdict_on,
  controls,
  is_allowed,
  denied_rule,
  interrupt_verdict_on,
  SameUser,
  becoming,
};
ghost use Rattle.std.specs.Result.{result_err};

use bitflags::Flags;
use ipc_call::{Perm, Rule};
use ipc_creds::{Caps, Creds};

/// The read permissions of owner, group and others.
const READ_BITS: u32 = 0o444;

/// Their write permissions.
const WRITE_BITS: u32 = 0o222;

/// The class of a caller at an object (POSIX.1-2017 XSH 2.7.1). The first that fits decides alone.
#[derive(Clone, Copy, Debug, PartialEq, Eq)]
pub enum Class {
    /// The effective user owns the object or created it.
    Owner,
    /// The effective group or a supplementary one is the object's group or its creator's.
    Group,
    /// Neither fits.
    Other,
}

/// A set of permissions (POSIX.1-2017 XSH 2.7.1).
#[derive(Clone, Copy, Debug, PartialEq, Eq)]
pub struct Want {
    /// To read.
    pub read: bool,
    /// To write, which is to alter for a semaphore set.
    pub alter: bool,
}

/// The right that a call needs which changes what an object holds.
pub const TO_ALTER: Want = Want {
    read: false,
    alter: true,
};

/// The right that a call needs which tells what an object holds.
pub const TO_READ: Want = Want {
    read: true,
    alter: false,
};

/// Why a caller is allowed. A capability is the ground only where the class or the ownership fails.
#[derive(Clone, Copy, Debug, PartialEq, Eq)]
pub enum Ground {
    /// The owner's permission bits, or the ownership.
    Owner,
    /// The group's permission bits.
    Group,
    /// The others' permission bits.
    Other,
    /// CAP_IPC_OWNER.
    IpcOwner,
    /// CAP_SYS_ADMIN.
    SysAdmin,
}

/// The decision on one caller and one object.
#[derive(Clone, Copy, Debug, PartialEq, Eq)]
pub enum Verdict {
    /// Allowed, on this ground.
    Allowed(Ground),
    /// Denied, by this rule.
    Denied(Rule),
}

/// Whether a caller has the wanted permissions on an object (POSIX.1-2017 XSH 2.7.1, capabilities(7)). The
/// permission bits of the caller's class decide alone; CAP_IPC_OWNER overrides their denial. A denial names
/// the class.
pub fn decide(creds: &Creds, perm: &Perm, want: Want) -> Verdict
    ensures verdict { result ≡ verdict_on creds.now perm.now want }
    ensures permits { is_allowed result ≡ permits creds.now perm.now want }
    ensures denial { denied_rule result ≡ denial creds.now (Permission perm.now want) }
{
    let class = deciding_class(creds, perm);
    if is_within(want, rights_in(class_bits(class, perm.mode.bits()))) {
        return Verdict::Allowed(class_ground(class));
    }
    if creds.caps().contains(Caps::IPC_OWNER) {
        return Verdict::Allowed(Ground::IpcOwner);
    }
    Verdict::Denied(class_rule(class))
}

/// Whether a caller may set or remove an object (msgctl(2): EPERM): it owns the object or created it, or has
/// CAP_SYS_ADMIN. No permission bit is asked.
pub fn may_control(creds: &Creds, perm: &Perm) -> Verdict
    ensures verdict { result ≡ control_verdict_on creds.now perm.now }
    ensures controls { is_allowed result ≡ controls creds.now perm.now }
    ensures denial { denied_rule result ≡ denial creds.now (Control perm.now) }
{
    if owns(creds, perm) {
        return Verdict::Allowed(Ground::Owner);
    }
    if creds.caps().contains(Caps::SYS_ADMIN) {
        return Verdict::Allowed(Ground::SysAdmin);
    }
    Verdict::Denied(Rule::NotOwner)
}

/// Whether a caller may interrupt a process of this effective user (kill(2): EPERM): it has the same one, or
/// CAP_SYS_ADMIN, where Linux asks CAP_KILL.
pub fn may_interrupt(creds: &Creds, euid: u32) -> Verdict
    ensures verdict { result ≡ interrupt_verdict_on creds.now euid }
    ensures denial { denied_rule result ≡ denial creds.now (SameUser euid) }
{
    if creds.euid() == euid {
        return Verdict::Allowed(Ground::Owner);
    }
    if !creds.caps().contains(Caps::SYS_ADMIN) {
        return Verdict::Denied(Rule::NotSameUser);
    }
    Verdict::Allowed(Ground::SysAdmin)
}

/// Whether a caller may take on this effective user and group, and supplementary groups where they are given
/// (seteuid(2), setegid(2), setgroups(2): EPERM). Takes no memory.
pub fn may_become(creds: &Creds, euid: u32, egid: u32, groups_given: bool) -> Result<(), Rule>
    ensures { result_err result ≡ becoming creds.now euid egid groups_given }
{
    if !creds.is_own_user(euid) && !creds.caps().contains(Caps::SETUID) {
        return Err(Rule::NotOwnUser);
    }
    if !creds.is_own_group(egid) && !creds.caps().contains(Caps::SETGID) {
        return Err(Rule::NotOwnGroup);
    }
    if groups_given && !creds.caps().contains(Caps::SETGID) {
        return Err(Rule::NeedsSetgid);
    }
    Ok(())
}

/// What the flags of a get ask of an existing object (msgget(2)): any of the read bits asks to read, any of
/// the write bits to write.
pub fn asked_of_flags(flags: u32) -> Want
    ensures { result ≡ asked_of flags }
{
    Want {
        read: flags & READ_BITS != 0,
        alter: flags & WRITE_BITS != 0,
    }
}

fn owns(creds: &Creds, perm: &Perm) -> bool
    ensures { result ≡ is_owner creds.now perm.now }
{
    perm.uid == creds.euid() || perm.cuid == creds.euid()
}

fn deciding_class(creds: &Creds, perm: &Perm) -> Class
    ensures { result ≡ class_of creds.now perm.now }
{
    if owns(creds, perm) {
        Class::Owner
    } else if creds.in_group(perm.gid) || creds.in_group(perm.cgid) {
        Class::Group
    } else {
        Class::Other
    }
}

fn class_bits(class: Class, mode: u16) -> u16
    ensures { result ≡ bits_of class mode }
{
    match class {
        Class::Owner => mode >> 6 & 7,
        Class::Group => mode >> 3 & 7,
        Class::Other => mode & 7,
    }
}

fn rights_in(bits: u16) -> Want
    ensures { result ≡ rights bits }
{
    Want {
        read: bits & 4 != 0,
        alter: bits & 2 != 0,
    }
}

fn is_within(asked: Want, given: Want) -> bool
    ensures { result ≡ is_subset asked given }
{
    (!asked.read || given.read) && (!asked.alter || given.alter)
}

fn class_ground(class: Class) -> Ground
    ensures { result ≡ ground_of class }
{
    match class {
        Class::Owner => Ground::Owner,
        Class::Group => Ground::Group,
        Class::Other => Ground::Other,
    }
}

fn class_rule(class: Class) -> Rule
    ensures { result ≡ rule_of class }
{
    match class {
        Class::Owner => Rule::OwnerBits,
        Class::Group => Rule::GroupBits,
        Class::Other => Rule::OtherBits,
    }
}
