//! A change that is made, and decided.

ghost use Rattle.std.specs.Prelude.{◌≡◌, ◌<◌};
ghost use Rattle.ipc_creds.specs.Credentials.{acting_as as acting_as_in};
ghost use Rattle.ipc_perm.specs.Access.{class_of, is_allowed as is_allowed_in};
ghost use Rattle.need_changes.specs.Changes.{creds_with, grants as grants_in, grants_control as grants_control_in, perm_with, placed, want_with, wanted_bits, widened as widened_in, with_capability};
ghost use Rattle.perm_words.specs.Standing.{class_in};

use crate::changes::Change;
use bitflags::Flags;
use ipc_creds::{Caps, Creds};
use ipc_perm::{Mode, Perm, Verdict, Want, decide, may_control};
use perm_words::{Standing, stands};

/// Whether the change allows the permissions.
pub(crate) fn grants(creds: &Creds, perm: &Perm, want: Want, change: &Change) -> bool
    ensures { result ≡ grants_in creds.now perm.now want change.now }
{
    let caller = caller_with(creds, change);
    let object = object_with(perm, change);
    is_allowed(decide(&caller, &object, call_with(want, change)))
}

/// Whether the change allows control.
pub(crate) fn grants_control(creds: &Creds, perm: &Perm, change: &Change) -> bool
    ensures { result ≡ grants_control_in creds.now perm.now change.now }
{
    let caller = caller_with(creds, change);
    let object = object_with(perm, change);
    is_allowed(may_control(&caller, &object))
}

fn is_allowed(verdict: Verdict) -> bool
    ensures { result ≡ is_allowed_in verdict }
{
    matches!(verdict, Verdict::Allowed(_))
}

/// The caller with the change.
fn caller_with(creds: &Creds, change: &Change) -> Creds
    ensures { result ≡ creds_with change.now creds.now }
{
    match change {
        Change::User(uid) => acting_as(creds, *uid, creds.egid()),
        Change::Group(gid) => acting_as(creds, creds.euid(), *gid),
        Change::IpcOwner => capable(creds, Caps::IPC_OWNER),
        Change::SysAdmin => capable(creds, Caps::SYS_ADMIN),
        Change::Asking(_) | Change::Mode(_) => creds.copy(),
    }
}

fn acting_as(creds: &Creds, uid: u32, gid: u32) -> Creds
    ensures { result ≡ acting_as_in creds.now uid gid }
{
    let mut caller = creds.copy();
    caller.take_on(uid, gid, None);
    caller
}

fn capable(creds: &Creds, cap: Caps) -> Creds
    ensures { result ≡ with_capability cap.0 creds.now }
{
    Creds::new(
        creds.euid(),
        creds.egid(),
        creds.groups(),
        creds.caps().union(cap),
    )
}

/// The object with the change.
fn object_with(perm: &Perm, change: &Change) -> Perm
    ensures { result ≡ perm_with change.now perm.now }
{
    match change {
        Change::Mode(mode) => Perm {
            mode: *mode,
            ..*perm
        },
        _ => *perm,
    }
}

/// What the call asks for with the change.
fn call_with(want: Want, change: &Change) -> Want
    ensures { result ≡ want_with change.now want }
{
    match change {
        Change::Asking(less) => *less,
        _ => want,
    }
}

/// The mode that gives the caller's class the permissions too.
pub(crate) fn widened(creds: &Creds, perm: &Perm, want: Want) -> Mode
    ensures { result ≡ widened_in creds.now perm.now want }
{
    let bits = place(stands(creds, perm), bits_for(want));
    Mode::from_low_bits(u32::from(perm.mode.bits() | bits))
}

/// The permissions as bits of a class.
fn bits_for(want: Want) -> u16
    ensures value { result ≡ wanted_bits want }
    ensures range { result < 8 }
{
    let read = if want.read { 4 } else { 0 };
    let alter = if want.alter { 2 } else { 0 };
    read + alter
}

/// Bits at the place of the caller's class in a mode.
fn place(standing: Standing, bits: u16) -> u16
    requires { bits < 8 }
    ensures value { result ≡ placed (class_in standing) bits }
    ensures range { result < 512 }
{
    match standing {
        Standing::Owner | Standing::Creator => 64 * bits,
        Standing::OwnersGroup | Standing::CreatorsGroup => 8 * bits,
        Standing::Other => bits,
    }
}
