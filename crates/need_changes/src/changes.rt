//! The changes that allow what is denied.

ghost use Rattle.std.specs.Prelude.{◌≡◌, ◌<◌, [], ◌∷◌, true, IfOk, filter};
ghost use Rattle.std.specs.List.{list_all};
ghost use Rattle.need_changes.specs.Changes.{changes_of, control_changes_of, grants as grants_in, grants_control as grants_control_in, has_ipc_owner, has_sys_admin, tried_to_control};

use crate::tries::{grants, grants_control, widened};
use ipc_creds::Creds;
use ipc_perm::{Mode, Perm, Want};
use std::alloc::{AllocError, Global};

/// A change with which a caller may be allowed what it is denied.
#[derive(Clone, Copy, Debug, PartialEq, Eq)]
pub enum Change {
    /// The call asks for no more than this.
    Asking(Want),
    /// The object has this mode.
    Mode(Mode),
    /// The caller's effective group is this one.
    Group(u32),
    /// The caller's effective user is this one.
    User(u32),
    /// The caller has CAP_IPC_OWNER.
    IpcOwner,
    /// The caller has CAP_SYS_ADMIN.
    SysAdmin,
}

/// The changes that allow a caller these permissions on an object, each alone: that the call asks for less, where it may ask for `less`;
/// the mode that gives the caller's class the permissions besides; the object's group or its owner as the caller's; or the capability, which always
/// does. The error comes only where an allocation fails; so below.
pub fn changes_for(
    alloc: Global,
    creds: &Creds,
    perm: &Perm,
    want: Want,
    less: Option<Want>,
) -> Result<Vec<Change>, AllocError>
    ensures exact { IfOk result (λ changes. changes.items ≡ changes_of creds.now perm.now want less) }
    ensures granting { IfOk result (λ changes. list_all (grants_in creds.now perm.now want) changes.items ≡ true) }
    ensures some { IfOk result (λ changes. has_ipc_owner changes.items ≡ true) }
{
    let mode = Change::Mode(widened(creds, perm, want));
    let (group, user) = (Change::Group(perm.gid), Change::User(perm.uid));
    match less {
        Some(less) => {
            let tried = [Change::Asking(less), mode, group, user, Change::IpcOwner];
            granting(alloc, creds, perm, want, &tried)
        }
        None => granting(
            alloc,
            creds,
            perm,
            want,
            &[mode, group, user, Change::IpcOwner],
        ),
    }
}

/// The changes that allow a caller control of an object, each alone: its owner as the caller, or the capability.
pub fn changes_to_control(
    alloc: Global,
    creds: &Creds,
    perm: &Perm,
) -> Result<Vec<Change>, AllocError>
    ensures exact { IfOk result (λ changes. changes.items ≡ control_changes_of creds.now perm.now) }
    ensures granting { IfOk result (λ changes. list_all (grants_control_in creds.now perm.now) changes.items ≡ true) }
    ensures some { IfOk result (λ changes. has_sys_admin changes.items ≡ true) }
{
    let tried = [Change::User(perm.uid), Change::SysAdmin];
    granting_control(alloc, creds, perm, &tried)
}

/// Those that allow the permissions.
fn granting(
    alloc: Global,
    creds: &Creds,
    perm: &Perm,
    want: Want,
    tried: &[Change],
) -> Result<Vec<Change>, AllocError>
    ensures { IfOk result (λ changes. changes.items ≡ filter (grants_in creds.now perm.now want) tried.now) }
{
    let mut changes = Vec::new(alloc);
    let mut rest = tried;
    while let Some((change, others)) = rest.split_first() {
        if grants(creds, perm, want, change) {
            changes.push(*change)?;
        }
        rest = others;
    }
    Ok(changes)
}

/// Those that allow control.
fn granting_control(
    alloc: Global,
    creds: &Creds,
    perm: &Perm,
    tried: &[Change],
) -> Result<Vec<Change>, AllocError>
    ensures { IfOk result (λ changes. changes.items ≡ filter (grants_control_in creds.now perm.now) tried.now) }
{
    let mut changes = Vec::new(alloc);
    let mut rest = tried;
    while let Some((change, others)) = rest.split_first() {
        if grants_control(creds, perm, change) {
            changes.push(*change)?;
        }
        rest = others;
    }
    Ok(changes)
}
