//! Gets of objects of any kind.

ghost use Rattle.std.specs.Prelude.{◌≡◌, Some};
ghost use Rattle.ipc_model.specs.Gets.{new_object as object_of, to_open};
ghost use Rattle.ipc_model.specs.Plan.{passed};

use crate::caller::Caller;
use ipc_call::{Rule, creates, is_exclusive};
use ipc_objects::Object;
use ipc_perm::{Mode, Perm, Verdict, asked_of_flags, decide};

/// Whether a get may answer the object that has its key, of which these are the permissions. Permission is asked
/// last (the order is the project's own).
pub fn may_open(who: &Caller, perm: &Perm, flags: u32) -> Result<(), Rule>
    ensures { passed who.entry.now.creds (to_open perm.now flags) ≡ Some result }
{
    if creates(flags) && is_exclusive(flags) {
        return Err(Rule::KeyExists);
    }
    match decide(who.creds(), perm, asked_of_flags(flags)) {
        Verdict::Denied(rule) => Err(rule),
        Verdict::Allowed(_) => Ok(()),
    }
}

/// An object that the caller owns and made, with the mode in the flags.
pub fn new_object<T>(who: &Caller, key: u32, flags: u32, contents: T) -> Object<T>
    ensures { result ≡ object_of who.entry.now key flags contents }
{
    let creds = who.creds();
    Object {
        perm: Perm {
            key,
            uid: creds.euid(),
            gid: creds.egid(),
            cuid: creds.euid(),
            cgid: creds.egid(),
            mode: Mode::from_low_bits(flags),
        },
        change_time: who.now(),
        contents,
    }
}
