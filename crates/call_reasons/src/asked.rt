//! What a call asks of the object that it names.

ghost use Rattle.std.specs.Prelude.{◌≡◌, ℕ, not, IfSome};
ghost use Rattle.ipc_model.specs.Controls.{perm_of};
ghost use Rattle.ipc_model.specs.Decide.{needs};
ghost use Rattle.ipc_model.specs.Segments.{wanted_to_attach};
ghost use Rattle.ipc_model.specs.State.{State};
ghost use Rattle.ipc_perm.specs.Access.{asked_of};
ghost use Rattle.call_reasons.specs.Asked.{NeedsControl, asked_in, controlled_in, named, permission_of};

use ipc_call::{Call, Kind, is_read_only};
use ipc_perm::{TO_ALTER, TO_READ, Want, asked_of_flags};
use sem_calls::wanted_by;

/// The object that a call names.
#[derive(Clone, Copy, Debug, PartialEq, Eq)]
pub enum Target {
    /// By its identifier.
    Id(Kind, u32),
    /// By its key.
    Key(Kind, u32),
}

/// The permissions that a call asks for on the object that it names.
#[derive(Clone, Copy, Debug, PartialEq, Eq)]
pub struct Asked {
    /// The object.
    pub target: Target,
    /// The permissions.
    pub want: Want,
}

/// What the call asks for; `None` where it asks for no permission.
pub fn asked_by(call: &Call) -> Option<Asked>
    ensures asked { result ≡ asked_in call.now }
    ensures needed { (s : State) (client : ℕ) → IfSome result (λ asked.
        needs s client call.now ≡ permission_of asked.want (named s asked.target)) }
{
    asked_at(call)
}

/// The same, by the table of calls alone.
fn asked_at(call: &Call) -> Option<Asked>
    ensures { result ≡ asked_in call.now }
{
    match call {
        Call::MsgGet { key, flags } => Some(at_key(Kind::Queue, *key, *flags)),
        Call::SemGet { key, flags, .. } => Some(at_key(Kind::Sems, *key, *flags)),
        Call::ShmGet { key, flags, .. } => Some(at_key(Kind::Segment, *key, *flags)),
        Call::MsgSnd { id, .. } => Some(at_id(Kind::Queue, *id, TO_ALTER)),
        Call::MsgRcv { id, .. } => Some(at_id(Kind::Queue, *id, TO_READ)),
        Call::SemOp { id, ops } => Some(at_id(Kind::Sems, *id, wanted_by(ops.as_slice()))),
        Call::SemTimedOp { id, ops, .. } => {
            Some(at_id(Kind::Sems, *id, wanted_by(ops.as_slice())))
        }
        Call::GetVal { id, .. }
        | Call::GetPid { id, .. }
        | Call::GetNcnt { id, .. }
        | Call::GetZcnt { id, .. }
        | Call::GetAll { id } => Some(at_id(Kind::Sems, *id, TO_READ)),
        Call::SetVal { id, .. } | Call::SetAll { id, .. } => {
            Some(at_id(Kind::Sems, *id, TO_ALTER))
        }
        Call::ShmAt { id, flags } => Some(at_id(Kind::Segment, *id, to_attach(*flags))),
        Call::IpcStat { kind, id } => Some(at_id(*kind, *id, TO_READ)),
        _ => None,
    }
}

fn at_id(kind: Kind, id: u32, want: Want) -> Asked
    ensures target { result.target ≡ Target.Id kind id }
    ensures want { result.want ≡ want }
{
    Asked {
        target: Target::Id(kind, id),
        want,
    }
}

fn at_key(kind: Kind, key: u32, flags: u32) -> Asked
    ensures target { result.target ≡ Target.Key kind key }
    ensures want { result.want ≡ asked_of flags }
{
    Asked {
        target: Target::Key(kind, key),
        want: asked_of_flags(flags),
    }
}

/// The permissions that an attachment needs (shmop(2)).
fn to_attach(flags: u32) -> Want
    ensures { result ≡ wanted_to_attach flags }
{
    Want {
        read: true,
        alter: !is_read_only(flags),
    }
}

/// The object that the call would set or remove, which asks for no permission.
pub fn controlled_by(call: &Call) -> Option<(Kind, u32)>
    ensures controlled { result ≡ controlled_in call.now }
    ensures needed { (s : State) (client : ℕ) → IfSome result (λ object.
        NeedsControl (needs s client call.now) (perm_of s object.0 object.1)) }
{
    controlled_at(call)
}

/// The same, by the table of calls alone.
fn controlled_at(call: &Call) -> Option<(Kind, u32)>
    ensures { result ≡ controlled_in call.now }
{
    match call {
        Call::IpcSet { kind, id, .. } | Call::IpcRmid { kind, id } => Some((*kind, *id)),
        _ => None,
    }
}
