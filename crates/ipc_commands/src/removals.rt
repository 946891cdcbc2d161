// The removal of an object by its key: a get, and then IPC_RMID of the object that it found.

ghost use Rattle.std.specs.Prelude.{◌≡◌};
ghost use Rattle.ipc_commands.specs.Removals.{get_of as get_by_key, id_in};

use ipc_call::{Answer, Call, Kind, Reply};

/// The get of a key without a flag: it asks for no right, and creates an object for key 0 (IPC_PRIVATE) alone.
pub fn get_of(kind: Kind, key: u32) -> Call
    ensures { result ≡ get_by_key kind key }
{
    match kind {
        Kind::Queue => Call::MsgGet { key, flags: 0 },
        Kind::Sems => Call::SemGet {
            key,
            nsems: 0,
            flags: 0,
        },
        Kind::Segment => Call::ShmGet {
            key,
            size: 0,
            flags: 0,
        },
    }
}

/// The identifier that a call is answered: a granted get's alone.
pub fn answered_id(reply: &Reply) -> Option<u32>
    ensures { result ≡ id_in reply.now }
{
    match reply {
        Reply::Entered {
            outcome: Ok(Answer::Id(id)),
            ..
        } => Some(*id),
        _ => None,
    }
}
