// What a waiting call has reserved for its completion: a call that sends, a place in its queue, and a semop a row of
// semadj.

ghost use Rattle.std.specs.Prelude.{◌≡◌, ℕ, ◌+◌, ◌<◌, true, IsSome, OnOk, OnErr};
ghost use Rattle.std.specs.FinMap as map;
ghost use Rattle.msg_calls.specs.WithRoom.{one_if, queues_of, room};
ghost use Rattle.sem_calls.specs.WithRows.{row_at, sems_of};
ghost use Rattle.ipc_namespace.specs.Namespace.{HasRowFor, MayReserve, is_at, sent_to as call_sent_to};

use ipc_call::{Call, Memory};
use msg_calls::Queues;
use sem_calls::Sets;

/// The queue that the call sends to, in which its completion needs a place.
pub fn sent_to(call: &Call) -> Option<u32>
    ensures { result ≡ call_sent_to call.now }
{
    match call {
        Call::MsgSnd { id, .. } => Some(*id),
        _ => None,
    }
}

/// Reserves a place in the queue, where there is one. Memory comes where a growth was refused, and then nothing has
/// changed.
pub fn reserve_in(queues: &mut Queues, queue: Option<u32>) -> Result<(), Memory>
    requires { (id : ℕ) → is_at id queue ≡ true → IsSome (map.get (queues_of queues.old).objects id) }
    ensures queues { OnOk result (queues_of queues.new ≡ queues_of queues.old) }
    ensures room { OnOk result ((id : ℕ) → room queues.new id ≡ room queues.old id + one_if (is_at id queue)) }
    ensures err { OnErr result (queues.new ≡ queues.old) }
{
    match queue {
        Some(id) => queues.reserve(id),
        None => Ok(()),
    }
}

/// Gives a place in the queue back, where there is one.
pub fn release_in(queues: &mut Queues, queue: Option<u32>)
    requires { (id : ℕ) → is_at id queue ≡ true → 0 < room queues.old id }
    ensures queues { queues_of queues.new ≡ queues_of queues.old }
    ensures room { (id : ℕ) → room queues.new id + one_if (is_at id queue) ≡ room queues.old id }
{
    if let Some(id) = queue {
        queues.release(id);
    }
}

/// Makes the row of semadj that the completion of a semop needs. Memory comes where a growth was refused, and then nothing
/// has changed.
pub fn reserve_row(sets: &mut Sets, process: u64, call: &Call) -> Result<(), Memory>
    requires there { MayReserve (sems_of sets.old) call.now }
    ensures sems { OnOk result (sems_of sets.new ≡ sems_of sets.old) }
    ensures row { OnOk result (HasRowFor sets.new process call.now) }
    ensures rows { OnOk result ((c s n : ℕ) → n < row_at sets.old c s → n < row_at sets.new c s) }
    ensures err { OnErr result (sets.new ≡ sets.old) }
{
    match call {
        Call::SemOp { id, ops } => sets.reserve(process, *id, ops.as_slice()),
        _ => Ok(()),
    }
}
