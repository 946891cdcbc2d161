//! What a semaphore set holds.

ghost use Rattle.std.specs.Prelude.{◌≡◌, IfOk};
ghost use Rattle.ipc_model.specs.Controls.{status_of_set};
ghost use Rattle.ipc_model.specs.Gets.{new_set};

use ipc_call::{Memory, SetStatus, Status};
use ipc_objects::Object;
use sem_set::SemSet;
use std::alloc::Global;
use std::marker::Model;

/// The contents of a semaphore set: its semid_ds (semctl(2)) without permissions and sem_ctime, and its semaphores.
#[derive(Debug, Drop)]
pub struct Set {
    pub(super) semaphores: SemSet,
    /// When a semop was granted last, in seconds, 0 for never.
    pub(super) op_time: u64,
}

impl Model for Set {
    ghost use Rattle.ipc_model.specs.State.{SemSet as Contents};

    ghost Value = { Contents };

    ghost view = { λ s. record { semaphores = s.semaphores; op_time = s.op_time } };
}

impl Set {
    /// A set of `nsems` semaphores whose values are 0. The error comes only where an allocation fails.
    pub fn new(alloc: Global, nsems: usize) -> Result<Set, Memory>
        ensures { IfOk result (λ set. set ≡ new_set nsems) }
    {
        Ok(Set {
            semaphores: SemSet::new(alloc, nsems)?,
            op_time: 0,
        })
    }
}

/// The state of a set, as IPC_STAT tells it (semctl(2)).
pub fn status(set: &Object<Set>) -> Status
    ensures { result ≡ status_of_set set.now }
{
    let Object {
        perm,
        change_time,
        contents,
    } = set;
    Status::Set(SetStatus {
        perm: *perm,
        nsems: contents.semaphores.len() as u64,
        otime: contents.op_time,
        ctime: *change_time,
    })
}
