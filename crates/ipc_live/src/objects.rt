//! An object as its line in /proc/sysvipc tells it.

ghost use Rattle.std.specs.Prelude.{◌≡◌};
ghost use Rattle.ipc_live.specs.Told.{kind_of};

use ipc_call::{Kind, Perm};

/// Which processes have used an object, as its line tells them (sysvipc(7)). A process number is 0 where there was none.
#[derive(Clone, Copy, Debug, PartialEq, Eq)]
pub enum Use {
    /// Of a queue: who sent last, and who received last.
    Queue { lspid: u32, lrpid: u32 },
    /// Of a semaphore set the line names no process.
    Sems,
    /// Of a segment: who created it, who attached or detached it last, and how many attachments it has.
    Segment { cpid: u32, lpid: u32, nattch: u64 },
}

/// An object of the machine.
#[derive(Clone, Copy, Debug, PartialEq, Eq)]
pub struct Object {
    /// The identifier.
    pub id: u32,
    /// Key, owner, creator and mode.
    pub perm: Perm,
    /// Who used it.
    pub used: Use,
}

impl Object {
    /// Its kind.
    pub fn kind(&self) -> Kind
        ensures { result ≡ kind_of self.now.used }
    {
        match self.used {
            Use::Queue { .. } => Kind::Queue,
            Use::Sems => Kind::Sems,
            Use::Segment { .. } => Kind::Segment,
        }
    }
}
