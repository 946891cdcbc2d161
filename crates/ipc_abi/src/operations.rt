//! The operation codes of calls, and the codes of kinds of objects.

ghost use Rattle.std.specs.Prelude.{◌≡◌, slice_get};
ghost use Rattle.ipc_abi.specs.Operations.{kinds, operations};

use ipc_call::Kind;

/// Which call a request makes.
#[derive(Clone, Copy, Debug, PartialEq, Eq)]
pub enum Operation {
    MsgGet,
    MsgSnd,
    MsgRcv,
    SemGet,
    SemOp,
    SemTimedOp,
    GetVal,
    GetPid,
    GetNcnt,
    GetZcnt,
    GetAll,
    SetVal,
    SetAll,
    ShmGet,
    ShmAt,
    ShmDt,
    ShmRead,
    ShmWrite,
    IpcStat,
    IpcSet,
    IpcRmid,
    Listing,
    Interrupt,
    SetCreds,
    Exit,
    InterruptThread,
    Kill,
    Assume,
    Begin,
    Fork,
    Clone,
    Name,
    Exec,
}

const OPERATIONS: [Operation; 33] = [
    Operation::MsgGet,
    Operation::MsgSnd,
    Operation::MsgRcv,
    Operation::SemGet,
    Operation::SemOp,
    Operation::SemTimedOp,
    Operation::GetVal,
    Operation::GetPid,
    Operation::GetNcnt,
    Operation::GetZcnt,
    Operation::GetAll,
    Operation::SetVal,
    Operation::SetAll,
    Operation::ShmGet,
    Operation::ShmAt,
    Operation::ShmDt,
    Operation::ShmRead,
    Operation::ShmWrite,
    Operation::IpcStat,
    Operation::IpcSet,
    Operation::IpcRmid,
    Operation::Listing,
    Operation::Interrupt,
    Operation::SetCreds,
    Operation::Exit,
    Operation::InterruptThread,
    Operation::Kill,
    Operation::Assume,
    Operation::Begin,
    Operation::Fork,
    Operation::Clone,
    Operation::Name,
    Operation::Exec,
];

const KINDS: [Kind; 3] = [Kind::Queue, Kind::Sems, Kind::Segment];

impl Operation {
    /// The operation of a code, counted from 0 in the order above. None where it is the code of none.
    pub fn from_code(code: u32) -> Option<Operation>
        ensures { result ≡ slice_get operations code }
    {
        coded(&OPERATIONS, code)
    }
}

/// The kind of a code: queues, sets and segments from 0. None where it is the code of none.
pub(crate) fn kind_from_code(code: u32) -> Option<Kind>
    ensures { result ≡ slice_get kinds code }
{
    coded(&KINDS, code)
}

// What a code stands for in a list: its position, from 0.
fn coded<T: Copy>(list: &[T], code: u32) -> Option<T>
    ensures { result ≡ slice_get list.now code }
{
    list.get(code as usize).copied()
}
