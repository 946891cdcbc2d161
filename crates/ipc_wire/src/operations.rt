//! The codes of operations.

ghost use Rattle.std.specs.Prelude.{◌≡◌};
ghost use Rattle.ipc_wire.specs.Operations.{code_of, longest, operation_of};

/// What a message asks for, with its code.
#[derive(Clone, Copy, Debug, PartialEq, Eq)]
pub enum Operation {
    Hello = 1,
    Cancel = 2,
    Fork = 3,
    MsgGet = 10,
    MsgSnd = 11,
    MsgRcv = 12,
    SemGet = 20,
    SemOp = 21,
    SemTimedOp = 22,
    GetVal = 23,
    GetPid = 24,
    GetNcnt = 25,
    GetZcnt = 26,
    GetAll = 27,
    SetVal = 28,
    SetAll = 29,
    ShmGet = 30,
    ShmAt = 31,
    ShmDt = 32,
    IpcStat = 40,
    IpcSet = 41,
    IpcRmid = 42,
    Nsems = 50,
    At = 51,
    Totals = 52,
}

const OPERATIONS: [Operation; 25] = [
    Operation::Hello,
    Operation::Cancel,
    Operation::Fork,
    Operation::MsgGet,
    Operation::MsgSnd,
    Operation::MsgRcv,
    Operation::SemGet,
    Operation::SemOp,
    Operation::SemTimedOp,
    Operation::GetVal,
    Operation::GetPid,
    Operation::GetNcnt,
    Operation::GetZcnt,
    Operation::GetAll,
    Operation::SetVal,
    Operation::SetAll,
    Operation::ShmGet,
    Operation::ShmAt,
    Operation::ShmDt,
    Operation::IpcStat,
    Operation::IpcSet,
    Operation::IpcRmid,
    Operation::Nsems,
    Operation::At,
    Operation::Totals,
];

impl Operation {
    /// Its code.
    pub fn code(self) -> u32
        ensures { result ≡ code_of self }
    {
        self as u32
    }

    /// The operation of a code. None where it is the code of none.
    pub fn from_code(code: u32) -> Option<Operation>
        ensures { result ≡ operation_of code }
    {
        OPERATIONS
            .iter()
            .copied()
            .find(|operation| operation.code() == code)
    }

    /// The longest payload that it may have, in bytes.
    pub fn longest(self) -> usize
        ensures { result ≡ longest self }
    {
        match self {
            Operation::SemOp | Operation::SemTimedOp => 3006,
            _ => 69952,
        }
    }
}
