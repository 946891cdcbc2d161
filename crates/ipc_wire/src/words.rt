//! The words of a request, and those of each.

ghost use Rattle.std.specs.Prelude.{◌≡◌, ◌+◌, ◌≤◌, length};
ghost use Rattle.ipc_wire.specs.Layout.{same_words, u16_at as u16_from, u32_at as u32_from, u64_at as u64_from, words_in};
ghost use Rattle.ipc_wire.specs.Requests.{ask_words, code_of_kind, look_words, timeout_word as word_of_timeout, words as words_with, words_of};

use crate::operations::Operation;
use crate::requests::{Ask, Look, Request};
use ipc_call::Kind;

/// The length of the words of a request, in bytes.
pub const WORDS_LEN: usize = 48;

/// The words of a request: its operation's code, its number, and five more, whose meaning the operation tells. One that
/// it has no use for is 0.
#[derive(Clone, Copy, Debug, PartialEq, Eq)]
pub struct Words {
    pub op: u32,
    pub seq: u32,
    pub a: u64,
    pub b: u64,
    pub c: u64,
    pub d: u64,
    pub e: u64,
}

impl Words {
    /// The words that bytes begin with.
    pub fn read(bytes: &[u8]) -> Words
        requires { 48 ≤ length bytes.now }
        ensures { result ≡ words_in bytes.now }
    {
        Words {
            op: u32_at(bytes, 0),
            seq: u32_at(bytes, 4),
            a: u64_at(bytes, 8),
            b: u64_at(bytes, 16),
            c: u64_at(bytes, 24),
            d: u64_at(bytes, 32),
            e: u64_at(bytes, 40),
        }
    }

    /// Whether each word is the same.
    pub fn is_same(self, other: Words) -> bool
        ensures { result ≡ same_words self other }
    {
        self.op == other.op
            && self.seq == other.seq
            && self.a == other.a
            && self.b == other.b
            && self.c == other.c
            && self.d == other.d
            && self.e == other.e
    }

    fn new(operation: Operation, seq: u32, a: u64, b: u64, c: u64, d: u64, e: u64) -> Words
        ensures { result ≡ words_with operation seq a b c d e }
    {
        Words {
            op: operation.code(),
            seq,
            a,
            b,
            c,
            d,
            e,
        }
    }
}

/// The number of two bytes from a place on.
pub fn u16_at(bytes: &[u8], at: usize) -> u16
    requires { at + 2 ≤ length bytes.now }
    ensures { result ≡ u16_from at bytes.now }
{
    let two = &bytes[at..at + 2];
    u16::from_le_bytes([two[0], two[1]])
}

// The number of four bytes from a place on.
fn u32_at(bytes: &[u8], at: usize) -> u32
    requires { at + 4 ≤ length bytes.now }
    ensures { result ≡ u32_from at bytes.now }
{
    let four = &bytes[at..at + 4];
    u32::from_le_bytes([four[0], four[1], four[2], four[3]])
}

/// The number of eight bytes from a place on.
pub fn u64_at(bytes: &[u8], at: usize) -> u64
    requires { at + 8 ≤ length bytes.now }
    ensures { result ≡ u64_from at bytes.now }
{
    let eight = &bytes[at..at + 8];
    u64::from_le_bytes([
        eight[0], eight[1], eight[2], eight[3], eight[4], eight[5], eight[6], eight[7],
    ])
}

impl Request {
    /// The words of the request under this number.
    pub(crate) fn words(&self, seq: u32) -> Words
        ensures { result ≡ words_of seq self.now }
    {
        match *self {
            Request::Hello { version, token } => {
                Words::new(Operation::Hello, seq, u64::from(version), token, 0, 0, 0)
            }
            Request::Cancel { seq: other } => Words::new(
                Operation::Cancel,
                seq,
                u64::from(other),
                0,
                0,
                0,
                0,
            ),
            Request::Fork => Words::new(Operation::Fork, seq, 0, 0, 0, 0, 0),
            Request::Calls(ref ask) => ask.words(seq),
            Request::Looks(look) => look.words(seq),
        }
    }
}

impl Ask {
    fn words(&self, seq: u32) -> Words
        ensures { result ≡ ask_words seq self.now }
    {
        match *self {
            Ask::MsgGet { key, flags } => Words::new(
                Operation::MsgGet,
                seq,
                u64::from(key),
                u64::from(flags),
                0,
                0,
                0,
            ),
            Ask::MsgSnd {
                id,
                mtype,
                flags,
                ..
            } => Words::new(
                Operation::MsgSnd,
                seq,
                id,
                mtype.cast_unsigned(),
                u64::from(flags),
                0,
                0,
            ),
            Ask::MsgRcv {
                id,
                size,
                msgtyp,
                flags,
            } => Words::new(
                Operation::MsgRcv,
                seq,
                id,
                size,
                msgtyp.cast_unsigned(),
                u64::from(flags),
                0,
            ),
            Ask::SemGet { key, nsems, flags } => Words::new(
                Operation::SemGet,
                seq,
                u64::from(key),
                u64::from(nsems),
                u64::from(flags),
                0,
                0,
            ),
            Ask::SemOp { id, .. } => Words::new(Operation::SemOp, seq, id, 0, 0, 0, 0),
            Ask::SemTimedOp { id, timeout, .. } => Words::new(
                Operation::SemTimedOp,
                seq,
                id,
                timeout_word(timeout),
                0,
                0,
                0,
            ),
            Ask::GetVal { id, num } => Words::new(
                Operation::GetVal,
                seq,
                id,
                u64::from(num),
                0,
                0,
                0,
            ),
            Ask::GetPid { id, num } => Words::new(
                Operation::GetPid,
                seq,
                id,
                u64::from(num),
                0,
                0,
                0,
            ),
            Ask::GetNcnt { id, num } => Words::new(
                Operation::GetNcnt,
                seq,
                id,
                u64::from(num),
                0,
                0,
                0,
            ),
            Ask::GetZcnt { id, num } => Words::new(
                Operation::GetZcnt,
                seq,
                id,
                u64::from(num),
                0,
                0,
                0,
            ),
            Ask::GetAll { id } => Words::new(Operation::GetAll, seq, id, 0, 0, 0, 0),
            Ask::SetVal { id, num, value } => Words::new(
                Operation::SetVal,
                seq,
                id,
                u64::from(num),
                i64::from(value).cast_unsigned(),
                0,
                0,
            ),
            Ask::SetAll { id, .. } => Words::new(Operation::SetAll, seq, id, 0, 0, 0, 0),
            Ask::ShmGet { key, size, flags } => Words::new(
                Operation::ShmGet,
                seq,
                u64::from(key),
                size,
                u64::from(flags),
                0,
                0,
            ),
            Ask::ShmAt { id, flags } => Words::new(
                Operation::ShmAt,
                seq,
                id,
                u64::from(flags),
                0,
                0,
                0,
            ),
            Ask::ShmDt { att } => Words::new(Operation::ShmDt, seq, u64::from(att), 0, 0, 0, 0),
            Ask::IpcStat { kind, id } => Words::new(
                Operation::IpcStat,
                seq,
                kind_word(kind),
                id,
                0,
                0,
                0,
            ),
            Ask::IpcSet {
                kind,
                id,
                uid,
                gid,
                mode,
                ..
            } => Words::new(
                Operation::IpcSet,
                seq,
                kind_word(kind),
                id,
                u64::from(uid),
                u64::from(gid),
                u64::from(mode),
            ),
            Ask::IpcRmid { kind, id } => Words::new(
                Operation::IpcRmid,
                seq,
                kind_word(kind),
                id,
                0,
                0,
                0,
            ),
        }
    }
}

impl Look {
    fn words(self, seq: u32) -> Words
        ensures { result ≡ look_words seq self }
    {
        match self {
            Look::Nsems { id } => Words::new(Operation::Nsems, seq, id, 0, 0, 0, 0),
            Look::At { kind, slot, any } => Words::new(
                Operation::At,
                seq,
                kind_word(kind),
                u64::from(slot),
                u64::from(any),
                0,
                0,
            ),
            Look::Totals { kind } => Words::new(
                Operation::Totals,
                seq,
                kind_word(kind),
                0,
                0,
                0,
                0,
            ),
        }
    }
}

fn kind_word(kind: Kind) -> u64
    ensures { result ≡ code_of_kind kind }
{
    match kind {
        Kind::Queue => 0,
        Kind::Sems => 1,
        Kind::Segment => 2,
    }
}

fn timeout_word(timeout: Option<u64>) -> u64
    ensures { result ≡ word_of_timeout timeout }
{
    timeout.unwrap_or(u64::MAX)
}
