//! The message that bytes are.

ghost use Rattle.std.specs.Prelude.{◌≡◌, ◌%◌, ◌≤◌, ◌↔◌, length, IsTrue, IfErr, IfOk, None, Some};
ghost use Rattle.ipc_wire.specs.Layout.{oper_in, opers_in, room_in, values_in as values_from};
ghost use Rattle.ipc_wire.specs.Requests.{decode, kind_in as kind_from, low as low_bits, meant, payload_of, request_in, timeout_in as timeout_from};
ghost use Rattle.ipc_wire.specs.declared.reading.BadMessage.TheVariants.{Unknown};

use crate::operations::Operation;
use crate::requests::{Ask, Look, Message, Request};
use crate::words::{WORDS_LEN, Words, u16_at, u64_at};
use ipc_call::{Items, Kind, Memory, SemOper};
use std::alloc::Global;

/// Why bytes are read as no message.
#[derive(Clone, Copy, Debug, PartialEq, Eq)]
pub enum BadMessage {
    /// They are the bytes of none.
    Unknown,
    /// An allocation fails (ENOMEM).
    Memory,
}

impl From<Memory> for BadMessage {
    ghost use Rattle.ipc_wire.specs.declared.reading.BadMessage.TheVariants.{Memory as NoMemory};

    ghost from_gives = { λ _ bad. bad ≡ NoMemory };

    fn from(_memory: Memory) -> BadMessage {
        BadMessage::Memory
    }
}

/// The message of a process that these bytes are. Only the lists that it carries are allocated.
pub fn read(alloc: Global, bytes: &[u8]) -> Result<Message, BadMessage>
    ensures ok { IfOk result (λ message. decode bytes.now ≡ Some message) }
    ensures err { IfErr result (λ bad. bad ≡ Unknown → decode bytes.now ≡ None) }
{
    if bytes.len() < WORDS_LEN {
        return Err(BadMessage::Unknown);
    }
    let words = Words::read(bytes);
    match Operation::from_code(words.op) {
        None => Err(BadMessage::Unknown),
        Some(operation) => read_words(alloc, operation, words, &bytes[WORDS_LEN..]),
    }
}

// The message of these words and this payload, where they are those of one.
fn read_words(
    alloc: Global,
    operation: Operation,
    words: Words,
    payload: &[u8],
) -> Result<Message, BadMessage>
    ensures ok { IfOk result (λ message. request_in words payload.now operation ≡ Some message) }
    ensures err { IfErr result (λ bad. bad ≡ Unknown → request_in words payload.now operation ≡ None) }
{
    if payload.len() > operation.longest() {
        return Err(BadMessage::Unknown);
    }
    let request = meaning(alloc, operation, words, payload)?;
    let seq = words.seq;
    if request.words(seq).is_same(words) && request.has_payload_of(payload.len()) {
        Ok(Message { seq, request })
    } else {
        Err(BadMessage::Unknown)
    }
}

// What they mean, if they are those of a request.
fn meaning(alloc: Global, operation: Operation, w: Words, payload: &[u8]) -> Result<Request, Memory>
    ensures { IfOk result (λ request. request ≡ meant operation w payload.now) }
{
    Ok(match operation {
        Operation::Hello => Request::Hello {
            version: low(w.a),
            token: w.b,
        },
        Operation::Cancel => Request::Cancel { seq: low(w.a) },
        Operation::Fork => Request::Fork,
        Operation::MsgGet => Request::Calls(Ask::MsgGet {
            key: low(w.a),
            flags: low(w.b),
        }),
        Operation::MsgSnd => Request::Calls(Ask::MsgSnd {
            id: w.a,
            mtype: w.b.cast_signed(),
            text: text(alloc, payload)?,
            flags: low(w.c),
        }),
        Operation::MsgRcv => Request::Calls(Ask::MsgRcv {
            id: w.a,
            size: w.b,
            msgtyp: w.c.cast_signed(),
            flags: low(w.d),
        }),
        Operation::SemGet => Request::Calls(Ask::SemGet {
            key: low(w.a),
            nsems: low(w.b),
            flags: low(w.c),
        }),
        Operation::SemOp => Request::Calls(Ask::SemOp {
            id: w.a,
            opers: opers(alloc, payload)?,
        }),
        Operation::SemTimedOp => Request::Calls(Ask::SemTimedOp {
            id: w.a,
            opers: opers(alloc, payload)?,
            timeout: timeout(w.b),
        }),
        Operation::GetVal => Request::Calls(Ask::GetVal {
            id: w.a,
            num: low(w.b),
        }),
        Operation::GetPid => Request::Calls(Ask::GetPid {
            id: w.a,
            num: low(w.b),
        }),
        Operation::GetNcnt => Request::Calls(Ask::GetNcnt {
            id: w.a,
            num: low(w.b),
        }),
        Operation::GetZcnt => Request::Calls(Ask::GetZcnt {
            id: w.a,
            num: low(w.b),
        }),
        Operation::GetAll => Request::Calls(Ask::GetAll { id: w.a }),
        Operation::SetVal => Request::Calls(Ask::SetVal {
            id: w.a,
            num: low(w.b),
            value: low(w.c).cast_signed(),
        }),
        Operation::SetAll => Request::Calls(Ask::SetAll {
            id: w.a,
            values: values(alloc, payload)?,
        }),
        Operation::ShmGet => Request::Calls(Ask::ShmGet {
            key: low(w.a),
            size: w.b,
            flags: low(w.c),
        }),
        Operation::ShmAt => Request::Calls(Ask::ShmAt {
            id: w.a,
            flags: low(w.b),
        }),
        Operation::ShmDt => Request::Calls(Ask::ShmDt { att: low(w.a) }),
        Operation::IpcStat => Request::Calls(Ask::IpcStat {
            kind: kind(w.a),
            id: w.b,
        }),
        Operation::IpcSet => Request::Calls(Ask::IpcSet {
            kind: kind(w.a),
            id: w.b,
            uid: low(w.c),
            gid: low(w.d),
            mode: low(w.e),
            qbytes: room(payload),
        }),
        Operation::IpcRmid => Request::Calls(Ask::IpcRmid {
            kind: kind(w.a),
            id: w.b,
        }),
        Operation::Nsems => Request::Looks(Look::Nsems { id: w.a }),
        Operation::At => Request::Looks(Look::At {
            kind: kind(w.a),
            slot: low(w.b),
            any: w.c == 1,
        }),
        Operation::Totals => Request::Looks(Look::Totals { kind: kind(w.a) }),
    })
}

// The low 32 bits.
fn low(word: u64) -> u32
    ensures { result ≡ low_bits word }
{
    (word % 4294967296) as u32
}

fn kind(word: u64) -> Kind
    ensures { result ≡ kind_from word }
{
    match word {
        0 => Kind::Queue,
        1 => Kind::Sems,
        _ => Kind::Segment,
    }
}

fn timeout(word: u64) -> Option<u64>
    ensures { result ≡ timeout_from word }
{
    if word == u64::MAX { None } else { Some(word) }
}

fn text(alloc: Global, payload: &[u8]) -> Result<Items<u8>, Memory>
    ensures { IfOk result (λ text. text ≡ payload.now) }
{
    Ok(Items::new(Vec::from_slice(alloc, payload)?))
}

fn room(payload: &[u8]) -> Option<u64>
    ensures { result ≡ room_in payload.now }
{
    if payload.len() < 8 {
        return None;
    }
    Some(u64_at(payload, 0))
}

#[tactic(auto, using(crate::proofs::Payloads::opers_step, crate::proofs::Payloads::opers_short))]
fn opers(alloc: Global, payload: &[u8]) -> Result<Items<SemOper>, Memory>
    ensures { IfOk result (λ opers. opers ≡ opers_in payload.now) }
{
    let mut opers = Vec::with_capacity(alloc, payload.len() / 6)?;
    let mut rest = payload;
    while rest.len() >= 6 {
        opers.push(oper(rest))?;
        rest = &rest[6..];
    }
    Ok(Items::new(opers))
}

// The operation of the first six bytes.
fn oper(bytes: &[u8]) -> SemOper
    requires { 6 ≤ length bytes.now }
    ensures { result ≡ oper_in bytes.now }
{
    SemOper {
        num: u16_at(bytes, 0),
        op: u16_at(bytes, 2).cast_signed(),
        flags: u16_at(bytes, 4),
    }
}

#[tactic(auto, using(crate::proofs::Payloads::values_step, crate::proofs::Payloads::values_short))]
fn values(alloc: Global, payload: &[u8]) -> Result<Items<i32>, Memory>
    ensures { IfOk result (λ values. values ≡ values_from payload.now) }
{
    let mut values = Vec::with_capacity(alloc, payload.len() / 2)?;
    let mut rest = payload;
    while rest.len() >= 2 {
        values.push(i32::from(u16_at(rest, 0)))?;
        rest = &rest[2..];
    }
    Ok(Items::new(values))
}

impl Request {
    /// Whether its payload has this length, in bytes.
    #[tactic(auto, using(crate::proofs::Payloads::opers_length, crate::proofs::Payloads::values_length))]
    fn has_payload_of(&self, len: usize) -> bool
        ensures { IsTrue result ↔ (length (payload_of self.now) ≡ len) }
    {
        match self {
            Request::Calls(Ask::MsgSnd { text, .. }) => text.len() == len,
            Request::Calls(Ask::SemOp { opers, .. } | Ask::SemTimedOp { opers, .. }) => len % 6 == 0
                && len / 6 == opers.len(),
            Request::Calls(Ask::SetAll { values, .. }) => len % 2 == 0 && len / 2 == values.len(),
            Request::Calls(
                Ask::IpcSet {
                    qbytes: Some(_),
                    ..
                },
            ) => len == 8,
            _ => len == 0,
        }
    }
}
