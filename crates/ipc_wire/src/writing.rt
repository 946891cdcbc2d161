//! The bytes of replies.

ghost use Rattle.std.specs.Prelude.{◌≡◌, ◌+◌, ◌*◌, ◌≤◌, ◌↔◌, [], ◌++◌, length, vec_capacity, vec_len, IfOk, IsTrue, MatchBool};
ghost use Rattle.std.specs.Int.{w16, w32, w64};
ghost use Rattle.ipc_wire.specs.Replies.{answer_payload, marked_mode, head_bytes, numbers_bytes, payload_told, perm_bytes, reply_bytes, status_bytes};

use crate::told::{Head, Told};
use ipc_call::{Answer, Memory, Perm, SegmentStatus, Status};
use std::alloc::Global;
use std::marker::Model;

/// The longest message, in bytes, and the longest payload of a reply.
const MESSAGE_MAX: usize = 70000;

const PAYLOAD_MAX: usize = 69960;

/// The bytes of a reply, in memory that is made at the start.
#[derive(Debug, Drop)]
pub struct ReplyBytes {
    bytes: Vec<u8>,
}

impl Model for ReplyBytes {
    ghost use Rattle.std.specs.Prelude.{ℕ, List, ◌≤◌, vec_capacity};

    ghost Value = { List ℕ };

    ghost view = { λ r. r.bytes.items };

    ghost invariant = { λ r. 70000 ≤ vec_capacity r.bytes };
}

impl ReplyBytes {
    /// No bytes, with room for those of any reply. The error comes only where an allocation fails.
    pub fn new(alloc: Global) -> Result<ReplyBytes, Memory>
        ensures { IfOk result (λ reply. reply ≡ []) }
    {
        let bytes = Vec::with_capacity(alloc, MESSAGE_MAX)?;
        Ok(ReplyBytes { bytes })
    }

    /// The bytes.
    pub fn as_slice(&self) -> &[u8]
        ensures { result.now ≡ self.now }
    {
        self.bytes.as_slice()
    }

    /// Writes the reply to the request of this number in place of what was there. It doesn't allocate. Where the reply is longer
    /// than a message may be, which no text and no values of a namespace are, it is false and leaves no bytes.
    pub fn write(&mut self, seq: u32, told: &Told) -> bool
        ensures fits { IsTrue result ↔ (length (payload_told told.now) ≤ 69960) }
        ensures written { MatchBool result (self.new ≡ reply_bytes seq told.now) (self.new ≡ []) }
    {
        put_reply(&mut self.bytes, seq, told)
    }
}

fn put_reply(out: &mut Vec<u8>, seq: u32, told: &Told) -> bool
    requires { 70000 ≤ vec_capacity out.old }
    ensures fits { IsTrue result ↔ (length (payload_told told.now) ≤ 69960) }
    ensures written { MatchBool result (out.new.items ≡ reply_bytes seq told.now) (out.new.items ≡ []) }
    ensures capacity { vec_capacity out.old ≤ vec_capacity out.new }
{
    out.clear();
    if !told.fits() {
        return false;
    }
    put_head(out, told.head(seq));
    put_payload(out, told);
    true
}

impl Told {
    // Whether its payload fits in a message.
    #[tactic(auto, using(crate::proofs::Numbers::u16s_length, crate::proofs::Numbers::status_short))]
    fn fits(&self) -> bool
        ensures { IsTrue result ↔ (length (payload_told self.now) ≤ 69960) }
    {
        match self {
            Told::Granted {
                answer: Answer::Message { text, .. },
                ..
            } => text.len() <= PAYLOAD_MAX,
            Told::Granted {
                answer: Answer::Bytes(bytes),
                ..
            } => bytes.len() <= PAYLOAD_MAX,
            Told::Granted {
                answer: Answer::Values(values),
                ..
            } => values.len() <= PAYLOAD_MAX / 2,
            _ => true,
        }
    }
}

fn put_head(out: &mut Vec<u8>, head: Head)
    requires { vec_len out.old + 40 ≤ vec_capacity out.old }
    ensures items { out.new.items ≡ out.old.items ++ head_bytes head }
    ensures len { vec_len out.new ≡ vec_len out.old + 40 }
    ensures capacity { vec_capacity out.old ≤ vec_capacity out.new }
{
    put_u32s(out, &[head.seq, head.error, head.rule, head.sort]);
    put_u64s(out, &[head.v0, head.v1, head.v2]);
}

fn put_payload(out: &mut Vec<u8>, told: &Told)
    requires fits { length (payload_told told.now) ≤ 69960 }
    requires room { vec_len out.old + 69960 ≤ vec_capacity out.old }
    ensures items { out.new.items ≡ out.old.items ++ payload_told told.now }
    ensures capacity { vec_capacity out.old ≤ vec_capacity out.new }
{
    match told {
        Told::Granted { answer, .. } => put_answer(out, answer),
        Told::At { status, .. } => put_status(out, status.get()),
        _ => {}
    }
}

#[tactic(auto, using(crate::proofs::Numbers::u16s_length))]
fn put_answer(out: &mut Vec<u8>, answer: &Answer)
    requires fits { length (answer_payload answer.now) ≤ 69960 }
    requires room { vec_len out.old + 69960 ≤ vec_capacity out.old }
    ensures items { out.new.items ≡ out.old.items ++ answer_payload answer.now }
    ensures capacity { vec_capacity out.old ≤ vec_capacity out.new }
{
    match answer {
        Answer::Message { text, .. } => put(out, text.as_slice()),
        Answer::Status(status) => put_status(out, status.get()),
        Answer::Values(values) => put_u16s(out, values.as_slice()),
        Answer::Bytes(bytes) => put(out, bytes.as_slice()),
        _ => {}
    }
}

#[tactic(auto, unfolding(crate::specs::Replies::status_bytes))]
fn put_status(out: &mut Vec<u8>, status: &Status)
    requires { vec_len out.old + 112 ≤ vec_capacity out.old }
    ensures items { out.new.items ≡ out.old.items ++ status_bytes status.now }
    ensures capacity { vec_capacity out.old ≤ vec_capacity out.new }
{
    match status {
        Status::Queue(q) => {
            put_perm(out, &q.perm, u64::from(q.perm.mode.bits()));
            put_u64s(
                out,
                &[
                    q.cbytes,
                    q.qnum,
                    q.qbytes,
                    u64::from(q.lspid),
                    u64::from(q.lrpid),
                    q.stime,
                    q.rtime,
                    q.ctime,
                ],
            );
        }
        Status::Set(s) => {
            put_perm(out, &s.perm, u64::from(s.perm.mode.bits()));
            put_u64s(out, &[s.nsems, s.otime, s.ctime]);
        }
        Status::Segment(s) => {
            put_perm(out, &s.perm, mode_of_segment(s));
            put_u64s(
                out,
                &[
                    s.size,
                    s.nattch,
                    u64::from(s.cpid),
                    u64::from(s.lpid),
                    s.atime,
                    s.dtime,
                    s.ctime,
                ],
            );
        }
    }
}

fn put_perm(out: &mut Vec<u8>, perm: &Perm, mode: u64)
    requires { vec_len out.old + 48 ≤ vec_capacity out.old }
    ensures items { out.new.items ≡ out.old.items ++ perm_bytes perm.now mode }
    ensures len { vec_len out.new ≡ vec_len out.old + 48 }
    ensures capacity { vec_capacity out.old ≤ vec_capacity out.new }
{
    put_u64s(
        out,
        &[
            u64::from(perm.key),
            u64::from(perm.uid),
            u64::from(perm.gid),
            u64::from(perm.cuid),
            u64::from(perm.cgid),
            mode,
        ],
    );
}

// The mode of a segment, with SHM_DEST where it goes with its last attachment.
fn mode_of_segment(segment: &SegmentStatus) -> u64
    ensures { result ≡ marked_mode segment.now.is_marked segment.now.perm.mode }
{
    let mode = u64::from(segment.perm.mode.bits());
    if segment.is_marked { mode + 512 } else { mode }
}

#[tactic(auto, unfolding(crate::specs::Replies::numbers_bytes))]
fn put_u16s(out: &mut Vec<u8>, numbers: &[u16])
    requires { vec_len out.old + 2 * length numbers.now ≤ vec_capacity out.old }
    ensures items { out.new.items ≡ out.old.items ++ numbers_bytes w16 numbers.now }
    ensures len { vec_len out.new ≡ vec_len out.old + 2 * length numbers.now }
    ensures capacity { vec_capacity out.old ≤ vec_capacity out.new }
{
    for number in numbers {
        put(out, &number.to_le_bytes());
    }
}

#[tactic(auto, unfolding(crate::specs::Replies::numbers_bytes))]
fn put_u32s(out: &mut Vec<u8>, numbers: &[u32])
    requires { vec_len out.old + 4 * length numbers.now ≤ vec_capacity out.old }
    ensures items { out.new.items ≡ out.old.items ++ numbers_bytes w32 numbers.now }
    ensures len { vec_len out.new ≡ vec_len out.old + 4 * length numbers.now }
    ensures capacity { vec_capacity out.old ≤ vec_capacity out.new }
{
    for number in numbers {
        put(out, &number.to_le_bytes());
    }
}

#[tactic(auto, unfolding(crate::specs::Replies::numbers_bytes))]
fn put_u64s(out: &mut Vec<u8>, numbers: &[u64])
    requires { vec_len out.old + 8 * length numbers.now ≤ vec_capacity out.old }
    ensures items { out.new.items ≡ out.old.items ++ numbers_bytes w64 numbers.now }
    ensures len { vec_len out.new ≡ vec_len out.old + 8 * length numbers.now }
    ensures capacity { vec_capacity out.old ≤ vec_capacity out.new }
{
    for number in numbers {
        put(out, &number.to_le_bytes());
    }
}

// Appends bytes that there is room for.
fn put(out: &mut Vec<u8>, bytes: &[u8])
    requires { vec_len out.old + length bytes.now ≤ vec_capacity out.old }
    ensures items { out.new.items ≡ out.old.items ++ bytes.now }
    ensures len { vec_len out.new ≡ vec_len out.old + length bytes.now }
    ensures capacity { vec_capacity out.old ≤ vec_capacity out.new }
{
    out.extend_from_slice(bytes).unwrap();
}
