//! A reply in numbers, and its lists.

ghost use Rattle.std.specs.Prelude.{◌≡◌, ◌≤◌, ◌↔◌, IsTrue, length, map, option_copied};
ghost use Rattle.ipc_abi.specs.Objects.{object_of_row};
ghost use Rattle.ipc_abi.specs.Replies.{answer_in, objects_in, put_in, text_in, values_in, FitsIn};
ghost use Rattle.ipc_abi.specs.Replies.{answer_in_numbers, list_in_numbers, outcome_in_numbers, reply_in_numbers, value_in_numbers};

use crate::objects::RawObject;
use crate::rules::rule_code;
use ipc_call::{Answer, Errno, Outcome, Reply, Row, errno};

/// A reply, in numbers. A number that it doesn't have is 0.
#[repr(C)]
#[derive(Clone, Copy, Debug, PartialEq, Eq)]
pub struct RawReply {
    /// The place of the event that ended the call, from 1; 0 where an allocation failed.
    pub place: u64,
    /// The type of the message that was received.
    pub mtype: i64,
    /// How many bytes, values or objects the answer has.
    pub len: u64,
    /// The turn among the calls that the event ended.
    pub turn: u32,
    /// The number of the error (errno(3)), 0 where the call was granted.
    pub errno: u32,
    /// The code of the rule that refused the call.
    pub rule: u32,
    /// The code of the sort of answer: 1 an identifier, 2 nothing, 3 a message, 4 the status of an object, 5 a value,
    /// 6 values, 7 an attachment, 8 bytes, 9 objects; 0 where there is no answer.
    pub answer: u32,
    /// The identifier, the value, or the number of the attachment.
    pub value: u32,
}

const BLANK: RawReply = RawReply {
    place: 0,
    mtype: 0,
    len: 0,
    turn: 0,
    errno: 0,
    rule: 0,
    answer: 0,
    value: 0,
};

impl RawReply {
    /// The numbers of a reply.
    #[tactic(auto, unfolding(ipc_call::specs::Errors::row_of))]
    pub fn new(reply: &Reply) -> RawReply
        ensures { result ≡ reply_in_numbers reply.now }
    {
        match reply {
            Reply::Memory => RawReply {
                errno: u32::from(Errno::ENOMEM.number()),
                ..BLANK
            },
            Reply::Entered {
                place,
                turn,
                outcome,
            } => RawReply {
                place: *place,
                turn: *turn,
                ..RawReply::of_outcome(outcome)
            },
        }
    }

    fn of_outcome(outcome: &Outcome) -> RawReply
        ensures { result ≡ outcome_in_numbers outcome.now }
    {
        match outcome {
            Err(rule) => RawReply {
                errno: u32::from(errno(*rule)),
                rule: rule_code(*rule),
                ..BLANK
            },
            Ok(answer) => RawReply::of_answer(answer),
        }
    }

    fn of_answer(answer: &Answer) -> RawReply
        ensures { result ≡ answer_in_numbers answer.now }
    {
        match answer {
            Answer::Id(id) => RawReply::of_value(1, *id),
            Answer::Done => RawReply::of_value(2, 0),
            Answer::Message { mtype, text } => RawReply {
                mtype: *mtype,
                ..RawReply::of_list(3, text.len())
            },
            Answer::Status(_) => RawReply::of_list(4, 1),
            Answer::Value(value) => RawReply::of_value(5, *value),
            Answer::Values(values) => RawReply::of_list(6, values.len()),
            Answer::Attached(number) => RawReply::of_value(7, *number),
            Answer::Bytes(bytes) => RawReply::of_list(8, bytes.len()),
            Answer::Rows(rows) => RawReply::of_list(9, rows.len()),
        }
    }

    fn of_value(answer: u32, value: u32) -> RawReply
        ensures { result ≡ value_in_numbers answer value }
    {
        RawReply {
            answer,
            value,
            ..BLANK
        }
    }

    fn of_list(answer: u32, len: usize) -> RawReply
        ensures { result ≡ list_in_numbers answer len }
    {
        RawReply {
            answer,
            len: len as u64,
            ..BLANK
        }
    }
}

/// Whether the lists of a reply fit in slices of these lengths.
#[inline(always)]
pub fn fits(reply: &Reply, bytes: usize, values: usize, objects: usize) -> bool
    ensures { IsTrue result ↔ FitsIn reply.now bytes values objects }
{
    match answer_of(reply) {
        Some(Answer::Message { text, .. }) => text.len() <= bytes,
        Some(Answer::Bytes(list)) => list.len() <= bytes,
        Some(Answer::Values(list)) => list.len() <= values,
        Some(Answer::Status(_)) => 1 <= objects,
        Some(Answer::Rows(rows)) => rows.len() <= objects,
        _ => true,
    }
}

/// Copies the lists of a reply to the fronts of the slices.
#[inline(always)]
pub fn copy_lists(reply: &Reply, bytes: &mut [u8], values: &mut [u16], objects: &mut [RawObject])
    requires { FitsIn reply.now (length bytes.old) (length values.old) (length objects.old) }
    ensures bytes { bytes.new ≡ put_in (text_in reply.now) bytes.old }
    ensures values { values.new ≡ put_in (values_in reply.now) values.old }
    ensures objects { objects.new ≡ put_in (objects_in reply.now) objects.old }
{
    match answer_of(reply) {
        Some(Answer::Message { text, .. }) => put(bytes, text.as_slice()),
        Some(Answer::Bytes(list)) => put(bytes, list.as_slice()),
        Some(Answer::Values(list)) => put(values, list.as_slice()),
        Some(Answer::Status(status)) => objects[0] = RawObject::of_status(status.get()),
        Some(Answer::Rows(rows)) => put_rows(objects, rows.as_slice()),
        _ => {}
    }
}

// What a reply answers, where its call was granted.
fn answer_of(reply: &Reply) -> Option<&Answer>
    ensures { option_copied result ≡ answer_in reply.now }
{
    match reply {
        Reply::Entered {
            outcome: Ok(answer),
            ..
        } => Some(answer),
        _ => None,
    }
}

fn put_rows(objects: &mut [RawObject], rows: &[Row])
    requires { length rows.now ≤ length objects.old }
    ensures { objects.new ≡ put_in (map object_of_row rows.now) objects.old }
{
    for k in 0..rows.len() {
        objects[k] = RawObject::of_row(&rows[k]);
    }
}

// Copies a list to the front of a slice.
fn put<T: Copy>(slice: &mut [T], list: &[T])
    requires { length list.now ≤ length slice.old }
    ensures { slice.new ≡ put_in list.now slice.old }
{
    slice[..list.len()].copy_from_slice(list);
}
