//! What the server tells a process.

ghost use Rattle.std.specs.Prelude.{◌≡◌};
ghost use Rattle.ipc_wire.specs.Replies.{answer_head, granted as head_granted, head_of, hindrance_head, refused as head_refused};

use ipc_abi::rule_code;
use ipc_call::{Answer, Boxed, Rule, Status, errno};

/// What a process is told in the reply to its request.
#[derive(Drop)]
pub enum Told {
    /// The number of the client that serves the connection, told on `Request::Hello`.
    Client(u32),
    /// The token of the child that is announced, told on `Request::Fork`.
    Token(u64),
    /// A call is granted. `size` is that of the segment in bytes where one was attached, and otherwise isn't told. The rows of a
    /// listing have no bytes, since no request asks for one.
    Granted {
        answer: Answer,
        size: u64,
    },
    /// A rule of the namespace refuses.
    Refused(Rule),
    /// The server itself refuses.
    Hindered(Hindrance),
    /// How many semaphores a set has.
    Nsems(u64),
    /// The identifier and the state of an object.
    At {
        id: u32,
        status: Boxed<Status>,
    },
    /// Of a kind the highest slot in use, how many objects there are, and the sum of their bytes, semaphores or messages.
    Totals {
        highest: u64,
        objects: u64,
        amount: u64,
    },
}

/// Why the server itself refuses.
#[derive(Clone, Copy, Debug, PartialEq, Eq)]
pub enum Hindrance {
    /// No client is left that could serve (EAGAIN).
    NoClientLeft,
    /// An allocation failed (ENOMEM).
    Memory,
    /// The user has as many clients as one may have (EAGAIN).
    TooManyOfUser,
    /// As many forks are announced as may be, in all or by the user (EAGAIN).
    TooManyForks,
}

/// The words of a reply: the number of its request, the number of the error (errno(3)) and the code of the rule where it
/// refuses, and otherwise the code of the sort of answer: 1 an identifier, 2 nothing, 3 a message, 4 a state, 5 a value,
/// 6 values, 7 an attachment, 8 bytes, 9 a listing, 10 a client, 11 a token, 12 a number of semaphores, 13 an object, 14 totals.
/// Then come three words, which the sort tells.
#[derive(Clone, Copy, Debug, PartialEq, Eq)]
pub struct Head {
    pub seq: u32,
    pub error: u32,
    pub rule: u32,
    pub sort: u32,
    pub v0: u64,
    pub v1: u64,
    pub v2: u64,
}

impl Told {
    /// The words of the reply to the request of this number.
    pub(crate) fn head(&self, seq: u32) -> Head
        ensures { result ≡ head_of seq self.now }
    {
        match *self {
            Told::Client(client) => granted(seq, 10, u64::from(client), 0, 0),
            Told::Token(token) => granted(seq, 11, token, 0, 0),
            Told::Granted { ref answer, size } => answered(seq, size, answer),
            Told::Refused(rule) => refused(seq, u32::from(errno(rule)), rule_code(rule)),
            Told::Hindered(hindrance) => hindered(seq, hindrance),
            Told::Nsems(n) => granted(seq, 12, n, 0, 0),
            Told::At { id, .. } => granted(seq, 13, u64::from(id), 0, 0),
            Told::Totals {
                highest,
                objects,
                amount,
            } => granted(seq, 14, highest, objects, amount),
        }
    }
}

fn answered(seq: u32, size: u64, answer: &Answer) -> Head
    ensures { result ≡ answer_head seq size answer.now }
{
    match *answer {
        Answer::Id(id) => granted(seq, 1, u64::from(id), 0, 0),
        Answer::Done => granted(seq, 2, 0, 0, 0),
        Answer::Message { mtype, .. } => granted(seq, 3, mtype.cast_unsigned(), 0, 0),
        Answer::Status(_) => granted(seq, 4, 0, 0, 0),
        Answer::Value(value) => granted(seq, 5, u64::from(value), 0, 0),
        Answer::Values(_) => granted(seq, 6, 0, 0, 0),
        Answer::Attached(number) => granted(seq, 7, u64::from(number), size, 0),
        Answer::Bytes(_) => granted(seq, 8, 0, 0, 0),
        Answer::Rows(_) => granted(seq, 9, 0, 0, 0),
    }
}

fn hindered(seq: u32, hindrance: Hindrance) -> Head
    ensures { result ≡ hindrance_head seq hindrance }
{
    match hindrance {
        Hindrance::NoClientLeft => refused(seq, 11, 42),
        Hindrance::Memory => refused(seq, 12, 43),
        Hindrance::TooManyOfUser => refused(seq, 11, 44),
        Hindrance::TooManyForks => refused(seq, 11, 45),
    }
}

fn granted(seq: u32, sort: u32, v0: u64, v1: u64, v2: u64) -> Head
    ensures { result ≡ head_granted seq sort v0 v1 v2 }
{
    Head {
        seq,
        error: 0,
        rule: 0,
        sort,
        v0,
        v1,
        v2,
    }
}

fn refused(seq: u32, error: u32, rule: u32) -> Head
    ensures { result ≡ head_refused seq error rule }
{
    Head {
        seq,
        error,
        rule,
        sort: 0,
        v0: 0,
        v1: 0,
        v2: 0,
    }
}
