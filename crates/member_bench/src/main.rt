//! Makes calls of one client of a service, whose instructions `./bench c` counts beside those of the same calls in C
//! (`lib/calls_in_c.c`). Its words are how many calls it makes, and which.
#![tactic(auto)]

use ipc_call::{Answer, Call, IPC_CREAT, IPC_NOWAIT, Items, SemOper};
use ipc_member::Member;
use std::process::ExitCode;
use std::sync::Wait;
use std::{env, io};
use test_support::calls::answer_in;
use test_support::clients::few_users;
use test_support::measuring::{unanswered, widest_limits};

/// The key of the queue and of the set.
const KEY: u32 = 5;

/// What is asked again and again.
#[derive(Clone, Copy, Debug)]
enum Task {
    /// The queue of a key.
    Get,
    /// A message, of a queue whose permission bits deny it to its owner.
    Denied,
    /// To send a text of so many bytes to an empty queue, and to receive it.
    Message(usize),
    /// To add 1 to a semaphore.
    Operate,
}

/// One call of a client: its answer, None where it is refused.
#[inline(always)]
fn ask<R: Wait>(rt: &R, member: Member, call: Call) -> (Member, Option<Answer>) {
    let (member, reply) = member.call(rt, 0, call);
    (member, answer_in(reply))
}

/// The client makes a queue: its identifier.
fn queue<R: Wait>(rt: &R, member: Member, mode: u32) -> io::Result<(Member, u32)> {
    let flags = IPC_CREAT | mode;
    match ask(rt, member, Call::MsgGet { key: KEY, flags }) {
        (member, Some(Answer::Id(id))) => Ok((member, id)),
        _ => Err(unanswered()),
    }
}

/// Gets a queue by its key, so many times.
fn get<R: Wait>(rt: &R, member: Member, calls: u32) -> io::Result<()> {
    let (mut member, _) = queue(rt, member, 0o600)?;
    for _ in 0..calls {
        let call = Call::MsgGet {
            key: KEY,
            flags: 0o600,
        };
        let (next, Some(Answer::Id(_))) = ask(rt, member, call) else {
            return Err(unanswered());
        };
        member = next;
    }
    Ok(())
}

/// Asks for a message of a queue that denies it, so many times.
fn denied<R: Wait>(rt: &R, member: Member, calls: u32) -> io::Result<()> {
    let (mut member, id) = queue(rt, member, 0)?;
    for _ in 0..calls {
        let call = Call::MsgRcv {
            id,
            size: 64,
            msgtyp: 0,
            flags: IPC_NOWAIT,
        };
        let (next, None) = ask(rt, member, call) else {
            return Err(unanswered());
        };
        member = next;
    }
    Ok(())
}

/// Sends a copy of a text.
#[inline(always)]
fn send<R: Wait + AllocGlobal>(rt: &R, member: Member, id: u32, text: &[u8]) -> io::Result<Member> {
    let call = Call::MsgSnd {
        id,
        mtype: 1,
        text: Items::new(Vec::from_slice(rt.alloc(), text)?),
        flags: IPC_NOWAIT,
    };
    match ask(rt, member, call) {
        (member, Some(Answer::Done)) => Ok(member),
        _ => Err(unanswered()),
    }
}

/// Receives a text.
#[inline(always)]
fn receive<R: Wait>(rt: &R, member: Member, id: u32) -> io::Result<Member> {
    let call = Call::MsgRcv {
        id,
        size: 64,
        msgtyp: 0,
        flags: IPC_NOWAIT,
    };
    match ask(rt, member, call) {
        (member, Some(Answer::Message { .. })) => Ok(member),
        _ => Err(unanswered()),
    }
}

/// Sends a text of so many bytes and receives it, so many times.
fn message<R: Wait + AllocGlobal>(
    rt: &R,
    member: Member,
    bytes: usize,
    calls: u32,
) -> io::Result<()> {
    let (mut member, id) = queue(rt, member, 0o600)?;
    let text = vec![in rt.alloc(); 97u8; bytes]?;
    for _ in 0..calls {
        member = send(rt, member, id, text.as_slice())?;
        member = receive(rt, member, id)?;
    }
    Ok(())
}

/// Adds 1 to a semaphore, so many times.
fn operate<R: Wait + AllocGlobal>(rt: &R, member: Member, calls: u32) -> io::Result<()> {
    let set = Call::SemGet {
        key: KEY,
        nsems: 1,
        flags: IPC_CREAT | 0o600,
    };
    let (mut member, Some(Answer::Id(id))) = ask(rt, member, set) else {
        return Err(unanswered());
    };
    let ops = [SemOper {
        num: 0,
        op: 1,
        flags: 0,
    }];
    for _ in 0..calls {
        let ops = Items::new(Vec::from_slice(rt.alloc(), &ops)?);
        let (next, Some(Answer::Done)) = ask(rt, member, Call::SemOp { id, ops }) else {
            return Err(unanswered());
        };
        member = next;
    }
    Ok(())
}

impl Task {
    fn of_word(word: &str) -> Option<Task> {
        match word {
            "get" => Some(Task::Get),
            "denied" => Some(Task::Denied),
            "message-0" => Some(Task::Message(0)),
            "message-64" => Some(Task::Message(64)),
            "semop" => Some(Task::Operate),
            _ => None,
        }
    }

    fn run<R: Wait + AllocGlobal>(self, rt: &R, member: Member, calls: u32) -> io::Result<()> {
        match self {
            Task::Get => get(rt, member, calls),
            Task::Denied => denied(rt, member, calls),
            Task::Message(bytes) => message(rt, member, bytes, calls),
            Task::Operate => operate(rt, member, calls),
        }
    }
}

/// The number of calls and what they are, by the program's words; one get where it has none.
fn asked(rt: &HostRuntime) -> io::Result<(u32, Task)> {
    let mut words = env::args(rt)?.skip(1);
    let Some(calls) = words.next() else {
        return Ok((1, Task::Get));
    };
    let task = words.next().and_then(|word| Task::of_word(word.as_str()));
    match (calls.as_str().parse::<u32>(), task) {
        (Ok(calls), Some(task)) => Ok((calls, task)),
        _ => Err(io::Error::from(io::ErrorKind::InvalidInput)),
    }
}

fn main(rt: HostRuntime) -> io::Result<ExitCode> {
    let (calls, task) = asked(&rt)?;
    let clients = few_users(rt.alloc(), 1)?;
    let mut members = ipc_member::open(rt.alloc(), widest_limits(), clients)?;
    let Some(member) = members.pop() else {
        return Err(unanswered());
    };
    task.run(&rt, member, calls)?;
    Ok(ExitCode::SUCCESS)
}
