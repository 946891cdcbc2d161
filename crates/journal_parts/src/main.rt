//! A service whose journal goes to a file while it runs. Each of four clients, in a thread of its own, sends to a queue and
//! receives from it. After every 1,000 of their calls one of them reads on in the journal and prints it, the text
//! that `ipcsh_journal --replay` reads. Its word is how often.
#![tactic(auto)]

mod printing;

use crate::printing::print_part;
use ipc_call::{Call, IPC_CREAT, IPC_NOWAIT, Items};
use ipc_member::{Keeping, Member};
use journal_reader::Reader;
use std::alloc::AllocError;
use std::process::ExitCode;
use std::sync::Wait;
use std::thread::Threads;
use std::{env, io, thread};
use test_support::clients::few_users;
use test_support::measuring::widest_limits;

const CLIENTS: u32 = 4;

/// How many calls a client makes between two parts of the journal.
const CALLS_A_CLIENT: u32 = 250;

/// The key of the queue.
const KEY: u32 = 5;

/// The call that a client makes for the n-th time: it gets the queue, sends, or receives.
fn call<R: AllocGlobal>(rt: &R, n: u32) -> Result<Call, AllocError> {
    let id = 0;
    match n % 3 {
        0 => Ok(Call::MsgGet {
            key: KEY,
            flags: IPC_CREAT | 0o600,
        }),
        1 => Ok(Call::MsgSnd {
            id,
            mtype: 1,
            text: Items::new(Vec::from_slice(rt.alloc(), b"part")?),
            flags: IPC_NOWAIT,
        }),
        _ => Ok(Call::MsgRcv {
            id,
            size: 64,
            msgtyp: 0,
            flags: IPC_NOWAIT,
        }),
    }
}

/// Makes the calls of a client from one part of the journal to the next.
fn work<R: Wait + AllocGlobal>(rt: &R, mut member: Member) -> Result<Member, AllocError> {
    for n in 0..CALLS_A_CLIENT {
        let (next, _reply) = member.call(rt, 0, call(rt, n)?);
        member = next;
    }
    Ok(member)
}

/// Each client makes its calls in a thread of its own.
fn worked<R: Threads + Sync + Wait + AllocGlobal>(
    rt: &R,
    members: Vec<Member>,
) -> Result<Vec<Member>, AllocError> {
    let mut left = Vec::with_capacity(rt.alloc(), members.len())?;
    for worked in thread::map_vec(rt, members, &|member: Member| work(rt, member))? {
        left.push(worked?)?;
    }
    Ok(left)
}

/// How many parts the journal is handed out in, by the program's word; none where it has none.
fn asked(rt: &HostRuntime) -> io::Result<u32> {
    let Some(word) = env::args(rt)?.nth(1) else {
        return Ok(0);
    };
    word.as_str()
        .parse::<u32>()
        .map_err(|_| io::Error::from(io::ErrorKind::InvalidInput))
}

fn main(rt: HostRuntime) -> io::Result<ExitCode> {
    let parts = asked(&rt)?;
    let clients = few_users(rt.alloc(), CLIENTS)?;
    let limits = widest_limits();
    let mut reader = Reader::new(rt.alloc(), &limits, clients.as_slice())?;
    let mut members = ipc_member::open_keeping(rt.alloc(), limits, clients, Keeping::UntilTaken)?;
    print_part(&rt, &mut reader, &mut members)?;
    for _ in 0..parts {
        members = worked(&rt, members)?;
        print_part(&rt, &mut reader, &mut members)?;
    }
    Ok(ExitCode::SUCCESS)
}
