//! Two clients use a namespace: one creates a queue and waits for a message, and the other sends it.
#![tactic(auto)]

use ipc_space::{
    Answer, Call, Caps, Creds, Effects, Flags, IPC_CREAT, Items, Limits, Reply, Space, errno,
};
use std::io;

/// Prints what a client is answered.
fn show(rt: &HostRuntime, client: u32, reply: &Reply) -> io::Result<()> {
    let Reply::Entered { outcome, .. } = reply else {
        return println!(rt; "client {client}: no memory");
    };
    match outcome {
        Ok(Answer::Id(id)) => println!(rt; "client {client}: identifier {id}"),
        Ok(Answer::Message { mtype, text }) => {
            println!(rt; "client {client}: type {mtype}, {} bytes", text.len())
        }
        Ok(_) => println!(rt; "client {client}: ok"),
        Err(rule) => println!(rt; "client {client}: error {} {rule:?}", errno(*rule)),
    }
}

/// Makes a call, and prints its reply and those of the waiting calls that it ends.
fn call(rt: &HostRuntime, space: &mut Space, client: u32, call: Call) -> io::Result<()> {
    if client >= space.clients() || space.is_waiting(client) {
        return println!(rt; "client {client}: has a call that waits");
    }
    let Effects { own, others, .. } = space.apply(client, 0, call)?;
    match &own {
        Some(reply) => show(rt, client, reply)?,
        None => println!(rt; "client {client}: waits")?,
    }
    for (waiting, reply) in others.as_slice() {
        show(rt, *waiting, reply)?;
    }
    Ok(())
}

/// Client 0 creates a queue and waits for a message. Client 1 may not read the queue, but sends to it.
fn talk(rt: &HostRuntime, space: &mut Space) -> io::Result<()> {
    let flags = IPC_CREAT | 0o622;
    call(rt, space, 0, Call::MsgGet { key: 5, flags })?;
    let flags = 0o400;
    call(rt, space, 1, Call::MsgGet { key: 5, flags })?;
    let receive = Call::MsgRcv {
        id: 0,
        size: 80,
        msgtyp: 0,
        flags: 0,
    };
    call(rt, space, 0, receive)?;
    let send = Call::MsgSnd {
        id: 0,
        mtype: 1,
        text: Items::new(Vec::from_slice(rt.alloc(), b"hello")?),
        flags: 0,
    };
    call(rt, space, 1, send)
}

fn main(rt: HostRuntime) -> io::Result<()> {
    let alloc = rt.alloc();
    let mut clients = Vec::new(alloc);
    clients.push(Creds::new(100, 10, &[], Caps::empty()))?;
    clients.push(Creds::new(200, 20, &[], Caps::empty()))?;
    let mut space = Space::start(Limits::default(), clients)?;
    talk(&rt, &mut space)
}
