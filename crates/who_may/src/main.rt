//! Who may do what on a queue, and why: its owner may neither read nor write it, and others may both.
#![tactic(auto)]

use ipc_desk::{Caps, Client, Desk, GetFlags, Object, User};
use std::io;

fn explain(rt: &HostRuntime, desk: &mut Desk) -> io::Result<()> {
    let queue = desk.msgget(Client(0), 6, GetFlags::CREAT | GetFlags::mode(0o066))?;
    for client in [Client(0), Client(1), Client(2)] {
        if let Some(access) = desk.access(client, Object::Queue(queue)) {
            println!(rt; "client {client}: {access}")?;
        }
    }
    Ok(())
}

fn main(rt: HostRuntime) -> io::Result<()> {
    let olga = User::new(500, 50).with_caps(Caps::IPC_OWNER);
    let users = [User::new(100, 10), User::new(200, 20), olga];
    explain(&rt, &mut Desk::of_users(rt.alloc(), &users)?)
}
