// A namespace of so many clients, and what its first client asks.

use ipc_call::{Call, IPC_CREAT};
use ipc_space::{Effects, Space};
use std::alloc::{AllocError, Global};
use std::io;
use test_support::calls::{is_granted, receive, semop, send};
use test_support::clients::users;
use test_support::measuring::{unanswered, widest_limits};

/// The key of the queue and of the set; each is the first of its kind, and has the identifier 0.
const KEY: u32 = 5;

/// The identifier of the second queue, on which the others wait.
const BUSY: u32 = 1;

/// As many clients as there may be.
const CLIENTS_MAX: u32 = 4_096;

/// A namespace of so many clients, 1 to 4,096.
pub(crate) fn space_of(alloc: Global, count: u32) -> io::Result<Space> {
    if count == 0 || count > CLIENTS_MAX {
        return Err(io::Error::from(io::ErrorKind::InvalidInput));
    }
    let clients = users(alloc, count as usize)?;
    Ok(Space::start(widest_limits(), clients)?)
}

/// What a call of a client tells. It is as where memory fails where there is no such client or it waits.
#[inline(always)]
fn effects(space: &mut Space, client: u32, call: Call) -> Result<Effects, AllocError> {
    if client >= space.clients() || space.is_waiting(client) {
        drop(call);
        return Err(AllocError);
    }
    space.apply(client, 0, call)
}

/// A client makes a call, and whether it was granted.
#[inline(always)]
fn ask(space: &mut Space, client: u32, call: Call) -> io::Result<bool> {
    let effects = effects(space, client, call)?;
    let granted = is_granted(&effects.own);
    drop(effects);
    Ok(granted)
}

/// Client 0 makes a call that is granted.
#[inline(always)]
fn granted(space: &mut Space, call: Call) -> io::Result<()> {
    if ask(space, 0, call)? {
        Ok(())
    } else {
        Err(unanswered())
    }
}

/// Client 0 gets the queue of a key, which is made where there is none.
fn get_of(space: &mut Space, key: u32) -> io::Result<()> {
    let flags = IPC_CREAT | 0o600;
    granted(space, Call::MsgGet { key, flags })
}

/// Client 0 gets the first queue.
pub(crate) fn get(space: &mut Space) -> io::Result<()> {
    get_of(space, KEY)
}

/// Client 0 makes the set, of one semaphore.
fn make_set(space: &mut Space) -> io::Result<()> {
    let (key, nsems, flags) = (KEY, 1, IPC_CREAT | 0o600);
    granted(space, Call::SemGet { key, nsems, flags })
}

/// What an other client does: of each two the first ends, and the second waits.
fn busy_with(client: u32) -> Call {
    if client % 2 == 1 {
        Call::Exit
    } else {
        receive(BUSY, 0)
    }
}

/// Of the clients from 1 on each second one ends, and the others wait.
fn busy_others(space: &mut Space) -> io::Result<()> {
    for client in 1..space.clients() {
        ask(space, client, busy_with(client))?;
    }
    Ok(())
}

/// Makes the objects; then all clients but the first end or wait.
pub(crate) fn prepare(space: &mut Space) -> io::Result<()> {
    get_of(space, KEY)?;
    get_of(space, KEY + 1)?;
    make_set(space)?;
    busy_others(space)
}

/// Client 0 adds 1 to the semaphore.
pub(crate) fn operate(alloc: Global, space: &mut Space) -> io::Result<()> {
    granted(space, semop(alloc, 0, 1, 0)?)
}

/// Client 0 sends a text, and receives it.
pub(crate) fn pass(alloc: Global, space: &mut Space) -> io::Result<()> {
    granted(space, send(alloc, 1)?)?;
    granted(space, receive(0, 0))
}

/// Client 0 sets the semaphore.
pub(crate) fn set_value(space: &mut Space) -> io::Result<()> {
    let (id, num, value) = (0, 0, 1);
    granted(space, Call::SetVal { id, num, value })
}

/// The pid of the process that is forked, above those of all others.
const PID: u32 = 10_000;

/// Client 0 forks into client 1, which has ended. `./bench instructions` counts in this function alone.
#[inline(never)]
pub(crate) fn fork(space: &mut Space) -> io::Result<()> {
    let (child, pid) = (1, PID);
    granted(space, Call::Fork { child, pid })
}

/// Client 0 forks, and kills the child.
pub(crate) fn fork_and_kill(space: &mut Space) -> io::Result<()> {
    fork(space)?;
    granted(space, Call::Kill { pid: PID })
}
