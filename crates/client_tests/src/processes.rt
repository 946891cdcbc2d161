// Processes begin and end under all clients, and what can be looked at of their threads is what was made.

use crate::spaces::{done, end_all_others, space_of_all};
use ipc_call::Call;
use ipc_space::Space;
use std::process::Abort;
use std::test::Fail;

/// The pid of the process that is forked into a client.
fn pid_under(client: u32) -> u32 {
    client.wrapping_add(10_000)
}

/// The first client forks into this one, which is the least that is free.
fn fork_into(rt: &impl Abort, space: &mut Space, child: u32) -> Result<(), Fail> {
    assert_eq!(rt; space.free_client(), Some(child));
    let pid = pid_under(child);
    done(rt, space, 0, Call::Fork { child, pid })?;
    assert_eq!(rt; space.pid_of(child), Some(pid));
    Ok(())
}

/// The first client forks into each other one, and then none is free.
fn fork_into_each(rt: &impl Abort, space: &mut Space) -> Result<(), Fail> {
    for child in 1..space.clients() {
        fork_into(rt, space, child)?;
    }
    assert_eq!(rt; space.free_client(), None);
    Ok(())
}

/// The first client kills the process of each other one.
fn kill_each(rt: &impl Abort, space: &mut Space) -> Result<(), Fail> {
    for child in 1..space.clients() {
        let pid = pid_under(child);
        done(rt, space, 0, Call::Kill { pid })?;
    }
    Ok(())
}

/// A process begins under each client, is killed, and another one begins; each has the next serial number.
fn begin_twice(rt: &impl Abort, space: &mut Space) -> Result<(), Fail> {
    end_all_others(rt, space)?;
    fork_into_each(rt, space)?;
    kill_each(rt, space)?;
    fork_into_each(rt, space)?;
    assert_eq!(rt; space.process_of(4_095), 12_285);
    Ok(())
}

#[test]
fn a_process_begins_under_each_client_and_is_killed(rt: HostRuntime) -> Result<(), Fail> {
    let mut space = space_of_all(rt.alloc())?;
    let begun = begin_twice(&rt, &mut space);
    drop(space);
    begun
}

/// The threads of the client's process, by what can be looked at, are so many, one after another from `first` on.
fn threads_are(rt: &impl Abort, space: &Space, client: u32, first: u32, count: u32) {
    assert!(rt; !space.has_exited(client));
    let mut from = 0;
    for thread in first..first.saturating_add(count) {
        assert_eq!(rt; space.next_thread_of(client, from), Some(thread));
        from = thread.saturating_add(1);
    }
    assert_eq!(rt; space.next_thread_of(client, from), None);
}

/// The first client is cloned into each other one.
fn clone_into_each(rt: &impl Abort, space: &mut Space) -> Result<(), Fail> {
    for child in 1..space.clients() {
        done(rt, space, 0, Call::Clone { child })?;
    }
    Ok(())
}

/// A process has a thread for each client, takes another pid, and has one thread again.
fn clone_and_execute(rt: &impl Abort, space: &mut Space) -> Result<(), Fail> {
    end_all_others(rt, space)?;
    clone_into_each(rt, space)?;
    threads_are(rt, space, 7, 0, 4_096);
    done(rt, space, 7, Call::Name { pid: 77 })?;
    done(rt, space, 9, Call::Exec)?;
    threads_are(rt, space, 9, 9, 1);
    assert_eq!(rt; space.pid_of(9), Some(77));
    Ok(())
}

#[test]
fn a_process_has_as_many_threads_as_there_are_clients(rt: HostRuntime) -> Result<(), Fail> {
    let mut space = space_of_all(rt.alloc())?;
    let executed = clone_and_execute(&rt, &mut space);
    drop(space);
    executed
}
