//! A table of counters in a shared memory segment, guarded by a semaphore: a client locks with SEM_UNDO, reads a row, adds to
//! it, writes it back, and unlocks. One client exits with the lock, and the other gets it.
#![tactic(auto)]

use ipc_desk::{
    AttachFlags, Attached, Client, Desk, Ended, Failure, Flags, GetFlags, Progress, SemFlags,
    SemOp, SetId, User,
};
use std::io;

const ROW: u64 = 4;

/// What a client has of the table.
#[derive(Clone, Copy)]
struct Table {
    lock: SetId,
    rows: Attached,
}

/// Adds to the lock, undone at exit.
fn change(desk: &mut Desk, client: Client, lock: SetId, op: i16) -> Result<Progress<()>, Failure> {
    let flags = SemFlags::UNDO;
    desk.semop(client, lock, &[SemOp { num: 0, op, flags }])
}

/// Adds 1 to row 2 of the table, and unlocks it.
fn add_locked(rt: &HostRuntime, desk: &mut Desk, client: Client, table: &Table) -> io::Result<()> {
    let row = desk.shm_read(client, table.rows, 2 * ROW, ROW)?;
    let [a, b, c, d] = *row.as_slice() else {
        return println!(rt; "client {client}: no row");
    };
    let value = u32::from_le_bytes([a, b, c, d]);
    let bytes = value.wrapping_add(1).to_le_bytes();
    desk.shm_write(client, table.rows, 2 * ROW, &bytes)?;
    change(desk, client, table.lock, 1)?;
    println!(rt; "client {client}: {value} before")
}

fn add(rt: &HostRuntime, desk: &mut Desk, client: Client, table: &Table) -> io::Result<()> {
    match change(desk, client, table.lock, -1)? {
        Progress::Done(()) => add_locked(rt, desk, client, table),
        Progress::Waits => println!(rt; "client {client}: waits for the lock"),
    }
}

/// Attaches the table for a client.
fn open(desk: &mut Desk, client: Client, lock: SetId) -> Result<Table, Failure> {
    let segment = desk.shmget(client, 7, 64, GetFlags::CREAT | GetFlags::mode(0o600))?;
    let rows = desk.shmat(client, segment, AttachFlags::empty())?;
    Ok(Table { lock, rows })
}

fn run(rt: &HostRuntime, desk: &mut Desk) -> io::Result<()> {
    let (first, second) = (Client(0), Client(1));
    let lock = desk.semget(first, 7, 1, GetFlags::CREAT | GetFlags::mode(0o600))?;
    desk.setval(first, lock, 0, 1)?;
    let firsts = open(desk, first, lock)?;
    let seconds = open(desk, second, lock)?;
    add(rt, desk, first, &firsts)?;
    add(rt, desk, second, &seconds)?;
    change(desk, first, lock, -1)?;
    add(rt, desk, second, &seconds)?;
    desk.exit(first)?;
    match desk.take(second)? {
        Some(Ended::Done) => add_locked(rt, desk, second, &seconds),
        Some(Ended::Received(_)) | None => println!(rt; "client {second}: has no lock"),
    }
}

fn main(rt: HostRuntime) -> io::Result<()> {
    let users = [User::new(100, 10), User::new(100, 10)];
    run(&rt, &mut Desk::of_users(rt.alloc(), &users)?)
}
