//! Each call of a desk once, and what it is answered.
#![tactic(auto)]

use ipc_desk::{
    AttachFlags, Boxed, Client, Desk, Failure, Flags, GetFlags, Identity, Items, Kind, Memory,
    Message, Owner, Progress, Receive, SemFlags, SemOp, SendFlags, Settings, User,
};
use std::io;

const FIRST: Client = Client(0);

const SECOND: Client = Client(1);

const OWNER: Owner = Owner {
    uid: 100,
    gid: 10,
    mode: 0o640,
};

/// Prints why the call of a client has failed that waited.
fn taken(rt: &HostRuntime, desk: &mut Desk, client: Client) -> io::Result<()> {
    match desk.take(client) {
        Ok(_) => println!(rt; "client {client}: nothing failed"),
        Err(failure) => println!(rt; "client {client}: {failure}"),
    }
}

fn queues(rt: &HostRuntime, desk: &mut Desk) -> io::Result<()> {
    let queue = desk.msgget(FIRST, 1, GetFlags::CREAT | GetFlags::mode(0o600))?;
    let hello = Message::new(rt.alloc(), 7, b"hello")?;
    desk.msgsnd(FIRST, queue, hello, SendFlags::NOWAIT)?;
    let status = desk.msg_stat(FIRST, queue)?;
    println!(rt;
        "queue {queue}: {} message, {} bytes",
        status.qnum, status.cbytes
    )?;
    if let Progress::Done(message) = desk.msgrcv(SECOND, queue, Receive::new(80, 0))? {
        println!(rt; "type {}, {} bytes", message.mtype, message.text.len())?;
    }
    desk.msgrcv(SECOND, queue, Receive::new(80, 0))?;
    desk.interrupt(FIRST, SECOND)?;
    taken(rt, desk, SECOND)?;
    let settings = Settings {
        uid: 100,
        gid: 10,
        mode: 0o640,
        qbytes: Some(100),
    };
    desk.msg_set(FIRST, queue, settings)?;
    let listed = desk.list(SECOND, Kind::Queue)?;
    println!(rt; "{} queue", listed.len())?;
    Ok(desk.msg_rmid(FIRST, queue)?)
}

fn sets(rt: &HostRuntime, desk: &mut Desk) -> io::Result<()> {
    let set = desk.semget(FIRST, 0, 2, GetFlags::CREAT | GetFlags::mode(0o600))?;
    desk.setall(FIRST, set, &[1, 2])?;
    desk.setval(FIRST, set, 1, 5)?;
    let value = desk.getval(FIRST, set, 1)?;
    let pid = desk.getpid(FIRST, set, 1)?;
    let values = desk.getall(FIRST, set)?;
    println!(rt;
        "set {set}: {} values, one is {value}, of process {pid}",
        values.len()
    )?;
    let flags = SemFlags::empty();
    let op = SemOp {
        num: 0,
        op: -2,
        flags,
    };
    desk.semtimedop(SECOND, set, &[op], 10)?;
    let rising = desk.getncnt(FIRST, set, 0)?;
    let falling = desk.getzcnt(FIRST, set, 0)?;
    println!(rt; "{rising} waits to take, {falling} for 0")?;
    desk.set_time(20);
    let status = desk.sem_stat(FIRST, set)?;
    println!(rt; "{} semaphores", status.nsems)?;
    taken(rt, desk, SECOND)?;
    desk.sem_set(FIRST, set, OWNER)?;
    Ok(desk.sem_rmid(FIRST, set)?)
}

fn segments(rt: &HostRuntime, desk: &mut Desk) -> io::Result<()> {
    let segment = desk.shmget(FIRST, 0, 8, GetFlags::CREAT | GetFlags::mode(0o600))?;
    let attached = desk.shmat(FIRST, segment, AttachFlags::empty())?;
    desk.shm_write(FIRST, attached, 2, b"xy")?;
    let bytes = desk.shm_read(FIRST, attached, 1, 3)?;
    println!(rt; "segment {segment} at {attached}: {:?}", bytes.as_slice())?;
    let status = desk.shm_stat(FIRST, segment)?;
    println!(rt; "{} bytes, attached {}", status.size, status.nattch)?;
    desk.shm_set(FIRST, segment, OWNER)?;
    desk.shmdt(FIRST, attached)?;
    Ok(desk.shm_rmid(FIRST, segment)?)
}

fn get(rt: &HostRuntime, desk: &mut Desk, client: Client) -> io::Result<()> {
    match desk.msgget(client, 1, GetFlags::mode(0o600)) {
        Ok(queue) => println!(rt; "client {client}: queue {queue}"),
        Err(failure) => println!(rt; "client {client}: error {}: {failure}", failure.number()),
    }
}

fn processes(rt: &HostRuntime, desk: &mut Desk) -> io::Result<()> {
    desk.setcreds(FIRST, 100, 10, None)?;
    get(rt, desk, FIRST)?;
    desk.exit(FIRST)?;
    get(rt, desk, FIRST)?;
    get(rt, desk, Client(2))
}

/// The credentials of user 100.
fn identity(rt: &HostRuntime) -> Result<Boxed<Identity>, Memory> {
    let identity = Identity {
        euid: 100,
        egid: 10,
        groups: Items::new(Vec::new(rt.alloc())),
        caps: 0,
        ruid: 100,
        suid: 100,
        rgid: 10,
        sgid: 10,
    };
    Boxed::new(rt.alloc(), identity)
}

fn told(rt: &HostRuntime, call: &str, answer: Result<(), Failure>) -> io::Result<()> {
    match answer {
        Ok(()) => println!(rt; "{call}: nothing failed"),
        Err(failure) => println!(rt; "{call}: error {}: {failure}", failure.number()),
    }
}

/// The first client has ended. It stands for a process that is forked and killed, for a thread that ends as the other one
/// execs, and for a process that begins.
fn lives(rt: &HostRuntime, desk: &mut Desk) -> io::Result<()> {
    desk.fork(SECOND, FIRST, 9)?;
    desk.name(FIRST, 8)?;
    desk.assume(FIRST, identity(rt)?)?;
    desk.kill(SECOND, 8)?;
    told(rt, "kill", desk.kill(SECOND, 8))?;
    desk.clone(SECOND, FIRST)?;
    desk.exec(SECOND)?;
    desk.begin(FIRST, 7, identity(rt)?)?;
    told(rt, "begin", desk.begin(FIRST, 6, identity(rt)?))?;
    Ok(desk.interrupt_process(SECOND, 7)?)
}

fn calls(rt: &HostRuntime, desk: &mut Desk) -> io::Result<()> {
    queues(rt, desk)?;
    sets(rt, desk)?;
    segments(rt, desk)?;
    processes(rt, desk)?;
    lives(rt, desk)
}

fn main(rt: HostRuntime) -> io::Result<()> {
    let users = [User::new(100, 10), User::new(100, 10)];
    calls(&rt, &mut Desk::of_users(rt.alloc(), &users)?)
}
