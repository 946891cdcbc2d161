//! A job queue: a boss sends jobs, whose types are their urgency, and two workers take the most urgent one first. They wait
//! where there is none.
#![tactic(auto)]

use ipc_desk::{
    Client, Desk, Ended, GetFlags, Message, Progress, QueueId, Receive, SendFlags, User,
};
use std::io;

const BOSS: Client = Client(0);

const WORKERS: [Client; 2] = [Client(1), Client(2)];

fn show(rt: &HostRuntime, worker: Client, job: &Message) -> io::Result<()> {
    println!(rt;
        "worker {worker}: urgency {}, {} bytes",
        job.mtype,
        job.text.len()
    )
}

fn ask(rt: &HostRuntime, desk: &mut Desk, worker: Client, jobs: QueueId) -> io::Result<()> {
    match desk.msgrcv(worker, jobs, Receive::new(80, -9)) {
        Ok(Progress::Done(job)) => show(rt, worker, &job),
        Ok(Progress::Waits) => println!(rt; "worker {worker}: waits"),
        Err(failure) => println!(rt; "worker {worker}: {failure}"),
    }
}

fn work(rt: &HostRuntime, desk: &mut Desk) -> io::Result<()> {
    let alloc = rt.alloc();
    let jobs = desk.msgget(BOSS, 1, GetFlags::CREAT | GetFlags::mode(0o660))?;
    let sweep = Message::new(alloc, 5, b"sweep")?;
    desk.msgsnd(BOSS, jobs, sweep, SendFlags::NOWAIT)?;
    let fire = Message::new(alloc, 1, b"put out the fire")?;
    desk.msgsnd(BOSS, jobs, fire, SendFlags::NOWAIT)?;
    for _ in 0..3 {
        for worker in WORKERS {
            ask(rt, desk, worker, jobs)?;
        }
    }
    let wake = Message::new(alloc, 2, b"wake")?;
    desk.msgsnd(BOSS, jobs, wake, SendFlags::NOWAIT)?;
    for worker in WORKERS {
        if let Some(Ended::Received(job)) = desk.take(worker)? {
            show(rt, worker, &job)?;
        }
    }
    Ok(())
}

fn main(rt: HostRuntime) -> io::Result<()> {
    let users = [User::new(100, 10), User::new(101, 10), User::new(102, 10)];
    work(&rt, &mut Desk::of_users(rt.alloc(), &users)?)
}
