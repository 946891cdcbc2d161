//! Measures clients that share a namespace from threads of their own: by the service, whose clients combine, and under a
//! mutex, beside one owner alone. Its word is how many calls each measurement makes, 1,000 where it has none. A row goes to
//! standard error for each measurement: what is asked for, by which way, how many clients there are, and the nanoseconds a
//! call. What the calls came to goes to standard output, which is the same on every run with as many calls.
#![tactic(auto)]

mod asking;
mod locked;
mod service;

use asking::Task;
use std::process::ExitCode;
use std::sync::Wait;
use std::thread::Threads;
use std::{env, io};
use test_support::measuring::Run;

/// How many clients ask at once.
const CLIENTS: [u32; 5] = [1, 2, 4, 16, 64];

/// One client.
const ONE: [u32; 1] = [1];

/// How many calls a measurement makes where the program has no word.
const CALLS: u32 = 1_000;

const TASKS: [Task; 11] = [
    Task::Get,
    Task::Message(64),
    Task::Message(8_192),
    Task::Operate,
    Task::Mix,
    Task::HandOver,
    Task::Denied,
    Task::OneQueue,
    Task::OneCounter,
    Task::OneLock,
    Task::OneSegment,
];

/// What serves the calls.
#[derive(Clone, Copy, Debug)]
enum Way {
    /// A namespace with one owner.
    Space,
    /// A namespace under a mutex.
    Mutex,
    /// The service.
    Service,
    /// The service, where all clients but one ask nothing.
    AmongIdle,
}

const WAYS: [Way; 4] = [Way::Space, Way::Mutex, Way::Service, Way::AmongIdle];

/// The word of a row for what is asked for.
fn word_of(task: Task) -> &'static str {
    match task {
        Task::Get => "get",
        Task::Message(64) => "message-64",
        Task::Message(_) => "message-8192",
        Task::Operate => "semop",
        Task::Mix => "mix",
        Task::HandOver => "hand-over",
        Task::Denied => "denied",
        Task::OneQueue => "one-queue",
        Task::OneCounter => "one-counter",
        Task::OneLock => "one-lock",
        Task::OneSegment => "one-segment",
    }
}

impl Way {
    fn word(self) -> &'static str {
        match self {
            Way::Space => "space",
            Way::Mutex => "mutex",
            Way::Service => "service",
            Way::AmongIdle => "among-idle",
        }
    }

    /// How many clients there are in each measurement of what is asked for.
    fn clients(self, task: Task) -> &'static [u32] {
        match (self, task) {
            (Way::Space, _) => &ONE,
            (Way::Mutex | Way::Service, _) | (Way::AmongIdle, Task::Get) => &CLIENTS,
            (Way::AmongIdle, _) => &[],
        }
    }

    /// One measurement of so many clients, which make so many calls together.
    fn run<W: Threads + Wait + Sync>(
        self,
        rt: &HostRuntime,
        workers: &W,
        task: Task,
        clients: u32,
        calls: u32,
    ) -> io::Result<Run> {
        match self {
            Way::Space => locked::of_space(rt, task, calls),
            Way::Mutex => locked::of_mutex(rt, workers, task, clients, calls),
            Way::Service => service::of_service(rt, workers, task, clients, calls),
            Way::AmongIdle => service::among_idle(rt, workers, task, clients, calls),
        }
    }
}

/// The row of a measurement.
fn print_row(rt: &HostRuntime, task: Task, way: Way, clients: u32, run: Run) -> io::Result<()> {
    let tenths = run.tenths_of_nanoseconds();
    let (whole, part) = (tenths / 10, tenths % 10);
    let (task, way) = (word_of(task), way.word());
    eprintln!(rt; "{task} {way} {clients} {whole}.{part}")?;
    println!(rt; "{task} {way} {clients}: {}", run.sum)
}

/// All measurements of what is asked for.
fn measure<W: Threads + Wait + Sync>(
    rt: &HostRuntime,
    workers: &W,
    task: Task,
    calls: u32,
) -> io::Result<()> {
    for way in WAYS {
        for clients in way.clients(task) {
            let run = way.run(rt, workers, task, *clients, calls)?;
            print_row(rt, task, way, *clients, run)?;
        }
    }
    Ok(())
}

/// The number of calls that the program's word asks for.
fn calls_asked(rt: &HostRuntime) -> io::Result<u32> {
    let mut words = env::args(rt)?.skip(1);
    match words.next() {
        None => Ok(CALLS),
        Some(word) => match word.as_str().parse::<u32>() {
            Ok(calls) => Ok(calls),
            Err(_) => Err(io::Error::from(io::ErrorKind::InvalidInput)),
        },
    }
}

fn main(rt: HostRuntime) -> io::Result<ExitCode> {
    let calls = calls_asked(&rt)?;
    for task in TASKS {
        measure(&rt, &rt, task, calls)?;
    }
    Ok(ExitCode::SUCCESS)
}
