//! Measures single calls on the machine that it runs on. Its argument is how many calls each measurement makes,
//! 1,000 where it has none. The times go to standard error, and what the calls answered to standard output,
//! which is the same on every run with as many calls.
//!
//! With the argument `names` it lists the measurements, a line each: its number, a size, what the size counts, and its
//! name. With the arguments CALLS NUMBER SIZE it makes one of them once, so that its instructions can be counted.
#![tactic(auto)]

mod combining;
mod keys;
mod messages;
mod segments;
mod semops;
mod slots;
mod spaces;

use crate::messages::Way;
use crate::segments::Access;
use crate::semops::AtExit;
use crate::spaces::Asked;
use std::process::ExitCode;
use std::{env, io};
use test_support::measuring::{RUNS, Run, median};

/// How many objects the tables hold.
const OBJECTS: [u32; 3] = [16, 1_000, 30_000];

/// How many bytes a text has.
const BYTES: [u32; 4] = [0, 64, 1_024, 8_192];

/// How many messages a queue holds.
const MESSAGES: [u32; 4] = [1, 100, 1_000, 30_000];

/// Of how many types a queue holds a message.
const TYPES: [u32; 3] = [1, 100, 1_000];

/// How many clients wait on another queue.
const WAITING: [u32; 4] = [0, 1, 16, 62];

/// How many operations a semop has.
const SEMOPS: [u32; 4] = [1, 2, 10, 500];

/// How many clients wait on another set.
const WAITING_BESIDE: [u32; 3] = [0, 16, 62];

/// How many bytes a segment has.
const SEGMENTS: [u32; 4] = [1, 64, 4_096, 65_536];

/// How many attachments a client has.
const ATTACHMENTS: [u32; 2] = [1, 4_096];

/// One client.
const ONE: [u32; 1] = [1];

/// How many clients joined a list.
const CLIENTS: [u32; 3] = [1, 8, 64];

/// How many calls a measurement makes where the program has no word.
const CALLS: u32 = 1_000;

/// What is measured.
#[derive(Clone, Copy, Debug)]
enum Operation {
    Find,
    UnbindAndBind,
    Get,
    NextId,
    RemoveAndInsert,
    ApplyGet,
    Ask(Asked),
    List,
    Pass(Way),
    ReceiveLast,
    ReceiveAmong,
    WhileOthersWait,
    Operate(AtExit),
    OperateBesideWaiting,
    Copy,
    Reach(Access),
    AttachAndDetach,
    Readings,
    EachStep,
    Alone,
    OneOf,
}

const OPERATIONS: [Operation; 25] = [
    Operation::Find,
    Operation::UnbindAndBind,
    Operation::Get,
    Operation::NextId,
    Operation::RemoveAndInsert,
    Operation::ApplyGet,
    Operation::Ask(Asked::Status),
    Operation::Ask(Asked::Denied),
    Operation::List,
    Operation::Pass(Way::Queue),
    Operation::ReceiveLast,
    Operation::ReceiveAmong,
    Operation::Pass(Way::Receiver),
    Operation::WhileOthersWait,
    Operation::Operate(AtExit::Keeps),
    Operation::Operate(AtExit::Undoes),
    Operation::OperateBesideWaiting,
    Operation::Copy,
    Operation::Reach(Access::Read),
    Operation::Reach(Access::Write),
    Operation::AttachAndDetach,
    Operation::Readings,
    Operation::EachStep,
    Operation::Alone,
    Operation::OneOf,
];

/// The run of a measurement that has one.
fn alone(rt: &HostRuntime, run: Run) -> io::Result<Vec<Run>> {
    listed(rt, &[run])
}

/// The runs of a measurement.
fn listed(rt: &HostRuntime, runs: &[Run]) -> io::Result<Vec<Run>> {
    Ok(Vec::from_slice(rt.alloc(), runs)?)
}

impl Operation {
    /// The names of what is timed, one or two.
    fn names(self) -> &'static [&'static str] {
        match self {
            Operation::Find => &["Keys::find"],
            Operation::UnbindAndBind => &["Keys::unbind", "Keys::bind"],
            Operation::Get => &["Slots::get"],
            Operation::NextId => &["Slots::next_id"],
            Operation::RemoveAndInsert => &["Slots::remove", "Slots::try_insert"],
            Operation::ApplyGet => &["Space::apply, msgget of a key"],
            Operation::Ask(Asked::Status) => &["Space::apply, IPC_STAT"],
            Operation::Ask(Asked::Denied) => &["Space::apply, a denied msgrcv"],
            Operation::List => &["Space::apply, a listing"],
            Operation::Pass(Way::Queue) => &["Space::apply, msgsnd and msgrcv"],
            Operation::ReceiveLast => &["Space::apply, msgrcv of the last"],
            Operation::ReceiveAmong => &["Space::apply, msgrcv of any type"],
            Operation::Pass(Way::Receiver) => &["Space::apply, a waiting receiver"],
            Operation::WhileOthersWait => &["Space::apply, while others wait"],
            Operation::Operate(AtExit::Keeps) => &["Space::apply, semop"],
            Operation::Operate(AtExit::Undoes) => &["Space::apply, semop with SEM_UNDO"],
            Operation::OperateBesideWaiting => &["Space::apply, semop beside waiting"],
            Operation::Copy => &["a copy in memory"],
            Operation::Reach(Access::Read) => &["Space::apply, shmread"],
            Operation::Reach(Access::Write) => &["Space::apply, shmwrite"],
            Operation::AttachAndDetach => &["Space::apply, shmat and shmdt"],
            Operation::Readings => &["reading the time"],
            Operation::EachStep => &["post", "seize", "take", "answer", "release", "collect"],
            Operation::Alone => &["post to collect"],
            Operation::OneOf => &["post to collect, with a walk"],
        }
    }

    /// The sizes at which it is measured, and what they count.
    fn sizes(self) -> (&'static [u32], &'static str) {
        match self {
            Operation::Pass(_) => (&BYTES, "bytes"),
            Operation::ReceiveLast => (&MESSAGES, "messages"),
            Operation::ReceiveAmong => (&TYPES, "types"),
            Operation::WhileOthersWait => (&WAITING, "waiting"),
            Operation::Operate(_) => (&SEMOPS, "operations"),
            Operation::OperateBesideWaiting => (&WAITING_BESIDE, "waiting"),
            Operation::Copy | Operation::Reach(_) => (&SEGMENTS, "bytes"),
            Operation::AttachAndDetach => (&ATTACHMENTS, "attached"),
            Operation::Readings | Operation::EachStep | Operation::Alone => (&ONE, "clients"),
            Operation::Ask(_) => (&ONE, "queues"),
            Operation::OneOf => (&CLIENTS, "clients"),
            _ => (&OBJECTS, "objects"),
        }
    }

    /// One measurement of so many calls at a size: what each call took that has a name.
    fn run(self, rt: &HostRuntime, size: u32, calls: u32) -> io::Result<Vec<Run>> {
        match self {
            Operation::Find => alone(rt, keys::find(rt, size, calls)?),
            Operation::UnbindAndBind => listed(rt, &keys::unbind_and_bind(rt, size, calls)?),
            Operation::Get => alone(rt, slots::get(rt, size, calls)?),
            Operation::NextId => alone(rt, slots::next_id(rt, size, calls)?),
            Operation::RemoveAndInsert => listed(rt, &slots::remove_and_insert(rt, size, calls)?),
            Operation::ApplyGet => alone(rt, spaces::get_of_a_key(rt, size, calls)?),
            Operation::Ask(asked) => alone(rt, asked.ask(rt, calls)?),
            Operation::List => alone(rt, spaces::list(rt, size, calls)?),
            Operation::Pass(way) => alone(rt, messages::pass(rt, way, size, calls)?),
            Operation::ReceiveLast => alone(rt, messages::receive_last(rt, size, calls)?),
            Operation::ReceiveAmong => alone(rt, messages::receive_among(rt, size, calls)?),
            Operation::WhileOthersWait => alone(rt, messages::while_others_wait(rt, size, calls)?),
            Operation::Operate(at_exit) => alone(rt, semops::operate(rt, at_exit, size, calls)?),
            Operation::OperateBesideWaiting => alone(rt, semops::beside_waiting(rt, size, calls)?),
            Operation::Copy => alone(rt, segments::copy(rt, size, calls)?),
            Operation::Reach(access) => alone(rt, segments::reach(rt, access, size, calls)?),
            Operation::AttachAndDetach => {
                alone(rt, segments::attach_and_detach(rt, size, calls)?)
            }
            Operation::Readings => alone(rt, combining::readings(rt, calls)?),
            Operation::EachStep => listed(rt, &combining::each_step(rt, calls)?),
            Operation::Alone => alone(rt, combining::alone(rt, calls)?),
            Operation::OneOf => alone(rt, combining::one_of(rt, size, calls)?),
        }
    }
}

/// The median runs of an operation at a size, one for each of its names.
fn medians(rt: &HostRuntime, operation: Operation, size: u32, calls: u32) -> io::Result<Vec<Run>> {
    let mut columns: Vec<Vec<Run>> = Vec::new(rt.alloc());
    for _ in operation.names() {
        columns.push(Vec::new(rt.alloc()))?;
    }
    for _ in 0..RUNS {
        let runs = operation.run(rt, size, calls)?;
        for (column, run) in columns.iter_mut().zip(runs) {
            column.push(run)?;
        }
    }
    let mut medians = Vec::new(rt.alloc());
    for column in columns {
        medians.push(median(column))?;
    }
    Ok(medians)
}

/// The rows of an operation: for each of its names one for each size.
fn print_rows(rt: &HostRuntime, operation: Operation, calls: u32) -> io::Result<()> {
    let mut measured = Vec::new(rt.alloc());
    let (sizes, unit) = operation.sizes();
    for size in sizes {
        measured.push((*size, medians(rt, operation, *size, calls)?))?;
    }
    for (column, name) in operation.names().iter().enumerate() {
        let mut smallest = None;
        for (size, runs) in measured.iter() {
            let run = runs.get(column).copied().unwrap_or(Run::new(0));
            let first = *smallest.get_or_insert(run.tenths_of_nanoseconds());
            print_row(rt, name, *size, unit, run, first)?;
        }
    }
    Ok(())
}

/// One row: the time, and its ratio to the time at the first size.
fn print_row(
    rt: &HostRuntime,
    name: &str,
    size: u32,
    unit: &str,
    run: Run,
    first: u64,
) -> io::Result<()> {
    let tenths = run.tenths_of_nanoseconds();
    let (whole, part) = (tenths / 10, tenths % 10);
    let hundredths = tenths.saturating_mul(100) / first.max(1);
    let (times, rest) = (hundredths / 100, hundredths % 100);
    eprintln!(rt; "{name:<35}{size:>7} {unit:<10}{whole:>8}.{part}{times:>8}.{rest:02}")?;
    println!(rt; "{name}, {size} {unit}: {}", run.sum)
}

/// What the program's arguments ask for.
#[derive(Clone, Copy, Debug)]
enum Request {
    /// The table of all measurements, each of so many calls.
    Table {
        calls: u32,
    },
    /// The list of the measurements.
    Names,
    /// One measurement, made once.
    One {
        calls: u32,
        number: usize,
        size: u32,
    },
}

/// A number that stands as an argument.
fn number_in(word: Option<&String>) -> io::Result<u32> {
    match word.and_then(|word| word.as_str().parse::<u32>().ok()) {
        Some(number) => Ok(number),
        None => Err(io::Error::from(io::ErrorKind::InvalidInput)),
    }
}

/// What the arguments ask for, without the program's own name.
fn request_of(words: &[String]) -> io::Result<Request> {
    if words.is_empty() {
        return Ok(Request::Table { calls: CALLS });
    }
    if words.len() == 1 && words[0].as_str() == "names" {
        return Ok(Request::Names);
    }
    let calls = number_in(words.get(0))?;
    if words.len() == 1 {
        return Ok(Request::Table { calls });
    }
    Ok(Request::One {
        calls,
        number: number_in(words.get(1))? as usize,
        size: number_in(words.get(2))?,
    })
}

/// The table of all measurements.
fn print_table(rt: &HostRuntime, calls: u32) -> io::Result<()> {
    eprintln!(rt; "operation                             size            ns a call      ratio")?;
    for operation in OPERATIONS {
        print_rows(rt, operation, calls)?;
    }
    Ok(())
}

/// The list of the measurements.
fn print_names(rt: &HostRuntime) -> io::Result<()> {
    for (number, operation) in OPERATIONS.iter().enumerate() {
        let (sizes, unit) = operation.sizes();
        let names = operation.names();
        for size in sizes {
            println!(rt;
                "{number} {size} {unit} {}",
                names.first().copied().unwrap_or("")
            )?;
        }
    }
    Ok(())
}

/// Makes one measurement once.
fn measure_one(rt: &HostRuntime, number: usize, size: u32, calls: u32) -> io::Result<()> {
    match OPERATIONS.get(number) {
        Some(operation) => {
            operation.run(rt, size, calls)?;
            Ok(())
        }
        None => Err(io::Error::from(io::ErrorKind::InvalidInput)),
    }
}

fn main(rt: HostRuntime) -> io::Result<ExitCode> {
    let words: Vec<String> = env::args(&rt)?.skip(1).collect(rt.alloc())?;
    match request_of(words.as_slice())? {
        Request::Table { calls } => print_table(&rt, calls)?,
        Request::Names => print_names(&rt)?,
        Request::One {
            calls,
            number,
            size,
        } => measure_one(&rt, number, size, calls)?,
    }
    Ok(ExitCode::SUCCESS)
}
