//! Makes calls of one client in a namespace of so many, of whose others one half has ended and the other half waits, so that
//! `./bench instructions` counts whether a call takes more where there are more clients. Its words are how many calls it
//! makes, which, and of how many clients.
#![tactic(auto)]

mod spaces;
mod turns;

use crate::spaces::{fork_and_kill, get, operate, pass, prepare, set_value, space_of};
use ipc_space::Space;
use std::alloc::Global;
use std::process::ExitCode;
use std::{env, io};

/// What is asked again and again.
#[derive(Clone, Copy, Debug)]
enum Task {
    /// The queue of a key.
    Get,
    /// To add 1 to a semaphore.
    Operate,
    /// To send a text, and to receive it.
    Message,
    /// To set a semaphore.
    SetValue,
    /// To fork, and to kill the child.
    Fork,
}

impl Task {
    fn of_word(word: &str) -> Option<Task> {
        match word {
            "get" => Some(Task::Get),
            "semop" => Some(Task::Operate),
            "message" => Some(Task::Message),
            "setval" => Some(Task::SetValue),
            "fork" => Some(Task::Fork),
            _ => None,
        }
    }

    /// Makes what is asked once.
    fn make(self, alloc: Global, space: &mut Space) -> io::Result<()> {
        match self {
            Task::Get => get(space),
            Task::Operate => operate(alloc, space),
            Task::Message => pass(alloc, space),
            Task::SetValue => set_value(space),
            Task::Fork => fork_and_kill(space),
        }
    }

    /// Makes it so many times.
    fn make_each(self, alloc: Global, space: &mut Space, calls: u32) -> io::Result<()> {
        for _ in 0..calls {
            self.make(alloc, space)?;
        }
        Ok(())
    }
}

/// What the program's words ask for, in a namespace of so many clients.
#[derive(Clone, Copy, Debug)]
enum Request {
    /// So many calls of the first client.
    Calls {
        calls: u32,
        task: Task,
        clients: u32,
    },
    /// That a client begins and exits, so many times.
    Turns {
        turns: u32,
        clients: u32,
    },
}

fn bad_words() -> io::Error {
    io::Error::from(io::ErrorKind::InvalidInput)
}

/// A number that stands as a word.
fn number_in(word: Option<&String>) -> io::Result<u32> {
    match word.and_then(|word| word.as_str().parse::<u32>().ok()) {
        Some(number) => Ok(number),
        None => Err(bad_words()),
    }
}

/// A task that stands as a word.
fn task_in(word: Option<&String>) -> io::Result<Task> {
    match word.and_then(|word| Task::of_word(word.as_str())) {
        Some(task) => Ok(task),
        None => Err(bad_words()),
    }
}

/// Whether the word asks for turns.
fn is_turns(word: Option<&String>) -> bool {
    word.is_some_and(|word| word.as_str() == "begin")
}

/// What the words ask for, without the program's own name: one fork of two clients where there is none.
fn request_of(words: &[String]) -> io::Result<Request> {
    if words.is_empty() {
        return Ok(Request::Calls {
            calls: 1,
            task: Task::Fork,
            clients: 2,
        });
    }
    let (calls, clients) = (number_in(words.get(0))?, number_in(words.get(2))?);
    if is_turns(words.get(1)) {
        return Ok(Request::Turns {
            turns: calls,
            clients,
        });
    }
    Ok(Request::Calls {
        calls,
        task: task_in(words.get(1))?,
        clients,
    })
}

/// Makes the calls in a namespace that is ready for them.
fn make_in(alloc: Global, space: &mut Space, task: Task, calls: u32) -> io::Result<()> {
    prepare(space)?;
    task.make_each(alloc, space, calls)
}

/// Makes the calls in a namespace of their own, of so many clients.
fn make(alloc: Global, task: Task, calls: u32, clients: u32) -> io::Result<()> {
    let mut space = space_of(alloc, clients)?;
    let made = make_in(alloc, &mut space, task, calls);
    drop(space);
    made
}

/// Does what is asked for.
fn answer(alloc: Global, request: Request) -> io::Result<()> {
    match request {
        Request::Calls {
            calls,
            task,
            clients,
        } => make(alloc, task, calls, clients),
        Request::Turns { turns, clients } => turns::make(alloc, turns, clients),
    }
}

fn main(rt: HostRuntime) -> io::Result<ExitCode> {
    let words: Vec<String> = env::args(&rt)?.skip(1).collect(rt.alloc())?;
    answer(rt.alloc(), request_of(words.as_slice())?)?;
    Ok(ExitCode::SUCCESS)
}
