// The words of the program.

use clap::error::ErrorKind;
use clap::{Arg, ArgAction, ArgMatches, Command};
use ipc_call::Kind;
use ipc_words::number_32;
use program_words::FromWords;
use std::alloc::{AllocError, Global};

/// What is asked for.
#[derive(Debug, Drop)]
pub(crate) enum Task {
    /// What the words mean.
    Help,
    /// The rows with notes.
    Explain,
    /// The same, and a picture that is written to this file.
    Picture(String),
    /// In place of these who may do what to the object of this kind and identifier.
    Who { kind: Kind, id: u32 },
}

/// What the words ask for.
#[derive(Debug, Drop)]
pub(crate) struct Asked {
    pub(crate) task: Task,
    /// The file of the script; `None` for standard input.
    pub(crate) script: Option<String>,
}

impl FromWords for Asked {
    fn from_words(alloc: Global, words: &[&str]) -> Result<Option<Asked>, AllocError> {
        match ipcsh_explain(alloc)?.try_get_matches_from(words) {
            Ok(matches) => asked_by(alloc, &matches),
            Err(error) => match error.kind() {
                ErrorKind::OutOfMemory => Err(AllocError),
                ErrorKind::DisplayHelp => Ok(Some(Asked {
                    task: Task::Help,
                    script: None,
                })),
                _ => Ok(None),
            },
        }
    }
}

fn ipcsh_explain<'a>(alloc: Global) -> Result<Command<'a>, AllocError> {
    let svg = Arg::new(alloc, "svg").long("svg").action(ArgAction::Set);
    let who = Arg::new(alloc, "who")
        .long("who")
        .num_args(2)
        .action(ArgAction::Set);
    let script = Arg::new(alloc, "script")
        .num_args(0..2)
        .action(ArgAction::Set);
    Command::new(alloc, "ipcsh_explain")
        .arg(svg)?
        .arg(who)?
        .arg(script)
}

fn asked_by(alloc: Global, matches: &ArgMatches<'_>) -> Result<Option<Asked>, AllocError> {
    let Some(task) = task_of(alloc, matches)? else {
        return Ok(None);
    };
    let script = match matches.get_str("script") {
        Some(path) => Some(String::from_str(alloc, path)?),
        None => None,
    };
    if draws_over(&task, &script) {
        return Ok(None);
    }
    Ok(Some(Asked { task, script }))
}

/// The script and the picture have the same name.
fn draws_over(task: &Task, script: &Option<String>) -> bool {
    match (task, script) {
        (Task::Picture(picture), Some(script)) => picture.as_str() == script.as_str(),
        _ => false,
    }
}

fn task_of(alloc: Global, matches: &ArgMatches<'_>) -> Result<Option<Task>, AllocError> {
    match (matches.get_str("svg"), matches.get_strs("who")) {
        (None, None) => Ok(Some(Task::Explain)),
        (Some(path), None) => Ok(Some(Task::Picture(String::from_str(alloc, path)?))),
        (None, Some([kind, id])) => Ok(object_of(kind, id)),
        _ => Ok(None),
    }
}

fn object_of(kind: &str, id: &str) -> Option<Task> {
    let kind = kind_named(kind)?;
    let id = number_32(id.as_bytes())?;
    Some(Task::Who { kind, id })
}

/// A kind by the name that notes and listings have, or by that in a script (ipcrm(1)).
fn kind_named(word: &str) -> Option<Kind> {
    match word {
        "queue" => Some(Kind::Queue),
        "set" => Some(Kind::Sems),
        "segment" => Some(Kind::Segment),
        _ => ipc_text::kind_named(word.as_bytes()),
    }
}
