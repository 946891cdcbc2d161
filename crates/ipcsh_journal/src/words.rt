// The words of the program.

use clap::error::ErrorKind;
use clap::{Arg, ArgAction, ArgMatches, Command};
use program_words::FromWords;
use std::alloc::{AllocError, Global};

/// What is asked for.
#[derive(Clone, Copy, Debug, PartialEq, Eq)]
pub(crate) enum Task {
    /// What the words mean.
    Help,
    /// A script is run, and its journal written.
    Record,
    /// A journal is read and replayed.
    Replay,
}

/// What the words ask for.
#[derive(Debug, Drop)]
pub(crate) struct Asked {
    pub(crate) task: Task,
    /// The file that is read; standard input where none is named.
    pub(crate) file: Option<String>,
}

impl FromWords for Asked {
    fn from_words(alloc: Global, words: &[&str]) -> Result<Option<Asked>, AllocError> {
        match ipcsh_journal(alloc)?.try_get_matches_from(words) {
            Ok(matches) => asked_by(alloc, &matches),
            Err(error) => match error.kind() {
                ErrorKind::OutOfMemory => Err(AllocError),
                ErrorKind::DisplayHelp => Ok(Some(Asked {
                    task: Task::Help,
                    file: None,
                })),
                _ => Ok(None),
            },
        }
    }
}

fn ipcsh_journal<'a>(alloc: Global) -> Result<Command<'a>, AllocError> {
    let replay = Arg::new(alloc, "replay")
        .long("replay")
        .action(ArgAction::SetTrue);
    let files = Arg::new(alloc, "files")
        .num_args(0..)
        .action(ArgAction::Append);
    Command::new(alloc, "ipcsh_journal").arg(replay)?.arg(files)
}

fn asked_by(alloc: Global, matches: &ArgMatches<'_>) -> Result<Option<Asked>, AllocError> {
    let task = if matches.get_str("replay").unwrap_or("") == "true" {
        Task::Replay
    } else {
        Task::Record
    };
    match matches.get_strs("files").unwrap_or(&[]) {
        [] => Ok(Some(Asked { task, file: None })),
        [file] => {
            let file = Some(String::from_str(alloc, file)?);
            Ok(Some(Asked { task, file }))
        }
        _ => Ok(None),
    }
}
