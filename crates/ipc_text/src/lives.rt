// The calls by which processes and threads begin and end (fork(2), clone(2), execve(2), kill(2)), and those that name another
// client.

ghost use Rattle.std.specs.Prelude.{◌≡◌, ◌++◌, IfOk, option_map};
ghost use Rattle.ipc_text.specs.CallWords.{life_calls, read_by, shm_calls, sem_calls, value_calls};
ghost use Rattle.ipc_text.specs.Grammar.{of_one, of_two};
ghost use Rattle.ipc_text.specs.Lives.{assume_of as assume_line, begin_of as begin_line, call_by, child_words, exec_of as exec_words, fork_words, identity_in, identity_words, naming_of as naming_words, pid_of as pid_words};
ghost use Rattle.ipc_words.specs.Words.{words_of};

use crate::grammar::options_of;
use crate::lists::two_numbers;
use crate::segments::segment_call_of;
use bitflags::Flags;
use ipc_call::{Boxed, Call, Identity, Items};
use ipc_creds::Creds;
use ipc_words::{first_two, number_32, one_word, split_word, two_words};
use std::alloc::{AllocError, Global};

/// A call that names another client, whose number isn't known yet.
#[derive(Clone, Copy, Debug, PartialEq, Eq)]
pub enum Naming {
    /// A fork into that client, with this pid.
    Fork(u32),
    /// A clone into that client.
    Clone,
    /// An interrupt of that client's thread.
    Interrupt,
}

impl Naming {
    /// The call, with the number of the client.
    pub fn call(self, client: u32) -> Call
        ensures { result ≡ call_by self client }
    {
        match self {
            Naming::Fork(pid) => Call::Fork { child: client, pid },
            Naming::Clone => Call::Clone { child: client },
            Naming::Interrupt => Call::InterruptThread { client },
        }
    }
}

/// The word that is to name another client, and what call it makes: `fork CHILD PID`, `clone CHILD` or `interrupt CHILD`;
/// `None` for all other words. Whether the word names one is the caller's to say.
pub fn naming_of(words: &[u8]) -> Option<(&[u8], Naming)>
    ensures { option_map (λ x. (x.0.now, x.1)) result ≡ naming_words (words_of words.now) }
{
    let (word, arguments) = split_word(words)?;
    if word == b"fork".as_slice() {
        fork_of(arguments)
    } else if word == b"clone".as_slice() {
        child_of(arguments, Naming::Clone)
    } else if word == b"interrupt".as_slice() {
        child_of(arguments, Naming::Interrupt)
    } else {
        None
    }
}

// CHILD PID
fn fork_of(words: &[u8]) -> Option<(&[u8], Naming)>
    ensures { option_map (λ x. (x.0.now, x.1)) result ≡ of_two fork_words (words_of words.now) }
{
    let (child, pid) = two_words(words)?;
    let pid = number_32(pid)?;
    Some((child, Naming::Fork(pid)))
}

// CHILD
fn child_of(words: &[u8], naming: Naming) -> Option<(&[u8], Naming)>
    ensures { option_map (λ x. (x.0.now, x.1)) result ≡ of_one (child_words naming) (words_of words.now) }
{
    let child = one_word(words)?;
    Some((child, naming))
}

// A call whose word stands below `exit` in the table.
pub(crate) fn life_call_of(
    alloc: Global,
    word: &[u8],
    words: &[u8],
) -> Result<Option<Call>, AllocError>
    ensures { IfOk result (λ call. call
        ≡ read_by (life_calls ++ shm_calls ++ sem_calls ++ value_calls) word.now (words_of words.now)) }
{
    if word == b"kill".as_slice() {
        Ok(pid_of(words).map(|pid| Call::Kill { pid }))
    } else if word == b"name".as_slice() {
        Ok(pid_of(words).map(|pid| Call::Name { pid }))
    } else if word == b"exec".as_slice() {
        Ok(exec_of(words))
    } else if word == b"begin".as_slice() {
        begin_of(alloc, words)
    } else if word == b"assume".as_slice() {
        let creds = identity_of(alloc, words)?;
        Ok(creds.map(|creds| Call::Assume { creds }))
    } else {
        segment_call_of(alloc, word, words)
    }
}

fn pid_of(words: &[u8]) -> Option<u32>
    ensures { result ≡ pid_words (words_of words.now) }
{
    number_32(one_word(words)?)
}

fn exec_of(words: &[u8]) -> Option<Call>
    ensures { result ≡ exec_words (words_of words.now) }
{
    match split_word(words) {
        None => Some(Call::Exec),
        Some(_) => None,
    }
}

fn begin_of(alloc: Global, words: &[u8]) -> Result<Option<Call>, AllocError>
    ensures { IfOk result (λ call. call ≡ begin_line (words_of words.now)) }
{
    let Some((pid, words)) = split_word(words) else {
        return Ok(None);
    };
    let Some(pid) = number_32(pid) else {
        return Ok(None);
    };
    let creds = identity_of(alloc, words)?;
    Ok(creds.map(|creds| Call::Begin { pid, creds }))
}

// EUID EGID [groups=G,G,..] [caps=C,C,..] [saved=SUID:SGID]
fn identity_of(alloc: Global, words: &[u8]) -> Result<Option<Boxed<Identity>>, AllocError>
    ensures { IfOk result (λ creds. creds ≡ option_map identity_in (identity_words (words_of words.now))) }
{
    let Some((euid, egid, options)) = first_two(words) else {
        return Ok(None);
    };
    let Some((euid, egid)) = two_numbers(euid, egid) else {
        return Ok(None);
    };
    match options_of(alloc, euid, egid, options)? {
        Some(creds) => Ok(Some(as_identity(alloc, &creds)?)),
        None => Ok(None),
    }
}

fn as_identity(alloc: Global, creds: &Creds) -> Result<Boxed<Identity>, AllocError>
    ensures { IfOk result (λ identity. identity ≡ identity_in creds.now) }
{
    let (ruid, rgid) = creds.real();
    let (suid, sgid) = creds.saved();
    let identity = Identity {
        euid: creds.euid(),
        egid: creds.egid(),
        groups: Items::new(Vec::from_slice(alloc, creds.groups())?),
        caps: creds.caps().bits(),
        ruid,
        suid,
        rgid,
        sgid,
    };
    Boxed::new(alloc, identity)
}
