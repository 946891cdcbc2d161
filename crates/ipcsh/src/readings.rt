// What a line says at its place in a script.

ghost use Rattle.std.specs.Prelude.{◌≡◌, IfOk, IfNone};
ghost use Rattle.ipc_words.specs.LineText.{content_of};
ghost use Rattle.ipc_words.specs.Words.{words_of};
ghost use Rattle.ipcsh.specs.Readings.{
  begins_comment as comments,
  reading_of,
  text_line,
  words_line,
  client_line,
  client_fault,
  CanJoin,
  limit_line,
  clock_line,
  command_line,
  command_with,
  IsSound,
};
ghost use Rattle.ipcsh.specs.Session.{client_named as client_with};
ghost use Rattle.ipc_text.specs.Grammar.{client_of as client_in, limit_of as limit_in, clock_of as clock_in};

use crate::session::{CLIENTS_MAX, Session};
use ipc_call::{Limit, Memory};
use ipc_creds::Creds;
use ipc_text::{
    Command, Line, Name, Reason, client_of, clock_of, command_of, is_name, is_plain, limit_of,
    naming_of, split_word,
};
use std::alloc::Global;

/// What a line says.
#[derive(Debug, Drop)]
pub(crate) enum Reading {
    /// Nothing: a blank line or a comment.
    Skip,
    /// It is bad.
    Bad(Reason),
    /// A new client.
    Client(Name, Creds),
    /// A limit and its value.
    Limit(Limit, u32),
    /// The time from here on, in seconds.
    Clock(u64),
    /// Calls of the client of this number.
    Command(u32, Command),
}

impl Session {
    /// What a line says now.
    #[tactic(auto, unfolding(crate::specs::Readings::reading_of))]
    #[inline(always)]
    pub(crate) fn read(&self, alloc: Global, line: &Line<'_>) -> Result<Reading, Memory>
        ensures value { IfOk result (λ r. r ≡ reading_of self.now (content_of line.now)) }
        ensures sound { IfOk result (IsSound self.now) }
    {
        match line {
            Line::TooLong => Ok(Reading::Bad(Reason::TooLong)),
            Line::Text(text) => self.read_text(alloc, text),
        }
    }

    fn read_text(&self, alloc: Global, text: &[u8]) -> Result<Reading, Memory>
        ensures value { IfOk result (λ r. r ≡ text_line self.now text.now (words_of text.now)) }
        ensures sound { IfOk result (IsSound self.now) }
    {
        let Some((word, words)) = split_word(text) else {
            return Ok(Reading::Skip);
        };
        if begins_comment(word) {
            return Ok(Reading::Skip);
        }
        if !is_plain(text) {
            return Ok(Reading::Bad(Reason::BadLine));
        }
        self.read_words(alloc, word, words)
    }

    fn read_words(&self, alloc: Global, word: &[u8], words: &[u8]) -> Result<Reading, Memory>
        ensures value { IfOk result (λ r. r ≡ words_line self.now word.now (words_of words.now)) }
        ensures sound { IfOk result (IsSound self.now) }
    {
        if word == b"client".as_slice() {
            let new = client_of(alloc, words)?;
            Ok(self.read_client(new))
        } else if word == b"limit".as_slice() {
            Ok(self.read_limit(words))
        } else if word == b"clock".as_slice() {
            Ok(read_clock(words))
        } else {
            self.read_command(alloc, word, words)
        }
    }

    fn read_client(&self, new: Option<(Name, Creds)>) -> Reading
        ensures value { result ≡ client_line self.now new }
        ensures sound { IsSound self.now result }
    {
        let Some((name, creds)) = new else {
            return Reading::Bad(Reason::BadLine);
        };
        match self.fault_of_client(&name) {
            Some(reason) => Reading::Bad(reason),
            None => Reading::Client(name, creds),
        }
    }

    fn fault_of_client(&self, name: &Name) -> Option<Reason>
        ensures value { result ≡ client_fault self.now name.now }
        ensures sound { IfNone result (CanJoin self.now) }
    {
        if self.has_started() {
            return Some(Reason::Late);
        }
        if self.client_named(name.as_str().as_bytes()).is_some() {
            return Some(Reason::Twice);
        }
        if self.count() >= CLIENTS_MAX {
            return Some(Reason::Many);
        }
        None
    }

    fn read_limit(&self, words: &[u8]) -> Reading
        ensures value { result ≡ limit_line self.now (limit_in (words_of words.now)) }
        ensures sound { IsSound self.now result }
    {
        let Some((limit, value)) = limit_of(words) else {
            return Reading::Bad(Reason::BadLine);
        };
        if self.has_started() {
            return Reading::Bad(Reason::Late);
        }
        Reading::Limit(limit, value)
    }

    fn read_command(&self, alloc: Global, word: &[u8], words: &[u8]) -> Result<Reading, Memory>
        ensures value { IfOk result (λ r. r ≡ command_line self.now (client_with self.now word.now) (words_of words.now)) }
        ensures sound { IfOk result (IsSound self.now) }
    {
        let Some(client) = self.client_named(word) else {
            return Ok(Reading::Bad(Reason::UnknownClient));
        };
        let command = match self.command_in(alloc, words)? {
            Ok(command) => command,
            Err(reason) => return Ok(Reading::Bad(reason)),
        };
        if self.is_waiting(client) {
            return Ok(Reading::Bad(Reason::Busy));
        }
        Ok(Reading::Command(client, command))
    }

    /// The calls that the words behind a client's name make, where another client may be named.
    fn command_in(&self, alloc: Global, words: &[u8]) -> Result<Result<Command, Reason>, Memory>
        ensures { IfOk result (λ command. command ≡ command_with self.now (words_of words.now)) }
    {
        if let Some((word, naming)) = naming_of(words) {
            if is_name(word) {
                return Ok(match self.client_named(word) {
                    Some(client) => Ok(Command::of(naming.call(client))),
                    None => Err(Reason::UnknownClient),
                });
            }
        }
        Ok(command_of(alloc, words)?)
    }
}

fn read_clock(words: &[u8]) -> Reading
    ensures { result ≡ clock_line (clock_in (words_of words.now)) }
{
    match clock_of(words) {
        Some(now) => Reading::Clock(now),
        None => Reading::Bad(Reason::BadLine),
    }
}

fn begins_comment(word: &[u8]) -> bool
    ensures { result ≡ comments word.now }
{
    matches!(word, [b'#', ..])
}
