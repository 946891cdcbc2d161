// What is told of the lines of a script.

use crate::bytes::{explain_byte, is_odd};
use crate::calls::explain_call;
use crate::clients::explain_client;
use crate::commands::explain_command;
use crate::directives::{explain_clock, explain_limit};
use crate::lost::{Cause, LostNames};
use ipc_arguments::{
    CALLS, Quoted, Shown, Told, Word, form_of, has_suspects, is_like, is_one_of, nearest,
    warn_of_decimal, words_in,
};
use ipc_call::Memory;
use ipc_text::{Command, Line, Reason};
use std::alloc::Global;
use std::fmt::Write;

/// How many clients a script may have.
const CLIENTS_MAX: usize = 64;

/// How many names of clients are shown.
const SHOWN: usize = 8;

/// The words that begin a directive.
const DIRECTIVES: &str = "client limit clock";

/// A client of the script.
#[derive(Debug, Drop)]
struct Client {
    name: Vec<u8>,
    /// Its client line.
    line: u64,
    /// The line of its last call, 0 for none.
    last: u64,
    /// The last call of which it was told that it waits, 0 for none.
    told: u64,
    /// How many lines that came while it waited have no text.
    silent: u64,
}

/// Explains the bad lines of a script, one after another.
#[derive(Debug, Drop)]
pub struct Hints {
    alloc: Global,
    clients: Vec<Client>,
    lost: LostNames,
    /// The line that started the namespace, 0 before it.
    start: u64,
}

impl Hints {
    /// Before the first line.
    pub fn new(alloc: Global) -> Hints {
        Hints {
            alloc,
            clients: Vec::new(alloc),
            lost: LostNames::new(alloc),
            start: 0,
        }
    }

    /// Notes the line of a new client, by its number from 1. `Memory` comes where an allocation fails; then nothing is
    /// to be asked any more.
    pub fn client(&mut self, number: u64, text: &[u8]) -> Told {
        let words = words_in(self.alloc, text)?;
        let Some(name) = words.get(1) else {
            return Ok(());
        };
        self.clients.push(Client {
            name: Vec::from_slice(self.alloc, name.bytes)?,
            line: number,
            last: 0,
            told: 0,
            silent: 0,
        })?;
        Ok(())
    }

    /// Notes a line with calls of a client, counted from 0. Whether `warn` may have something to say of the line.
    pub fn calls(&mut self, number: u64, client: u32, command: &Command) -> bool {
        if self.start == 0 {
            self.start = number;
        }
        if let Some(client) = self.clients.get_mut(client as usize) {
            client.last = number;
        }
        has_suspects(command.as_slice())
    }

    /// Appends a warning of each mode and each flags of a line with calls that lack their leading 0. `Memory` comes where
    /// an allocation fails; of `out` a part may then be appended.
    pub fn warn(&self, number: u64, text: &[u8], out: &mut String) -> Told {
        let words = words_in(self.alloc, text)?;
        let [_, call, arguments @ ..] = words.as_slice() else {
            return Ok(());
        };
        let Some(form) = form_of(call.bytes) else {
            return Ok(());
        };
        for (index, word) in arguments.iter().enumerate() {
            if let Some(argument) = form.argument_at(index) {
                warn_of_decimal(out, number, argument, *word)?;
            }
        }
        Ok(())
    }

    /// Appends one line that explains a bad line, with the argument and a way out, unless its first word is that of a
    /// line of which that was told. `Memory` comes where an allocation fails; of `out` a part may then be appended.
    pub fn bad(&mut self, number: u64, line: &Line<'_>, reason: Reason, out: &mut String) -> Told {
        let Line::Text(text) = line else {
            return write!(
                out,
                "ipcsh: line {number}: more than 65536 bytes; a text in t: is half as long as one in x:\n"
            );
        };
        let words = words_in(self.alloc, text)?;
        let Some((first, rest)) = words.as_slice().split_first() else {
            return Ok(());
        };
        let word = self.word_meant(*first, rest, reason);
        if self.is_told(word.bytes, reason) {
            return Ok(());
        }
        write!(out, "ipcsh: line {number}: ")?;
        self.explain(text, word, rest, reason, out)?;
        out.push('\n')?;
        self.lose(number, word.bytes, rest, reason)
    }

    /// The word of which a reason is told: that which names no client is that of its call where the first one names one.
    fn word_meant<'a>(&self, first: Word<'a>, rest: &[Word<'a>], reason: Reason) -> Word<'a> {
        let is_child = reason == Reason::UnknownClient && self.named(first.bytes).is_some();
        match rest.get(1) {
            Some(child) if is_child => *child,
            _ => first,
        }
    }

    /// Appends how many bad lines have no text.
    pub fn finish(&self, out: &mut String) -> Told {
        self.lost.tell(out)?;
        for client in self.clients.iter() {
            if client.silent > 0 {
                let (silent, name) = (client.silent, Quoted(client.name.as_slice()));
                write!(
                    out,
                    "ipcsh: {name} still waited; its further lines without a hint: {silent}\n"
                )?;
            }
        }
        Ok(())
    }

    fn named(&self, name: &[u8]) -> Option<&Client> {
        self.clients
            .iter()
            .find(|client| client.name.as_slice() == name)
    }

    /// Whether the line needs no text, since another of its name has one. It is counted then.
    fn is_told(&mut self, name: &[u8], reason: Reason) -> bool {
        match reason {
            Reason::UnknownClient => self.lost.count(name),
            Reason::Busy => self.is_told_of_wait(name),
            _ => false,
        }
    }

    fn is_told_of_wait(&mut self, name: &[u8]) -> bool {
        for client in self.clients.iter_mut() {
            if client.name.as_slice() == name {
                if client.told == client.last {
                    client.silent = client.silent.saturating_add(1);
                    return true;
                }
                client.told = client.last;
            }
        }
        false
    }

    /// Keeps the name that a bad line has left without a client.
    fn lose(&mut self, number: u64, first: &[u8], rest: &[Word<'_>], reason: Reason) -> Told {
        let directive = first.strip_prefix(b"\xef\xbb\xbf").unwrap_or(first);
        let is_client_line = is_like(directive, b"client") && rest.len() > 1;
        match rest.first() {
            Some(name) if is_client_line && self.named(name.bytes).is_none() => {
                self.lost.add(name.bytes, Cause::BadLine(number))
            }
            _ if reason == Reason::UnknownClient => self.lost.add(first, Cause::NoClient),
            _ => Ok(()),
        }
    }

    fn explain(
        &self,
        text: &[u8],
        first: Word<'_>,
        rest: &[Word<'_>],
        reason: Reason,
        out: &mut String,
    ) -> Told {
        match reason {
            Reason::TooLong => Ok(()),
            Reason::BadLine => explain_bad_line(out, text, first, rest),
            Reason::Late => self.explain_late(first, out),
            Reason::Twice => self.explain_twice(rest, out),
            Reason::Many => {
                write!(
                    out,
                    "client: a script has at most {CLIENTS_MAX} clients; take one of these"
                )
            }
            Reason::UnknownClient => self.explain_unknown(first, out),
            Reason::BadCommand => explain_command(out, rest),
            Reason::Busy => self.explain_busy(first.bytes, out),
        }
    }

    fn explain_late(&self, first: Word<'_>, out: &mut String) -> Told {
        first.push_column(out)?;
        let (line, word) = (self.start, Quoted(first.bytes));
        write!(
            out,
            "{word} is late: line {line} has made the first call; put this one before that line"
        )
    }

    fn explain_twice(&self, rest: &[Word<'_>], out: &mut String) -> Told {
        let Some(name) = rest.first() else {
            return Ok(());
        };
        name.push_column(out)?;
        let line = self.named(name.bytes).map_or(0, |client| client.line);
        let shown = Quoted(name.bytes);
        write!(
            out,
            "client: NAME {shown} is that of line {line}; take another, or setcreds to change its user"
        )
    }

    fn explain_busy(&self, name: &[u8], out: &mut String) -> Told {
        let line = self.named(name).map_or(0, |client| client.last);
        let shown = Quoted(name);
        write!(
            out,
            "{shown} still waits in its call of line {line}; a call of another client has to end that first"
        )
    }

    fn explain_unknown(&self, first: Word<'_>, out: &mut String) -> Told {
        first.push_column(out)?;
        let (shown, word) = (Quoted(first.bytes), first.bytes);
        if matches!(
            word,
            [b'/', b'/' | b'*', ..] | [b'-', b'-', ..] | [b';', ..]
        ) {
            return write!(out, "{shown} is no client; a comment begins with #");
        }
        if is_one_of(word, CALLS) {
            let call = Shown(word);
            return write!(
                out,
                "{shown} is a call; the name of its client comes first, as in alice {call}"
            );
        }
        write!(out, "no client {shown}")?;
        if let Some(directive) = nearest(word, DIRECTIVES) {
            return write!(out, "; did you mean {directive}?");
        }
        match self
            .clients
            .iter()
            .find(|client| is_like(word, client.name.as_slice()))
        {
            Some(client) => {
                let name = Shown(client.name.as_slice());
                write!(out, "; did you mean {name}?")
            }
            None => self.push_clients(out),
        }
    }

    fn push_clients(&self, out: &mut String) -> Told {
        if self.clients.is_empty() {
            return out.push_str("; a line makes one, as client alice 100 10");
        }
        out.push_str("; clients: ")?;
        for (index, client) in self.clients.iter().take(SHOWN).enumerate() {
            if index > 0 {
                out.push_str(", ")?;
            }
            let name = Shown(client.name.as_slice());
            write!(out, "{name}")?;
        }
        if self.clients.len() > SHOWN {
            out.push_str(", ..")?;
        }
        Ok(())
    }
}

/// Appends what is wrong with a line that isn't in the grammar.
fn explain_bad_line(out: &mut String, text: &[u8], first: Word<'_>, rest: &[Word<'_>]) -> Told {
    if let Some(place) = text.iter().position(is_odd) {
        return explain_byte(out, text, place);
    }
    match first.bytes {
        b"client" => explain_client(out, rest),
        b"limit" => explain_limit(out, rest),
        b"clock" => explain_clock(out, rest),
        _ => explain_call(out, rest),
    }
}
