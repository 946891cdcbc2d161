// A script as it comes in: the line whose end hasn't come, the session, and the rows that wait to be written.

ghost use Rattle.std.specs.Prelude.{◌≡◌, ◌<◌, ◌≤◌, ◌+◌, ◌^◌, ◌++◌, ◌∷◌, [], List, ℕ, true, OnOk, OnErr, IfErr, length, string_bytes};
ghost use Rattle.std.specs.Io.KnownBytes.{Appends};
ghost use Rattle.ipcsh.specs.Session.{fresh_session};
ghost use Rattle.ipc_words.specs.Lines.{is_line, lines_of};
ghost use Rattle.ipcsh.specs.Runs.{LeadTo};
ghost use Rattle.ipcsh.specs.Inputs.{HasRead, Takes, TakesFront};

use crate::listeners::Listener;
use crate::output::write_bytes;
use crate::runs::Fault;
use crate::session::Session;
use ipc_call::Memory;
use ipc_words::{Pending, split_feeds, split_line, whole_line};
use std::alloc::Global;
use std::io::Write;

/// A script between two bytes.
#[derive(Drop)]
pub(crate) struct ScriptInput {
    pub(crate) session: Session,
    pub(crate) pending: Pending,
    pub(crate) rows: String,
}

impl ScriptInput {
    /// Before the first byte.
    pub(crate) fn new(alloc: Global) -> ScriptInput
        ensures session { result.session ≡ fresh_session }
        ensures pending { result.pending ≡ [] }
        ensures rows { string_bytes result.rows ≡ [] }
    {
        ScriptInput {
            session: Session::new(alloc),
            pending: Pending::new(alloc),
            rows: String::new(alloc),
        }
    }

    /// Reads bytes, and answers each line whose end is among them.
    pub(crate) fn take<L: Listener>(
        &mut self,
        alloc: Global,
        bytes: &[u8],
        listener: &mut L,
    ) -> Result<(), Memory>
        requires { self.old.session.lines + length bytes.now < 2 ^ 64 }
        ensures takes { OnOk result (Takes self.old bytes.now self.new) }
        ensures lines { OnOk result (self.new.session.lines ≤ self.old.session.lines + length bytes.now) }
    {
        let mut rest = bytes;
        while let Some((line, others)) = split_line(rest) {
            self.take_line(alloc, line, listener)?;
            rest = self.pass_feeds(others);
        }
        self.pending.extend(rest)?;
        Ok(())
    }

    /// Passes the line feeds that come first, and gives what follows them: each ends a line that says nothing.
    fn pass_feeds<'a>(&mut self, bytes: &'a [u8]) -> &'a [u8]
        requires none { self.old.pending ≡ [] }
        requires lines { self.old.session.lines + length bytes.now < 2 ^ 64 }
        ensures takes { TakesFront self.old bytes.now self.new result.now }
        ensures lines { self.new.session.lines + length result.now ≡ self.old.session.lines + length bytes.now }
    {
        let (feeds, others) = split_feeds(bytes);
        self.session.count_lines(feeds.len() as u64);
        others
    }

    /// Answers the line that these bytes end, whose line feed has come. One that has come in one piece isn't copied.
    fn take_line<L: Listener>(
        &mut self,
        alloc: Global,
        bytes: &[u8],
        listener: &mut L,
    ) -> Result<(), Memory>
        requires lines { self.old.session.lines + 1 < 2 ^ 64 }
        requires line { is_line bytes.now ≡ true }
        ensures takes { OnOk result (Takes self.old (bytes.now ++ 10 ∷ []) self.new) }
        ensures none { OnOk result (self.new.pending ≡ []) }
        ensures lines { OnOk result (self.new.session.lines ≡ self.old.session.lines + 1) }
    {
        if self.pending.is_empty() {
            let line = whole_line(bytes);
            return self.session.answer(alloc, &line, &mut self.rows, listener);
        }
        self.pending.extend(bytes)?;
        let line = self.pending.whole();
        self.session.answer(alloc, &line, &mut self.rows, listener)?;
        self.pending.clear();
        Ok(())
    }

    /// Answers the last line, where the input ended without its line feed.
    pub(crate) fn finish<L: Listener>(
        &mut self,
        alloc: Global,
        listener: &mut L,
    ) -> Result<(), Memory>
        requires { self.old.session.lines + 1 < 2 ^ 64 }
        ensures { OnOk result ((text written : List ℕ) → HasRead text written self.old
            → LeadTo (lines_of text) (record { session = self.new.session; output = written ++ string_bytes self.new.rows })) }
    {
        if self.pending.is_empty() {
            return Ok(());
        }
        let line = self.pending.last();
        self.session.answer(alloc, &line, &mut self.rows, listener)
    }

    /// Writes the rows that wait.
    pub(crate) fn flush<W: Write>(&mut self, writer: &mut W) -> Result<(), Fault>
        ensures ok { OnOk result (Appends (W.contents writer.old) (W.contents writer.new) (string_bytes self.old.rows)) }
        ensures rows { OnOk result (string_bytes self.new.rows ≡ []) }
        ensures session { self.new.session ≡ self.old.session }
        ensures pending { self.new.pending ≡ self.old.pending }
        ensures err { OnErr result ((done : List ℕ) × (rest : List ℕ) × (string_bytes self.old.rows ≡ done ++ rest) × Appends (W.contents writer.old) (W.contents writer.new) done) }
        ensures fault { IfErr result (λ fault. fault ≡ Fault.Write) }
    {
        write_bytes(writer, self.rows.as_bytes())?;
        self.rows.clear();
        Ok(())
    }
}
