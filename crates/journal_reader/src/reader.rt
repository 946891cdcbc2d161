//! A reader of a journal's text.

ghost use Rattle.std.specs.Prelude.{◌≡◌, ◌≤◌, [], OnOk, OnErr, IfOk, drop, length, min, string_bytes, take, true, vec_len};
ghost use Rattle.ipc_journal_text.specs.JournalText.{text_of};
ghost use Rattle.journal_reader.specs.Reading.{is_read, put_first, unread, Fetches, Gives, Reads};
ghost use Rattle.journal_reader.specs.declared.states.Unread.TheVariants.{Memory as NoMemory};

use crate::states::{Reader, Unread};
use ipc_call::{Limits, Memory};
use ipc_creds::Creds;
use ipc_journal_text::{print_journal, print_rows};
use ipc_member::{Member, Untaken};
use std::alloc::Global;
use std::cmp::min;

impl From<Untaken> for Unread {
    ghost use Rattle.journal_reader.specs.Reading.{why_unread};

    ghost from_gives = { λ untaken unread. unread ≡ why_unread untaken };

    fn from(untaken: Untaken) -> Unread {
        match untaken {
            Untaken::Busy(client) => Unread::Busy(client),
            Untaken::Elsewhere(_) | Untaken::NoParts => Unread::NoJournal,
        }
    }
}

impl From<Memory> for Unread {
    ghost from_gives = { λ _ unread. unread ≡ NoMemory };

    fn from(_memory: Memory) -> Unread {
        Unread::Memory
    }
}

impl Reader {
    /// A reader that has taken no rows, of a service with these limits, for clients with these credentials at the start: the
    /// text of its journal begins with them. Memory (ENOMEM) is for an allocation that fails.
    pub fn new(alloc: Global, limits: &Limits, clients: &[Creds]) -> Result<Reader, Memory>
        requires { length clients.now ≤ 64 }
        ensures text { IfOk result (λ reader. unread reader ≡ text_of limits.now clients.now []) }
        ensures taken { IfOk result (λ reader. reader.taken ≡ 0) }
    {
        let mut text = String::new(alloc);
        print_journal(&mut text, limits, clients, &[])?;
        Ok(Reader {
            taken: 0,
            rows: Vec::new(alloc),
            text,
            at: 0,
        })
    }

    /// Reads on: as many bytes as fit, of those that are there. Where all were read it takes the rows that came since, by this
    /// client; 0 bytes are then for a journal with no more rows as yet.
    pub fn read(&mut self, member: &mut Member, out: &mut [u8]) -> Result<usize, Unread>
        ensures { Reads self.old member.old out.old self.new member.new out.new result }
    {
        if self.is_read() {
            self.fetch(member)?;
        }
        self.read_on(out)
    }

    // Gives as many bytes as fit of those that were taken.
    fn read_on(&mut self, out: &mut [u8]) -> Result<usize, Unread>
        ensures { Gives self.old out.old self.new out.new result }
    {
        if self.at == self.text.len() {
            self.print()?;
        }
        Ok(self.give(out))
    }

    // Whether all that was taken was read.
    fn is_read(&self) -> bool
        ensures { result ≡ is_read self.now }
    {
        self.at == self.text.len() && self.rows.is_empty()
    }

    // Takes the rows that came.
    fn fetch(&mut self, member: &mut Member) -> Result<(), Unread>
        requires { is_read self.old ≡ true }
        ensures { Fetches self.old member.old self.new member.new result }
    {
        let rows = member.take_rows(self.taken)?;
        self.taken += rows.len() as u64;
        self.rows = rows;
        Ok(())
    }

    // Makes text of the rows, where the text before was read.
    fn print(&mut self) -> Result<(), Memory>
        requires { self.old.at ≡ length (string_bytes self.old.text) }
        ensures unread { unread self.new ≡ unread self.old }
        ensures printed { OnOk result (vec_len self.new.rows ≡ 0) }
        ensures taken { self.new.taken ≡ self.old.taken }
        ensures refused { OnErr result (self.new ≡ self.old) }
    {
        let mut text = String::new(*self.rows.allocator());
        print_rows(&mut text, self.rows.as_slice())?;
        self.text = text;
        self.at = 0;
        self.rows.clear();
        Ok(())
    }

    // Gives as much of the text as fits.
    fn give(&mut self, out: &mut [u8]) -> usize
        requires { vec_len self.old.rows ≡ 0 }
        ensures count { result ≡ min (length (unread self.old)) (length out.old) }
        ensures given { out.new ≡ put_first (take result (unread self.old)) out.old }
        ensures left { unread self.new ≡ drop result (unread self.old) }
        ensures taken { self.new.taken ≡ self.old.taken }
    {
        let rest = &self.text.as_bytes()[self.at..];
        let count = min(rest.len(), out.len());
        out[..count].copy_from_slice(&rest[..count]);
        self.at += count;
        count
    }
}
