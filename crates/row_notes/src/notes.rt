//! Notes, each with its row.

ghost use Rattle.std.specs.Prelude.{◌≡◌, [], ◌∷◌, MatchOption, OnOk, OnErr};
ghost use Rattle.row_notes.specs.Noted.{left_of, with_note};

use std::alloc::{AllocError, Global};
use std::marker::Model;

/// The row of a note.
#[derive(Clone, Copy, Debug, PartialEq, Eq)]
pub enum Head {
    /// That of a reply, or of a call that waits, by its place and turn.
    Event { place: u64, turn: u32 },
    /// That of a bad line, by its number from 1.
    Line(u64),
    /// None: it stands below the last row.
    End,
}

/// A note: where it stands, and how many bytes its text has.
#[derive(Clone, Copy, Debug)]
pub(crate) struct Note {
    pub(crate) head: Head,
    pub(crate) len: usize,
}

/// Notes in the order of their rows.
#[derive(Debug, Drop)]
pub struct Notes {
    notes: Vec<Note>,
    /// Their texts, one behind the other.
    text: Vec<u8>,
}

impl Model for Notes {
    ghost use Rattle.std.specs.Prelude.{◌≡◌, List, length};
    ghost use Rattle.row_notes.specs.Noted.{Noted, noted, total_len};

    ghost Value = { List Noted };

    ghost view = { λ n. noted n.notes.items n.text.items };

    ghost invariant = { λ n. total_len n.notes.items ≡ length n.text.items };
}

impl Notes {
    /// No notes.
    pub fn new(alloc: Global) -> Notes
        ensures { result ≡ [] }
    {
        Notes {
            notes: Vec::new(alloc),
            text: Vec::new(alloc),
        }
    }

    /// Adds a note of whole lines, unless its text is empty. Where an allocation fails, nothing is added.
    #[tactic(auto, using(crate::proofs::NotesLemmas::noted_push, crate::proofs::NotesLemmas::total_push))]
    pub fn add(&mut self, head: Head, text: &[u8]) -> Result<(), AllocError>
        ensures ok { OnOk result (self.new ≡ with_note self.old head text.now) }
        ensures err { OnErr result (self.new ≡ self.old) }
    {
        if text.is_empty() {
            return Ok(());
        }
        self.notes.reserve(1)?;
        self.text.extend_from_slice(text)?;
        let len = text.len();
        self.notes.push(Note { head, len }).unwrap();
        Ok(())
    }

    /// All notes.
    pub(crate) fn all(&self) -> NotesLeft<'_>
        ensures { left_of result ≡ self.now }
    {
        NotesLeft {
            notes: self.notes.as_slice(),
            text: self.text.as_slice(),
        }
    }
}

/// The notes that are left to be printed.
#[derive(Clone, Copy, Debug)]
pub(crate) struct NotesLeft<'n> {
    pub(crate) notes: &'n [Note],
    /// Their texts, one behind the other.
    pub(crate) text: &'n [u8],
}

impl<'n> NotesLeft<'n> {
    /// The first note with its text, and the others.
    pub(crate) fn split_first(&self) -> Option<(Head, &'n [u8], NotesLeft<'n>)>
        ensures { MatchOption result
            (left_of self.now ≡ [])
            (λ r. left_of self.now ≡ record { head = r.0; text = r.1.now } ∷ left_of r.2) }
    {
        let (note, notes) = self.notes.split_first()?;
        let (first, text) = self.text.split_at(note.len.min(self.text.len()));
        Some((note.head, first, NotesLeft { notes, text }))
    }
}
