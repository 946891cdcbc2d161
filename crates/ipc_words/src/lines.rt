// Lines of a script, whose bytes come one after the other.

ghost use Rattle.std.specs.Prelude.{◌≡◌, ◌↔◌, ◌<◌, ◌≤◌, ◌==◌, [], ◌∷◌, ◌++◌, true, length, replicate, slice_index, take, IfSome, IsTrue, MatchOption, OnErr, OnOk};
ghost use Rattle.std.specs.List.{prefix_len};
ghost use Rattle.ipc_words.specs.LineText.{content_of};
ghost use Rattle.ipc_words.specs.Lines.{is_line, whole_line as line_whole, within_limit as line_within_limit};

use memchr::memchr;
use std::alloc::{AllocError, Global};
use std::marker::Model;

/// The longest line, in bytes.
const LONGEST: usize = 65536;

/// How many bytes of a line are kept: enough to tell one that is too long, a carriage return at its
/// end or not.
const KEPT: usize = LONGEST + 2;

/// What a line says.
#[derive(Clone, Copy, Debug)]
pub enum Line<'a> {
    /// These bytes, at most 65536 of them.
    Text(&'a [u8]),
    /// More than 65536 bytes, which nobody reads.
    TooLong,
}

/// A line whose end hasn't come yet. It keeps as many bytes as tell what the line says; this is the project's
/// own.
#[derive(Debug, Drop)]
pub struct Pending {
    kept: Vec<u8>,
}

impl Model for Pending {
    ghost use Rattle.std.specs.Prelude.{ℕ, List, ◌≤◌, vec_len};

    ghost Value = { List ℕ };

    ghost view = { λ p. p.kept.items };

    ghost invariant = { λ p. vec_len p.kept ≤ 65538 };
}

impl Pending {
    /// A line of which nothing has come.
    pub fn new(alloc: Global) -> Pending
        ensures { result ≡ [] }
    {
        Pending {
            kept: Vec::new(alloc),
        }
    }

    /// More bytes of the line, kept where they are needed. `AllocError` comes where memory was refused, and leaves the
    /// line as it was.
    pub fn extend(&mut self, bytes: &[u8]) -> Result<(), AllocError>
        ensures ok { OnOk result (self.new ≡ take 65538 (self.old ++ bytes.now)) }
        ensures err { OnErr result (self.new ≡ self.old) }
    {
        let room = KEPT - self.kept.len();
        self.kept
            .extend_from_slice(&bytes[..room.min(bytes.len())])?;
        Ok(())
    }

    /// Begins the next line.
    pub fn clear(&mut self)
        ensures { self.new ≡ [] }
    {
        self.kept.clear();
    }

    /// Whether nothing of the line has come.
    pub fn is_empty(&self) -> bool
        ensures { IsTrue result ↔ (self.now ≡ []) }
    {
        self.kept.is_empty()
    }

    /// What the line says, where a line feed has ended it.
    pub fn whole(&self) -> Line<'_>
        ensures { content_of result ≡ line_whole self.now }
    {
        whole_line(self.kept.as_slice())
    }

    /// What the line says, where the script has ended.
    pub fn last(&self) -> Line<'_>
        ensures { content_of result ≡ line_within_limit self.now }
    {
        last_line(self.kept.as_slice())
    }
}

/// The first line without its line feed, and what follows that; `None` where there is no line feed.
#[inline(always)]
pub fn split_line(text: &[u8]) -> Option<(&[u8], &[u8])>
    ensures line { MatchOption result (is_line text.now ≡ true) (λ x. is_line x.0.now ≡ true) }
    ensures parts { IfSome result (λ x. text.now ≡ x.0.now ++ 10 ∷ x.1.now) }
    ensures shorter { IfSome result (λ x. length x.1.now < length text.now) }
{
    let place = line_end(text)?;
    Some((&text[..place], &text[place + 1..]))
}

/// The line feeds that come first, and what follows them.
pub fn split_feeds(text: &[u8]) -> (&[u8], &[u8])
    ensures feeds { result.0.now ≡ replicate (length result.0.now) 10 }
    ensures parts { text.now ≡ result.0.now ++ result.1.now }
{
    text.split_at(feeds_before(text))
}

// How many line feeds come first.
fn feeds_before(text: &[u8]) -> usize
    ensures value { result ≡ prefix_len (λ b. b == 10) text.now }
    ensures within { result ≤ length text.now }
{
    text.iter().take_while(|byte| **byte == b'\n').count()
}

// Where the first line feed stands.
fn line_end(text: &[u8]) -> Option<usize>
    ensures line { MatchOption result (is_line text.now ≡ true) (λ place. is_line (take place text.now) ≡ true) }
    ensures feed { IfSome result (λ place. slice_index text.now place ≡ 10) }
    ensures within { IfSome result (λ place. place < length text.now) }
{
    memchr(b'\n', text)
}

/// What a line says that a line feed has ended: a carriage return before it isn't part of the line.
pub fn whole_line(line: &[u8]) -> Line<'_>
    ensures { content_of result ≡ line_whole line.now }
{
    match line {
        [line @ .., b'\r'] => last_line(line),
        line => last_line(line),
    }
}

/// What a line says that the end of the script has ended: a carriage return at its end is part of it.
pub fn last_line(line: &[u8]) -> Line<'_>
    ensures { content_of result ≡ line_within_limit line.now }
{
    if line.len() > LONGEST {
        return Line::TooLong;
    }
    Line::Text(line)
}
