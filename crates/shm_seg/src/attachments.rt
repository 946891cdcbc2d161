//! Who has which segment attached.

ghost use Rattle.std.specs.Prelude.{◌≡◌, ◌==◌, ◌<◌, ◌≤◌, ◌+◌, ◌^◌, ℕ, None, IfNone, IfSome, IsSome, OnErr, OnOk};
ghost use Rattle.std.specs.Prelude.{if◌then◌else◌};
ghost use Rattle.shm_seg.specs.Attachments.{attach_count, attachment_at, first_number, IsCopied, IsPut};
ghost use Rattle.shm_seg.specs.Attachments.{free_number as least_free, none_attached};
ghost use Rattle.shm_seg.specs.Attachments.{with_attachment, without_attachment};
ghost use Rattle.shm_seg.specs.Inside.{counted_at};

use client_map::{ClientMap, narrow};
use ipc_call::Memory;
use std::alloc::Global;
use std::collections::BTreeMap;
use std::marker::Model;

/// The most attachments of a client (shmget(2), SHMSEG), a limit of the project's own.
const SHMSEG: u32 = 4096;

/// What is attached (shmop(2)).
#[derive(Clone, Copy, Debug, PartialEq, Eq)]
pub struct Attachment {
    /// The segment.
    pub segment: u32,
    /// Whether it is attached for reading alone (SHM_RDONLY).
    pub is_read_only: bool,
}

/// The attachments of all clients (shmop(2)). Contracts see them by client and number; a number is below 4096
/// (SHMSEG). A client or a segment is any number.
#[derive(Debug, Drop)]
pub struct Attachments {
    attached: ClientMap<Attachment>,
    // How many attachments are to each segment, where there are any.
    counts: BTreeMap<u32, u64>,
}

impl Model for Attachments {
    ghost use Rattle.shm_seg.specs.Attachments.{Attached};
    ghost use Rattle.shm_seg.specs.Codes.{attached_code};

    ghost Value = { Attached };

    ghost coded = { attached_code };

    ghost use Rattle.shm_seg.specs.Inside.{AreKept};

    ghost view = { λ a. a.attached };

    ghost invariant = { λ a. AreKept a.attached a.counts.entries };
}

impl Attachments {
    /// No attachment. It doesn't allocate; what comes later is taken from this allocator.
    pub fn new(alloc: Global) -> Attachments
        ensures { result ≡ none_attached }
    {
        Attachments {
            attached: ClientMap::new(alloc),
            counts: BTreeMap::new(alloc),
        }
    }

    /// What a client has attached under a number, None where that is nothing.
    pub fn get(&self, client: u64, number: u32) -> Option<Attachment>
        ensures { result ≡ attachment_at self.now client number }
    {
        self.attached.get(client, number as u64).copied()
    }

    /// The least number below 4096 under which a client has nothing attached; None where it has 4096 attachments. The
    /// time is logarithmic in the attachments, and linear in the number.
    pub fn free_number(&self, client: u64) -> Option<u32>
        ensures least { result ≡ least_free self.now client }
        ensures number { IfSome result (λ number. number < 4096) }
        ensures free { IfSome result (λ number. attachment_at self.now client number ≡ None) }
    {
        narrow(self.attached.first_free(client, SHMSEG as u64))
    }

    /// Attaches under a number below 4096 that is free for the client. The error comes only where an allocation fails,
    /// and then nothing has changed. The time is logarithmic in the attachments.
    pub fn attach(&mut self, client: u64, number: u32, attachment: Attachment) -> Result<(), Memory>
        requires number { number < 4096 }
        requires free { attachment_at self.old client number ≡ None }
        ensures ok { OnOk result (self.new ≡ with_attachment self.old client number attachment) }
        ensures err { OnErr result (self.new ≡ self.old) }
    {
        // Memory holds fewer than 2^63 attachments, so that no count overflows.
        prove!(self.attached.len() < usize::MAX);
        self.attached.insert(client, number as u64, attachment)?;
        match raise(&mut self.counts, attachment.segment) {
            Ok(()) => Ok(()),
            Err(memory) => {
                self.attached.remove(client, number as u64);
                Err(memory)
            }
        }
    }

    /// Detaches what a client has attached under a number, and gives it; None where that is nothing. The time is
    /// logarithmic in the attachments.
    pub fn detach(&mut self, client: u64, number: u32) -> Option<Attachment>
        ensures told { result ≡ attachment_at self.old client number }
        ensures left { self.new ≡ without_attachment self.old client number }
    {
        match self.attached.remove(client, number as u64) {
            None => None,
            Some(attachment) => {
                lower(&mut self.counts, attachment.segment);
                Some(attachment)
            }
        }
    }

    /// Gives another process, which has nothing attached, what a process has attached, under the same numbers (fork(2)). The
    /// error comes only where an allocation fails, and then nothing has changed.
    pub fn copy_all(&mut self, from: u64, to: u64) -> Result<(), Memory>
        requires none { (number : ℕ) → attachment_at self.old to number ≡ None }
        ensures ok { OnOk result (IsCopied from to self.old self.new) }
        ensures err { OnErr result (self.new ≡ self.old) }
    {
        let mut next = self.first(from);
        while let Some(number) = next {
            if let Err(memory) = self.copy(from, to, number) {
                self.let_go(to);
                return Err(memory);
            }
            next = self.next(from, number);
        }
        Ok(())
    }

    /// Gives another process, which has nothing attached under a number, what a process has attached there.
    fn copy(&mut self, from: u64, to: u64, number: u32) -> Result<(), Memory>
        requires number { number < 4096 }
        requires none { attachment_at self.old to number ≡ None }
        ensures ok { OnOk result (IfSome (attachment_at self.old from number) (λ a. self.new ≡ with_attachment self.old to number a)) }
        ensures none { IfNone (attachment_at self.old from number) (self.new ≡ self.old) }
        ensures err { OnErr result (self.new ≡ self.old) }
    {
        match self.get(from, number) {
            None => Ok(()),
            Some(attachment) => self.attach(to, number, attachment),
        }
    }

    /// Detaches all that a process has attached.
    fn let_go(&mut self, client: u64)
        ensures { IsPut client 4096 (λ _. None) self.old self.new }
    {
        for number in 0..SHMSEG {
            self.detach(client, number);
        }
    }

    /// The least number above this one under which a client has something attached; None where there is none. The time is
    /// logarithmic in the attachments.
    pub fn next(&self, client: u64, number: u32) -> Option<u32>
        ensures none { IfNone result ((n : ℕ) → number < n → attachment_at self.now client n ≡ None) }
        ensures there { IfSome result (λ next. IsSome (attachment_at self.now client next)) }
        ensures above { IfSome result (λ next. number < next) }
        ensures few { IfSome result (λ next. next < 4096) }
        ensures least { IfSome result (λ next. (n : ℕ) → number < n → n < next → attachment_at self.now client n ≡ None) }
    {
        narrow(self.attached.next(client, number as u64))
    }

    /// The least number from this one on under which a client has something attached; None where there is none. The time is
    /// logarithmic in the attachments.
    pub fn first_from(&self, client: u64, number: u32) -> Option<u32>
        ensures none { IfNone result ((n : ℕ) → number ≤ n → attachment_at self.now client n ≡ None) }
        ensures there { IfSome result (λ first. IsSome (attachment_at self.now client first)) }
        ensures from { IfSome result (λ first. number ≤ first) }
        ensures few { IfSome result (λ first. first < 4096) }
        ensures least { IfSome result (λ first. (n : ℕ) → number ≤ n → n < first → attachment_at self.now client n ≡ None) }
    {
        narrow(self.attached.first_from(client, u64::from(number)))
    }

    /// The least number under which a client has something attached; None where it has no attachment. The time is
    /// logarithmic in the attachments.
    pub fn first(&self, client: u64) -> Option<u32>
        ensures first { result ≡ first_number self.now client }
        ensures there { IfSome result (λ number. IsSome (attachment_at self.now client number)) }
        ensures none { IfNone result ((number : ℕ) → attachment_at self.now client number ≡ None) }
    {
        narrow(self.attached.first(client))
    }

    /// How many attachments are to a segment, those of all clients (shmctl(2), shm_nattch). The time is logarithmic in
    /// the segments that have any.
    pub fn count_of(&self, segment: u32) -> u64
        ensures { result ≡ attach_count self.now segment }
    {
        count_in(&self.counts, segment)
    }
}

/// The count of a segment, 0 where there is none.
fn count_in(counts: &BTreeMap<u32, u64>, segment: u32) -> u64
    ensures { result ≡ counted_at counts.now.entries segment }
{
    match counts.get(&segment) {
        None => 0,
        Some(count) => *count,
    }
}

/// Counts one more of a segment. The error comes only where an allocation fails.
fn raise(counts: &mut BTreeMap<u32, u64>, segment: u32) -> Result<(), Memory>
    requires { counted_at counts.old.entries segment < 2 ^ 63 }
    ensures ok { OnOk result ((s : ℕ) → counted_at counts.new.entries s
        ≡ counted_at counts.old.entries s + (if segment == s then 1 else 0)) }
    ensures err { OnErr result (counts.new.entries ≡ counts.old.entries) }
{
    let count = count_in(counts, segment);
    counts.insert(segment, count + 1)?;
    Ok(())
}

/// Counts one fewer of a segment; with the last its count goes.
fn lower(counts: &mut BTreeMap<u32, u64>, segment: u32)
    requires { 0 < counted_at counts.old.entries segment }
    ensures { (s : ℕ) → counted_at counts.old.entries s
        ≡ counted_at counts.new.entries s + (if segment == s then 1 else 0) }
{
    if count_in(counts, segment) == 1 {
        counts.remove(&segment);
    } else {
        let count = counts.get_mut(&segment).unwrap();
        *count -= 1;
    }
}
