//! A segment: its bytes, and whether it is marked for removal.

ghost use Rattle.std.specs.Prelude.{◌≡◌, ◌+◌, nat_le, true, false, length};
ghost use Rattle.std.specs.Prelude.{Err, MatchResult, OnOk, OnErr};
ghost use Rattle.ipc_call.specs.declared.rules.Rule.TheVariants.{OutOfSegment};
ghost use Rattle.shm_seg.specs.declared.segment.Fault.TheVariants.{Refused};
ghost use Rattle.shm_seg.specs.Faults.{IsMemory};
ghost use Rattle.shm_seg.specs.Segments.{lies_within, marked, overwritten, part_of, zeros};

use crate::bytes::Bytes;
use ipc_call::{Items, Memory, Rule};
use std::alloc::Global;
use std::marker::Model;

/// Why bytes aren't read or written.
#[derive(Debug, Drop)]
pub enum Fault {
    /// The rule that refuses the read or the write.
    Refused(Rule),
    /// An allocation failed.
    Memory(Memory),
}

/// A segment (shmget(2)). Contracts see its bytes by offset, from 0, and whether it is marked for removal.
#[derive(Debug, Drop)]
pub struct Segment {
    bytes: Bytes,
    is_marked: bool,
}

impl Model for Segment {
    ghost use Rattle.shm_seg.specs.Bytes.{bytes_in};
    ghost use Rattle.shm_seg.specs.Segments.{Contents};

    ghost Value = { Contents };

    ghost view = { λ s. record { bytes = bytes_in s.bytes; is_marked = s.is_marked } };
}

impl Segment {
    /// A segment of `size` bytes, each 0, that isn't marked (shmget(2)). It takes no memory for them.
    pub fn new(size: u64) -> Segment
        ensures { result ≡ zeros size }
    {
        Segment {
            bytes: Bytes::Zeros { size },
            is_marked: false,
        }
    }

    /// Its size in bytes (shmctl(2), shm_segsz), which never changes.
    pub fn len(&self) -> u64
        ensures { result ≡ length self.now.bytes }
    {
        self.bytes.len()
    }

    /// Whether it is to go with its last attachment (shmctl(2), SHM_DEST).
    pub fn is_marked(&self) -> bool
        ensures { result ≡ self.now.is_marked }
    {
        self.is_marked
    }

    /// Marks it for removal (shmctl(2), IPC_RMID). Its bytes stay, and a mark isn't taken back.
    pub fn mark(&mut self)
        ensures { self.new ≡ marked self.old }
    {
        self.is_marked = true;
    }

    /// The `len` bytes from an offset on. It is refused as out-of-segment exactly where they aren't all within the
    /// segment; the error Memory comes only where the one allocation fails, of `len` bytes.
    pub fn read(&self, alloc: Global, offset: u64, len: u64) -> Result<Items<u8>, Fault>
        ensures refused { lies_within offset len self.now.bytes ≡ false
            → result ≡ Err (Refused OutOfSegment) }
        ensures bytes { lies_within offset len self.now.bytes ≡ true
            → MatchResult result (λ bytes. bytes ≡ part_of offset len self.now.bytes) IsMemory }
    {
        if !is_within(offset, len, self.len()) {
            return Err(Fault::Refused(Rule::OutOfSegment));
        }
        match self.bytes.read(alloc, offset, len) {
            Ok(bytes) => Ok(Items::new(bytes)),
            Err(memory) => Err(Fault::Memory(memory)),
        }
    }

    /// Writes these bytes from an offset on. It is refused as out-of-segment exactly where they wouldn't all lie within
    /// the segment; the error Memory comes only where the segment's memory is refused, which is taken once, by the first
    /// write of any byte. Nothing has changed where nothing is written.
    pub fn write(&mut self, alloc: Global, offset: u64, bytes: &[u8]) -> Result<(), Fault>
        ensures refused { lies_within offset (length bytes.now) self.old.bytes ≡ false
            → result ≡ Err (Refused OutOfSegment) }
        ensures within { lies_within offset (length bytes.now) self.old.bytes ≡ true
            → MatchResult result (λ _. Unit) IsMemory }
        ensures ok { OnOk result (self.new ≡ record self.old {
          bytes = overwritten offset bytes.now self.old.bytes;
        }) }
        ensures err { OnErr result (self.new ≡ self.old) }
    {
        if !is_within(offset, bytes.len() as u64, self.len()) {
            return Err(Fault::Refused(Rule::OutOfSegment));
        }
        match self.bytes.write(alloc, offset, bytes) {
            Ok(()) => Ok(()),
            Err(memory) => Err(Fault::Memory(memory)),
        }
    }
}

/// Whether `len` bytes from an offset on lie within `size` bytes.
fn is_within(offset: u64, len: u64, size: u64) -> bool
    ensures { result ≡ nat_le (offset + len) size }
{
    offset <= size && len <= size - offset
}
