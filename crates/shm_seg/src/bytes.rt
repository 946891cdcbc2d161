//! The bytes of a segment, which take no memory until one of them is written.

ghost use Rattle.std.specs.Prelude.{◌≡◌, ◌≤◌, ◌+◌, length, IfOk, OnOk, OnErr};
ghost use Rattle.shm_seg.specs.Bytes.{bytes_in};
ghost use Rattle.shm_seg.specs.Segments.{overwritten, part_of};

use ipc_call::Memory;
use std::alloc::Global;

/// The bytes of a segment.
#[derive(Debug, Drop)]
pub(crate) enum Bytes {
    /// So many, each 0, to which nobody has written. They take no memory.
    Zeros { size: u64 },
    /// The bytes themselves.
    Here(Vec<u8>),
}

impl Bytes {
    /// How many there are.
    pub(crate) fn len(&self) -> u64
        ensures { result ≡ length (bytes_in self.now) }
    {
        match self {
            Bytes::Zeros { size } => *size,
            Bytes::Here(all) => all.len() as u64,
        }
    }

    /// The `len` bytes from an offset on, which are there. The error comes only where the one allocation fails, of
    /// `len` bytes.
    pub(crate) fn read(&self, alloc: Global, offset: u64, len: u64) -> Result<Vec<u8>, Memory>
        requires { offset + len ≤ length (bytes_in self.now) }
        ensures { IfOk result (λ bytes. bytes.items ≡ part_of offset len (bytes_in self.now)) }
    {
        match self {
            Bytes::Zeros { .. } => Ok(vec![in alloc; 0; len as usize]?),
            Bytes::Here(all) => {
                let from = offset as usize;
                Ok(Vec::from_slice(alloc, &all[from..from + len as usize])?)
            }
        }
    }

    /// Writes these bytes from an offset on, where there are as many. The error comes only where the allocation of all
    /// bytes fails at the first write, and then nothing has changed. No bytes are written without memory.
    pub(crate) fn write(&mut self, alloc: Global, offset: u64, bytes: &[u8]) -> Result<(), Memory>
        requires { offset + length bytes.now ≤ length (bytes_in self.old) }
        ensures ok { OnOk result (bytes_in self.new ≡ overwritten offset bytes.now (bytes_in self.old)) }
        ensures err { OnErr result (self.new ≡ self.old) }
    {
        if bytes.is_empty() {
            return Ok(());
        }
        let from = offset as usize;
        match self {
            Bytes::Zeros { size } => {
                let mut all = vec![in alloc; 0; *size as usize]?;
                all[from..from + bytes.len()].copy_from_slice(bytes);
                *self = Bytes::Here(all);
            }
            Bytes::Here(all) => all[from..from + bytes.len()].copy_from_slice(bytes),
        }
        Ok(())
    }
}
