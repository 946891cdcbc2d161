// The text of a journal is read and printed.

use crossbeam_utils::Backoff;
use ipc_member::Member;
use journal_reader::{Reader, Unread};
use std::cmp::min;
use std::io::{self, Write};
use std::sync::Wait;
use test_support::measuring::unanswered;

/// The most bytes that are read at once.
const PIECE: usize = 65536;

/// Prints what of the journal there is to read, by the first of these clients. It waits while another one combines.
pub(crate) fn print_part<R: Wait + Print + AllocGlobal>(
    rt: &R,
    reader: &mut Reader,
    members: &mut [Member],
) -> io::Result<()> {
    let Some(member) = members.first_mut() else {
        return Err(unanswered());
    };
    let mut piece = vec![in rt.alloc(); 0u8; PIECE]?;
    let backoff = Backoff::new();
    for _ in rt.forever() {
        match reader.read(member, &mut piece) {
            Ok(0) => return Ok(()),
            Ok(count) => print_bytes(rt, piece.as_slice(), count)?,
            Err(Unread::Busy(_)) => backoff.snooze(),
            Err(Unread::NoJournal) => return Err(io::Error::from(io::ErrorKind::InvalidData)),
            Err(Unread::Memory) => return Err(io::Error::from(io::ErrorKind::OutOfMemory)),
        }
    }
    unreachable!()
}

/// Prints so many of these bytes, which there are.
fn print_bytes<R: Print>(rt: &R, bytes: &[u8], count: usize) -> io::Result<()> {
    io::writer(rt).write_all(&bytes[..min(count, bytes.len())])
}
