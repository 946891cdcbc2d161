// Measurements of shared memory segments, through a whole namespace and its journal, and of a copy in memory beside
// them.

use crate::spaces::{answer, done, in_spaces};
use ipc_call::{Answer, Call, Items};
use ipc_space::Space;
use std::alloc::{AllocError, Global};
use std::io;
use std::time::{Clock, Instant};
use test_support::measuring::{BATCH, Run, unanswered};

/// How the bytes behind an attachment are reached.
#[derive(Clone, Copy, Debug)]
pub(crate) enum Access {
    Read,
    Write,
}

impl Access {
    /// A call that reaches so many bytes of what is attached, from the first on.
    fn call(self, alloc: Global, att: u32, bytes: u32) -> Result<Call, AllocError> {
        let offset = 0;
        match self {
            Access::Read => Ok(Call::ShmRead {
                att,
                offset,
                len: u64::from(bytes),
            }),
            Access::Write => Ok(Call::ShmWrite {
                att,
                offset,
                bytes: Items::new(vec![in alloc; 97u8; bytes as usize]?),
            }),
        }
    }

    /// A batch of such calls.
    fn batch(self, alloc: Global, att: u32, bytes: u32) -> Result<Vec<Call>, AllocError> {
        let mut calls = Vec::new(alloc);
        for _ in 0..BATCH {
            calls.push(self.call(alloc, att, bytes)?)?;
        }
        Ok(calls)
    }

    /// Counts so many batches, each call on a whole segment of so many bytes.
    fn add_batches<R: Clock + AllocGlobal>(
        self,
        rt: &R,
        space: &mut Space,
        run: &mut Run,
        bytes: u32,
        batches: u32,
    ) -> io::Result<()> {
        let id = shmget(space, bytes)?;
        let att = shmat(space, id)?;
        for _ in 0..batches {
            let calls = self.batch(rt.alloc(), att, bytes)?;
            let start = Instant::now(rt)?;
            let last = make_each(space, calls)?;
            run.add_time(rt, start)?;
            run.add_answer(last);
        }
        Ok(())
    }
}

/// Makes a segment of so many bytes.
fn shmget(space: &mut Space, bytes: u32) -> io::Result<u32> {
    let call = Call::ShmGet {
        key: 0,
        size: u64::from(bytes),
        flags: 0o600,
    };
    match answer(space, call) {
        Some(Answer::Id(id)) => Ok(id),
        _ => Err(unanswered()),
    }
}

/// Attaches a segment to read and to write.
fn shmat(space: &mut Space, id: u32) -> io::Result<u32> {
    match answer(space, Call::ShmAt { id, flags: 0 }) {
        Some(Answer::Attached(att)) => Ok(att),
        _ => Err(unanswered()),
    }
}

/// The last of some bytes, 0 where there is none.
fn last_of(bytes: &[u8]) -> u32 {
    match bytes.last() {
        Some(byte) => u32::from(*byte),
        None => 0,
    }
}

/// Client 0 makes calls that read or write: the last byte of what was read last.
fn make_each(space: &mut Space, calls: Vec<Call>) -> io::Result<u32> {
    let mut last = 0;
    for call in calls {
        match answer(space, call) {
            Some(Answer::Bytes(bytes)) => last = last_of(bytes.as_slice()),
            Some(Answer::Done) => {}
            _ => return Err(unanswered()),
        }
    }
    Ok(last)
}

/// Reads or writes a whole segment of so many bytes. A call is made before, and the journal keeps a copy of it.
pub(crate) fn reach<R: Clock + AllocGlobal>(
    rt: &R,
    access: Access,
    bytes: u32,
    calls: u32,
) -> io::Result<Run> {
    in_spaces(
        rt.alloc(),
        1,
        calls / BATCH * BATCH,
        |space, run, part| access.add_batches(rt, space, run, bytes, part / BATCH),
    )
}

/// Copies so many bytes into memory that is allocated for them.
pub(crate) fn copy<R: Clock + AllocGlobal>(rt: &R, bytes: u32, calls: u32) -> io::Result<Run> {
    let mut copied = vec![in rt.alloc(); 97u8; bytes as usize]?;
    let mut run = Run::new(calls);
    let start = Instant::now(rt)?;
    for _ in 0..calls {
        copied = Vec::from_slice(rt.alloc(), copied.as_slice())?;
    }
    run.add_time(rt, start)?;
    run.add_answer(last_of(copied.as_slice()));
    Ok(run)
}

/// Counts so many pairs of an attach and a detach, by a client that has so many attachments with that one.
fn add_pairs(
    rt: &impl Clock,
    space: &mut Space,
    run: &mut Run,
    attachments: u32,
    pairs: u32,
) -> io::Result<()> {
    let id = shmget(space, 1)?;
    for _ in 1..attachments {
        shmat(space, id)?;
    }
    let start = Instant::now(rt)?;
    for _ in 0..pairs {
        let att = shmat(space, id)?;
        done(space, Call::ShmDt { att })?;
        run.add_answer(att);
    }
    run.add_time(rt, start)
}

/// Attaches a segment and detaches it again, by a client that then has so many attachments: pairs of calls.
pub(crate) fn attach_and_detach<R: Clock + AllocGlobal>(
    rt: &R,
    attachments: u32,
    calls: u32,
) -> io::Result<Run> {
    in_spaces(
        rt.alloc(),
        1,
        calls,
        |space, run, pairs| add_pairs(rt, space, run, attachments, pairs),
    )
}
