// Readers and writers that fail at one of their calls, for each call of a short script.

use ipcsh::{Fault, Summary, run};
use ipcsh_threads::threads;
use std::alloc::Global;
use std::io;
use std::io::{ErrorKind, Read, Write};
use std::test::Fail;

/// The last line has no line feed.
const SCRIPT: &[u8] = b"client alice 100 10\nalice msgget 5 01600\nnobody\nalice msgget 5 0600";

/// What it prints: the first row when 41 bytes have come, the second when 48 have, the third at the end.
const OUTPUT: &[u8] = b"1.0 alice id 0\nline 3: unknown-client\n2.0 alice id 0\n";

/// What its threads print: the first row alone when the script was read, the others at the end.
const OF_THREADS: &[u8] =
    b"line 3: unknown-client\nalice calls 2 refused 0\nq 0x00000005 0 100 0600 0 0\n";

/// What a run of the whole script tells, and what its threads tell.
const SUMMARY: Summary = Summary {
    lines: 4,
    bad: 1,
    events: 2,
};

/// How many of OUTPUT's bytes answer the complete lines of so many bytes of SCRIPT.
fn printed_after(read: usize) -> usize {
    match read {
        0..41 => 0,
        41..48 => 15,
        _ => 38,
    }
}

/// Gives its bytes a few at a time, and fails at one call, counted from 1.
#[derive(Drop)]
struct Pieces<'a> {
    rest: &'a [u8],
    size: usize,
    fails_at: usize,
    kind: ErrorKind,
    calls: usize,
}

impl<'a> Pieces<'a> {
    fn new(rest: &'a [u8], size: usize, fails_at: usize, kind: ErrorKind) -> Pieces<'a> {
        Pieces {
            rest,
            size,
            fails_at,
            kind,
            calls: 0,
        }
    }
}

impl Read for Pieces<'_> {
    fn read(&mut self, buf: &mut [u8]) -> io::Result<usize> {
        self.calls = self.calls.saturating_add(1);
        if self.calls == self.fails_at {
            return Err(io::Error::from(self.kind));
        }
        let count = self.size.min(buf.len()).min(self.rest.len());
        let (piece, rest) = self.rest.split_at(count);
        buf[..count].copy_from_slice(piece);
        self.rest = rest;
        Ok(count)
    }
}

/// Takes at most five bytes at a time, and at one call, counted from 1, fails or takes nothing.
#[derive(Drop)]
struct Slow {
    taken: Vec<u8>,
    stops_at: usize,
    error: Option<ErrorKind>,
    calls: usize,
}

impl Slow {
    fn new(alloc: Global, stops_at: usize, error: Option<ErrorKind>) -> Slow {
        Slow {
            taken: Vec::new(alloc),
            stops_at,
            error,
            calls: 0,
        }
    }
}

impl Write for Slow {
    fn write(&mut self, buf: &[u8]) -> io::Result<usize> {
        self.calls = self.calls.saturating_add(1);
        if self.calls == self.stops_at {
            return match self.error {
                Some(kind) => Err(io::Error::from(kind)),
                None => Ok(0),
            };
        }
        let count = buf.len().min(5);
        self.taken.extend_from_slice(&buf[..count])?;
        Ok(count)
    }

    fn flush(&mut self) -> io::Result<()> {
        Ok(())
    }
}

/// Gives line feeds for ever.
#[derive(Drop)]
struct LineFeeds {
    given: usize,
}

impl Read for LineFeeds {
    fn read(&mut self, buf: &mut [u8]) -> io::Result<usize> {
        buf.fill(b'\n');
        self.given = self.given.saturating_add(buf.len());
        Ok(buf.len())
    }
}

// Ten pieces of seven bytes, and the end, are eleven reads; no twelfth is made.
#[test]
fn each_read_fails_in_turn(rt: HostRuntime) -> Result<(), Fail> {
    for kind in [ErrorKind::BrokenPipe, ErrorKind::Interrupted] {
        for call in 1..12usize {
            let mut reader = Pieces::new(SCRIPT, 7, call, kind);
            let mut written: Vec<u8> = Vec::new(rt.alloc());
            let ended = run(rt.alloc(), &mut reader, &mut written);
            let read = SCRIPT.len().min(call.saturating_sub(1).saturating_mul(7));
            let printed = printed_after(read).min(OUTPUT.len());
            assert!(rt; ended == Err(Fault::Read), "read {call}");
            assert!(rt; written.as_slice() == &OUTPUT[..printed], "read {call}");
        }
        let mut reader = Pieces::new(SCRIPT, 7, 12, kind);
        let mut written: Vec<u8> = Vec::new(rt.alloc());
        assert!(rt; run(rt.alloc(), &mut reader, &mut written) == Ok(SUMMARY));
        assert!(rt; written.as_slice() == OUTPUT);
        assert_eq!(rt; reader.calls, 11);
    }
    Ok(())
}

// The rows of the three complete lines are 38 bytes, eight writes; those of the last line are three more.
#[test]
fn each_write_fails_in_turn(rt: HostRuntime) -> Result<(), Fail> {
    let taken = [0usize, 5, 10, 15, 20, 25, 30, 35, 38, 43, 48];
    for error in [
        Some(ErrorKind::BrokenPipe),
        Some(ErrorKind::Interrupted),
        None,
    ] {
        let mut call = 1;
        for count in taken {
            let mut reader = SCRIPT;
            let mut writer = Slow::new(rt.alloc(), call, error);
            let ended = run(rt.alloc(), &mut reader, &mut writer);
            assert!(rt; ended == Err(Fault::Write), "write {call}");
            assert!(rt;
                writer.taken.as_slice() == &OUTPUT[..count.min(OUTPUT.len())],
                "write {call}"
            );
            call = writer.calls.saturating_add(1);
        }
        let mut reader = SCRIPT;
        let mut writer = Slow::new(rt.alloc(), 12, error);
        assert!(rt; run(rt.alloc(), &mut reader, &mut writer) == Ok(SUMMARY));
        assert!(rt; writer.taken.as_slice() == OUTPUT);
        assert_eq!(rt; writer.calls, 11);
    }
    Ok(())
}

// Byte 16777217 is read, and none behind it.
#[test]
fn input_without_an_end_is_too_long(rt: HostRuntime) {
    let mut reader = LineFeeds { given: 0 };
    let mut written: Vec<u8> = Vec::new(rt.alloc());
    assert!(rt; run(rt.alloc(), &mut reader, &mut written) == Err(Fault::TooMuch));
    assert!(rt; written.is_empty());
    assert_eq!(rt; reader.given, 16_777_217);
}

// After a failed read nothing is written, and no read is made behind the end.
#[test]
fn each_read_before_threads_fails_in_turn(rt: HostRuntime) -> Result<(), Fail> {
    for kind in [ErrorKind::BrokenPipe, ErrorKind::Interrupted] {
        for call in 1..12usize {
            let mut reader = Pieces::new(SCRIPT, 7, call, kind);
            let mut written: Vec<u8> = Vec::new(rt.alloc());
            let ended = threads(&rt, rt.alloc(), &mut reader, &mut written);
            assert!(rt; ended == Err(Fault::Read), "read {call}");
            assert!(rt; written.is_empty(), "read {call}");
        }
        let mut reader = Pieces::new(SCRIPT, 7, 12, kind);
        let mut written: Vec<u8> = Vec::new(rt.alloc());
        let ended = threads(&rt, rt.alloc(), &mut reader, &mut written);
        assert!(rt; ended == Ok(SUMMARY));
        assert!(rt; written.as_slice() == OF_THREADS);
        assert_eq!(rt; reader.calls, 11);
    }
    Ok(())
}

// The row of the bad line is 23 bytes, five writes; the rows at the end are eleven more.
#[test]
fn each_write_of_threads_fails_in_turn(rt: HostRuntime) -> Result<(), Fail> {
    let taken = [
        0usize, 5, 10, 15, 20, 23, 28, 33, 38, 43, 48, 53, 58, 63, 68, 73,
    ];
    for error in [
        Some(ErrorKind::BrokenPipe),
        Some(ErrorKind::Interrupted),
        None,
    ] {
        let mut call = 1;
        for count in taken {
            let mut reader = SCRIPT;
            let mut writer = Slow::new(rt.alloc(), call, error);
            let ended = threads(&rt, rt.alloc(), &mut reader, &mut writer);
            assert!(rt; ended == Err(Fault::Write), "write {call}");
            assert!(rt;
                writer.taken.as_slice() == &OF_THREADS[..count.min(OF_THREADS.len())],
                "write {call}"
            );
            call = writer.calls.saturating_add(1);
        }
        let mut reader = SCRIPT;
        let mut writer = Slow::new(rt.alloc(), 17, error);
        assert!(rt; threads(&rt, rt.alloc(), &mut reader, &mut writer) == Ok(SUMMARY));
        assert!(rt; writer.taken.as_slice() == OF_THREADS);
        assert_eq!(rt; writer.calls, 16);
    }
    Ok(())
}

// No thread is started, and byte 16777218 is not asked for.
#[test]
fn input_without_an_end_is_too_long_for_threads(rt: HostRuntime) {
    let mut reader = LineFeeds { given: 0 };
    let mut written: Vec<u8> = Vec::new(rt.alloc());
    let ended = threads(&rt, rt.alloc(), &mut reader, &mut written);
    assert!(rt; ended == Err(Fault::TooMuch));
    assert!(rt; written.is_empty());
    assert_eq!(rt; reader.given, 16_777_217);
}
