// What the files below /proc tell of the machine. What can't be read is told on standard error.

use ipc_call::Kind;
use ipc_live::{BadLine, Object, Process, file_of, process_of, read_objects};
use ipc_words::numeral;
use std::alloc::{AllocError, Global};
use std::fs::DirEntry;
use std::io::{Error, ErrorKind};
use std::rt::Files;
use std::{fs, io};

/// The kinds in the order in which their objects are read.
static KINDS: [Kind; 3] = [Kind::Queue, Kind::Sems, Kind::Segment];

/// The objects of all kinds. Where a line or a file can't be read, `whole` becomes false.
pub(crate) fn objects<R: Files + Eprint + AllocGlobal>(
    rt: &R,
    proc: &str,
    whole: &mut bool,
) -> Result<Vec<Object>, AllocError> {
    let mut objects = Vec::new(rt.alloc());
    for kind in &KINDS {
        if !add_objects(rt, proc, *kind, &mut objects)? {
            *whole = false;
        }
    }
    Ok(objects)
}

/// Appends the objects of a kind, and answers whether all could be read.
fn add_objects<R: Files + Eprint + AllocGlobal>(
    rt: &R,
    proc: &str,
    kind: Kind,
    objects: &mut Vec<Object>,
) -> Result<bool, AllocError> {
    let name = file_of(kind);
    let path = format!(in rt.alloc(); "{proc}/sysvipc/{name}")?;
    match fs::read(rt, path.as_str()) {
        Ok(text) => add_lines(rt, path.as_str(), kind, text.as_slice(), objects),
        Err(error) => {
            let _ = eprintln!(rt; "ipcwho: {path}: {error}");
            Ok(false)
        }
    }
}

fn add_lines<R: Eprint + AllocGlobal>(
    rt: &R,
    path: &str,
    kind: Kind,
    text: &[u8],
    objects: &mut Vec<Object>,
) -> Result<bool, AllocError> {
    let mut bad = Vec::new(rt.alloc());
    read_objects(kind, text, objects, &mut bad)?;
    for line in &bad {
        tell_bad(rt, path, line);
    }
    Ok(bad.is_empty())
}

fn tell_bad<R: Eprint>(rt: &R, path: &str, line: &BadLine) {
    let _ = eprintln!(rt; "ipcwho: {path} {line}");
}

/// What the status of a process gave.
#[derive(Drop)]
pub(crate) enum Status {
    /// The process.
    Read(Process),
    /// It isn't there, or no more.
    Gone,
    /// It can't be read.
    Unread,
}

/// The processes of these numbers that can be read, in their order. Where one can't be, or isn't there though it was asked
/// for, `whole` becomes false.
pub(crate) fn processes<R: Files + Eprint + AllocGlobal>(
    rt: &R,
    proc: &str,
    pids: &[u32],
    are_asked_for: bool,
    whole: &mut bool,
) -> Result<Vec<Process>, AllocError> {
    let mut processes = Vec::new(rt.alloc());
    for pid in pids {
        match status_of(rt, proc, *pid)? {
            Status::Read(process) => processes.push(process)?,
            Status::Gone if !are_asked_for => {}
            Status::Gone | Status::Unread => *whole = false,
        }
    }
    Ok(processes)
}

/// The process of this number. One that isn't there, or can't be read, is told.
pub(crate) fn status_of<R: Files + Eprint + AllocGlobal>(
    rt: &R,
    proc: &str,
    pid: u32,
) -> Result<Status, AllocError> {
    let path = format!(in rt.alloc(); "{proc}/{pid}/status")?;
    match fs::read(rt, path.as_str()) {
        Ok(text) => Ok(read_process(rt, path.as_str(), pid, text.as_slice())),
        Err(error) if is_gone(&error) => {
            let _ = eprintln!(rt; "ipcwho: there is no process {pid}");
            Ok(Status::Gone)
        }
        Err(error) => {
            let _ = eprintln!(rt; "ipcwho: {path}: {error}");
            Ok(Status::Unread)
        }
    }
}

/// Whether the process has gone, before its status was opened or (ESRCH) before it was read.
fn is_gone(error: &Error) -> bool {
    error.kind() == ErrorKind::NotFound || error.raw_os_error() == Some(3)
}

fn read_process<R: Eprint + AllocGlobal>(rt: &R, path: &str, pid: u32, text: &[u8]) -> Status {
    match process_of(rt.alloc(), pid, text) {
        Ok(process) => Status::Read(process),
        Err(line) => {
            tell_bad(rt, path, &line);
            Status::Unread
        }
    }
}

/// The numbers of all processes, in increasing order. Where the folder can't be read, `whole` becomes false.
pub(crate) fn pids<R: Files + Eprint + AllocGlobal + Clone + Drop>(
    rt: &R,
    proc: &str,
    whole: &mut bool,
) -> Result<Vec<u32>, AllocError> {
    let mut pids = Vec::new(rt.alloc());
    match fs::read_dir(rt, proc) {
        Ok(entries) => {
            for entry in entries {
                add_pid(&mut pids, entry, whole)?;
            }
        }
        Err(error) => {
            let _ = eprintln!(rt; "ipcwho: {proc}: {error}");
            *whole = false;
        }
    }
    pids.as_mut_slice().sort_unstable();
    Ok(pids)
}

/// Appends the number that the name of an entry is, where it is one.
fn add_pid<R: Files + Drop>(
    pids: &mut Vec<u32>,
    entry: io::Result<DirEntry<R, Global>>,
    whole: &mut bool,
) -> Result<(), AllocError> {
    match entry {
        Ok(entry) => {
            let name = entry.file_name().as_bytes();
            if let Some(pid) = numeral(10, name, u64::from(u32::MAX)) {
                pids.push(pid as u32)?;
            }
        }
        Err(_) => *whole = false,
    }
    Ok(())
}
