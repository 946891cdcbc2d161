//! What a call leaves that ends threads, and its words.

ghost use Rattle.std.specs.Prelude.{◌≡◌, ◌++◌, filter, filter_map, option_map, IfOk, OnOk};
ghost use Rattle.std.specs.List.{find, range_with_len};
ghost use Rattle.ipc_history.specs.History.{run};
ghost use Rattle.ipc_model.specs.Listings.{lines_of};
ghost use Rattle.ipc_model.specs.State.{has_pid, process_at, runs, thread_at};
ghost use Rattle.sem_set.specs.Exits.{brought as brought_in};
ghost use Rattle.thread_ends.specs.Leaving.{
  attached_in,
  by_end,
  by_exec,
  by_exit,
  by_kill,
  detached_in,
  detached_part,
  detached_row,
  first_of,
  left_in,
  living_in,
  others_in,
  seen,
  segment_in,
  threads_in,
  times,
  semadj_in,
  undone_by,
  undone_from,
  undone_in,
  undone_one,
  undone_row,
};

use ipc_call::{Call, Memory, Row};
use ipc_space::Space;
use std::alloc::Global;
use std::fmt::Write;

/// The numbers of attachments are below this one (SHMSEG).
const NUMBERS: u32 = 4096;

/// SEMVMX, the greatest value of a semaphore.
const VALUE_MAX: i64 = 32767;

/// How a call ends threads of a process.
#[derive(Clone, Copy, Debug, PartialEq, Eq)]
pub enum Ending {
    /// The caller's thread exits, and others of its process go on.
    Thread,
    /// The caller's thread exits, and is the last of its process.
    Last,
    /// A process is killed.
    Killed,
    /// The caller's thread executes a program, and the others of its process end.
    Executed,
}

/// A semaphore to which the end of a process adds its semadj.
#[derive(Clone, Copy, Debug, PartialEq, Eq)]
pub struct Undone {
    /// Its set.
    pub set: u32,
    /// Its number in the set.
    pub num: usize,
    /// The semadj, which isn't 0.
    pub adj: i32,
    /// The value before.
    pub before: u16,
    /// The value after: the sum, brought into 0 to SEMVMX.
    pub after: u16,
}

/// A segment that a process has attached, and that is detached.
#[derive(Clone, Copy, Debug, PartialEq, Eq)]
pub struct Detached {
    /// The segment.
    pub segment: u32,
    /// How many attachments of the process are to it, at least 1.
    pub count: u64,
    /// Whether it goes with them: it is marked for removal, and they are its last.
    pub goes: bool,
}

/// What a call leaves that ends threads.
#[derive(Debug, Drop)]
pub struct Left {
    /// How it ends them.
    pub ending: Ending,
    /// The pid of the process.
    pub pid: u32,
    /// The threads that go on after an exit; those that a kill or an exec ends.
    pub threads: Vec<u32>,
    /// The semaphores to which a semadj is added.
    pub undone: Vec<Undone>,
    /// The segments that are detached.
    pub detached: Vec<Detached>,
}

/// What the call of a client leaves, where it is granted, by the namespace before its event. `None` of a call that ends no
/// thread, and of a client whose thread has ended.
pub fn left_by(
    alloc: Global,
    space: &Space,
    client: u32,
    call: &Call,
) -> Result<Option<Left>, Memory>
    ensures { IfOk result (λ left. option_map seen left ≡ left_in (run space.now) client call.now) }
{
    match call {
        Call::Exit => left_by_exit(alloc, space, client),
        Call::Exec => left_by_exec(alloc, space, client),
        Call::Kill { pid } => match first_with(space, *pid) {
            Some(first) => left_by_kill(alloc, space, first),
            None => Ok(None),
        },
        _ => Ok(None),
    }
}

fn left_by_exit(alloc: Global, space: &Space, client: u32) -> Result<Option<Left>, Memory>
    ensures { IfOk result (λ left. option_map seen left ≡ by_exit (run space.now) client (others_in (run space.now) client)) }
{
    let threads = others_of(alloc, space, client)?;
    if threads.is_empty() {
        return with_process(alloc, space, client, Ending::Last, threads);
    }
    let (undone, detached) = (Vec::new(alloc), Vec::new(alloc));
    Ok(living(space, client, Ending::Thread, threads, undone, detached))
}

fn left_by_exec(alloc: Global, space: &Space, client: u32) -> Result<Option<Left>, Memory>
    ensures { IfOk result (λ left. option_map seen left ≡ by_exec (run space.now) client) }
{
    let threads = others_of(alloc, space, client)?;
    let detached = detached_of(alloc, space, client)?;
    Ok(living(
        space,
        client,
        Ending::Executed,
        threads,
        Vec::new(alloc),
        detached,
    ))
}

fn left_by_kill(alloc: Global, space: &Space, client: u32) -> Result<Option<Left>, Memory>
    ensures { IfOk result (λ left. option_map seen left ≡ by_kill (run space.now) client) }
{
    let threads = threads_of(alloc, space, space.process_of(client))?;
    with_process(alloc, space, client, Ending::Killed, threads)
}

/// The end of a client's process, with these threads.
fn with_process(
    alloc: Global,
    space: &Space,
    client: u32,
    ending: Ending,
    threads: Vec<u32>,
) -> Result<Option<Left>, Memory>
    ensures { IfOk result (λ left. option_map seen left ≡ by_end (run space.now) client ending threads.items) }
{
    let undone = undone_of(alloc, space, client)?;
    let detached = detached_of(alloc, space, client)?;
    Ok(living(space, client, ending, threads, undone, detached))
}

/// What is left of the process of a client, where its thread hasn't ended.
fn living(
    space: &Space,
    client: u32,
    ending: Ending,
    threads: Vec<u32>,
    undone: Vec<Undone>,
    detached: Vec<Detached>,
) -> Option<Left>
    ensures { option_map seen result ≡ living_in (run space.now) client ending threads.items undone.items detached.items }
{
    let pid = space.pid_of(client)?;
    Some(Left {
        ending,
        pid,
        threads,
        undone,
        detached,
    })
}

/// Whether a client is a thread of a process, and hasn't ended.
fn is_thread_of(space: &Space, client: u32, process: u64) -> bool
    ensures { result ≡ runs process (thread_at (run space.now) client) }
{
    space.process_of(client) == process && !space.has_exited(client)
}

/// Whether it is one of the process of a pid, and hasn't ended.
fn is_thread_with(space: &Space, client: u32, pid: u32) -> bool
    ensures { result ≡ has_pid pid (thread_at (run space.now) client) }
{
    space.pid_of(client) == Some(pid)
}

/// The clients that are threads of a process, and haven't ended.
fn threads_of(alloc: Global, space: &Space, process: u64) -> Result<Vec<u32>, Memory>
    ensures { IfOk result (λ threads. threads.items ≡ threads_in (run space.now) process) }
{
    threads_among(alloc, space, space.clients(), process)
}

/// Those among so many clients.
fn threads_among(alloc: Global, space: &Space, count: u32, process: u64) -> Result<Vec<u32>, Memory>
    ensures { IfOk result (λ threads. threads.items ≡ filter (λ client. runs process (thread_at (run space.now) client)) (range_with_len 0 count)) }
{
    Ok(
        (0..count)
            .filter(|client| is_thread_of(space, *client, process))
            .collect(alloc)?,
    )
}

/// Those of a client's process beside it.
fn others_of(alloc: Global, space: &Space, client: u32) -> Result<Vec<u32>, Memory>
    ensures { IfOk result (λ others. others.items ≡ others_in (run space.now) client) }
{
    let threads = threads_of(alloc, space, space.process_of(client))?;
    Ok(
        threads
            .iter()
            .copied()
            .filter(|other| *other != client)
            .collect(alloc)?,
    )
}

/// The first client that is a thread of the process of a pid, and hasn't ended.
fn first_with(space: &Space, pid: u32) -> Option<u32>
    ensures { result ≡ first_of (run space.now) pid }
{
    first_among(space, space.clients(), pid)
}

/// The first among so many.
fn first_among(space: &Space, count: u32, pid: u32) -> Option<u32>
    ensures { result ≡ find (λ client. has_pid pid (thread_at (run space.now) client)) (range_with_len 0 count) }
{
    (0..count).find(|client| is_thread_with(space, *client, pid))
}

/// The semaphores at which a client's process has a semadj.
fn undone_of(alloc: Global, space: &Space, client: u32) -> Result<Vec<Undone>, Memory>
    ensures { IfOk result (λ undone. undone.items ≡ undone_in (run space.now) (process_at (run space.now) client)) }
{
    let lines = space.lines()?;
    let mut undone = Vec::new(alloc);
    for line in lines.as_slice() {
        add_line(&mut undone, space, client, &line.0, line.1.as_slice())?;
    }
    Ok(undone)
}

/// Appends those of an object, where it is a set, with these values.
fn add_line(
    undone: &mut Vec<Undone>,
    space: &Space,
    client: u32,
    row: &Row,
    values: &[u16],
) -> Result<(), Memory>
    ensures { OnOk result (undone.new.items ≡ undone.old.items ++ undone_row (run space.now) (process_at (run space.now) client) row.now values.now) }
{
    match row {
        Row::Set { object, .. } => add_set(undone, space, client, object.id, values),
        _ => Ok(()),
    }
}

/// Appends those of a set with these values.
fn add_set(
    undone: &mut Vec<Undone>,
    space: &Space,
    client: u32,
    set: u32,
    values: &[u16],
) -> Result<(), Memory>
    ensures { OnOk result (undone.new.items ≡ undone.old.items ++ undone_from (semadj_in (run space.now) (process_at (run space.now) client) set) set 0 values.now) }
{
    for num in 0..values.len() {
        add_at(undone, space, client, set, num, values[num])?;
    }
    Ok(())
}

/// Appends a semaphore of this value, where a client's process has a semadj at it.
fn add_at(
    undone: &mut Vec<Undone>,
    space: &Space,
    client: u32,
    set: u32,
    num: usize,
    value: u16,
) -> Result<(), Memory>
    ensures { OnOk result (undone.new.items ≡ undone.old.items ++ undone_one set num (semadj_in (run space.now) (process_at (run space.now) client) set num) value) }
{
    add_one(undone, set, num, semadj_at(space, client, set, num), value)
}

/// Appends a semaphore, where there is a semadj.
fn add_one(
    undone: &mut Vec<Undone>,
    set: u32,
    num: usize,
    adj: i32,
    value: u16,
) -> Result<(), Memory>
    ensures { OnOk result (undone.new.items ≡ undone.old.items ++ undone_one set num adj value) }
{
    if adj == 0 {
        return Ok(());
    }
    undone.push(undo(set, num, adj, value))?;
    Ok(())
}

/// The semadj of a client's process at a semaphore. An operation names one by a number of 16 bits, so none above has any.
fn semadj_at(space: &Space, client: u32, set: u32, num: usize) -> i32
    ensures { result ≡ semadj_in (run space.now) (process_at (run space.now) client) set num }
{
    match u16::try_from(num) {
        Ok(num) => space.semadj_of(client, set, num),
        Err(_) => 0,
    }
}

/// What the end of a process does to a value.
fn undo(set: u32, num: usize, adj: i32, before: u16) -> Undone
    ensures { result ≡ undone_by set num adj before }
{
    Undone {
        set,
        num,
        adj,
        before,
        after: brought(i64::from(before) + i64::from(adj)),
    }
}

/// The value of a semaphore that is nearest.
fn brought(value: i64) -> u16
    ensures { result ≡ brought_in value }
{
    value.clamp(0, VALUE_MAX) as u16
}

/// The segments of the attachments of a client's process, by their numbers.
fn attached_of(alloc: Global, space: &Space, client: u32) -> Result<Vec<u32>, Memory>
    ensures { IfOk result (λ segments. segments.items ≡ attached_in (run space.now) (process_at (run space.now) client)) }
{
    Ok(
        (0..NUMBERS)
            .filter_map(|number| segment_of(space, client, number))
            .collect(alloc)?,
    )
}

/// The segment that a client's process has attached under a number.
fn segment_of(space: &Space, client: u32, number: u32) -> Option<u32>
    ensures { result ≡ segment_in (run space.now) (process_at (run space.now) client) number }
{
    Some(space.attachment_of(client, number)?.segment)
}

/// The segments that a client's process has attached.
fn detached_of(alloc: Global, space: &Space, client: u32) -> Result<Vec<Detached>, Memory>
    ensures { IfOk result (λ detached. detached.items ≡ detached_in (run space.now) (process_at (run space.now) client)) }
{
    let segments = attached_of(alloc, space, client)?;
    detached_with(alloc, space, segments.as_slice())
}

/// The objects that are among these segments.
fn detached_with(alloc: Global, space: &Space, segments: &[u32]) -> Result<Vec<Detached>, Memory>
    ensures { IfOk result (λ detached. detached.items ≡ filter_map (λ line. detached_row segments.now line.0) (lines_of (run space.now))) }
{
    let lines = space.lines()?;
    detached_among(alloc, segments, lines.as_slice())
}

/// Those of these objects.
fn detached_among(
    alloc: Global,
    segments: &[u32],
    lines: &[(Row, Vec<u16>)],
) -> Result<Vec<Detached>, Memory>
    ensures { IfOk result (λ detached. detached.items ≡ filter_map (λ line. detached_row segments.now line.0) lines.now) }
{
    Ok(
        lines
            .iter()
            .filter_map(|line| detached_on(segments, &line.0))
            .collect(alloc)?,
    )
}

/// An object, where it is among these segments.
fn detached_on(segments: &[u32], row: &Row) -> Option<Detached>
    ensures { result ≡ detached_row segments.now row.now }
{
    match row {
        Row::Segment {
            object,
            is_marked,
            nattch,
            ..
        } => detached_by(
            object.id,
            count_of(segments, object.id),
            *is_marked,
            *nattch,
        ),
        _ => None,
    }
}

/// A segment of whose attachments so many go; it has so many, and goes with the last where it is marked.
fn detached_by(segment: u32, count: u64, is_marked: bool, nattch: u64) -> Option<Detached>
    ensures { result ≡ detached_part segment count is_marked nattch }
{
    if count == 0 {
        return None;
    }
    Some(Detached {
        segment,
        count,
        goes: is_marked && nattch == count,
    })
}

/// How often a segment is one of these.
fn count_of(segments: &[u32], id: u32) -> u64
    ensures { result ≡ times id segments.now }
{
    segments.iter().filter(|segment| **segment == id).count() as u64
}

/// Appends a line with what is undone, and one with what is detached, where there is any.
pub fn print_left(out: &mut String, left: &Left) -> Result<(), Memory> {
    print_undone(out, left.undone.as_slice())?;
    print_detached(out, left.detached.as_slice())
}

fn print_undone(out: &mut String, undone: &[Undone]) -> Result<(), Memory> {
    let mut between = "undone: ";
    for entry in undone {
        let Undone {
            set,
            num,
            adj,
            before,
            after,
        } = *entry;
        let sign = if adj > 0 { "+" } else { "" };
        write!(
            out,
            "{between}semaphore {num} of set {set} {sign}{adj} ({before} to {after})"
        )?;
        between = ", ";
    }
    end_line(out, undone.is_empty())
}

fn print_detached(out: &mut String, detached: &[Detached]) -> Result<(), Memory> {
    let mut between = "detached: ";
    for entry in detached {
        let Detached {
            segment,
            count,
            goes,
        } = *entry;
        write!(out, "{between}segment {segment}")?;
        if count > 1 {
            write!(out, " ({count} attachments)")?;
        }
        if goes {
            out.push_str(", which went with its last attachment")?;
        }
        between = "; ";
    }
    end_line(out, detached.is_empty())
}

/// Ends a line, unless there is none.
fn end_line(out: &mut String, is_none: bool) -> Result<(), Memory> {
    if is_none {
        return Ok(());
    }
    out.push_str("\n")
}
