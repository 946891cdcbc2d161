//! What a run was, collected while it goes on.

use crate::changes::Changes;
use crate::lines::{behind_first, name_in};
use ipc_call::{Memory, Reply, Rule};
use ipc_space::{Effects, Space};
use ipc_text::{Command, Line, Reason, print_reply, print_waits};
use ipcsh::{Fault, Listener, run_text};
use run_picture::{Call, End, Lane, Life, Mark, Run, Wait, enter_call};
use std::alloc::Global;

/// What is collected may fail where an allocation does.
type Collected = Result<(), Memory>;

/// The most bytes of a line that stand at the place of its call.
const LABEL: usize = 20;

/// Runs a script, and gives what a picture shows of the run. The faults are those of `run_text`.
pub fn watch(alloc: Global, script: &[u8]) -> Result<Run, Fault> {
    let mut watcher = Watcher::new(alloc);
    run_watched(alloc, script, &mut watcher)?;
    Ok(watcher.into_run()?)
}

fn run_watched(alloc: Global, script: &[u8], watcher: &mut Watcher) -> Result<(), Fault> {
    match run_text(alloc, script, watcher) {
        Ok(ended) => {
            drop(ended);
            Ok(())
        }
        Err(fault) => Err(fault),
    }
}

/// Collects a run.
#[derive(Debug, Drop)]
struct Watcher {
    alloc: Global,
    /// The latest line with calls.
    line: String,
    lanes: Vec<Lane>,
    changes: Changes,
    events: u32,
    /// Whether memory was refused, so that something is missing.
    has_failed: bool,
}

impl Watcher {
    fn new(alloc: Global) -> Watcher {
        Watcher {
            alloc,
            line: String::new(alloc),
            lanes: Vec::new(alloc),
            changes: Changes::new(alloc),
            events: 0,
            has_failed: false,
        }
    }

    /// The run, unless memory was refused.
    fn into_run(self) -> Result<Run, Memory> {
        let Watcher {
            lanes,
            changes,
            events,
            has_failed,
            ..
        } = self;
        if has_failed {
            return Err(Memory {});
        }
        let series = changes.into_series()?;
        Ok(Run {
            lanes,
            series,
            events,
        })
    }

    fn add_lane(&mut self, text: &[u8]) -> Collected {
        let name = String::from_str(self.alloc, name_in(text))?;
        let number = u32::try_from(self.lanes.len()).unwrap_or(u32::MAX);
        let mut lane = Lane::new(self.alloc, number, name);
        lane.begin_life(Life {
            place: 0,
            pid: number.saturating_add(1),
            end: None,
        })?;
        self.lanes.push(lane)?;
        Ok(())
    }

    fn keep_line(&mut self, text: &[u8]) -> Collected {
        self.line.clear();
        self.line.push_str(str::from_utf8(text).unwrap_or(""))
    }

    fn name(&self, client: u32) -> &str {
        match self.lanes.get(client as usize) {
            Some(lane) => lane.name.as_str(),
            None => "",
        }
    }

    /// Enters an event.
    fn enter(&mut self, space: &Space, client: u32, effects: &Effects) -> Collected {
        let place = u32::try_from(effects.place).unwrap_or(u32::MAX);
        self.enter_own(client, place, effects)?;
        for (other, reply) in effects.others.iter() {
            self.end_wait(place, client, *other, reply)?;
        }
        self.events = place;
        for lane in &mut self.lanes {
            let pid = space.pid_of(lane.number);
            follow(lane, place, pid)?;
        }
        self.changes.look(space, place)
    }

    /// Enters the event's own call, and where it waits its wait.
    fn enter_own(&mut self, client: u32, place: u32, effects: &Effects) -> Collected {
        let mut row = String::new(self.alloc);
        let mark = match &effects.own {
            Some(reply) => {
                print_reply(&mut row, self.name(client), reply)?;
                mark_of(reply)
            }
            None => {
                print_waits(&mut row, effects.place, self.name(client))?;
                self.begin_wait(client, place, row.as_str())?;
                Mark::Waits
            }
        };
        let call = Call {
            place,
            mark,
            label: self.label()?,
            title: self.title(row.as_str())?,
        };
        enter_call(&mut self.lanes, client, call)
    }

    fn begin_wait(&mut self, client: u32, place: u32, row: &str) -> Collected {
        let wait = Wait {
            place,
            title: self.title(row)?,
            end: None,
        };
        match self.lanes.get_mut(client as usize) {
            Some(lane) => lane.begin_wait(wait),
            None => Ok(()),
        }
    }

    /// The latest line, and below it a row without its line feed.
    fn title(&self, row: &str) -> Result<String, Memory> {
        let (line, row) = (self.line.as_str(), row.trim_end());
        format!(in self.alloc; "{line}\n{row}")
    }

    /// The line behind its client, cut where it is long.
    fn label(&self) -> Result<String, Memory> {
        let words = str::from_utf8(behind_first(self.line.as_bytes()))
            .unwrap_or("")
            .trim();
        match words.get(..LABEL) {
            Some(front) if words.len() > LABEL => format!(in self.alloc; "{front}.."),
            _ => String::from_str(self.alloc, words),
        }
    }

    /// Enters the end of a wait, by the call of another client.
    fn end_wait(&mut self, place: u32, ender: u32, client: u32, reply: &Reply) -> Collected {
        let mut row = String::new(self.alloc);
        print_reply(&mut row, self.name(client), reply)?;
        let title = String::from_str(self.alloc, row.as_str().trim_end())?;
        let end = End {
            place,
            ender,
            is_by_clock: is_by_clock(reply),
            mark: mark_of(reply),
            title,
        };
        if let Some(lane) = self.lanes.get_mut(client as usize) {
            lane.end_wait(end);
        }
        Ok(())
    }
}

/// Enters in a lane what the event at this place did to the process of its client, which now has this number; `None` where its
/// thread has ended.
fn follow(lane: &mut Lane, place: u32, pid: Option<u32>) -> Collected {
    let before = living(lane);
    if before == pid {
        return Ok(());
    }
    if before.is_some() {
        lane.end_life(place);
    }
    match pid {
        Some(pid) => lane.begin_life(Life {
            place,
            pid,
            end: None,
        }),
        None => Ok(()),
    }
}

/// The number of the process of a lane's client before an event.
fn living(lane: &Lane) -> Option<u32> {
    let life = lane.lives.last()?;
    match life.end {
        None => Some(life.pid),
        Some(_) => None,
    }
}

fn mark_of(reply: &Reply) -> Mark {
    match reply {
        Reply::Entered { outcome: Ok(_), .. } => Mark::Granted,
        _ => Mark::Refused,
    }
}

fn is_by_clock(reply: &Reply) -> bool {
    matches!(
        reply,
        Reply::Entered {
            outcome: Err(Rule::TimedOut),
            ..
        }
    )
}

impl Listener for Watcher {
    fn client(&mut self, _number: u64, text: &[u8]) {
        if self.add_lane(text).is_err() {
            self.has_failed = true;
        }
    }

    fn calls(&mut self, _number: u64, _client: u32, text: &[u8], _command: &Command) {
        if self.keep_line(text).is_err() {
            self.has_failed = true;
        }
    }

    fn bad(&mut self, _number: u64, _line: &Line<'_>, _reason: Reason) {}

    fn entering(&mut self, _space: &Space, _client: u32, _call: &ipc_call::Call) {}

    fn answered(&mut self, space: &mut Space, client: u32, effects: &Effects) {
        if self.enter(space, client, effects).is_err() {
            self.has_failed = true;
        }
    }

    fn ended(&mut self, _space: &mut Space) {}

    fn written(&mut self) {}
}
