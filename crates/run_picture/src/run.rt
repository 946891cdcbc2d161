//! What a picture shows of a run.

/// How a call was answered.
#[derive(Clone, Copy, Debug, PartialEq, Eq)]
pub enum Mark {
    /// It was granted.
    Granted,
    /// It was refused.
    Refused,
    /// It began to wait.
    Waits,
}

/// A call of a client.
#[derive(Debug, Drop)]
pub struct Call {
    /// The place of its event, from 1.
    pub place: u32,
    /// How it was answered at its event.
    pub mark: Mark,
    /// What stands at its place of the axis.
    pub label: String,
    /// What a pointer on its mark is told.
    pub title: String,
}

/// The end of a wait.
#[derive(Debug, Drop)]
pub struct End {
    /// The place of the event that ended it.
    pub place: u32,
    /// The number of the lane whose call ended it.
    pub ender: u32,
    /// Whether the deadline ended it, which the clock of that call has reached.
    pub is_by_clock: bool,
    /// How it ended.
    pub mark: Mark,
    /// What a pointer on its mark is told.
    pub title: String,
}

/// A wait of a client.
#[derive(Debug, Drop)]
pub struct Wait {
    /// The place of the event whose call began to wait.
    pub place: u32,
    /// What a pointer on its bar is told.
    pub title: String,
    /// How it ended; `None` where the call still waits at the end of the run.
    pub end: Option<End>,
}

/// A time for which a client stands for a thread of a process with the same number.
#[derive(Clone, Copy, Debug, PartialEq, Eq)]
pub struct Life {
    /// The place of the event by which it began, 0 for the start of the run.
    pub place: u32,
    /// The number of the process.
    pub pid: u32,
    /// The place of the event by which it ended; `None` where it goes on at the end of the run.
    pub end: Option<u32>,
}

/// A client with its lives, its calls and its waits, each in the order of their events.
#[derive(Debug, Drop)]
pub struct Lane {
    /// Its number from above, counted from 0.
    pub number: u32,
    /// The name of the client.
    pub name: String,
    /// Its lives.
    pub lives: Vec<Life>,
    /// Its calls.
    pub calls: Vec<Call>,
    /// Its waits.
    pub waits: Vec<Wait>,
}

/// What something has from an event on, until its next point.
#[derive(Clone, Copy, Debug, PartialEq, Eq)]
pub struct Point {
    /// The place of the event.
    pub place: u32,
    /// How much.
    pub value: u32,
}

/// What changes in an object.
#[derive(Debug, Drop)]
pub struct Series {
    /// Its number from above, counted from 0.
    pub number: u32,
    /// The object, by kind and identifier.
    pub object: String,
    /// What of it: its bytes, or a semaphore.
    pub part: String,
    /// Its points, in the order of their events.
    pub points: Vec<Point>,
    /// The place of the event that removed it; `None` where it is there at the end.
    pub removed: Option<u32>,
}

/// A run.
#[derive(Debug, Drop)]
pub struct Run {
    /// The clients, in order of their numbers.
    pub lanes: Vec<Lane>,
    /// What changes, in order of their numbers.
    pub series: Vec<Series>,
    /// How many events there are.
    pub events: u32,
}
