// Plans: scripts that were read to their end before any of their calls is made.

ghost use Rattle.std.specs.Prelude.{◌≡◌, ◌<◌, ◌≤◌, ◌+◌, ◌^◌, IfErr, IfOk, OnOk, length};
ghost use Rattle.ipc_words.specs.LineText.{content_of};
ghost use Rattle.ipc_words.specs.Lines.{lines_of};
ghost use Rattle.ipcsh.specs.Scripts.{IsScript, IsReady, ReadsScript, StopsReading, after_script_line, begun, nothing_planned, planned, with_client, with_job};
ghost use Rattle.ipcsh.specs.Readings.{CanJoin};
ghost use Rattle.ipcsh.specs.Runs.{longest_input};

use crate::listeners::Listener;
use crate::pieces::read_text;
use crate::readings::Reading;
use crate::runs::Fault;
use crate::session::Session;
use ipc_call::{Items, Limits, Memory};
use ipc_commands::Job;
use ipc_creds::Creds;
use ipc_text::{Command, Line, Name, Part, Parts};
use ipc_words::{last_line, split_line, whole_line};
use std::alloc::Global;
use std::io::Read;
use std::marker::Model;

/// What a script says, of which no call was made. A client's line is a job of its calls, at the time passed in; its
/// calls aren't answered, so no line is `busy`.
#[derive(Debug, Drop)]
pub struct Script {
    /// The clients' names, at most 64.
    pub names: Vec<Name>,
    /// Their credentials.
    pub clients: Vec<Creds>,
    /// The limits of the namespace, in their ranges.
    pub limits: Limits,
    /// Each client's jobs, in the order of its lines.
    pub jobs: Vec<Vec<Job>>,
    /// Whether there is a job.
    pub has_jobs: bool,
    /// The rows of the bad lines.
    pub rows: String,
    /// The lines that were read, skipped ones too.
    pub lines: u64,
    /// The bad ones among them.
    pub bad: u64,
}

/// Reads a script to its end, and makes none of its calls. The faults are `Read`, `TooMuch`, and `Memory` for an
/// allocation that was refused.
pub fn read_script<R: Read>(alloc: Global, reader: &mut R) -> Result<Script, Fault>
    ensures ok { IfOk result (ReadsScript (R.remaining reader.old) (R.remaining reader.new)) }
    ensures fault { IfErr result (StopsReading (R.remaining reader.old) (R.remaining reader.new)) }
{
    read_script_with(alloc, reader, &mut ())
}

/// As `read_script`, and a listener hears of the lines. No row is written here, so it doesn't hear of that.
pub fn read_script_with<R: Read, L: Listener>(
    alloc: Global,
    reader: &mut R,
    listener: &mut L,
) -> Result<Script, Fault>
    ensures ok { IfOk result (ReadsScript (R.remaining reader.old) (R.remaining reader.new)) }
    ensures fault { IfErr result (StopsReading (R.remaining reader.old) (R.remaining reader.new)) }
{
    let text = read_text(alloc, reader)?;
    Ok(script_of(alloc, text.as_slice(), listener)?)
}

fn script_of<L: Listener>(alloc: Global, text: &[u8], listener: &mut L) -> Result<Script, Memory>
    requires { length text.now ≤ longest_input }
    ensures { IfOk result (IsScript (planned (lines_of text.now))) }
{
    let mut planning = Planning::new(alloc);
    match take_lines(alloc, text, &mut planning, listener) {
        Ok(()) => Ok(planning.into_script()),
        Err(memory) => {
            drop(planning);
            Err(memory)
        }
    }
}

/// Takes the lines of a text, the first ones of a script.
fn take_lines<L: Listener>(
    alloc: Global,
    text: &[u8],
    planning: &mut Planning,
    listener: &mut L,
) -> Result<(), Memory>
    requires few { length text.now ≤ longest_input }
    requires first { planning.old ≡ nothing_planned }
    requires ready { IsReady planning.old }
    ensures planned { OnOk result (planning.new ≡ planned (lines_of text.now)) }
    ensures ready { OnOk result (IsReady planning.new) }
{
    let mut rest = text;
    while let Some((line, others)) = split_line(rest) {
        planning.take_line(alloc, &whole_line(line), listener)?;
        rest = others;
    }
    if !rest.is_empty() {
        planning.take_line(alloc, &last_line(rest), listener)?;
    }
    Ok(())
}

/// The calls of a line in a list.
fn listed(alloc: Global, command: Command) -> Result<Items<Part>, Memory>
    ensures { IfOk result (λ parts. parts ≡ command) }
{
    match command.into_parts() {
        Parts::One(part) => {
            let mut parts = Vec::new(alloc);
            parts.push(part)?;
            Ok(Items::new(parts))
        }
        Parts::Many(parts) => Ok(Items::new(parts)),
    }
}

/// A script between two lines.
#[derive(Drop)]
pub(crate) struct Planning {
    session: Session,
    jobs: Vec<Vec<Job>>,
    rows: String,
}

impl Model for Planning {
    ghost use Rattle.ipcsh.specs.Scripts.{Planned};

    ghost Value = { Planned };

    ghost use Rattle.ipcsh.specs.ScriptsInside.{planned_of};

    ghost view = { planned_of };
}

impl Planning {
    /// Before the first line.
    fn new(alloc: Global) -> Planning
        ensures value { result ≡ nothing_planned }
        ensures ready { IsReady result }
    {
        Planning {
            session: Session::new(alloc),
            jobs: Vec::new(alloc),
            rows: String::new(alloc),
        }
    }

    /// Reads one line.
    fn take_line<L: Listener>(
        &mut self,
        alloc: Global,
        line: &Line<'_>,
        listener: &mut L,
    ) -> Result<(), Memory>
        requires lines { self.old.session.lines + 1 < 2 ^ 64 }
        requires ready { IsReady self.old }
        ensures takes { OnOk result (self.new ≡ after_script_line self.old (content_of line.now)) }
        ensures lines { OnOk result (self.new.session.lines ≡ self.old.session.lines + 1) }
        ensures ready { OnOk result (IsReady self.new) }
    {
        self.session.count_line();
        let reading = self.session.read(alloc, line)?;
        self.session.tell(line, &reading, listener);
        match reading {
            Reading::Command(client, command) => self.add_job(alloc, client, command),
            Reading::Client(name, creds) => self.add_client(alloc, name, creds),
            reading => self
                .session
                .carry_out(alloc, reading, &mut self.rows, listener),
        }
    }

    fn add_job(&mut self, alloc: Global, client: u32, command: Command) -> Result<(), Memory>
        requires client { client < length self.old.session.names }
        requires ready { IsReady self.old }
        ensures value { OnOk result (self.new ≡ with_job self.old client command) }
        ensures ready { OnOk result (IsReady self.new) }
    {
        self.session.start(alloc)?;
        let now = self.session.time();
        let command = listed(alloc, command)?;
        self.jobs[client as usize].push(Job { now, command })?;
        Ok(())
    }

    fn add_client(&mut self, alloc: Global, name: Name, creds: Creds) -> Result<(), Memory>
        requires joins { CanJoin self.old.session }
        requires ready { IsReady self.old }
        ensures value { OnOk result (self.new ≡ with_client self.old name creds) }
        ensures ready { OnOk result (IsReady self.new) }
    {
        self.jobs.reserve(1)?;
        self.session.add_client(name, creds)?;
        self.jobs.push(Vec::new(alloc)).unwrap();
        Ok(())
    }

    fn into_script(self) -> Script
        requires { IsReady self }
        ensures { IsScript self result }
    {
        let Planning {
            session,
            jobs,
            rows,
        } = self;
        let (summary, has_jobs) = (session.summary(), session.has_started());
        let (names, clients, limits) = session.into_setting();
        Script {
            names,
            clients,
            limits,
            jobs,
            has_jobs,
            rows,
            lines: summary.lines,
            bad: summary.bad,
        }
    }
}
