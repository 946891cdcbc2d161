// The session of a script: its clients and limits, and the namespace once it was started.

ghost use Rattle.std.specs.Prelude.{◌≡◌, ◌<◌, ◌≤◌, ◌+◌, ◌^◌, ◌++◌, [], ◌∷◌, false, true, Some, IsTrue, IfOk, IfSome, OnOk, OnErr, bytes_eq, flat_map, length, string_bytes};
ghost use Rattle.std.specs.List.{position_from};
ghost use Rattle.ipcsh.specs.Session.{fresh_session, has_started as started, client_named as client_with, events_of, history_of, waits};
ghost use Rattle.ipc_space.specs.Spaces.{own_reply, other_replies};
ghost use Rattle.ipc_history.specs.History.{next_step, with_event};
ghost use Rattle.ipcsh.specs.Commands.{call_event};
ghost use Rattle.ipcsh.specs.Output.{Answers, CarriesOut, counted};
ghost use Rattle.ipcsh.specs.Readings.{CanJoin, IsSound};
ghost use Rattle.ipc_text.specs.Rows.{bad_row, effect_rows, other_row, name_at as name_in};
ghost use Rattle.ipc_call.specs.Limits.{are_in_range, is_in_range, with_limit as limits_with};
ghost use Rattle.ipc_words.specs.LineText.{content_of};
ghost use Rattle.ipcsh.specs.Runs.{summary_of};

use crate::listeners::Listener;
use crate::readings::Reading;
use crate::runs::Summary;
use ipc_call::{Call, Limit, Limits, Memory, Reply};
use ipc_creds::{Creds, copies};
use ipc_space::{Effects, Space};
use ipc_text::{Line, Name, Reason, print_bad, print_reply, print_waits};
use std::alloc::Global;
use std::marker::Model;

/// How many clients a script may have.
pub(crate) const CLIENTS_MAX: usize = 64;

/// A script's session.
#[derive(Drop)]
pub(crate) struct Session {
    names: Vec<Name>,
    clients: Vec<Creds>,
    limits: Limits,
    time: u64,
    space: Option<Space>,
    lines: u64,
    bad: u64,
}

impl Model for Session {
    ghost use Rattle.ipcsh.specs.Session as session;

    ghost Value = { session.Session };

    ghost use Rattle.ipcsh.specs.Inside.{session_of, IsSession};

    ghost view = { session_of };

    ghost invariant = { IsSession };
}

impl Session {
    /// A session before its first line.
    pub(crate) fn new(alloc: Global) -> Session
        ensures { result ≡ fresh_session }
    {
        Session {
            names: Vec::new(alloc),
            clients: Vec::new(alloc),
            limits: Limits::default(),
            time: 0,
            space: None,
            lines: 0,
            bad: 0,
        }
    }

    /// How many clients there are.
    pub(crate) fn count(&self) -> usize
        ensures { result ≡ length self.now.names }
    {
        self.names.len()
    }

    /// What the run did so far.
    pub(crate) fn summary(&self) -> Summary
        ensures { result ≡ summary_of self.now }
    {
        Summary {
            lines: self.lines,
            bad: self.bad,
            events: match &self.space {
                Some(space) => space.events(),
                None => 0,
            },
        }
    }

    /// Whether the first call has started the namespace.
    pub(crate) fn has_started(&self) -> bool
        ensures { result ≡ started self.now }
    {
        self.space.is_some()
    }

    /// The number of the client of this name.
    pub(crate) fn client_named(&self, word: &[u8]) -> Option<u32>
        ensures value { result ≡ client_with self.now word.now }
        ensures within { IfSome result (λ client. client < length self.now.names) }
    {
        position_of(self.names.as_slice(), word)
    }

    /// Whether the client's last call still waits.
    pub(crate) fn is_waiting(&self, client: u32) -> bool
        ensures { result ≡ waits self.now client }
    {
        match &self.space {
            Some(space) => space.is_waiting(client),
            None => false,
        }
    }

    /// The time passed in, in seconds.
    pub(crate) fn time(&self) -> u64
        ensures { result ≡ self.now.time }
    {
        self.time
    }

    /// The names and the credentials of the clients, and the limits.
    pub(crate) fn into_setting(self) -> (Vec<Name>, Vec<Creds>, Limits)
        ensures names { result.0.items ≡ self.names }
        ensures clients { result.1.items ≡ self.clients }
        ensures limits { result.2 ≡ self.limits }
        ensures range { IsTrue (are_in_range result.2) }
        ensures few { length self.names ≤ 64 }
        ensures alike { length self.clients ≡ length self.names }
    {
        let Session {
            names,
            clients,
            limits,
            space,
            ..
        } = self;
        drop(space);
        (names, clients, limits)
    }

    /// The namespace, once it was started.
    pub(crate) fn into_space(self) -> Option<Space>
        ensures { result ≡ self.history }
    {
        self.space
    }

    /// One more line was read.
    pub(crate) fn count_line(&mut self)
        requires { self.old.lines + 1 < 2 ^ 64 }
        ensures value { self.new ≡ counted self.old }
        ensures good { self.new.bad < self.new.lines }
    {
        self.lines += 1;
    }

    /// So many more lines were read.
    pub(crate) fn count_lines(&mut self, count: u64)
        requires { self.old.lines + count < 2 ^ 64 }
        ensures value { self.new ≡ record self.old { lines = self.old.lines + count } }
    {
        self.lines += count;
    }

    /// Reads one line, does what it says, and prints its rows.
    #[tactic(auto, unfolding(crate::specs::Output::answered))]
    pub(crate) fn answer<L: Listener>(
        &mut self,
        alloc: Global,
        line: &Line<'_>,
        rows: &mut String,
        listener: &mut L,
    ) -> Result<(), Memory>
        requires { self.old.lines + 1 < 2 ^ 64 }
        ensures answer { OnOk result (Answers self.old (content_of line.now) self.new (string_bytes rows.old) (string_bytes rows.new)) }
        ensures lines { OnOk result (self.new.lines ≡ self.old.lines + 1) }
    {
        self.count_line();
        let reading = self.read(alloc, line)?;
        self.tell(line, &reading, listener);
        self.carry_out(alloc, reading, rows, listener)
    }

    /// Lets a listener hear what the line just counted says.
    #[inline(always)]
    pub(crate) fn tell<L: Listener>(&self, line: &Line<'_>, reading: &Reading, listener: &mut L) {
        match (reading, line) {
            (Reading::Bad(reason), _) => listener.bad(self.lines, line, *reason),
            (Reading::Client(..), Line::Text(text)) => listener.client(self.lines, text),
            (Reading::Command(client, command), Line::Text(text)) => {
                listener.calls(self.lines, *client, text, command)
            }
            _ => {}
        }
    }

    /// Lets a listener hear of the call of a client that is entered next.
    pub(crate) fn tell_entering<L: Listener>(&self, client: u32, call: &Call, listener: &mut L) {
        if let Some(space) = &self.space {
            listener.entering(space, client, call);
        }
    }

    /// Lets a listener hear what an event of a client did.
    pub(crate) fn tell_effects<L: Listener>(
        &mut self,
        client: u32,
        effects: &Effects,
        listener: &mut L,
    )
        ensures { self.new ≡ self.old }
    {
        if let Some(space) = &mut self.space {
            listener.answered(space, client, effects);
        }
    }

    /// Lets a listener hear of the end of a script with calls.
    pub(crate) fn tell_end<L: Listener>(&mut self, listener: &mut L)
        ensures { self.new ≡ self.old }
    {
        if let Some(space) = &mut self.space {
            listener.ended(space);
        }
    }

    /// Does what a line says, and prints its rows.
    #[inline(always)]
    pub(crate) fn carry_out<L: Listener>(
        &mut self,
        alloc: Global,
        reading: Reading,
        rows: &mut String,
        listener: &mut L,
    ) -> Result<(), Memory>
        requires sound { IsSound self.old reading }
        requires counted { self.old.bad < self.old.lines }
        ensures does { OnOk result (CarriesOut self.old reading self.new (string_bytes rows.old) (string_bytes rows.new)) }
        ensures lines { OnOk result (self.new.lines ≡ self.old.lines) }
    {
        match reading {
            Reading::Skip => Ok(()),
            Reading::Bad(reason) => self.reject(reason, rows),
            Reading::Client(name, creds) => self.add_client(name, creds),
            Reading::Limit(limit, value) => {
                self.set_limit(limit, value);
                Ok(())
            }
            Reading::Clock(now) => {
                self.set_time(now);
                Ok(())
            }
            Reading::Command(client, command) => self.make_all(
                alloc, client, command, rows, listener,
            ),
        }
    }

    fn reject(&mut self, reason: Reason, rows: &mut String) -> Result<(), Memory>
        requires { self.old.bad < self.old.lines }
        ensures state { self.new ≡ record self.old { bad = self.old.bad + 1 } }
        ensures rows { OnOk result (string_bytes rows.new ≡ string_bytes rows.old ++ bad_row self.old.lines reason) }
    {
        self.bad += 1;
        print_bad(rows, self.lines, reason)
    }

    /// Adds a client.
    pub(crate) fn add_client(&mut self, name: Name, creds: Creds) -> Result<(), Memory>
        requires { CanJoin self.old }
        ensures { OnOk result (self.new ≡ record self.old { names = self.old.names ++ name ∷ []; clients = self.old.clients ++ creds ∷ [] }) }
    {
        self.names.reserve(1)?;
        self.clients.reserve(1)?;
        self.names.push(name).unwrap();
        self.clients.push(creds).unwrap();
        Ok(())
    }

    fn set_limit(&mut self, limit: Limit, value: u32)
        requires range { IsTrue (is_in_range limit value) }
        requires open { started self.old ≡ false }
        ensures { self.new ≡ record self.old { limits = limits_with self.old.limits limit value } }
    {
        self.limits = self.limits.with_limit(limit, value);
    }

    fn set_time(&mut self, now: u64)
        ensures { self.new ≡ record self.old { time = now } }
    {
        self.time = now;
    }

    /// Starts the namespace, where no call has done so.
    #[inline(always)]
    pub(crate) fn start(&mut self, alloc: Global) -> Result<(), Memory>
        requires { 1 ≤ length self.old.names }
        ensures { OnOk result (self.new ≡ record self.old { history = Some (history_of self.old) }) }
    {
        if self.space.is_some() {
            return Ok(());
        }
        self.begin(alloc)
    }

    /// Starts the namespace.
    #[cold]
    #[inline(never)]
    fn begin(&mut self, alloc: Global) -> Result<(), Memory>
        requires some { 1 ≤ length self.old.names }
        requires unstarted { started self.old ≡ false }
        ensures { OnOk result (self.new ≡ record self.old { history = Some (history_of self.old) }) }
    {
        let clients = copies(alloc, &self.clients)?;
        let space = Space::start(self.limits, clients)?;
        self.space.insert(space);
        Ok(())
    }

    /// Enters a call in the namespace, at the time passed in.
    pub(crate) fn apply(&mut self, client: u32, call: Call) -> Result<Effects, Memory>
        requires started { started self.old ≡ true }
        requires known { client < length self.old.names }
        requires free { waits self.old client ≡ false }
        ensures session { OnOk result (self.new ≡ record self.old { history = Some (with_event (history_of self.old) (call_event self.old client call)) }) }
        ensures place { IfOk result (λ effects. effects.place ≡ events_of self.new) }
        ensures own { IfOk result (λ effects.
            effects.own ≡ own_reply (events_of self.old + 1) (next_step (history_of self.old) (call_event self.old client call)).own) }
        ensures others { IfOk result (λ effects.
            effects.others.items ≡ other_replies (events_of self.old + 1) (next_step (history_of self.old) (call_event self.old client call)).ended) }
        ensures err { OnErr result (self.new ≡ self.old) }
    {
        let Some(space) = &mut self.space else {
            unreachable!()
        };
        space.apply(client, self.time, call)
    }

    /// Prints the rows of a client's event.
    pub(crate) fn print_effects(
        &self,
        client: u32,
        effects: &Effects,
        rows: &mut String,
    ) -> Result<(), Memory>
        ensures { OnOk result (string_bytes rows.new ≡ string_bytes rows.old ++ effect_rows self.now.names client effects.now.place effects.now.own effects.now.others.items) }
    {
        match &effects.own {
            Some(reply) => print_reply(rows, self.name_at(client), reply)?,
            None => print_waits(rows, effects.place, self.name_at(client))?,
        }
        self.print_others(effects.others.as_slice(), rows)
    }

    fn print_others(&self, others: &[(u32, Reply)], rows: &mut String) -> Result<(), Memory>
        ensures { OnOk result (string_bytes rows.new ≡ string_bytes rows.old ++ flat_map (other_row self.now.names) others.now) }
    {
        for (client, reply) in others {
            print_reply(rows, self.name_at(*client), reply)?;
        }
        Ok(())
    }

    pub(crate) fn name_at(&self, client: u32) -> &str
        ensures { result.now ≡ name_in self.now.names client }
    {
        match self.names.get(client as usize) {
            Some(name) => name.as_str(),
            None => "",
        }
    }
}

fn position_of(names: &[Name], word: &[u8]) -> Option<u32>
    requires { length names.now ≤ 64 }
    ensures value { result ≡ position_from (λ name. bytes_eq name word.now) 0 names.now }
    ensures within { IfSome result (λ client. client < length names.now) }
{
    let mut client = 0;
    for name in names {
        if name.is(word) {
            return Some(client);
        }
        client += 1;
    }
    None
}
