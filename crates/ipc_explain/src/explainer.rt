//! A script that is run and explained.

ghost use Rattle.std.specs.Prelude.{◌≡◌, ◌++◌, [], Some, List, ℕ, IfOk, IfSome, OnErr, OnOk, string_bytes};
ghost use Rattle.call_reasons.specs.Cases.{entered};
ghost use Rattle.ipc_history.specs.History.{History, run, with_event};
ghost use Rattle.ipc_model.specs.Step.{Event};
ghost use Rattle.row_notes.specs.Merging.{IsExplained, explained};
ghost use Rattle.row_notes.specs.Noted.{AddsNote, Noted, with_note};
ghost use Rattle.shown_lines.specs.Folding.{folded_all, lines_text};
ghost use Rattle.thread_ends.specs.Leaving.{left_in, seen};
ghost use Rattle.ipc_explain.specs.Explaining.{head_of, line_number, newly_awaited_in, numbered, own_of, shown_line, waiting_caller_of, where_granted};
ghost use Rattle.ipcsh.specs.Runs.{EndsBy, transfer};

use crate::leaving::print_threads;
use call_reasons::{
    Awaited, Case, Ender, LatestEvent, Wait, asked_by, awaited_by, explain_end, explain_refusal,
    latest_event, print_awaited,
};
use ipc_call::{Call, JournalRow, Memory, Rule};
use ipc_hints::Hints;
use ipc_space::{Effects, Space};
use ipc_text::{Command, Line, Reason, is_plain, split_word};
use ipcsh::{Fault, Listener, Summary, run_with};
use number_text::print_number;
use row_notes::{Head, Notes, merge};
use shown_lines::{fold, print_line};
use std::alloc::Global;
use std::fmt::Write;
use std::io::Read;
use thread_ends::{Left, left_by, print_left};
use wait_graph::Graph;

/// How wide a note is beside its margin of four blanks, and a line of the script beside its own: a screen has 80 columns.
const NOTE_WIDTH: usize = 76;

const LINE_WIDTH: usize = 78;

/// What is told may fail where an allocation does; then a part of the text may stand in the string.
type Told = Result<(), Memory>;

/// What a run printed, with lines above its rows and notes below them, and how it ended.
#[derive(Debug, Drop)]
pub struct Explained {
    /// The rows with the lines and the notes.
    pub text: Vec<u8>,
    /// How the run ended.
    pub ended: Result<Summary, Fault>,
}

/// Runs a script to its end, and explains its rows: the line of the script stands above the first of its rows, with its flags by
/// name, and what a row means stands below it. The error comes only where an allocation for the text fails; one that fails for a note or a line
/// leaves that out.
pub fn explain<R: Read>(alloc: Global, reader: &mut R) -> Result<Explained, Memory>
    ensures { IfOk result (λ e. (rows : List ℕ)
        × (above : List Noted)
        × (below : List Noted)
        × EndsBy (transfer (R.remaining reader.old) (R.remaining reader.new) (Some []) (Some rows)) e.ended
        × IsExplained rows e.text.items
        × (e.text.items ≡ explained rows above below)) }
{
    let mut rows = Vec::new(alloc);
    let mut explainer = Explainer::new(alloc);
    let ended = run_with(alloc, reader, &mut rows, &mut explainer);
    explainer.finish();
    let text = merge(alloc, rows.as_slice(), &explainer.lines, &explainer.notes)?;
    Ok(Explained { text, ended })
}

/// A client of the script.
#[derive(Debug, Drop)]
pub(crate) struct Client {
    name: String,
    /// Since when its call waits.
    wait: Option<Wait>,
}

/// Collects the notes of a run.
#[derive(Debug, Drop)]
struct Explainer {
    alloc: Global,
    /// None since a client couldn't be noted.
    hints: Option<Hints>,
    clients: Vec<Client>,
    /// The latest line with calls, until it stands above a row.
    line: Vec<u8>,
    /// What the call leaves that was entered last, where it is granted, unless memory was refused.
    left: Option<Left>,
    /// The note on the next event. It begins with the warnings of the latest line with calls.
    text: String,
    /// The lines above rows.
    lines: Notes,
    /// The notes below them.
    notes: Notes,
}

impl Explainer {
    fn new(alloc: Global) -> Explainer {
        Explainer {
            alloc,
            hints: Some(Hints::new(alloc)),
            clients: Vec::new(alloc),
            line: Vec::new(alloc),
            left: None,
            text: String::new(alloc),
            lines: Notes::new(alloc),
            notes: Notes::new(alloc),
        }
    }

    /// Adds what is told at the end.
    fn finish(&mut self) {
        let mut hint = String::new(self.alloc);
        if let Some(hints) = &self.hints {
            if hints.finish(&mut hint).is_ok() {
                self.keep(Head::End, hint.as_str());
            }
        }
    }

    /// Adds a note of whole lines; what begins a line for standard error is cut off.
    fn keep(&mut self, head: Head, text: &str) {
        let mut note = String::new(self.alloc);
        if push_bare(&mut note, text).is_ok() {
            let _ = add_folded(
                self.alloc,
                &mut self.notes,
                head,
                note.as_bytes(),
                NOTE_WIDTH,
            );
        }
    }

    /// Puts a bad line above its row, where it has only tabs and printing characters.
    fn keep_bad(&mut self, number: u64, line: &Line<'_>) {
        if let Line::Text(text) = line {
            if is_plain(text) {
                self.line.clear();
                if print_numbered(self.alloc, &mut self.line, number, text).is_ok() {
                    self.place_line(Head::Line(number));
                }
            }
        }
    }

    /// Puts the latest line above the row with this head, unless it stands above an earlier one.
    fn place_line(&mut self, head: Head)
        ensures lines { AddsNote self.old.lines self.new.lines head }
        ensures notes { self.new.notes ≡ self.old.notes }
    {
        let _ = add_folded(
            self.alloc,
            &mut self.lines,
            head,
            self.line.as_slice(),
            LINE_WIDTH,
        );
        self.line.clear();
    }

    fn add_client(&mut self, text: &[u8]) -> Told {
        let name = second_word(text);
        let name = String::from_str(self.alloc, str::from_utf8(name).unwrap_or(""))?;
        self.clients.push(Client { name, wait: None })?;
        Ok(())
    }

    /// Keeps what the call of a client leaves that is entered next, where it is granted.
    fn keep_left(&mut self, space: &Space, client: u32, call: &Call)
        ensures { IfSome self.new.left (λ left. left_in (run space.now) client call.now ≡ Some (seen left)) }
    {
        self.left = left_by(self.alloc, space, client, call).unwrap_or(None);
    }

    /// Tells what the event's own call left, where it was granted.
    fn tell_left(&mut self, own: Own) -> Told
        ensures { self.new.notes ≡ self.old.notes }
    {
        match granted(own, self.left.take()) {
            Some(left) => {
                print_threads(&mut self.text, &self.clients, &left)?;
                print_left(&mut self.text, &left)
            }
            None => Ok(()),
        }
    }

    /// Tells of the event's own call: why a rule refused it, what it left, or what it waits for.
    fn tell_own(&mut self, case: Case<'_>, own: Own, place: u64, awaited: Option<Awaited>) -> Told
        ensures { self.new.notes ≡ self.old.notes }
    {
        match own {
            Own::Refused(rule) => explain_refusal(&mut self.text, case, rule),
            Own::Granted => self.tell_left(own),
            Own::Waits => {
                self.begin_wait(case, place);
                match awaited {
                    Some(awaited) => {
                        print_awaited(&mut self.text, case.space, case.client, awaited)?;
                        self.text.push_str("\n")
                    }
                    None => Ok(()),
                }
            }
        }
    }

    /// Adds what was told of the row with this head, unless that failed.
    fn add_told(&mut self, head: Head, told: Told)
        ensures { AddsNote self.old.notes self.new.notes head }
    {
        if told.is_ok() {
            let _ = add_folded(
                self.alloc,
                &mut self.notes,
                head,
                self.text.as_bytes(),
                NOTE_WIDTH,
            );
        }
        self.text.clear();
    }

    /// Explains the event's own call.
    fn explain_own(&mut self, case: Case<'_>, own: Own, place: u64, awaited: Option<Awaited>)
        ensures { AddsNote self.old.notes self.new.notes (Head.Event place 0) }
    {
        let told = self.tell_own(case, own, place, awaited);
        self.add_told(Head::Event { place, turn: 0 }, told);
    }

    /// Explains what the latest event of the journal did.
    fn explain_event(&mut self, space: &Space, awaited: Option<Awaited>) {
        let Some(event) = latest_event(space) else {
            return;
        };
        let LatestEvent {
            client,
            call,
            answers,
        } = event;
        let case = Case {
            space,
            client,
            call,
        };
        self.explain_own(case, own_in(answers), space.events(), awaited);
        for row in answers {
            self.explain_row(case, row);
        }
    }

    /// Explains an answer of an event: how it ended the wait of a client, unless it is that to its own call.
    fn explain_row(&mut self, case: Case<'_>, row: &JournalRow)
        ensures { AddsNote self.old.notes self.new.notes (head_of row.now) }
    {
        match row {
            JournalRow::Answered {
                client,
                place,
                turn,
                rule,
            } if *turn > 0 => {
                let (place, turn) = (*place, *turn);
                self.explain_other(case, *client, place, turn, *rule)
            }
            _ => (),
        }
    }

    fn begin_wait(&mut self, case: Case<'_>, place: u64)
        ensures { self.new.notes ≡ self.old.notes }
    {
        if let Some(client) = self.clients.get_mut(case.client as usize) {
            let (clock, asked) = (case.space.clock(), asked_by(case.call));
            client.wait = Some(Wait {
                place,
                clock,
                asked,
            });
        }
    }

    /// Explains how the event ended the wait of a client.
    fn explain_other(
        &mut self,
        case: Case<'_>,
        client: u32,
        place: u64,
        turn: u32,
        rule: Option<Rule>,
    )
        ensures { AddsNote self.old.notes self.new.notes (Head.Event place turn) }
    {
        let Some(wait) = self.end_wait(client) else {
            return;
        };
        let told = self.tell_end(case, client, place, wait, rule);
        self.add_told(Head::Event { place, turn }, told);
    }

    /// Tells how the event ended the wait of a client.
    fn tell_end(
        &mut self,
        case: Case<'_>,
        client: u32,
        place: u64,
        wait: Wait,
        rule: Option<Rule>,
    ) -> Told
        ensures { self.new.notes ≡ self.old.notes }
    {
        let ender = Ender {
            place,
            name: name_of(&self.clients, case.client),
            call: case.call,
        };
        explain_end(&mut self.text, case.space, client, ender, wait, rule)
    }

    fn end_wait(&mut self, client: u32) -> Option<Wait>
        ensures { self.new.notes ≡ self.old.notes }
    {
        self.clients.get_mut(client as usize)?.wait.take()
    }

    /// Explains who waits at the end.
    fn explain_last(&mut self, space: &mut Space) -> Told
        ensures { space.new ≡ space.old }
    {
        let mut text = String::new(self.alloc);
        let mut graph = Graph::new(self.alloc, space.clients())?;
        self.print_waiters(&mut text, &mut graph, space)?;
        self.print_cycle(&mut text, &graph, space.clients())?;
        add_folded(
            self.alloc,
            &mut self.notes,
            Head::End,
            text.as_bytes(),
            NOTE_WIDTH,
        )
    }

    /// Appends a line for each client that waits, and notes for whom.
    fn print_waiters(&self, text: &mut String, graph: &mut Graph, space: &mut Space) -> Told
        ensures { space.new ≡ space.old }
    {
        for client in 0..space.clients() {
            if let Some(awaited) = awaited_by(space, client) {
                self.print_waiter(text, space, client, awaited)?;
                add_edges(graph, space, client, awaited);
            }
        }
        Ok(())
    }

    fn print_waiter(
        &self,
        text: &mut String,
        space: &Space,
        client: u32,
        awaited: Awaited,
    ) -> Told {
        let name = name_of(&self.clients, client);
        write!(text, "at the end {name} waits ")?;
        print_awaited(text, space, client, awaited)?;
        if let Some(arrival) = space.waiting_of(client) {
            let place = arrival.place;
            write!(text, "; since event {place}")?;
        }
        text.push_str("\n")
    }

    /// Appends a list of clients, each of which waits for the next, and the last for the first.
    fn print_deadlock(&self, text: &mut String, cycle: &[u32]) -> Told {
        text.push_str("a deadlock, by what they took with SEM_UNDO: ")?;
        let first = cycle.first().copied().unwrap_or(0);
        for (index, client) in cycle.iter().enumerate() {
            let next = cycle.get(index.saturating_add(1)).copied().unwrap_or(first);
            let (name, other) = (
                name_of(&self.clients, *client),
                name_of(&self.clients, next),
            );
            let between = if index == 0 { "" } else { ", " };
            write!(text, "{between}{name} waits for {other}")?;
        }
        text.push_str("\n")
    }

    /// Tells the first cycle of clients that wait for one another.
    fn print_cycle(&self, text: &mut String, graph: &Graph, count: u32) -> Told {
        for start in 0..count {
            let cycle = graph.cycle_from(self.alloc, start)?;
            if !cycle.is_empty() {
                return self.print_deadlock(text, cycle.as_slice());
            }
        }
        Ok(())
    }
}

/// Adds a note of whole lines, which are folded to this width. Where an allocation fails, nothing is added.
fn add_folded(alloc: Global, notes: &mut Notes, head: Head, text: &[u8], width: usize) -> Told
    ensures ok { OnOk result (notes.new ≡ with_note notes.old head (lines_text (folded_all width text.now))) }
    ensures err { OnErr result (notes.new ≡ notes.old) }
{
    let mut folded = Vec::new(alloc);
    fold(&mut folded, text, width)?;
    notes.add(head, folded.as_slice())
}

/// Appends a line of a script behind its number.
fn print_numbered(alloc: Global, out: &mut Vec<u8>, number: u64, text: &[u8]) -> Told
    ensures { OnOk result (out.new.items ≡ out.old.items ++ numbered number text.now) }
{
    let mut head = String::new(alloc);
    print_line_number(&mut head, number)?;
    out.extend_from_slice(head.as_bytes())?;
    out.extend_from_slice(text)?;
    out.extend_from_slice(b"\n")
}

/// Appends the number of a line, as it stands before the line.
fn print_line_number(out: &mut String, number: u64) -> Told
    ensures { OnOk result (string_bytes out.new ≡ string_bytes out.old ++ line_number number) }
{
    out.push_str("line ")?;
    print_number(out, number)?;
    out.push_str(": ")
}

/// A line with calls as it stands above its row: behind its number, with its flags by name.
fn show_line(alloc: Global, number: u64, text: &[u8]) -> Result<Vec<u8>, Memory>
    ensures { IfOk result (λ line. line.items ≡ shown_line number text.now) }
{
    let mut line = Vec::new(alloc);
    let mut shown = Vec::new(alloc);
    print_line(&mut shown, text)?;
    print_numbered(alloc, &mut line, number, shown.as_slice())?;
    Ok(line)
}

/// The name of a client.
pub(crate) fn name_of(clients: &[Client], client: u32) -> &str {
    match clients.get(client as usize) {
        Some(client) => client.name.as_str(),
        None => "",
    }
}

/// How an event's own call was answered.
#[derive(Clone, Copy, Debug)]
enum Own {
    Granted,
    Refused(Rule),
    Waits,
}

/// How the own call of an event with these answers was answered: its answer is the first, with turn 0.
fn own_in(answers: &[JournalRow]) -> Own
    ensures { result ≡ own_of answers.now }
{
    match answers.first() {
        Some(JournalRow::Answered { turn: 0, rule, .. }) => match *rule {
            Some(rule) => Own::Refused(rule),
            None => Own::Granted,
        },
        _ => Own::Waits,
    }
}

/// What a call leaves, where it was granted.
fn granted(own: Own, left: Option<Left>) -> Option<Left>
    ensures { result ≡ where_granted own left }
{
    match own {
        Own::Granted => left,
        _ => None,
    }
}

/// The client of the latest event, where its call waits.
fn waiting_caller(space: &Space) -> Option<u32>
    ensures { (h : History) → (e : Event) → space.now ≡ with_event h e → result ≡ waiting_caller_of (entered h e) }
{
    let event = latest_event(space)?;
    match own_in(event.answers) {
        Own::Waits => Some(event.client),
        _ => None,
    }
}

/// What the own call of the latest event waits for, where it waits.
fn newly_awaited(space: &mut Space) -> Option<Awaited>
    ensures awaited { (h : History) → (e : Event) → space.old ≡ with_event h e → result ≡ newly_awaited_in (run space.old) (entered h e) }
    ensures same { space.new ≡ space.old }
{
    let client = waiting_caller(space)?;
    awaited_by(space, client)
}

/// The client waits for each that has taken some of the semaphore with SEM_UNDO.
fn add_edges(graph: &mut Graph, space: &Space, client: u32, awaited: Awaited) {
    if let Awaited::Semaphore { id, oper } = awaited {
        if oper.op < 0 {
            for other in 0..space.clients() {
                if space.semadj_of(other, id, oper.num) > 0 {
                    graph.add(client, other);
                }
            }
        }
    }
}

/// The second word of a line.
fn second_word(text: &[u8]) -> &[u8] {
    match split_word(text) {
        Some((_, rest)) => match split_word(rest) {
            Some((word, _)) => word,
            None => b"",
        },
        None => b"",
    }
}

/// Appends lines without what begins them on standard error, `ipcsh: line 3: `.
fn push_bare(out: &mut String, text: &str) -> Told {
    for line in text.lines() {
        let line = line.strip_prefix("ipcsh: ").unwrap_or(line);
        let bare = match (line.starts_with("line "), line.find(": ")) {
            (true, Some(place)) => line.get(place.saturating_add(2)..).unwrap_or(line),
            _ => line,
        };
        out.push_str(bare)?;
        out.push_str("\n")?;
    }
    Ok(())
}

impl Listener for Explainer {
    fn client(&mut self, number: u64, text: &[u8]) {
        let _ = self.add_client(text);
        if let Some(hints) = &mut self.hints {
            if hints.client(number, text).is_err() {
                self.hints = None;
            }
        }
    }

    fn calls(&mut self, number: u64, client: u32, text: &[u8], command: &Command) {
        self.line.clear();
        if let Ok(line) = show_line(self.alloc, number, text) {
            self.line = line;
        }
        let mut hint = String::new(self.alloc);
        if let Some(hints) = &mut self.hints {
            if hints.calls(number, client, command) && hints.warn(number, text, &mut hint).is_ok() {
                self.text.clear();
                let _ = push_bare(&mut self.text, hint.as_str());
            }
        }
    }

    fn bad(&mut self, number: u64, line: &Line<'_>, reason: Reason) {
        self.keep_bad(number, line);
        let mut hint = String::new(self.alloc);
        if let Some(hints) = &mut self.hints {
            if hints.bad(number, line, reason, &mut hint).is_ok() {
                let text = if hint.is_empty() {
                    unhinted(reason)
                } else {
                    hint.as_str()
                };
                self.keep(Head::Line(number), text);
            }
        }
    }

    fn entering(&mut self, space: &Space, client: u32, call: &Call) {
        self.keep_left(space, client, call);
    }

    fn answered(&mut self, space: &mut Space, _client: u32, _effects: &Effects) {
        let awaited = newly_awaited(space);
        let place = space.events();
        self.place_line(Head::Event { place, turn: 0 });
        self.explain_event(space, awaited);
    }

    fn ended(&mut self, space: &mut Space) {
        let _ = self.explain_last(space);
    }

    fn written(&mut self) {}
}

/// What is told of a bad line that has no text of its own, since an earlier line of its first word has it.
fn unhinted(reason: Reason) -> &'static str {
    match reason {
        Reason::Busy => "its call still waits, as told above\n",
        _ => "no client, as told above\n",
    }
}
