// A namespace with the journal of its events, whose rows can be handed out.

ghost use Rattle.std.specs.Prelude.{◌≡◌, ℕ, ◌+◌, ◌<◌, ◌≤◌, ◌^◌, ◌||◌, true, false, nat_lt, [], ◌∷◌, ◌++◌, drop, length, map, vec_len, vec_capacity, None, IsTrue, IsOk, IfOk, OnOk, OnErr};
ghost use Rattle.std.specs.List.{AllByRecursion};
ghost use Rattle.ipc_call.specs.Limits.{are_in_range};
ghost use Rattle.shm_seg.specs.Attachments.{attachment_at};
ghost use Rattle.ipc_model.specs.State.{is_waiting as waits};
ghost use Rattle.ipc_model.specs.Step.{is_ready, step};
ghost use Rattle.ipc_history.specs.History.{run, rows_by, rows_of, IsLegal, with_event, next_step, reply_to_own, replies_to_ended, answered_row, rule_in};
ghost use Rattle.ipc_namespace.specs.Looking.{stopped_at as stopping_at};
ghost use Rattle.ipc_namespace.specs.Wanting.{may_want_memory};
ghost use Rattle.ipc_space.specs.Spaces.{own_reply, other_replies, CanOpen};
ghost use Rattle.ipc_call.specs.declared.replies.JournalRow.TheVariants.{Called};
ghost use Rattle.ipc_space.specs.Telling.{replies_in};

use ipc_call::{Call, Completion, JournalRow, Limits, Memory, Outcome, Reply, Rule, SemOper};
use ipc_creds::{Creds, copies};
use ipc_journal::Journal;
use ipc_namespace::Namespace;
use std::alloc::Global;
use std::marker::Model;
use std::mem;

/// What an event tells the clients.
#[derive(Debug, Drop)]
pub struct Effects {
    /// The number of the event among those of the namespace, from 1.
    pub place: u64,
    /// The reply to the event's own call, with turn 0. None where the call waits.
    pub own: Option<Reply>,
    /// The replies to the waiting calls that the event ended, each with its client, by turn from 1.
    pub others: Vec<(u32, Reply)>,
}

/// A namespace with its clients and the journal of its events, whose rows can be handed out while it serves on. It is its
/// history, the events that it has served since it was opened, and how many rows of the journal were handed out.
#[derive(Debug, Drop)]
pub struct Ledger {
    /// The credentials of the clients at the start. Those that they have now are the namespace's.
    opening: Vec<Creds>,
    namespace: Namespace,
    journal: Journal,
    events: u64,
    /// The waiting calls that an event ends. Between events it is empty, and it has room for one of each client, and one more.
    ended: Vec<Completion>,
    /// The replies to them, that `apply` gives. Between events it is empty, and keeps its room.
    others: Vec<(u32, Reply)>,
}

impl Model for Ledger {
    ghost use Rattle.std.specs.Prelude.{◌≡◌, ◌<◌, [], vec_capacity, vec_len};
    ghost use Rattle.ipc_space.specs.Spaces.{history_in, CanOpen, IsOfHistory, Parts};

    ghost Value = { Parts };

    ghost view = { λ l. record { history = history_in l.namespace.limits l.opening.items l.journal.rows; given = l.journal.given; room = l.journal.room } };

    ghost invariant = { λ l. IsOfHistory l.namespace l.opening.items l.journal.rows l.events × (l.ended.items ≡ []) × (l.others.items ≡ []) × CanOpen l.namespace.limits l.opening.items × (vec_len l.opening < vec_capacity l.ended) };
}

impl Ledger {
    /// A namespace as `Space::start` opens it, of whose journal nothing was handed out. Memory (ENOMEM) comes where an
    /// allocation fails: the credentials are kept twice, as they are at the start and as calls change them.
    pub fn start(limits: Limits, clients: Vec<Creds>) -> Result<Ledger, Memory>
        requires limits { IsTrue (are_in_range limits) }
        requires some { 1 ≤ vec_len clients }
        requires few { vec_len clients ≤ 4096 }
        ensures history { IfOk result (λ ledger. ledger.history ≡ record { limits = limits; clients = clients.items; events = [] }) }
        ensures given { IfOk result (λ ledger. ledger.given ≡ 0) }
    {
        let alloc = *clients.allocator();
        let opening = copies(alloc, clients.as_slice())?;
        let ended = Vec::with_capacity(alloc, clients.len() + 1)?;
        Ok(Ledger {
            opening,
            namespace: Namespace::new(limits, clients)?,
            journal: Journal::new(alloc),
            events: 0,
            ended,
            others: Vec::new(alloc),
        })
    }

    /// Serves a call of a client at a time in seconds, as the next event, as `Space::apply` does. Memory (ENOMEM) comes
    /// where a growth was refused, and where the journal would have 2^64 rows, and then nothing has changed.
    pub fn apply(&mut self, client: u32, now: u64, call: Call) -> Result<Effects, Memory>
        requires known { client < length self.old.history.clients }
        requires free { waits (run self.old.history) client ≡ false }
        ensures event { OnOk result (self.new.history ≡ with_event self.old.history (record { client = client; now = now; call = call })) }
        ensures given { self.new.given ≡ self.old.given }
        ensures place { IfOk result (λ effects. effects.place ≡ length self.old.history.events + 1) }
        ensures own { IfOk result (λ effects.
            effects.own ≡ own_reply (length self.old.history.events + 1) (next_step self.old.history (record { client = client; now = now; call = call })).own) }
        ensures others { IfOk result (λ effects.
            effects.others.items ≡ other_replies (length self.old.history.events + 1) (next_step self.old.history (record { client = client; now = now; call = call })).ended) }
        ensures apart { IfOk result (λ effects. replies_in effects.others.items client ≡ []) }
        ensures legal { IsLegal self.new.history }
        ensures room { OnOk result (self.old.room + length (rows_of self.old.history) ≤ self.new.room + length (rows_of self.new.history)) }
        ensures err { OnErr result (self.new.history ≡ self.old.history) }
        ensures kept { OnErr result (self.old.room ≤ self.new.room) }
    {
        let most = self.namespace.most_ended();
        if let Err(memory) = make_room(&mut self.others, most) {
            drop(call);
            return Err(memory);
        }
        let outcome = match take_in(
            &mut self.namespace,
            &mut self.journal,
            &mut self.events,
            &mut self.ended,
            client,
            now,
            call,
        ) {
            Ok(outcome) => outcome,
            Err(memory) => return Err(memory),
        };
        let place = self.events;
        let own = tell(
            &mut self.journal,
            &mut self.others,
            place,
            &mut self.ended,
            client,
            outcome,
        );
        let others = give_away(&mut self.others);
        Ok(Effects { place, own, others })
    }

    /// As `apply`, but the replies to the waiting calls that the event ended are appended to a list, which has room for one of
    /// each call that waits. The answer is `Effects::place` with `Effects::own`. The journal grows only where it hasn't
    /// room for the rows of the longest event: the call, its answer, and one of each call that waits. So where it has, Memory comes
    /// only where the call itself takes memory.
    pub fn apply_into(
        &mut self,
        client: u32,
        now: u64,
        call: Call,
        others: &mut Vec<(u32, Reply)>,
    ) -> Result<(u64, Option<Reply>), Memory>
        requires known { client < length self.old.history.clients }
        requires free { waits (run self.old.history) client ≡ false }
        requires space { vec_len others.old + length (run self.old.history).parked ≤ vec_capacity others.old }
        ensures event { OnOk result (self.new.history ≡ with_event self.old.history (record { client = client; now = now; call = call })) }
        ensures given { self.new.given ≡ self.old.given }
        ensures place { IfOk result (λ told. told.0 ≡ length self.old.history.events + 1) }
        ensures own { IfOk result (λ told.
            told.1 ≡ own_reply (length self.old.history.events + 1) (next_step self.old.history (record { client = client; now = now; call = call })).own) }
        ensures others { OnOk result (others.new.items ≡ others.old.items
            ++ other_replies (length self.old.history.events + 1) (next_step self.old.history (record { client = client; now = now; call = call })).ended) }
        ensures others_kept { OnErr result (others.new.items ≡ others.old.items) }
        ensures others_room { vec_capacity others.old ≤ vec_capacity others.new }
        ensures legal { IsLegal self.new.history }
        ensures room { OnOk result (self.old.room + length (rows_of self.old.history) ≤ self.new.room + length (rows_of self.new.history)) }
        ensures few { OnOk result (vec_len others.new ≤ vec_len others.old + length (run self.old.history).parked) }
        ensures cost { OnOk result (self.old.room ≤ self.new.room + (length (run self.old.history).parked + 2)) }
        ensures err { OnErr result (self.new.history ≡ self.old.history) }
        ensures kept { OnErr result (self.old.room ≤ self.new.room) }
        ensures memory { OnErr result ((may_want_memory (run self.old.history) call
            || nat_lt self.old.room (length (run self.old.history).parked + 2)) ≡ true) }
    {
        enter(
            &mut self.namespace,
            &mut self.journal,
            &mut self.events,
            &mut self.ended,
            others,
            client,
            now,
            call,
        )
    }

    /// Makes room for so many more rows of the journal. Memory (ENOMEM) comes where a growth was refused, and where the
    /// journal would have 2^64 rows.
    pub fn reserve(&mut self, rows: usize) -> Result<(), Memory>
        ensures history { self.new.history ≡ self.old.history }
        ensures given { self.new.given ≡ self.old.given }
        ensures room { OnOk result (rows ≤ self.new.room) }
        ensures kept { self.old.room ≤ self.new.room }
        ensures at_hand { rows ≤ self.old.room → IsOk result }
        ensures refused { OnErr result (self.new ≡ self.old) }
    {
        self.journal.reserve(rows)
    }

    /// For how many more rows the journal has room. Where they are as many as two and the calls that wait, the next event isn't refused
    /// for want of room in the journal.
    pub fn room(&self) -> usize
        ensures { result ≡ self.now.room }
    {
        self.journal.room()
    }

    /// The objects, the clients as calls have left them, and the calls that wait.
    pub fn namespace(&self) -> &Namespace
        ensures { result.now ≡ run self.now.history }
    {
        &self.namespace
    }

    /// As `Space::stopped_at`.
    pub fn stopped_at(&mut self, client: u32) -> Option<SemOper>
        ensures stop { result ≡ stopping_at (run self.old.history) client }
        ensures same { self.new ≡ self.old }
    {
        self.namespace.stopped_at(client)
    }

    /// How many clients there are, at most 4,096. They are numbered from 0.
    pub fn clients(&self) -> u32
        ensures count { result ≡ length self.now.history.clients }
        ensures few { result ≤ 4096 }
    {
        self.namespace.clients()
    }

    /// The limits, by which the journal is replayed.
    pub fn limits(&self) -> Limits
        ensures { result ≡ self.now.history.limits }
    {
        self.namespace.limits()
    }

    /// The credentials of the clients at the start, by which the journal is replayed. It could be opened with them and
    /// with its limits.
    pub fn opening(&self) -> &[Creds]
        ensures clients { result.now ≡ self.now.history.clients }
        ensures opened { CanOpen self.now.history.limits self.now.history.clients }
    {
        self.opening.as_slice()
    }

    /// The number of events.
    pub fn events(&self) -> u64
        ensures { result ≡ length self.now.history.events }
    {
        self.events
    }

    /// How many rows of the journal were handed out.
    pub fn given(&self) -> u64
        ensures { result ≡ self.now.given }
    {
        self.journal.given()
    }

    /// The rows of the journal that it holds, oldest first: behind those that were handed out.
    pub fn rows(&self) -> &[JournalRow]
        ensures rows { result.now ≡ drop self.now.given (rows_of self.now.history) }
        ensures all { self.now.given ≡ 0 → result.now ≡ rows_of self.now.history }
        ensures legal { IsLegal self.now.history }
    {
        self.journal.entries()
    }

    /// Hands out the rows of the journal that it holds, oldest first, and holds none until more come. All that were ever
    /// handed out, one behind another, and those that it holds are the journal.
    pub fn take_rows(&mut self) -> Vec<JournalRow>
        ensures rows { result.items ≡ drop self.old.given (rows_of self.old.history) }
        ensures history { self.new.history ≡ self.old.history }
        ensures given { self.new.given ≡ length (rows_of self.old.history) }
        ensures count { self.old.given + vec_len result ≡ length (rows_of self.old.history) }
        ensures fits { length (rows_of self.old.history) < 2 ^ 64 }
    {
        self.journal.take_rows()
    }

    /// Hands out to nobody the rows of the journal that it holds, and holds none until more come.
    #[inline(always)]
    pub fn forget_rows(&mut self)
        ensures history { self.new.history ≡ self.old.history }
        ensures given { self.new.given ≡ length (rows_of self.old.history) }
        ensures room { self.old.room ≤ self.new.room }
    {
        self.journal.forget_rows();
    }

    /// What allocates for it.
    pub fn alloc(&self) -> Global {
        *self.opening.allocator()
    }
}

/// Serves a call as the next event, and enters its rows. The replies to the waiting calls that it ended are appended to the list,
/// which has room for one of each call that waits. Memory comes where the journal has no room for the rows of the longest event,
/// or the call takes memory, and then nothing has changed but that the journal may have more room.
#[inline(always)]
fn enter(
    namespace: &mut Namespace,
    journal: &mut Journal,
    events: &mut u64,
    ended: &mut Vec<Completion>,
    others: &mut Vec<(u32, Reply)>,
    client: u32,
    now: u64,
    call: Call,
) -> Result<(u64, Option<Reply>), Memory>
    requires known { client < length namespace.old.clients }
    requires fresh { (number : ℕ) → attachment_at namespace.old.shared.attached namespace.old.next number ≡ None }
    requires free { waits namespace.old client ≡ false }
    requires quiet { AllByRecursion (λ w. is_ready namespace.old w ≡ false) namespace.old.parked }
    requires counted { events.old ≤ length journal.old.rows }
    requires empty { ended.old.items ≡ [] }
    requires ended_room { length namespace.old.parked < vec_capacity ended.old }
    requires others_room { vec_len others.old + length namespace.old.parked ≤ vec_capacity others.old }
    ensures place { IfOk result (λ told. told.0 ≡ events.old + 1) }
    ensures own { IfOk result (λ told. told.1 ≡ own_reply (events.old + 1) (step namespace.old (record { client = client; now = now; call = call })).own) }
    ensures state { OnOk result (namespace.new ≡ (step namespace.old (record { client = client; now = now; call = call })).state) }
    ensures counted { OnOk result (events.new ≡ events.old + 1) }
    ensures rows { OnOk result (journal.new.rows ≡ journal.old.rows
        ++ rows_by (events.old + 1) (record { client = client; now = now; call = call }) (step namespace.old (record { client = client; now = now; call = call }))) }
    ensures others { OnOk result (others.new.items ≡ others.old.items
        ++ other_replies (events.old + 1) (step namespace.old (record { client = client; now = now; call = call })).ended) }
    ensures room { OnOk result (journal.old.room + length journal.old.rows ≤ journal.new.room + length journal.new.rows) }
    ensures few { OnOk result (vec_len others.new ≤ vec_len others.old + length namespace.old.parked) }
    ensures cost { OnOk result (journal.old.room ≤ journal.new.room + (length namespace.old.parked + 2)) }
    ensures given { journal.new.given ≡ journal.old.given }
    ensures none { ended.new.items ≡ [] }
    ensures ended_kept { vec_capacity ended.old ≤ vec_capacity ended.new }
    ensures others_kept { vec_capacity others.old ≤ vec_capacity others.new }
    ensures err_state { OnErr result (namespace.new ≡ namespace.old) }
    ensures err_rows { OnErr result (journal.new.rows ≡ journal.old.rows) }
    ensures err_room { OnErr result (journal.old.room ≤ journal.new.room) }
    ensures err_counted { OnErr result (events.new ≡ events.old) }
    ensures err_others { OnErr result (others.new.items ≡ others.old.items) }
    ensures memory { OnErr result ((may_want_memory namespace.old call || nat_lt journal.old.room (length namespace.old.parked + 2)) ≡ true) }
{
    let outcome = match take_in(namespace, journal, events, ended, client, now, call) {
        Ok(outcome) => outcome,
        Err(memory) => return Err(memory),
    };
    let place = *events;
    let own = tell(journal, others, place, ended, client, outcome);
    Ok((place, own))
}

/// Serves a call as the next event, and enters its first row. Memory comes as `enter` says.
#[inline(always)]
fn take_in(
    namespace: &mut Namespace,
    journal: &mut Journal,
    events: &mut u64,
    ended: &mut Vec<Completion>,
    client: u32,
    now: u64,
    call: Call,
) -> Result<Option<Outcome>, Memory>
    requires known { client < length namespace.old.clients }
    requires fresh { (number : ℕ) → attachment_at namespace.old.shared.attached namespace.old.next number ≡ None }
    requires free { waits namespace.old client ≡ false }
    requires quiet { AllByRecursion (λ w. is_ready namespace.old w ≡ false) namespace.old.parked }
    requires counted { events.old ≤ length journal.old.rows }
    requires empty { ended.old.items ≡ [] }
    requires ended_room { length namespace.old.parked < vec_capacity ended.old }
    ensures own { IfOk result (λ own. own ≡ (step namespace.old (record { client = client; now = now; call = call })).own) }
    ensures state { OnOk result (namespace.new ≡ (step namespace.old (record { client = client; now = now; call = call })).state) }
    ensures ended { OnOk result (ended.new.items ≡ (step namespace.old (record { client = client; now = now; call = call })).ended) }
    ensures few { OnOk result (vec_len ended.new ≤ length namespace.old.parked) }
    ensures most { OnOk result (vec_len ended.new ≤ 4097) }
    ensures counted { OnOk result (events.new ≡ events.old + 1) }
    ensures rows { OnOk result (journal.new.rows ≡ journal.old.rows ++ Called client now call ∷ []) }
    ensures room { OnOk result (journal.old.room ≤ journal.new.room + 1) }
    ensures left { OnOk result (length namespace.old.parked < journal.new.room) }
    ensures given { journal.new.given ≡ journal.old.given }
    ensures none { OnErr result (ended.new.items ≡ []) }
    ensures ended_kept { vec_capacity ended.old ≤ vec_capacity ended.new }
    ensures err_state { OnErr result (namespace.new ≡ namespace.old) }
    ensures err_rows { OnErr result (journal.new.rows ≡ journal.old.rows) }
    ensures err_room { OnErr result (journal.old.room ≤ journal.new.room) }
    ensures err_counted { OnErr result (events.new ≡ events.old) }
    ensures memory { OnErr result ((may_want_memory namespace.old call || nat_lt journal.old.room (length namespace.old.parked + 2)) ≡ true) }
{
    if let Err(memory) = journal.reserve(namespace.most_ended() + 2) {
        drop(call);
        return Err(memory);
    }
    let place = *events + 1;
    let outcome = match namespace.serve(client, place, now, &call, ended) {
        Ok(outcome) => outcome,
        Err(memory) => {
            drop(call);
            return Err(memory);
        }
    };
    *events = place;
    journal.enter(JournalRow::Called { client, now, call });
    Ok(outcome)
}

/// Enters how the event's own call and the waiting calls ended, moves the replies to these to a list that has room, and gives the
/// reply to its own.
#[inline(always)]
fn tell(
    journal: &mut Journal,
    others: &mut Vec<(u32, Reply)>,
    place: u64,
    ended: &mut Vec<Completion>,
    client: u32,
    own: Option<Outcome>,
) -> Option<Reply>
    requires few { vec_len ended.old ≤ 4097 }
    requires journal_room { vec_len ended.old < journal.old.room }
    requires room { vec_len others.old + vec_len ended.old ≤ vec_capacity others.old }
    ensures rows { journal.new.rows ≡ journal.old.rows ++ map answered_row (reply_to_own client place own ++ replies_to_ended place 1 ended.old.items) }
    ensures given { journal.new.given ≡ journal.old.given }
    ensures journal_room { journal.old.room ≤ journal.new.room + (1 + vec_len ended.old) }
    ensures journal_kept { journal.old.room + length journal.old.rows ≤ journal.new.room + length journal.new.rows }
    ensures reply { result ≡ own_reply place own }
    ensures others { others.new.items ≡ others.old.items ++ other_replies place ended.old.items }
    ensures count { vec_len others.new ≤ vec_len others.old + vec_len ended.old }
    ensures others_kept { vec_capacity others.old ≤ vec_capacity others.new }
    ensures told { ended.new.items ≡ [] }
    ensures kept { vec_capacity ended.old ≤ vec_capacity ended.new }
{
    let reply = tell_own(journal, client, place, own);
    tell_others(journal, others, place, ended);
    reply
}

/// Makes room for so many in an empty list, of which all its capacity is room. Memory comes where a growth was refused.
#[inline(always)]
fn make_room<T>(list: &mut Vec<T>, count: usize) -> Result<(), Memory>
    requires empty { list.old.items ≡ [] }
    ensures empty { list.new.items ≡ [] }
    ensures room { OnOk result (count ≤ vec_capacity list.new) }
{
    if count <= list.capacity() {
        return Ok(());
    }
    list.reserve(count)
}

/// Enters how an event's own call ended, and gives the reply. A call that waits has none.
#[inline(always)]
fn tell_own(journal: &mut Journal, client: u32, place: u64, own: Option<Outcome>) -> Option<Reply>
    requires { 0 < journal.old.room }
    ensures rows { journal.new.rows ≡ journal.old.rows ++ map answered_row (reply_to_own client place own) }
    ensures given { journal.new.given ≡ journal.old.given }
    ensures room { journal.old.room ≤ journal.new.room + length (reply_to_own client place own) }
    ensures reply { result ≡ own_reply place own }
{
    let outcome = own?;
    journal.enter(answered(client, place, 0, &outcome));
    Some(Reply::Entered {
        place,
        turn: 0,
        outcome,
    })
}

/// Enters how the waiting calls ended that an event ended, and moves the replies to them to a list that has room.
#[inline(always)]
fn tell_others(
    journal: &mut Journal,
    others: &mut Vec<(u32, Reply)>,
    place: u64,
    ended: &mut Vec<Completion>,
)
    requires few { vec_len ended.old ≤ 4097 }
    requires journal_room { vec_len ended.old ≤ journal.old.room }
    requires room { vec_len others.old + vec_len ended.old ≤ vec_capacity others.old }
    ensures rows { journal.new.rows ≡ journal.old.rows ++ map answered_row (replies_to_ended place 1 ended.old.items) }
    ensures given { journal.new.given ≡ journal.old.given }
    ensures journal_room { journal.old.room ≤ journal.new.room + vec_len ended.old }
    ensures others { others.new.items ≡ others.old.items ++ other_replies place ended.old.items }
    ensures room { vec_capacity others.old ≤ vec_capacity others.new }
    ensures told { ended.new.items ≡ [] }
    ensures kept { vec_capacity ended.old ≤ vec_capacity ended.new }
{
    if !ended.is_empty() {
        tell_each(journal, others, place, ended);
    }
}

/// The same, where there is one.
#[inline(never)]
fn tell_each(
    journal: &mut Journal,
    others: &mut Vec<(u32, Reply)>,
    place: u64,
    ended: &mut Vec<Completion>,
)
    requires few { vec_len ended.old ≤ 4097 }
    requires journal_room { vec_len ended.old ≤ journal.old.room }
    requires room { vec_len others.old + vec_len ended.old ≤ vec_capacity others.old }
    ensures rows { journal.new.rows ≡ journal.old.rows ++ map answered_row (replies_to_ended place 1 ended.old.items) }
    ensures given { journal.new.given ≡ journal.old.given }
    ensures journal_room { journal.old.room ≤ journal.new.room + vec_len ended.old }
    ensures others { others.new.items ≡ others.old.items ++ other_replies place ended.old.items }
    ensures room { vec_capacity others.old ≤ vec_capacity others.new }
    ensures told { ended.new.items ≡ [] }
    ensures kept { vec_capacity ended.old ≤ vec_capacity ended.new }
{
    let mut turn = 1;
    for completion in ended.drain(..) {
        let Completion { client, outcome } = completion;
        journal.enter(answered(client, place, turn, &outcome));
        let reply = Reply::Entered {
            place,
            turn,
            outcome,
        };
        others.push((client, reply)).unwrap();
        turn += 1;
    }
}

/// Gives away the replies, where there are any, and then leaves a list without room.
#[inline(always)]
fn give_away(others: &mut Vec<(u32, Reply)>) -> Vec<(u32, Reply)>
    ensures all { result.items ≡ others.old.items }
    ensures none { others.new.items ≡ [] }
{
    let none = Vec::new(*others.allocator());
    if others.is_empty() {
        return none;
    }
    mem::replace(others, none)
}

/// The row of an answer.
#[inline(always)]
fn answered(client: u32, place: u64, turn: u32, outcome: &Outcome) -> JournalRow
    ensures { result ≡ answered_row (record { client = client; place = place; turn = turn; outcome = outcome.now }) }
{
    JournalRow::Answered {
        client,
        place,
        turn,
        rule: refusal(outcome),
    }
}

/// The rule that refused the call, None where it was served.
#[inline(always)]
fn refusal(outcome: &Outcome) -> Option<Rule>
    ensures { result ≡ rule_in outcome.now }
{
    match outcome {
        Ok(_) => None,
        Err(rule) => Some(*rule),
    }
}
