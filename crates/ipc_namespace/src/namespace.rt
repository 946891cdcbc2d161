// The state of a namespace, and how one event changes it.

ghost use Rattle.std.specs.Prelude.{◌≡◌, ◌+◌, ◌<◌, ◌≤◌, ℕ, true, false, not, [], ◌∷◌, ◌++◌, length, vec_len, vec_capacity, IsTrue, IfOk, IfSome, IfNone, IsSome, OnOk, OnErr, Err, is_some, option_map, Some, None};
ghost use Rattle.ipc_call.specs.Limits.{are_in_range};
ghost use Rattle.ipc_model.specs.State.{opening, has_exited as exited_before, is_waiting as waits, waiting_of};
ghost use Rattle.ipc_model.specs.Decision.{left_by, outcome_of};
ghost use Rattle.ipc_model.specs.Decide.{begins as call_begins, decide_alive as decision_alive, decide_call as decision_made, deadline_of, is_reached, may_call, waits_as, waits_at};
ghost use Rattle.std.specs.List.{AllByRecursion, find};
ghost use Rattle.ipc_parked.specs.Parked.{AreApart};
ghost use Rattle.shm_seg.specs.Attachments.{attachment_at};
ghost use Rattle.ipc_parked.specs.Touched.{is_touched};
ghost use Rattle.ipc_model.specs.Step.{Moved as MovedTo, after, expire, is_ready, first_ready as first_that_is_ready, end_waiting, enter as enters, moved_by, settled, step, without};
ghost use Rattle.ipc_namespace.specs.Namespace.{decide_made, is_grant, is_on_waiting as is_on_waiting_by, left_alive, left_made, sent_to as call_sent_to, stands, AreQuietBut};
ghost use Rattle.ipc_model.specs.Decision.{without_answer};
ghost use Rattle.ipc_namespace.specs.Wanting.{may_want_memory};

use crate::callers::caller_of;
use crate::reserving::{release_in, reserve_in, reserve_row, sent_to};
use crate::semaphore_calls::Awaited;
use ipc_call::{
    Answer, Call, Completion, Get, Limits, Memory, Outcome, Receive, Rule, Sending, Settings,
};
use ipc_creds::Creds;
use ipc_parked::{Arrival, Parked, Touched};
use msg_calls::Queues;
use process_table::ProcessTable;
use sem_calls::Sets;
use shm_calls::Segments;
use std::marker::Model;

/// The state of a namespace: its objects, its clients, its clock in seconds, and the calls that wait
/// in order of arrival.
#[derive(Debug, Drop)]
pub struct Namespace {
    pub(super) limits: Limits,
    pub(super) clients: Vec<Creds>,
    /// What each client is a thread of.
    pub(super) processes: ProcessTable,
    pub(super) clock: u64,
    pub(super) queues: Queues,
    pub(super) sets: Sets,
    pub(super) segments: Segments,
    pub(super) parked: Parked,
}

impl Model for Namespace {
    ghost use Rattle.std.specs.Prelude.{◌≡◌, ◌≤◌, length, vec_len};
    ghost use Rattle.std.specs.FinMap as map;
    ghost use Rattle.std.specs.Coded.{codes};
    ghost use Rattle.msg_calls.specs.WithRoom.{queues_of};
    ghost use Rattle.sem_calls.specs.WithRows.{sems_of};
    ghost use Rattle.ipc_model.specs.State.{State};
    ghost use Rattle.ipc_parked.specs.Parked.{waiting};
    ghost use Rattle.ipc_namespace.specs.Namespace.{AreHeld, AreParked, IsReserved};

    ghost Value = { State };

    ghost coded = { Prim.hlevel (codes, map.code) };

    ghost view = { λ n. record {
      limits = n.limits;
      clients = n.clients.items;
      threads = n.processes.threads;
      next = n.processes.next;
      clock = n.clock;
      queues = queues_of n.queues;
      sems = sems_of n.sets;
      shared = n.segments;
      parked = waiting n.parked;
    } };

    ghost invariant = { λ n. ((vec_len n.clients ≤ 4096) × (length n.processes.threads ≡ vec_len n.clients)) × AreParked (length n.clients.items) (waiting n.parked) × IsReserved n.queues (waiting n.parked) × AreHeld n.sets n.processes.threads (waiting n.parked) };
}

impl Namespace {
    /// A namespace before its first event, of at most 4,096 clients.
    pub fn new(limits: Limits, clients: Vec<Creds>) -> Result<Namespace, Memory>
        requires limits { IsTrue (are_in_range limits) }
        requires few { vec_len clients ≤ 4096 }
        ensures { IfOk result (λ namespace. namespace ≡ opening limits clients.items) }
    {
        let alloc = *clients.allocator();
        let processes = ProcessTable::new(alloc, clients.as_slice())?;
        Ok(Namespace {
            limits,
            clients,
            processes,
            clock: 0,
            queues: Queues::new(alloc, limits.queues, limits.first_seq),
            sets: Sets::new(alloc, limits.sets, limits.first_seq),
            segments: Segments::new(alloc, limits.segments, limits.first_seq),
            parked: Parked::new(alloc),
        })
    }

    /// How many clients there are, at most 4,096.
    pub fn clients(&self) -> u32
        ensures count { result ≡ length self.now.clients }
        ensures few { result ≤ 4096 }
    {
        self.clients.len() as u32
    }

    /// Whether a call of the client waits.
    pub fn is_waiting(&self, client: u32) -> bool
        ensures { result ≡ waits self.now client }
    {
        self.parked.is_waiting(client)
    }

    /// The clock, in seconds.
    pub fn clock(&self) -> u64
        ensures { result ≡ self.now.clock }
    {
        self.clock
    }

    /// How many waiting calls an event may end: those that wait, at most 4,096.
    pub fn most_ended(&self) -> usize
        ensures count { result ≡ length self.now.parked }
        ensures few { result ≤ 4096 }
    {
        self.parked.len()
    }

    /// One event: the clock moves on, the waiting calls end whose deadline it reaches, the call is refused, granted or
    /// made to wait, and the waiting calls that can proceed end. The client has no call that waits, and no waiting call is
    /// ready: so only a call that is granted ends others than by their deadline. The answer is the outcome of the event's
    /// own call, None where that waits; the waiting calls that ended stand in their order in `ended`, an empty list with
    /// room for each that waits and for the event's own. The error comes only where an allocation fails, or 2^64 processes
    /// have come, and then nothing has changed.
    pub fn serve(
        &mut self,
        client: u32,
        place: u64,
        now: u64,
        call: &Call,
        ended: &mut Vec<Completion>,
    ) -> Result<Option<Outcome>, Memory>
        requires known { client < length self.old.clients }
        requires fresh { (number : ℕ) → attachment_at self.old.shared.attached self.old.next number ≡ None }
        requires free { waits self.old client ≡ false }
        requires quiet { AllByRecursion (λ w. is_ready self.old w ≡ false) self.old.parked }
        requires empty { ended.old.items ≡ [] }
        requires space { length self.old.parked < vec_capacity ended.old }
        ensures ok { IfOk result (λ own. step self.old (record { client = client; now = now; call = call.now })
            ≡ record { state = self.new; own = own; ended = ended.new.items }) }
        ensures few { OnOk result (vec_len ended.new ≤ length self.old.parked) }
        ensures limits { self.new.limits ≡ self.old.limits }
        ensures clients { length self.new.clients ≡ length self.old.clients }
        ensures err { OnErr result (self.new ≡ self.old) }
        ensures memory { OnErr result (may_want_memory self.old call.now ≡ true) }
        ensures none { OnErr result (ended.new.items ≡ []) }
        ensures room { vec_capacity ended.old ≤ vec_capacity ended.new }
    {
        let clock = self.clock;
        self.clock = clock.max(now);
        let served = self.enter(client, place, call, ended);
        if served.is_err() {
            self.clock = clock;
        }
        served
    }

    /// The waiting calls end whose deadline is reached; then the call is refused or granted, or made to wait. Where it is
    /// granted, the waiting calls end that it cancels, and then those that can proceed.
    #[inline(always)]
    fn enter(
        &mut self,
        client: u32,
        place: u64,
        call: &Call,
        ended: &mut Vec<Completion>,
    ) -> Result<Option<Outcome>, Memory>
        requires known { client < length self.old.clients }
        requires fresh { (number : ℕ) → attachment_at self.old.shared.attached self.old.next number ≡ None }
        requires free { waits self.old client ≡ false }
        requires quiet { first_that_is_ready self.old ≡ None }
        requires empty { ended.old.items ≡ [] }
        requires space { length self.old.parked < vec_capacity ended.old }
        ensures ok { IfOk result (λ own. after (expire self.old).ended (enters (expire self.old).state client call.now) ≡ record { state = self.new; own = own; ended = ended.new.items }) }
        ensures few { OnOk result (vec_len ended.new ≤ length self.old.parked) }
        ensures space { vec_capacity ended.old ≤ vec_capacity ended.new }
        ensures err { OnErr result (self.new ≡ self.old) }
        ensures memory { OnErr result (may_want_memory self.old call.now ≡ true) }
        ensures none { OnErr result (ended.new.items ≡ []) }
    {
        let Some(touched) = self.touched_by(client, call) else {
            return self.enter_several(client, place, call, ended);
        };
        let own = self.carry_out(client, place, call, ended)?;
        if is_granted(&own) {
            self.settle(touched, ended);
        }
        Ok(own)
    }

    /// The same but for the waiting calls that can proceed. The error comes only where an allocation fails, and then
    /// nothing has changed: so calls that take memory are served before those end whose deadline is reached, which
    /// doesn't matter to them.
    #[inline(always)]
    pub(super) fn carry_out(
        &mut self,
        client: u32,
        place: u64,
        call: &Call,
        ended: &mut Vec<Completion>,
    ) -> Result<Option<Outcome>, Memory>
        requires known { client < length self.old.clients }
        requires fresh { (number : ℕ) → attachment_at self.old.shared.attached self.old.next number ≡ None }
        requires free { waits self.old client ≡ false }
        requires empty { ended.old.items ≡ [] }
        requires space { length self.old.parked < vec_capacity ended.old }
        ensures own { IfOk result (λ own. own ≡ outcome_of (decision_made (expire self.old).state client call.now)) }
        ensures state { OnOk result (self.new ≡ (moved_by (expire self.old).state client call.now).state) }
        ensures ended { OnOk result (ended.new.items ≡ (expire self.old).ended ++ (moved_by (expire self.old).state client call.now).ended) }
        ensures few { IfOk result (λ own. IfSome own (λ _. vec_len ended.new + length self.new.parked ≡ length self.old.parked)) }
        ensures less { OnOk result (vec_len ended.new ≤ length self.old.parked) }
        ensures space { vec_capacity ended.old ≤ vec_capacity ended.new }
        ensures err { OnErr result (self.new ≡ self.old) }
        ensures memory { OnErr result (may_want_memory self.old call.now ≡ true) }
        ensures none { OnErr result (ended.new.items ≡ []) }
    {
        if self.is_over(client, call) {
            self.expire(ended);
            return Ok(Some(Err(Rule::Ended)));
        }
        if is_on_waiting(call) {
            self.expire(ended);
            return Ok(Some(self.serve_on_waiting(client, call, ended)));
        }
        let own = self.carry_out_alone(client, place, call)?;
        self.expire(ended);
        Ok(own)
    }

    /// Whether the client's thread has ended, and the call isn't one by which it begins anew.
    #[inline(always)]
    fn is_over(&self, client: u32, call: &Call) -> bool
        ensures { result ≡ not (may_call self.now client call.now) }
    {
        self.has_exited(client) && !begins(call)
    }

    /// Serves a call that ends no waiting call and doesn't look at them, of a client that may call.
    #[inline(always)]
    fn carry_out_alone(
        &mut self,
        client: u32,
        place: u64,
        call: &Call,
    ) -> Result<Option<Outcome>, Memory>
        requires known { client < length self.old.clients }
        requires fresh { (number : ℕ) → attachment_at self.old.shared.attached self.old.next number ≡ None }
        requires free { waits self.old client ≡ false }
        requires may { may_call self.old client call.now ≡ true }
        requires alone { is_on_waiting_by call.now ≡ false }
        ensures own { IfOk result (λ own. own ≡ outcome_of (decide_made self.old client call.now)) }
        ensures state { OnOk result (self.new ≡ left_made self.old client call.now) }
        ensures err { OnErr result (self.new ≡ self.old) }
        ensures memory { OnErr result (may_want_memory self.old call.now ≡ true) }
    {
        match self.grant_or_refuse(client, call)? {
            Some(outcome) => Ok(Some(outcome)),
            None => self.wait(client, place, call),
        }
    }

    /// Makes the call wait, on which that was decided, or refuses it where its deadline isn't above the clock.
    #[inline(never)]
    fn wait(&mut self, client: u32, place: u64, call: &Call) -> Result<Option<Outcome>, Memory>
        requires known { client < length self.old.clients }
        requires free { waits self.old client ≡ false }
        requires alive { exited_before self.old client ≡ false }
        requires waits { outcome_of (decision_alive self.old client call.now) ≡ None }
        ensures own { IfOk result (λ own. own ≡ outcome_of (decide_made self.old client call.now)) }
        ensures state { OnOk result (self.new ≡ left_made self.old client call.now) }
        ensures err { OnErr result (self.new ≡ self.old) }
    {
        let deadline = deadline_after(self.clock, call);
        if deadline.is_some_and(|deadline| deadline <= self.clock) {
            return Ok(Some(Err(Rule::TimedOut)));
        }
        let arrival = Arrival {
            place,
            call: as_it_waits(call)?,
            deadline,
        };
        self.park(client, arrival)?;
        Ok(None)
    }

    /// Serves a call that counts waiting calls or may end them, of a client that hasn't ended. It takes no memory. There
    /// is room for each that waits in the list of those that ended.
    #[inline(never)]
    fn serve_on_waiting(&mut self, client: u32, call: &Call, ended: &mut Vec<Completion>) -> Outcome
        requires known { client < length self.old.clients }
        requires free { waits self.old client ≡ false }
        requires alive { exited_before self.old client ≡ false }
        requires on_waiting { is_on_waiting_by call.now ≡ true }
        requires space { vec_len ended.old + length self.old.parked ≤ vec_capacity ended.old }
        ensures own { outcome_of (decision_alive self.old client call.now) ≡ Some result }
        ensures state { self.new ≡ (left_alive self.old client call.now).state }
        ensures ended { ended.new.items ≡ ended.old.items ++ (left_alive self.old client call.now).ended }
        ensures few { vec_len ended.new + length self.new.parked ≡ vec_len ended.old + length self.old.parked }
        ensures space { vec_capacity ended.old ≤ vec_capacity ended.new }
    {
        match call {
            Call::GetNcnt { id, num } => self.count(client, *id, *num, Awaited::Rise),
            Call::GetZcnt { id, num } => self.count(client, *id, *num, Awaited::Zero),
            Call::IpcSet {
                kind,
                id,
                uid,
                gid,
                mode,
                qbytes,
            } => {
                let new = Settings {
                    uid: *uid,
                    gid: *gid,
                    mode: *mode,
                    qbytes: *qbytes,
                };
                self.set(client, *kind, *id, new, ended)
            }
            Call::IpcRmid { kind, id } => self.remove(client, *kind, *id, ended),
            Call::Interrupt { pid } => self.interrupt(client, *pid, ended),
            Call::InterruptThread { client: target } => {
                self.interrupt_thread(client, *target, ended)
            }
            Call::Kill { pid } => self.kill(client, *pid, ended),
            Call::Exec => self.exec(client, ended),
            _ => unreachable!(),
        }
    }

    /// Refuses or grants a call that ends no waiting call and doesn't look at them. None where it is to wait, and then
    /// nothing has changed.
    #[inline(always)]
    fn grant_or_refuse(&mut self, client: u32, call: &Call) -> Result<Option<Outcome>, Memory>
        requires known { client < length self.old.clients }
        requires fresh { (number : ℕ) → attachment_at self.old.shared.attached self.old.next number ≡ None }
        requires free { waits self.old client ≡ false }
        requires may { may_call self.old client call.now ≡ true }
        requires alone { is_on_waiting_by call.now ≡ false }
        ensures own { IfOk result (λ own. own ≡ outcome_of (decision_alive self.old client call.now)) }
        ensures state { OnOk result (self.new ≡ left_by self.old (decision_alive self.old client call.now)) }
        ensures err { OnErr result (self.new ≡ self.old) }
        ensures memory { OnErr result (may_want_memory self.old call.now ≡ true) }
    {
        match call {
            Call::MsgSnd {
                id,
                mtype,
                text,
                flags,
            } => self.msgsnd(client, *id, *mtype, text, *flags),
            Call::MsgRcv {
                id,
                size,
                msgtyp,
                flags,
            } => {
                let asked = Receive {
                    size: *size,
                    msgtyp: *msgtyp,
                    flags: *flags,
                };
                self.msgrcv(client, *id, asked)
            }
            Call::SemOp { id, ops } => self.semop(client, *id, ops),
            Call::SemTimedOp { id, ops, .. } => self.semop(client, *id, ops),
            _ => self.answer(client, call),
        }
    }

    /// Refuses or grants a call that never waits, ends no waiting call and doesn't look at them. The error comes only where
    /// an allocation fails, and then nothing has changed.
    fn answer(&mut self, client: u32, call: &Call) -> Result<Option<Outcome>, Memory>
        requires known { client < length self.old.clients }
        requires fresh { (number : ℕ) → attachment_at self.old.shared.attached self.old.next number ≡ None }
        requires free { waits self.old client ≡ false }
        requires may { may_call self.old client call.now ≡ true }
        requires alone { is_on_waiting_by call.now ≡ false }
        requires at_once { waits_at call.now ≡ None }
        ensures own { IfOk result (λ own. own ≡ outcome_of (decision_alive self.old client call.now)) }
        ensures state { OnOk result (self.new ≡ left_by self.old (decision_alive self.old client call.now)) }
        ensures err { OnErr result (self.new ≡ self.old) }
        ensures memory { OnErr result (may_want_memory self.old call.now ≡ true) }
    {
        let outcome = match call {
            Call::MsgGet { key, flags } => {
                let asked = Get {
                    key: *key,
                    flags: *flags,
                };
                self.msgget(client, asked)
            }
            Call::SemGet { .. }
            | Call::GetVal { .. }
            | Call::GetPid { .. }
            | Call::GetAll { .. }
            | Call::SetVal { .. }
            | Call::SetAll { .. } => self.on_sets(client, call),
            Call::ShmGet { .. }
            | Call::ShmAt { .. }
            | Call::ShmDt { .. }
            | Call::ShmRead { .. }
            | Call::ShmWrite { .. } => self.on_segments(client, call),
            Call::IpcStat { kind, id } => self.stat(client, *kind, *id),
            Call::Listing { kind } => self.list(client, *kind),
            Call::SetCreds { euid, egid, groups } => {
                Ok(self.set_creds(client, *euid, *egid, groups))
            }
            Call::Assume { creds } => Ok(self.assume(client, creds.get())),
            Call::Begin { pid, creds } => self.begin(client, *pid, creds.get()),
            Call::Fork { child, pid } => self.fork(client, *child, *pid),
            Call::Clone { child } => Ok(self.clone(client, *child)),
            Call::Name { pid } => Ok(self.name(client, *pid)),
            Call::Exit => Ok(self.exit(client)),
            _ => unreachable!(),
        }?;
        Ok(Some(outcome))
    }

    /// Ends the waiting calls whose deadline is reached, the earliest first. There is room for each in the list of those
    /// that ended.
    #[inline(always)]
    fn expire(&mut self, ended: &mut Vec<Completion>)
        requires { vec_len ended.old + length self.old.parked ≤ vec_capacity ended.old }
        ensures state { self.new ≡ (expire self.old).state }
        ensures ended { ended.new.items ≡ ended.old.items ++ (expire self.old).ended }
        ensures few { vec_len ended.new + length self.new.parked ≡ vec_len ended.old + length self.old.parked }
        ensures room { vec_capacity ended.old ≤ vec_capacity ended.new }
    {
        if self.first_due().is_some() {
            self.expire_due(ended);
        }
    }

    /// The same, where there is one.
    #[cold]
    #[inline(never)]
    fn expire_due(&mut self, ended: &mut Vec<Completion>)
        requires { vec_len ended.old + length self.old.parked ≤ vec_capacity ended.old }
        ensures state { self.new ≡ (expire self.old).state }
        ensures ended { ended.new.items ≡ ended.old.items ++ (expire self.old).ended }
        ensures few { vec_len ended.new + length self.new.parked ≡ vec_len ended.old + length self.old.parked }
        ensures room { vec_capacity ended.old ≤ vec_capacity ended.new }
    {
        while let Some(client) = self.first_due() {
            let ending = self.end_as(client, Err(Rule::TimedOut));
            ended.push(ending).unwrap();
        }
    }

    /// The client of the earliest waiting call whose deadline is reached.
    #[inline(always)]
    fn first_due(&self) -> Option<u32>
        ensures first { result ≡ option_map (λ w. w.client) (find (λ w. is_reached self.now.clock w.deadline) self.now.parked) }
        ensures waits { IfSome result (λ client. waits self.now client ≡ true) }
        ensures apart { IfSome result (λ _. AreApart self.now.parked) }
    {
        self.parked.due(self.clock)
    }

    /// Makes the call wait, as the last, on which that was decided. What its completion needs is made here. Memory
    /// comes where a growth was refused, and then nothing has changed.
    pub(super) fn park(&mut self, client: u32, arrival: Arrival) -> Result<(), Memory>
        requires known { client < length self.old.clients }
        requires free { waits self.old client ≡ false }
        requires alive { exited_before self.old client ≡ false }
        requires waits { outcome_of (decision_alive self.old client arrival.call) ≡ None }
        requires as_semop { stands arrival.call ≡ true }
        ensures ok { OnOk result (self.new ≡ record self.old { parked = self.old.parked ++ record { client = client; call = arrival.call; deadline = arrival.deadline } ∷ [] }) }
        ensures err { OnErr result (self.new ≡ self.old) }
    {
        let process = self.process_of(client);
        reserve_row(&mut self.sets, process, &arrival.call)?;
        let queue = sent_to(&arrival.call);
        reserve_in(&mut self.queues, queue)?;
        let parked = self.parked.park(client, arrival);
        if parked.is_err() {
            release_in(&mut self.queues, queue);
        }
        parked
    }

    /// Ends the waiting calls that can proceed after the grant of a call that touched these, the earliest first, until none can. There is room
    /// for each in the list of those that ended.
    #[inline(always)]
    fn settle(&mut self, touched: Touched, ended: &mut Vec<Completion>)
        requires quiet { AreQuietBut (is_touched touched) self.old }
        requires room { vec_len ended.old + length self.old.parked ≤ vec_capacity ended.old }
        ensures state { self.new ≡ (settled self.old).state }
        ensures ended { ended.new.items ≡ ended.old.items ++ (settled self.old).ended }
        ensures few { vec_len ended.new ≤ vec_len ended.old + length self.old.parked }
        ensures space { vec_capacity ended.old ≤ vec_capacity ended.new }
    {
        if self.parked.may_be_touched(touched) {
            self.settle_touched(touched, ended);
        }
    }

    /// Ends the waiting calls that can proceed, the earliest first, until none can: at first only those that were touched
    /// can, and a call that ends touches no others. There is room for each in the list of those that ended.
    fn settle_touched(&mut self, touched: Touched, ended: &mut Vec<Completion>)
        requires quiet { AreQuietBut (is_touched touched) self.old }
        requires room { vec_len ended.old + length self.old.parked ≤ vec_capacity ended.old }
        ensures state { self.new ≡ (settled self.old).state }
        ensures ended { ended.new.items ≡ ended.old.items ++ (settled self.old).ended }
        ensures few { vec_len ended.new ≤ vec_len ended.old + length self.old.parked }
        ensures space { vec_capacity ended.old ≤ vec_capacity ended.new }
    {
        while let Some(completion) = self.complete_first(touched) {
            ended.push(completion).unwrap();
        }
    }

    /// Ends the earliest waiting call that can proceed. None where none can. Only those that were touched are tried.
    fn complete_first(&mut self, touched: Touched) -> Option<Completion>
        requires quiet { AreQuietBut (is_touched touched) self.old }
        ensures first { option_map (end_waiting self.old) (first_that_is_ready self.old) ≡ option_map {U = MovedTo} (λ ended. record { state = self.new; ended = ended ∷ [] }) result }
        ensures none { IfNone result (self.new ≡ self.old) }
        ensures shorter { IfSome result (λ _. length self.new.parked + 1 ≡ length self.old.parked) }
    {
        for index in 0..self.parked.len() {
            let client = self.parked.nth_touched(touched, index)?;
            if let Some(completion) = self.try_waiting(client) {
                return Some(completion);
            }
        }
        None
    }

    /// Tries the client's waiting call. Where it no longer waits it leaves the list, refused or carried out. It takes no
    /// memory: what it needs was made when it began to wait.
    #[tactic(auto, unfolding(ipc_model::specs::Decide::part_plan))]
    pub(super) fn try_waiting(&mut self, client: u32) -> Option<Completion>
        requires { waits self.old client ≡ true }
        ensures ready { IfSome (waiting_of self.old client) (λ w. is_some result ≡ is_ready self.old w) }
        ensures ended { IfSome (waiting_of self.old client) (λ w. IfSome result (λ ended. end_waiting self.old w ≡ record { state = self.new; ended = ended ∷ [] })) }
        ensures none { IfNone result (self.new ≡ self.old) }
        ensures shorter { IfSome result (λ _. length self.new.parked + 1 ≡ length self.old.parked) }
    {
        let call = self.parked.call_of(client);
        let who = caller_of(&self.clients, self.processes.threads(), client, self.clock);
        match call {
            Call::MsgSnd {
                id,
                mtype,
                text,
                flags,
            } => {
                let asked = Sending {
                    mtype: *mtype,
                    len: text.len(),
                    flags: *flags,
                };
                let decided = self.queues.decide_send(&self.limits, &who, *id, asked)?;
                Some(self.end_send(client, decided))
            }
            Call::MsgRcv {
                id,
                size,
                msgtyp,
                flags,
            } => {
                let asked = Receive {
                    size: *size,
                    msgtyp: *msgtyp,
                    flags: *flags,
                };
                let outcome = self.queues.msgrcv(&who, *id, asked)?;
                Some(self.end_as(client, outcome))
            }
            Call::SemOp { id, ops } => {
                let outcome = self
                    .sets
                    .semop_reserved(&self.limits, &who, *id, ops.as_slice())?;
                Some(self.end_as(client, outcome))
            }
            _ => unreachable!(),
        }
    }

    /// Ends the client's waiting msgsnd as was decided on it: it leaves the list, and its message goes to the queue in
    /// the place that was reserved for it, or the place is given back.
    #[tactic(auto, unfolding(ipc_model::specs::Decide::part_plan))]
    fn end_send(&mut self, client: u32, decided: Result<(), Rule>) -> Completion
        requires waits { waits self.old client ≡ true }
        requires alive { exited_before self.old client ≡ false }
        requires sends { IfSome (waiting_of self.old client) (λ w. IsSome (call_sent_to w.call)) }
        requires decided { IfSome (waiting_of self.old client) (λ w. without_answer (decision_alive (without self.old client) client w.call) ≡ Some decided) }
        ensures ended { IfSome (waiting_of self.old client) (λ w. end_waiting self.old w ≡ record { state = self.new; ended = result ∷ [] }) }
        ensures shorter { length self.new.parked + 1 ≡ length self.old.parked }
    {
        if let Err(rule) = decided {
            return self.end_as(client, Err(rule));
        }
        let Call::MsgSnd {
            id,
            mtype,
            text,
            ..
        } = self.parked.finish(client)
        else {
            unreachable!()
        };
        let who = caller_of(&self.clients, self.processes.threads(), client, self.clock);
        self.queues.send_reserved(&who, id, mtype, text);
        Completion {
            client,
            outcome: Ok(Answer::Done),
        }
    }

    /// Ends the client's waiting call so: it leaves the list, and what was reserved for it is given back.
    pub(super) fn end_as(&mut self, client: u32, outcome: Outcome) -> Completion
        requires { waits self.old client ≡ true }
        ensures state { self.new ≡ without self.old client }
        ensures shorter { length self.new.parked + 1 ≡ length self.old.parked }
        ensures ended { result ≡ record { client = client; outcome = outcome } }
    {
        let call = self.parked.finish(client);
        release_in(&mut self.queues, sent_to(&call));
        Completion { client, outcome }
    }
}

/// Whether the call counts waiting calls or may end them.
fn is_on_waiting(call: &Call) -> bool
    ensures { result ≡ is_on_waiting_by call.now }
{
    matches!(
        call,
        Call::GetNcnt { .. }
            | Call::GetZcnt { .. }
            | Call::IpcSet { .. }
            | Call::IpcRmid { .. }
            | Call::Interrupt { .. }
            | Call::InterruptThread { .. }
            | Call::Kill { .. }
            | Call::Exec
    )
}

/// Whether it is a call by which a client begins whose thread has ended.
fn begins(call: &Call) -> bool
    ensures { result ≡ call_begins call.now }
{
    matches!(call, Call::Begin { .. })
}

/// As what a call waits.
fn as_it_waits(call: &Call) -> Result<Call, Memory>
    ensures { IfOk result (λ waiting. waiting ≡ waits_as call.now) }
{
    match call {
        Call::SemTimedOp { id, ops, .. } => Ok(Call::SemOp {
            id: *id,
            ops: ops.copy()?,
        }),
        _ => call.copy(),
    }
}

/// The second of the clock at which a call that is made to wait now ends.
fn deadline_after(now: u64, call: &Call) -> Option<u64>
    ensures { result ≡ deadline_of now call.now }
{
    match call {
        Call::SemTimedOp { timeout, .. } => Some(now.saturating_add(*timeout)),
        _ => None,
    }
}

/// Whether a call ended so that it was granted.
pub(super) fn is_granted(own: &Option<Outcome>) -> bool
    ensures { result ≡ is_grant own.now }
{
    matches!(own, Some(Ok(_)))
}
