//! What is true of every history of a namespace, whoever calls what in which order. Each law is a function
//! that does nothing: what it ensures is the law.

ghost use Rattle.std.specs.Prelude.{◌≡◌, ◌==◌, ◌↔◌, ℕ, ◌+◌, ◌<◌, ◌≤◌, true, [], length, Some, None, Ok, Err, All, if◌then◌else◌};
ghost use Rattle.std.specs.List.{IsDistinct};
ghost use Rattle.ipc_call.specs.Limits.{are_in_range};
ghost use Rattle.ipc_call.specs.declared.calls.Kind.{Kind as KindOf};
ghost use Rattle.ipc_call.specs.declared.rules.Rule.{Rule as RuleOf};
ghost use Rattle.ipc_call.specs.declared.replies.Answer.{Answer as AnswerOf};
ghost use Rattle.ipc_history.specs.Access.{AreMet, EndedByRights, IsDenied, caller_of, checks_of, needs_of};
ghost use Rattle.ipc_model.specs.Decide.{can_wait};
ghost use Rattle.ipc_model.specs.Plan.{is_denial};
ghost use Rattle.ipc_model.specs.Step.{Event, Stepped, at_time, begun, expire};
ghost use Rattle.ipc_model.specs.State.{is_waiting};
ghost use Rattle.ipc_history.specs.History.{History, IsLegal, run, own, replies, with_event, next_step};
ghost use Rattle.ipc_space.specs.Answers.{can_give, is_end_of};
ghost use Rattle.ipc_space.specs.Telling.{replies_of, replies_in};
ghost use Rattle.ipc_history.specs.Made.{made};
ghost use Rattle.ipc_model.specs.Segments.{AreAttached};
ghost use Rattle.ipc_history.specs.Waits.{AreNotReady, ArePermitted, WaitOnce};

pub use ipc_laws::{
    new_processes_are_fresh, processes_are_tidy, segments_end_by_few_calls,
    settling_reads_deadlines, two_worlds, waiting_calls_are_in_time, waiting_calls_are_of_threads,
};

/// No identifier is given to two objects of one kind: of the objects of a kind that the events of a history
/// made, each has another identifier than all before it. A get that finds its key makes none. That an
/// identifier is never used again is the project's own.
pub fn ids_once()
    ensures { (kind : KindOf) (h : History) → are_in_range h.limits ≡ true → IsLegal h → IsDistinct (λ a b. a == b) (made kind h) }
{}

/// A call that is refused moves the clock on, which ends the calls whose deadline is reached, and changes nothing else: no
/// object, and no other call that waits.
pub fn refused_calls_change_nothing()
    ensures { (h : History) (e : Event) (rule : RuleOf) → IsLegal h → (next_step h e).own ≡ Some (Err rule)
        → next_step h e ≡ record { state = begun (run h) e.now; own = Some (Err rule); ended = (expire (at_time (run h) e.now)).ended } }
{}

/// No waiting call is ready or unpermitted after a call: after every history each call that waits would still
/// wait if it came now, and its client has the rights on the object that it needs.
pub fn waiting_calls_are_permitted_and_not_ready()
    ensures not_ready { (h : History) → AreNotReady (run h) }
    ensures permitted { (h : History) → ArePermitted (run h) }
{}

/// No client waits twice, after every legal history.
pub fn no_client_waits_twice()
    ensures { (h : History) → IsLegal h → WaitOnce (run h) }
{}

/// After every history each segment that is marked for removal has an attachment: one that is removed goes at once where
/// nobody has it attached, and else with its last attachment (IPC_RMID of shmctl(2)).
pub fn marked_segments_are_attached()
    ensures { (h : History) → AreAttached (run h).shared }
{}

/// A granted call's needs were met, and a denial is answered exactly where every check before it passed and its need
/// failed. So it is of a waiting call that an event ends, by the permissions and the credentials that the event leaves: its
/// needs are met where it is granted, and where it is denied its need fails and every check before it passes.
pub fn access()
    ensures granted { (h : History) (e : Event) (answer : AnswerOf) → IsLegal h → (next_step h e).own ≡ Some (Ok answer) → AreMet (caller_of h e) (needs_of h e) }
    ensures denied { (h : History) (e : Event) (rule : RuleOf) → IsLegal h → is_denial rule ≡ true → ((next_step h e).own ≡ Some (Err rule)) ↔ IsDenied (caller_of h e) (checks_of h e) rule }
    ensures waited { (h : History) (e : Event) → IsLegal h → All (λ completion. EndedByRights (run h) (next_step h e).state completion) (next_step h e).ended }
{}

/// A client has as many calls as it has replies, and one more where its last call waits.
pub fn calls_have_replies_or_wait()
    ensures { (h : History) (client : ℕ) → IsLegal h → length (own h client) ≡ length (replies h client) + (if is_waiting (run h) client then 1 else 0) }
{}

/// Each call has answers of its own: a call is granted with one of these, none but a msgsnd, a msgrcv or a semop is made to
/// wait, and a waiting call that ends was one of its client's, and ends with an answer of its own or with a refusal. So a
/// caller may match the answers of its call and prove the others away.
pub fn calls_end_with_their_answers()
    ensures own { (h : History) (e : Event) (answer : AnswerOf) → (next_step h e).own ≡ Some (Ok answer) → can_give e.call answer ≡ true }
    ensures waits { (h : History) (e : Event) → (next_step h e).own ≡ None → can_wait e.call ≡ true }
    ensures others { (h : History) (e : Event) → All (λ completion. is_end_of (run h).parked completion ≡ true) (next_step h e).ended }
{}

/// An event tells a client one thing at most, and tells none but clients of the namespace.
pub fn an_event_tells_each_client_once()
    ensures once { (h : History) (e : Event) (client : ℕ) → IsLegal (with_event h e) → length (replies_in (replies_of h e) client) ≤ 1 }
    ensures known { (h : History) (e : Event) → IsLegal (with_event h e) → All (λ reply. reply.0 < length h.clients) (replies_of h e) }
{}

/// An event whose own call waits ends no call but those whose deadline it reaches.
pub fn a_call_that_waits_ends_no_other()
    ensures { (h : History) (e : Event) → (next_step h e).own ≡ None → (next_step h e).ended ≡ (expire (at_time (run h) e.now)).ended }
{}

/// No more calls wait than there are clients, after every legal history: so an event's rows are at most two more than the clients.
pub fn no_more_calls_wait_than_clients()
    ensures { (h : History) → IsLegal h → length (run h).parked ≤ length h.clients }
{}

/// After every history the serial number of the process that comes next is at most the number of the clients and of the events:
/// each client has one at the start, and an event makes one process at most.
pub fn processes_are_few()
    ensures { (h : History) → (run h).next ≤ length h.clients + length h.events }
{}
