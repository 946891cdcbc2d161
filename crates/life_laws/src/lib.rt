//! What events make of the clients: whose threads begin and end, with which pids and credentials, and what is left of a process
//! that has ended. A law is a function that does nothing: what it ensures is the law.
#![tactic(auto)]

ghost use Rattle.std.specs.Prelude.{◌≡◌, ◌≢◌, ℕ, ◌+◌, List, Some, None, ◌<◌, ◌≤◌, true, false, length};
ghost use Rattle.ipc_call.specs.declared.calls.Call.TheVariants.{Assume, Begin, Clone, Exec, Exit, Fork, Interrupt, InterruptThread, Kill, Name};
ghost use Rattle.ipc_call.specs.declared.calls.Identity.{Identity};
ghost use Rattle.ipc_call.specs.declared.calls.Kind.{Kind};
ghost use Rattle.ipc_call.specs.declared.limits.Limits.{Limits};
ghost use Rattle.ipc_creds.specs.Credentials.{Credentials, cap_sys_admin, groups_max, has_capability};
ghost use Rattle.ipc_model.specs.State.{creds_at, has_exited, has_pid, is_running, is_waiting, opening, pid_at, process_at, thread_at};
ghost use Rattle.ipc_model.specs.Decision.{Outcome, left_by};
ghost use Rattle.ipc_model.specs.Decide.{decide};
ghost use Rattle.ipc_model.specs.Processes.{credentials_of, ended};
ghost use Rattle.ipc_model.specs.Step.{Event, begun};
ghost use Rattle.ipc_model.specs.Touched.{touches};
ghost use Rattle.ipc_history.specs.History.{History, next_step, run, with_event};
ghost use Rattle.shm_seg.specs.Attachments.{attachment_at};
ghost use Rattle.shm_seg.specs.declared.attachments.Attachment.{Attachment};
ghost use Rattle.life_laws.specs.Filed.{detaches};
ghost use Rattle.life_laws.specs.Lives.{Begins, Executes, Exits, HaveOnePid, Interrupts, IsFree, IsFreeBut, IsGone, IsThread, Kills, LeadsTo, LetsNoneProceed, Renames, Ticks};
ghost use Rattle.life_laws.specs.Lives.{clients_by, creds_in, event, is_begun_by, is_ended_by, is_granted, is_of_life, is_quiet, takes_creds, takes_pid, threads_by};

/// A history leads with one event more to where its step leads.
pub fn events_come_one_by_one()
    ensures { (h : History) (e : Event) → run (with_event h e) ≡ (next_step h e).state }
{}

/// At the start each client is the only thread of a process, whose pid is its number plus 1.
pub fn clients_start_alone()
    ensures { (limits : Limits) (clients : List Credentials) (client : ℕ) → client < length clients
        → IsThread (opening limits clients) client client (client + 1) (creds_in clients client) }
{}

/// There are as many threads, and as many credentials, as clients at the start.
pub fn clients_stay_as_many()
    ensures threads { (h : History) → length (run h).threads ≡ length h.clients }
    ensures credentials { (h : History) → length (run h).clients ≡ length h.clients }
{}

/// What an event makes of all threads and credentials is what its call does where it is granted, and nothing where it isn't:
/// waiting calls that end, for whatever reason, change none.
pub fn clients_change_by_granted_calls()
    ensures threads { (h : History) (e : Event)
        → (run (with_event h e)).threads ≡ threads_by (run h) e (next_step h e).own }
    ensures credentials { (h : History) (e : Event)
        → (run (with_event h e)).clients ≡ clients_by (run h) e (next_step h e).own }
{}

/// A call that isn't granted changes no client.
pub fn refused_calls_change_no_client()
    ensures threads { (h : History) (e : Event) → is_granted (next_step h e).own ≡ false
        → (run (with_event h e)).threads ≡ (run h).threads }
    ensures credentials { (h : History) (e : Event) → is_granted (next_step h e).own ≡ false
        → (run (with_event h e)).clients ≡ (run h).clients }
{}

/// Nor does one that the life of processes isn't about, granted or not.
pub fn other_calls_change_no_client()
    ensures threads { (h : History) (e : Event) → is_of_life e.call ≡ false → (run (with_event h e)).threads ≡ (run h).threads }
    ensures credentials { (h : History) (e : Event) → is_of_life e.call ≡ false → (run (with_event h e)).clients ≡ (run h).clients }
{}

/// Who is changed by a call: the credentials, the process, the pid and the life of each client are as they were, but for those
/// that the call names.
pub fn few_clients_change()
    ensures credentials { (h : History) (e : Event) (client : ℕ) → takes_creds e.client e.call client ≡ false
        → creds_at (run (with_event h e)) client ≡ creds_at (run h) client }
    ensures process { (h : History) (e : Event) (client : ℕ) → is_begun_by e.client e.call client ≡ false
        → process_at (run (with_event h e)) client ≡ process_at (run h) client }
    ensures pid { (h : History) (e : Event) (client : ℕ) → takes_pid (run h) e.client e.call client ≡ false
        → pid_at (run (with_event h e)) client ≡ pid_at (run h) client }
    ensures life { (h : History) (e : Event) (client : ℕ) → is_begun_by e.client e.call client ≡ false
        → is_ended_by (run h) e.client e.call client ≡ false
        → has_exited (run (with_event h e)) client ≡ has_exited (run h) client }
{}

/// After every history the threads of a process that live have one pid.
pub fn processes_have_one_pid()
    ensures { (h : History) → HaveOnePid (run h).threads }
{}

/// An ended client begins as the only thread of a new process, where no process has the pid and there are not too many groups.
pub fn begins_are_granted()
    ensures { (h : History) (now client pid : ℕ) (creds : Identity) → client < length h.clients
        → has_exited (run h) client ≡ true → 0 < pid → length creds.groups ≤ groups_max → IsFree (run h) pid
        → Begins h (event now client (Begin pid creds)) client (run h).next pid (credentials_of creds) }
{}

/// A client that lives forks into an ended one, where no process has the pid.
pub fn forks_are_granted()
    ensures { (h : History) (now client child pid : ℕ) → has_exited (run h) client ≡ false → child < length h.clients
        → has_exited (run h) child ≡ true → 0 < pid → IsFree (run h) pid
        → Begins h (event now client (Fork child pid)) child (run h).next pid (creds_at (run h) client) }
{}

/// A client that lives makes an ended one a thread of its process.
pub fn clones_are_granted()
    ensures { (h : History) (now client child : ℕ) → has_exited (run h) client ≡ false → child < length h.clients
        → has_exited (run h) child ≡ true
        → Begins h (event now client (Clone child)) child (process_at (run h) client) (pid_at (run h) client)
        (creds_at (run h) client) }
{}

/// A client that lives has the credentials that it is told, if there are not too many groups.
pub fn told_credentials_are_taken()
    ensures { (h : History) (now client : ℕ) (creds : Identity) → has_exited (run h) client ≡ false
        → client < length h.clients → length creds.groups ≤ groups_max
        → Begins h (event now client (Assume creds)) client (process_at (run h) client) (pid_at (run h) client)
        (credentials_of creds) }
{}

/// The process of a client that lives takes another pid, where no other process has it.
pub fn names_are_granted()
    ensures { (h : History) (now client pid : ℕ) → has_exited (run h) client ≡ false → 0 < pid
        → IsFreeBut (run h) (process_at (run h) client) pid
        → Renames h (event now client (Name pid)) (process_at (run h) client) pid }
{}

/// A call that touches no object lets no call proceed that waits: an event leads to what its call leaves, and ends calls whose
/// deadline is reached and those that its grant cancels alone.
pub fn calls_that_touch_nothing_let_none_proceed()
    ensures { (h : History) (e : Event)
        → ((kind : Kind) (id : ℕ) → touches (begun (run h) e.now) e.client e.call kind id ≡ false)
        → is_waiting (run h) e.client ≡ false → LetsNoneProceed h e }
{}

/// So of a begin, a fork, a clone, a name and an assume, and of setcreds: an event leads to what the call leaves, and ends calls whose
/// deadline is reached alone.
pub fn beginnings_end_no_wait()
    ensures { (h : History) (e : Event) → is_quiet e.call ≡ true → is_waiting (run h) e.client ≡ false
        → LeadsTo h e (left_by (begun (run h) e.now) (decide (begun (run h) e.now) e.client e.call)) }
{}

/// The thread of a client that lives ends.
pub fn exits_are_granted()
    ensures { (h : History) (now client : ℕ) → has_exited (run h) client ≡ false → client < length h.clients
        → Exits h (event now client Exit) client }
{}

/// If another thread of its process lives, an exit ends nothing else, of its process or of others: but for calls whose deadline
/// is reached, nothing happens besides.
pub fn exits_of_one_of_several_end_nothing_else()
    ensures { (h : History) (now client other : ℕ) → has_exited (run h) client ≡ false → is_waiting (run h) client ≡ false
        → other ≢ client → has_exited (run h) other ≡ false → process_at (run h) other ≡ process_at (run h) client
        → LeadsTo h (event now client Exit) (ended (begun (run h) now) client) }
{}

/// A client that lives, and doesn't wait, becomes another program: the other threads of its process end, and its process has nothing
/// attached; its semadj stay.
pub fn execs_are_granted()
    ensures { (h : History) (now client : ℕ) → has_exited (run h) client ≡ false → client < length h.clients
        → is_waiting (run h) client ≡ false → Executes h (event now client Exec) client }
{}

/// A client with CAP_SYS_ADMIN kills the process of a pid. Then no thread of the process lives, nothing is attached and no semadj is
/// filed under it, none of its calls waits, no client that lives has its pid, and no other client has changed.
pub fn kills_leave_nothing()
    ensures { (h : History) (now client pid target : ℕ) → has_exited (run h) client ≡ false
        → has_capability (creds_at (run h) client) cap_sys_admin ≡ true → has_pid pid (thread_at (run h) target) ≡ true
        → Kills h (event now client (Kill pid)) pid }
{}

/// A client with CAP_SYS_ADMIN ends what another waits for, and nothing else but calls whose deadline is reached.
pub fn interrupts_are_granted()
    ensures { (h : History) (now client target : ℕ) → has_exited (run h) client ≡ false
        → has_capability (creds_at (run h) client) cap_sys_admin ≡ true → has_exited (run h) target ≡ false
        → Interrupts h (event now client (InterruptThread target)) target }
{}

/// An interrupt of pid 0, by a client that lives, is refused: the clock moves on, and calls end whose deadline is reached.
pub fn interrupts_of_nobody_tell_the_time()
    ensures { (h : History) (now client : ℕ) → has_exited (run h) client ≡ false → Ticks h (event now client (Interrupt 0)) }
{}

/// After every history nothing is left of a process of which no thread lives.
pub fn ended_processes_leave_nothing()
    ensures { (h : History) (process : ℕ) → is_running (run h) process ≡ false → IsGone (run h) process }
{}

/// What a process has attached stays under its number, whatever anyone calls and whatever ends by it, but by its own shmdt and exec,
/// the exit of its last thread, and a kill of it.
pub fn attachments_go_by_few_calls()
    ensures { (h : History) (e : Event) (process number : ℕ) (a : Attachment)
        → attachment_at (run h).shared.attached process number ≡ Some a
        → detaches (run h).threads e.client e.call process number ≡ false
        → attachment_at (run (with_event h e)).shared.attached process number ≡ Some a }
{}

/// After every history no call of an ended client waits.
pub fn ended_clients_do_not_wait()
    ensures { (h : History) (client : ℕ) → has_exited (run h) client ≡ true → is_waiting (run h) client ≡ false }
{}

/// By an event no client comes to wait but its own, and that one only where its call isn't answered: then it waits.
pub fn few_clients_come_to_wait()
    ensures others { (h : History) (e : Event) (client : ℕ) → client ≢ e.client → is_waiting (run h) client ≡ false
        → is_waiting (run (with_event h e)) client ≡ false }
    ensures answered { (h : History) (e : Event) (outcome : Outcome) → is_waiting (run h) e.client ≡ false
        → (next_step h e).own ≡ Some outcome → is_waiting (run (with_event h e)) e.client ≡ false }
    ensures unanswered { (h : History) (e : Event) → (next_step h e).own ≡ None
        → is_waiting (run (with_event h e)) e.client ≡ true }
{}
