//! What a client can't learn of other clients, what deadlines do, and what is filed under processes. A law is a function
//! that does nothing: what it ensures is the law.
#![tactic(auto)]

ghost use Rattle.std.specs.Prelude.{◌≡◌, ℕ, false, List, length, Some, Ok, IsSome};
ghost use Rattle.ipc_call.specs.declared.replies.Answer.{Answer as AnswerOf};
ghost use Rattle.ipc_model.specs.Fresh.{IsFresh, begun_by};
ghost use Rattle.ipc_model.specs.Segments.{ends_segments, segment_at};
ghost use Rattle.ipc_model.specs.State.{Object, Segment, State};
ghost use Rattle.ipc_model.specs.Step.{Event, step};
ghost use Rattle.ipc_model.specs.Tidy.{IsTidy};
ghost use Rattle.ipc_history.specs.Waits.{AreInTime, AreOfThreads};
ghost use Rattle.ipc_history.specs.History.{History, IsLegal, next_step, run, with_event};
ghost use Rattle.ipc_laws.specs.Deadlines.{step_by_deadlines};
ghost use Rattle.ipc_laws.specs.Worlds.{AreTwoWorlds, IsUnaware};

/// A client can't tell apart two states that differ only in the contents of queues, sets and segments to which it has
/// no right, no control and no attachment. Whatever others read, and whatever they send, receive, operate, set or write
/// there, at times that don't move the clock, in each of them or in one alone: the client's own calls come out alike,
/// its waiting calls end alike, and what the two states lead to it can't tell apart either. Its own calls are any but
/// those that hand it credentials, by which it may see more: the law is of its thread's life from one such to the next. In
/// sight are which objects there are, their permissions and sizes, whether a segment is marked for removal, who has attached
/// what, and what each client is a thread of. The law speaks of replies, and not of how long a call takes or of memory that
/// runs out.
pub fn two_worlds()
    ensures { (client : ℕ) (s t : State) (es fs : List Event) → AreTwoWorlds client s t es fs
        → IsUnaware client s t es fs }
{}

/// After every history the deadline of each call that waits is above the clock: nobody waits past a deadline that an
/// event has reached.
pub fn waiting_calls_are_in_time()
    ensures { (h : History) → AreInTime (run h) }
{}

/// If a waiting call were ready also where its deadline is reached, and then ended as timed out, every event would do
/// the same: the calls whose deadline it reaches end before any other does.
pub fn settling_reads_deadlines()
    ensures { (s : State) (e : Event) → step s e ≡ step_by_deadlines s e }
{}

/// After every history each attachment and each semadj is of a process that has a thread, and the serial number of every
/// process, also of one that has ended, is below that of the next one. So nothing is filed under a process that begins. No
/// two processes have one pid at a time, and none has pid 0; an attachment has a number of SHMSEG, and its segment is there.
pub fn processes_are_tidy()
    ensures { (h : History) → IsTidy (run h) }
{}

/// After every history no client whose thread has ended has a call that waits.
pub fn waiting_calls_are_of_threads()
    ensures { (h : History) → AreOfThreads (run h) }
{}

/// A process that begins has no semadj. A forked one has what the process of its parent has attached, under the same numbers
/// and with the same rights, and one that a client begins anew has nothing attached. Its thread is one client.
pub fn new_processes_are_fresh()
    ensures { (h : History) (e : Event) (child pid : ℕ) (answer : AnswerOf) → IsLegal (with_event h e)
        → begun_by e.client e.call ≡ Some (child, pid) → (next_step h e).own ≡ Some (Ok answer)
        → IsFresh (run h) (next_step h e).state e.client e.call child pid }
{}

/// A segment ends by an IPC_RMID of segments, a shmdt, an exec, a kill or an exit alone: after any other call each that was there
/// is there, whatever the call ends or lets proceed. No event changes how many bytes a segment has. So whoever keeps memory for
/// segments looks for ended ones after these calls alone, and never resizes it.
pub fn segments_end_by_few_calls()
    ensures stay { (h : History) (e : Event) (id : ℕ) → ends_segments e.call ≡ false → IsSome (segment_at (run h).shared id)
        → IsSome (segment_at (next_step h e).state.shared id) }
    ensures sizes { (h : History) (e : Event) (id : ℕ) (before now : Object Segment) → segment_at (run h).shared id ≡ Some before
        → segment_at (next_step h e).state.shared id ≡ Some now → length now.contents.bytes ≡ length before.contents.bytes }
{}
