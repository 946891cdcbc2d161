//! What is so of a server after every event and every list of events. A law is a function that does nothing: what it ensures is
//! the law.
#![tactic(auto)]

ghost use Rattle.std.specs.Prelude.{◌≡◌, ℕ, ◌+◌, ◌<◌, ◌≤◌, ◌==◌, true, false, length, List, [], ◌∷◌, ◌++◌, Some, if◌then◌else◌};
ghost use Rattle.std.specs.List.{AllByRecursion};
ghost use Rattle.ipc_call.specs.declared.limits.Limits.{Limits};
ghost use Rattle.ipc_history.specs.History.{with_event};
ghost use Rattle.ipc_model.specs.State.{is_waiting};
ghost use Rattle.ipc_server.specs.Making.{event};
ghost use Rattle.ipc_server.specs.Openings.{opened};
ghost use Rattle.ipc_server.specs.Servers.{Server, child_of, conn_at, peer_in, state};
ghost use Rattle.ipc_server.specs.Steps.{Ended, Event, ForkLost, Sent, is_sender, step};
ghost use Rattle.ipc_server.specs.declared.peers.Bounds.{Bounds};
ghost use Rattle.ipc_server.specs.declared.peers.Conn.TheVariants.{Member};
ghost use Rattle.ipc_server.specs.declared.peers.Peer.{Peer};
ghost use Rattle.ipc_server.specs.declared.peers.Sender.{Sender};
ghost use Rattle.ipc_server.specs.declared.peers.Supply.{Supply};
ghost use Rattle.ipc_server.specs.declared.peers.Supply.TheVariants.{Enough, Short};
ghost use Rattle.ipc_wire.specs.Calls.{call_of};
ghost use Rattle.ipc_wire.specs.Requests.{decode};
ghost use Rattle.ipc_wire.specs.declared.requests.Ask.{Ask};
ghost use Rattle.ipc_wire.specs.declared.requests.Request.TheVariants.{Calls};
ghost use Rattle.ipc_wire.specs.declared.requests.Message.{Message};
ghost use Rattle.server_laws.specs.Bounds.{AreFew, AreFewForks};
ghost use Rattle.server_laws.specs.Ends.{HasGone, IsKnown, IsOver, is_end_of};
ghost use Rattle.server_laws.specs.Memory.{AreThere, IsOfNobody, IsOnce, IsRightly, drops_of, makes_of, times};
ghost use Rattle.server_laws.specs.Runs.{Input, StaysOpen, after, all_asked_on, outputs_of};
ghost use Rattle.server_laws.specs.Telling.{ActsAs, AreLent, answered_on, asked_on, is_open, is_short, waiting_on};

/// The memory of a segment is held as often as it was made more often than dropped. It is made only where it isn't held, and then
/// once, so it is made and dropped in turn; and after each event the segment of each that is held is there, and that of one that is dropped is attached by nobody.
pub fn memory_is_made_and_dropped_in_turn()
    ensures even { (supply : Supply) (now : ℕ) (e : Event) (s : Server) (segment : ℕ)
        → times segment s.memory + makes_of segment (step supply now e s).outputs
        ≡ times segment (step supply now e s).server.memory + drops_of segment (step supply now e s).outputs }
    ensures made { (supply : Supply) (now : ℕ) (e : Event) (s : Server) (segment : ℕ) → IsOnce s.memory
        → times segment s.memory + makes_of segment (step supply now e s).outputs ≤ 1 }
    ensures once { (limits : Limits) (clients conns : ℕ) (bounds : Bounds) (inputs : List Input)
        → IsOnce (after inputs (opened limits clients conns bounds)).memory }
    ensures there { (supply : Supply) (now : ℕ) (e : Event) (s : Server) → AreThere (step supply now e s).server }
    ensures dropped { (supply : Supply) (now : ℕ) (e : Event) (s : Server)
        → AllByRecursion (λ output. IsOfNobody (step supply now e s).server output) (step supply now e s).outputs }
{}

/// The memory of a segment is passed with the reply to a granted shmat alone, to the connection whose client made it, and can be
/// written exactly where that attached the segment for writing too. The reply tells the size that the segment has.
pub fn memory_is_passed_to_who_attached_it()
    ensures { (supply : Supply) (now : ℕ) (e : Event) (s : Server)
        → AllByRecursion (λ output. IsRightly s (step supply now e s).server output) (step supply now e s).outputs }
{}

/// There are never more connections than the bounds allow: of those that have said nothing, of one user's, and of one user's that
/// have said nothing. The bounds never change.
pub fn connections_stay_within_their_bounds()
    ensures step { (supply : Supply) (now : ℕ) (e : Event) (s : Server) → AreFew s.bounds s.conns
        → AreFew s.bounds (step supply now e s).server.conns }
    ensures always { (limits : Limits) (clients conns : ℕ) (bounds : Bounds) (inputs : List Input)
        → AreFew bounds (after inputs (opened limits clients conns bounds)).conns }
    ensures bounds { (supply : Supply) (now : ℕ) (e : Event) (s : Server) → (step supply now e s).server.bounds ≡ s.bounds }
{}

/// There are never more announced forks than the bounds allow, in all and of one user.
pub fn forks_stay_within_their_bounds()
    ensures { (limits : Limits) (clients conns : ℕ) (bounds : Bounds) (inputs : List Input) → 1 ≤ clients
        → AreFewForks bounds (after inputs (opened limits clients conns bounds)) }
{}

/// Whatever comes, each connection to which a client is lent has it for itself, and that client lives; and a client that is lent to
/// a connection and waits is that of the connection.
pub fn clients_are_lent_to_one_connection()
    ensures { (limits : Limits) (clients conns : ℕ) (bounds : Bounds) (inputs : List Input) → 1 ≤ clients
        → AreLent (after inputs (opened limits clients conns bounds)) }
{}

/// The client that is lent to a connection is a thread of the process that opened it, with the credentials that this had then, as
/// long as the connection lasts. So that is who makes the calls of the connection.
pub fn connections_act_as_their_peers()
    ensures { (limits : Limits) (clients conns : ℕ) (bounds : Bounds) (inputs : List Input) → 1 ≤ clients
        → (conn : ℕ) (peer : Peer) (client seq : ℕ) → conn_at (after inputs (opened limits clients conns bounds)) conn ≡ Member peer client seq
        → ActsAs (after inputs (opened limits clients conns bounds)) peer client }
{}

/// A call that comes on a connection, where none of its calls waits, is the one event that the history gets, and is made by the
/// client that is lent to it.
pub fn calls_are_made_once_by_their_client()
    ensures { (s : Server) (now conn token client before : ℕ) (peer : Peer) (sender : Sender) (bytes : List ℕ) (m : Message) (ask : Ask)
        → conn_at s conn ≡ Member peer client before → is_waiting (state s) client ≡ false → client < length s.history.clients
        → is_sender peer sender ≡ true → decode bytes ≡ Some m → m.request ≡ Calls ask
        → (step Enough now (Sent conn sender bytes token) s).server.history ≡ with_event s.history (event now client (call_of ask)) }
{}

/// A process that is known is known after each event but its end, whatever its connections do.
pub fn processes_are_known_until_they_end()
    ensures { (limits : Limits) (clients conns : ℕ) (bounds : Bounds) (inputs : List Input) → 1 ≤ clients
        → (supply : Supply) (now : ℕ) (e : Event) (pid : ℕ) → is_end_of e pid ≡ false
        → IsKnown (after inputs (opened limits clients conns bounds)) pid
        → IsKnown (step supply now e (after inputs (opened limits clients conns bounds))).server pid }
{}

/// After the end of a process no client that lives has its pid, none of its calls waits, nothing is attached or owed by it, and no
/// connection is of it. So it is of a child whose fork is lost.
pub fn ended_processes_leave_nothing()
    ensures ended { (limits : Limits) (clients conns : ℕ) (bounds : Bounds) (inputs : List Input) → 1 ≤ clients
        → (supply : Supply) (now pid : ℕ) → pid < 2147483648
        → IsOver (after inputs (opened limits clients conns bounds))
        (step supply now (Ended pid) (after inputs (opened limits clients conns bounds))).server pid }
    ensures lost { (limits : Limits) (clients conns : ℕ) (bounds : Bounds) (inputs : List Input) → 1 ≤ clients
        → (supply : Supply) (now token child : ℕ) → child_of (after inputs (opened limits clients conns bounds)) token ≡ Some child
        → HasGone (after inputs (opened limits clients conns bounds))
        (step supply now (ForkLost token) (after inputs (opened limits clients conns bounds))).server child }
{}

/// Each request is answered once, on its connection and by its number: of a connection that is there after an event, the request
/// that waited and the one that came have been answered by it, but for one that waits now, and nothing else has been. A CANCEL is
/// no request: it is answered by the end of what waited. One that isn't there any more has been told nothing. A request for which
/// memory lacks is answered so at once, whatever waits. So over every list of events, as long as a connection stays, its requests
/// are answered in their order, but for the last one where that waits.
pub fn requests_are_answered_once()
    ensures kept { (supply : Supply) (now : ℕ) (e : Event) (s : Server) (conn : ℕ) → AreLent s → is_short supply ≡ false
        → is_open (step supply now e s).server conn ≡ true
        → waiting_on s conn ++ asked_on s e conn
        ≡ answered_on conn (step supply now e s).outputs ++ waiting_on (step supply now e s).server conn }
    ensures gone { (supply : Supply) (now : ℕ) (e : Event) (s : Server) (conn : ℕ) → AreLent s → is_short supply ≡ false
        → is_open (step supply now e s).server conn ≡ false → answered_on conn (step supply now e s).outputs ≡ [] }
    ensures lacking { (s : Server) (now conn token other : ℕ) (peer : Peer) (sender : Sender) (bytes : List ℕ) (m : Message)
        → peer_in (conn_at s conn) ≡ Some peer → is_sender peer sender ≡ true → decode bytes ≡ Some m
        → answered_on other (step Short now (Sent conn sender bytes token) s).outputs
        ≡ (if conn == other then m.seq ∷ [] else []) }
    ensures always { (limits : Limits) (clients conns : ℕ) (bounds : Bounds) → 1 ≤ clients → (before inputs : List Input) (conn : ℕ)
        → StaysOpen inputs (after before (opened limits clients conns bounds)) conn
        → waiting_on (after before (opened limits clients conns bounds)) conn
        ++ all_asked_on inputs (after before (opened limits clients conns bounds)) conn
        ≡ answered_on conn (outputs_of inputs (after before (opened limits clients conns bounds)))
        ++ waiting_on (after inputs (after before (opened limits clients conns bounds))) conn }
{}
