//! What is so of every event, in whatever state a server is.

ghost use Rattle.std.specs.Prelude.{◌≡◌, ℕ, true, List, ◌∷◌, Some};
ghost use Rattle.ipc_server.specs.Making.{drops, reply};
ghost use Rattle.ipc_server.specs.Refusals.{closed_first, refusal};
ghost use Rattle.ipc_server.specs.Servers.{Server, conn_at, peer_in, state};
ghost use Rattle.ipc_server.specs.Steps.{Closed, Sent, is_sender, step};
ghost use Rattle.ipc_server.specs.declared.outputs.Closing.{Closing};
ghost use Rattle.ipc_server.specs.declared.peers.Peer.{Peer};
ghost use Rattle.ipc_server.specs.declared.peers.Sender.{Sender};
ghost use Rattle.ipc_server.specs.declared.peers.Supply.{Supply};
ghost use Rattle.ipc_server.specs.declared.peers.Supply.TheVariants.{Enough, Short};
ghost use Rattle.ipc_wire.specs.Requests.{decode};
ghost use Rattle.ipc_wire.specs.declared.requests.Message.{Message};
ghost use Rattle.ipc_wire.specs.declared.told.Hindrance.TheVariants.{Memory};
ghost use Rattle.ipc_wire.specs.declared.told.Told.TheVariants.{Hindered};

/// Bytes that are no request, or that another process or user sends, do what the end of their connection does and nothing else, but
/// that it is closed.
pub fn what_is_no_request_ends_its_connection()
    ensures { (s : Server) (supply : Supply) (now conn token : ℕ) (peer : Peer) (sender : Sender) (bytes : List ℕ) (why : Closing)
        → peer_in (conn_at s conn) ≡ Some peer → refusal supply peer sender bytes ≡ Some why
        → step supply now (Sent conn sender bytes token) s ≡ closed_first conn why (step Enough now (Closed conn) s) }
{}

/// A request for which an allocation fails is told so, and has changed nothing.
pub fn want_of_memory_is_told_and_changes_nothing()
    ensures history { (s : Server) (now conn token : ℕ) (peer : Peer) (sender : Sender) (bytes : List ℕ) (m : Message)
        → peer_in (conn_at s conn) ≡ Some peer → is_sender peer sender ≡ true → decode bytes ≡ Some m
        → (step Short now (Sent conn sender bytes token) s).server.history ≡ s.history }
    ensures conns { (s : Server) (now conn token : ℕ) (peer : Peer) (sender : Sender) (bytes : List ℕ) (m : Message)
        → peer_in (conn_at s conn) ≡ Some peer → is_sender peer sender ≡ true → decode bytes ≡ Some m
        → (step Short now (Sent conn sender bytes token) s).server.conns ≡ s.conns }
    ensures roles { (s : Server) (now conn token : ℕ) (peer : Peer) (sender : Sender) (bytes : List ℕ) (m : Message)
        → peer_in (conn_at s conn) ≡ Some peer → is_sender peer sender ≡ true → decode bytes ≡ Some m
        → (step Short now (Sent conn sender bytes token) s).server.roles ≡ s.roles }
    ensures told { (s : Server) (now conn token : ℕ) (peer : Peer) (sender : Sender) (bytes : List ℕ) (m : Message)
        → peer_in (conn_at s conn) ≡ Some peer → is_sender peer sender ≡ true → decode bytes ≡ Some m
        → (step Short now (Sent conn sender bytes token) s).outputs ≡ reply conn m.seq (Hindered Memory) ∷ drops (state s) s.memory }
{}
