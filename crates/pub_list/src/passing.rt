//! A client passes over the list: it seizes the state, serves each posted record, and releases the state.
ghost use Rattle.std.specs.Prelude.{◌≡◌, ℕ, List as Sequence, ◌<◌, ◌≤◌, false, OnOk, IfErr};
ghost use Rattle.pub_list.specs.Clients.{view, work, told, BelongsTo, IsSame};
ghost use Rattle.pub_list.specs.Combining.{HasMet};
ghost use Rattle.pub_list.specs.Passing.{IsAsFar, HasDealt, KeepsMarks, HasPassed, HasToldGate, IsServing, HasTaken, Stays};

use crate::combining::Took;
use crate::joined::Joined;
use crate::list::List;
use crate::records::WordState;
use pub_rule::Served;

/// A state whose calls a combiner knows how to serve.
pub trait Serves: Served {
    // what is known of a history of n clients; a pass asks it of the history that the combiner saw
    ghost admits: { ℕ → Sequence Self.Event → Type 0 };

    // it stays so
    ghost stays: { Stays admits };

    /// Serves the call of `client`, whose posted record the combiner took, and gives the state back: the
    /// record is answered or left parked, and each other client that is owed a reply by it gets it.
    fn serve(
        combiner: &mut Joined<Self>,
        list: &List<Self>,
        client: u32,
        call: Self::Call,
        state: Self,
    ) -> Self
        requires list { BelongsTo list.now combiner.old }
        requires taken { HasTaken Self.history Self.legal Self.replies Self.own admits list.now.clients client call (view combiner.old) state }
        ensures client { IsSame combiner.old combiner.new }
        ensures serving { IsServing Self.history Self.legal Self.replies list.now.clients (view combiner.new) result }
        ensures far { IsAsFar (view combiner.old) (view combiner.new) }
        ensures dealt { HasDealt client (view combiner.old) (view combiner.new) };
}

/// What happens between two records of a pass. It is for tests, in which a combiner stands still inside one.
pub trait PassGate {
    // it was called after so many records of a list of so many clients; `between` alone tells this
    ghost was_told: { Self → ℕ → ℕ → Type 0 };

    /// Is called after `visited` records of a pass over the list of so many `clients`, at least one, and before the
    /// next.
    fn between(&self, visited: u32, clients: u32)
        requires { (1 ≤ visited) × (visited < clients) × (clients ≤ 64) }
        ensures { was_told self.now visited clients };
}

/// Nothing happens between two records.
pub struct OpenGate;

impl PassGate for OpenGate {
    ghost was_told = { λ gate visited clients. Unit {0} };

    fn between(&self, _visited: u32, _clients: u32) {}
}

impl<S: Serves> Joined<S> {
    /// Tries once to seize the state; then serves each record on the list, with the gate between two of them, and
    /// releases the state. The error is the client that combines. A program takes an `OpenGate`.
    pub fn combine_with<G: PassGate>(&mut self, list: &List<S>, gate: &G) -> Result<(), u32>
        requires list { BelongsTo list.now self.old }
        requires unheld { (work self.old).holds ≡ false }
        requires admitted { S.admits list.now.clients (work self.old).seen }
        ensures client { IsSame self.old self.new }
        ensures unheld { (work self.new).holds ≡ false }
        ensures far { IsAsFar (view self.old) (view self.new) }
        ensures marks { KeepsMarks (view self.old) (view self.new) }
        ensures told { told self.new ≡ told self.old }
        ensures passed { OnOk result (HasPassed list.now.clients self.old.client (view self.old) (view self.new)) }
        ensures legal { OnOk result (S.legal (work self.new).seen) }
        ensures gate { OnOk result (HasToldGate (G.was_told gate.now) list.now.clients (view self.new)) }
        ensures busy { IfErr result (λ c. HasMet list.now.clients self.old.client c (view self.old) (view self.new)) }
    {
        let mut state = self.seize(list)?;
        let mut visited: u32 = 0;
        let mut at = self.first(list);
        while let Some(client) = at {
            if visited > 0 {
                gate.between(visited, list.clients);
            }
            state = self.visit(list, client, state);
            visited += 1;
            at = self.next(list, client);
        }
        self.release(list, state);
        Ok(())
    }

    // Serves the record of a client, if it is posted.
    fn visit(&mut self, list: &List<S>, client: u32, state: S) -> S
        requires list { BelongsTo list.now self.old }
        requires client { client < list.now.clients }
        requires serving { IsServing S.history S.legal S.replies list.now.clients (view self.old) state }
        requires admitted { S.admits list.now.clients (work self.old).seen }
        ensures client { IsSame self.old self.new }
        ensures serving { IsServing S.history S.legal S.replies list.now.clients (view self.new) result }
        ensures far { IsAsFar (view self.old) (view self.new) }
        ensures dealt { HasDealt client (view self.old) (view self.new) }
    {
        if !self.is_posted(list, client) {
            return state;
        }
        match self.take(list, client, WordState::Posted) {
            Took::FromPosted(call) => S::serve(self, list, client, call, state),
            _ => state,
        }
    }
}
