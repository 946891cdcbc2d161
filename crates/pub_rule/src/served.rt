//! What a publication list serves, and what its slots hold.
ghost use Rattle.std.specs.Prelude.{ℕ, List};
ghost use Rattle.pub_rule.specs.Served.{
  AddsCall,
  AddsNoOther,
  AddsAtMostOneReply,
  HasNoMoreReplies,
};

/// A state that combiners serve: it means a history of events, each of them a call of one client. Whose reply an event
/// brings is for the history to say. What clients call and what they are replied is the project's own; that one state
/// serves the records of all clients follows flat combining.
pub trait Served: Drop {
    /// One entry of the history.
    type Event: Drop;
    /// What a client asks.
    type Call: Drop;
    /// What a client is answered.
    type Reply: Drop;

    // the history that a state means
    ghost history: { Self → List Self.Event };

    // which histories can come about
    ghost legal: { List Self.Event → Type 0 };

    // whose call an event is
    ghost client: { Self.Event → ℕ };

    // the call of an event
    ghost call: { Self.Event → Self.Call };

    // a client's calls in a history, in their order
    ghost own: { List Self.Event → ℕ → List Self.Call };

    // a client's replies in a history, in their order
    ghost replies: { List Self.Event → ℕ → List Self.Reply };

    // an event by which a legal history goes on is one more call of its client
    ghost own_call: { AddsCall legal own client call };

    // and of no other
    ghost own_other: { AddsNoOther legal own client };

    // and adds at most one reply for each client
    ghost one_more: { AddsAtMostOneReply legal replies };

    // in a legal history no client has more replies than calls
    ghost no_more: { HasNoMoreReplies legal own replies };
}

/// What a slot of the table holds (flat combining: the request and the reply stand in the client's record).
/// Slot r is that of client r, and the last slot has the state.
#[derive(Drop)]
pub enum Slot<C, R, S> {
    /// Nothing is asked and nothing answered.
    Empty,
    /// What the client asks.
    Call(C),
    /// What the client is answered.
    Reply(R),
    /// The client's call was refused, as no memory was left.
    Memory,
    /// What is served.
    State(S),
}
