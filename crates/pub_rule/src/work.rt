//! What a seat knows of what is served.
use std::collections::LinkedList;

/// How far a seat's client is with its own publication record.
pub enum Stage<C> {
    /// A seat of no client: it was merged into another one, or takes in others as the list is closed.
    Spent,
    /// The first seat, which has made the seats of the clients below this number.
    Maker(u64),
    /// The seat of this client, which asks nothing, and whose slot lies empty at home.
    Away(u64),
    /// The seat of this client, which asks nothing, and has its slot in its hands.
    Free(u64),
    /// The seat of this client, which posted this call, and has collected no reply to it.
    Asking(u64, C),
    /// What this client tells another.
    Token(u64),
}

/// Which publication record the combiner has taken, of which client, with its call.
pub enum Serving<C> {
    /// None.
    Nothing,
    /// One that was posted.
    Posted(u64, C),
    /// One that was parked.
    Parked(u64, C),
}

/// A post that was counted: whose it is, and which of that client's posts. No value of it is made.
pub struct Mark {
    /// The client.
    pub client: u64,
    /// The number of its posts then.
    pub post: u64,
}

/// What a client told when its seat was merged into that which closes the list. No value of it is made.
pub struct Closed<E, C, R> {
    /// The client.
    pub client: u64,
    /// How far it was, with its slot at home.
    pub stage: Stage<C>,
    /// The history as it saw it last.
    pub seen: LinkedList<E>,
    /// Its calls that were answered, but for those refused for memory.
    pub entered: LinkedList<C>,
    /// The replies to them.
    pub got: LinkedList<R>,
    /// How often it began to combine.
    pub begun: u64,
    /// The clients that it found to combine.
    pub met: LinkedList<u64>,
}

/// What a seat knows of what is served. No value of it is made: it stands in proofs alone.
pub struct Work<E, C, R> {
    /// How far its client is.
    pub stage: Stage<C>,
    /// Whether its client combines.
    pub holds: bool,
    /// The history as the seat saw it last.
    pub seen: LinkedList<E>,
    /// The history that another client told it last.
    pub hearsay: LinkedList<E>,
    /// A combiner's history before the last event.
    pub before: LinkedList<E>,
    /// The clients that the combiner has answered since.
    pub paid: LinkedList<u64>,
    /// The record that the combiner has taken.
    pub serving: Serving<C>,
    /// The client's calls that were answered, but for those refused for memory.
    pub entered: LinkedList<C>,
    /// The replies to them.
    pub got: LinkedList<R>,
    /// How often the client posted.
    pub posts: u64,
    /// How often it began to combine.
    pub begun: u64,
    /// The clients that were found to combine.
    pub met: LinkedList<u64>,
    /// The posts that it heard of.
    pub heard: LinkedList<Mark>,
    /// The posts that a combiner is known to have dealt with.
    pub passed: LinkedList<Mark>,
    /// Whether a combiner is known to have dealt with the client's last post.
    pub past: bool,
    /// What the client found its own state word to be when it looked last; 0 where it hasn't looked since it
    /// posted or collected.
    pub found: u64,
    /// What the clients told whose seats were merged into this one.
    pub closed: LinkedList<Closed<E, C, R>>,
}
