//! What a seat at the table knows.
use std::collections::LinkedList;

/// Whose seat it is.
pub enum Role {
    /// A seat that was merged into another one.
    Spent,
    /// The first seat, which has made the seats of the clients below this number.
    Maker(u64),
    /// The seat of this client, which hasn't joined.
    Fresh(u64),
    /// The seat of this client, which has joined.
    Joined(u64),
    /// What one client tells another.
    Token,
}

/// What a seat knows of the list. No value of it is made: it stands in proofs alone.
pub struct Walk {
    /// Whose seat it is.
    pub role: Role,
    /// The list as the seat loaded it last, the client at the head first.
    pub list: LinkedList<u64>,
    /// The clients of which it was told that they joined.
    pub known: LinkedList<u64>,
    /// What an unjoined client's own next word holds.
    pub stored: u64,
    /// How often the seat tried to exchange the head.
    pub tries: u64,
}

/// What a seat knows, in two halves. No value of it is made.
pub struct View<W> {
    /// Of the list.
    pub walk: Walk,
    /// Of what is served.
    pub work: W,
}
