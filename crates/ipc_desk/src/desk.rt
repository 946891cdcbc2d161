//! A namespace with what is kept for its clients.

ghost use Rattle.std.specs.Prelude.{◌≡◌, ◌≤◌, [], length, map, None, replicate, vec_len, IsTrue, IfOk};
ghost use Rattle.ipc_call.specs.Limits.{are_in_range, default_limits};
ghost use Rattle.call_values.specs.Users.{creds_of_user};

use call_values::User;
use ipc_call::{Limits, Memory, Reply};
use ipc_creds::Creds;
use ipc_space::Space;
use std::alloc::Global;
use std::marker::Model;

/// A namespace whose clients call by its methods. What a call that waited is answered comes with some other client's call, and
/// is kept until `take` gives it out; its client can't call before. Each client is given its replies once, in their order.
#[derive(Debug, Drop)]
pub struct Desk {
    pub(crate) space: Space,
    pub(crate) time: u64,
    /// For each client the reply that it hasn't been given.
    pub(crate) kept: Vec<Option<Reply>>,
}

impl Model for Desk {
    ghost use Rattle.ipc_desk.specs.Kept.{AreKept, DeskState};

    ghost Value = { DeskState };

    ghost view = { λ d. record { history = d.space; time = d.time; kept = d.kept.items } };

    ghost invariant = { λ d. AreKept d.space d.kept.items };
}

impl Desk {
    /// A namespace with these limits, each in its range, and 1 to 4,096 clients, numbered from 0 in the order of their
    /// credentials. Its time is 0. Memory (ENOMEM) comes where an allocation fails.
    pub fn open(limits: Limits, clients: Vec<Creds>) -> Result<Desk, Memory>
        requires limits { IsTrue (are_in_range limits) }
        requires some { 1 ≤ vec_len clients }
        requires few { vec_len clients ≤ 4096 }
        ensures { IfOk result (λ desk. desk ≡
            record {
              history = record { limits = limits; clients = clients.items; events = [] };
              time = 0;
              kept = replicate (vec_len clients) None;
            }) }
    {
        let kept = empty_slots(*clients.allocator(), clients.len())?;
        let space = Space::start(limits, clients)?;
        Ok(Desk {
            space,
            time: 0,
            kept,
        })
    }

    /// The same with the limits of Linux, for 1 to 4,096 users.
    pub fn of_users(alloc: Global, users: &[User]) -> Result<Desk, Memory>
        requires some { 1 ≤ length users.now }
        requires few { length users.now ≤ 4096 }
        ensures { IfOk result (λ desk. desk ≡
            record {
              history = record { limits = default_limits; clients = map creds_of_user users.now; events = [] };
              time = 0;
              kept = replicate (length users.now) None;
            }) }
    {
        Desk::open(Limits::default(), creds_of(alloc, users)?)
    }

    /// Sets the time of the calls to come, in seconds. The clock never goes back, whatever is set.
    pub fn set_time(&mut self, time: u64)
        ensures { self.new ≡ record self.old { time = time } }
    {
        self.time = time;
    }

    pub(crate) fn alloc(&self) -> Global {
        *self.kept.allocator()
    }

    /// The namespace, to look at.
    pub fn space(&self) -> &Space
        ensures { result.now ≡ self.now.history }
    {
        &self.space
    }

    /// The namespace with its journal. What is kept for clients is dropped.
    pub fn into_space(self) -> Space
        ensures { result ≡ self.history }
    {
        let Desk {
            space,
            time: _,
            kept: _,
        } = self;
        space
    }
}

/// The credentials of users.
fn creds_of(alloc: Global, users: &[User]) -> Result<Vec<Creds>, Memory>
    ensures { IfOk result (λ clients. clients.items ≡ map creds_of_user users.now) }
{
    let mut clients = Vec::with_capacity(alloc, users.len())?;
    for user in users {
        clients.push(Creds::new(user.uid, user.gid, &[], user.caps))?;
    }
    Ok(clients)
}

/// So many empty slots.
fn empty_slots(alloc: Global, count: usize) -> Result<Vec<Option<Reply>>, Memory>
    ensures { IfOk result (λ slots. slots.items ≡ replicate count None) }
{
    let mut slots = Vec::with_capacity(alloc, count)?;
    for _ in 0..count {
        slots.push(None)?;
    }
    Ok(slots)
}
