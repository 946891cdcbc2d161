// Namespaces of eight clients, and their calls.

ghost use Rattle.std.specs.Prelude.{◌≤◌, vec_len, IsTrue, IfOk};
ghost use Rattle.ipc_call.specs.Limits.{are_in_range};

use ipc_space::{Call, Caps, Creds, Effects, Flags, Limits, Memory, Reply, Space};
use std::alloc::Global;
use std::io;
use test_support::clients::user;

/// Room for few objects, and for few and short messages.
pub fn limits() -> Limits
    ensures { IsTrue (are_in_range result) }
{
    Limits {
        queues: 6,
        sets: 6,
        segments: 6,
        first_seq: 0,
        msg_max: 3,
        msg_mnb: 8,
        sem_msl: 3,
        sem_opm: 2,
        shm_max: 6,
    }
}

/// Two of each of three users, of whom the second has another saved user and group; one of these may become any user,
/// and one any group. Then one who may read and alter everything, and one who may control it.
pub fn users(alloc: Global) -> io::Result<Vec<Creds>>
    ensures { IfOk result (λ users. (1 ≤ vec_len users) × (vec_len users ≤ 64)) }
{
    let mut users = Vec::new(alloc);
    for uid in [0, 100, 200] {
        users.push(user(uid, 10))?;
    }
    for (uid, caps) in [(0, Caps::SETUID), (100, Caps::SETGID), (200, Caps::empty())] {
        users.push(Creds::new(uid, 10, &[], caps).with_saved(300, 30))?;
    }
    for caps in [Caps::IPC_OWNER, Caps::SYS_ADMIN] {
        users.push(Creds::new(300, 30, &[], caps))?;
    }
    if users.is_empty() || users.len() > 64 {
        return Err(failed());
    }
    Ok(users)
}

/// Something is not as it must be.
pub fn failed() -> io::Error {
    io::Error::from(io::ErrorKind::Other)
}

/// A namespace of these clients that has served no call.
pub fn opened(alloc: Global) -> io::Result<Space> {
    Ok(Space::start(limits(), users(alloc)?)?)
}

/// How calls ended.
#[derive(Clone, Copy, Debug, Default)]
pub struct Ends {
    pub refused: u64,
    pub waited: u64,
    /// Those that waited and then ended.
    pub ended: u64,
}

impl Ends {
    /// Makes a call of a client, and counts what it tells. False where there is no such client or it waits.
    pub fn call(
        &mut self,
        space: &mut Space,
        client: u32,
        now: u64,
        call: Call,
    ) -> Result<bool, Memory> {
        if client >= space.clients() || space.is_waiting(client) {
            return Ok(false);
        }
        let told = space.apply(client, now, call)?;
        self.add(&told);
        Ok(true)
    }

    fn add(&mut self, told: &Effects) {
        match &told.own {
            None => self.waited = self.waited.saturating_add(1),
            Some(Reply::Entered { outcome, .. }) => {
                if outcome.is_err() {
                    self.refused = self.refused.saturating_add(1);
                }
            }
            Some(Reply::Memory) => {}
        }
        self.ended = self.ended.saturating_add(told.others.len() as u64);
    }
}
