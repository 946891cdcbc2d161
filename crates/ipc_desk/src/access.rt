//! Who may do what with an object, looked up without a call.

ghost use Rattle.std.specs.Prelude.{◌≡◌};
ghost use Rattle.ipc_history.specs.History.{run};
ghost use Rattle.ipc_desk.specs.Accesses.{access_to};

use crate::desk::Desk;
use call_values::{Client, Object};
use ipc_perm::{Ground, TO_ALTER, TO_READ, Verdict, decide, may_control};
use std::fmt;

/// Whether something is allowed, and why.
#[derive(Clone, Copy, Debug, PartialEq, Eq)]
pub struct May(pub Verdict);

/// What a client may do with an object (POSIX.1-2017 XSH 2.7.1).
#[derive(Clone, Copy, Debug, PartialEq, Eq)]
pub struct Access {
    /// To read what it holds, as msgrcv does.
    pub read: May,
    /// To change what it holds, as msgsnd and semop do.
    pub alter: May,
    /// To set and remove it.
    pub control: May,
}

impl Desk {
    /// What a client may do with an object now, by its credentials and the object's permissions. None where there is no such
    /// client or object. No call is made.
    pub fn access(&self, client: Client, object: Object) -> Option<Access>
        ensures { result ≡ access_to (run self.now.history) client.0 object }
    {
        let creds = self.space.creds_of(client.0)?;
        let perm = self.space.perm_of(object.kind(), object.id())?;
        Some(Access {
            read: May(decide(creds, &perm, TO_READ)),
            alter: May(decide(creds, &perm, TO_ALTER)),
            control: May(may_control(creds, &perm)),
        })
    }
}

/// In words: `read yes, as the owner; write no, by owner-bits; set and remove yes, as the owner`.
impl fmt::Display for Access {
    fn fmt<W: fmt::Write>(&self, f: &mut fmt::Formatter<W>) -> fmt::Result {
        let Access {
            read,
            alter,
            control,
        } = *self;
        write!(f, "read {read}; write {alter}; set and remove {control}")
    }
}

/// In words: `yes, as the owner`, or `no, by owner-bits`.
impl fmt::Display for May {
    fn fmt<W: fmt::Write>(&self, f: &mut fmt::Formatter<W>) -> fmt::Result {
        match self.0 {
            Verdict::Allowed(ground) => f.pad(ground_text(ground)),
            Verdict::Denied(rule) => write!(f, "no, by {}", rule.name()),
        }
    }
}

fn ground_text(ground: Ground) -> &'static str {
    match ground {
        Ground::Owner => "yes, as the owner",
        Ground::Group => "yes, by the group",
        Ground::Other => "yes, as others may",
        Ground::IpcOwner => "yes, by CAP_IPC_OWNER",
        Ground::SysAdmin => "yes, by CAP_SYS_ADMIN",
    }
}
