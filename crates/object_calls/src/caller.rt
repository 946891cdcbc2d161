//! Who calls.

ghost use Rattle.std.specs.Prelude.{◌≡◌, Some, None, IfOk, IfErr, option_copied};
ghost use Rattle.ipc_perm.specs.Access.{Permission, denial};
ghost use Rattle.object_calls.specs.Permitted.{refusal};

use ipc_call::Rule;
use ipc_creds::Creds;
use ipc_objects::Object;
use ipc_perm::{Verdict, Want, decide};
use std::marker::Model;

/// A client that calls, of which process, with its credentials, and when.
#[derive(Debug, Drop)]
pub struct Caller<'a> {
    client: u32,
    process: u64,
    pid: u32,
    creds: &'a Creds,
    now: u64,
}

impl<'a> Model for Caller<'a> {
    ghost use Rattle.ipc_model.specs.State.{Caller as CallerOf};

    ghost Value = { CallerOf };

    ghost view = { λ c. record { client = c.client; process = c.process; pid = c.pid; creds = c.creds.now; now = c.now } };
}

impl<'a> Caller<'a> {
    /// The client of a number, of the process of a number with its pid, at a time in seconds.
    pub fn new(client: u32, process: u64, pid: u32, creds: &'a Creds, now: u64) -> Caller<'a>
        ensures { result ≡ record { client = client; process = process; pid = pid; creds = creds.now; now = now } }
    {
        Caller {
            client,
            process,
            pid,
            creds,
            now,
        }
    }

    /// The number of its process, by which semadj and attachments are kept.
    pub fn process(&self) -> u64
        ensures { result ≡ self.entry.now.process }
    {
        self.process
    }

    /// The pid of its process, as objects show it.
    pub fn pid(&self) -> u32
        ensures { result ≡ self.entry.now.pid }
    {
        self.pid
    }

    /// Its credentials.
    pub fn creds(&self) -> &Creds
        ensures { result.now ≡ self.entry.now.creds }
    {
        self.creds
    }

    /// When it calls, in seconds.
    pub fn now(&self) -> u64
        ensures { result ≡ self.entry.now.now }
    {
        self.now
    }

    /// The object that was looked up by its identifier, where there is one and the caller has these rights at it.
    pub fn permitted<'o, T>(
        &self,
        there: Option<&'o Object<T>>,
        want: Want,
    ) -> Result<&'o Object<T>, Rule>
        ensures there { IfOk result (λ object. option_copied there.entry ≡ Some object.now) }
        ensures permitted { IfOk result (λ object.
            denial self.entry.now.creds (Permission object.now.perm want) ≡ None) }
        ensures refused { IfErr result (λ rule.
            refusal self.entry.now.creds want (option_copied there.entry) ≡ Some rule) }
    {
        let Some(object) = there else {
            return Err(Rule::BadId);
        };
        match decide(self.creds, &object.perm, want) {
            Verdict::Denied(rule) => Err(rule),
            Verdict::Allowed(_) => Ok(object),
        }
    }
}
