//! The calls on processes, and lists of objects.

ghost use Rattle.std.specs.Prelude.{◌≡◌, option_map};
ghost use Rattle.ipc_call.specs.declared.calls.Call.TheVariants as calls;
ghost use Rattle.ipc_call.specs.declared.replies.Answer.TheVariants as answers;
ghost use Rattle.ipc_desk.specs.Desks.{Comes, told};

use crate::desk::Desk;
use call_values::{Client, Failure};
use ipc_call::{Boxed, Call, Identity, Items, Kind, Row};

impl Desk {
    /// The objects of a kind that the client may read, by rising slot (ipcs(1)).
    pub fn list(&mut self, client: Client, kind: Kind) -> Result<Vec<Row>, Failure>
        ensures { Comes self.old self.new client.0 (calls.Listing kind)
            (told (λ rows. answers.Rows rows.items) result) }
    {
        self.ask_rows(client, Call::Listing { kind })
    }

    /// Ends the waiting call of another client, as a signal would that its thread catches (EINTR of msgop(2)). It stands for tgkill(2).
    pub fn interrupt(&mut self, client: Client, other: Client) -> Result<(), Failure>
        ensures { Comes self.old self.new client.0 (calls.InterruptThread other.0) (told (λ done. answers.Done) result) }
    {
        self.ask_done(client, Call::InterruptThread { client: other.0 })
    }

    /// Ends the waiting calls of all threads of a process. It stands for kill(2).
    pub fn interrupt_process(&mut self, client: Client, pid: u32) -> Result<(), Failure>
        ensures { Comes self.old self.new client.0 (calls.Interrupt pid) (told (λ done. answers.Done) result) }
    {
        self.ask_done(client, Call::Interrupt { pid })
    }

    /// Ends a process with all its threads (SIGKILL of signal(7)), whose waiting calls end first.
    pub fn kill(&mut self, client: Client, pid: u32) -> Result<(), Failure>
        ensures { Comes self.old self.new client.0 (calls.Kill pid) (told (λ done. answers.Done) result) }
    {
        self.ask_done(client, Call::Kill { pid })
    }

    /// Makes a client that has ended a new process of this number, with the credentials and the attachments of the caller's process
    /// and no semadj (fork(2)).
    pub fn fork(&mut self, client: Client, child: Client, pid: u32) -> Result<(), Failure>
        ensures { Comes self.old self.new client.0 (calls.Fork child.0 pid) (told (λ done. answers.Done) result) }
    {
        self.ask_done(
            client,
            Call::Fork {
                child: child.0,
                pid,
            },
        )
    }

    /// Makes a client that has ended one more thread of the caller's process (pthread_create(3)).
    pub fn clone(&mut self, client: Client, child: Client) -> Result<(), Failure>
        ensures { Comes self.old self.new client.0 (calls.Clone child.0) (told (λ done. answers.Done) result) }
    {
        self.ask_done(client, Call::Clone { child: child.0 })
    }

    /// Ends the other threads of the client's process, detaches all, and makes the saved user and group the effective ones (execve(2)).
    pub fn exec(&mut self, client: Client) -> Result<(), Failure>
        ensures { Comes self.old self.new client.0 calls.Exec (told (λ done. answers.Done) result) }
    {
        self.ask_done(client, Call::Exec)
    }

    /// Makes the client, which has ended, a new process of this number with these credentials. It is the project's own.
    pub fn begin(&mut self, client: Client, pid: u32, creds: Boxed<Identity>) -> Result<(), Failure>
        ensures { Comes self.old self.new client.0 (calls.Begin pid creds) (told (λ done. answers.Done) result) }
    {
        self.ask_done(client, Call::Begin { pid, creds })
    }

    /// Gives the client's process another number. It is the project's own.
    pub fn name(&mut self, client: Client, pid: u32) -> Result<(), Failure>
        ensures { Comes self.old self.new client.0 (calls.Name pid) (told (λ done. answers.Done) result) }
    {
        self.ask_done(client, Call::Name { pid })
    }

    /// Gives the client these credentials, and asks for no right. It is the project's own.
    pub fn assume(&mut self, client: Client, creds: Boxed<Identity>) -> Result<(), Failure>
        ensures { Comes self.old self.new client.0 (calls.Assume creds) (told (λ done. answers.Done) result) }
    {
        self.ask_done(client, Call::Assume { creds })
    }

    /// Gives the client another effective user and group, and other supplementary groups where some are given (seteuid(2),
    /// setegid(2) and setgroups(2) in one); None keeps them. It is the project's own.
    pub fn setcreds(
        &mut self,
        client: Client,
        euid: u32,
        egid: u32,
        groups: Option<Vec<u32>>,
    ) -> Result<(), Failure>
        ensures { Comes self.old self.new client.0 (calls.SetCreds euid egid (option_map (λ list. list.items) groups))
            (told (λ done. answers.Done) result) }
    {
        let call = Call::SetCreds {
            euid,
            egid,
            groups: groups.map(Items::new),
        };
        self.ask_done(client, call)
    }

    /// Ends the thread of the client (_exit(2)), and with the last one its process: what its semops with `UNDO` left to undo is added to
    /// the values, and what it has attached is detached. The client's later calls are refused, until it is taken again.
    pub fn exit(&mut self, client: Client) -> Result<(), Failure>
        ensures { Comes self.old self.new client.0 calls.Exit (told (λ done. answers.Done) result) }
    {
        self.ask_done(client, Call::Exit)
    }
}
