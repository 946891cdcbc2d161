// What a server gives: what is to be done, and the rows of its journal.

ghost use Rattle.std.specs.Prelude.{◌≡◌, ◌+◌, ◌<◌, ◌≤◌, ◌^◌, drop, length, slice_get, vec_len, OnErr, OnOk};
ghost use Rattle.ipc_history.specs.History.{rows_of};
ghost use Rattle.ipc_server.specs.Held.{Stays};

use crate::opening::ROWS_MAX;
use crate::outputs::Output;
use crate::server::Server;
use ipc_call::{JournalRow, Memory};
use ipc_creds::Creds;

impl Server {
    /// What is to be done next, which is taken out. Where it is a reply, `ipc_wire::ReplyBytes` writes its bytes.
    pub fn next_output(&mut self) -> Option<Output>
        ensures first { result ≡ slice_get self.old.outputs.list 0 }
        ensures rest { self.new.outputs.list ≡ drop 1 self.old.outputs.list }
        ensures outputs_room { self.old.outputs.room ≤ self.new.outputs.room }
        ensures server { self.new.server ≡ self.old.server }
        ensures given { self.new.given ≡ self.old.given }
        ensures room { self.new.room ≡ self.old.room }
    {
        self.outputs.pop()
    }

    /// Hands out the rows of the journal that it holds, oldest first, as `Ledger::take_rows` does. `make_ready` then makes room for
    /// further ones.
    pub fn take_rows(&mut self) -> Vec<JournalRow>
        ensures rows { result.items ≡ drop self.old.given (rows_of self.old.server.history) }
        ensures given { self.new.given ≡ length (rows_of self.old.server.history) }
        ensures count { self.old.given + vec_len result ≡ length (rows_of self.old.server.history) }
        ensures fits { length (rows_of self.old.server.history) < 2 ^ 64 }
        ensures server { self.new.server ≡ self.old.server }
        ensures outputs { self.new.outputs ≡ self.old.outputs }
    {
        self.ledger.take_rows()
    }

    /// Hands out the rows of the journal to nobody. Their room is for further ones.
    pub fn forget_rows(&mut self)
        ensures given { self.new.given ≡ length (rows_of self.old.server.history) }
        ensures room { self.old.room ≤ self.new.room }
        ensures server { self.new.server ≡ self.old.server }
        ensures outputs { self.new.outputs ≡ self.old.outputs }
    {
        self.ledger.forget_rows();
    }

    /// Makes room in the journal for the rows of the next event. Memory (ENOMEM) comes where an allocation fails, and where the
    /// journal would have 2^64 rows.
    pub fn make_ready(&mut self) -> Result<(), Memory>
        ensures kept { Stays self.old self.new }
        ensures ok { OnOk result (ROWS_MAX ≤ self.new.room) }
        ensures err { OnErr result (self.new ≡ self.old) }
    {
        self.ledger.reserve(ROWS_MAX)
    }

    /// The credentials of the clients at the start, by which the journal is replayed, as `Ledger::opening` tells them.
    pub fn opening(&self) -> &[Creds]
        ensures { result.now ≡ self.now.server.history.clients }
    {
        self.ledger.opening()
    }
}
