//! The service is closed: its clients are handed in, and the namespace comes back.
ghost use Rattle.std.specs.Prelude.{◌≡◌, false, length, All};
ghost use Rattle.ipc_history.specs.History.{IsLegal};
ghost use Rattle.ipc_combiner.specs.Entries.{entries_of};
ghost use Rattle.pub_list.specs.Closing.{list_of, work_of as end_work};
ghost use Rattle.ipc_combiner.specs.Closing.{work_of, IsClientOf, IsOpenedBy, IsTold};
ghost use Rattle.ipc_combiner.specs.States.{keeping, opened, Records};
ghost use Rattle.ipc_combiner.specs.declared.entries.Keeping.TheVariants.{Whole};

use crate::shared::Shared;
use crate::states::{Idle, InFlight, Service, Unjoined};
use ipc_space::{Ledger, Space};
use pub_list::End;

/// A client that is handed in as the service is closed.
#[derive(Drop)]
pub enum Client {
    /// It hasn't joined.
    Unjoined(Unjoined),
    /// It asks nothing.
    Idle(Idle),
    /// Its call is in flight.
    InFlight(InFlight),
}

impl Service {
    /// Closes a service that keeps its journal whole, with all its clients, and gives the namespace with its journal. A call in
    /// flight that no combiner served is in no history; one that waits, waits in the namespace that comes back.
    pub fn close(self, clients: Vec<Client>) -> Space
        requires keeping { keeping self.list ≡ Whole }
        requires all { length clients.items ≡ self.list.clients }
        requires service { All (λ c. IsClientOf self.list c) clients.items }
        ensures opening { IsOpenedBy (opened self.list) self.list.clients result }
        ensures legal { IsLegal result }
        ensures told { All (λ c. IsTold (entries_of Whole result) clients.items c) clients.items }
    {
        self.close_ledger(clients).into_space()
    }

    /// Closes any service, and gives the namespace with those rows of its journal that weren't handed out.
    pub fn close_ledger(self, clients: Vec<Client>) -> Ledger
        requires all { length clients.items ≡ self.list.clients }
        requires service { All (λ c. IsClientOf self.list c) clients.items }
        ensures opening { IsOpenedBy (opened self.list) self.list.clients result.history }
        ensures legal { IsLegal result.history }
        ensures told { All (λ c. IsTold (entries_of (keeping self.list) result.history) clients.items c) clients.items }
        ensures kept { keeping self.list ≡ Whole → result.given ≡ 0 }
    {
        let mut closing = self.list.closing();
        for client in clients {
            closing.add(client.end());
        }
        let Shared { ledger, .. } = closing.end();
        Box::into_inner(ledger)
    }
}

impl Client {
    // Its record, as the list takes it in.
    fn end(self) -> End<Shared>
        ensures list { (list : Records) → IsClientOf list self → list_of result ≡ list.table.shared.table_id }
        ensures work { end_work result ≡ work_of self }
        ensures unheld { (end_work result).holds ≡ false }
    {
        match self {
            Client::Unjoined(client) => End::Fresh(client.fresh),
            Client::Idle(client) => End::Joined(client.joined),
            Client::InFlight(client) => End::Joined(client.joined),
        }
    }
}
