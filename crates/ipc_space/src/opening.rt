// A namespace in which only some clients live at the start.

ghost use Rattle.std.specs.Prelude.{◌≡◌, ◌≤◌, ◌-◌, vec_len, IsTrue, IfOk};
ghost use Rattle.ipc_call.specs.Limits.{are_in_range};
ghost use Rattle.ipc_space.specs.Openings.{exits};

use crate::ledger::Ledger;
use ipc_call::{Call, Limits, Memory};
use ipc_creds::Creds;

impl Ledger {
    /// A namespace as `start` opens it, of whose clients only the first `live` live: each other one has exited, at second 0
    /// and in the order of their numbers, by the first events of the journal. So there are clients that can begin later. Memory
    /// (ENOMEM) comes where an allocation fails.
    pub fn start_living(limits: Limits, clients: Vec<Creds>, live: u32) -> Result<Ledger, Memory>
        requires limits { IsTrue (are_in_range limits) }
        requires some { 1 ≤ vec_len clients }
        requires few { vec_len clients ≤ 4096 }
        ensures history { IfOk result (λ ledger. ledger.history ≡ record { limits = limits; clients = clients.items; events = exits live (vec_len clients - live) }) }
        ensures given { IfOk result (λ ledger. ledger.given ≡ 0) }
    {
        let count = clients.len() as u32;
        let mut ledger = Ledger::start(limits, clients)?;
        for client in live..count {
            ledger.apply(client, 0, Call::Exit)?;
        }
        Ok(ledger)
    }
}
