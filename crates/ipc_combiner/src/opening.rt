//! A service is opened.
ghost use Rattle.std.specs.Prelude.{◌≡◌, ◌≤◌, map, vec_len, IsTrue, IfOk};
ghost use Rattle.ipc_call.specs.Limits.{are_in_range};
ghost use Rattle.ipc_combiner.specs.Started.{IsStarted};
ghost use Rattle.ipc_combiner.specs.declared.entries.Keeping.TheVariants.{Whole};

use crate::entries::Keeping;
use crate::shared::Shared;
use crate::sleeping::Sleepers;
use crate::states::{Service, Unjoined};
use ipc_call::{Limits, Memory};
use ipc_creds::Creds;
use ipc_space::Ledger;
use pub_list::{Fresh, List};
use std::alloc::Global;

impl Service {
    /// A service with these limits, each in its range, for 1 to 64 clients, numbered from 0 in the order of their
    /// credentials; and its clients, none of which has joined. It keeps its journal whole. Memory (ENOMEM) is for an
    /// allocation that was refused.
    pub fn start(
        alloc: Global,
        limits: Limits,
        clients: Vec<Creds>,
    ) -> Result<(Service, Vec<Unjoined>), Memory>
        requires limits { IsTrue (are_in_range limits) }
        requires some { 1 ≤ vec_len clients }
        requires few { vec_len clients ≤ 64 }
        ensures { IfOk result (λ start. IsStarted limits clients Whole start) }
    {
        Service::start_keeping(alloc, limits, clients, Keeping::Whole)
    }

    /// The same, which keeps this of its journal.
    pub fn start_keeping(
        alloc: Global,
        limits: Limits,
        clients: Vec<Creds>,
        keeping: Keeping,
    ) -> Result<(Service, Vec<Unjoined>), Memory>
        requires limits { IsTrue (are_in_range limits) }
        requires some { 1 ≤ vec_len clients }
        requires few { vec_len clients ≤ 64 }
        ensures { IfOk result (λ start. IsStarted limits clients keeping start) }
    {
        let count = clients.len() as u32;
        let ledger = Box::new(alloc, Ledger::start(limits, clients)?)?;
        let (list, fresh) = List::new(alloc, count, Shared { ledger, keeping })?;
        let unjoined = unjoined_of(alloc, fresh)?;
        let sleepers = Sleepers::none();
        Ok((Service { list, sleepers }, unjoined))
    }
}

// Clients that haven't joined, by their records.
fn unjoined_of(alloc: Global, fresh: Vec<Fresh<Shared>>) -> Result<Vec<Unjoined>, Memory>
    ensures { IfOk result (λ m. map (λ u. u.fresh) m.items ≡ fresh.items) }
{
    let mut unjoined = Vec::with_capacity(alloc, fresh.len())?;
    for each in fresh {
        unjoined.push(Unjoined { fresh: each })?;
    }
    Ok(unjoined)
}
