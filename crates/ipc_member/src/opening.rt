//! A service is opened, and all its clients join it.
ghost use Rattle.std.specs.Prelude.{◌≡◌, ℕ, ◌≤◌, [], length, map, vec_len, IsTrue, IfOk, IfSome, All};
ghost use Rattle.std.specs.List.{slice_get};
ghost use Rattle.std.specs.Arc.{arc_value};
ghost use Rattle.ipc_call.specs.Limits.{are_in_range};
ghost use Rattle.ipc_combiner.specs.declared.entries.Keeping.TheVariants.{Nothing};
ghost use Rattle.ipc_combiner.specs.States.{IsUnjoinedOf};
ghost use Rattle.ipc_member.specs.Members.{AreOf, number_of, service_of};

use crate::states::Member;
use ipc_call::{Limits, Memory};
use ipc_combiner::{Keeping, Service, Unjoined};
use ipc_creds::Creds;
use std::alloc::Global;
use std::sync::Arc;

/// Opens a service with these limits, each in its range, for 1 to 64 clients, numbered from 0 in the order of their
/// credentials, and gives the clients, each of which has joined. It keeps nothing of its journal. Memory (ENOMEM) is for an
/// allocation that fails.
pub fn open(alloc: Global, limits: Limits, clients: Vec<Creds>) -> Result<Vec<Member>, Memory>
    requires limits { IsTrue (are_in_range limits) }
    requires some { 1 ≤ vec_len clients }
    requires few { vec_len clients ≤ 64 }
    ensures opening { IfOk result (λ members. AreOf Nothing (record { limits = limits; clients = clients.items; events = [] }) members.items) }
    ensures count { IfOk result (λ members. length members.items ≡ vec_len clients) }
    ensures numbers { IfOk result (λ members. (k : ℕ) → IfSome (slice_get members.items k) (λ m. number_of m ≡ k)) }
{
    open_keeping(alloc, limits, clients, Keeping::Nothing)
}

/// The same, of a service that keeps this of its journal. Of one that keeps rows until they are taken a client takes them by
/// `Member::take_rows`.
pub fn open_keeping(
    alloc: Global,
    limits: Limits,
    clients: Vec<Creds>,
    keeping: Keeping,
) -> Result<Vec<Member>, Memory>
    requires limits { IsTrue (are_in_range limits) }
    requires some { 1 ≤ vec_len clients }
    requires few { vec_len clients ≤ 64 }
    ensures opening { IfOk result (λ members. AreOf keeping (record { limits = limits; clients = clients.items; events = [] }) members.items) }
    ensures count { IfOk result (λ members. length members.items ≡ vec_len clients) }
    ensures numbers { IfOk result (λ members. (k : ℕ) → IfSome (slice_get members.items k) (λ m. number_of m ≡ k)) }
{
    let (service, unjoined) = Service::start_keeping(alloc, limits, clients, keeping)?;
    let service = Arc::new(alloc, service)?;
    joined(alloc, &service, unjoined)
}

// Each client joins the service.
fn joined(
    alloc: Global,
    service: &Arc<Service, Global>,
    clients: Vec<Unjoined>,
) -> Result<Vec<Member>, Memory>
    requires { All (λ u. IsUnjoinedOf (arc_value service.now).list u.fresh) clients.items }
    ensures service { IfOk result (λ members. All (λ m. service_of m ≡ arc_value service.now) members.items) }
    ensures numbers { IfOk result (λ members. map number_of members.items ≡ map (λ u. u.fresh.client) clients.items) }
{
    let mut members = Vec::with_capacity(alloc, clients.len())?;
    for client in clients {
        members.push(Member::join(service, client)?)?;
    }
    Ok(members)
}
