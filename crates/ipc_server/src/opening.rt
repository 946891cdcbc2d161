// How a server is opened.

ghost use Rattle.std.specs.Prelude.{◌≡◌, ◌+◌, ◌<◌, ◌≤◌, ◌^◌, [], length, replicate, vec_capacity, vec_len, IfOk, IsTrue};
ghost use Rattle.ipc_call.specs.Limits.{are_in_range};
ghost use Rattle.ipc_history.specs.History.{IsLegal};
ghost use Rattle.ipc_server.specs.Held.{HasRoom};
ghost use Rattle.ipc_server.specs.Openings.{held_by, opened, opened_history, supervisor_creds};
ghost use Rattle.ipc_server.specs.declared.peers.Conn.TheVariants.{Absent};
ghost use Rattle.ipc_server.specs.declared.peers.Role.TheVariants.{Free};

use crate::peers::{Bounds, Conn, Role};
use crate::queue::Outputs;
use crate::server::{ENDED_MAX, FIRST_CHILD, MEMORY_MAX, SUPERVISOR, Server};
use bitflags::Flags;
use ipc_call::{Call, Limits, Memory, Reply};
use ipc_creds::{Caps, Creds};
use ipc_space::Ledger;
use std::alloc::Global;

/// How many rows of the journal an event may take, and how many things it may give beside those for connections and segments.
pub(crate) const ROWS_MAX: usize = 16_392;

/// The bits of all capabilities.
const ALL_CAPS: u8 = 31;

pub(crate) const OUTPUTS_MAX: usize = 16_400;

impl Server {
    /// A server of a namespace with these limits, for so many clients, of which one is its own, and for connections of the
    /// numbers from 0 to below `conns`. Memory (ENOMEM) comes where an allocation fails; the events that come then take memory for
    /// what calls ask alone.
    pub fn open(
        alloc: Global,
        limits: Limits,
        clients: u32,
        conns: u32,
        bounds: Bounds,
    ) -> Result<Server, Memory>
        requires limits { IsTrue (are_in_range limits) }
        requires some { 2 ≤ clients }
        requires few { clients ≤ 4096 }
        requires conns { conns ≤ 65536 }
        ensures server { IfOk result (λ server. server.server ≡ opened limits clients conns bounds) }
        ensures given { IfOk result (λ server. server.given ≡ 0) }
        ensures room { IfOk result (λ server. HasRoom server 16392 (49169 + conns)) }
    {
        let ledger = ledger_for(alloc, limits, clients)?;
        with_ledger(alloc, ledger, conns as usize, bounds)
    }
}

/// A server of this namespace.
fn with_ledger(
    alloc: Global,
    ledger: Ledger,
    conns: usize,
    bounds: Bounds,
) -> Result<Server, Memory>
    requires legal { IsLegal ledger.history }
    requires few { length ledger.history.clients ≤ 4096 }
    requires conns { conns ≤ 65536 }
    ensures server { IfOk result (λ server. server.server ≡ held_by ledger.history conns bounds) }
    ensures given { IfOk result (λ server. server.given ≡ ledger.given) }
    ensures room { IfOk result (λ server. server.room ≡ ledger.room) }
    ensures outputs { IfOk result (λ server. server.outputs.list ≡ []) }
    ensures outputs_room { IfOk result (λ server. 49169 + conns ≤ server.outputs.room) }
{
    let clients = ledger.clients() as usize;
    let (conns, roles) = lists_for(alloc, conns, clients)?;
    let rooms = rooms_for(alloc, conns.len())?;
    Ok(assembled(ledger, conns, roles, rooms, bounds))
}

/// The lists that are empty at the start, with their room.
struct Rooms {
    memory: Vec<u32>,
    outputs: Outputs,
    others: Vec<(u32, Reply)>,
}

/// A server of its parts.
fn assembled(
    ledger: Ledger,
    conns: Vec<Conn>,
    roles: Vec<Role>,
    rooms: Rooms,
    bounds: Bounds,
) -> Server
    requires legal { IsLegal ledger.history }
    requires few { length ledger.history.clients ≤ 4096 }
    requires conns { vec_len conns ≤ 65536 }
    requires roles { vec_len roles ≡ length ledger.history.clients }
    requires none { rooms.others.items ≡ [] }
    requires no_memory { rooms.memory.items ≡ [] }
    requires others_room { 4096 ≤ vec_capacity rooms.others }
    requires memory_room { 32769 ≤ vec_capacity rooms.memory }
    ensures { result ≡ record { server = record { history = ledger.history; conns = conns.items; roles = roles.items; memory = []; bounds = bounds }; given = ledger.given; room = ledger.room; outputs = rooms.outputs } }
{
    let Rooms {
        memory,
        outputs,
        others,
    } = rooms;
    Server {
        ledger,
        conns,
        roles,
        memory,
        bounds,
        outputs,
        others,
    }
}

/// So many numbers of connections that aren't there, and so many clients that are lent to nothing.
fn lists_for(alloc: Global, conns: usize, clients: usize) -> Result<(Vec<Conn>, Vec<Role>), Memory>
    ensures conns { IfOk result (λ lists. lists.0.items ≡ replicate conns Absent) }
    ensures roles { IfOk result (λ lists. lists.1.items ≡ replicate clients Free) }
{
    let conns = absent(alloc, conns)?;
    let roles = free(alloc, clients)?;
    Ok((conns, roles))
}

/// Empty lists with room for what an event may give.
fn rooms_for(alloc: Global, conns: usize) -> Result<Rooms, Memory>
    requires few { conns ≤ 65536 }
    ensures none { IfOk result (λ rooms. rooms.others.items ≡ []) }
    ensures no_memory { IfOk result (λ rooms. rooms.memory.items ≡ []) }
    ensures outputs { IfOk result (λ rooms. rooms.outputs.list ≡ []) }
    ensures outputs_room { IfOk result (λ rooms. 49169 + conns ≤ rooms.outputs.room) }
    ensures others_room { IfOk result (λ rooms. 4096 ≤ vec_capacity rooms.others) }
    ensures memory_room { IfOk result (λ rooms. 32769 ≤ vec_capacity rooms.memory) }
{
    let memory = Vec::with_capacity(alloc, MEMORY_MAX)?;
    let outputs = Outputs::with_room(alloc, OUTPUTS_MAX + MEMORY_MAX + conns)?;
    let others = Vec::with_capacity(alloc, ENDED_MAX)?;
    Ok(Rooms {
        memory,
        outputs,
        others,
    })
}

/// A namespace for so many clients, of which all but the server's own have exited.
fn ledger_for(alloc: Global, limits: Limits, clients: u32) -> Result<Ledger, Memory>
    requires limits { IsTrue (are_in_range limits) }
    requires some { 2 ≤ clients }
    requires few { clients ≤ 4096 }
    ensures history { IfOk result (λ ledger. ledger.history ≡ opened_history limits clients) }
    ensures given { IfOk result (λ ledger. ledger.given ≡ 0) }
    ensures legal { IfOk result (λ ledger. IsLegal ledger.history) }
    ensures room { IfOk result (λ ledger. 16392 ≤ ledger.room) }
{
    let mut ledger = Ledger::start_living(limits, supervisors(alloc, clients as usize)?, 1)?;
    know_legal(&ledger);
    let effects = ledger.apply(SUPERVISOR, 0, Call::Name { pid: FIRST_CHILD })?;
    drop(effects);
    ledger.reserve(ROWS_MAX)?;
    Ok(ledger)
}

/// The history of a namespace is legal, always.
fn know_legal(ledger: &Ledger)
    ensures { IsLegal ledger.now.history }
{
    ledger.rows();
}

/// The credentials of a client of the server's own, as many times.
fn supervisors(alloc: Global, count: usize) -> Result<Vec<Creds>, Memory>
    ensures { IfOk result (λ clients. clients.items ≡ replicate count supervisor_creds) }
{
    let mut clients = Vec::with_capacity(alloc, count)?;
    for _ in 0..count {
        let caps = Caps::from_bits_retain(ALL_CAPS);
        clients.push(Creds::new(0, 0, &[], caps))?;
    }
    Ok(clients)
}

/// So many numbers of connections that aren't there.
fn absent(alloc: Global, count: usize) -> Result<Vec<Conn>, Memory>
    ensures { IfOk result (λ conns. conns.items ≡ replicate count Absent) }
{
    let mut conns = Vec::with_capacity(alloc, count)?;
    for _ in 0..count {
        conns.push(Conn::Absent)?;
    }
    Ok(conns)
}

/// So many clients that are lent to nothing.
fn free(alloc: Global, count: usize) -> Result<Vec<Role>, Memory>
    ensures { IfOk result (λ roles. roles.items ≡ replicate count Free) }
{
    let mut roles = Vec::with_capacity(alloc, count)?;
    for _ in 0..count {
        roles.push(Role::Free)?;
    }
    Ok(roles)
}
