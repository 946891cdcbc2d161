//! Who may call at the end of a run, and what is there.

use crate::lines::name_in;
use client_rights::Client;
use ipc_call::{Call, Kind, Memory, Status};
use ipc_live::{Object, Use};
use ipc_space::{Effects, Space};
use ipc_text::{Command, Line, Reason};
use ipcsh::{Ended, Fault, Listener, Summary, run_text};
use std::alloc::Global;

/// What the run of a script leaves of an object.
#[derive(Debug, Drop)]
pub struct Left {
    /// What the run did.
    pub summary: Summary,
    /// The object, where it is there.
    pub object: Option<Object>,
    /// The clients, in order.
    pub clients: Vec<Client>,
}

/// Runs a script, and gives the object of this kind and identifier as the run leaves it, with the clients. The faults are those of
/// `run_text`.
pub fn left_by(alloc: Global, script: &[u8], kind: Kind, id: u32) -> Result<Left, Fault> {
    let mut names = Names {
        alloc,
        names: Vec::new(alloc),
        has_failed: false,
    };
    match run_text(alloc, script, &mut names) {
        Ok(ended) => {
            let left = left_in(&ended, names, kind, id);
            drop(ended);
            left
        }
        Err(fault) => Err(fault),
    }
}

fn left_in(ended: &Ended, names: Names, kind: Kind, id: u32) -> Result<Left, Fault> {
    let Names {
        alloc,
        names,
        has_failed,
    } = names;
    if has_failed {
        return Err(Fault::Memory);
    }
    let Some(space) = &ended.space else {
        return Ok(Left {
            summary: ended.summary,
            object: None,
            clients: Vec::new(alloc),
        });
    };
    Ok(Left {
        summary: ended.summary,
        object: object_in(space, kind, id),
        clients: clients_of(alloc, space, names)?,
    })
}

/// The object of a kind and an identifier.
fn object_in(space: &Space, kind: Kind, id: u32) -> Option<Object> {
    let (perm, status) = space.status_of(kind, id)?;
    let used = match status {
        Status::Queue(queue) => Use::Queue {
            lspid: queue.lspid,
            lrpid: queue.lrpid,
        },
        Status::Set(_) => Use::Sems,
        Status::Segment(segment) => Use::Segment {
            cpid: segment.cpid,
            lpid: segment.lpid,
            nattch: segment.nattch,
        },
    };
    Some(Object { id, perm, used })
}

/// The clients with the credentials that they have now.
fn clients_of(alloc: Global, space: &Space, names: Vec<String>) -> Result<Vec<Client>, Memory> {
    let mut clients = Vec::new(alloc);
    for (client, name) in (0..u32::MAX).zip(names) {
        if let Some(creds) = space.creds_of(client) {
            clients.push(Client {
                name,
                creds: creds.copy(),
                has_exited: space.has_exited(client),
            })?;
        }
    }
    Ok(clients)
}

/// Collects the names of the clients.
#[derive(Debug, Drop)]
struct Names {
    alloc: Global,
    names: Vec<String>,
    /// Whether memory was refused, so that a name is missing.
    has_failed: bool,
}

impl Names {
    fn add(&mut self, text: &[u8]) -> Result<(), Memory> {
        self.names
            .push(String::from_str(self.alloc, name_in(text))?)?;
        Ok(())
    }
}

impl Listener for Names {
    fn client(&mut self, _number: u64, text: &[u8]) {
        if self.add(text).is_err() {
            self.has_failed = true;
        }
    }

    fn calls(&mut self, _number: u64, _client: u32, _text: &[u8], _command: &Command) {}

    fn bad(&mut self, _number: u64, _line: &Line<'_>, _reason: Reason) {}

    fn entering(&mut self, _space: &Space, _client: u32, _call: &Call) {}

    fn answered(&mut self, _space: &mut Space, _client: u32, _effects: &Effects) {}

    fn ended(&mut self, _space: &mut Space) {}

    fn written(&mut self) {}
}
