//! Clients that wait for one another, and a cycle of them: the project's own.
#![tactic(auto)]

use ipc_call::Memory;
use std::alloc::Global;

/// The most clients that there are.
const CLIENTS_MAX: usize = 64;

/// For each client, for which others it waits: bit 0 stands for client 0.
#[derive(Debug, Drop)]
pub struct Graph {
    edges: Vec<u64>,
}

impl Graph {
    /// As many clients, of which none waits.
    pub fn new(alloc: Global, clients: u32) -> Result<Graph, Memory> {
        let mut edges = Vec::new(alloc);
        for _ in 0..clients {
            edges.push(0)?;
        }
        Ok(Graph { edges })
    }

    /// The client waits for another.
    pub fn add(&mut self, client: u32, other: u32) {
        if let Some(edges) = self.edges.get_mut(client as usize) {
            *edges |= bit_of(other);
        }
    }

    /// Whether the client waits for the other.
    pub fn has(&self, client: u32, other: u32) -> bool {
        match self.edges.get(client as usize) {
            Some(edges) => *edges & bit_of(other) != 0,
            None => false,
        }
    }

    /// A shortest list of clients from this one on, each of which waits for the next, and the last for this one. Empty where
    /// there is none.
    pub fn cycle_from(&self, alloc: Global, start: u32) -> Result<Vec<u32>, Memory> {
        let mut found: Vec<(u32, usize)> = Vec::new(alloc);
        found.push((start, 0))?;
        for index in 0..CLIENTS_MAX {
            let Some((client, _)) = found.get(index).copied() else {
                return Ok(Vec::new(alloc));
            };
            if self.has(client, start) {
                return path_to(alloc, found.as_slice(), index);
            }
            self.find_next(&mut found, client, index)?;
        }
        Ok(Vec::new(alloc))
    }

    /// Appends the clients for which this one waits, and which weren't found yet, with where it stands.
    fn find_next(
        &self,
        found: &mut Vec<(u32, usize)>,
        client: u32,
        index: usize,
    ) -> Result<(), Memory> {
        for other in 0..CLIENTS_MAX {
            let other = other as u32;
            if self.has(client, other) && !found.iter().any(|(known, _)| *known == other) {
                found.push((other, index))?;
            }
        }
        Ok(())
    }
}

fn bit_of(client: u32) -> u64 {
    1u64.checked_shl(client).unwrap_or(0)
}

/// The clients from the first one found to that at an index, each found from the one before it.
fn path_to(alloc: Global, found: &[(u32, usize)], index: usize) -> Result<Vec<u32>, Memory> {
    let mut path = Vec::new(alloc);
    let mut at = index;
    for _ in 0..CLIENTS_MAX {
        let Some((client, before)) = found.get(at) else {
            return Ok(path);
        };
        path.push(*client)?;
        if at == 0 {
            path.reverse();
            return Ok(path);
        }
        at = *before;
    }
    Ok(path)
}
