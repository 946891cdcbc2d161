//! A service is opened for clients, each of which gets a value of its own.

ghost use Rattle.std.specs.Prelude.{◌≡◌, ◌≢◌, ◌≤◌, Err, true, false, box_value, length, map, option_map, IfOk, IfSome};
ghost use Rattle.ipc_call.specs.Limits.{are_in_range};
ghost use Rattle.ipc_abi.specs.Openings.{creds_in, journal_in, limits_in};
ghost use Rattle.ipc_seat.specs.Codes.{code_of_opening};
ghost use Rattle.std.specs.List.{slice_get};
ghost use Rattle.ipc_seat.specs.Journals.{IsFirst};
ghost use Rattle.ipc_seat.specs.Openings.{AreClients, AreOpened, AreSeated, keeping_for, state_in};
ghost use Rattle.ipc_seat.specs.declared.opening.NotOpened.TheVariants.{BadLimits, BadClients, NoRoom};

use crate::seat::{Phase, Seat};
use ipc_abi::{RawClient, RawLimits, creds_of};
use ipc_call::{Limits, Memory, Reply};
use ipc_creds::Creds;
use ipc_member::{Keeping, Member};
use journal_reader::Reader;
use std::alloc::Global;

/// Why a service isn't opened.
#[derive(Clone, Copy, Debug, PartialEq, Eq)]
pub enum NotOpened {
    /// A limit isn't in its range.
    BadLimits,
    /// There are none or more than 64 clients; or one has more than 32 supplementary groups, or capabilities that there
    /// aren't.
    BadClients,
    /// There aren't as many places for handles as clients.
    NoRoom,
    /// An allocation fails (ENOMEM).
    Memory,
}

impl NotOpened {
    /// Its code.
    pub fn code(self) -> i32
        ensures { result ≡ code_of_opening self }
    {
        match self {
            NotOpened::NoRoom => -6,
            NotOpened::Memory => -7,
            NotOpened::BadLimits => -8,
            NotOpened::BadClients => -9,
        }
    }
}

impl From<Memory> for NotOpened {
    ghost use Rattle.ipc_seat.specs.declared.opening.NotOpened.TheVariants.{Memory as NoMemory};

    ghost from_gives = { λ _ error. error ≡ NoMemory };

    fn from(_memory: Memory) -> NotOpened {
        NotOpened::Memory
    }
}

/// Opens a service with these limits for these clients, and gives a value for each, in their order. It keeps its journal until the
/// first of them reads it, or nothing of it.
pub fn open(
    alloc: Global,
    limits: &RawLimits,
    clients: &[RawClient],
) -> Result<Vec<Box<Seat>>, NotOpened>
    ensures opened { IfOk result (λ seats. AreOpened (journal_in limits.now) (limits_in limits.now) (map creds_in clients.now) seats.items) }
    ensures limits { result ≡ Err BadLimits → are_in_range (limits_in limits.now) ≡ false }
    ensures clients { result ≡ Err BadClients → ¬ AreClients clients.now }
    ensures room { result ≢ Err NoRoom }
{
    let journal = limits.keeps_journal();
    let limits = limits.limits();
    if !limits.in_range() {
        return Err(NotOpened::BadLimits);
    }
    if clients.is_empty() || clients.len() > 64 || !clients.iter().all(RawClient::is_valid) {
        return Err(NotOpened::BadClients);
    }
    let creds = creds_of(alloc, clients)?;
    let reader = reader_for(alloc, &limits, creds.as_slice(), journal)?;
    let members = ipc_member::open_keeping(alloc, limits, creds, keeping_for(journal))?;
    let seats = seated(alloc, members)?;
    Ok(with_reader(seats, reader))
}

// What a service keeps of its journal.
fn keeping_for(journal: bool) -> Keeping
    ensures { result ≡ keeping_for journal }
{
    if journal {
        Keeping::UntilTaken
    } else {
        Keeping::Nothing
    }
}

// A reader of the journal, where there is one.
fn reader_for(
    alloc: Global,
    limits: &Limits,
    clients: &[Creds],
    journal: bool,
) -> Result<Option<Box<Reader>>, Memory>
    requires { length clients.now ≤ 64 }
    ensures { IfOk result (λ reader. journal ≡ true → IsFirst limits.now clients.now (option_map (λ r. box_value r) reader)) }
{
    if !journal {
        return Ok(None);
    }
    let reader = Reader::new(alloc, limits, clients)?;
    Ok(Some(Box::new(alloc, reader)?))
}

// The first client reads the journal.
fn with_reader(seats: Vec<Box<Seat>>, reader: Option<Box<Reader>>) -> Vec<Box<Seat>>
    ensures states { map state_in result.items ≡ map state_in seats.items }
    ensures first { IfSome (slice_get result.items 0) (λ seat. (box_value seat).journal ≡ reader) }
{
    let mut seats = seats;
    if !seats.is_empty() {
        seats[0].journal = reader;
    }
    seats
}

// A value for each client.
fn seated(alloc: Global, members: Vec<Member>) -> Result<Vec<Box<Seat>>, Memory>
    ensures { IfOk result (λ seats. AreSeated members.items seats.items) }
{
    let mut seats = Vec::with_capacity(alloc, members.len())?;
    for member in members {
        let seat = Seat {
            alloc,
            phase: Phase::Idle(member),
            reply: Reply::Memory,
            journal: None,
        };
        seats.push(Box::new(alloc, seat)?)?;
    }
    Ok(seats)
}
