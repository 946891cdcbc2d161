// What the options of the commands ask for.

ghost use Rattle.std.specs.Prelude.{◌≡◌, codes};
ghost use Rattle.clap.specs.Words.{first_of, found_of, rows_of};
ghost use Rattle.ipc_commands.specs.Commands.{any_is_set as any_set_in, capital_of as capital_letter, if_given, listing_of as listing_in, mode_given, new_queue as queue_in, new_segment as segment_in, new_set as set_in};
ghost use Rattle.ipc_commands.specs.Commands.{part_of, removal_by_id as removed_by_id, removal_by_key as removed_by_key, small_of as small_letter};

use crate::options::{is_set, value_of};
use crate::parts::Part;
use crate::values::{decimal, key_of, mode_of};
use clap::ArgMatches;
use ipc_call::{Call, Kind};
use ipc_words::number_32;

/// The mode of a new object whose mode isn't given (ipcmk(1)).
const DEFAULT_MODE: u32 = 0o644;

/// An option that asks for a call on an object of a kind, or on all of them.
#[derive(Clone, Copy, Debug)]
pub(crate) enum Request {
    /// `-q`, `-m` or `-s` of ipcs, or none of them.
    List(Kind),
    /// `-q`, `-m` or `-s` of ipcrm, with an identifier.
    RemoveById(Kind),
    /// `-Q`, `-M` or `-S` of ipcrm, with a key.
    RemoveByKey(Kind),
    /// `-Q`, `-M` or `-S` of ipcmk, with a size but for a queue.
    Make(Kind),
}

impl Request {
    /// The part that the option asks for, if it is given; `None` where its value isn't one.
    #[tactic(auto, unfolding(crate::specs::Commands::part_of))]
    pub(crate) fn part(self, matches: &ArgMatches<'_>) -> Option<Option<Part>>
        ensures { result ≡ part_of (rows_of (found_of matches.now)) self }
    {
        match self {
            Request::List(kind) => Some(listing_of(matches, kind)),
            Request::RemoveById(kind) => removal_by_id(matches, kind),
            Request::RemoveByKey(kind) => removal_by_key(matches, kind),
            Request::Make(Kind::Queue) => new_queue(matches),
            Request::Make(Kind::Segment) => new_segment(matches),
            Request::Make(Kind::Sems) => new_set(matches),
        }
    }
}

fn small_of(kind: Kind) -> &'static str
    ensures { result.now ≡ small_letter kind }
{
    match kind {
        Kind::Queue => "q",
        Kind::Segment => "m",
        Kind::Sems => "s",
    }
}

fn capital_of(kind: Kind) -> &'static str
    ensures { result.now ≡ capital_letter kind }
{
    match kind {
        Kind::Queue => "Q",
        Kind::Segment => "M",
        Kind::Sems => "S",
    }
}

fn listing_of(matches: &ArgMatches<'_>, kind: Kind) -> Option<Part>
    ensures { result ≡ listing_in kind (rows_of (found_of matches.now)) }
{
    if is_set(matches, small_of(kind)) || !any_is_set(matches) {
        Some(Part::Plain(Call::Listing { kind }))
    } else {
        None
    }
}

// Whether a kind is named to ipcs.
fn any_is_set(matches: &ArgMatches<'_>) -> bool
    ensures { result ≡ any_set_in (rows_of (found_of matches.now)) }
{
    is_set(matches, "q") || is_set(matches, "m") || is_set(matches, "s")
}

fn removal_by_id(matches: &ArgMatches<'_>, kind: Kind) -> Option<Option<Part>>
    ensures { result ≡ if_given (removed_by_id kind) (first_of (small_letter kind) (rows_of (found_of matches.now))) }
{
    let Some(id) = value_of(matches, small_of(kind)) else {
        return Some(None);
    };
    let id = number_32(id)?;
    Some(Some(Part::Plain(Call::IpcRmid { kind, id })))
}

fn removal_by_key(matches: &ArgMatches<'_>, kind: Kind) -> Option<Option<Part>>
    ensures { result ≡ if_given (removed_by_key kind) (first_of (capital_letter kind) (rows_of (found_of matches.now))) }
{
    let Some(key) = value_of(matches, capital_of(kind)) else {
        return Some(None);
    };
    let key = key_of(key)?;
    Some(Some(Part::RemoveByKey(kind, key)))
}

fn new_queue(matches: &ArgMatches<'_>) -> Option<Option<Part>>
    ensures { result ≡ queue_in (rows_of (found_of matches.now)) }
{
    if !is_set(matches, "Q") {
        return Some(None);
    }
    let flags = flags_of(matches)?;
    Some(Some(Part::Plain(Call::MsgGet { key: 0, flags })))
}

fn new_segment(matches: &ArgMatches<'_>) -> Option<Option<Part>>
    ensures { result ≡ if_given (segment_in (rows_of (found_of matches.now))) (first_of (codes "M") (rows_of (found_of matches.now))) }
{
    let Some(size) = value_of(matches, "M") else {
        return Some(None);
    };
    let size = decimal(size, u64::MAX)?;
    let flags = flags_of(matches)?;
    Some(Some(Part::Plain(Call::ShmGet {
        key: 0,
        size,
        flags,
    })))
}

fn new_set(matches: &ArgMatches<'_>) -> Option<Option<Part>>
    ensures { result ≡ if_given (set_in (rows_of (found_of matches.now))) (first_of (codes "S") (rows_of (found_of matches.now))) }
{
    let Some(nsems) = value_of(matches, "S") else {
        return Some(None);
    };
    let nsems = decimal(nsems, u64::from(u32::MAX))? as u32;
    let flags = flags_of(matches)?;
    Some(Some(Part::Plain(Call::SemGet {
        key: 0,
        nsems,
        flags,
    })))
}

// The mode of a new object.
fn flags_of(matches: &ArgMatches<'_>) -> Option<u32>
    ensures { result ≡ mode_given (rows_of (found_of matches.now)) }
{
    match value_of(matches, "p") {
        None => Some(DEFAULT_MODE),
        Some(mode) => mode_of(mode),
    }
}
