//! The C library: a service whose clients are handles that C keeps. docs/C.md says how to call it, and what a caller owes.
#![tactic(auto)]

ghost use Rattle.std.specs.Prelude.{◌≡◌, ◌≢◌, ◌<◌, ◌≤◌, ◌++◌, List, [], pos, false, box_value, drop, length, map, take};
ghost use types.Logic.{sem};
ghost use Rattle.ipc_call.specs.Limits.{are_in_range};
ghost use Rattle.ipc_abi.specs.Openings.{limits_in};
ghost use Rattle.ipc_abi.specs.Requests.{given};
ghost use Rattle.ipc_seat.specs.Codes.{code_of_opening};
ghost use Rattle.ipc_seat.specs.Journals.{ReadsInNumbers};
ghost use Rattle.ipc_seat.specs.Openings.{AreClients};
ghost use Rattle.ipc_seat.specs.declared.opening.NotOpened.{NotOpened as WhyUnopened};
ghost use Rattle.ipc_seat.specs.declared.opening.NotOpened.TheVariants.{BadLimits, BadClients, NoRoom};
ghost use Rattle.ipc_seat.specs.Raw.{AdvancesInNumbers, PostsInNumbers, code_of_end, room};
ghost use Rattle.ipc_seat.specs.Seats.{state_of};
ghost use Rattle.ipc_seat.specs.declared.seat.Seat.{Seat as SeatValue};
ghost use Rattle.ipcsh_c.specs.Owning.{GivesSeats, OwnSeats, OwnsSeat};

mod handed;
mod loose;

use handed::Handed;
use ipc_abi::{Lists, RawClient, RawLimits, RawObject, RawReply, RawRequest, RawSemOper};
use ipc_seat::{NotOpened, Seat, advance_code, open, post_code, read_code};
use loose::loosen;
use std::alloc::Global;

/// Opens a service, and writes a handle for each client to `handles`, in the order of the clients.
#[unsafe(no_mangle)]
pub extern "C" fn ipcsh_raw_open(
    alloc: Global,
    limits: &RawLimits,
    clients: &[RawClient],
    handles: &mut [*mut u8],
) -> i32
    ensures* seats { ∃ₛ (λ (seats : List SeatValue). sem 𝓛 (OwnSeats (take (length seats) handles.new) seats)
        ∗ ⌜ (GivesSeats result limits.now clients.now handles.old handles.new seats) ⌝) }
    ensures limits { result ≡ code_of_opening BadLimits → are_in_range (limits_in limits.now) ≡ false }
    ensures clients { result ≡ code_of_opening BadClients → ¬ AreClients clients.now }
    ensures room { result ≡ code_of_opening NoRoom → length handles.old < length clients.now }
    ensures opened { result ≡ pos 0 → length clients.now ≤ length handles.old }
    ensures unopened { result ≢ pos 0 → handles.new ≡ handles.old }
    ensures codes { result ≢ pos 0 → ((error : WhyUnopened) × (result ≡ code_of_opening error)) }
{
    opened(alloc, limits, clients, handles).end()
}

fn opened(
    alloc: Global,
    limits: &RawLimits,
    clients: &[RawClient],
    handles: &mut [*mut u8],
) -> Handed
    ensures seats { GivesSeats result.code limits.now clients.now handles.old handles.new result.seats }
    ensures handles { result.handles ≡ take (length result.seats) handles.new }
    ensures limits { result.code ≡ code_of_opening BadLimits → are_in_range (limits_in limits.now) ≡ false }
    ensures clients { result.code ≡ code_of_opening BadClients → ¬ AreClients clients.now }
    ensures room { result.code ≡ code_of_opening NoRoom → length handles.old < length clients.now }
    ensures opened { result.code ≡ pos 0 → length clients.now ≤ length handles.old }
    ensures unopened { result.code ≢ pos 0 → handles.new ≡ handles.old }
    ensures codes { result.code ≢ pos 0 → ((error : WhyUnopened) × (result.code ≡ code_of_opening error)) }
{
    if handles.len() < clients.len() {
        return Handed::new(NotOpened::NoRoom.code());
    }
    match open(alloc, limits, clients) {
        Ok(seats) => hand_out(seats, handles),
        Err(error) => Handed::new(error.code()),
    }
}

fn hand_out(seats: Vec<Box<Seat>>, handles: &mut [*mut u8]) -> Handed
    requires { length seats.items ≤ length handles.old }
    ensures code { result.code ≡ pos 0 }
    ensures seats { result.seats ≡ map box_value seats.items }
    ensures given { handles.new ≡ result.handles ++ drop (length result.seats) handles.old }
    ensures length { length result.handles ≡ length result.seats }
{
    let mut handed = Handed::new(0);
    let mut at = 0;
    for seat in seats {
        handles[at] = handed.hand(loosen(seat));
        at += 1;
    }
    handed
}

/// Posts a call.
#[unsafe(no_mangle)]
pub unsafe extern "C" fn ipcsh_raw_post(
    handle: *mut u8,
    request: &RawRequest,
    text: &[u8],
    ops: &[RawSemOper],
    values: &[u16],
    groups: &[u32],
) -> i32
    ghost before: { SeatValue }
    requires* { sem 𝓛 (OwnsSeat handle before) }
    ensures* { ∃ₛ (λ (after : SeatValue). sem 𝓛 (OwnsSeat handle after)
        ∗ ⌜ (PostsInNumbers before request.now (given text.now ops.now values.now groups.now) after result) ⌝) }
{
    posted(
        &mut *(handle as *mut Seat),
        request,
        text,
        ops,
        values,
        groups,
    )
}

#[inline(always)]
fn posted(
    seat: &mut Seat,
    request: &RawRequest,
    text: &[u8],
    ops: &[RawSemOper],
    values: &[u16],
    groups: &[u32],
) -> i32
    ensures { PostsInNumbers seat.old request.now (given text.now ops.now values.now groups.now) seat.new result }
{
    let lists = Lists {
        text,
        ops,
        values,
        groups,
    };
    post_code(seat.post_raw(request, lists))
}

/// Posts a call that has no lists.
#[unsafe(no_mangle)]
pub unsafe extern "C" fn ipcsh_raw_ask(handle: *mut u8, request: &RawRequest) -> i32
    ghost before: { SeatValue }
    requires* { sem 𝓛 (OwnsSeat handle before) }
    ensures* { ∃ₛ (λ (after : SeatValue). sem 𝓛 (OwnsSeat handle after)
        ∗ ⌜ (PostsInNumbers before request.now (given [] [] [] []) after result) ⌝) }
{
    asked(&mut *(handle as *mut Seat), request)
}

fn asked(seat: &mut Seat, request: &RawRequest) -> i32
    ensures { PostsInNumbers seat.old request.now (given [] [] [] []) seat.new result }
{
    posted(seat, request, &[], &[], &[], &[])
}

/// Goes on with the call that was posted, and gives its reply where it has ended.
#[unsafe(no_mangle)]
pub unsafe extern "C" fn ipcsh_raw_advance(
    handle: *mut u8,
    reply: &mut RawReply,
    bytes: &mut [u8],
    values: &mut [u16],
    objects: &mut [RawObject],
) -> i32
    ghost before: { SeatValue }
    requires* { sem 𝓛 (OwnsSeat handle before) }
    ensures* { ∃ₛ (λ (after : SeatValue). sem 𝓛 (OwnsSeat handle after)
        ∗ ⌜ (AdvancesInNumbers before after
        (room reply.old bytes.old values.old objects.old) (room reply.new bytes.new values.new objects.new) result) ⌝) }
{
    advanced(&mut *(handle as *mut Seat), reply, bytes, values, objects)
}

fn advanced(
    seat: &mut Seat,
    reply: &mut RawReply,
    bytes: &mut [u8],
    values: &mut [u16],
    objects: &mut [RawObject],
) -> i32
    ensures { AdvancesInNumbers seat.old seat.new
        (room reply.old bytes.old values.old objects.old) (room reply.new bytes.new values.new objects.new) result }
{
    advance_code(seat.advance_raw(reply, bytes, values, objects))
}

/// Reads on in the text of the journal, where the client reads it, and says how many bytes.
#[unsafe(no_mangle)]
pub unsafe extern "C" fn ipcsh_raw_read_journal(
    handle: *mut u8,
    count: &mut u64,
    bytes: &mut [u8],
) -> i32
    ghost before: { SeatValue }
    requires* { sem 𝓛 (OwnsSeat handle before) }
    ensures* { ∃ₛ (λ (after : SeatValue). sem 𝓛 (OwnsSeat handle after)
        ∗ ⌜ (ReadsInNumbers before bytes.old count.old after bytes.new count.new result) ⌝) }
{
    journal_read(&mut *(handle as *mut Seat), count, bytes)
}

fn journal_read(seat: &mut Seat, count: &mut u64, bytes: &mut [u8]) -> i32
    ensures { ReadsInNumbers seat.old bytes.old count.old seat.new bytes.new count.new result }
{
    let read = seat.read_journal(bytes);
    if let Ok(len) = &read {
        *count = *len as u64;
    }
    read_code(read)
}

/// Ends a client, and tells how far it was: 0 where it asked nothing, 1 where its call was in flight, and 2 where its reply
/// wasn't taken. What it holds is freed, and with the last client of a service the service.
#[unsafe(no_mangle)]
pub unsafe extern "C" fn ipcsh_raw_close(alloc: Global, handle: *mut u8) -> i32
    ghost before: { SeatValue }
    requires* { sem 𝓛 (OwnsSeat handle before) }
    ensures { result ≡ code_of_end (state_of before) }
{
    ended(Box::from_raw(alloc, handle as *mut Seat))
}

fn ended(seat: Box<Seat>) -> i32
    ensures { result ≡ code_of_end (state_of (box_value seat)) }
{
    Box::into_inner(seat).end_raw()
}
