//! A client calls, and takes what is kept for it.

ghost use Rattle.std.specs.Prelude.{◌≡◌, ℕ, ◌+◌, ◌<◌, ◌≤◌, ◌++◌};
ghost use Rattle.std.specs.Prelude.{true, None, Some, Ok, Err, length, vec_len, IfOk, IfSome, All, MatchResult, option_map, option_to_list, slice_set};
ghost use Rattle.ipc_model.specs.Decide.{can_wait};
ghost use Rattle.ipc_space.specs.Answers.{can_give};
ghost use Rattle.ipc_space.specs.Telling.{replies_in};
ghost use Rattle.ipc_desk.specs.Desks.{Comes, IsTaken, answer_of, answer_told, hindrance_of, outcome_in, told_taken};
ghost use Rattle.ipc_desk.specs.Kept.{is_of_waiting, kept_for};

use crate::desk::Desk;
use call_values::{Client, Ended, Failure, Message};
use ipc_call::{Answer, Call, Reply};
use ipc_space::Effects;

impl Desk {
    /// Why the client can't call now: there is no such client, its call waits, or it has an answer to take. None where it can.
    pub fn hindrance(&self, client: Client) -> Option<Failure>
        ensures { result ≡ hindrance_of self.now client.0 }
    {
        if client.0 >= self.space.clients() {
            return Some(Failure::NoClient);
        }
        if self.space.is_waiting(client.0) {
            return Some(Failure::Waiting);
        }
        self.kept[client.0 as usize]
            .as_ref()
            .map(|_| Failure::Untaken)
    }

    /// Makes a call of a client, and keeps the answers that come with it for others. None where the call waits.
    pub(crate) fn ask(&mut self, client: Client, call: Call) -> Result<Option<Answer>, Failure>
        ensures comes { Comes self.old self.new client.0 call result }
        ensures gives { IfOk result (λ answer. IfSome answer (λ a. can_give call a ≡ true)) }
        ensures waits { IfOk result (λ answer. answer ≡ None → can_wait call ≡ true) }
    {
        match self.hindrance(client) {
            Some(hindrance) => return Err(hindrance),
            None => {}
        }
        let Effects { own, others, .. } = self.space.apply(client.0, self.time, call)?;
        keep(&mut self.kept, others);
        answer_to(own)
    }

    /// Takes the answer to the client's call that waited; None where there is none to take. A refusal is a `Failure`.
    pub fn take(&mut self, client: Client) -> Result<Option<Ended>, Failure>
        ensures { IsTaken self.old self.new client.0 result }
    {
        let reply = take_out(&mut self.kept, client.0);
        ended_in(reply)
    }
}

/// Keeps replies for their clients, each of which has nothing kept.
fn keep(kept: &mut Vec<Option<Reply>>, others: Vec<(u32, Reply)>)
    requires known { All (λ told. told.0 < vec_len kept.old) others.items }
    requires apart { (r : ℕ) → length (kept_for kept.old.items r) + length (replies_in others.items r) ≤ 1 }
    ensures kept { (r : ℕ) → kept_for kept.new.items r ≡ kept_for kept.old.items r ++ replies_in others.items r }
    ensures count { vec_len kept.new ≡ vec_len kept.old }
{
    for (client, reply) in others {
        put(kept, client, reply);
    }
}

/// Puts a reply into the slot of a client.
fn put(kept: &mut Vec<Option<Reply>>, client: u32, reply: Reply)
    requires { client < vec_len kept.old }
    ensures items { kept.new.items ≡ slice_set kept.old.items client (Some reply) }
    ensures count { vec_len kept.new ≡ vec_len kept.old }
{
    kept[client as usize] = Some(reply);
}

/// Takes the reply out of the slot of a client, if there is one.
fn take_out(kept: &mut Vec<Option<Reply>>, client: u32) -> Option<Reply>
    ensures taken { option_to_list result ≡ kept_for kept.old.items client }
    ensures left { kept.new.items ≡ slice_set kept.old.items client None }
{
    kept.get_mut(client as usize)?.take()
}

/// What a reply tells.
fn outcome_of(reply: Reply) -> Result<Answer, Failure>
    ensures { result ≡ outcome_in reply }
{
    match reply {
        Reply::Entered { outcome, .. } => outcome.map_err(Failure::Refused),
        Reply::Memory => Err(Failure::Memory),
    }
}

/// What the reply to a call tells that may wait.
fn answer_to(own: Option<Reply>) -> Result<Option<Answer>, Failure>
    ensures { result ≡ answer_told own }
{
    match own {
        None => Ok(None),
        Some(reply) => Ok(Some(outcome_of(reply)?)),
    }
}

/// What is taken where this was kept.
fn ended_in(reply: Option<Reply>) -> Result<Option<Ended>, Failure>
    requires { IfSome reply (λ r. is_of_waiting r ≡ true) }
    ensures { told_taken result ≡ option_map outcome_in reply }
{
    match reply {
        None => Ok(None),
        Some(reply) => Ok(Some(ended_by(reply)?)),
    }
}

/// How a call ended that waited.
fn ended_by(reply: Reply) -> Result<Ended, Failure>
    requires { is_of_waiting reply ≡ true }
    ensures { MatchResult result (λ ended. outcome_in reply ≡ Ok (answer_of ended))
        (λ failure. outcome_in reply ≡ Err failure) }
{
    match outcome_of(reply)? {
        Answer::Done => Ok(Ended::Done),
        Answer::Message { mtype, text } => {
            let text = text.into_vec();
            Ok(Ended::Received(Message { mtype, text }))
        }
        _ => unreachable!(),
    }
}
