// The calls on message queues, msgget(2) and msgop(2), in a namespace.

ghost use Rattle.std.specs.Prelude.{◌≡◌, ◌<◌, length, IfOk, OnOk, OnErr, Ok, Some};
ghost use Rattle.ipc_model.specs.Decision.{left_by, outcome_of};
ghost use Rattle.ipc_model.specs.Decide.{decide_alive as decision_on};

use crate::callers::caller_of;
use crate::namespace::Namespace;
use ipc_call::{Answer, Call, Get, Items, Memory, Outcome, Receive, Sending};

impl Namespace {
    /// msgget. The error comes only where an allocation fails, and then nothing has changed.
    #[tactic(auto, unfolding(ipc_model::specs::Decide::part_plan))]
    pub(super) fn msgget(&mut self, client: u32, asked: Get) -> Result<Outcome, Memory>
        requires known { client < length self.old.clients }
        ensures outcome { IfOk result (λ outcome. outcome_of (decision_on self.old client (Call.MsgGet asked.key asked.flags)) ≡ Some outcome) }
        ensures state { OnOk result (self.new ≡ left_by self.old (decision_on self.old client (Call.MsgGet asked.key asked.flags))) }
        ensures parked { self.new.parked ≡ self.old.parked }
        ensures err { OnErr result (self.new ≡ self.old) }
    {
        let who = caller_of(&self.clients, self.processes.threads(), client, self.clock);
        self.queues.msgget(&self.limits, &who, asked)
    }

    /// msgrcv: None where it is to wait, and then nothing has changed. It takes no memory.
    #[tactic(auto, unfolding(ipc_model::specs::Decide::part_plan))]
    #[inline(always)]
    pub(super) fn msgrcv(
        &mut self,
        client: u32,
        id: u32,
        asked: Receive,
    ) -> Result<Option<Outcome>, Memory>
        requires known { client < length self.old.clients }
        ensures outcome { result ≡ Ok (outcome_of (decision_on self.old client (Call.MsgRcv id asked.size asked.msgtyp asked.flags))) }
        ensures state { self.new ≡ left_by self.old (decision_on self.old client (Call.MsgRcv id asked.size asked.msgtyp asked.flags)) }
        ensures parked { self.new.parked ≡ self.old.parked }
    {
        let who = caller_of(&self.clients, self.processes.threads(), client, self.clock);
        Ok(self.queues.msgrcv(&who, id, asked))
    }

    /// msgsnd: None where it is to wait, and then nothing has changed. The error comes only where an allocation fails,
    /// and then nothing has changed either.
    #[tactic(auto, unfolding(ipc_model::specs::Decide::part_plan))]
    pub(super) fn msgsnd(
        &mut self,
        client: u32,
        id: u32,
        mtype: i64,
        text: &Items<u8>,
        flags: u32,
    ) -> Result<Option<Outcome>, Memory>
        requires known { client < length self.old.clients }
        ensures outcome { IfOk result (λ own. own ≡ outcome_of (decision_on self.old client (Call.MsgSnd id mtype text.now flags))) }
        ensures state { OnOk result (self.new ≡ left_by self.old (decision_on self.old client (Call.MsgSnd id mtype text.now flags))) }
        ensures parked { self.new.parked ≡ self.old.parked }
        ensures err { OnErr result (self.new ≡ self.old) }
    {
        let who = caller_of(&self.clients, self.processes.threads(), client, self.clock);
        let asked = Sending {
            mtype,
            len: text.len(),
            flags,
        };
        match self.queues.decide_send(&self.limits, &who, id, asked) {
            None => Ok(None),
            Some(Err(rule)) => Ok(Some(Err(rule))),
            Some(Ok(())) => {
                self.queues.msgsnd(&who, id, mtype, text.copy()?)?;
                Ok(Some(Ok(Answer::Done)))
            }
        }
    }
}
