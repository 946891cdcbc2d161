//! Calls by the sort of answer that they can have. That an answer is of its call's sort is the law
//! `calls_end_with_their_answers` of `ipc_space`.

ghost use Rattle.std.specs.Prelude.{◌≡◌, true, false, IfOk};
ghost use Rattle.ipc_call.specs.declared.replies.Answer.TheVariants as answers;
ghost use Rattle.ipc_call.specs.declared.replies.Status.TheVariants as statuses;
ghost use Rattle.ipc_model.specs.Decide.{can_wait};
ghost use Rattle.ipc_space.specs.Answers.{can_give};
ghost use Rattle.ipc_desk.specs.Desks.{Comes, told, told_progress};
ghost use Rattle.ipc_desk.specs.Answered.{
  GivesOnly,
  is_attached,
  is_bytes,
  is_done,
  is_id,
  is_message,
  is_queue_status,
  is_rows,
  is_segment_status,
  is_set_status,
  is_status,
  is_value,
  is_values,
};

use crate::desk::Desk;
use call_values::{Client, Failure, Message, Progress};
use ipc_call::{Answer, Boxed, Call, QueueStatus, Row, SegmentStatus, SetStatus, Status};

impl Desk {
    pub(crate) fn ask_id(&mut self, client: Client, call: Call) -> Result<u32, Failure>
        requires sort { GivesOnly call is_id }
        requires at_once { can_wait call ≡ false }
        ensures { Comes self.old self.new client.0 call (told (λ id. answers.Id id) result) }
    {
        match self.ask(client, call)? {
            Some(Answer::Id(id)) => Ok(id),
            _ => unreachable!(),
        }
    }

    pub(crate) fn ask_value(&mut self, client: Client, call: Call) -> Result<u32, Failure>
        requires sort { GivesOnly call is_value }
        requires at_once { can_wait call ≡ false }
        ensures { Comes self.old self.new client.0 call (told (λ value. answers.Value value) result) }
    {
        match self.ask(client, call)? {
            Some(Answer::Value(value)) => Ok(value),
            _ => unreachable!(),
        }
    }

    pub(crate) fn ask_attached(&mut self, client: Client, call: Call) -> Result<u32, Failure>
        requires sort { GivesOnly call is_attached }
        requires at_once { can_wait call ≡ false }
        ensures { Comes self.old self.new client.0 call (told (λ number. answers.Attached number) result) }
    {
        match self.ask(client, call)? {
            Some(Answer::Attached(number)) => Ok(number),
            _ => unreachable!(),
        }
    }

    pub(crate) fn ask_values(&mut self, client: Client, call: Call) -> Result<Vec<u16>, Failure>
        requires sort { GivesOnly call is_values }
        requires at_once { can_wait call ≡ false }
        ensures { Comes self.old self.new client.0 call (told (λ values. answers.Values values.items) result) }
    {
        match self.ask(client, call)? {
            Some(Answer::Values(values)) => Ok(values.into_vec()),
            _ => unreachable!(),
        }
    }

    pub(crate) fn ask_bytes(&mut self, client: Client, call: Call) -> Result<Vec<u8>, Failure>
        requires sort { GivesOnly call is_bytes }
        requires at_once { can_wait call ≡ false }
        ensures { Comes self.old self.new client.0 call (told (λ bytes. answers.Bytes bytes.items) result) }
    {
        match self.ask(client, call)? {
            Some(Answer::Bytes(bytes)) => Ok(bytes.into_vec()),
            _ => unreachable!(),
        }
    }

    pub(crate) fn ask_rows(&mut self, client: Client, call: Call) -> Result<Vec<Row>, Failure>
        requires sort { GivesOnly call is_rows }
        requires at_once { can_wait call ≡ false }
        ensures { Comes self.old self.new client.0 call (told (λ rows. answers.Rows rows.items) result) }
    {
        match self.ask(client, call)? {
            Some(Answer::Rows(rows)) => Ok(rows.into_vec()),
            _ => unreachable!(),
        }
    }

    pub(crate) fn ask_done(&mut self, client: Client, call: Call) -> Result<(), Failure>
        requires sort { GivesOnly call is_done }
        requires at_once { can_wait call ≡ false }
        ensures { Comes self.old self.new client.0 call (told (λ done. answers.Done) result) }
    {
        match self.ask(client, call)? {
            Some(Answer::Done) => Ok(()),
            _ => unreachable!(),
        }
    }

    fn ask_status(&mut self, client: Client, call: Call) -> Result<Boxed<Status>, Failure>
        requires sort { GivesOnly call is_status }
        requires at_once { can_wait call ≡ false }
        ensures comes { Comes self.old self.new client.0 call (told (λ status. answers.Status status) result) }
        ensures gives { IfOk result (λ status. can_give call (answers.Status status) ≡ true) }
    {
        match self.ask(client, call)? {
            Some(Answer::Status(status)) => Ok(status),
            _ => unreachable!(),
        }
    }

    pub(crate) fn ask_queue_status(
        &mut self,
        client: Client,
        call: Call,
    ) -> Result<QueueStatus, Failure>
        requires sort { GivesOnly call is_queue_status }
        requires at_once { can_wait call ≡ false }
        ensures { Comes self.old self.new client.0 call
            (told (λ status. answers.Status (statuses.Queue status)) result) }
    {
        match *self.ask_status(client, call)?.get() {
            Status::Queue(status) => Ok(status),
            _ => unreachable!(),
        }
    }

    pub(crate) fn ask_set_status(
        &mut self,
        client: Client,
        call: Call,
    ) -> Result<SetStatus, Failure>
        requires sort { GivesOnly call is_set_status }
        requires at_once { can_wait call ≡ false }
        ensures { Comes self.old self.new client.0 call (told (λ status. answers.Status (statuses.Set status)) result) }
    {
        match *self.ask_status(client, call)?.get() {
            Status::Set(status) => Ok(status),
            _ => unreachable!(),
        }
    }

    pub(crate) fn ask_segment_status(
        &mut self,
        client: Client,
        call: Call,
    ) -> Result<SegmentStatus, Failure>
        requires sort { GivesOnly call is_segment_status }
        requires at_once { can_wait call ≡ false }
        ensures { Comes self.old self.new client.0 call
            (told (λ status. answers.Status (statuses.Segment status)) result) }
    {
        match *self.ask_status(client, call)?.get() {
            Status::Segment(status) => Ok(status),
            _ => unreachable!(),
        }
    }

    pub(crate) fn ask_done_or_wait(
        &mut self,
        client: Client,
        call: Call,
    ) -> Result<Progress<()>, Failure>
        requires { GivesOnly call is_done }
        ensures { Comes self.old self.new client.0 call (told_progress (λ done. answers.Done) result) }
    {
        match self.ask(client, call)? {
            None => Ok(Progress::Waits),
            Some(Answer::Done) => Ok(Progress::Done(())),
            Some(_) => unreachable!(),
        }
    }

    pub(crate) fn ask_message_or_wait(
        &mut self,
        client: Client,
        call: Call,
    ) -> Result<Progress<Message>, Failure>
        requires { GivesOnly call is_message }
        ensures { Comes self.old self.new client.0 call
            (told_progress (λ message. answers.Message message.mtype message.text.items) result) }
    {
        match self.ask(client, call)? {
            None => Ok(Progress::Waits),
            Some(Answer::Message { mtype, text }) => {
                let text = text.into_vec();
                Ok(Progress::Done(Message { mtype, text }))
            }
            Some(_) => unreachable!(),
        }
    }
}
