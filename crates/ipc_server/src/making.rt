// The calls that clients make, and how their connections are told what they came to.

ghost use Rattle.std.specs.Prelude.{◌≡◌, ◌+◌, ◌<◌, ◌≤◌, ◌++◌, [], false, true, filter, length, slice_index_or, slice_set, vec_capacity, vec_len, IfOk, OnOk, OnErr};
ghost use Rattle.ipc_namespace.specs.Wanting.{may_want_memory};
ghost use Rattle.ipc_call.specs.declared.replies.Answer.TheVariants.{Attached};
ghost use Rattle.ipc_wire.specs.declared.told.Told.TheVariants.{Granted};
ghost use Rattle.ipc_server.specs.Held.{Costs, Goes, HasRoom, Stays};
ghost use Rattle.ipc_server.specs.Making.{answers_told, applies, asked, asks, attached_in, drops, is_in as is_in_state, makes, may_make as may_make_in, passes_attached, replies, replies_told, reply_told, result as result_of, size_of as size_of_in, sweeps, told_of, under, with_memory};
ghost use Rattle.ipc_server.specs.Looks.{amount_of as amount_in};
ghost use Rattle.ipc_server.specs.Servers.{state};
ghost use Rattle.ipc_server.specs.declared.peers.Conn.TheVariants.{Absent};
ghost use Rattle.ipc_space.specs.Spaces.{own_reply};

use crate::outputs::{Output, Pass};
use crate::peers::{Conn, Role};
use crate::queue::Outputs;
use crate::server::{MEMORY_MAX, Server};
use ipc_call::{Answer, Call, Kind, Memory, Perm, Reply, Status};
use ipc_namespace::Namespace;
use ipc_wire::{Hindrance, Told};
use std::alloc::AllocError;

impl Server {
    /// Whether there is such a client, and none of its calls waits.
    fn may_make(&self, client: u32) -> bool
        ensures { result ≡ may_make_in self.now.server client }
    {
        client < self.ledger.clients() && !self.ledger.namespace().is_waiting(client)
    }

    /// A client makes a call, which it may, and the waiting calls that end are told. The error comes only where an allocation
    /// fails, and then nothing has changed.
    fn apply(&mut self, now: u64, client: u32, call: Call) -> Result<Option<Reply>, Memory>
        requires may { may_make_in self.old.server client ≡ true }
        requires room { HasRoom self.old 4098 4096 }
        ensures went { OnOk result (Goes self.old self.new (applies now client call)) }
        ensures cost { OnOk result (Costs self.old self.new 4098 4096) }
        ensures own { IfOk result (λ own. own ≡ own_reply (length self.old.server.history.events + 1) (result_of now client call self.old.server).own) }
        ensures err { OnErr result (Stays self.old self.new) }
        ensures memory { OnErr result (may_want_memory (state self.old.server) call ≡ true) }
    {
        let (_, own) = self.ledger.apply_into(client, now, call, &mut self.others)?;
        tell(
            &mut self.others,
            &self.conns,
            &self.roles,
            &mut self.outputs,
        );
        Ok(own)
    }

    /// A client makes a call, if it may, whose answer nobody is told. The call takes no memory.
    pub(crate) fn make(&mut self, now: u64, client: u32, call: Call)
        requires small { may_want_memory (state self.old.server) call ≡ false }
        requires room { HasRoom self.old 4098 4096 }
        ensures went { Goes self.old self.new (makes now client call) }
        ensures cost { Costs self.old self.new 4098 4096 }
    {
        if self.try_to_make(now, client, call).is_err() {
            unreachable!();
        }
    }

    /// The same of a call that may take memory. The error comes only where an allocation fails, and then nothing has changed.
    pub(crate) fn try_to_make(&mut self, now: u64, client: u32, call: Call) -> Result<(), Memory>
        requires room { HasRoom self.old 4098 4096 }
        ensures went { OnOk result (Goes self.old self.new (makes now client call)) }
        ensures cost { OnOk result (Costs self.old self.new 4098 4096) }
        ensures err { OnErr result (Stays self.old self.new) }
        ensures memory { OnErr result (may_want_memory (state self.old.server) call ≡ true) }
    {
        if self.may_make(client) {
            let own = self.apply(now, client, call)?;
            drop(own);
        } else {
            drop(call);
        }
        Ok(())
    }

    /// The client of a connection makes a call, if it may: it is answered, or waits. The error comes only where an allocation
    /// fails, and then nothing has changed.
    pub(crate) fn ask(
        &mut self,
        now: u64,
        conn: u32,
        client: u32,
        seq: u32,
        call: Call,
    ) -> Result<(), Memory>
        requires room { HasRoom self.old 4098 4098 }
        ensures ok { OnOk result (Goes self.old self.new (asks now conn client seq call)) }
        ensures cost { OnOk result (Costs self.old self.new 4098 4098) }
        ensures err { OnErr result (Stays self.old self.new) }
    {
        if !self.may_make(client) {
            drop(call);
            return Ok(());
        }
        if self.memory.len() >= MEMORY_MAX {
            drop(call);
            return Err(AllocError);
        }
        let own = self.apply(now, client, call)?;
        self.answer(conn, client, seq, own);
        Ok(())
    }

    /// Answers a connection's own call, or keeps the number under which it waits.
    fn answer(&mut self, conn: u32, client: u32, seq: u32, own: Option<Reply>)
        requires few { length self.old.server.memory < 32769 }
        requires room { HasRoom self.old 0 2 }
        ensures went { Goes self.old self.new (answers_told conn client seq own) }
        ensures cost { Costs self.old self.new 0 2 }
    {
        let Some(reply) = own else {
            wait_under(&mut self.conns, conn, seq);
            return;
        };
        let told = told_by(reply);
        match attached(&told) {
            Some(number) => self.pass(conn, client, seq, number),
            None => self.say(conn, seq, told),
        }
    }

    /// Replies to a request of a connection.
    pub(crate) fn say(&mut self, conn: u32, seq: u32, told: Told)
        requires room { HasRoom self.old 0 1 }
        ensures went { Goes self.old self.new (replies conn seq told) }
        ensures cost { Costs self.old self.new 0 1 }
    {
        self.outputs.push(Output::Reply {
            conn,
            seq,
            told,
            pass: Pass::Nothing,
        });
    }

    /// Passes the memory of what a client has attached.
    fn pass(&mut self, conn: u32, client: u32, seq: u32, number: u32)
        requires few { length self.old.server.memory < 32769 }
        requires room { HasRoom self.old 0 2 }
        ensures went { Goes self.old self.new (passes_attached conn client seq number) }
        ensures cost { Costs self.old self.new 0 2 }
    {
        let Some(attachment) = self.ledger.namespace().attachment_of(client, number) else {
            self.say(conn, seq, attached_of(number, 0));
            return;
        };
        let segment = attachment.segment;
        let size = self.size_of(segment);
        self.make_memory(segment);
        self.outputs.push(Output::Reply {
            conn,
            seq,
            told: attached_of(number, size),
            pass: Pass::Memory {
                segment,
                is_writable: !attachment.is_read_only,
            },
        });
    }

    /// The memory of segments that are no more goes.
    pub(crate) fn sweep(&mut self)
        requires room { HasRoom self.old 0 32769 }
        ensures went { Goes self.old self.new sweeps }
        ensures cost { Costs self.old self.new 0 32769 }
    {
        sweep_out(&mut self.memory, self.ledger.namespace(), &mut self.outputs);
    }
}

impl Server {
    /// The size of a segment in bytes, 0 where there is none.
    fn size_of(&self, segment: u32) -> u64
        ensures { result ≡ size_of_in self.now.server segment }
    {
        amount_of(self.ledger.namespace().status_of(Kind::Segment, segment))
    }

    /// Makes the memory of a segment where it wasn't made.
    fn make_memory(&mut self, segment: u32)
        requires room { HasRoom self.old 0 1 }
        requires few { length self.old.server.memory < 32769 }
        ensures went { Goes self.old self.new (with_memory segment) }
        ensures cost { Costs self.old self.new 0 1 }
    {
        if self.memory.contains(&segment) {
            return;
        }
        self.memory.push(segment).unwrap();
        let size = self.size_of(segment);
        self.outputs.push(Output::Make { segment, size });
    }
}

/// What an object counts: messages, semaphores or bytes, 0 where there is none.
pub(crate) fn amount_of(found: Option<(Perm, Status)>) -> u64
    ensures { result ≡ amount_in found }
{
    match found {
        None => 0,
        Some((_, Status::Queue(status))) => status.qnum,
        Some((_, Status::Set(status))) => status.nsems,
        Some((_, Status::Segment(status))) => status.size,
    }
}

/// Whether there is such a segment.
fn is_in(namespace: &Namespace, segment: u32) -> bool
    ensures { result ≡ is_in_state namespace.now segment }
{
    namespace.perm_of(Kind::Segment, segment).is_some()
}

/// Takes out the segments that are no more, whose memory goes.
fn sweep_out(memory: &mut Vec<u32>, namespace: &Namespace, outputs: &mut Outputs)
    requires room { vec_len memory.old ≤ outputs.old.room }
    ensures kept { memory.new.items ≡ filter (is_in_state namespace.now) memory.old.items }
    ensures told { outputs.new.list ≡ outputs.old.list ++ drops namespace.now memory.old.items }
    ensures room { outputs.old.room ≤ outputs.new.room + vec_len memory.old }
    ensures few { vec_len memory.new ≤ vec_len memory.old }
    ensures capacity { vec_capacity memory.old ≤ vec_capacity memory.new }
{
    let mut at = 0;
    while at < memory.len() {
        let segment = memory[at];
        if is_in(namespace, segment) {
            at += 1;
        } else {
            memory.remove(at);
            outputs.push(Output::Drop { segment });
        }
    }
}

/// Tells the waiting calls that an event ended to the connections that asked them, and leaves no reply.
fn tell(others: &mut Vec<(u32, Reply)>, conns: &[Conn], roles: &[Role], outputs: &mut Outputs)
    requires room { vec_len others.old ≤ outputs.old.room }
    ensures told { outputs.new.list ≡ outputs.old.list ++ replies_told conns.now roles.now others.old.items }
    ensures room { outputs.old.room ≤ outputs.new.room + vec_len others.old }
    ensures none { others.new.items ≡ [] }
    ensures capacity { vec_capacity others.old ≤ vec_capacity others.new }
{
    for (client, reply) in others.drain(..) {
        tell_one(client, reply, conns, roles, outputs);
    }
}

fn tell_one(client: u32, reply: Reply, conns: &[Conn], roles: &[Role], outputs: &mut Outputs)
    requires room { 0 < outputs.old.room }
    ensures told { outputs.new.list ≡ outputs.old.list ++ reply_told conns.now roles.now client reply }
    ensures room { outputs.old.room ≤ outputs.new.room + 1 }
{
    match asked_by(client, conns, roles) {
        None => drop(reply),
        Some((conn, seq)) => outputs.push(Output::Reply {
            conn,
            seq,
            told: told_by(reply),
            pass: Pass::Nothing,
        }),
    }
}

/// The connection to which a client is lent, and the number of its last request.
fn asked_by(client: u32, conns: &[Conn], roles: &[Role]) -> Option<(u32, u32)>
    ensures { result ≡ asked conns.now roles.now client }
{
    let Some(Role::Lent { conn }) = roles.get(client as usize) else {
        return None;
    };
    match conns.get(*conn as usize) {
        Some(Conn::Member { seq, .. }) => Some((*conn, *seq)),
        _ => None,
    }
}

/// What a reply tells.
fn told_by(reply: Reply) -> Told
    ensures { result ≡ told_of reply }
{
    match reply {
        Reply::Entered {
            outcome: Ok(answer),
            ..
        } => Told::Granted { answer, size: 0 },
        Reply::Entered {
            outcome: Err(rule),
            ..
        } => Told::Refused(rule),
        Reply::Memory => Told::Hindered(Hindrance::Memory),
    }
}

/// The number of the attachment, where one is told.
fn attached(told: &Told) -> Option<u32>
    ensures { result ≡ attached_in told.now }
{
    match told {
        Told::Granted {
            answer: Answer::Attached(number),
            ..
        } => Some(*number),
        _ => None,
    }
}

/// What tells of an attachment, of a segment of this size.
fn attached_of(number: u32, size: u64) -> Told
    ensures { result ≡ Granted (Attached number) size }
{
    Told::Granted {
        answer: Answer::Attached(number),
        size,
    }
}

/// A connection waits under the number of its request.
fn wait_under(conns: &mut Vec<Conn>, conn: u32, number: u32)
    ensures items { conns.new.items ≡ slice_set conns.old.items conn (under number (slice_index_or conns.old.items conn Absent)) }
    ensures count { vec_len conns.new ≡ vec_len conns.old }
{
    if (conn as usize) < conns.len() {
        wait(&mut conns[conn as usize], number);
    }
}

fn wait(conn: &mut Conn, number: u32)
    ensures { conn.new ≡ under number conn.old }
{
    match conn {
        Conn::Member { seq, .. } => *seq = number,
        Conn::Absent | Conn::Silent(_) => {}
    }
}
