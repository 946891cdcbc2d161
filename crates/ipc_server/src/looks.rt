// Looks at objects, which are no events.

ghost use Rattle.std.specs.Prelude.{◌≡◌, IfOk, OnErr, OnOk};
ghost use Rattle.ipc_model.specs.Controls.{status_of};
ghost use Rattle.ipc_call.specs.declared.calls.Kind.TheVariants.{Sems};
ghost use Rattle.ipc_server.specs.Guests.{peer_at};
ghost use Rattle.ipc_server.specs.Held.{Costs, Goes, HasRoom, Stays};
ghost use Rattle.ipc_server.specs.Looks.{look_told as look_told_in, nsems_told, object_there as object_there_in, object_told, read_denial as read_denial_in, slots_of as slots_in, status_told as status_told_in, totals as totals_in, totals_told, with_object};
ghost use Rattle.ipc_server.specs.Making.{replies};
ghost use Rattle.ipc_server.specs.Servers.{state};

use crate::making::amount_of;
use crate::server::Server;
use ipc_call::{Boxed, Kind, Limits, Memory, Perm, Rule, Status};
use ipc_perm::{TO_READ, Verdict, decide};
use ipc_wire::{Look, Told, id_of};

/// How many objects of a kind there are, the highest slot in use, and the sum of their messages, semaphores or bytes.
#[derive(Clone, Copy)]
struct Totals {
    highest: u64,
    objects: u64,
    amount: u64,
}

impl Server {
    /// Replies to a look. The error comes only where an allocation fails, and then nothing has changed.
    pub(crate) fn look(&mut self, conn: u32, seq: u32, look: Look) -> Result<(), Memory>
        requires room { HasRoom self.old 0 1 }
        ensures went { OnOk result (Goes self.old self.new (λ s. replies conn seq (look_told_in s (peer_at s conn) look) s)) }
        ensures cost { OnOk result (Costs self.old self.new 0 1) }
        ensures err { OnErr result (Stays self.old self.new) }
    {
        let told = self.look_told(conn, look)?;
        self.say(conn, seq, told);
        Ok(())
    }

    fn look_told(&self, conn: u32, look: Look) -> Result<Told, Memory>
        ensures { IfOk result (λ told. told ≡ look_told_in self.now.server (peer_at self.now.server conn) look) }
    {
        match look {
            Look::Nsems { id } => Ok(self.nsems(id_of(id))),
            Look::At { kind, slot, any } => self.object(conn, kind, slot, any),
            Look::Totals { kind } => Ok(told_of_totals(self.totals(kind))),
        }
    }
}

impl Server {
    /// How many semaphores a set has.
    fn nsems(&self, id: u32) -> Told
        ensures { result ≡ nsems_told (status_of (state self.now.server) Sems id) }
    {
        match self.ledger.namespace().status_of(Kind::Sems, id) {
            None => Told::Refused(Rule::BadId),
            found => Told::Nsems(amount_of(found)),
        }
    }

    /// An object with its state, which a peer without the right to read it is told only where it asks for it so.
    fn object(&self, conn: u32, kind: Kind, slot: u32, any: bool) -> Result<Told, Memory>
        ensures { IfOk result (λ told. told ≡ object_told (state self.now.server) (peer_at self.now.server conn) kind any (object_there_in (state self.now.server) kind slot)) }
    {
        match self.object_there(kind, slot) {
            None => Ok(Told::Refused(Rule::BadId)),
            Some(id) => self.status(conn, kind, id, any),
        }
    }

    fn status(&self, conn: u32, kind: Kind, id: u32, any: bool) -> Result<Told, Memory>
        ensures { IfOk result (λ told. told ≡ status_told_in (peer_at self.now.server conn) id any (status_of (state self.now.server) kind id)) }
    {
        let Some((perm, status)) = self.ledger.namespace().status_of(kind, id) else {
            return Ok(Told::Refused(Rule::BadId));
        };
        match self.read_denial(conn, &perm, any) {
            Some(rule) => {
                drop(status);
                Ok(Told::Refused(rule))
            }
            None => {
                let status = Boxed::new(self.ledger.alloc(), status)?;
                Ok(Told::At { id, status })
            }
        }
    }

    /// The rule by which a connection's peer may not read an object, where it asks for the right.
    fn read_denial(&self, conn: u32, perm: &Perm, any: bool) -> Option<Rule>
        ensures { result ≡ read_denial_in (peer_at self.now.server conn) perm.now any }
    {
        if any {
            return None;
        }
        let peer = self.peer_of(conn);
        match decide(&peer.creds, perm, TO_READ) {
            Verdict::Allowed(_) => None,
            Verdict::Denied(rule) => Some(rule),
        }
    }

    /// The object in a slot.
    fn object_there(&self, kind: Kind, slot: u32) -> Option<u32>
        ensures { result ≡ object_there_in (state self.now.server) kind slot }
    {
        if slot < 65536 {
            self.ledger.namespace().object_at(kind, slot as u16)
        } else {
            None
        }
    }

    /// The totals of a kind. The time is linear in its slots.
    fn totals(&self, kind: Kind) -> Totals
        ensures { result ≡ totals_in self.now.server kind }
    {
        let mut totals = Totals {
            highest: 0,
            objects: 0,
            amount: 0,
        };
        for slot in 0..slots_of(&self.ledger.limits(), kind) {
            self.count_in(&mut totals, kind, slot);
        }
        totals
    }

    /// Counts the object in a slot.
    fn count_in(&self, totals: &mut Totals, kind: Kind, slot: u32)
        ensures { totals.new ≡ with_object (state self.now.server) kind slot (object_there_in (state self.now.server) kind slot) totals.old }
    {
        if let Some(id) = self.object_there(kind, slot) {
            let amount = amount_of(self.ledger.namespace().status_of(kind, id));
            totals.highest = u64::from(slot);
            totals.objects = totals.objects.saturating_add(1);
            totals.amount = totals.amount.saturating_add(amount);
        }
    }
}

/// How many slots a kind has.
fn slots_of(limits: &Limits, kind: Kind) -> u32
    ensures { result ≡ slots_in limits.now kind }
{
    match kind {
        Kind::Queue => limits.queues,
        Kind::Sems => limits.sets,
        Kind::Segment => limits.segments,
    }
}

fn told_of_totals(totals: Totals) -> Told
    ensures { result ≡ totals_told totals }
{
    Told::Totals {
        highest: totals.highest,
        objects: totals.objects,
        amount: totals.amount,
    }
}
