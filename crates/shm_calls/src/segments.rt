//! The shared memory segments of a namespace.

ghost use Rattle.std.specs.Prelude.{◌≡◌, ◌<◌, ◌≤◌, ℕ, IfNone, IfOk, IfErr, IfSome, IsSome, None, Some, option_copied, option_map};
ghost use Rattle.ipc_ids.specs.Table.{empty_table, id_in, ids_of};
ghost use Rattle.ipc_model.specs.Controls.{marked, perm_in, with_new_owner, without_segment};
ghost use Rattle.ipc_model.specs.Decision.{Refused as RefusedBy};
ghost use Rattle.ipc_model.specs.Gets.{object_of_key};
ghost use Rattle.ipc_model.specs.Plan.{Plan, decision};
ghost use Rattle.ipc_model.specs.Segments.{segment_at};
ghost use Rattle.ipc_model.specs.State.{Segment as Contents, Shared};
ghost use Rattle.ipc_objects.specs.Objects.{changed};
ghost use Rattle.ipc_objects.specs.declared.object.Object.{Object as Entry};
ghost use Rattle.ipc_perm.specs.Access.{Permission, denial};
ghost use Rattle.object_calls.specs.Permitted.{permitted};
ghost use Rattle.shm_seg.specs.Attachments.{attach_count, attachment_at, none_attached};

use crate::segment::Segment;
use ipc_call::{Memory, Rule, Settings};
use ipc_objects::{Object, Objects};
use ipc_perm::{Perm, Want};
use object_calls::{Caller, owner_of};
use shm_seg::{Attachment, Attachments};
use std::alloc::Global;
use std::marker::Model;

/// The segments of a namespace, by identifier and by key, and what each client has attached.
#[derive(Debug, Drop)]
pub struct Segments {
    pub(super) segments: Objects<Segment>,
    pub(super) attached: Attachments,
    pub(super) alloc: Global,
}

impl Model for Segments {
    ghost use Rattle.std.specs.FinMap as map;
    ghost use Rattle.std.specs.Coded.{codes};
    ghost use Rattle.ipc_model.specs.State.{Shared};
    ghost use Rattle.shm_seg.specs.Codes.{attached_code};

    ghost Value = { Shared };

    ghost coded = { Prim.hlevel (codes, map.code, attached_code) };

    ghost view = { λ s. record { segments = s.segments; attached = s.attached } };
}

impl Segments {
    /// No segment, with this many slots, at most 32768, and this sequence number in each.
    pub fn new(alloc: Global, slots: u32, first_seq: u16) -> Segments
        requires { slots ≤ 32768 }
        ensures { result ≡ record { segments = empty_table slots first_seq; attached = none_attached } }
    {
        Segments {
            segments: Objects::new(alloc, slots, first_seq),
            attached: Attachments::new(alloc),
            alloc,
        }
    }

    /// The identifier and the permissions of the segment of a key. None for key 0, IPC_PRIVATE.
    pub fn find(&self, key: u32) -> Option<(u32, Perm)>
        ensures { result ≡ option_map (λ found. (found.0, found.1.perm)) (object_of_key self.now.segments key) }
    {
        self.segments.find(key)
    }

    /// What a process has attached under a number.
    pub fn attachment(&self, process: u64, att: u32) -> Option<Attachment>
        ensures { result ≡ attachment_at self.now.attached process att }
    {
        self.attached.get(process, att)
    }

    /// The least number from this one on under which a process has something attached.
    pub fn next_attachment(&self, process: u64, from: u32) -> Option<u32>
        ensures none { IfNone result ((n : ℕ) → from ≤ n → attachment_at self.now.attached process n ≡ None) }
        ensures there { IfSome result (λ next. IsSome (attachment_at self.now.attached process next)) }
        ensures from { IfSome result (λ next. from ≤ next) }
        ensures few { IfSome result (λ next. next < 4096) }
        ensures least { IfSome result (λ next. (n : ℕ) → from ≤ n → n < next → attachment_at self.now.attached process n ≡ None) }
    {
        self.attached.first_from(process, from)
    }

    /// The segment of an identifier.
    pub fn get(&self, id: u32) -> Option<&Object<Segment>>
        ensures { option_copied result ≡ segment_at self.now id }
    {
        self.segments.get(id)
    }

    /// The segment of an identifier, where there is one and the caller has these rights at it.
    pub(super) fn permitted(
        &self,
        who: &Caller,
        id: u32,
        want: Want,
    ) -> Result<&Object<Segment>, Rule>
        ensures there { IfOk result (λ segment. segment_at self.now id ≡ Some segment.now) }
        ensures permitted { IfOk result (λ segment.
            denial who.entry.now.creds (Permission segment.now.perm want) ≡ None) }
        ensures refused { (rest : Entry Contents → Plan Shared) → IfErr result (λ rule.
            decision who.entry.now.creds (permitted (segment_at self.now id) want rest) ≡ RefusedBy rule) }
    {
        who.permitted(self.get(id), want)
    }

    /// The permissions of the segment of an identifier.
    pub fn perm(&self, id: u32) -> Option<Perm>
        ensures { result ≡ perm_in self.now.segments id }
    {
        self.segments.perm(id)
    }

    /// The identifier of the segment in a slot.
    pub fn id_at(&self, slot: u16) -> Option<u32>
        ensures { result ≡ id_in self.now.segments slot }
    {
        self.segments.id_at(slot)
    }

    /// The identifiers of the segments, by rising slot. The error comes only where an allocation fails.
    pub fn ids(&self) -> Result<Vec<u32>, Memory>
        ensures { IfOk result (λ ids. ids.items ≡ ids_of self.now.segments) }
    {
        self.segments.ids()
    }

    /// How many attachments are to the segment of an identifier, those of all clients (shm_nattch of shmctl(2)).
    pub fn nattch(&self, id: u32) -> u64
        ensures { result ≡ attach_count self.now.attached id }
    {
        self.attached.count_of(id)
    }

    /// Sets the owner and the mode of the segment of an identifier, which there is, at a time in seconds (IPC_SET of
    /// shmctl(2)). It takes no memory.
    pub fn set(&mut self, id: u32, new: Settings, now: u64)
        requires { IsSome (segment_at self.old id) }
        ensures { self.new ≡ record self.old { segments = changed self.old.segments id (with_new_owner now new) } }
    {
        self.segments.set_owner(id, owner_of(new), now);
    }

    /// Removes the segment of an identifier, which there is, and frees its key (IPC_RMID of shmctl(2)). One that is
    /// attached stays, marked, until its last attachment goes. It takes no memory.
    pub fn remove(&mut self, id: u32)
        requires { IsSome (segment_at self.old id) }
        ensures { self.new ≡ without_segment self.old id }
    {
        if self.nattch(id) == 0 {
            self.segments.remove(id);
        } else {
            self.mark(id);
        }
    }

    /// Marks the segment of an identifier, which there is, and frees its key.
    fn mark(&mut self, id: u32)
        requires { IsSome (segment_at self.old id) }
        ensures { self.new ≡ record self.old { segments = changed self.old.segments id marked } }
    {
        let Some(segment) = self.segments.contents_mut(id) else {
            unreachable!()
        };
        segment.memory.mark();
        self.segments.free_key(id);
    }
}
