// Other credentials of a client: setcreds (seteuid(2), setegid(2), setgroups(2)), and assume, by which it is told them.

ghost use Rattle.std.specs.Prelude.{◌≡◌, ◌<◌, ◌≤◌, [], length, Some, option_map, unwrap_or};
ghost use Rattle.ipc_model.specs.Decision.{left_by, outcome_of, without_answer};
ghost use Rattle.ipc_model.specs.Plan.{decision};
ghost use Rattle.ipc_model.specs.Decide.{decide_alive as decision_on};
ghost use Rattle.ipc_model.specs.Processes.{credentials_of, set_creds as creds_set};
ghost use Rattle.ipc_model.specs.State.{caller, creds_at};

use crate::namespace::Namespace;
use bitflags::Flags;
use ipc_call::{Answer, Call, Identity, Items, Outcome, Rule};
use ipc_creds::{Caps, Creds, GROUPS_MAX};
use ipc_perm::may_become;

impl Namespace {
    /// setcreds: the client takes on another effective user and group, and other supplementary groups where some are given.
    /// It takes no memory.
    #[tactic(auto, unfolding(ipc_model::specs::Decide::part_plan))]
    pub(super) fn set_creds(
        &mut self,
        client: u32,
        euid: u32,
        egid: u32,
        groups: &Option<Items<u32>>,
    ) -> Outcome
        requires known { client < length self.old.clients }
        ensures outcome { outcome_of (decision_on self.old client (Call.SetCreds euid egid groups.now)) ≡ Some result }
        ensures state { self.new ≡ left_by self.old (decision_on self.old client (Call.SetCreds euid egid groups.now)) }
        ensures parked { self.new.parked ≡ self.old.parked }
    {
        if let Err(rule) = self.may_set_creds(client, euid, egid, groups) {
            return Err(rule);
        }
        self.clients[client as usize].take_on(euid, egid, as_slice(groups));
        Ok(Answer::Done)
    }

    /// Whether setcreds is granted.
    fn may_set_creds(
        &self,
        client: u32,
        euid: u32,
        egid: u32,
        groups: &Option<Items<u32>>,
    ) -> Result<(), Rule>
        requires known { client < length self.now.clients }
        ensures { without_answer (decision (creds_at self.now client) (creds_set self.now (caller self.now client) euid egid groups.now)) ≡ Some result }
    {
        if given(groups) > GROUPS_MAX {
            return Err(Rule::TooManyGroups);
        }
        may_become(&self.clients[client as usize], euid, egid, groups.is_some())
    }

    /// assume: the client takes on all these credentials. It takes no memory.
    #[tactic(auto, unfolding(ipc_model::specs::Decide::part_plan))]
    pub(super) fn assume(&mut self, client: u32, creds: &Identity) -> Outcome
        requires known { client < length self.old.clients }
        ensures outcome { outcome_of (decision_on self.old client (Call.Assume creds.now)) ≡ Some result }
        ensures state { self.new ≡ left_by self.old (decision_on self.old client (Call.Assume creds.now)) }
        ensures parked { self.new.parked ≡ self.old.parked }
    {
        if creds.groups.len() > GROUPS_MAX {
            return Err(Rule::TooManyGroups);
        }
        self.clients[client as usize] = creds_of(creds);
        Ok(Answer::Done)
    }
}

/// The credentials of an identity with few groups.
pub(super) fn creds_of(identity: &Identity) -> Creds
    requires few { length identity.now.groups ≤ GROUPS_MAX }
    ensures { result ≡ credentials_of identity.now }
{
    let groups = identity.groups.as_slice();
    let caps = Caps::from_bits_retain(identity.caps);
    let creds = Creds::new(identity.euid, identity.egid, groups, caps);
    creds
        .with_real(identity.ruid, identity.rgid)
        .with_saved(identity.suid, identity.sgid)
}

/// How many groups are given.
fn given(groups: &Option<Items<u32>>) -> usize
    ensures { result ≡ length (unwrap_or groups.now []) }
{
    match groups {
        None => 0,
        Some(groups) => groups.len(),
    }
}

/// The groups, where some are given.
fn as_slice(groups: &Option<Items<u32>>) -> Option<&[u32]>
    ensures { option_map (λ groups. groups.now) result ≡ groups.now }
{
    match groups {
        None => None,
        Some(groups) => Some(groups.as_slice()),
    }
}
