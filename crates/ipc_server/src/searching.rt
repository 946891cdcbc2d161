// Which client does what, and how many there are. Each search is linear in the clients or the connections; none is made for
// a call.

ghost use Rattle.std.specs.Prelude.{◌≡◌, ◌<◌, ◌≤◌, ◌==◌, ◌&&◌, IfSome, length};
ghost use Rattle.std.specs.List.{find, list_any};
ghost use Rattle.ipc_model.specs.State.{creds_at};
ghost use Rattle.ipc_server.specs.Lives.{is_member_of};
ghost use Rattle.ipc_server.specs.Servers.{announced_by, child_of as child_in, children as children_in, count, free_after as free_after_in, free_client as free_client_in, free_from as free_from_in, has_token as has_token_in, has_user, is_child as is_child_in, is_lead as is_lead_in, is_named as is_named_in, is_of, is_silent as is_silent_in, lead_of as lead_in, leads as leads_in, lives as lives_in, of_user as of_user_in, role_at, state};

use crate::peers::Role;
use crate::server::Server;

impl Server {
    /// Whether the client's thread hasn't ended.
    fn lives(&self, client: u32) -> bool
        ensures { result ≡ lives_in self.now.server client }
    {
        !self.ledger.namespace().has_exited(client)
    }

    fn role_of(&self, client: u32) -> Role
        ensures { result ≡ role_at self.now.server client }
    {
        match self.roles.get(client as usize) {
            None => Role::Free,
            Some(role) => *role,
        }
    }

    fn leads(&self, pid: u32, client: u32) -> bool
        ensures { result ≡ leads_in self.now.server pid client }
    {
        self.lives(client)
            && self.ledger.namespace().pid_of(client) == pid
            && is_lead(self.role_of(client))
    }

    fn is_named(&self, token: u64, client: u32) -> bool
        ensures { result ≡ is_named_in self.now.server token client }
    {
        self.lives(client) && has_token(token, self.role_of(client))
    }

    fn is_announced(&self, client: u32) -> bool
        ensures { result ≡ (lives_in self.now.server client && is_child_in (role_at self.now.server client)) }
    {
        self.lives(client) && is_child(self.role_of(client))
    }

    fn is_announced_by(&self, euid: u32, client: u32) -> bool
        ensures { result ≡ (lives_in self.now.server client && announced_by euid (role_at self.now.server client)) }
    {
        self.lives(client) && is_child_of(euid, self.role_of(client))
    }

    fn is_user(&self, euid: u32, client: u32) -> bool
        ensures { result ≡ (lives_in self.now.server client && (creds_at (state self.now.server) client).euid == euid) }
    {
        self.lives(client) && self.euid_of(client) == euid
    }

    /// The effective user of a client, 0 for one that isn't there.
    pub(crate) fn euid_of(&self, client: u32) -> u32
        ensures { result ≡ (creds_at (state self.now.server) client).euid }
    {
        match self.ledger.namespace().creds_of(client) {
            None => 0,
            Some(creds) => creds.euid(),
        }
    }
}

impl Server {
    /// The client that makes the calls of the process of a pid as such.
    pub(crate) fn lead_of(&self, pid: u32) -> Option<u32>
        ensures { result ≡ lead_in self.now.server pid }
    {
        (0..self.ledger.clients()).find(|client| self.leads(pid, *client))
    }

    /// The child that a fork announced with this token.
    pub(crate) fn child_of(&self, token: u64) -> Option<u32>
        ensures child { result ≡ child_in self.now.server token }
        ensures known { IfSome result (λ client. client < 4096) }
    {
        (0..self.ledger.clients()).find(|client| self.is_named(token, *client))
    }

    /// The first client from a number on whose thread has ended.
    pub(crate) fn free_from(&self, from: u32) -> Option<u32>
        ensures first { result ≡ free_from_in from self.now.server }
        ensures known { IfSome result (λ client. client < 4096) }
    {
        (from..self.ledger.clients()).find(|client| !self.lives(*client))
    }

    /// The first client whose thread has ended.
    pub(crate) fn free_client(&self) -> Option<u32>
        ensures first { result ≡ free_client_in self.now.server }
        ensures known { IfSome result (λ client. client < 4096) }
    {
        self.free_from(0)
    }

    /// The first one behind another.
    pub(crate) fn free_after(&self, first: Option<u32>) -> Option<u32>
        requires known { IfSome first (λ client. client < 4096) }
        ensures second { result ≡ free_after_in first self.now.server }
        ensures known { IfSome result (λ client. client < 4096) }
    {
        self.free_from(first? + 1)
    }

    /// How many children are announced.
    pub(crate) fn children(&self) -> u32
        ensures count { result ≡ children_in self.now.server is_child_in }
        ensures few { result ≤ 4096 }
    {
        (0..self.ledger.clients())
            .filter(|client| self.is_announced(*client))
            .count() as u32
    }

    /// How many children a user has announced.
    pub(crate) fn children_of(&self, euid: u32) -> u32
        ensures count { result ≡ children_in self.now.server (announced_by euid) }
        ensures few { result ≤ 4096 }
    {
        (0..self.ledger.clients())
            .filter(|client| self.is_announced_by(euid, *client))
            .count() as u32
    }

    /// How many clients have this effective user.
    pub(crate) fn of_user(&self, euid: u32) -> u32
        ensures count { result ≡ of_user_in self.now.server euid }
        ensures few { result ≤ 4096 }
    {
        (0..self.ledger.clients())
            .filter(|client| self.is_user(euid, *client))
            .count() as u32
    }
}

impl Server {
    /// Whether some connection of the process has a client.
    pub(crate) fn has_member(&self, pid: u32) -> bool
        ensures { result ≡ list_any (is_member_of pid) self.now.server.conns }
    {
        self.conns
            .iter()
            .any(|conn| conn.is_member() && conn.is_of_process(pid))
    }

    /// How many connections have said nothing.
    pub(crate) fn silent(&self) -> usize
        ensures { result ≡ count is_silent_in self.now.server.conns }
    {
        self.conns.iter().filter(|conn| conn.is_silent()).count()
    }

    /// How many connections a user has.
    pub(crate) fn conns_of(&self, euid: u32) -> usize
        ensures { result ≡ count (is_of (has_user euid)) self.now.server.conns }
    {
        self.conns.iter().filter(|conn| conn.has_user(euid)).count()
    }

    /// How many connections that have said nothing a user has.
    pub(crate) fn silent_of(&self, euid: u32) -> usize
        ensures { result ≡ count (λ conn. is_silent_in conn && is_of (has_user euid) conn) self.now.server.conns }
    {
        self.conns
            .iter()
            .filter(|conn| conn.is_silent() && conn.has_user(euid))
            .count()
    }
}

fn is_lead(role: Role) -> bool
    ensures { result ≡ is_lead_in role }
{
    matches!(role, Role::Lead)
}

fn is_child(role: Role) -> bool
    ensures { result ≡ is_child_in role }
{
    matches!(role, Role::Child { .. })
}

fn has_token(token: u64, role: Role) -> bool
    ensures { result ≡ has_token_in token role }
{
    match role {
        Role::Child { token: own, .. } => own == token,
        _ => false,
    }
}

fn is_child_of(user: u32, role: Role) -> bool
    ensures { result ≡ announced_by user role }
{
    match role {
        Role::Child { euid, .. } => euid == user,
        _ => false,
    }
}
