// The clients of a journal as text: their credentials at the start.

ghost use Rattle.std.specs.Prelude.{◌≡◌, ◌++◌, ◌+◌, ◌<◌, ◌^◌, OnOk, length, string_bytes};
ghost use Rattle.ipc_journal_text.specs.CredentialsText.{capabilities_text, capability_text, id_pair_text, identity_text, ids_text, supplementary_text};
ghost use Rattle.ipc_journal_text.specs.Gives.{ids_shown};
ghost use Rattle.ipc_journal_text.specs.JournalText.{client_text, clients_text};

use crate::calls::print_numbers;
use crate::heads::Ids;
use bitflags::Flags;
use ipc_call::{Identity, Memory};
use ipc_creds::{Caps, Creds};
use std::fmt::Write;

/// Appends the lines of the clients, which are numbered from `first` on.
pub(crate) fn print_clients(text: &mut String, first: u64, clients: &[Creds]) -> Result<(), Memory>
    requires { first + length clients.now < 2 ^ 64 }
    ensures { OnOk result (string_bytes text.new ≡ string_bytes text.old ++ clients_text first clients.now) }
{
    let Some((creds, others)) = clients.split_first() else {
        return Ok(());
    };
    print_client(text, first, creds)?;
    print_clients(text, first + 1, others)
}

fn print_client(text: &mut String, client: u64, creds: &Creds) -> Result<(), Memory>
    ensures { OnOk result (string_bytes text.new ≡ string_bytes text.old ++ client_text client creds.now) }
{
    let ids = Ids {
        effective: (creds.euid(), creds.egid()),
        real: creds.real(),
        saved: creds.saved(),
    };
    write!(text, "client {client}")?;
    print_ids(text, ids)?;
    print_supplementary(text, creds.groups())?;
    print_capabilities(text, creds.caps())?;
    text.push_str("\n")
}

/// Appends the credentials that a call hands in, behind its word.
pub(crate) fn print_identity(text: &mut String, creds: &Identity) -> Result<(), Memory>
    ensures { OnOk result (string_bytes text.new ≡ string_bytes text.old ++ identity_text creds.now) }
{
    let ids = Ids {
        effective: (creds.euid, creds.egid),
        real: (creds.ruid, creds.rgid),
        saved: (creds.suid, creds.sgid),
    };
    print_ids(text, ids)?;
    print_supplementary(text, creds.groups.as_slice())?;
    print_capabilities(text, Caps::from_bits_retain(creds.caps))
}

#[tactic(auto, unfolding(crate::specs::CredentialsText::ids_text))]
fn print_ids(text: &mut String, ids: Ids) -> Result<(), Memory>
    ensures { OnOk result (string_bytes text.new ≡ string_bytes text.old ++ ids_text (ids_shown ids)) }
{
    print_id_pair(text, ": effective ", ids.effective)?;
    print_id_pair(text, " real ", ids.real)?;
    print_id_pair(text, " saved ", ids.saved)
}

#[tactic(auto, unfolding(crate::specs::CredentialsText::id_pair_text))]
fn print_id_pair(text: &mut String, name: &str, ids: (u32, u32)) -> Result<(), Memory>
    ensures { OnOk result (string_bytes text.new ≡ string_bytes text.old ++ id_pair_text name.now ids.0 ids.1) }
{
    let (user, group) = ids;
    write!(text, "{name}{user}:{group}")
}

#[tactic(auto, unfolding(crate::specs::CredentialsText::supplementary_text))]
fn print_supplementary(text: &mut String, groups: &[u32]) -> Result<(), Memory>
    ensures { OnOk result (string_bytes text.new ≡ string_bytes text.old ++ supplementary_text groups.now) }
{
    text.push_str(" groups ")?;
    print_numbers(text, groups)
}

#[tactic(auto, unfolding(crate::specs::CredentialsText::capabilities_text))]
fn print_capabilities(text: &mut String, caps: Caps) -> Result<(), Memory>
    ensures { OnOk result (string_bytes text.new ≡ string_bytes text.old ++ capabilities_text caps.0) }
{
    let bits = caps.bits();
    write!(text, " caps {bits}")?;
    print_capability(text, caps, "IPC_OWNER", Caps::IPC_OWNER)?;
    print_capability(text, caps, "SYS_ADMIN", Caps::SYS_ADMIN)?;
    print_capability(text, caps, "SYS_RESOURCE", Caps::SYS_RESOURCE)?;
    print_capability(text, caps, "SETUID", Caps::SETUID)?;
    print_capability(text, caps, "SETGID", Caps::SETGID)
}

#[tactic(auto, unfolding(crate::specs::CredentialsText::capability_text))]
fn print_capability(text: &mut String, caps: Caps, name: &str, cap: Caps) -> Result<(), Memory>
    ensures { OnOk result (string_bytes text.new ≡ string_bytes text.old ++ capability_text caps.0 name.now cap.0) }
{
    if !caps.contains(cap) {
        return Ok(());
    }
    write!(text, ",{name}")
}
