//! The rights of clients at an object.

ghost use Rattle.std.specs.Prelude.{◌≡◌, IfOk, map};
ghost use Rattle.ipc_live.specs.Told.{kind_of, told_of, wanted_to_write};
ghost use Rattle.ipc_perm.specs.Access.{Control, Permission, class_of, denial, denied_rule, to_read};
ghost use Rattle.perm_words.specs.Standing.{class_in, standing_of};
ghost use Rattle.client_rights.specs.Rights.{all_told};

use ipc_creds::Creds;
use ipc_live::{Object, Told, tell};
use perm_words::{Standing, stands};
use std::alloc::{AllocError, Global};

/// A client of a run.
#[derive(Debug, Drop)]
pub struct Client {
    /// Its name.
    pub name: String,
    /// Its credentials.
    pub creds: Creds,
    /// Whether it has called exit, so that it makes no more calls.
    pub has_exited: bool,
}

/// What a client may do to an object.
#[derive(Clone, Copy, Debug, PartialEq, Eq)]
pub struct Rights {
    /// By what it comes into the class whose bits decide.
    pub standing: Standing,
    /// The decisions.
    pub told: Told,
}

/// What a caller of these credentials may do to the object. Each decision is what the caller's need is denied by, if by anything.
#[tactic(auto, using(crate::proofs::Denials::denied_is))]
pub fn rights_of(creds: &Creds, object: &Object) -> Rights
    ensures standing { result.standing ≡ standing_of creds.now object.now.perm }
    ensures class { class_in result.standing ≡ class_of creds.now object.now.perm }
    ensures told { result.told ≡ told_of creds.now object.now }
    ensures read { denied_rule result.told.read ≡ denial creds.now (Permission object.now.perm to_read) }
    ensures write { denied_rule result.told.write ≡ denial creds.now (Permission object.now.perm (wanted_to_write (kind_of object.now.used))) }
    ensures control { denied_rule result.told.control ≡ denial creds.now (Control object.now.perm) }
{
    Rights {
        standing: stands(creds, &object.perm),
        told: tell(creds, object),
    }
}

/// What each of the clients may do to the object, in their order. The error comes only where an allocation fails.
pub fn all_rights(
    alloc: Global,
    object: &Object,
    clients: &[Client],
) -> Result<Vec<Rights>, AllocError>
    ensures { IfOk result (λ rights. map (λ r. r.told) rights.items ≡ all_told object.now clients.now) }
{
    let mut rights = Vec::new(alloc);
    for client in clients {
        rights.push(rights_of(&client.creds, object))?;
    }
    Ok(rights)
}
