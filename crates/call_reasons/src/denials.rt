//! Why a permission is denied.

ghost use Rattle.std.specs.Prelude.{◌≡◌, not, is_some, IfSome};
ghost use Rattle.ipc_perm.specs.Access.{permits};
ghost use Rattle.call_reasons.specs.Denials.{IsDenial};

use ipc_call::{Perm, Rule};
use ipc_creds::Creds;
use ipc_perm::{Verdict, Want, decide};
use perm_words::{Standing, class_bits, stands};

/// What denies a caller permissions on an object.
#[derive(Clone, Copy, Debug)]
pub struct Denial {
    /// The rule.
    pub rule: Rule,
    /// By what the caller is in the class that decides.
    pub standing: Standing,
    /// The bits that the mode gives this class.
    pub bits: u16,
    /// The permissions that were asked for.
    pub want: Want,
}

/// What denies the permissions; `None` where they are allowed.
pub fn denial_of(creds: &Creds, perm: &Perm, want: Want) -> Option<Denial>
    ensures denied { is_some result ≡ not (permits creds.now perm.now want) }
    ensures told { IfSome result (IsDenial creds.now perm.now want) }
{
    match decide(creds, perm, want) {
        Verdict::Allowed(_) => None,
        Verdict::Denied(rule) => {
            let standing = stands(creds, perm);
            let bits = class_bits(standing, perm.mode.bits());
            Some(Denial {
                rule,
                standing,
                bits,
                want,
            })
        }
    }
}
