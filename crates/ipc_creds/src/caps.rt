//! The capabilities that the service knows.

ghost use Rattle.std.specs.Prelude.{⊤, [], ◌∷◌, codes};
ghost use Rattle.ipc_creds.specs.Credentials.{cap_ipc_owner, cap_setgid, cap_setuid, cap_sys_admin, cap_sys_resource};

use bitflags::{Flag, Flags, bitflag_items};

/// A set of capabilities, as capabilities(7) has them.
#[derive(Clone, Copy, PartialEq, Eq, Debug)]
pub struct Caps(u8);

bitflag_items! {
    impl Caps: u8 {
        const IPC_OWNER = 1;
        const SYS_ADMIN = 2;
        const SYS_RESOURCE = 4;
        const SETUID = 8;
        const SETGID = 16;
    }
}

impl Flags for Caps {
    type Bits = u8;

    ghost exact = { ⊤ };

    ghost table = { (codes "IPC_OWNER", cap_ipc_owner)
        ∷ (codes "SYS_ADMIN", cap_sys_admin)
        ∷ (codes "SYS_RESOURCE", cap_sys_resource)
        ∷ (codes "SETUID", cap_setuid)
        ∷ (codes "SETGID", cap_setgid)
        ∷ [] };

    ghost set_of = { λ c. c.0 };

    fn flags<'a>() -> &'a [Flag<Caps>] {
        Caps::FLAGS
    }

    fn bits(&self) -> u8 {
        self.0
    }

    fn from_bits_retain(bits: u8) -> Caps {
        Caps(bits)
    }
}
