//! The permissions of an object.

ghost use Rattle.std.specs.Prelude.{◌≡◌, ◌<◌, ◌%◌};

use std::marker::Model;

/// The permission bits of an object, 0 to 0777: read, write and execute for owner, group and others.
#[derive(Clone, Copy, Debug, PartialEq, Eq)]
pub struct Mode(u16);

impl Model for Mode {
    ghost use Rattle.std.specs.Prelude.{ℕ, ◌<◌};

    ghost Value = { ℕ };

    ghost view = { λ m. m.0 };

    ghost invariant = { λ m. m.0 < 512 };

    ghost inverse = { λ n. record { 0 = n } };
}

impl Mode {
    /// The low nine bits of flags or of an argument. The others are ignored.
    pub fn from_low_bits(bits: u32) -> Mode
        ensures { result ≡ bits % 512 }
    {
        Mode((bits % 512) as u16)
    }

    /// The bits as a number.
    pub fn bits(self) -> u16
        ensures value { result ≡ self }
        ensures in_range { result < 512 }
    {
        self.0
    }
}

/// The permissions of an object, its ipc_perm (msgctl(2), POSIX.1-2017 XSH 2.7.1).
#[derive(Clone, Copy, Debug, PartialEq, Eq)]
pub struct Perm {
    /// The key, 0 for IPC_PRIVATE.
    pub key: u32,
    /// The owner.
    pub uid: u32,
    /// The owner's group.
    pub gid: u32,
    /// The creator.
    pub cuid: u32,
    /// The creator's group.
    pub cgid: u32,
    /// The permission bits.
    pub mode: Mode,
}
