//! The flags of calls, each call's in a type of its own. Their bits are those of `ipc_call`.

ghost use Rattle.std.specs.Prelude.{⊤, ◌≡◌, ◌%◌, [], ◌∷◌, codes};
ghost use Rattle.ipc_call.specs.Flags.{ipc_creat, ipc_excl, ipc_nowait, msg_except, msg_noerror, sem_undo, shm_rdonly};

use bitflags::{Flag, Flags, bitflag_items};

/// Of a get (msgget(2), semget(2), shmget(2)): what to do where the key has an object or none, and the mode of a new object or the
/// rights that are asked of one that is there.
#[derive(Clone, Copy, PartialEq, Eq, Debug)]
pub struct GetFlags(u32);

bitflag_items! {
    impl GetFlags: u32 {
        const CREAT = 0o1000;
        const EXCL = 0o2000;
    }
}

impl Flags for GetFlags {
    type Bits = u32;

    ghost exact = { ⊤ };

    ghost table = { (codes "CREAT", ipc_creat) ∷ (codes "EXCL", ipc_excl) ∷ [] };

    ghost set_of = { λ f. f.0 };

    fn flags<'a>() -> &'a [Flag<GetFlags>] {
        GetFlags::FLAGS
    }

    fn bits(&self) -> u32 {
        self.0
    }

    fn from_bits_retain(bits: u32) -> GetFlags {
        GetFlags(bits)
    }
}

/// Of msgsnd (msgop(2)).
#[derive(Clone, Copy, PartialEq, Eq, Debug)]
pub struct SendFlags(u32);

bitflag_items! {
    impl SendFlags: u32 {
        const NOWAIT = 0o4000;
    }
}

impl Flags for SendFlags {
    type Bits = u32;

    ghost exact = { ⊤ };

    ghost table = { (codes "NOWAIT", ipc_nowait) ∷ [] };

    ghost set_of = { λ f. f.0 };

    fn flags<'a>() -> &'a [Flag<SendFlags>] {
        SendFlags::FLAGS
    }

    fn bits(&self) -> u32 {
        self.0
    }

    fn from_bits_retain(bits: u32) -> SendFlags {
        SendFlags(bits)
    }
}

/// Of msgrcv (msgop(2)).
#[derive(Clone, Copy, PartialEq, Eq, Debug)]
pub struct ReceiveFlags(u32);

bitflag_items! {
    impl ReceiveFlags: u32 {
        const NOWAIT = 0o4000;
        const NOERROR = 0o10000;
        const EXCEPT = 0o20000;
    }
}

impl Flags for ReceiveFlags {
    type Bits = u32;

    ghost exact = { ⊤ };

    ghost table = { (codes "NOWAIT", ipc_nowait) ∷ (codes "NOERROR", msg_noerror) ∷ (codes "EXCEPT", msg_except) ∷ [] };

    ghost set_of = { λ f. f.0 };

    fn flags<'a>() -> &'a [Flag<ReceiveFlags>] {
        ReceiveFlags::FLAGS
    }

    fn bits(&self) -> u32 {
        self.0
    }

    fn from_bits_retain(bits: u32) -> ReceiveFlags {
        ReceiveFlags(bits)
    }
}

/// Of one operation of semop (semop(2)).
#[derive(Clone, Copy, PartialEq, Eq, Debug)]
pub struct SemFlags(u16);

bitflag_items! {
    impl SemFlags: u16 {
        const NOWAIT = 0o4000;
        const UNDO = 0o10000;
    }
}

impl Flags for SemFlags {
    type Bits = u16;

    ghost exact = { ⊤ };

    ghost table = { (codes "NOWAIT", ipc_nowait) ∷ (codes "UNDO", sem_undo) ∷ [] };

    ghost set_of = { λ f. f.0 };

    fn flags<'a>() -> &'a [Flag<SemFlags>] {
        SemFlags::FLAGS
    }

    fn bits(&self) -> u16 {
        self.0
    }

    fn from_bits_retain(bits: u16) -> SemFlags {
        SemFlags(bits)
    }
}

/// Of shmat (shmop(2)).
#[derive(Clone, Copy, PartialEq, Eq, Debug)]
pub struct AttachFlags(u32);

bitflag_items! {
    impl AttachFlags: u32 {
        const RDONLY = 0o10000;
    }
}

impl Flags for AttachFlags {
    type Bits = u32;

    ghost exact = { ⊤ };

    ghost table = { (codes "RDONLY", shm_rdonly) ∷ [] };

    ghost set_of = { λ f. f.0 };

    fn flags<'a>() -> &'a [Flag<AttachFlags>] {
        AttachFlags::FLAGS
    }

    fn bits(&self) -> u32 {
        self.0
    }

    fn from_bits_retain(bits: u32) -> AttachFlags {
        AttachFlags(bits)
    }
}

impl GetFlags {
    /// The low nine bits of a mode, as `0o660`: those of a new object, or of one that is there the rights that are asked.
    pub fn mode(mode: u32) -> GetFlags
        ensures { result.0 ≡ mode % 512 }
    {
        GetFlags(mode % 512)
    }
}
