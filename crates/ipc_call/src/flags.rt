//! The flags of calls.

ghost use Rattle.std.specs.Prelude.{◌≡◌, not};
ghost use Rattle.ipc_call.specs.Flags.{
  has_flag,
  ipc_creat,
  ipc_excl,
  ipc_nowait,
  msg_except,
  msg_noerror,
  sem_undo,
  shm_rdonly,
};

/// Of a get: create an object where none has the key (msgget(2)).
pub const IPC_CREAT: u32 = 0o1000;

/// Of a get: with `IPC_CREAT`, fail where an object has the key (msgget(2)).
pub const IPC_EXCL: u32 = 0o2000;

/// Of msgsnd, msgrcv and an operation of semop: fail where the call would wait (msgop(2), semop(2)).
pub const IPC_NOWAIT: u32 = 0o4000;

/// Of msgrcv: cut a text that is longer than asked for (msgop(2)).
pub const MSG_NOERROR: u32 = 0o10000;

/// Of msgrcv: with a msgtyp above 0, receive a message of another type (msgop(2)).
pub const MSG_EXCEPT: u32 = 0o20000;

/// Of an operation of semop: exit undoes it (semop(2)).
pub const SEM_UNDO: u32 = 0o10000;

/// Of shmat: attach to read, and not to write (shmop(2)).
pub const SHM_RDONLY: u32 = 0o10000;

/// Whether the flags of a get have `IPC_CREAT`.
pub fn creates(flags: u32) -> bool
    ensures { result ≡ has_flag flags ipc_creat }
{
    flags & IPC_CREAT != 0
}

/// Whether the flags of a get have `IPC_EXCL`.
pub fn is_exclusive(flags: u32) -> bool
    ensures { result ≡ has_flag flags ipc_excl }
{
    flags & IPC_EXCL != 0
}

/// Whether the flags of a call that may wait, or of an operation of semop, lack `IPC_NOWAIT`.
pub fn may_wait(flags: u32) -> bool
    ensures { result ≡ not (has_flag flags ipc_nowait) }
{
    flags & IPC_NOWAIT == 0
}

/// Whether the flags of msgrcv have `MSG_NOERROR`.
pub fn cuts_text(flags: u32) -> bool
    ensures { result ≡ has_flag flags msg_noerror }
{
    flags & MSG_NOERROR != 0
}

/// Whether the flags of msgrcv have `MSG_EXCEPT`.
pub fn takes_other_types(flags: u32) -> bool
    ensures { result ≡ has_flag flags msg_except }
{
    flags & MSG_EXCEPT != 0
}

/// Whether the flags of an operation of semop have `SEM_UNDO`.
pub fn undoes(flags: u32) -> bool
    ensures { result ≡ has_flag flags sem_undo }
{
    flags & SEM_UNDO != 0
}

/// Whether the flags of shmat have `SHM_RDONLY`.
pub fn is_read_only(flags: u32) -> bool
    ensures { result ≡ has_flag flags shm_rdonly }
{
    flags & SHM_RDONLY != 0
}
