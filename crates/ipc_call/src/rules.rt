//! The rules by which calls are refused.

ghost use Rattle.std.specs.Prelude.{◌≡◌};
ghost use Rattle.ipc_call.specs.Rules.{error_of, name_of_rule, number_of};

use crate::error::Errno;

/// Why a call was refused. Each error is that of POSIX.1-2017 XSH msgget, msgsnd, msgrcv, msgctl, semget, semop,
/// semctl, shmget, shmat, shmdt or shmctl, and of Linux.
#[derive(Clone, Copy, Debug, PartialEq, Eq)]
pub enum Rule {
    /// The caller neither owns nor created the object, and lacks CAP_SYS_ADMIN.
    NotOwner,
    /// A `msg_qbytes` above MSGMNB is given, and the caller lacks CAP_SYS_RESOURCE.
    NeedsResource,
    /// A thread of the process has another effective user than the caller, which is none of its threads and lacks
    /// CAP_SYS_ADMIN.
    NotSameUser,
    /// The user asked for is neither the effective, the real nor the saved one, and the caller lacks CAP_SETUID.
    NotOwnUser,
    /// The group asked for is neither the effective, the real nor the saved one, and the caller lacks CAP_SETGID.
    NotOwnGroup,
    /// Supplementary groups are given, and the caller lacks CAP_SETGID.
    NeedsSetgid,
    /// More than 32 supplementary groups are given.
    TooManyGroups,
    /// The key has no object, and `IPC_CREAT` isn't given.
    NoKey,
    /// The client has ended.
    Ended,
    /// The client that is to begin hasn't ended.
    ClientInUse,
    /// A process has this pid.
    PidInUse,
    /// The pid is 0.
    BadPid,
    /// There is no client of this number.
    NoClient,
    /// No process has this pid, or the thread has ended.
    NoProcess,
    /// The waiting call was interrupted.
    Interrupted,
    /// The text of the message that is chosen is longer than asked for, and `MSG_NOERROR` isn't given.
    MessageTooLong,
    /// More operations are given than SEMOPM.
    TooManyOperations,
    /// The queue is full for the message.
    QueueFull,
    /// An operation of semop with `IPC_NOWAIT` can't go on now.
    WouldWait,
    /// The call has waited until its deadline, or would have to wait and its deadline isn't above the clock
    /// (semtimedop of semop(2)).
    TimedOut,
    /// The caller is in the owner class, and the owner's permission bits lack one that is asked.
    OwnerBits,
    /// The caller is in the group class, and the group's permission bits lack one that is asked.
    GroupBits,
    /// The caller is in neither class, and the others' permission bits lack one that is asked.
    OtherBits,
    /// The attachment is read-only: it was made with `SHM_RDONLY`.
    ReadOnly,
    /// The key has an object, and both `IPC_CREAT` and `IPC_EXCL` are given.
    KeyExists,
    /// The identifier names no object, or names none any more. For one that was removed POSIX allows EIDRM too.
    BadId,
    /// The type of a message is below 1.
    BadType,
    /// The text of a message is longer than MSGMAX.
    TextTooLong,
    /// The number of semaphores is none for a new set, above SEMMSL, or above that of the set; or as many values as the
    /// set has semaphores aren't given; or the size is 0 or above SHMMAX for a new segment, or above that of the
    /// segment.
    BadSize,
    /// The set has no semaphore of this number.
    BadSem,
    /// `msg_qbytes` is given for an object that is no queue.
    BadArgument,
    /// No operation is given.
    NoOperations,
    /// An operation names a semaphore that the set doesn't have.
    SemOutOfSet,
    /// The client has no attachment of this number.
    NotAttached,
    /// The offset and the length that are asked for together are above the size of the segment.
    OutOfSegment,
    /// The client has SHMSEG attachments, 4096.
    TooManyAttached,
    /// Each slot of the kind holds an object or is retired.
    NoSlot,
    /// The value of a semaphore would rise above SEMVMX, 32767, or one that isn't 0 to SEMVMX is given.
    ValueRange,
    /// An operation with `SEM_UNDO` would take the caller's semadj of a semaphore out of -32768 to 32767.
    UndoRange,
    /// The queue has no message of the type that is asked for.
    NoMessage,
    /// The object was removed while the call waited.
    Removed,
}

impl Rule {
    /// The error that its caller receives.
    pub fn error(self) -> Errno
        ensures { result ≡ error_of self }
    {
        self.row().0
    }

    /// Its name as it is printed, as `other-bits`.
    pub fn name(self) -> &'static str
        ensures { result.now ≡ name_of_rule self }
    {
        self.row().1
    }

    #[tactic(auto, unfolding(crate::specs::Rules::row_of))]
    fn row(self) -> (Errno, &'static str)
        ensures error { result.0 ≡ error_of self }
        ensures name { result.1.now ≡ name_of_rule self }
    {
        match self {
            Rule::NotOwner => (Errno::EPERM, "not-owner"),
            Rule::NeedsResource => (Errno::EPERM, "needs-resource"),
            Rule::NotSameUser => (Errno::EPERM, "not-same-user"),
            Rule::NotOwnUser => (Errno::EPERM, "not-own-user"),
            Rule::NotOwnGroup => (Errno::EPERM, "not-own-group"),
            Rule::NeedsSetgid => (Errno::EPERM, "needs-setgid"),
            Rule::TooManyGroups => (Errno::EINVAL, "too-many-groups"),
            Rule::NoKey => (Errno::ENOENT, "no-key"),
            Rule::Ended => (Errno::ESRCH, "ended"),
            Rule::ClientInUse => (Errno::EAGAIN, "client-in-use"),
            Rule::PidInUse => (Errno::EEXIST, "pid-in-use"),
            Rule::BadPid => (Errno::EINVAL, "bad-pid"),
            Rule::NoClient => (Errno::ESRCH, "no-client"),
            Rule::NoProcess => (Errno::ESRCH, "no-process"),
            Rule::Interrupted => (Errno::EINTR, "interrupted"),
            Rule::MessageTooLong => (Errno::E2BIG, "message-too-long"),
            Rule::TooManyOperations => (Errno::E2BIG, "too-many-operations"),
            Rule::QueueFull => (Errno::EAGAIN, "queue-full"),
            Rule::WouldWait => (Errno::EAGAIN, "would-wait"),
            Rule::TimedOut => (Errno::EAGAIN, "timed-out"),
            Rule::OwnerBits => (Errno::EACCES, "owner-bits"),
            Rule::GroupBits => (Errno::EACCES, "group-bits"),
            Rule::OtherBits => (Errno::EACCES, "other-bits"),
            Rule::ReadOnly => (Errno::EACCES, "read-only"),
            Rule::KeyExists => (Errno::EEXIST, "key-exists"),
            Rule::BadId => (Errno::EINVAL, "bad-id"),
            Rule::BadType => (Errno::EINVAL, "bad-type"),
            Rule::TextTooLong => (Errno::EINVAL, "text-too-long"),
            Rule::BadSize => (Errno::EINVAL, "bad-size"),
            Rule::BadSem => (Errno::EINVAL, "bad-sem"),
            Rule::BadArgument => (Errno::EINVAL, "bad-argument"),
            Rule::NoOperations => (Errno::EINVAL, "no-operations"),
            Rule::NotAttached => (Errno::EINVAL, "not-attached"),
            Rule::OutOfSegment => (Errno::EINVAL, "out-of-segment"),
            Rule::TooManyAttached => (Errno::EMFILE, "too-many-attached"),
            Rule::SemOutOfSet => (Errno::EFBIG, "sem-out-of-set"),
            Rule::NoSlot => (Errno::ENOSPC, "no-slot"),
            Rule::ValueRange => (Errno::ERANGE, "value-range"),
            Rule::UndoRange => (Errno::ERANGE, "undo-range"),
            Rule::NoMessage => (Errno::ENOMSG, "no-message"),
            Rule::Removed => (Errno::EIDRM, "removed"),
        }
    }
}

/// The error number of a rule, as Linux has it (errno(3)).
pub fn errno(rule: Rule) -> u16
    ensures { result ≡ number_of rule }
{
    rule.error().number()
}
