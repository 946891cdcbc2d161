//! What an error and a rule say to a person: an error as strerror(3) has it, and beside it why the call was refused.

ghost use Rattle.std.specs.Prelude.{◌≡◌, pos, Some};
ghost use Rattle.std.specs.IoError.{raw_os_error};
ghost use Rattle.ipc_call.specs.Rules.{number_of};

use crate::error::Errno;
use crate::rules::Rule;
use std::error::Error;
use std::{fmt, io};

impl fmt::Display for Errno {
    fn fmt<W: fmt::Write>(&self, f: &mut fmt::Formatter<W>) -> fmt::Result {
        f.pad(self.text())
    }
}

impl Errno {
    fn text(self) -> &'static str {
        match self {
            Errno::EPERM => "Operation not permitted",
            Errno::ENOENT => "No such file or directory",
            Errno::ESRCH => "No such process",
            Errno::EINTR => "Interrupted system call",
            Errno::E2BIG => "Argument list too long",
            Errno::EAGAIN => "Resource temporarily unavailable",
            Errno::ENOMEM => "Cannot allocate memory",
            Errno::EACCES => "Permission denied",
            Errno::EEXIST => "File exists",
            Errno::EINVAL => "Invalid argument",
            Errno::EMFILE => "Too many open files",
            Errno::EFBIG => "File too large",
            Errno::ENOSPC => "No space left on device",
            Errno::ERANGE => "Numerical result out of range",
            Errno::ENOMSG => "No message of desired type",
            Errno::EIDRM => "Identifier removed",
        }
    }
}

/// The error, why the call was refused, and the name of the rule, as `Permission denied: the caller is in the owner class, whose
/// bits deny it (owner-bits)`.
impl fmt::Display for Rule {
    fn fmt<W: fmt::Write>(&self, f: &mut fmt::Formatter<W>) -> fmt::Result {
        let (error, why, name) = (self.error(), self.sentence(), self.name());
        write!(f, "{error}: {why} ({name})")
    }
}

impl Error for Rule {}

/// The error of the operating system with this rule's number.
impl From<Rule> for io::Error {
    ghost from_gives = { λ rule error. raw_os_error error ≡ Some (pos (number_of rule)) };

    fn from(rule: Rule) -> io::Error {
        io::Error::from_raw_os_error(i32::from(rule.error().number()))
    }
}

impl Rule {
    // Why it refuses, in a few words; the table of refusals in docs/PROFILE.md has the whole.
    fn sentence(self) -> &'static str {
        match self {
            Rule::NotOwner => "the caller is neither owner nor creator, and lacks CAP_SYS_ADMIN",
            Rule::NeedsResource => "a msg_qbytes above MSGMNB needs CAP_SYS_RESOURCE",
            Rule::NotSameUser => "a thread of the process has another effective user",
            Rule::NotOwnUser => "the user is none of the caller's own, which lacks CAP_SETUID",
            Rule::NotOwnGroup => "the group is none of the caller's own, which lacks CAP_SETGID",
            Rule::NeedsSetgid => "supplementary groups are given without CAP_SETGID",
            Rule::TooManyGroups => "more than 32 supplementary groups are given",
            Rule::NoKey => "no object has this key, and IPC_CREAT isn't given",
            Rule::Ended => "the caller's thread has ended",
            Rule::ClientInUse => "the client that is to begin hasn't ended",
            Rule::PidInUse => "a process has this pid",
            Rule::BadPid => "0 is the pid of no process",
            Rule::NoClient => "there is no client of this number",
            Rule::NoProcess => "no process has this pid, or the thread has ended",
            Rule::Interrupted => "another client interrupted the call",
            Rule::MessageTooLong => "the text is longer than the size asked for",
            Rule::TooManyOperations => "more operations than SEMOPM",
            Rule::QueueFull => "no room for the message, and IPC_NOWAIT is given",
            Rule::WouldWait => "an operation can't go on now, and has IPC_NOWAIT",
            Rule::TimedOut => "the deadline is reached",
            Rule::OwnerBits => "the caller is in the owner class, whose bits deny it",
            Rule::GroupBits => "the caller is in the group class, whose bits deny it",
            Rule::OtherBits => "the caller is in the class of others, whose bits deny it",
            Rule::ReadOnly => "the segment was attached with SHM_RDONLY",
            Rule::KeyExists => "an object has this key, and IPC_CREAT and IPC_EXCL are given",
            Rule::BadId => "the identifier names no object now",
            Rule::BadType => "the type of a message is below 1",
            Rule::TextTooLong => "the text has more than MSGMAX bytes",
            Rule::BadSize => "the size, or the number of semaphores or values, doesn't fit",
            Rule::BadSem => "the set has no semaphore of this number",
            Rule::BadArgument => "msg_qbytes is given for an object that is no queue",
            Rule::NoOperations => "no operation is given",
            Rule::SemOutOfSet => "an operation is on a semaphore that the set doesn't have",
            Rule::NotAttached => "the caller has nothing attached under this number",
            Rule::OutOfSegment => "the offset and the length are together above the size",
            Rule::TooManyAttached => "the caller has 4096 attachments",
            Rule::NoSlot => "each slot of this kind holds an object or is retired",
            Rule::ValueRange => "a semaphore's value would leave 0 to 32767",
            Rule::UndoRange => "the caller's semadj would leave -32768 to 32767",
            Rule::NoMessage => "no message of this type, and IPC_NOWAIT is given",
            Rule::Removed => "the object was removed",
        }
    }
}
