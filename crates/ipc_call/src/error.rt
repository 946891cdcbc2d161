//! Linux's error numbers.

ghost use Rattle.std.specs.Prelude.{◌≡◌};
ghost use Rattle.ipc_call.specs.Errors.{name_of, number_of};

/// An error of errno(3), with Linux's number.
#[derive(Clone, Copy, Debug, PartialEq, Eq)]
pub enum Errno {
    /// Operation not permitted.
    EPERM = 1,
    /// No such file or directory: no object has the key.
    ENOENT = 2,
    /// No such process.
    ESRCH = 3,
    /// Interrupted system call.
    EINTR = 4,
    /// Argument list too long.
    E2BIG = 7,
    /// Resource temporarily unavailable.
    EAGAIN = 11,
    /// Cannot allocate memory: no rule, since an allocation failed.
    ENOMEM = 12,
    /// Permission denied.
    EACCES = 13,
    /// File exists: an object has the key.
    EEXIST = 17,
    /// Invalid argument.
    EINVAL = 22,
    /// Too many open files: a client has as many attachments as it may have.
    EMFILE = 24,
    /// File too large: a set has no such semaphore.
    EFBIG = 27,
    /// No space left on device: no slot is usable.
    ENOSPC = 28,
    /// Result too large.
    ERANGE = 34,
    /// No message of desired type.
    ENOMSG = 42,
    /// Identifier removed.
    EIDRM = 43,
}

impl Errno {
    /// Its number on Linux.
    #[tactic(auto, unfolding(crate::specs::Errors::row_of))]
    pub fn number(self) -> u16
        ensures { result ≡ number_of self }
    {
        self as u16
    }

    /// Its name, as `EACCES`.
    #[tactic(auto, unfolding(crate::specs::Errors::row_of))]
    pub fn name(self) -> &'static str
        ensures { result.now ≡ name_of self }
    {
        match self {
            Errno::EPERM => "EPERM",
            Errno::ENOENT => "ENOENT",
            Errno::ESRCH => "ESRCH",
            Errno::EINTR => "EINTR",
            Errno::E2BIG => "E2BIG",
            Errno::EAGAIN => "EAGAIN",
            Errno::ENOMEM => "ENOMEM",
            Errno::EACCES => "EACCES",
            Errno::EEXIST => "EEXIST",
            Errno::EINVAL => "EINVAL",
            Errno::EMFILE => "EMFILE",
            Errno::EFBIG => "EFBIG",
            Errno::ENOSPC => "ENOSPC",
            Errno::ERANGE => "ERANGE",
            Errno::ENOMSG => "ENOMSG",
            Errno::EIDRM => "EIDRM",
        }
    }
}
