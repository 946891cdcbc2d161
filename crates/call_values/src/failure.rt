//! Why a call has no answer.

ghost use Rattle.std.specs.Prelude.{◌≡◌, pos, Some};
ghost use Rattle.std.specs.IoError.{raw_os_error};
ghost use Rattle.call_values.specs.Failures.{number_of_failure};
ghost use Rattle.call_values.specs.declared.failure.Failure.TheVariants.{Memory as MemoryFailed};

use ipc_call::{Errno, Memory, Rule};
use std::error::Error;
use std::{fmt, io};

/// Linux's number of EBUSY (errno(3)).
const EBUSY: u16 = 16;

/// Why a call has no answer. All but `Refused` come before the call is made, and then nothing has changed.
#[derive(Clone, Copy, Debug, PartialEq, Eq)]
pub enum Failure {
    /// The service refuses the call, or a call that waited, by this rule.
    Refused(Rule),
    /// An allocation fails (ENOMEM).
    Memory,
    /// There is no such client (ESRCH).
    NoClient,
    /// The client has a call that waits (EBUSY).
    Waiting,
    /// The client has an answer that isn't taken (EBUSY).
    Untaken,
}

impl Failure {
    /// Its number on Linux (errno(3)).
    #[tactic(auto, unfolding(ipc_call::specs::Errors::row_of))]
    pub fn number(self) -> u16
        ensures { result ≡ number_of_failure self }
    {
        match self {
            Failure::Refused(rule) => rule.error().number(),
            Failure::Memory => Errno::ENOMEM.number(),
            Failure::NoClient => Errno::ESRCH.number(),
            Failure::Waiting | Failure::Untaken => EBUSY,
        }
    }
}

/// As errno(3) tells it, and why: of a refusal the rule, as `Permission denied: the caller is in the owner class, whose bits
/// deny it (owner-bits)`.
impl fmt::Display for Failure {
    fn fmt<W: fmt::Write>(&self, f: &mut fmt::Formatter<W>) -> fmt::Result {
        match self {
            Failure::Refused(rule) => rule.fmt(f),
            Failure::Memory => Errno::ENOMEM.fmt(f),
            Failure::NoClient => write!(f, "{}: there is no such client", Errno::ESRCH),
            Failure::Waiting => f.pad("Device or resource busy: the client has a call that waits"),
            Failure::Untaken => f.pad("Device or resource busy: the client has an answer to take"),
        }
    }
}

impl Error for Failure {}

/// The error of the operating system with its number.
impl From<Failure> for io::Error {
    ghost from_gives = { λ failure error. raw_os_error error ≡ Some (pos (number_of_failure failure)) };

    fn from(failure: Failure) -> io::Error {
        io::Error::from_raw_os_error(i32::from(failure.number()))
    }
}

impl From<Memory> for Failure {
    ghost from_gives = { λ _ failure. failure ≡ MemoryFailed };

    fn from(_memory: Memory) -> Failure {
        Failure::Memory
    }
}
