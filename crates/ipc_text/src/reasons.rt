// Why a line is bad.

/// Why a line of a script is bad, in the order in which the reasons are looked for. The reasons are the
/// project's own.
#[derive(Clone, Copy, Debug, PartialEq, Eq)]
pub enum Reason {
    /// More than 65536 bytes.
    TooLong,
    /// A byte or a form that isn't in the grammar.
    BadLine,
    /// A client or a limit after the namespace was started.
    Late,
    /// A client's name that is there already.
    Twice,
    /// A 65th client.
    Many,
    /// The first word is no directive and no client's name.
    UnknownClient,
    /// The words after ipcs, ipcrm or ipcmk make no command.
    BadCommand,
    /// The client's last call still waits.
    Busy,
}
