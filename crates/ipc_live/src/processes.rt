//! A process as its status tells it.

use ipc_creds::Creds;

/// A process of the machine.
#[derive(Debug, Drop)]
pub struct Process {
    /// Its number.
    pub pid: u32,
    /// The name of its command (comm of proc(5)), in printing characters of ASCII.
    pub name: String,
    /// Its credentials. The effective group is the one of the file system, at which Linux looks (credentials(7)).
    pub creds: Creds,
}
