// The commands.

ghost use Rattle.std.specs.Prelude.{◌≡◌, IfOk};
ghost use Rattle.clap.specs.Words.{app_of};
ghost use Rattle.ipc_commands.specs.Commands.{requests_of};
ghost use Rattle.ipc_commands.specs.Options.{app_of_tool, name_of_tool, tool_named};

use crate::options::{ipcmk, ipcrm, ipcs};
use crate::requests::Request;
use clap::Command;
use ipc_call::Kind;
use std::alloc::{AllocError, Global};

static LISTINGS: [Request; 3] = [
    Request::List(Kind::Queue),
    Request::List(Kind::Segment),
    Request::List(Kind::Sems),
];

static REMOVALS: [Request; 6] = [
    Request::RemoveById(Kind::Queue),
    Request::RemoveById(Kind::Segment),
    Request::RemoveById(Kind::Sems),
    Request::RemoveByKey(Kind::Queue),
    Request::RemoveByKey(Kind::Segment),
    Request::RemoveByKey(Kind::Sems),
];

static NEW_OBJECTS: [Request; 3] = [
    Request::Make(Kind::Queue),
    Request::Make(Kind::Segment),
    Request::Make(Kind::Sems),
];

/// A command on System V IPC objects.
#[derive(Clone, Copy, Debug, PartialEq, Eq)]
pub enum Tool {
    /// Lists objects (ipcs(1)).
    Ipcs,
    /// Removes objects (ipcrm(1)).
    Ipcrm,
    /// Makes objects (ipcmk(1)).
    Ipcmk,
}

impl Tool {
    /// The command of this name.
    #[tactic(auto, unfolding(crate::specs::Options::tool_named))]
    pub fn from_word(word: &[u8]) -> Option<Tool>
        ensures { result ≡ tool_named word.now }
    {
        match word {
            b"ipcs" => Some(Tool::Ipcs),
            b"ipcrm" => Some(Tool::Ipcrm),
            b"ipcmk" => Some(Tool::Ipcmk),
            _ => None,
        }
    }

    pub(crate) fn name(self) -> &'static str
        ensures { result.now ≡ name_of_tool self }
    {
        match self {
            Tool::Ipcs => "ipcs",
            Tool::Ipcrm => "ipcrm",
            Tool::Ipcmk => "ipcmk",
        }
    }

    // What the command's options ask for, in the order of the calls.
    pub(crate) fn requests(self) -> &'static [Request]
        ensures { result.now ≡ requests_of self }
    {
        match self {
            Tool::Ipcs => LISTINGS.as_slice(),
            Tool::Ipcrm => REMOVALS.as_slice(),
            Tool::Ipcmk => NEW_OBJECTS.as_slice(),
        }
    }

    // The command's options.
    pub(crate) fn command<'a>(self, alloc: Global) -> Result<Command<'a>, AllocError>
        ensures { IfOk result (λ command. app_of command ≡ app_of_tool self) }
    {
        match self {
            Tool::Ipcs => ipcs(alloc),
            Tool::Ipcrm => ipcrm(alloc),
            Tool::Ipcmk => ipcmk(alloc),
        }
    }
}
