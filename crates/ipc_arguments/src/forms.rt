// The calls, each with its arguments.

use crate::arguments::Argument;
use crate::arguments::Argument::{
    Att, Client, Creds, Flags, GetFlags, Gid, Groups, Id, Key, Kind, Len, MType, Mode, MsgTyp,
    NSems, Num, Offset, Op, Pid, QBytes, Size, Target, Text, Timeout, Uid, Value,
};
use std::fmt;
use std::fmt::Write;

/// What may follow the arguments of a call.
#[derive(Clone, Copy, Debug, PartialEq, Eq)]
pub enum More {
    Nothing,
    /// One more argument, or none.
    Maybe(Argument),
    /// Any number of them.
    Any(Argument),
    /// Options in an order of their own, or none.
    Options(Argument),
}

/// A call with its arguments. It prints as the documents have it.
#[derive(Clone, Copy, Debug)]
pub struct Form {
    pub call: &'static str,
    pub takes: &'static [Argument],
    pub more: More,
}

impl Form {
    /// The argument at an index.
    pub fn argument_at(self, index: usize) -> Option<Argument> {
        if let Some(argument) = self.takes.get(index) {
            return Some(*argument);
        }
        match self.more {
            More::Nothing => None,
            More::Maybe(argument) if index == self.takes.len() => Some(argument),
            More::Maybe(_) => None,
            More::Any(argument) | More::Options(argument) => Some(argument),
        }
    }
}

impl fmt::Display for Form {
    fn fmt<W: fmt::Write>(&self, f: &mut fmt::Formatter<W>) -> fmt::Result {
        f.write_str(self.call)?;
        f.write_str(" takes")?;
        for argument in self.takes {
            let name = argument.name();
            write!(f, " {name}")?;
        }
        match self.more {
            More::Nothing if self.takes.is_empty() => f.write_str(" no argument"),
            More::Nothing => Ok(()),
            More::Maybe(argument) => {
                let name = argument.name();
                write!(f, " [{name}]")
            }
            More::Any(argument) => {
                let name = argument.name();
                write!(f, " {name} ..")
            }
            More::Options(argument) => {
                let name = argument.name();
                write!(f, " {name}")
            }
        }
    }
}

const fn taking(call: &'static str, takes: &'static [Argument], more: More) -> Form {
    Form { call, takes, more }
}

/// The names of all calls and commands.
pub const CALLS: &str =
    "msgget msgsnd msgrcv semget semop semtimedop getval getpid getncnt getzcnt getall setval setall \
shmget shmat shmdt shmread shmwrite stat set rmid interrupt kill setcreds assume begin fork clone name exec exit ipcs ipcrm ipcmk";

/// The call of this name, with its arguments.
pub fn form_of(call: &[u8]) -> Option<Form> {
    match call {
        b"msgget" => Some(taking("msgget", &[Key, GetFlags], More::Nothing)),
        b"msgsnd" => Some(taking("msgsnd", &[Id, MType, Text, Flags], More::Nothing)),
        b"msgrcv" => Some(taking("msgrcv", &[Id, Size, MsgTyp, Flags], More::Nothing)),
        b"shmget" => Some(taking("shmget", &[Key, Size, GetFlags], More::Nothing)),
        b"shmat" => Some(taking("shmat", &[Id, Flags], More::Nothing)),
        b"shmdt" => Some(taking("shmdt", &[Att], More::Nothing)),
        b"shmread" => Some(taking("shmread", &[Att, Offset, Len], More::Nothing)),
        b"shmwrite" => Some(taking("shmwrite", &[Att, Offset, Text], More::Nothing)),
        b"stat" => Some(taking("stat", &[Kind, Id], More::Nothing)),
        b"rmid" => Some(taking("rmid", &[Kind, Id], More::Nothing)),
        b"set" => Some(taking("set", &[Kind, Id, Uid, Gid, Mode], More::Maybe(QBytes))),
        _ => process_form(call),
    }
}

fn process_form(call: &[u8]) -> Option<Form> {
    match call {
        b"interrupt" => Some(taking("interrupt", &[Target], More::Nothing)),
        b"kill" => Some(taking("kill", &[Pid], More::Nothing)),
        b"setcreds" => Some(taking("setcreds", &[Uid, Gid], More::Maybe(Groups))),
        b"assume" => Some(taking("assume", &[Uid, Gid], More::Options(Creds))),
        b"begin" => Some(taking("begin", &[Pid, Uid, Gid], More::Options(Creds))),
        b"fork" => Some(taking("fork", &[Client, Pid], More::Nothing)),
        b"clone" => Some(taking("clone", &[Client], More::Nothing)),
        b"name" => Some(taking("name", &[Pid], More::Nothing)),
        b"exec" => Some(taking("exec", &[], More::Nothing)),
        b"exit" => Some(taking("exit", &[], More::Nothing)),
        _ => semaphore_form(call),
    }
}

fn semaphore_form(call: &[u8]) -> Option<Form> {
    match call {
        b"semget" => Some(taking("semget", &[Key, NSems, GetFlags], More::Nothing)),
        b"semop" => Some(taking("semop", &[Id], More::Any(Op))),
        b"semtimedop" => Some(taking("semtimedop", &[Id, Timeout], More::Any(Op))),
        b"getval" => Some(taking("getval", &[Id, Num], More::Nothing)),
        b"getpid" => Some(taking("getpid", &[Id, Num], More::Nothing)),
        b"getncnt" => Some(taking("getncnt", &[Id, Num], More::Nothing)),
        b"getzcnt" => Some(taking("getzcnt", &[Id, Num], More::Nothing)),
        b"getall" => Some(taking("getall", &[Id], More::Nothing)),
        b"setval" => Some(taking("setval", &[Id, Num, Value], More::Nothing)),
        b"setall" => Some(taking("setall", &[Id], More::Any(Value))),
        _ => None,
    }
}
