//! What a client asks for in a measurement.

use ipc_call::{Answer, Call, IPC_CREAT, IPC_NOWAIT, Items, Kind, Reply, SemOper};
use std::alloc::{AllocError, Global};
use std::mem;
use test_support::calls::answer_in;

/// The key of the first client's queue, and of what all share.
const KEY: u32 = 5;

/// The type of the messages.
const ANY: i64 = 1;

/// How many calls a round of `Task::Mix` has.
const MIXED: u32 = 6;

/// What is asked for.
#[derive(Clone, Copy, Debug, PartialEq, Eq)]
pub enum Task {
    /// The queue of a key.
    Get,
    /// To send a text of so many bytes and to receive it, by turns.
    Message(usize),
    /// To add 1 to a semaphore and to take it away, by turns.
    Operate,
    /// A get, a send, IPC_STAT, a semop, a receive and a semop, by turns.
    Mix,
    /// To send a message to another client and to receive one from it, by turns.
    HandOver,
    /// To receive from a queue that denies its own user.
    Denied,
    /// To send a text of 64 bytes and to receive one, by turns, all at one queue.
    OneQueue,
    /// To add 1 to a semaphore and to take it away, by turns, all at one.
    OneCounter,
    /// To take a lock, which is a semaphore, and to give it back, by turns, all the same.
    OneLock,
    /// To attach a segment and to detach it, by turns, all the same.
    OneSegment,
}

/// What a client makes before it begins.
#[derive(Clone, Copy, Debug, PartialEq, Eq)]
pub enum Made {
    Queue,
    Set,
    Segment,
}

/// How a client comes to a message in `Task::HandOver`, and to the lock in `Task::OneLock`.
#[derive(Clone, Copy, Debug, PartialEq, Eq)]
pub enum Patience {
    /// Its call waits until it is there.
    Waits,
    /// It asks again until it is there.
    AsksAgain,
}

/// What an answer is to the client that asked.
#[derive(Clone, Copy, Debug, PartialEq, Eq)]
pub enum Took {
    /// What the task wants.
    Wanted,
    /// No message yet, or the lock is taken: the client asks again.
    NotYet,
    /// Something else.
    Unwanted,
}

/// A client's calls.
#[derive(Debug, Drop)]
pub struct Asker {
    alloc: Global,
    task: Task,
    patience: Patience,
    client: u32,
    clients: u32,
    turn: u32,
    queue: u32,
    set: u32,
    segment: u32,
    peer: Option<u32>,
    text: Option<Items<u8>>,
    attached: Option<u32>,
    // The lock, in `Task::OneLock`.
    holds: bool,
}

impl Asker {
    /// The calls of one of so many clients, which has made nothing yet.
    pub fn new(
        alloc: Global,
        task: Task,
        patience: Patience,
        client: u32,
        clients: u32,
    ) -> Result<Asker, AllocError> {
        let bytes = match task {
            Task::Message(bytes) => bytes,
            _ => 64,
        };
        let begins = task != Task::HandOver || client % 2 == 0;
        let text = if begins {
            Some(Items::new(vec![in alloc; 97u8; bytes]?))
        } else {
            None
        };
        Ok(Asker {
            alloc,
            task,
            patience,
            client,
            clients,
            turn: 0,
            queue: 0,
            set: 0,
            segment: 0,
            peer: None,
            text,
            attached: None,
            holds: false,
        })
    }

    /// The call that makes its queue, set of one semaphore or segment of one byte, or finds that of all.
    pub fn making(&self, made: Made) -> Call {
        let mode = if self.task == Task::Denied { 0 } else { 0o600 };
        let flags = IPC_CREAT | mode;
        match made {
            Made::Queue => Call::MsgGet {
                key: self.key_of(self.client),
                flags,
            },
            Made::Set => Call::SemGet {
                key: self.key_of_set(),
                nsems: 1,
                flags,
            },
            Made::Segment => Call::ShmGet {
                key: KEY,
                size: 1,
                flags,
            },
        }
    }

    /// Takes the answer to that call: whether it is one.
    pub fn take_made(&mut self, made: Made, reply: Reply) -> bool {
        let Some(Answer::Id(id)) = answer_in(reply) else {
            return false;
        };
        match made {
            Made::Queue => self.queue = id,
            Made::Set => self.set = id,
            Made::Segment => self.segment = id,
        }
        true
    }

    /// The key of a client's queue: one for all where that is asked for, and else one for each.
    fn key_of(&self, client: u32) -> u32 {
        match self.task {
            Task::Get | Task::OneQueue => KEY,
            _ => KEY.wrapping_add(client),
        }
    }

    /// The key of its set: one for all, or none.
    fn key_of_set(&self) -> u32 {
        match self.task {
            Task::OneCounter | Task::OneLock => KEY,
            _ => 0,
        }
    }

    /// Its next call.
    pub fn next(&mut self) -> Result<Call, AllocError> {
        let turn = self.turn;
        self.turn = turn.wrapping_add(1) % (2 * MIXED);
        match self.task {
            Task::Get => Ok(self.get(self.client)),
            Task::Message(_) | Task::OneQueue => Ok(self.message(self.queue)),
            Task::Operate | Task::OneCounter => self.operate(turn % 2 == 0),
            Task::Mix => self.mixed(turn % MIXED),
            Task::HandOver => Ok(self.hand_over()),
            Task::Denied => Ok(self.receive(IPC_NOWAIT)),
            Task::OneLock => self.lock(),
            Task::OneSegment => Ok(self.attach()),
        }
    }

    fn get(&self, client: u32) -> Call {
        Call::MsgGet {
            key: self.key_of(client),
            flags: 0o600,
        }
    }

    fn mixed(&mut self, turn: u32) -> Result<Call, AllocError> {
        match turn {
            0 => Ok(self.get(self.client)),
            1 | 4 => Ok(self.message(self.queue)),
            2 => Ok(Call::IpcStat {
                kind: Kind::Queue,
                id: self.queue,
            }),
            _ => self.operate(turn == 3),
        }
    }

    /// Adds 1 to the semaphore, or takes it away.
    fn operate(&self, adds: bool) -> Result<Call, AllocError> {
        let op = on_first(if adds { 1 } else { -1 }, 0);
        self.semop(vec![in self.alloc; op; 1]?)
    }

    /// Takes the lock, whose semaphore is 1 while a client holds it, or gives it back.
    fn lock(&self) -> Result<Call, AllocError> {
        if self.holds {
            return self.operate(false);
        }
        let flags = match self.patience {
            Patience::Waits => 0,
            Patience::AsksAgain => IPC_NOWAIT as u16,
        };
        self.semop(vec![in self.alloc; on_first(0, flags), on_first(1, flags)]?)
    }

    fn semop(&self, ops: Vec<SemOper>) -> Result<Call, AllocError> {
        Ok(Call::SemOp {
            id: self.set,
            ops: Items::new(ops),
        })
    }

    /// Attaches the segment, or detaches it where it is attached.
    fn attach(&self) -> Call {
        match self.attached {
            Some(att) => Call::ShmDt { att },
            None => Call::ShmAt {
                id: self.segment,
                flags: 0,
            },
        }
    }

    /// Sends the text to the queue where the client has it, and else receives it from its own.
    fn message(&mut self, to: u32) -> Call {
        match mem::replace(&mut self.text, None) {
            Some(text) => Call::MsgSnd {
                id: to,
                mtype: ANY,
                text,
                flags: IPC_NOWAIT,
            },
            None => self.receive(IPC_NOWAIT),
        }
    }

    /// The first call finds the queue of the other of two clients, or its own where there is no other.
    fn hand_over(&mut self) -> Call {
        let Some(peer) = self.peer else {
            let other = self.client ^ 1;
            let number = if other < self.clients {
                other
            } else {
                self.client
            };
            return self.get(number);
        };
        if self.text.is_some() {
            return self.message(peer);
        }
        match self.patience {
            Patience::Waits => self.receive(0),
            Patience::AsksAgain => self.receive(IPC_NOWAIT),
        }
    }

    fn receive(&self, flags: u32) -> Call {
        Call::MsgRcv {
            id: self.queue,
            size: u64::MAX,
            msgtyp: 0,
            flags,
        }
    }

    /// Takes the answer to a call.
    pub fn take(&mut self, reply: Reply) -> Took {
        match (self.task, answer_in(reply)) {
            (Task::Denied, None) => Took::Wanted,
            (Task::Denied, Some(_)) => Took::Unwanted,
            (Task::HandOver | Task::OneLock, None) => Took::NotYet,
            (_, Some(answer)) => self.keep(answer),
            _ => Took::Unwanted,
        }
    }

    fn keep(&mut self, answer: Answer) -> Took {
        match answer {
            Answer::Id(id) => self.keep_id(id),
            Answer::Message { text, .. } => {
                self.text = Some(text);
                Took::Wanted
            }
            Answer::Attached(number) => {
                self.attached = Some(number);
                Took::Wanted
            }
            _ => self.keep_done(),
        }
    }

    /// A semop takes the lock or gives it back, and a segment is detached.
    fn keep_done(&mut self) -> Took {
        self.holds = !self.holds;
        self.attached = None;
        Took::Wanted
    }

    /// In `Task::HandOver` it is the other's queue, and else the client's own.
    fn keep_id(&mut self, id: u32) -> Took {
        if self.task == Task::HandOver {
            self.peer = Some(id);
        } else if id != self.queue {
            return Took::Unwanted;
        }
        Took::Wanted
    }
}

/// How many calls each of so many clients makes where they make so many together: whole turns of two, at least one,
/// so that a client gives back what it took.
pub fn calls_each(calls: u32, clients: u32) -> u32 {
    (calls / clients.max(1) / 2).max(1).saturating_mul(2)
}

/// An operation on the first semaphore.
fn on_first(op: i16, flags: u16) -> SemOper {
    SemOper { num: 0, op, flags }
}
