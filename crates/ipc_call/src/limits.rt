//! The limits of a namespace.

ghost use Rattle.std.specs.Prelude.{◌≡◌, IsTrue};
ghost use Rattle.ipc_call.specs.Limits.{
  are_in_range,
  default_limits,
  is_in_range,
  least as least_value,
  most as most_value,
  with_limit as limits_with,
};

/// The limits of a namespace, each with the name of Linux where it has one (proc_sys_kernel(5), or proc(5)).
/// `Limit` has their ranges.
#[derive(Clone, Copy, Debug, PartialEq, Eq)]
pub struct Limits {
    /// MSGMNI, slots for queues.
    pub queues: u32,
    /// SEMMNI, slots for semaphore sets.
    pub sets: u32,
    /// SHMMNI, slots for segments.
    pub segments: u32,
    /// The sequence number of a slot that was never used.
    pub first_seq: u16,
    /// MSGMAX, the longest text of a message in bytes.
    pub msg_max: u32,
    /// MSGMNB, msg_qbytes of a new queue.
    pub msg_mnb: u32,
    /// SEMMSL, semaphores in a set.
    pub sem_msl: u32,
    /// SEMOPM, operations in a semop.
    pub sem_opm: u32,
    /// SHMMAX, the largest segment in bytes.
    pub shm_max: u32,
}

impl Default for Limits {
    ghost is_default = { λ limits. limits ≡ default_limits };

    /// The limits that hold where none is set.
    fn default() -> Limits {
        Limits {
            queues: 128,
            sets: 128,
            segments: 128,
            first_seq: 0,
            msg_max: 8192,
            msg_mnb: 16384,
            sem_msl: 32000,
            sem_opm: 500,
            shm_max: 33_554_432,
        }
    }
}

impl Limits {
    /// Whether each limit is in its range.
    pub fn in_range(&self) -> bool
        ensures { result ≡ are_in_range self.now }
    {
        Limit::Queues.admits(self.queues)
            && Limit::Sets.admits(self.sets)
            && Limit::Segments.admits(self.segments)
            && Limit::MsgMax.admits(self.msg_max)
            && Limit::MsgMnb.admits(self.msg_mnb)
            && Limit::SemMsl.admits(self.sem_msl)
            && Limit::SemOpm.admits(self.sem_opm)
            && Limit::ShmMax.admits(self.shm_max)
    }

    /// The limits with one of them set to a value in its range, or with the slots of all kinds set to it.
    pub fn with_limit(self, limit: Limit, value: u32) -> Limits
        requires { IsTrue (is_in_range limit value) }
        ensures value { result ≡ limits_with self limit value }
        ensures in_range { IsTrue (are_in_range self) → IsTrue (are_in_range result) }
    {
        match limit {
            Limit::Slots => Limits {
                queues: value,
                sets: value,
                segments: value,
                ..self
            },
            Limit::Queues => Limits {
                queues: value,
                ..self
            },
            Limit::Sets => Limits {
                sets: value,
                ..self
            },
            Limit::Segments => Limits {
                segments: value,
                ..self
            },
            Limit::FirstSeq => Limits {
                first_seq: value as u16,
                ..self
            },
            Limit::MsgMax => Limits {
                msg_max: value,
                ..self
            },
            Limit::MsgMnb => Limits {
                msg_mnb: value,
                ..self
            },
            Limit::SemMsl => Limits {
                sem_msl: value,
                ..self
            },
            Limit::SemOpm => Limits {
                sem_opm: value,
                ..self
            },
            Limit::ShmMax => Limits {
                shm_max: value,
                ..self
            },
        }
    }
}

/// One of the limits, or the slots of all kinds.
#[derive(Clone, Copy, Debug, PartialEq, Eq)]
pub enum Limit {
    /// The slots of each kind, 1 to 32768, by default 128.
    Slots,
    /// 1 to 32768, by default 128.
    Queues,
    /// 1 to 32768, by default 128.
    Sets,
    /// 1 to 32768, by default 128.
    Segments,
    /// 0 to 65535, by default 0.
    FirstSeq,
    /// 1 to 65536 bytes, by default 8192.
    MsgMax,
    /// 1 to 2147483647 bytes, by default 16384.
    MsgMnb,
    /// 1 to 32000, which is the default.
    SemMsl,
    /// 1 to 500, which is the default.
    SemOpm,
    /// 1 to 1073741824 bytes, by default 33554432.
    ShmMax,
}

impl Limit {
    /// The least value.
    pub fn least(self) -> u32
        ensures { result ≡ least_value self }
    {
        self.range().0
    }

    /// The greatest value.
    pub fn most(self) -> u32
        ensures { result ≡ most_value self }
    {
        self.range().1
    }

    fn range(self) -> (u32, u32)
        ensures least { result.0 ≡ least_value self }
        ensures most { result.1 ≡ most_value self }
    {
        match self {
            Limit::Slots => (1, 32768),
            Limit::Queues => (1, 32768),
            Limit::Sets => (1, 32768),
            Limit::Segments => (1, 32768),
            Limit::FirstSeq => (0, 65535),
            Limit::MsgMax => (1, 65536),
            Limit::MsgMnb => (1, 2_147_483_647),
            Limit::SemMsl => (1, 32000),
            Limit::SemOpm => (1, 500),
            Limit::ShmMax => (1, 1_073_741_824),
        }
    }

    /// Whether the value is in the limit's range.
    pub fn admits(self, value: u32) -> bool
        ensures { result ≡ is_in_range self value }
    {
        let (least, most) = self.range();
        least <= value && value <= most
    }
}
