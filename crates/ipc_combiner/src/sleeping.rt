//! A client sleeps while its call waits, and whoever ends that call wakes it.
ghost use Rattle.std.specs.Prelude.{◌≡◌, ◌<◌, ◌≤◌};
ghost use Rattle.ipc_combiner.specs.States.{IsOf};
ghost use Rattle.pub_list.specs.Clients.{work};

use crate::states::{InFlight, Service};
use crossbeam_utils::Backoff;
use pub_list::WordState;
use std::sync::Wait;
use std::sync::atomic::{AtomicU64, Ordering};
use std::time::Duration;

/// How often a client yields the processor before it sleeps. To be woken takes longer than to find a short call ended.
const YIELDS: u32 = 100;

/// The longest sleep, in milliseconds, after which a client looks for itself: who combines by `combine` wakes nobody.
const NAP_MS: u64 = 1;

/// The clients that sleep, a bit for each, and how often one was woken.
#[derive(Drop)]
pub(crate) struct Sleepers {
    bits: AtomicU64,
    wakes: AtomicU64,
}

impl Sleepers {
    pub(crate) fn none() -> Sleepers {
        Sleepers {
            bits: AtomicU64::new(0),
            wakes: AtomicU64::new(0),
        }
    }

    fn enter(&self, client: u32)
        requires { client < 64 }
    {
        self.bits.fetch_or(1 << client, Ordering::SeqCst);
    }

    fn leave(&self, client: u32)
        requires { client < 64 }
    {
        self.bits.fetch_and(!(1 << client), Ordering::SeqCst);
    }
}

impl Service {
    /// How many clients sleep now. Each looks for itself after a millisecond, so for a moment it doesn't count though its
    /// call still waits.
    pub fn asleep(&self) -> u32
        ensures { result ≤ 64 }
    {
        self.sleepers.bits.load(Ordering::SeqCst).count_ones()
    }

    /// How often a client that passed in `Idle::call` found another asleep whose call had ended, and woke it. The sleeper
    /// may have been about to look for itself. One that is found again before it is up counts again.
    pub fn wakes(&self) -> u64 {
        self.sleepers.wakes.load(Ordering::SeqCst)
    }
}

/// How long a client has waited for its call: at first it spins, then it yields the processor.
#[derive(Drop)]
pub(crate) struct Patience {
    backoff: Backoff,
    yields: u32,
}

impl Patience {
    pub(crate) fn new() -> Patience {
        Patience {
            backoff: Backoff::new(),
            yields: 0,
        }
    }

    fn snooze(&mut self) {
        self.backoff.snooze();
        if self.backoff.is_completed() {
            self.yields = self.yields.saturating_add(1);
        }
    }

    fn is_over(&self) -> bool {
        self.yields >= YIELDS
    }
}

impl InFlight {
    /// Passes the time until the next look for the answer. It sleeps where the call waits, and has waited for long.
    pub(crate) fn pause<R: Wait>(
        &self,
        rt: &R,
        service: &Service,
        waits: bool,
        patience: &mut Patience,
    )
        requires { IsOf service.now.list self.now.joined }
    {
        if waits && patience.is_over() {
            self.sleep(rt, service);
        } else {
            patience.snooze();
        }
    }

    fn sleep<R: Wait>(&self, rt: &R, service: &Service)
        requires { IsOf service.now.list self.now.joined }
    {
        let own = self.joined.client();
        service.sleepers.enter(own);
        self.joined
            .sleep(rt, &service.list, Duration::from_millis(NAP_MS));
        service.sleepers.leave(own);
    }

    /// Wakes the clients that sleep though their calls have ended.
    pub(crate) fn wake(&mut self, service: &Service)
        requires { IsOf service.now.list self.old.joined }
        ensures service { IsOf service.now.list self.new.joined }
        ensures client { self.new.joined.client ≡ self.old.joined.client }
        ensures work { work self.new.joined ≡ work self.old.joined }
    {
        let asleep = service.sleepers.bits.load(Ordering::SeqCst);
        if asleep != 0 {
            self.wake_each(service, asleep);
        }
    }

    #[cold]
    fn wake_each(&mut self, service: &Service, asleep: u64)
        requires { IsOf service.now.list self.old.joined }
        ensures service { IsOf service.now.list self.new.joined }
        ensures client { self.new.joined.client ≡ self.old.joined.client }
        ensures work { work self.new.joined ≡ work self.old.joined }
    {
        for client in 0..service.list.clients() {
            if asleep >> client & 1 == 1 {
                self.wake_one(service, client);
            }
        }
    }

    // Wakes another client if its call has ended.
    fn wake_one(&mut self, service: &Service, client: u32)
        requires service { IsOf service.now.list self.old.joined }
        requires client { client < service.now.list.clients }
        ensures service { IsOf service.now.list self.new.joined }
        ensures client { self.new.joined.client ≡ self.old.joined.client }
        ensures work { work self.new.joined ≡ work self.old.joined }
    {
        if client == self.joined.client() {
            return;
        }
        if let WordState::Answered = self.joined.look(&service.list, client) {
            service.sleepers.wakes.fetch_add(1, Ordering::SeqCst);
            service.list.wake(client);
        }
    }
}
