//! Gates between the jobs of a client.
ghost use Rattle.std.specs.Prelude.{◌≡◌, ℕ, false, true};

/// Lets each client's worker go on with its next job, or stops it. It is for tests, in which a client stands still
/// until another has come as far.
pub trait Gate {
    // it may stop the worker of this client before the job of this number
    ghost may_hold: { Self → ℕ → ℕ → Type 0 };

    // it may let the worker do that job
    ghost may_pass: { Self → ℕ → ℕ → Type 0 };

    // it was told that the job is done; `after` alone tells this
    ghost was_told: { Self → ℕ → ℕ → Type 0 };

    /// Is called before the client's job of this number, counted from 1. Where the answer is false, the worker stops:
    /// this job isn't done, nor any after it.
    fn before(&self, client: u32, nth: u64) -> bool
        ensures held { result ≡ false → may_hold self.now client nth }
        ensures passed { result ≡ true → may_pass self.now client nth };

    /// Is called after that job. A worker may call it of jobs alone that `before` let pass.
    fn after(&self, client: u32, nth: u64)
        requires { may_pass self.now client nth }
        ensures { was_told self.now client nth };
}

/// Stops nobody.
pub struct OpenGate;

impl Gate for OpenGate {
    ghost may_hold = { λ gate client nth. ⊥ };

    ghost may_pass = { λ gate client nth. Unit {0} };

    ghost was_told = { λ gate client nth. Unit {0} };

    fn before(&self, _client: u32, _nth: u64) -> bool {
        true
    }

    fn after(&self, _client: u32, _nth: u64) {}
}
