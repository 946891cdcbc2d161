//! Numbers of a map whose numbers have 32 bits.

ghost use Rattle.std.specs.Prelude.{◌≡◌, ◌<◌, ◌^◌, IfSome};

/// The same number in 32 bits.
pub fn narrow(number: Option<u64>) -> Option<u32>
    requires { IfSome number (λ n. n < 2 ^ 32) }
    ensures { result ≡ number }
{
    match number {
        None => None,
        Some(number) => Some(number as u32),
    }
}
