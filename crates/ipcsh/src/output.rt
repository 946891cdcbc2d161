// Writing to a writer: each error is a fault, also an interruption, and so is a write that takes no byte.

ghost use Rattle.std.specs.Prelude.{◌≡◌, ◌++◌, List, ℕ, OnOk, OnErr, IfErr};
ghost use Rattle.std.specs.Io.KnownBytes.{Appends};

use crate::runs::Fault;
use std::io::Write;

/// Writes all the bytes. The fault is `Write`: the writer's error, an interruption too, or a write that took no byte; a
/// front of the bytes was written.
pub fn write_bytes<W: Write>(writer: &mut W, bytes: &[u8]) -> Result<(), Fault>
    ensures ok { OnOk result (Appends (W.contents writer.old) (W.contents writer.new) bytes.now) }
    ensures err { OnErr result ((done : List ℕ) × (rest : List ℕ) × (bytes.now ≡ done ++ rest) × Appends (W.contents writer.old) (W.contents writer.new) done) }
    ensures fault { IfErr result (λ fault. fault ≡ Fault.Write) }
{
    let mut rest = bytes;
    while !rest.is_empty() {
        match writer.write(rest) {
            Ok(0) => return Err(Fault::Write),
            Ok(taken) => rest = &rest[taken..],
            Err(_) => return Err(Fault::Write),
        }
    }
    Ok(())
}
