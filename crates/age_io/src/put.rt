//! Functions that write all of some bytes to a sink, or flush it.

ghost use Rattle.std.specs.Prelude.{◌≡◌, ◌+◌, ◌^◌, ◌<◌, length, OnOk, MatchResult, true};
ghost use Rattle.age_io.specs.Taken.{Keeps};
ghost use Rattle.age_io.specs.{HasFailed, Writes};

use crate::failed::WriteFailure;
use crate::sink::Sink;

/// Writes all of `bytes`, and adds to `written` how many the sink took. Fails at the first put that
/// fails; the bytes taken before are counted. The sum must be below 2^128.
pub fn write_all<O: Sink>(
    sink: &mut O,
    bytes: &[u8],
    written: &mut u128,
) -> Result<(), WriteFailure>
    requires { written.old + length bytes.now < 2 ^ 128 }
    ensures writes { Writes (O.view sink.old) (O.view sink.new) written.old written.new bytes.now result }
{
    let mut at = 0;
    while at < bytes.len() {
        match sink.put(&bytes[at..]) {
            Ok(n) => {
                at += n;
                *written += n as u128;
            }
            Err(_) => return Err(WriteFailure),
        }
    }
    Ok(())
}

/// Flushes a sink.
pub fn flush_all<O: Sink>(sink: &mut O) -> Result<(), WriteFailure>
    ensures flushed { OnOk result ((O.view sink.new).flushed ≡ true) }
    ensures bytes { Keeps (O.view sink.old).taken (O.view sink.new).taken }
    ensures counted { MatchResult result (λ _. (O.view sink.new).failed ≡ (O.view sink.old).failed)
        (λ _. HasFailed (O.view sink.old).failed (O.view sink.new).failed
        (O.view sink.new).failing) }
{
    sink.flush().map_err(|_| WriteFailure)
}
