//! Writes all of some bytes.

ghost use Rattle.std.specs.Prelude.{◌≡◌, IfErr, OnOk, OnErr};
ghost use Rattle.age_io.specs.{HasRisen};
ghost use Rattle.age_fault.specs.declared.fault.FileFault.TheVariants.{Write};
ghost use Rattle.age_io.specs.Taken.{Appends};

use age_fault::FileFault;
use age_io::{Sink, write_all};

/// Writes all bytes to a sink. After a failure it isn't known how many were written.
pub fn put_bytes<O: Sink>(sink: &mut O, bytes: &[u8]) -> Result<(), FileFault>
    ensures ok { OnOk result (Appends (O.view sink.old).taken (O.view sink.new).taken bytes.now) }
    ensures same { OnOk result ((O.view sink.new).failed ≡ (O.view sink.old).failed) }
    ensures err { OnErr result (HasRisen (O.view sink.old).failed (O.view sink.new).failed) }
    ensures fault { IfErr result (λ fault. fault ≡ Write) }
    ensures named { (O.view sink.new).taken.label ≡ (O.view sink.old).taken.label }
{
    let mut written = 0;
    Ok(write_all(sink, bytes, &mut written)?)
}
