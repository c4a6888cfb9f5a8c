//! Retries of reads and writes that were interrupted or not ready.

use std::io;
use std::rt::HostRuntime;
use std::thread::sleep;
use std::time::Duration;

/// The largest number of tries of a read or a write. A non-blocking descriptor that isn't ready may
/// have to be waited for as long as a blocking one.
pub const TRIES: u64 = u64::MAX;

/// The pause before a descriptor that wasn't ready is tried again, in milliseconds.
const PAUSE: u64 = 1;

/// Returns whether a read or a write that failed should be retried: it was interrupted, or its
/// descriptor is non-blocking and isn't ready. Another program that shares the descriptor may have
/// made it non-blocking. In that case this pauses for a millisecond first.
pub fn is_to_retry(rt: &HostRuntime, error: &io::Error) -> bool {
    match error.kind() {
        io::ErrorKind::Interrupted => true,
        io::ErrorKind::WouldBlock => {
            sleep(rt, Duration::from_millis(PAUSE));
            true
        }
        _ => false,
    }
}

/// Returns the error of a call that was tried too often.
pub fn too_many_tries() -> io::Error {
    io::Error::from(io::ErrorKind::TimedOut)
}
