//! Shared secrets that open the X25519 stanzas of headers, which Python made, or don't.
ghost use Rattle.std.specs.Prelude.{IsTrue};
ghost use Rattle.age_keys.specs.{IsSharedKey};
ghost use Rattle.age_vectors.specs.{OpensIn};

use crate::header::around;
use crate::keys::{FILE_KEY, is_opened, opened};
use age_keys::SharedSecret;
use std::alloc::{AllocError, Global};

/// The shared secret of X25519, which is the same for both sides: the bytes 64 to 95.
pub const X25519_SECRET: [u8; 32] = *b"@ABCDEFGHIJKLMNOPQRSTUVWXYZ[\\]^_";

/// The recipient's public key: the bytes 96 to 127.
pub const X25519_RECIPIENT: [u8; 32] = *b"`abcdefghijklmnopqrstuvwxyz{|}~\x7f";

/// A header of one X25519 stanza.
pub const X25519_HEADER: [u8; 168] =
    *b"age-encryption.org/v1\n-> X25519 AQIDBAUGBwgJCgsMDQ4PEBESExQVFhcYGRobHB0eHyA\n\
        jZAdkj7SfLxba9aaDaLOH15VqHxjezbflkA4yhWbOAQ\n\
        --- bFHWTtINPd+NDhBKPJJS9Mjszxl4rvMbhTUfrtdiPco\n";

/// A header of two X25519 stanzas, of which the second opens.
const SECOND: &[u8] =
    b"age-encryption.org/v1\n-> X25519 AQIDBAUGBwgJCgsMDQ4PEBESExQVFhcYGRobHB0eHyA\n\
        j3qlNpeG/TXms2TPf47danvdz6ztdPR3yBvwF3MZghI\n\
        -> X25519 ISIjJCUmJygpKissLS4vMDEyMzQ1Njc4OTo7PD0+P0A\n\
        saYyWtf1wzZgzf9vl9J/7nBFmW0FB4AEmpbiUeNVh+o\n\
        --- bXk/jjBCNQusHcRRx8swxJZE7qK3Mqd7ifEGAgCYmUo\n";

/// A header of two X25519 stanzas, of which the second opens, with another stanza between them.
const OTHER_BETWEEN: &[u8] =
    b"age-encryption.org/v1\n-> X25519 AQIDBAUGBwgJCgsMDQ4PEBESExQVFhcYGRobHB0eHyA\n\
        j3qlNpeG/TXms2TPf47danvdz6ztdPR3yBvwF3MZghI\n-> x\n\n\
        -> X25519 ISIjJCUmJygpKissLS4vMDEyMzQ1Njc4OTo7PD0+P0A\n\
        saYyWtf1wzZgzf9vl9J/7nBFmW0FB4AEmpbiUeNVh+o\n\
        --- o3wDOasAjDCzmjR1DNxHmM8X2kr9aYljLojyka/fAHo\n";

/// A header of two X25519 stanzas that open, to different keys; its MAC is that of the first key.
const BOTH: [u8; 266] =
    *b"age-encryption.org/v1\n-> X25519 AQIDBAUGBwgJCgsMDQ4PEBESExQVFhcYGRobHB0eHyA\n\
        jZAdkj7SfLxba9aaDaLOH15VqHxjezbflkA4yhWbOAQ\n\
        -> X25519 ISIjJCUmJygpKissLS4vMDEyMzQ1Njc4OTo7PD0+P0A\n\
        eW76kh89C/64FSe3TwqnNiwgPUXJGJlt1Y5MoUcY2p0\n\
        --- 7Y2k7eubz0pobTPGaIJsUajg7t05Ng7ko+tRc06PF3c\n";

/// Stanzas of which the first has a share of 31 bytes.
const SHORT_FIRST: &[u8] = b"-> X25519 AQIDBAUGBwgJCgsMDQ4PEBESExQVFhcYGRobHB0eHw\n\
        j3qlNpeG/TXms2TPf47danvdz6ztdPR3yBvwF3MZghI\n\
        -> X25519 ISIjJCUmJygpKissLS4vMDEyMzQ1Njc4OTo7PD0+P0A\n\
        saYyWtf1wzZgzf9vl9J/7nBFmW0FB4AEmpbiUeNVh+o\n";

/// Stanzas of which the second has a share of 31 bytes.
const SHORT_SECOND: &[u8] = b"-> X25519 AQIDBAUGBwgJCgsMDQ4PEBESExQVFhcYGRobHB0eHyA\n\
        jZAdkj7SfLxba9aaDaLOH15VqHxjezbflkA4yhWbOAQ\n\
        -> X25519 ISIjJCUmJygpKissLS4vMDEyMzQ1Njc4OTo7PD0+Pw\n\
        saYyWtf1wzZgzf9vl9J/7nBFmW0FB4AEmpbiUeNVh+o\n";

/// Stanzas that are refused, and the numbers of their faults.
const REFUSED: [(&[u8], u8); 4] = [
    (SHORT_FIRST, 15),
    (SHORT_SECOND, 15),
    (b"-> x\n\n", 12),
    (b"-> X25519\n\n-> scrypt\n\n", 9),
];

/// Tests another secret, a zero secret, and stanzas that are refused.
fn refused_rows(alloc: Global, shared: &SharedSecret) -> Result<bool, AllocError> {
    for (stanzas, number) in REFUSED {
        if opened(alloc, around(alloc, stanzas)?.as_slice(), shared) != Err(number) {
            return Ok(false);
        }
    }
    let other = SharedSecret::new(&X25519_RECIPIENT, &X25519_RECIPIENT);
    let zero = SharedSecret::new(&[0; 32], &X25519_RECIPIENT);
    Ok(
        opened(alloc, &X25519_HEADER, &other) == Err(13)
            && opened(alloc, &X25519_HEADER, &zero) == Err(15),
    )
}

/// Returns whether all rows of a shared secret are right: headers of one X25519 stanza and of two,
/// another secret, a zero secret, and stanzas that are refused. Returns `false` also if memory runs
/// out. If the result is `true`, the definition finds the file key in the headers that Python made
/// of one stanza, and of two that open.
pub fn shared_rows(alloc: Global) -> bool
    ensures one { IsTrue result
        → OpensIn (IsSharedKey (record { secret = X25519_SECRET; recipient = X25519_RECIPIENT }))
        X25519_HEADER FILE_KEY }
    ensures first { IsTrue result
        → OpensIn (IsSharedKey (record { secret = X25519_SECRET; recipient = X25519_RECIPIENT }))
        BOTH FILE_KEY }
{
    let shared = SharedSecret::new(&X25519_SECRET, &X25519_RECIPIENT);
    if refused_rows(alloc, &shared) != Ok(true) {
        return false;
    }
    if !is_opened(alloc, SECOND, &shared) || !is_opened(alloc, OTHER_BETWEEN, &shared) {
        return false;
    }
    is_opened(alloc, &BOTH, &shared) && is_opened(alloc, &X25519_HEADER, &shared)
}
