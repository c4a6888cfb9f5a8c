//! scrypt with r = 8 and p = 1 (RFC 7914), which derives a key of 32 bytes from a passphrase and a
//! salt. An age file's file key is wrapped under a passphrase by it
//! (<https://c2sp.org/age#scrypt-recipient-stanza>).
//!
//! PBKDF2 makes one block of 1,024 bytes. ROMix mixes it `2^log` times by BlockMix, keeping each
//! block on the way in a table, and then as often again, each time after an XOR with the block of
//! the table that its own last part names. PBKDF2 makes the key from the resulting block. The
//! definition has no table, but says which mixture of the first block is meant.
//!
//! The table is one flat vector of words, filled by appending. BlockMix reads one block and writes
//! another, and its core, Salsa20/8, works on vectors of four words. So a key at work factor 18
//! costs 256 MiB and about a second.
//!
//! [`Steps`] counts the work for contracts. A step is one BlockMix, and nothing else raises the
//! count. Ghost: no bytes at run time.
#![tactic(auto)]

ghost use Rattle.std.specs.Prelude.{◌≡◌, ◌+◌, ◌*◌, ◌^◌, ◌≤◌, IfOk, OnOk, OnErr};
ghost use Rattle.age_scrypt.specs.{work_factor_limit, scrypt};
ghost use Rattle.age_scrypt.specs.inner.{IsWorkspace};

mod fault;
mod part;
mod romix;
mod salsa;
mod steps;
mod turn;
mod words;

use age_kdf::pbkdf2_once;
pub use fault::Memory;
use romix::{block_count, romix};
use std::alloc::Global;
pub use steps::Steps;

/// The greatest work factor that a caller may allow, 22: its table has 4 GiB.
pub const WORK_FACTOR_LIMIT: u32 = 22;

/// Derives a key in memory that the caller allocated.
#[tactic(auto, unfolding(crate::specs::Scrypt::scrypt))]
fn derive_in(
    pass: &[u8],
    salt: &[u8],
    log: u32,
    table: &mut Vec<u32>,
    x: &mut [u32],
    y: &mut [u32],
    steps: &mut Steps,
) -> [u8; 32]
    requires log { log ≤ work_factor_limit }
    requires workspace { IsWorkspace (2 ^ log) table.old x.old y.old }
    ensures key { result ≡ scrypt pass.now salt.now log }
    ensures counted { steps.new ≡ steps.old + 2 * 2 ^ log }
{
    let mut block = [0; 1024];
    pbkdf2_once(pass, salt, &mut block);
    words::read_words(&block, x);
    romix(table, x, y, log, steps);
    words::write_bytes(x, &mut block);
    let mut key = [0; 32];
    pbkdf2_once(pass, &block, &mut key);
    key
}

/// Derives the key of a passphrase and a salt at the work factor `log`, which must be from 1 to
/// [`WORK_FACTOR_LIMIT`]: scrypt with N = `2^log`, r = 8, p = 1 and 32 bytes of output (RFC 7914,
/// section 6).
///
/// Allocates `1,024 * 2^log` bytes and two blocks of 1,024 bytes, all of them before the first
/// step. If memory runs out, no step is counted.
pub fn derive(
    alloc: Global,
    pass: &[u8],
    salt: &[u8],
    log: u32,
    steps: &mut Steps,
) -> Result<[u8; 32], Memory>
    requires least { 1 ≤ log }
    requires most { log ≤ work_factor_limit }
    ensures key { IfOk result (λ key. key ≡ scrypt pass.now salt.now log) }
    ensures counted { OnOk result (steps.new ≡ steps.old + 2 * 2 ^ log) }
    ensures refused { OnErr result (steps.new ≡ steps.old) }
{
    let mut table = Vec::with_capacity(alloc, 256 * block_count(log))?;
    let mut x = vec![in alloc; 0; 256]?;
    let mut y = vec![in alloc; 0; 256]?;
    Ok(derive_in(pass, salt, log, &mut table, &mut x, &mut y, steps))
}
