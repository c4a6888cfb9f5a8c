//! The opening of the header at the beginning of a file, with the nonce after it.

ghost use Rattle.std.specs.Prelude.{◌≡◌, ◌≢◌, ◌+◌, ◌≤◌, length, take, drop, IfOk, IfErr};
ghost use Rattle.age_stream.specs.{fresh};
ghost use Rattle.age_c.specs.Readers.{IsAt, HasHead, HasNoHead, HasFront, HeadRefuses, IsStarted};
ghost use Rattle.age_c.specs.Readers.{StartRefuses, start_fault_number};
ghost use Rattle.age_c.specs.inner.{StartCounts};

use crate::MORE;
use crate::reader::Reader;
use age_keys::{FileKey, KeyFault, PAYLOAD_NONCE_LEN, Steps, Unlock, open_header};
use age_stanza::{HeadFault, HeadParser, HeadStep, Header};
use std::alloc::Global;

/// The error of a file that wasn't begun.
#[derive(Drop)]
pub(crate) enum StartFault {
    /// The bytes end inside the header or the nonce.
    More,
    /// The header is faulty.
    Head(HeadFault),
    /// The header wasn't opened.
    Key(KeyFault),
}

impl StartFault {
    /// Returns the number of the error: [`MORE`](crate::MORE), or the fault's own.
    pub(crate) fn number(&self) -> u32
        ensures number { result ≡ start_fault_number self.now }
        ensures some { result ≢ 0 }
        ensures meant { result ≢ 255 }
        ensures cut { result ≡ 254 → self.now ≡ StartFault.More }
    {
        match self {
            StartFault::More => MORE,
            StartFault::Head(fault) => u32::from(fault.number()),
            StartFault::Key(fault) => u32::from(fault.number()),
        }
    }
}

/// A header, with the length of its text in bytes.
#[derive(Drop)]
pub(crate) struct Head {
    /// The header.
    pub header: Header,
    /// The length of its text in bytes.
    pub len: usize,
}

/// Parses the header that `front` begins with.
pub(crate) fn parse_front(alloc: Global, front: &[u8]) -> Result<Head, StartFault>
    ensures head { IfOk result (λ head. HasHead front.now head.header head.len) }
    ensures refused { IfErr result (HasNoHead front.now) }
{
    let mut parser = HeadParser::new(alloc);
    match parser.feed(front) {
        Ok(HeadStep::More) => Err(StartFault::More),
        Ok(HeadStep::Ready { taken, header }) => Ok(Head { header, len: taken }),
        Err(fault) => Err(StartFault::Head(fault)),
    }
}

/// Parses the header that `front` begins with. Fails if the payload nonce after it isn't complete.
fn read_head(alloc: Global, front: &[u8]) -> Result<Head, StartFault>
    ensures head { IfOk result (λ head. HasFront front.now head.header head.len) }
    ensures refused { IfErr result (HeadRefuses front.now) }
{
    match parse_front(alloc, front) {
        Ok(head) => {
            if front.len() - head.len < PAYLOAD_NONCE_LEN {
                return Err(StartFault::More);
            }
            Ok(head)
        }
        Err(fault) => Err(fault),
    }
}

/// Makes a reader of the payload that follows a header of `len` bytes and its nonce.
fn reader_after(key: &FileKey, front: &[u8], len: usize) -> Reader
    requires { len + 16 ≤ length front.now }
    ensures key { result.file_key ≡ key.now }
    ensures nonce { result.nonce ≡ take 16 (drop len front.now) }
    ensures payload_at { result.payload_at ≡ len + 16 }
    ensures start { IsAt result (fresh 0) }
{
    let payload_at = len + PAYLOAD_NONCE_LEN;
    let mut nonce = [0; PAYLOAD_NONCE_LEN];
    nonce.copy_from_slice(&front[len..payload_at]);
    Reader {
        file_key: *key.bytes(),
        nonce,
        payload_at: payload_at as u64,
        chunk: 0,
        fault_chunk: 0,
        state: 1,
        unused: 0,
    }
}

/// Opens the header that `front` begins with, and reads the nonce after it. The steps of scrypt are
/// counted, and there is none before a fault that is found from the header alone.
pub(crate) fn start<U: Unlock>(
    alloc: Global,
    unlock: &U,
    front: &[u8],
    steps: &mut Steps,
) -> Result<Reader, StartFault>
    ensures started { IfOk result (IsStarted (U.allows unlock.now) front.now) }
    ensures refused { IfErr result
        (StartRefuses (U.allows unlock.now) (U.refuses unlock.now) front.now) }
    ensures counted { StartCounts (U.most_steps unlock.now) result steps.old steps.new }
{
    let head = match read_head(alloc, front) {
        Ok(head) => head,
        Err(fault) => return Err(fault),
    };
    match open_header(alloc, &head.header, unlock, steps) {
        Ok(key) => Ok(reader_after(&key, front, head.len)),
        Err(fault) => Err(StartFault::Key(fault)),
    }
}
