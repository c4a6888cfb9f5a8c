//! The decoding of a file's header.

ghost use Rattle.std.specs.Prelude.{◌≡◌, ◌≢◌, ◌↔◌, ◌+◌, ◌≤◌, ◌<◌, IsTrue, true, length, take};
ghost use Rattle.std.specs.Prelude.{IfOk, IfErr, IfSome, IfNone};
ghost use Rattle.age_c.specs.{misused, more, IsStarted, IsStartRefusal, HasNoFront, IsHeadCall};
ghost use Rattle.age_c.specs.{HoldsHead, OpensHead, RefusesHead, held_front};
ghost use Rattle.age_c.specs.inner.{HoldsFront};

use crate::decoder::Decoder;
use crate::may_open::may_open;
use crate::reader::Reader;
use crate::start::{StartFault, start};
use crate::{MISUSED, MORE};
use age_keys::{KnownKey, Passphrase, SharedSecret, Steps, Unlock};
use std::alloc::Global;

/// Returns whether a decoder waits for more of a header, with room for it.
fn can_wait(decoder: &Decoder, room: usize) -> bool
    ensures { IsTrue result ↔ ((decoder.now.open ≡ 0) × (decoder.now.fault ≡ 0)
        × (decoder.now.held < room)) }
{
    decoder.open == 0 && decoder.fault == 0 && decoder.held < room
}

/// Appends as many bytes of `piece` as fit to the `held` bytes of `front`, and returns their
/// number.
fn hold_front(front: &mut [u8], held: usize, piece: &[u8]) -> usize
    requires { held ≤ length front.old }
    ensures holds { HoldsFront piece.now held result front.old front.new }
    ensures before { take held front.new ≡ take held front.old }
{
    let count = piece.len().min(front.len() - held);
    front[held..held + count].copy_from_slice(&piece[..count]);
    count
}

/// Opens the header that `front` begins with, if the file ended or a retry is due after the first
/// `seen` bytes weren't enough. Returns `None` while more bytes are needed.
fn try_head<U: Unlock>(
    alloc: Global,
    unlock: &U,
    front: &[u8],
    seen: usize,
    ended: bool,
) -> Result<Option<Reader>, u32>
    ensures opened { IfOk result
        (λ some. IfSome some (IsStarted (U.allows unlock.now) front.now)) }
    ensures waits { IfOk result
        (λ some. IfNone some (HasNoFront (take seen front.now) → HasNoFront front.now)) }
    ensures ended { IfOk result (λ some. IfNone some (ended ≢ true)) }
    ensures refused { IfErr result
        (IsStartRefusal (U.allows unlock.now) (U.refuses unlock.now) front.now) }
    ensures some { IfErr result (λ answer. answer ≢ 0) }
    ensures meant { IfErr result (λ answer. answer ≢ 255) }
    ensures cut { IfErr result (λ answer. answer ≡ more → ended ≡ true) }
{
    if !ended && may_open(front, seen) != 0 {
        return Ok(None);
    }
    match start(alloc, unlock, front, &mut Steps::new()) {
        Ok(reader) => Ok(Some(reader)),
        Err(StartFault::More) => {
            if ended {
                return Err(MORE);
            }
            Ok(None)
        }
        Err(fault) => Err(fault.number()),
    }
}

/// Stores a reader of a payload of which no byte came yet.
fn keep_opened(decoder: &mut Decoder, reader: Reader)
    ensures reader { decoder.new.stream.reader ≡ reader }
    ensures empty { decoder.new.stream.held ≡ 0 }
    ensures none { decoder.new.skip ≡ 0 }
    ensures is_open { decoder.new.open ≡ 1 }
    ensures unrefused { decoder.new.fault ≡ decoder.old.fault }
{
    decoder.stream.reader = reader;
    decoder.stream.held = 0;
    decoder.held = 0;
    decoder.skip = 0;
    decoder.open = 1;
}

/// Takes bytes of a header, or the end of input, and opens the header once it is complete. A
/// refusal is final.
pub(crate) fn take_head<U: Unlock>(
    alloc: Global,
    unlock: &U,
    decoder: &mut Decoder,
    front: &mut [u8],
    piece: &[u8],
    ended: bool,
    taken: &mut usize,
) -> u32
    ensures waits { result ≡ 0 → decoder.new.open ≡ 0
        → HoldsHead piece.now decoder.old front.old taken.new decoder.new front.new }
    ensures opens { result ≡ 0 → decoder.new.open ≢ 0
        → OpensHead (U.allows unlock.now) piece.now decoder.old front.old taken.new decoder.new }
    ensures refused { result ≢ 0 → result ≢ misused
        → RefusesHead (U.allows unlock.now) (U.refuses unlock.now) piece.now decoder.old front.old
        result decoder.new }
    ensures ended { ended ≡ true → result ≡ 0 → decoder.new.open ≢ 0 }
    ensures cut { result ≡ more → ended ≡ true }
    ensures idle { result ≡ misused → decoder.new ≡ decoder.old }
    ensures kept { held_front decoder.old front.new ≡ held_front decoder.old front.old }
    ensures none { result ≢ 0 → taken.new ≡ 0 }
    ensures fits { IsHeadCall decoder.old front.old → HasNoFront (held_front decoder.old front.old)
        → result ≢ misused }
    ensures meant { result ≢ misused → IsHeadCall decoder.old front.old }
{
    *taken = 0;
    if !can_wait(decoder, front.len()) {
        return MISUSED;
    }
    let held = decoder.held;
    let count = hold_front(front, held, piece);
    match try_head(alloc, unlock, &front[..held + count], held, ended) {
        Ok(Some(reader)) => {
            let payload_at = reader.payload_at as usize;
            if payload_at < held {
                return MISUSED;
            }
            *taken = payload_at - held;
            keep_opened(decoder, reader);
            0
        }
        Ok(None) => {
            decoder.held = held + count;
            *taken = count;
            0
        }
        Err(fault) => {
            decoder.fault = fault;
            fault
        }
    }
}
