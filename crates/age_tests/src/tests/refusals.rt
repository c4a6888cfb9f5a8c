//! Tests of calls that are refused memory. `tests/library/test_allocations.py` runs them with each
//! allocation refused in turn: the call that meets the refusal says so, and the next one returns as
//! ever.

use Delivery::{End, Piece, Restart};
use age_keys::{FileKey, KeyFault, Passphrase, Steps, open_header, scrypt_header};
use age_stanza::{
    HeadFault, HeadKind, HeadParser, HeadStep, Header, encode_head, is_header, mac_text,
};
use age_stream::{ClearBox, Delivery, Memory, Replay, Status, drill};
use age_vectors::{EIGHT, SMALLEST};
use std::alloc::Global;

const REFUSED: HeadFault = HeadFault {
    kind: HeadKind::Memory,
    line: 0,
};

/// Returns whether a result is these bytes, or memory ran out.
fn is(answer: &Result<Vec<u8>, HeadFault>, bytes: &[u8]) -> bool {
    match answer {
        Ok(text) => text.as_slice() == bytes,
        Err(fault) => *fault == REFUSED,
    }
}

/// Returns whether a header is written as the smallest one, and its MAC covers the right bytes.
fn is_smallest(alloc: Global, header: &Header) -> bool {
    is_header(header)
        && is(&encode_head(alloc, header), SMALLEST)
        && is(&mac_text(alloc, header), &SMALLEST[..31])
}

/// Returns whether the smallest text gives its header, or memory runs out.
fn is_read_or_refused(alloc: Global) -> bool {
    match HeadParser::new(alloc).feed(SMALLEST) {
        Ok(HeadStep::Ready { taken, header }) => taken == 76 && is_smallest(alloc, &header),
        Ok(HeadStep::More) => false,
        Err(fault) => fault == REFUSED,
    }
}

#[test]
fn a_header(rt: HostRuntime) {
    assert!(rt; is_read_or_refused(rt.alloc()));
}

/// Returns whether a fault comes again at each later call, also that memory ran out.
fn is_durable(alloc: Global) -> bool {
    let mut parser = HeadParser::new(alloc);
    let Err(fault) = parser.feed(b"-> x\n") else {
        return false;
    };
    if fault.number() != 1 && fault != REFUSED || !parser.is_open() {
        return false;
    }
    if !matches!(parser.feed(SMALLEST), Err(again) if again == fault) || !parser.is_open() {
        return false;
    }
    parser.end() == fault
}

#[test]
fn a_fault_that_stays(rt: HostRuntime) {
    assert!(rt; is_durable(rt.alloc()));
}

#[test]
fn a_replay(rt: HostRuntime) {
    let key = ClearBox;
    let mut replay = Replay::<ClearBox, 20>::new(rt.alloc(), &key);
    let (first, second) = EIGHT.split_at(20);
    for delivery in [
        Piece(first),
        Restart(0),
        Piece(first),
        Piece(&second[..10]),
        Piece(&second[10..]),
        End,
    ] {
        assert!(rt; replay.take(&delivery).is_ok() || replay.take(&delivery).is_ok());
    }
    assert!(rt; replay.text() == b"abcdefgh".as_slice() && replay.status() == Status::Done);
}

fn drills_eight(alloc: Global) -> Result<bool, Memory> {
    let events = [Piece(EIGHT), Restart(1), Piece(&EIGHT[20..]), End];
    let held = drill::<ClearBox, 20>(alloc, &ClearBox, &events)?;
    Ok(held.text.as_slice() == b"abcdefgh".as_slice() && held.status == Status::Done)
}

#[test]
fn a_drill(rt: HostRuntime) {
    let first = drills_eight(rt.alloc());
    assert!(rt; first == Ok(true) || first == Err(Memory));
    assert!(rt; first.is_ok() || drills_eight(rt.alloc()) == Ok(true));
}

/// Makes a header for a passphrase, opens it, and returns the file key.
fn opened(alloc: Global) -> Result<[u8; 16], KeyFault> {
    let pass = b"correct horse";
    let Some(passphrase) = Passphrase::new(pass, 1) else {
        return Err(KeyFault::WrongKey);
    };
    let header = scrypt_header(alloc, pass, 1, &[9; 16], &FileKey::new([7; 16]))?;
    let key = open_header(alloc, &header, &passphrase, &mut Steps::new())?;
    Ok(*key.bytes())
}

#[test]
fn a_key(rt: HostRuntime) {
    let first = opened(rt.alloc());
    assert!(rt; first == Ok([7; 16]) || first == Err(KeyFault::Memory));
    assert!(rt; first.is_ok() || opened(rt.alloc()) == Ok([7; 16]));
}
