//! Worked rows of a payload, in chunks of four bytes and blocks of twenty, sealed by a box that
//! doesn't encrypt, and under a real key: the text that is released under cuts, swaps, repeats,
//! restarts, bytes after the end and inverted bits.
ghost use Rattle.std.specs.Prelude.{◌<◌, ◌≤◌};
ghost use Rattle.age_chunk.specs.{tag_length, block_length};

use Delivery::{End, Piece, Restart};
use age_keys::{FileKey, PayloadKey, payload_key};
use age_stream::{
    CHUNK_LIMIT, ChunkBox, ClearBox, Delivery, Opener, Sealer, Status, StreamFault, StreamKind,
    drill, seal_all,
};
use std::alloc::{AllocError, Global};

/// The payload of eight bytes of text, in two full chunks, sealed by a [`ClearBox`].
pub const EIGHT: &[u8] =
    b"abcd\0\0\0\0\0\0\0\0\0\0\0\0\0\0\0\0efgh\0\0\0\0\0\0\0\0\0\0\x01\x01\0\0\0\0";

const TEN: &[u8] = b"abcd\0\0\0\0\0\0\0\0\0\0\0\0\0\0\0\0efgh\0\0\0\0\0\0\0\0\0\0\x01\0\0\0\0\0\
        ij\0\0\0\0\0\0\0\0\0\0\x02\x01\0\0\0\0";

const FIVE: &[u8] = b"abcd\0\0\0\0\0\0\0\0\0\0\0\0\0\0\0\0e\0\0\0\0\0\0\0\0\0\0\x01\x01\0\0\0\0";

const NO_TEXT: &[u8] = b"\0\0\0\0\0\0\0\0\0\0\0\x01\0\0\0\0";

/// The payload of two letters, at one byte a chunk.
const LETTERS: &[u8] = b"a\0\0\0\0\0\0\0\0\0\0\0\0\0\0\0\0b\0\0\0\0\0\0\0\0\0\0\x01\x01\0\0\0\0";

const EMPTY_SECOND: &[u8] = b"\0\0\0\0\0\0\0\0\0\0\x01\x01\0\0\0\0";

const FORGED: &[u8] = b"XXXX\0\0\0\0\0\0\0\0\0\0\0\0\0\0\0\0";

const LAST_OF_ALL: &[u8] = b"XXXX\0\0\0\0\0\xff\xff\xff\xff\xff\xff\x01\0\0\0\0";

const ONE_TOO_MANY: &[u8] = b"XXXX\0\0\0\0\0\xff\xff\xff\xff\xff\xff\0\0\0\0\0";

const TEXT: &[u8] = b"abcdefgh";

const TEN_TEXT: &[u8] = b"abcdefghij";

/// The result of deliveries: `None` if they end well, or the kind of the fault.
type Ending = Option<StreamKind>;

const DONE: Ending = None;

const DAMAGED: Ending = Some(StreamKind::ChunkDamaged);

const TRUNCATED: Ending = Some(StreamKind::Truncated);

const TRAILING: Ending = Some(StreamKind::Trailing);

const EMPTY: Ending = Some(StreamKind::EmptyLast);

/// Returns whether the worked rows of a payload are right: complete texts, and what is released
/// under swaps, repeats, restarts and bytes after the end. Returns `false` also if memory runs out.
pub fn delivery_rows(alloc: Global) -> bool {
    sealing_rows(alloc) && damage_rows(alloc) && is_refused(alloc) && at_the_greatest_number()
}

/// Returns whether a drill of hostile bytes is right: of a payload truncated at every byte, with
/// its blocks in other orders, started again at every chunk, and with each of its bits inverted.
/// Returns `false` also if memory runs out.
pub fn hostile_rows(alloc: Global) -> bool {
    are_cuts_right(alloc) && are_rows_right(alloc) && are_bits_right(alloc)
}

/// The result of a drill: the text, the status, the number of the chunk, and the number of refused
/// restarts.
type Held<'a> = (&'a [u8], Status, u64, u64);

/// Returns whether deliveries give the expected result, with their pieces whole and byte by byte.
fn leaves<B: ChunkBox>(
    alloc: Global,
    key: &B,
    events: &[Delivery<'_>],
    expected: Held<'_>,
) -> bool {
    match by_bytes(alloc, events) {
        Ok(cut) => {
            leaves_at_once(alloc, key, events, expected)
                && leaves_at_once(alloc, key, cut.as_slice(), expected)
        }
        Err(_) => false,
    }
}

/// Returns whether deliveries give the expected result, with their pieces as they are.
fn leaves_at_once<B: ChunkBox>(
    alloc: Global,
    key: &B,
    events: &[Delivery<'_>],
    expected: Held<'_>,
) -> bool {
    match drill::<B, 20>(alloc, key, events) {
        Ok(left) => (left.text.as_slice(), left.status, left.index, left.refused) == expected,
        Err(_) => false,
    }
}

/// Splits each piece of deliveries into single bytes.
fn by_bytes<'a>(alloc: Global, events: &[Delivery<'a>]) -> Result<Vec<Delivery<'a>>, AllocError> {
    let mut cut = Vec::new(alloc);
    for event in events {
        match *event {
            Piece(piece) => {
                for byte in piece.chunks(1) {
                    cut.push(Piece(byte))?;
                }
            }
            other => cut.push(other)?,
        }
    }
    Ok(cut)
}

/// Tests whole texts and their payloads.
fn sealing_rows(alloc: Global) -> bool {
    is_sealed::<20>(alloc, TEXT, EIGHT)
        && is_sealed::<20>(alloc, TEN_TEXT, TEN)
        && is_sealed::<20>(alloc, b"", NO_TEXT)
        && is_sealed::<17>(alloc, b"ab", LETTERS)
        && are_lent::<17>(b"a", b"b", LETTERS)
        && are_lent::<20>(b"abcd", b"e", FIVE)
}

/// Returns whether a text is sealed to this payload.
fn is_sealed<const SEALED: usize>(alloc: Global, text: &[u8], payload: &[u8]) -> bool
    requires least { tag_length < SEALED }
    requires most { SEALED ≤ block_length }
{
    match seal_all::<ClearBox, SEALED>(alloc, &ClearBox, text) {
        Ok(sealed) => sealed.as_slice() == payload,
        Err(_) => false,
    }
}

/// Returns whether the block of a chunk is lent with the byte after it, and the last block by
/// `finish`.
fn are_lent<const SEALED: usize>(chunk: &[u8], byte: &[u8], payload: &[u8]) -> bool
    requires least { tag_length < SEALED }
    requires most { SEALED ≤ block_length }
{
    let key = ClearBox;
    let mut sealer = Sealer::<ClearBox, SEALED>::new(&key);
    if !matches!(sealer.feed(chunk), Ok(step) if step.taken == chunk.len() && step.chunk.is_none())
    {
        return false;
    }
    if !matches!(sealer.feed(byte), Ok(step) if step.taken == 1 && step.chunk == payload.get(..SEALED))
    {
        return false;
    }
    matches!(sealer.finish(), Ok(block) if payload.get(SEALED..) == Some(block))
}

/// A row of a test: a piece, a delivery and a piece, which an end follows; and the text, the ending
/// and the chunk that they should give.
type Row<'a> = (&'a [u8], Delivery<'a>, &'a [u8], &'a [u8], Ending, u64);

/// Returns whether a row is right with a [`ClearBox`].
fn is_right(alloc: Global, row: Row<'_>) -> bool {
    let (before, then, after, text, ending, chunk) = row;
    let status = to_status(ending, chunk);
    let events = [Piece(before), then, Piece(after), End];
    leaves(alloc, &ClearBox, &events, (text, status, chunk, 0))
}

/// Returns the status of an ending.
fn to_status(ending: Ending, chunk: u64) -> Status {
    match ending {
        Some(kind) => Status::Failed(StreamFault { kind, chunk }),
        None => Status::Done,
    }
}

/// Tests blocks in another order, twice, with a byte more, and an empty last chunk; a block that
/// the writer didn't seal, which is released if it opens; and a transfer that starts again.
fn damage_rows(alloc: Global) -> bool {
    let (first, second) = EIGHT.split_at(20);
    let rows: [Row<'_>; 10] = [
        (NO_TEXT, Piece(b""), b"", b"", DONE, 0),
        (EIGHT, Piece(b""), b"", TEXT, DONE, 1),
        (second, Piece(first), b"", b"", DAMAGED, 0),
        (first, Piece(first), b"", b"abcd", DAMAGED, 1),
        (EIGHT, Piece(b"x"), b"", TEXT, TRAILING, 1),
        (first, Piece(EMPTY_SECOND), b"", b"abcd", EMPTY, 1),
        (FORGED, Piece(b""), b"", b"XXXX", TRUNCATED, 1),
        (first, Restart(0), EIGHT, TEXT, DONE, 1),
        (&EIGHT[..27], Restart(1), second, TEXT, DONE, 1),
        (EIGHT, Restart(2), b"", TEXT, TRUNCATED, 2),
    ];
    rows.iter().all(|row| is_right(alloc, *row))
}

/// Tests that a restart beyond the released text changes nothing.
fn is_refused(alloc: Global) -> bool {
    let (last, done) = (Status::LastSeen, Status::Done);
    leaves(
        alloc,
        &ClearBox,
        &[Piece(EIGHT), Restart(3)],
        (TEXT, last, 1, 1),
    ) && leaves(
        alloc,
        &ClearBox,
        &[Piece(TEN), Restart(3), Piece(b""), End],
        (TEN_TEXT, done, 2, 1),
    )
}

/// Tests that a block at the greatest number is the last one, or one too many.
fn at_the_greatest_number() -> bool {
    let key = ClearBox;
    let limit = CHUNK_LIMIT - 1;
    let mut opener = Opener::<ClearBox, 20>::at(&key, limit);
    if !matches!(opener.feed(LAST_OF_ALL), Ok(step) if step.chunk == Some(b"XXXX".as_slice())) {
        return false;
    }
    if opener.status() != Status::LastSeen || opener.index() != limit {
        return false;
    }
    let mut opener = Opener::<ClearBox, 20>::at(&key, limit);
    opener.feed(ONE_TOO_MANY).is_err()
        && opener.status()
            == Status::Failed(StreamFault {
                kind: StreamKind::TooManyChunks,
                chunk: limit,
            })
}

/// Tests the payload of ten bytes, truncated after each number of its bytes.
fn are_cuts_right(alloc: Global) -> bool {
    (0..58).all(|cut| is_cut_right(alloc, cut))
}

/// Returns whether the payload of ten bytes, truncated after `cut` bytes, gives the right result.
fn is_cut_right(alloc: Global, cut: usize) -> bool {
    let kind = match cut {
        36 | 56 => EMPTY,
        0 | 20 | 40 => TRUNCATED,
        1..=15 | 21..=35 | 41..=55 => Some(StreamKind::ChunkCut),
        _ => DAMAGED,
    };
    let chunk = cut / 20;
    match (TEN.get(..cut), TEXT.get(..4 * chunk)) {
        (Some(front), Some(text)) => is_right(
            alloc,
            (front, Piece(b""), b"", text, kind, chunk as u64),
        ),
        _ => false,
    }
}

/// Tests the three blocks in each order, and the complete payload, then again from each chunk on.
fn are_rows_right(alloc: Global) -> bool {
    let (first, rest) = TEN.split_at(20);
    let (second, third) = rest.split_at(20);
    let rows: [Row<'_>; 9] = [
        (first, Piece(second), third, TEN_TEXT, DONE, 2),
        (first, Piece(third), second, b"abcd", DAMAGED, 1),
        (second, Piece(first), third, b"", DAMAGED, 0),
        (second, Piece(third), first, b"", DAMAGED, 0),
        (third, Piece(first), second, b"", DAMAGED, 0),
        (third, Piece(second), first, b"", DAMAGED, 0),
        (TEN, Restart(0), TEN, TEN_TEXT, DONE, 2),
        (TEN, Restart(1), rest, TEN_TEXT, DONE, 2),
        (TEN, Restart(2), third, TEN_TEXT, DONE, 2),
    ];
    rows.iter().all(|row| is_right(alloc, *row))
}

/// Tests a text under a real key, with each bit of its payload inverted alone.
fn are_bits_right(alloc: Global) -> bool {
    let key = payload_key(&FileKey::new([7; 16]), &[9; 16]);
    match seal_all::<PayloadKey, 20>(alloc, &key, TEN_TEXT) {
        Ok(sealed) => (0..58 * 8).all(|bit| is_bit_right(alloc, &key, sealed.as_slice(), bit)),
        Err(_) => false,
    }
}

/// Returns whether a payload with one inverted bit gives the right result.
fn is_bit_right(alloc: Global, key: &PayloadKey, sealed: &[u8], bit: usize) -> bool {
    let Ok(mut bytes) = sealed.to_vec(alloc) else {
        return false;
    };
    if let Some(byte) = bytes.get_mut(bit / 8) {
        *byte ^= 1 << (bit % 8);
    }
    let chunk = bit / 160;
    let text = TEXT.get(..4 * chunk).unwrap_or(TEN_TEXT);
    let status = to_status(DAMAGED, chunk as u64);
    leaves(
        alloc,
        key,
        &[Piece(bytes.as_slice()), End],
        (text, status, chunk as u64, 0),
    )
}
