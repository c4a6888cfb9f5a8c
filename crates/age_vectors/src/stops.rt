//! Every failure in turn: a text of 200,000 bytes is encrypted, its file decrypted, and the
//! decryption resumed after two chunks, while one pull, one put or the flush fails. A run that
//! stopped is resumed. The front of the file, the positions and the lengths are Python's.
use Call::{OldPull, Pull, Put};
use Engine::{Decryption, Encryption, Resumption};
use age_file::{MemSink, MemSource, Position, Secret, decrypt, encrypt, resume};
use age_keys::Passphrase;
use age_stream::CHUNK_LEN;
use std::alloc::Global;

const PASS: &[u8] = b"correct horse";

const LOG: u32 = 4;

const SALT: [u8; 16] = [0, 1, 2, 3, 4, 5, 6, 7, 8, 9, 10, 11, 12, 13, 14, 15];

const FILE_KEY: [u8; 16] = *b"\x10\x11\x12\x13\x14\x15\x16\x17\x18\x19\x1a\x1b\x1c\x1d\x1e\x1f";

const NONCE: [u8; 16] = *b"defghijklmnopqrs";

/// The header, of 149 bytes, and the payload nonce.
const FRONT: &[u8; 165] = b"age-encryption.org/v1\n-> scrypt AAECAwQFBgcICQoLDA0ODw 4\n\
        AKfpqvQNAoXDLgtB2kGRu7bQM2W5ormNXOubhA65HxQ\n\
        --- c34TNMAElKy8BwnAZQWhcQSSe6oKpsIv3iN8xQDb1Zg\ndefghijklmnopqrs";

/// The texts of the positions after none to three chunks.
const POSITIONS: [&[u8; 150]; 4] = [
    b"age-position/v2 0 HLJ5VW0R+ctHBkO1vllJE7zhq612YmrsO1dfz7Mjb10 \
        AAAAAAAAAAAAAAAAAAAAAAAAAAAAAAAAAAAAAAAAAAA 5f3t+V831zJzjwYI17EewiHJNC7iGXKl6rgAwQZuiCw\n",
    b"age-position/v2 1 HLJ5VW0R+ctHBkO1vllJE7zhq612YmrsO1dfz7Mjb10 \
        vdD3I2X5czWARik1jOZY/7Dg6ftGhhTQZ2sISsFKuhY cs8M2XenfSVnyKVOkkwj7yGiQoZzcVYrBkS617VeECg\n",
    b"age-position/v2 2 HLJ5VW0R+ctHBkO1vllJE7zhq612YmrsO1dfz7Mjb10 \
        Z/+/pb0gy0Qz9r4nrfQPNKnIsXURwLLWg+TFayQJBo4 2YAq6H+nzWWXa0nPixYAO903FnBx8LsFLbISbkGLlUU\n",
    b"age-position/v2 3 HLJ5VW0R+ctHBkO1vllJE7zhq612YmrsO1dfz7Mjb10 \
        /uNq2PXiRZy0MdJ4EtCPsufk06hIfoQQu1aLK1GyspM y9CCLyM+edWGl1QxHt8BkCdiArbSWHTyJh7bSZ8F+rQ\n",
];

/// The most bytes that a pull gives and a put takes.
const STEP: usize = 10_000;

/// A text and its age file.
#[derive(Drop)]
struct Example {
    text: Vec<u8>,
    file: Vec<u8>,
}

/// The engine of a run.
#[derive(Clone, Copy, PartialEq, Eq)]
enum Engine {
    /// The encryption of the text.
    Encryption,
    /// The decryption of the file.
    Decryption,
    /// A resumed decryption, after two chunks, over an earlier output of 150,000 bytes.
    Resumption,
}

/// The kind of a call of a run: on its input, its earlier output or its output.
#[derive(Clone, Copy, PartialEq, Eq)]
enum Call {
    /// A pull from the input.
    Pull,
    /// A pull from the earlier output.
    OldPull,
    /// A put, or the flush.
    Put,
}

/// The one call of a run that fails: its kind, and its number among the calls of that kind.
type Failure = (Call, u64);

/// A failure that no run meets.
const NEVER: Failure = (Put, u64::MAX);

/// The runs in which calls of one kind fail in turn: how many such calls there are, from which on a
/// stop has a position, and from which on this much of the output is written. Each put adds a step
/// to that.
type Run = (Engine, Call, u64, u64, &'static [u64], &'static [usize]);

/// The runs that are tried. A block is sealed once a byte after its chunk came, and opened once it
/// is complete, the last one at the end. A resumed run copies the earlier output piece by piece of
/// it, and chunk by chunk.
const RUNS: [Run; 7] = [
    (Encryption, Pull, 21, 21, &[0, 7, 14, 20], &FILE_LENS),
    (Encryption, Put, 24, 24, &[1, 8, 15, 22, 23], &FILE_LENS),
    (Decryption, Pull, 22, 1, &[7, 14, 20], &TEXT_LENS),
    (Decryption, Put, 23, 0, &[7, 14, 21, 22], &TEXT_LENS),
    (Resumption, Pull, 22, 1, &[1, 1, 20], &TEXT_LENS),
    (Resumption, OldPull, 14, 14, &[], &COPY_LENS),
    (Resumption, Put, 24, 15, &[7, 8, 15, 22, 23], &COPY_LENS),
];

const FILE_LENS: [usize; 5] = [165, 65_717, 131_269, 196_821, 200_229];

const TEXT_LENS: [usize; 4] = [65_536, 131_072, 196_608, 200_000];

const COPY_LENS: [usize; 5] = [65_536, 70_000, 131_072, 196_608, 200_000];

/// The result of a run: the number of its fault, or 0; its position; and its output, which is as
/// long as the run says.
type Ended = (u8, Option<Position>, Vec<u8>);

/// Returns whether an encryption, a decryption and a resumed one of 200,000 bytes stop as they have
/// to if one pull, one put or the flush fails, each in turn, until a run ends without a stop: with
/// the fault of the source or of the sink, after as many bytes of the complete output as could be
/// written by then, and with the right position, from which another run makes the complete text.
/// Returns `false` also if memory runs out.
pub fn stop_rows(alloc: Global) -> bool {
    make_example(alloc).is_some_and(|example| RUNS
        .iter()
        .all(|run| stops_in_turn(alloc, &example, run)))
}

/// Makes the text, and encrypts it.
fn make_example(alloc: Global) -> Option<Example> {
    let mut text = Vec::new(alloc);
    for i in 0..200_000u32 {
        text.push((i % 251) as u8).ok()?;
    }
    let (number, _, file) = encrypted(alloc, text.as_slice(), NEVER)?;
    if number == 0 && file.as_slice().starts_with(FRONT) {
        return Some(Example { text, file });
    }
    None
}

/// Returns whether a run stops as it has to at each call of a kind, and ends if none fails.
fn stops_in_turn(alloc: Global, example: &Example, run: &Run) -> bool {
    let (engine, call, calls, ..) = *run;
    for turn in 0..calls {
        if !stops(alloc, example, run, turn) {
            return false;
        }
    }
    ends(
        outcome(alloc, example, engine, (call, calls)),
        whole(example, engine),
    )
}

/// Returns whether a run ended without a fault, after all of its output.
fn ends(run: Option<Ended>, all: &[u8]) -> bool {
    matches!(&run, Some((0, _, bytes)) if bytes.as_slice() == all)
}

/// Returns the complete output of a run.
fn whole(example: &Example, engine: Engine) -> &[u8] {
    match engine {
        Encryption => example.file.as_slice(),
        _ => example.text.as_slice(),
    }
}

/// Returns whether a run stops as it has to if its call number `turn` fails.
fn stops(alloc: Global, example: &Example, run: &Run, turn: u64) -> bool {
    let (engine, call, _, position_from, ..) = *run;
    let number = if call == Put { 27 } else { 26 };
    match outcome(alloc, example, engine, (call, turn)) {
        Some((fault, position, bytes)) => {
            fault == number
                && bytes.len() == len_before(run, turn)
                && whole(example, engine).starts_with(bytes.as_slice())
                && position.is_some() == (turn >= position_from)
                && can_resume(alloc, example, position, bytes.as_slice())
        }
        None => false,
    }
}

/// Returns the number of bytes that a run has written before its call number `turn`.
fn len_before(run: &Run, turn: u64) -> usize {
    let (_, call, _, _, froms, lens) = *run;
    let (mut from, mut len) = (0, 0);
    for (next, written) in froms.iter().zip(lens) {
        if turn >= *next {
            (from, len) = (*next, *written);
        }
    }
    let step = if call == Pull { 0 } else { STEP };
    step.saturating_mul(turn.saturating_sub(from) as usize)
        .saturating_add(len)
}

/// Returns whether a stopped run has no position, or the right one for its output, from which
/// another run makes the complete text.
fn can_resume(alloc: Global, example: &Example, position: Option<Position>, old: &[u8]) -> bool {
    let Some(position) = position else {
        return true;
    };
    has_text(alloc, &position, old.len() / CHUNK_LEN)
        && ends(
            decrypted(alloc, example, Some((&position, old)), NEVER),
            example.text.as_slice(),
        )
}

/// Returns whether a position after `chunks` chunks has the right text.
fn has_text(alloc: Global, position: &Position, chunks: usize) -> bool {
    match (position.text(alloc), POSITIONS.get(chunks)) {
        (Ok(text), Some(expected)) => text.as_slice() == expected.as_slice(),
        _ => false,
    }
}

/// Runs an engine in which one call fails.
fn outcome(alloc: Global, example: &Example, engine: Engine, failure: Failure) -> Option<Ended> {
    match engine {
        Encryption => encrypted(alloc, example.text.as_slice(), failure),
        Decryption => decrypted(alloc, example, None, failure),
        Resumption => {
            let position = Position::read(POSITIONS[2]).ok()?;
            let old = example.text.as_slice().get(..150_000)?;
            decrypted(alloc, example, Some((&position, old)), failure)
        }
    }
}

/// Returns the number of the call of this kind that fails, or `None` if none does.
fn find_turn(failure: Failure, call: Call) -> Option<u64> {
    (failure.0 == call).then_some(failure.1)
}

/// Makes a source of some bytes, whose calls are of this kind.
fn source(alloc: Global, bytes: &[u8], failure: Failure, call: Call) -> Option<MemSource> {
    Some(MemSource::new(bytes.to_vec(alloc).ok()?, STEP, find_turn(failure, call)))
}

/// Makes a sink with room for the age file.
fn sink(alloc: Global, failure: Failure) -> Option<MemSink> {
    MemSink::new(alloc, 200_229, STEP, find_turn(failure, Put)).ok()
}

/// Runs an encryption in which one call fails.
fn encrypted(alloc: Global, text: &[u8], failure: Failure) -> Option<Ended> {
    let secret = Secret::new(PASS, LOG, &SALT, &FILE_KEY, &NONCE)?;
    let mut input = source(alloc, text, failure, Pull)?;
    let mut output = sink(alloc, failure)?;
    let number = match encrypt(alloc, &secret, &mut input, &mut output) {
        Ok(it) if it.plain == 200_000 && it.file == 200_229 => 0,
        Ok(_) => 1,
        Err(fault) => fault.number(),
    };
    Some((number, None, output.into_bytes()))
}

/// Runs a decryption, or one that is resumed at a position over an earlier output, in which one
/// call fails.
fn decrypted(
    alloc: Global,
    example: &Example,
    from: Option<(&Position, &[u8])>,
    failure: Failure,
) -> Option<Ended> {
    let unlock = Passphrase::new(PASS, LOG)?;
    let mut input = source(alloc, example.file.as_slice(), failure, Pull)?;
    let mut output = sink(alloc, failure)?;
    let answer = match from {
        Some((position, old)) => {
            let mut old = source(alloc, old, failure, OldPull)?;
            resume(alloc, &unlock, position, &mut input, &mut old, &mut output)
        }
        None => decrypt(alloc, &unlock, &mut input, &mut output),
    };
    let (number, written, position) = match &answer {
        Ok(done) => (0, done.written, None),
        Err(stopped) => (stopped.fault.number(), stopped.written, stopped.position),
    };
    let bytes = output.into_bytes();
    if written == bytes.len() as u128 {
        return Some((number, position, bytes));
    }
    None
}
