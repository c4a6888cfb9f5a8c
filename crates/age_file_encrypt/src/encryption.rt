//! The encryption of a file under a passphrase.

ghost use Rattle.std.specs.Prelude.{◌≡◌, IfOk, OnOk, IfErr, true};
ghost use Rattle.age_file_encrypt.specs.Encrypts.{BeginsFile, Encrypts, EncryptFails, EncryptsFront};
ghost use Rattle.age_file_encrypt.specs.Encrypts.{IsFrontOf, SecretView};
ghost use Rattle.age_file_encrypt.specs.inner.{WritesFront};
ghost use Rattle.age_file_position.specs.inner.{view_of_writer, SameWriter};
ghost use Rattle.age_file_input.specs.{ports};
ghost use Rattle.age_fault.specs.declared.fault.FileFault.TheVariants.{Memory};

use crate::payload::seal_all;
use crate::secret::Secret;
use age_fault::FileFault;
use age_file_input::{InputBuffer, Reader};
use age_file_position::{PositionPolicy, RunProgress, Writer};
use age_io::{Sink, Source, write_all};
use age_keys::{FileKey, PayloadKey, payload_key, scrypt_header};
use age_stanza::encode_head;
use std::alloc::Global;
use std::marker::Model;

/// The result of an encryption: the numbers of bytes read and written.
#[derive(Clone, Copy, PartialEq, Eq)]
pub struct Written {
    /// The length of the plaintext in bytes.
    pub plain: u128,
    /// The length of the age file in bytes.
    pub file: u128,
}

/// Returns the header's text and the payload nonce. Fails only if memory runs out.
fn encode_front(alloc: Global, secret: &Secret<'_>) -> Result<Vec<u8>, FileFault>
    ensures front { IfOk result (λ v. BeginsFile secret.now v.items) }
    ensures memory { IfErr result (λ fault. fault ≡ Memory) }
{
    let key = FileKey::new(secret.file_key);
    let header = scrypt_header(alloc, secret.pass, secret.log, &secret.salt, &key)?;
    let mut front = encode_head(alloc, &header)?;
    front.extend_from_slice(&secret.payload_nonce)?;
    Ok(front)
}

/// The beginning of the age file for a secret, which is the same for each plaintext, with the key
/// of its payload and the buffer for its input: all that an encryption allocates. Contracts see the
/// first two.
#[derive(Drop)]
pub struct Preamble {
    bytes: Vec<u8>,
    key: PayloadKey,
    intake: InputBuffer,
}

impl Model for Preamble {
    ghost use Rattle.std.specs.Prelude.{◌≡◌, []};
    ghost use Rattle.age_file_encrypt.specs.Encrypts.{FrontView};

    ghost Value = { FrontView };

    ghost view = { λ f. record { bytes = f.bytes.items; key = f.key } };

    ghost invariant = { λ f. (f.intake.bytes ≡ []) × (f.intake.pulls ≡ 0) };
}

impl Preamble {
    /// Makes the beginning of an age file for a secret: runs scrypt, and writes the header and the
    /// payload nonce to memory. Fails only with [`FileFault::Memory`] (28): the passphrase's table
    /// takes `1,024 * 2^n` bytes for work factor n. [`encrypt_after`] doesn't need the secret any
    /// more.
    pub fn of(alloc: Global, secret: &Secret<'_>) -> Result<Preamble, FileFault>
        ensures front { IfOk result (IsFrontOf secret.now) }
        ensures memory { IfErr result (λ fault. fault ≡ Memory) }
    {
        let intake = InputBuffer::new(alloc)?;
        let bytes = encode_front(alloc, secret)?;
        let key = payload_key(&FileKey::new(secret.file_key), &secret.payload_nonce);
        Ok(Preamble { bytes, key, intake })
    }
}

/// Writes the header and the payload nonce.
fn write_front<O: Sink>(front: &[u8], writer: &mut Writer<'_, O>) -> Result<(), FileFault>
    requires { writer.old.tally.written ≡ 0 }
    ensures wrote { WritesFront front.now (view_of_writer O.view writer.old)
        (view_of_writer O.view writer.new) result }
    ensures same { SameWriter writer.old writer.new }
{
    Ok(write_all(writer.sink, front, &mut writer.tally.written)?)
}

/// Encrypts all that a source gives, after the beginning of the file, as [`encrypt`] does.
/// Allocates nothing, so it never fails with [`FileFault::Memory`].
pub fn encrypt_after<S: Source, O: Sink>(
    front: Preamble,
    reader: &mut S,
    writer: &mut O,
) -> Result<Written, FileFault>
    ensures done { (secret : SecretView) → IsFrontOf secret front → IfOk result (Encrypts secret
        (ports (S.view reader.old) (O.view writer.old))
        (ports (S.view reader.new) (O.view writer.new))) }
    ensures fails { (secret : SecretView) → IsFrontOf secret front
        → IfErr result (EncryptsFront secret (ports (S.view reader.old) (O.view writer.old))
        (ports (S.view reader.new) (O.view writer.new))) }
    ensures flushed { OnOk result ((O.view writer.new).flushed ≡ true) }
    ensures named { (S.view reader.new).label ≡ (S.view reader.old).label }
{
    let Preamble {
        bytes,
        key,
        mut intake,
    } = front;
    let mut reader = Reader {
        source: reader,
        intake: &mut intake,
    };
    let mut writer = Writer {
        sink: writer,
        tally: RunProgress::new(PositionPolicy::Dropped),
    };
    write_front(bytes.as_slice(), &mut writer)?;
    seal_all(&key, &mut reader, &mut writer)
}

/// Encrypts all that a source gives under a passphrase, into an age file (<https://c2sp.org/age>):
/// the header with one scrypt stanza, the payload nonce, and the payload in chunks of 65,536 bytes.
/// Flushes at the end.
///
/// Fails with [`FileFault::Memory`] (28) before it reads or writes anything, with `Read` (26),
/// `Write` (27) and `ReadNeverEnds` (29), and with `TooManyChunks` (22) if the source gave more
/// than 2^64 bytes. What was written by then is a prefix of the age file of what was read. After 26
/// and 29 its last block is missing, so it is never a complete file of a shorter plaintext.
///
/// [`Preamble::of`] and [`encrypt_after`] do this in two steps. `age_vectors/src/stops.rt`
/// encrypts, decrypts and resumes in memory.
pub fn encrypt<S: Source, O: Sink>(
    alloc: Global,
    secret: &Secret<'_>,
    reader: &mut S,
    writer: &mut O,
) -> Result<Written, FileFault>
    ensures done { IfOk result (Encrypts secret.now (ports (S.view reader.old) (O.view writer.old))
        (ports (S.view reader.new) (O.view writer.new))) }
    ensures fails { IfErr result (EncryptFails secret.now
        (ports (S.view reader.old) (O.view writer.old))
        (ports (S.view reader.new) (O.view writer.new))) }
    ensures flushed { OnOk result ((O.view writer.new).flushed ≡ true) }
    ensures named { (S.view reader.new).label ≡ (S.view reader.old).label }
{
    let front = Preamble::of(alloc, secret)?;
    encrypt_after(front, reader, writer)
}
