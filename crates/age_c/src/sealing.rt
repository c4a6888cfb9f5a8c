//! The sealing of a payload's chunks.

ghost use Rattle.std.specs.Prelude.{◌≡◌, ◌+◌, ◌<◌, ◌≤◌, [], length, take, drop, IfOk, IfErr};
ghost use Rattle.age_cipher.specs.{sealing as sealing_with};
ghost use Rattle.age_chunk.specs.{block_length, chunk_limit, nonce_bytes, chunk_length, tag_length};
ghost use Rattle.age_stanza.specs.{HasText};
ghost use Rattle.age_keys.specs.{IsAllowed, scrypt_head};
ghost use Rattle.age_c.specs.{start_fault_number, PutsFront, IsFileFront};
ghost use Rattle.age_c.specs.inner.{IsChunkCall, IsLastCall, SealsChunk, SealsLast, key_of_writer};

use crate::start::StartFault;
use crate::writer::Writer;
use age_chunk::{ChunkBox, TAG_LEN, nonce_of};
use age_keys::{FileKey, FileRandom, KeyFault, PayloadKey, payload_key, scrypt_header};
use age_stanza::{Header, encode_head};
use std::alloc::Global;

/// Makes a writer that was given no plaintext.
pub(crate) fn begin_writer(file_key: &[u8; 16], nonce: &[u8; 16]) -> Writer
    ensures key { result.file_key ≡ file_key.now }
    ensures nonce { result.nonce ≡ nonce.now }
    ensures start { (result.chunk ≡ 0) × (result.state ≡ 1) }
{
    Writer {
        file_key: *file_key,
        nonce: *nonce,
        chunk: 0,
        state: 1,
        unused: [0; 5],
    }
}

/// Returns the header's text and the payload nonce. Fails only if memory runs out.
pub(crate) fn encode_front(
    alloc: Global,
    header: &Header,
    nonce: &[u8; 16],
) -> Result<Vec<u8>, StartFault>
    requires { HasText header.now }
    ensures front { IfOk result (λ front. IsFileFront header.now nonce.now front.items) }
    ensures memory { IfErr result (λ fault. start_fault_number fault ≡ 28) }
{
    let mut front = match encode_head(alloc, header) {
        Ok(front) => front,
        Err(fault) => return Err(StartFault::Head(fault)),
    };
    match front.extend_from_slice(nonce) {
        Ok(()) => Ok(front),
        Err(_) => Err(StartFault::Key(KeyFault::Memory)),
    }
}

/// Returns the header's text and the payload nonce of a file under a passphrase. Fails only if
/// memory runs out.
pub(crate) fn passphrase_front(
    alloc: Global,
    random: &FileRandom,
    pass: &[u8],
    work: u32,
) -> Result<Vec<u8>, StartFault>
    requires { IsAllowed pass.now work }
    ensures front { IfOk result (λ front. IsFileFront
        (scrypt_head pass.now work random.now.salt random.now.file_key) random.now.payload_nonce
        front.items) }
    ensures size { IfOk result (λ front. length front.items ≤ 256) }
    ensures memory { IfErr result (λ fault. start_fault_number fault ≡ 28) }
{
    let key = FileKey::new(random.file_key);
    match scrypt_header(alloc, pass, work, &random.salt, &key) {
        Ok(header) => encode_front(alloc, &header, &random.payload_nonce),
        Err(fault) => Err(StartFault::Key(fault)),
    }
}

/// Derives the payload key of a writer.
fn load_writer_key(writer: &Writer) -> PayloadKey
    ensures { result ≡ key_of_writer writer.now }
{
    payload_key(&FileKey::new(writer.file_key), &writer.nonce)
}

/// Seals a plaintext as one chunk to `out`, and returns the length of its block.
fn seal_chunk(writer: &Writer, last: bool, text: &[u8], out: &mut [u8]) -> usize
    requires text { length text.now ≤ chunk_length }
    requires room { length text.now + tag_length ≤ length out.old }
    ensures block { take result out.new ≡ sealing_with (key_of_writer writer.now)
        (nonce_bytes writer.now.chunk last) [] text.now }
    ensures after { drop result out.new ≡ drop result out.old }
    ensures most { result ≤ length out.new }
    ensures len { result ≡ length text.now + tag_length }
{
    let len = text.len() + TAG_LEN;
    let block = &mut out[..len];
    block[..text.len()].copy_from_slice(text);
    load_writer_key(writer).seal_at(&nonce_of(writer.chunk, last), block);
    len
}

/// Seals a full chunk that isn't the last to `out`, and returns the length of its block.
pub(crate) fn seal_next(writer: &mut Writer, chunk: &[u8], out: &mut [u8]) -> usize
    requires call { IsChunkCall writer.old chunk.now out.old }
    requires limit { writer.old.chunk + 1 < chunk_limit }
    ensures sealed { SealsChunk chunk.now writer.old (take result out.new) writer.new }
    ensures put { PutsFront result out.old out.new }
    ensures len { result ≡ block_length }
{
    let len = seal_chunk(writer, false, chunk, out);
    writer.chunk += 1;
    len
}

/// Seals the rest of a plaintext as the last chunk to `out`, and returns the length of its block.
pub(crate) fn seal_last(writer: &mut Writer, rest: &[u8], out: &mut [u8]) -> usize
    requires { IsLastCall writer.old rest.now out.old }
    ensures sealed { SealsLast rest.now writer.old (take result out.new) writer.new }
    ensures put { PutsFront result out.old out.new }
{
    let len = seal_chunk(writer, true, rest, out);
    writer.state = 2;
    len
}
