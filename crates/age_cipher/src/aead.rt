//! The AEAD of ChaCha20 and Poly1305 (RFC 8439, 2.8), in place.

ghost use Rattle.std.specs.Prelude.{◌≡◌, ◌-◌, ◌≤◌, ◌↔◌, [], ◌∷◌, length, take, drop, IsTrue};
ghost use Rattle.std.specs.List.{concat};
ghost use Rattle.std.specs.Bool.{OnTrue, OnFalse};
ghost use Rattle.age_cipher.specs.{poly1305, block_limit, one_time_key, padding, tag, sealing, IsSealing};

use crate::authenticator::poly1305;
use crate::keystream::xor_stream;

/// The number of the keystream's block whose first 32 bytes are the one-time key.
const KEY_BLOCK: u32 = 0;

/// The number of the keystream's block from which on the plaintext is encrypted.
const TEXT_BLOCK: u32 = 1;

static ZEROS: [u8; 16] = [0; 16];

/// Returns the zeros that pad bytes to a multiple of 16.
#[tactic(auto, using(crate::proofs::SealingLemmas::cut_zeros), unfolding(crate::specs::Aead::padding))]
fn padding(bytes: &[u8]) -> &'static [u8]
    ensures { result.now ≡ padding bytes.now }
{
    &ZEROS[..(16 - bytes.len() % 16) % 16]
}

/// Returns the one-time key of Poly1305 (RFC 8439, 2.6).
#[tactic(auto, unfolding(crate::specs::Aead::one_time_key))]
fn one_time_key(key: &[u8; 32], nonce: &[u8; 12]) -> [u8; 32]
    ensures { result ≡ one_time_key key.now nonce.now }
{
    let mut block = [0; 32];
    xor_stream(key, nonce, KEY_BLOCK, &mut block);
    block
}

/// Returns the tag of six parts, which are all borrowed for one lifetime.
fn tag_of_parts<'a>(
    key: &[u8; 32],
    aad: &'a [u8],
    aad_padding: &'a [u8],
    cipher: &'a [u8],
    cipher_padding: &'a [u8],
    aad_len: &'a [u8],
    cipher_len: &'a [u8],
) -> [u8; 16]
    ensures { result ≡ poly1305 key.now (concat (
        aad.now ∷ aad_padding.now ∷ cipher.now ∷ cipher_padding.now
        ∷ aad_len.now ∷ cipher_len.now ∷ [])) }
{
    poly1305(
        key,
        &[
            aad,
            aad_padding,
            cipher,
            cipher_padding,
            aad_len,
            cipher_len,
        ],
    )
}

/// Returns the tag of the associated data and the ciphertext (RFC 8439, 2.8).
#[tactic(auto, using(crate::proofs::tag_is))]
fn tag(key: &[u8; 32], nonce: &[u8; 12], aad: &[u8], cipher: &[u8]) -> [u8; 16]
    ensures { result ≡ tag key.now nonce.now aad.now cipher.now }
{
    let aad_len = (aad.len() as u64).to_le_bytes();
    let cipher_len = (cipher.len() as u64).to_le_bytes();
    let key = one_time_key(key, nonce);
    tag_of_parts(
        &key,
        aad,
        padding(aad),
        cipher,
        padding(cipher),
        &aad_len,
        &cipher_len,
    )
}

/// Seals a plaintext in place (RFC 8439, 2.8). `block` must have 16 to 65,552 bytes: the plaintext
/// and 16 more. The plaintext becomes the ciphertext and the last 16 bytes the tag, whatever they
/// were.
#[tactic(auto, unfolding(crate::specs::Aead::sealing))]
pub fn seal_in_place(key: &[u8; 32], nonce: &[u8; 12], aad: &[u8], block: &mut [u8])
    requires { (16 ≤ length block.old) × (length block.old ≤ block_limit) }
    ensures { block.new
        ≡ sealing key.now nonce.now aad.now (take (length block.old - 16) block.old) }
{
    let (text, end) = block.split_at_mut(block.len() - 16);
    xor_stream(key, nonce, TEXT_BLOCK, text);
    let tag = tag(key, nonce, aad, text);
    end.copy_from_slice(&tag);
}

/// Compares two tags, and reads all 16 bytes wherever they differ.
fn is_tag(tag: &[u8; 16], bytes: &[u8]) -> bool
    requires { length bytes.now ≡ 16 }
    ensures { IsTrue result ↔ (tag.now ≡ bytes.now) }
{
    let mut differences = 0;
    for i in 0..16 {
        differences |= tag[i] ^ bytes[i];
    }
    differences == 0
}

/// Opens a block in place (RFC 8439, 2.8), and returns whether it is the sealing of some plaintext.
/// `block` must have 16 to 65,552 bytes. If the result is true, that plaintext stands before the
/// tag, whose 16 bytes are unchanged. If it is false, the block is unchanged.
///
/// A block doesn't commit to a key: anyone who knows two keys can make one that opens under both.
pub fn open_in_place(key: &[u8; 32], nonce: &[u8; 12], aad: &[u8], block: &mut [u8]) -> bool
    requires { (16 ≤ length block.old) × (length block.old ≤ block_limit) }
    ensures exact { IsTrue result ↔ IsSealing key.now nonce.now aad.now block.old }
    ensures text { OnTrue result (block.old
        ≡ sealing key.now nonce.now aad.now (take (length block.old - 16) block.new)) }
    ensures end { drop (length block.old - 16) block.new ≡ drop (length block.old - 16) block.old }
    ensures kept { OnFalse result (block.new ≡ block.old) }
{
    let (cipher, end) = block.split_at_mut(block.len() - 16);
    let same = is_tag(&tag(key, nonce, aad, cipher), end);
    if same {
        xor_stream(key, nonce, TEXT_BLOCK, cipher);
    }
    same
}
