//! The C functions that decode a header, with the key that opens it.

ghost use Rattle.std.specs.Prelude.{◌≡◌, length};
ghost use Rattle.age_keys.specs.{IsAllowed, IsPassphraseKey, PassphraseRefuses, IsSharedKey, SharedRefuses};
ghost use Rattle.age_c.specs.{TakesHead};

use crate::MISUSED;
use crate::decode_head::take_head;
use crate::decoder::Decoder;
use age_keys::{KnownKey, Passphrase, SharedSecret};
use std::alloc::Global;

/// Takes bytes of the file from the front of `piece`, up to the end of its header and the payload
/// nonce, and opens the header by a passphrase of 1 to 65,536 bytes, if the work factor is at most
/// `max_work`, 1 to 22. Returns 0, or why the header is refused, for good. Until the header is
/// open, `front` is the buffer of its bytes, and has room for at least one more. `ended` says that
/// the file ends after the piece.
#[unsafe(no_mangle)]
pub extern "C" fn age_c_decode_head_passphrase(
    alloc: Global,
    pass: &[u8],
    max_work: u32,
    decoder: &mut Decoder,
    front: &mut [u8],
    piece: &[u8],
    ended: bool,
    taken: &mut usize,
) -> u32
    ensures { TakesHead (IsAllowed pass.now max_work)
        (IsPassphraseKey (record { pass = pass.now; max_log = max_work }))
        (PassphraseRefuses (record { pass = pass.now; max_log = max_work })) piece.now ended
        decoder.old decoder.new front.old front.new result taken.new }
{
    *taken = 0;
    let Some(unlock) = Passphrase::new(pass, max_work) else {
        return MISUSED;
    };
    take_head(alloc, &unlock, decoder, front, piece, ended, taken)
}

/// Takes bytes of the file and opens its header as [`age_c_decode_head_passphrase`] does, by the
/// file key, of 16 bytes.
#[unsafe(no_mangle)]
pub extern "C" fn age_c_decode_head_key(
    alloc: Global,
    file_key: &[u8],
    decoder: &mut Decoder,
    front: &mut [u8],
    piece: &[u8],
    ended: bool,
    taken: &mut usize,
) -> u32
    ensures { TakesHead (length file_key.now ≡ 16) (λ _ key. key ≡ file_key.now) (λ _ _. ⊥)
        piece.now ended decoder.old decoder.new front.old front.new result taken.new }
{
    *taken = 0;
    let Some(key) = file_key.as_array::<16>() else {
        return MISUSED;
    };
    take_head(
        alloc,
        &KnownKey::new(*key),
        decoder,
        front,
        piece,
        ended,
        taken,
    )
}

/// Takes bytes of the file and opens its header as [`age_c_decode_head_passphrase`] does, by an
/// X25519 shared secret and the recipient that it was computed for, of 32 bytes each.
#[unsafe(no_mangle)]
pub extern "C" fn age_c_decode_head_shared(
    alloc: Global,
    secret: &[u8],
    recipient: &[u8],
    decoder: &mut Decoder,
    front: &mut [u8],
    piece: &[u8],
    ended: bool,
    taken: &mut usize,
) -> u32
    ensures { TakesHead ((length secret.now ≡ 32) × (length recipient.now ≡ 32))
        (IsSharedKey (record { secret = secret.now; recipient = recipient.now }))
        (SharedRefuses (record { secret = secret.now; recipient = recipient.now })) piece.now ended
        decoder.old decoder.new front.old front.new result taken.new }
{
    *taken = 0;
    let Some(secret) = secret.as_array::<32>() else {
        return MISUSED;
    };
    let Some(recipient) = recipient.as_array::<32>() else {
        return MISUSED;
    };
    take_head(
        alloc,
        &SharedSecret::new(secret, recipient),
        decoder,
        front,
        piece,
        ended,
        taken,
    )
}
