//! The opening of a header.

ghost use Rattle.std.specs.Prelude.{◌≡◌, IfOk, IfErr};
ghost use Rattle.std.specs.List.{list_any};
ghost use Rattle.base64.specs.GeneralPurpose.{IsBytes};
ghost use Rattle.age_stanza.specs.{HasText};
ghost use Rattle.age_keys.specs.{Counts, has_type, is_scrypt, scrypt_not_alone, header_mac, Opens, Refuses};
ghost use Rattle.age_fault.specs.declared.key.KeyFault.TheVariants.{Memory};

use crate::key::FileKey;
use crate::unlock::Unlock;
use age_fault::KeyFault;
use age_scrypt::Steps;
use age_stanza::{Header, Stanza};
use std::alloc::Global;

/// Returns whether a stanza is of a type, which is its first argument.
pub(crate) fn has_type(stanza: &Stanza, kind: &[u8]) -> bool
    ensures { result ≡ has_type kind.now stanza.now.args }
{
    match stanza.args.as_slice() {
        [first, ..] => first.as_slice() == kind,
        [] => false,
    }
}

/// Returns whether a stanza is of type `scrypt`.
pub(crate) fn is_scrypt(stanza: &Stanza) -> bool
    ensures { result ≡ is_scrypt stanza.now }
{
    has_type(stanza, b"scrypt")
}

/// Returns whether some stanza is of type `scrypt`.
pub(crate) fn has_scrypt(stanzas: &[Stanza]) -> bool
    ensures { result ≡ list_any is_scrypt stanzas.now }
{
    stanzas.iter().any(is_scrypt)
}

/// Returns whether a scrypt stanza stands beside another stanza, which is refused
/// (<https://c2sp.org/age#scrypt-recipient-stanza>). Whoever decrypts with a passphrase assumes
/// that the file's author knew it, but whoever can open another stanza can make the MAC too.
pub fn scrypt_not_alone(header: &Header) -> bool
    ensures { result ≡ scrypt_not_alone header.now }
{
    let stanzas = header.stanzas.as_slice();
    stanzas.len() > 1 && has_scrypt(stanzas)
}

/// Returns the MAC of a header under a file key (<https://c2sp.org/age#header-mac>). Fails only if
/// memory runs out. Requires [`is_header`](age_stanza::is_header).
#[tactic(auto, unfolding(crate::specs::Keys::header_mac))]
pub fn compute_mac(alloc: Global, header: &Header, key: &FileKey) -> Result<[u8; 32], KeyFault>
    requires { HasText header.now }
    ensures mac { IfOk result (λ mac. mac ≡ header_mac key.now header.now) }
    ensures bytes { IfOk result IsBytes }
    ensures memory { IfErr result (λ fault. fault ≡ Memory) }
{
    let Ok(text) = age_stanza::mac_text(alloc, header) else {
        return Err(KeyFault::Memory);
    };
    let secret = age_kdf::hkdf32(key.bytes(), &[], b"header");
    Ok(age_kdf::hmac(&secret, &[text.as_slice()]))
}

/// Opens a header: returns the file key that the unlocker finds in it, once the header's MAC
/// confirmed that key (<https://c2sp.org/age#header-mac>). Requires
/// [`is_header`](age_stanza::is_header).
///
/// Fails, in this order, for a scrypt stanza beside another stanza ([`KeyFault::ScryptNotAlone`]),
/// for whatever the unlocker refuses, if memory runs out for the text that the MAC covers, and for
/// a MAC that wasn't made under the key ([`KeyFault::MacMismatch`]). The unlocker's steps of scrypt
/// are counted, and there is none before a fault that [is found before any
/// work](KeyFault::is_before_work). `opened` in `age_vectors/src/keys.rt` parses a header and opens
/// it.
pub fn open_header<U: Unlock>(
    alloc: Global,
    header: &Header,
    unlock: &U,
    steps: &mut Steps,
) -> Result<FileKey, KeyFault>
    requires { HasText header.now }
    ensures key { IfOk result (Opens (U.allows unlock.now) header.now) }
    ensures refused { IfErr result
        (Refuses (U.allows unlock.now) (U.refuses unlock.now) header.now) }
    ensures counted { Counts (U.most_steps unlock.now) result steps.old steps.new }
{
    if scrypt_not_alone(header) {
        return Err(KeyFault::ScryptNotAlone);
    }
    let key = unlock.unlock(alloc, header, steps)?;
    let mac = compute_mac(alloc, header, &key)?;
    if header.mac != mac {
        return Err(KeyFault::MacMismatch);
    }
    Ok(key)
}
