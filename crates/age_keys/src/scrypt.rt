//! The scrypt stanza (<https://c2sp.org/age#scrypt-recipient-stanza>): read and written.

ghost use Rattle.std.specs.Prelude.{◌≡◌, ◌≤◌, ◌↔◌, ℕ, ◌+◌, ◌*◌, ◌^◌, List, [], ◌∷◌, min, IsTrue, IfSome};
ghost use Rattle.std.specs.Prelude.{IfNone, IfOk, IfErr, OnOk, OnErr, ◌++◌, codes};
ghost use Rattle.std.specs.Char.{is_ascii_digit};
ghost use Rattle.std.specs.Fmt.{decimal};
ghost use Rattle.std.specs.List.{list_all};
ghost use Rattle.std.specs.Str.Parse.{digits_value};
ghost use Rattle.age_stanza.specs.{HasText, base64_text};
ghost use Rattle.age_scrypt.specs.{work_factor_limit};
ghost use Rattle.age_keys.specs.{IsAllowed, IsWorkFactor, IsScryptStanza, wrap_key, scrypt_stanza};
ghost use Rattle.age_keys.specs.{scrypt_head};
ghost use Rattle.age_fault.specs.declared.key.KeyFault.TheVariants.{Memory};

use crate::key::FileKey;
use crate::open::{compute_mac, is_scrypt};
use crate::wrap::wrapped_key;
use age_fault::KeyFault;
use age_io::Bytes;
use age_scrypt::Steps;
use age_stanza::{Argument, Arguments, Header, Stanza, Stanzas, read_base64};
use base64::engine::general_purpose::STANDARD_NO_PAD;
use std::alloc::{AllocError, Global};

/// The label that precedes the stanza's salt in the salt of scrypt.
const LABEL: &[u8; 28] = b"age-encryption.org/v1/scrypt";

/// Derives the key that wraps a file key under a passphrase
/// (<https://c2sp.org/age#scrypt-recipient-stanza>). Fails only if memory runs out.
pub(crate) fn wrap_key(
    alloc: Global,
    pass: &[u8],
    salt: &[u8; 16],
    log: u32,
    steps: &mut Steps,
) -> Result<[u8; 32], KeyFault>
    requires least { 1 ≤ log }
    requires most { log ≤ work_factor_limit }
    ensures key { IfOk result (λ key. key ≡ wrap_key pass.now salt.now log) }
    ensures memory { IfErr result (λ fault. fault ≡ Memory) }
    ensures counted { OnOk result (steps.new ≡ steps.old + 2 * 2 ^ log) }
    ensures refused { OnErr result (steps.new ≡ steps.old) }
{
    let mut labelled = [0; 44];
    labelled[..28].copy_from_slice(LABEL);
    labelled[28..].copy_from_slice(salt);
    match age_scrypt::derive(alloc, pass, &labelled, log, steps) {
        Ok(key) => Ok(key),
        Err(_) => Err(KeyFault::Memory),
    }
}

/// Returns whether all characters are decimal digits.
fn are_digits(characters: &[u8]) -> bool
    ensures { result ≡ list_all is_ascii_digit characters.now }
{
    characters.iter().all(u8::is_ascii_digit)
}

/// Returns whether characters are a work factor: decimal digits, of which the first isn't zero.
#[tactic(auto, using(crate::proofs::WorkFactorLemmas::digit_tests))]
fn is_work_factor(characters: &[u8]) -> bool
    ensures { IsTrue result ↔ IsWorkFactor characters.now }
{
    match characters {
        [first, ..] => *first != b'0' && are_digits(characters),
        [] => false,
    }
}

/// Parses a work factor, saturating at `u32::MAX`.
#[tactic(auto, using(crate::proofs::WorkFactorLemmas::digit_numbers))]
fn parse_decimal(characters: &[u8]) -> u32
    requires { IsWorkFactor characters.now }
    ensures { result ≡ min (digits_value 10 characters.now) 4294967295 }
{
    let mut number: u32 = 0;
    for c in characters {
        number = number
            .saturating_mul(10)
            .saturating_add(u32::from(*c - b'0'));
    }
    number
}

/// A scrypt stanza (<https://c2sp.org/age#scrypt-recipient-stanza>): `-> scrypt SALT LOG` and a
/// body.
#[derive(Clone, Copy)]
pub struct ScryptStanza {
    /// The salt of the stanza.
    pub salt: [u8; 16],
    /// The work factor, saturating at `u32::MAX`.
    pub log: u32,
    /// The body, in which the file key is wrapped.
    pub body: [u8; 32],
}

impl ScryptStanza {
    /// Parses a stanza of type `scrypt`, or returns `None` if it isn't valid. The body's length is
    /// checked before it is opened, so that no body opens under many passphrases.
    pub fn read(stanza: &Stanza) -> Option<ScryptStanza>
        ensures read { IfSome result (λ read. (log : ℕ) × (read.log ≡ min log 4294967295)
            × IsScryptStanza stanza.now read.salt log read.body) }
        ensures none { IfNone result ((salt : List ℕ) (log : ℕ) (body : List ℕ)
            → IsScryptStanza stanza.now salt log body → ⊥) }
    {
        let [_, salt, log] = stanza.args.as_slice() else {
            return None;
        };
        let mut bytes = [0; 16];
        if !is_scrypt(stanza)
            || !read_base64(salt.as_slice(), &mut bytes)
            || !is_work_factor(log.as_slice())
        {
            return None;
        }
        Some(ScryptStanza {
            salt: bytes,
            log: parse_decimal(log.as_slice()),
            body: *stanza.body.as_slice().as_array::<32>()?,
        })
    }
}

/// Makes the argument of a salt: its base64.
#[tactic(auto, unfolding(age_stanza::specs::Text::base64_text))]
fn salt_argument(alloc: Global, salt: &[u8; 16]) -> Result<Argument, AllocError>
    ensures { IfOk result (λ argument. argument ≡ base64_text salt.now) }
{
    Argument::from_slice(alloc, STANDARD_NO_PAD.encode(alloc, salt)?.as_bytes())
}

/// Makes the argument of a work factor: its decimal digits.
fn log_argument(alloc: Global, log: u32) -> Result<Argument, AllocError>
    ensures { IfOk result (λ argument. argument ≡ decimal log) }
{
    Argument::from_slice(alloc, log.to_string(alloc)?.as_bytes())
}

/// Appends the arguments of a scrypt stanza.
fn push_arguments(
    alloc: Global,
    args: &mut Arguments,
    salt: &[u8; 16],
    log: u32,
) -> Result<(), AllocError>
    ensures { OnOk result (args.new
        ≡ args.old ++ codes "scrypt" ∷ base64_text salt.now ∷ decimal log ∷ []) }
{
    args.push(Argument::from_slice(alloc, b"scrypt")?)?;
    args.push(salt_argument(alloc, salt)?)?;
    args.push(log_argument(alloc, log)?)
}

/// Makes the stanza of a salt, a work factor and a body.
#[tactic(auto, unfolding(crate::specs::Scrypt::scrypt_stanza))]
fn scrypt_stanza(
    alloc: Global,
    salt: &[u8; 16],
    log: u32,
    body: &[u8; 32],
) -> Result<Stanza, AllocError>
    ensures { IfOk result (λ stanza. stanza ≡ scrypt_stanza salt.now log body.now) }
{
    let mut args = Arguments::new(alloc);
    push_arguments(alloc, &mut args, salt, log)?;
    let body = Bytes::from_slice(alloc, body)?;
    Ok(Stanza { args, body })
}

/// Makes a header with one scrypt stanza and a MAC of zeros.
fn build_header(
    alloc: Global,
    salt: &[u8; 16],
    log: u32,
    body: &[u8; 32],
) -> Result<Header, AllocError>
    requires { log ≤ work_factor_limit }
    ensures value { IfOk result
        (λ header. header.stanzas ≡ scrypt_stanza salt.now log body.now ∷ []) }
    ensures text { IfOk result HasText }
{
    let mut stanzas = Stanzas::new(alloc);
    stanzas.push(scrypt_stanza(alloc, salt, log, body)?)?;
    Ok(Header {
        stanzas,
        mac: [0; 32],
    })
}

/// Makes the header of a file key that is wrapped under a passphrase: one scrypt stanza, and the
/// header's MAC (<https://c2sp.org/age#scrypt-recipient-stanza>,
/// <https://c2sp.org/age#header-mac>).
///
/// Fails only if memory runs out ([`KeyFault::Memory`]): the passphrase's table takes `1,024 *
/// 2^log` bytes. Requires a passphrase of 1 to [`PASSPHRASE_LIMIT`](crate::PASSPHRASE_LIMIT) bytes
/// and a work factor `log` of 1 to [`WORK_FACTOR_LIMIT`](crate::WORK_FACTOR_LIMIT).
pub fn scrypt_header(
    alloc: Global,
    pass: &[u8],
    log: u32,
    salt: &[u8; 16],
    key: &FileKey,
) -> Result<Header, KeyFault>
    requires { IsAllowed pass.now log }
    ensures head { IfOk result (λ header. header ≡ scrypt_head pass.now log salt.now key.now) }
    ensures text { IfOk result HasText }
    ensures memory { IfErr result (λ fault. fault ≡ Memory) }
{
    let wrap_key = wrap_key(alloc, pass, salt, log, &mut Steps::new())?;
    let mut header = build_header(alloc, salt, log, &wrapped_key(&wrap_key, key))?;
    header.mac = compute_mac(alloc, &header, key)?;
    Ok(header)
}
