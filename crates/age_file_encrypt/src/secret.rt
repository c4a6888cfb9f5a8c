//! The secret parts of an age file for a passphrase.

ghost use Rattle.std.specs.Option.{SomeIff};
ghost use Rattle.age_keys.specs.{IsAllowed};
ghost use Rattle.age_file_encrypt.specs.Encrypts.{SecretView};

use age_keys::{PASSPHRASE_LIMIT, WORK_FACTOR_LIMIT};
use std::marker::Model;

/// The parts of an age file for a passphrase: passphrase, work factor, salt, file key and payload
/// nonce. Salt, file key and payload nonce must be new random bytes for each file, which no code
/// here can check. Contracts see all five.
#[derive(Drop)]
pub struct Secret<'a> {
    pub(crate) pass: &'a [u8],
    pub(crate) log: u32,
    pub(crate) salt: [u8; 16],
    pub(crate) file_key: [u8; 16],
    pub(crate) payload_nonce: [u8; 16],
}

impl<'a> Model for Secret<'a> {
    ghost Value = { SecretView };

    ghost view = { λ s. record {
      pass = s.pass.now;
      log = s.log;
      salt = s.salt;
      key = s.file_key;
      nonce = s.payload_nonce;
    } };

    ghost invariant = { λ s. IsAllowed s.pass.now s.log };
}

impl<'a> Secret<'a> {
    /// Makes a secret of these parts, or returns `None` if the passphrase has no byte or more than
    /// [`PASSPHRASE_LIMIT`], or the work factor isn't 1 to [`WORK_FACTOR_LIMIT`].
    pub fn new(
        pass: &'a [u8],
        log: u32,
        salt: &[u8; 16],
        file_key: &[u8; 16],
        payload_nonce: &[u8; 16],
    ) -> Option<Secret<'a>>
        ensures { SomeIff result (IsAllowed pass.now log)
            (record {
              pass = pass.now;
              log = log;
              salt = salt.now;
              key = file_key.now;
              nonce = payload_nonce.now;
            }) }
    {
        if pass.is_empty() || pass.len() > PASSPHRASE_LIMIT || log < 1 || log > WORK_FACTOR_LIMIT {
            return None;
        }
        Some(Secret {
            pass,
            log,
            salt: *salt,
            file_key: *file_key,
            payload_nonce: *payload_nonce,
        })
    }
}
