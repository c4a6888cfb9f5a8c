//! The file key.

ghost use Rattle.std.specs.Prelude.{◌≡◌};

use std::marker::Model;

/// A file key, of 16 bytes (<https://c2sp.org/age#file-key>). It has no `Debug`, so that no message
/// prints it. Contracts see the list of its bytes.
#[derive(Drop)]
pub struct FileKey(pub [u8; 16]);

impl Model for FileKey {
    ghost use Rattle.std.specs.Prelude.{List, ℕ};

    ghost Value = { List ℕ };

    ghost view = { λ k. k.0 };
}

impl FileKey {
    /// Makes a file key of these bytes.
    pub fn new(bytes: [u8; 16]) -> FileKey
        ensures { result ≡ bytes }
    {
        FileKey(bytes)
    }

    /// Returns the bytes of the key.
    pub fn bytes(&self) -> &[u8; 16]
        ensures { result.now ≡ self.now }
    {
        &self.0
    }
}
