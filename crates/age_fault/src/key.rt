//! The error of a header that wasn't opened.

ghost use Rattle.std.specs.Prelude.{◌≡◌, None};
ghost use Rattle.age_fault.specs.KeyFaults.{is_before_work, key_fault_number};

use std::alloc::AllocError;
use std::{error, fmt};

/// The fault for which a header wasn't opened. A refusal changes nothing. The value of each fault
/// is its number in the list of all faults (docs/FAULTS.md).
#[derive(Clone, Copy, Debug, PartialEq, Eq)]
pub enum KeyFault {
    /// A stanza of type `scrypt` isn't the only stanza.
    ScryptNotAlone = 9,
    /// The scrypt stanza isn't valid: its arguments, or the length of its body.
    BadScrypt = 10,
    /// The scrypt stanza's work factor is above the limit.
    WorkTooHigh = 11,
    /// No stanza has the type that the key is for.
    NoMatch = 12,
    /// The passphrase or the shared secret opens no stanza: it is wrong, or the stanza is damaged.
    WrongKey = 13,
    /// The header's MAC wasn't made under the file key.
    MacMismatch = 14,
    /// An X25519 stanza isn't valid, or the shared secret is zero.
    BadX25519 = 15,
    /// Memory ran out.
    Memory = 28,
}

impl KeyFault {
    /// Returns the message for people.
    fn text(&self) -> &'static str {
        match self {
            KeyFault::ScryptNotAlone => "scrypt stanza not alone",
            KeyFault::BadScrypt => "bad scrypt stanza",
            KeyFault::WorkTooHigh => "work factor too high",
            KeyFault::NoMatch => "no matching stanza",
            KeyFault::WrongKey => "wrong key",
            KeyFault::MacMismatch => "header MAC mismatch",
            KeyFault::BadX25519 => "bad X25519 stanza",
            KeyFault::Memory => "out of memory",
        }
    }
}

impl fmt::Display for KeyFault {
    fn fmt<W: fmt::Write>(&self, f: &mut fmt::Formatter<W>) -> fmt::Result {
        f.write_str(self.text())
    }
}

impl error::Error for KeyFault {}

impl KeyFault {
    /// Returns the fault's number in the list of all faults (docs/FAULTS.md).
    pub fn number(&self) -> u8
        ensures { result ≡ key_fault_number self.now }
    {
        *self as u8
    }

    /// Returns whether the fault is found from the header alone, before a body is tried, so that no
    /// step of scrypt was made.
    pub fn is_before_work(&self) -> bool
        ensures { result ≡ is_before_work self.now }
    {
        match self {
            KeyFault::ScryptNotAlone
            | KeyFault::BadScrypt
            | KeyFault::WorkTooHigh
            | KeyFault::NoMatch
            | KeyFault::BadX25519 => true,
            KeyFault::WrongKey | KeyFault::MacMismatch | KeyFault::Memory => false,
        }
    }

    /// Returns `None`, since these faults have no line or chunk.
    pub fn place(&self) -> Option<u64>
        ensures { result ≡ None }
    {
        None
    }
}

impl From<AllocError> for KeyFault {
    ghost use Rattle.age_fault.specs.declared.key.KeyFault.TheVariants.{Memory as MemoryFault};

    ghost from_gives = { λ _ e. e ≡ MemoryFault };

    fn from(_e: AllocError) -> KeyFault {
        KeyFault::Memory
    }
}
