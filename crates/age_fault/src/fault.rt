//! The error of reading or writing an age file.

ghost use Rattle.std.specs.Prelude.{◌≡◌};
ghost use Rattle.age_fault.specs.declared.fault.FileFault.TheVariants.{Stream, Write, Memory as MemoryFault};
ghost use Rattle.age_fault.specs.Faults.{fault_number, fault_place, name_of, name_by};
ghost use Rattle.age_fault.specs.HeadFaults.{head_fault_number};
ghost use Rattle.age_fault.specs.KeyFaults.{key_fault_number};
ghost use Rattle.age_chunk.specs.{stream_fault_number};
ghost use Rattle.age_fault.specs.inner.{fault_of, fault_of_key};

use crate::head::{HeadFault, HeadKind};
use crate::key::KeyFault;
use age_chunk::{StreamFault, StreamKind};
use age_io::{Memory, WriteFailure};
use std::alloc::{AllocError, AllocFailed};
use std::error::Error;
use std::fmt;

/// The error of reading or writing an age file, by whatever layer. docs/FAULTS.md lists all faults
/// by number.
#[derive(Clone, Copy, Debug, PartialEq, Eq)]
pub enum FileFault {
    /// The header isn't valid, at this line (faults 1 to 8).
    Head(HeadFault),
    /// The header was not opened (faults 9 to 15).
    Key(KeyFault),
    /// Fewer than 16 bytes follow the header (fault 16).
    NonceCut,
    /// The payload, or the text to be sealed, was refused at this chunk (faults 17 to 22).
    Stream(StreamFault),
    /// The text isn't a position (fault 23).
    BadPosition,
    /// The position belongs to another file (fault 24).
    OtherFile,
    /// The earlier output is shorter than the position needs (fault 25).
    ShortText,
    /// A source failed in this call (fault 26).
    Read,
    /// A sink failed in this call (fault 27).
    Write,
    /// Memory ran out (fault 28).
    Memory,
    /// The sources gave bytes in 2^63 pulls of one call (fault 29).
    ReadNeverEnds,
    /// The position was not made under this file's key (fault 30).
    PositionForged,
    /// The earlier output is not the one that the position was made for (fault 31).
    OldTextDiffers,
}

impl fmt::Display for FileFault {
    fn fmt<W: fmt::Write>(&self, f: &mut fmt::Formatter<W>) -> fmt::Result {
        match self {
            FileFault::Head(fault) => fmt::Display::fmt(fault, f),
            FileFault::Key(fault) => fmt::Display::fmt(fault, f),
            FileFault::Stream(fault) => fmt::Display::fmt(fault, f),
            _ => f.write_str(self.text()),
        }
    }
}

impl Error for FileFault {}

impl From<AllocError> for FileFault {
    ghost from_gives = { λ _ e. e ≡ MemoryFault };

    fn from(_e: AllocError) -> FileFault {
        FileFault::Memory
    }
}

impl<T: Drop> From<AllocFailed<T>> for FileFault {
    ghost from_gives = { λ _ e. e ≡ MemoryFault };

    fn from(_e: AllocFailed<T>) -> FileFault {
        FileFault::Memory
    }
}

impl From<Memory> for FileFault {
    ghost from_gives = { λ _ e. e ≡ MemoryFault };

    fn from(_e: Memory) -> FileFault {
        FileFault::Memory
    }
}

impl From<WriteFailure> for FileFault {
    ghost from_gives = { λ _ e. e ≡ Write };

    fn from(_e: WriteFailure) -> FileFault {
        FileFault::Write
    }
}

impl From<HeadFault> for FileFault {
    ghost from_gives = { λ fault e. e ≡ fault_of fault };

    fn from(fault: HeadFault) -> FileFault {
        match fault.kind {
            HeadKind::Memory => FileFault::Memory,
            _ => FileFault::Head(fault),
        }
    }
}

impl From<KeyFault> for FileFault {
    ghost from_gives = { λ fault e. e ≡ fault_of_key fault };

    fn from(fault: KeyFault) -> FileFault {
        match fault {
            KeyFault::Memory => FileFault::Memory,
            other => FileFault::Key(other),
        }
    }
}

impl From<StreamFault> for FileFault {
    ghost from_gives = { λ fault e. e ≡ Stream fault };

    fn from(fault: StreamFault) -> FileFault {
        FileFault::Stream(fault)
    }
}

impl FileFault {
    /// Returns the number of this fault in the list of all faults (docs/FAULTS.md).
    pub fn number(&self) -> u8
        ensures { result ≡ fault_number self.now }
    {
        match self {
            FileFault::Head(fault) => fault.number(),
            FileFault::Key(fault) => fault.number(),
            FileFault::NonceCut => 16,
            FileFault::Stream(fault) => fault.number(),
            FileFault::BadPosition => 23,
            FileFault::OtherFile => 24,
            FileFault::ShortText => 25,
            FileFault::Read => 26,
            FileFault::Write => 27,
            FileFault::Memory => 28,
            FileFault::ReadNeverEnds => 29,
            FileFault::PositionForged => 30,
            FileFault::OldTextDiffers => 31,
        }
    }

    /// Returns the line of a header's fault, from 1, or the chunk of a payload's, from 0, or `None`
    /// for any other fault.
    pub fn place(&self) -> Option<u64>
        ensures { result ≡ fault_place self.now }
    {
        match self {
            FileFault::Head(fault) => fault.place(),
            FileFault::Stream(fault) => fault.place(),
            _ => None,
        }
    }

    /// Returns the message for people about a fault without a type of its own, or an empty string
    /// for one of a header, key or payload.
    fn text(&self) -> &'static str {
        match self {
            FileFault::NonceCut => "payload nonce cut",
            FileFault::BadPosition => "bad position",
            FileFault::OtherFile => "position of another file",
            FileFault::ShortText => "old text too short",
            FileFault::Read => "the input could not be read",
            FileFault::Write => "the output could not be written",
            FileFault::Memory => "out of memory",
            FileFault::ReadNeverEnds => "the input never ends",
            FileFault::PositionForged => "forged position",
            FileFault::OldTextDiffers => "old text differs",
            _ => "",
        }
    }

    /// Returns the name of this fault in the list of all faults (docs/FAULTS.md).
    pub fn name(&self) -> &'static str
        ensures { result.now ≡ name_of self.now }
    {
        match self {
            FileFault::Head(fault) => head_name(fault.kind),
            FileFault::Key(fault) => key_name(*fault),
            FileFault::NonceCut => "NonceCut",
            FileFault::Stream(fault) => stream_name(fault.kind),
            FileFault::BadPosition => "BadPosition",
            FileFault::OtherFile => "OtherFile",
            FileFault::ShortText => "ShortText",
            FileFault::Read => "Read",
            FileFault::Write => "Write",
            FileFault::Memory => "Memory",
            FileFault::ReadNeverEnds => "ReadNeverEnds",
            FileFault::PositionForged => "PositionForged",
            FileFault::OldTextDiffers => "OldTextDiffers",
        }
    }
}

/// Returns the name of a header's fault.
fn head_name(kind: HeadKind) -> &'static str
    ensures { result.now ≡ name_by (head_fault_number kind) }
{
    match kind {
        HeadKind::NotAge => "NotAge",
        HeadKind::Armored => "Armored",
        HeadKind::BadStanzaLine => "BadStanzaLine",
        HeadKind::BadBody => "BadBody",
        HeadKind::BadEndLine => "BadEndLine",
        HeadKind::NoStanza => "NoStanza",
        HeadKind::HeadTooLong => "HeadTooLong",
        HeadKind::HeadCut => "HeadCut",
        HeadKind::Memory => "Memory",
    }
}

/// Returns the name of a fault of opening a header.
fn key_name(fault: KeyFault) -> &'static str
    ensures { result.now ≡ name_by (key_fault_number fault) }
{
    match fault {
        KeyFault::ScryptNotAlone => "ScryptNotAlone",
        KeyFault::BadScrypt => "BadScrypt",
        KeyFault::WorkTooHigh => "WorkTooHigh",
        KeyFault::NoMatch => "NoMatch",
        KeyFault::WrongKey => "WrongKey",
        KeyFault::MacMismatch => "MacMismatch",
        KeyFault::BadX25519 => "BadX25519",
        KeyFault::Memory => "Memory",
    }
}

/// Returns the name of a payload's fault.
fn stream_name(kind: StreamKind) -> &'static str
    ensures { result.now ≡ name_by (stream_fault_number kind) }
{
    match kind {
        StreamKind::ChunkDamaged => "ChunkDamaged",
        StreamKind::ChunkCut => "ChunkCut",
        StreamKind::EmptyLast => "EmptyLast",
        StreamKind::Truncated => "Truncated",
        StreamKind::Trailing => "Trailing",
        StreamKind::TooManyChunks => "TooManyChunks",
    }
}
