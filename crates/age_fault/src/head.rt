//! The error of a header that was refused, with its line.

ghost use Rattle.std.specs.Prelude.{◌≡◌};
ghost use Rattle.age_fault.specs.HeadFaults.{head_fault_number, head_fault_place};

use std::alloc::AllocError;
use std::{error, fmt};

/// The kind of fault for which a header was refused. The value of each kind is its number in the
/// list of all faults (docs/FAULTS.md).
#[derive(Clone, Copy, Debug, PartialEq, Eq)]
pub enum HeadKind {
    /// The first line isn't the version line.
    NotAge = 1,
    /// The first line begins an armored file. Armor isn't read; it has to be removed first.
    Armored = 2,
    /// A line after the version line or a complete stanza is neither a valid argument line nor
    /// begins with `---`.
    BadStanzaLine = 3,
    /// A line of a body isn't canonical base64 of at most 64 characters.
    BadBody = 4,
    /// A line that begins with `---` isn't a valid end line.
    BadEndLine = 5,
    /// The end line came before any stanza.
    NoStanza = 6,
    /// The first bytes, as many as the longest header has, have no complete header and no faulty
    /// line.
    HeadTooLong = 7,
    /// The input ended inside the header.
    HeadCut = 8,
    /// Memory ran out.
    Memory = 28,
}

impl HeadKind {
    /// Returns the message for people.
    fn text(&self) -> &'static str {
        match self {
            HeadKind::NotAge => "not an age file",
            HeadKind::Armored => "armored",
            HeadKind::BadStanzaLine => "bad stanza line",
            HeadKind::BadBody => "bad body",
            HeadKind::BadEndLine => "bad end line",
            HeadKind::NoStanza => "no stanza",
            HeadKind::HeadTooLong => "header too long",
            HeadKind::HeadCut => "header cut",
            HeadKind::Memory => "out of memory",
        }
    }
}

impl fmt::Display for HeadKind {
    fn fmt<W: fmt::Write>(&self, f: &mut fmt::Formatter<W>) -> fmt::Result {
        f.write_str(self.text())
    }
}

impl error::Error for HeadKind {}

impl HeadKind {
    /// Returns the kind's number in the list of all faults (docs/FAULTS.md).
    pub fn number(&self) -> u8
        ensures { result ≡ head_fault_number self.now }
    {
        *self as u8
    }
}

impl From<AllocError> for HeadKind {
    ghost use Rattle.age_fault.specs.declared.head.HeadKind.TheVariants.{Memory as MemoryKind};

    ghost from_gives = { λ _ e. e ≡ MemoryKind };

    fn from(_e: AllocError) -> HeadKind {
        HeadKind::Memory
    }
}

/// The error of a header that was refused, with the line.
#[derive(Clone, Copy, Debug, PartialEq, Eq)]
pub struct HeadFault {
    /// The kind of the fault.
    pub kind: HeadKind,
    /// The number of the line, from 1; 0 for [`HeadKind::Memory`].
    pub line: u64,
}

impl HeadFault {
    /// Returns the number of the fault's kind in the list of all faults (docs/FAULTS.md).
    pub fn number(&self) -> u8
        ensures { result ≡ head_fault_number self.now.kind }
    {
        self.kind.number()
    }

    /// Returns the number of the line, from 1, or `None` if memory ran out.
    pub fn place(&self) -> Option<u64>
        ensures { result ≡ head_fault_place self.now }
    {
        match self.kind {
            HeadKind::Memory => None,
            _ => Some(self.line),
        }
    }
}

/// Shows the kind and the line, as `bad stanza line at line 3`, or the kind alone if memory ran
/// out.
impl fmt::Display for HeadFault {
    fn fmt<W: fmt::Write>(&self, f: &mut fmt::Formatter<W>) -> fmt::Result {
        match self.place() {
            Some(line) => write!(f, "{} at line {line}", self.kind),
            None => write!(f, "{}", self.kind),
        }
    }
}

impl error::Error for HeadFault {}

impl From<AllocError> for HeadFault {
    ghost use Rattle.age_fault.specs.HeadFaults.{memory_fault};

    ghost from_gives = { λ _ e. e ≡ memory_fault };

    fn from(_e: AllocError) -> HeadFault {
        HeadFault {
            kind: HeadKind::Memory,
            line: 0,
        }
    }
}
