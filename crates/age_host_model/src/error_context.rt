//! The context of a fault: the file, the action that failed, and the error of the system.

use std::io;

/// An action on a file that failed.
#[derive(Clone, Copy, PartialEq, Eq)]
pub enum Action {
    /// Opening a file for reading.
    Open,
    /// Reading a file.
    Read,
    /// Creating a file.
    Create,
    /// Creating a file that must not exist yet, as the user asked, although one does.
    CreateNew,
    /// Creating a file that must not exist yet, as the user asked, although an empty one does.
    CreateNewOverEmpty,
    /// Opening a file for writing, or writing to it.
    Write,
    /// Syncing a file and closing it.
    Sync,
    /// Saving a position to a file.
    Save,
}

/// A failed action on a file, with the error of the system.
#[derive(Clone, Copy)]
pub struct Failure<'w> {
    /// The action that failed.
    pub action: Action,
    /// The name of the file, as people know it.
    pub name: &'w str,
    /// The error of the system.
    pub error: io::Error,
}

/// The number of first bytes of a file that are kept. They hold the first line, the stanza of a
/// passphrase with a work factor of up to three digits, and the beginning of the header's last
/// line.
const KEPT_MAX: usize = 108;

/// The first bytes of a file.
#[derive(Clone, Copy)]
pub struct FirstBytes {
    kept: [u8; KEPT_MAX],
    len: usize,
}

impl FirstBytes {
    /// Creates an empty buffer for first bytes.
    pub fn new() -> FirstBytes {
        FirstBytes {
            kept: [0; KEPT_MAX],
            len: 0,
        }
    }

    /// Appends the next bytes of the file, as far as there is room.
    pub fn extend(&mut self, read: &[u8]) {
        let left = KEPT_MAX.saturating_sub(self.len);
        for byte in &read[..read.len().min(left)] {
            if self.len < KEPT_MAX {
                self.kept[self.len] = *byte;
                self.len += 1;
            }
        }
    }

    /// Returns the first bytes as a slice.
    pub fn as_slice(&self) -> &[u8] {
        &self.kept[..self.len.min(KEPT_MAX)]
    }
}

/// The number of bytes that were read of a file, and the first of them.
#[derive(Clone, Copy)]
pub struct ReadSummary<'w> {
    /// The name of the file; empty for standard input.
    pub name: &'w str,
    /// The number of bytes that were read, at most `u64::MAX`.
    pub bytes: u64,
    /// The first bytes that were read.
    pub head: FirstBytes,
}

impl<'w> ReadSummary<'w> {
    /// Creates the summary of a file of which nothing was read. `name` is empty for standard input.
    pub fn none(name: &'w str) -> ReadSummary<'w> {
        ReadSummary {
            name,
            bytes: 0,
            head: FirstBytes::new(),
        }
    }

    /// Counts the next bytes that were read, and keeps the first ones.
    pub fn count(&mut self, read: &[u8]) {
        self.bytes = self.bytes.saturating_add(read.len() as u64);
        self.head.extend(read);
    }
}

/// The context of a fault or of a bad command line.
#[derive(Clone, Copy)]
pub enum ErrorContext<'w> {
    /// No file, or only one that the command line names already.
    Nothing,
    /// A failed action on a file.
    Failed(Failure<'w>),
    /// A file that was read, and how many bytes it gave.
    Read(ReadSummary<'w>),
    /// A file and the number of its bytes, or `None` if they are too many.
    Holds(&'w str, Option<usize>),
    /// Two names of one file or stream, or one name if the other isn't known.
    Twice(&'w str, Option<&'w str>),
}
