//! Errors of files, each a fault with its context: the file, the action that failed, and the error
//! of the system.

use crate::file_set::OpenFault;
use age_fault::FileFault;
use age_host_model::ErrorContext;
use age_io::Memory;
use std::alloc::AllocError;
use std::marker::Model;

/// An error of a file: a fault and its context. Contracts see the fault alone.
#[derive(Drop)]
pub struct FileError<'w> {
    fault: FileFault,
    context: ErrorContext<'w>,
}

impl<'w> Model for FileError<'w> {
    ghost use Rattle.age_fault.specs.declared.fault.FileFault.{FileFault};

    ghost Value = { FileFault };

    ghost view = { λ e. e.fault };
}

impl<'w> FileError<'w> {
    ghost use Rattle.std.specs.Prelude.{◌≡◌};
    ghost use Rattle.age_fault.specs.{fault_number, fault_place};

    /// Creates an error of a fault and its context.
    pub fn new(fault: FileFault, context: ErrorContext<'w>) -> FileError<'w>
        ensures { result ≡ fault }
    {
        FileError { fault, context }
    }

    /// Returns the fault, without its context.
    pub fn fault(&self) -> FileFault
        ensures { result ≡ self.now }
    {
        self.fault
    }

    /// Returns the fault's number in the list of all faults (docs/FAULTS.md).
    pub fn number(&self) -> u8
        ensures { result ≡ fault_number self.now }
    {
        self.fault.number()
    }

    /// Returns the line of a header's fault, from 1, or the chunk of a payload's, from 0, or `None`
    /// for a fault without either.
    pub fn place(&self) -> Option<u64>
        ensures { result ≡ fault_place self.now }
    {
        self.fault.place()
    }

    /// Returns the context of the fault: the file, and the error of the system.
    pub fn context(&self) -> ErrorContext<'w> {
        self.context
    }
}

impl<'w> From<Memory> for FileError<'w> {
    ghost use Rattle.std.specs.Prelude.{◌≡◌};
    ghost use Rattle.age_fault.specs.declared.fault.FileFault.TheVariants.{Memory as MemoryFault};

    ghost from_gives = { λ _ e. e ≡ MemoryFault };

    fn from(_e: Memory) -> FileError<'w> {
        FileError::new(FileFault::Memory, ErrorContext::Nothing)
    }
}

impl<'w> From<AllocError> for FileError<'w> {
    ghost use Rattle.std.specs.Prelude.{◌≡◌};
    ghost use Rattle.age_fault.specs.declared.fault.FileFault.TheVariants.{Memory as MemoryFault};

    ghost from_gives = { λ _ e. e ≡ MemoryFault };

    fn from(_e: AllocError) -> FileError<'w> {
        FileError::new(FileFault::Memory, ErrorContext::Nothing)
    }
}

impl<'w> From<FileFault> for FileError<'w> {
    ghost use Rattle.std.specs.Prelude.{◌≡◌};

    ghost from_gives = { λ f e. e ≡ f };

    fn from(fault: FileFault) -> FileError<'w> {
        FileError::new(fault, ErrorContext::Nothing)
    }
}

/// An error of opening, preparing or creating a file, with its context. Contracts see the fault
/// alone.
#[derive(Drop)]
pub struct OpenError<'w> {
    fault: OpenFault,
    context: ErrorContext<'w>,
}

impl<'w> Model for OpenError<'w> {
    ghost use Rattle.age_cli_files.specs.declared.file_set.OpenFault.{OpenFault};

    ghost Value = { OpenFault };

    ghost view = { λ e. e.fault };
}

impl<'w> OpenError<'w> {
    ghost use Rattle.std.specs.Prelude.{◌≡◌};
    ghost use Rattle.age_cli_files.specs.FileSet.{open_fault_number, open_fault_place};
    ghost use Rattle.age_cli_files.specs.declared.file_set.OpenFault.TheVariants.{SameFile, Fault};

    /// Creates an error of a fault and its context.
    pub fn new(fault: FileFault, context: ErrorContext<'w>) -> OpenError<'w>
        ensures { result ≡ Fault fault }
    {
        OpenError {
            fault: OpenFault::Fault(fault),
            context,
        }
    }

    /// Creates the error that two names are one file or stream. `other` is `None` if only one name
    /// is known.
    pub fn same_file(one: &'w str, other: Option<&'w str>) -> OpenError<'w>
        ensures { result ≡ SameFile }
    {
        OpenError {
            fault: OpenFault::SameFile,
            context: ErrorContext::Twice(one, other),
        }
    }

    /// Returns the fault, or that two names are one file, without the context.
    pub fn fault(&self) -> OpenFault
        ensures { result ≡ self.now }
    {
        self.fault
    }

    /// Returns the fault's number in the list of all faults (docs/FAULTS.md), or `None` if two
    /// names are one file, which is a bad command line.
    pub fn number(&self) -> Option<u8>
        ensures { result ≡ open_fault_number self.now }
    {
        match self.fault {
            OpenFault::SameFile => None,
            OpenFault::Fault(fault) => Some(fault.number()),
        }
    }

    /// Returns the line of a header's fault, from 1, or the chunk of a payload's, from 0, or `None`
    /// for an error without either.
    pub fn place(&self) -> Option<u64>
        ensures { result ≡ open_fault_place self.now }
    {
        match self.fault {
            OpenFault::SameFile => None,
            OpenFault::Fault(fault) => fault.place(),
        }
    }

    /// Returns the context of the error: the file, and the error of the system.
    pub fn context(&self) -> ErrorContext<'w> {
        self.context
    }
}

impl<'w> From<FileFault> for OpenError<'w> {
    ghost use Rattle.std.specs.Prelude.{◌≡◌};
    ghost use Rattle.age_cli_files.specs.declared.file_set.OpenFault.TheVariants.{Fault};

    ghost from_gives = { λ f c. c ≡ Fault f };

    fn from(fault: FileFault) -> OpenError<'w> {
        OpenError::new(fault, ErrorContext::Nothing)
    }
}

impl<'w> From<FileError<'w>> for OpenError<'w> {
    ghost use Rattle.std.specs.Prelude.{◌≡◌};
    ghost use Rattle.age_cli_files.specs.declared.file_set.OpenFault.TheVariants.{Fault};

    ghost from_gives = { λ f c. c ≡ Fault f };

    fn from(error: FileError<'w>) -> OpenError<'w> {
        OpenError::new(error.fault(), error.context())
    }
}
