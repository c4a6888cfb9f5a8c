//! The result of opening an output, and the kind of its file.

ghost use Rattle.std.specs.Prelude.{◌≡◌};
ghost use Rattle.age_host_model.specs.Output.{is_making};

/// The kind of an opened file.
#[derive(Clone, Copy)]
pub enum FileKind {
    /// A regular file. The flag says whether it had a name when it was opened.
    Regular(bool),
    /// A device, a pipe or anything else that isn't a regular file.
    Device,
}

/// The result of opening an output: a new file, or an existing one.
#[derive(Clone, Copy)]
pub enum OpenOutcome {
    /// Opening made the file.
    New,
    /// The file existed.
    Found {
        /// True if the file had a name when it was opened.
        is_named: bool,
        /// True if the path is known to lead to the file, so that the sync of the output includes
        /// its folder.
        is_waited: bool,
    },
}

impl OpenOutcome {
    /// Returns whether opening made the file.
    pub fn is_made(self) -> bool
        ensures { result ≡ is_making self }
    {
        matches!(self, OpenOutcome::New)
    }

    /// Returns whether the file had a name when it was opened or made.
    pub fn is_named(self) -> bool {
        match self {
            OpenOutcome::New => true,
            OpenOutcome::Found { is_named, .. } => is_named,
        }
    }
}
