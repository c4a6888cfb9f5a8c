//! Options of files that are written (when they are synced, and whether they may replace others),
//! and the context of a failure.

/// The time at which a written file reaches the disk.
#[derive(Clone, Copy, PartialEq, Eq)]
pub enum Durability {
    /// The file is synced before the call that closes it returns, so a power failure undoes none of
    /// it.
    Synced,
    /// The system writes the file to the disk when it likes, some seconds later.
    Buffered,
}

/// The treatment of an existing file.
#[derive(Clone, Copy, PartialEq, Eq)]
pub enum ClobberOption {
    /// An existing file is overwritten.
    Allowed,
    /// An existing file is refused, and stays unchanged.
    Refused,
}
