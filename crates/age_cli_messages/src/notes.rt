//! Notes on what may surprise in the files of a run, and is no error.

use crate::typeable::TypeableScan;
use age_host_model::ErrorContext;

/// Notes on what may surprise in the files of a run, and is no error. The set of files returns them
/// at the end.
#[derive(Clone, Copy)]
pub struct Notes<'w> {
    /// The file to which a position was saved.
    pub saved: Option<&'w str>,
    /// The file that became shorter while it was read.
    pub cut_off: Option<&'w str>,
    /// The file that was written, if its name leads to another file now, or to none.
    pub moved: Option<&'w str>,
    /// The file that was written, if its file system can't sync.
    pub unwaited: Option<&'w str>,
    /// The number of bytes read of the file whose reading ended last, or why a read failed.
    pub last_read: ErrorContext<'w>,
    /// The check whether the passphrase can be typed.
    pub typing: TypeableScan,
}

impl<'w> Notes<'w> {
    /// Returns no notes.
    pub fn new() -> Notes<'w> {
        Notes {
            saved: None,
            cut_off: None,
            moved: None,
            unwaited: None,
            last_read: ErrorContext::Nothing,
            typing: TypeableScan::new(),
        }
    }
}
