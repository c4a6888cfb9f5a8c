//! The style of lines of progress.

/// The style of lines of progress: how one follows another.
#[derive(Clone, Copy)]
pub enum LineStyle {
    /// Each line is written over the one before it, as on a terminal.
    Rewritten,
    /// Each line stands by itself, as in a log, and there are few of them.
    Separate,
}
