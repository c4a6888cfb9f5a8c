//! A law about a run of the program: a function that does nothing.

ghost use Rattle.age_cli_memory.specs.{RunsOverMemory};

use crate::files::MemFiles;

/// States what [`run_words`](age_cli::run_words) leaves of files in memory, as they stand before it
/// and when it returns. Only OUT and the file of `--save` differ, after status 0 OUT alone, and
/// none after status 2.
///
/// After status 0 of `inspect FILE`, the report is on what FILE held. Of `encrypt`, OUT is the age
/// file of all that IN held, for what the files of `--pass` and `--random` held. Of `decrypt`,
/// whoever wrote IN, it held the age file of OUT, which the options open. Of `resume`, the earlier
/// output held the chunks of OUT before the position, and IN the rest.
pub fn runs_keep_files(before: &MemFiles, after: &MemFiles)
    ensures { RunsOverMemory before.now after.now }
{
    before.is_kept();
    after.is_kept();
}
