//! A set of files by their names.

ghost use Rattle.std.specs.Prelude.{◌≡◌, ◌↔◌, ℕ, [], ◌∷◌, Option, IfOk, IfErr, IfSome, Some, ◌≤◌, ◌++◌};
ghost use Rattle.std.specs.Prelude.{length, IsSomeAnd, IsOkUnless, true};
ghost use Rattle.age_cli_files.specs.FileSet.{Does, FilesView, IsMemoryOr, OpenFails, Gave, Settled, reading_of, opened_as};
ghost use Rattle.age_cli_files.specs.FileSet.{made_as, put_as, looked_as, with_outcomes};
ghost use Rattle.age_host_model.specs.{Closes, Discards, OutFile};

use crate::error::{FileError, OpenError};
use age_fault::FileFault;
use age_host_model::{ClobberOption, Durability, ErrorContext};
use age_io::{Sink, Source};
use std::alloc::Global;

/// The reason why a file could not be opened, prepared or created.
#[derive(Clone, Copy, PartialEq, Eq)]
pub enum OpenFault {
    /// The file was opened, prepared or created before, under whatever name, and can't be used
    /// twice.
    SameFile,
    /// The file can't be read (26) or written (27), or memory ran out (28).
    Fault(FileFault),
}

/// The treatment of a name that has no file.
#[derive(Clone, Copy, PartialEq, Eq)]
pub enum IfMissing {
    /// Opening the name fails with `Read` (26).
    Fails,
    /// The name is read as an empty file.
    Empty,
}

/// The purpose of a file that is opened, by which a set may tell people what goes on.
#[derive(Clone, Copy)]
pub enum Purpose {
    /// The file holds a passphrase.
    Passphrase,
    /// The file is an earlier output, which is copied before the input is read on. People want to
    /// see how far the copy is.
    ShownCopy,
    /// The file has any other purpose.
    Input,
}

/// A set of files by their names, such as those of a system or files in memory.
///
/// A name is opaque: only the set interprets it, and may keep it for as long as `'w`. A set notes
/// for contracts, in order, what was to be done and what came of it. An implementation has to keep
/// more than its contracts say:
/// - `create` doesn't change an existing file. Its bytes are replaced by the first put that takes
///   some, or by `close`; from then on others may see them. It makes no file either: the first put
///   of some bytes does, or the flush, and fails if that can't be done;
/// - a sink that is dropped without `close` or `discard` may leave the file with some of the bytes
///   that it took, with none, or unchanged;
/// - a stream gives each of its bytes once, so it isn't opened twice for reading, whatever its
///   names. `check_streams` refuses two names of one stream before the first is opened; or else
///   `open` refuses the second, before it opens what could wait forever;
/// - two names that are one file are refused as such, by `is_same` before the second is opened, or
///   else by `prepare` and `create`; and `replace` writes over none that was opened or created;
/// - it says that names lead to one file or stream, or that a file is in use, only if that is so.
pub trait FileSet<'w> {
    /// A file that is read. Its label is the name under which it was opened.
    type In: Source + Drop;

    /// A file that is written. Its label is the name under which it was created.
    type Out: Sink;

    // A set as contracts see it: what was done, and what came of it.
    ghost view: { Self → FilesView };

    // The number of bytes that a file that is read has to give, if the set can say.
    ghost size: { Self.In → Option ℕ };

    // The regular file behind a file that is written, if there is one on a disk.
    ghost file: { Self.Out → Option OutFile };

    /// Returns whether two names stand for one file. Equal names do.
    fn is_same(&mut self, one: &'w str, other: &'w str) -> bool
        ensures same { view self.new ≡ view self.old };

    /// Fails with [`SameFile`](OpenFault::SameFile) if two of the names stand for one stream: a
    /// pipe, a socket or a terminal, or standard input, whatever it is. A stream gives each of its
    /// bytes once. Fails with `Memory` (28) too. Opens nothing.
    fn check_streams(
        &mut self,
        alloc: Global,
        names: &[Option<&'w str>],
    ) -> Result<(), OpenError<'w>>
        ensures same { view self.new ≡ view self.old }
        ensures faults { IfErr result (OpenFails FileFault.Memory) };

    /// Opens a file for reading. Fails with `Read` (26) if it can't be opened, or if it doesn't
    /// exist and `missing` says so; with `Memory` (28); and with [`SameFile`](OpenFault::SameFile)
    /// if it is a stream that was opened before.
    fn open(
        &mut self,
        alloc: Global,
        name: &'w str,
        missing: IfMissing,
        purpose: Purpose,
    ) -> Result<Self::In, OpenError<'w>>
        ensures noted { view self.new
            ≡ with_outcomes (opened_as (Self.In.view) size missing name.now result) (view self.old) }
        ensures begun { IfOk result (λ s. (Self.In.view s).supply.given ≡ []) }
        ensures named { IfOk result (λ s. (Self.In.view s).label ≡ name.now) }
        ensures faults { IfErr result (OpenFails FileFault.Read) };

    /// Returns how many bytes an opened file still has to give, or `None` if the set can't say, as
    /// for a pipe or a terminal.
    fn length(&self, source: &Self::In) -> Option<u64>
        ensures noted { result ≡ size source.now }
        ensures seen { IfSome (Self.In.view source.now).supply.left
            (λ bytes. result ≡ Some (length bytes)) };

    /// Ends the reading of an opened file. Returns how much it gave, or why a read has failed.
    /// Contracts see from now on what it gave, which they don't for a source that is dropped.
    fn close_input(&mut self, source: Self::In) -> ErrorContext<'w>
        ensures over { view self.new
            ≡ with_outcomes (Gave (reading_of (Self.In.view source)) ∷ []) (view self.old) }
        ensures does { Does (view self.old) (view self.new) };

    /// Checks that a file can be replaced later, once the files to be read are open, and may make a
    /// temporary file beside it. That file is on the disk then, if `durability` asks for it. Fails
    /// with `Write` (27) if the file can't be replaced, and with `Memory` (28).
    ///
    /// Fails with [`SameFile`](OpenFault::SameFile) if the file was opened or created before,
    /// unless it is that of `spared`, or if one of the `others` is at the path of the temporary
    /// file, whether it exists or not. If `clobber` refuses existing files, fails with `Write` (27)
    /// for one that holds something, unless it is that of `spared`. From now on `create` refuses
    /// the prepared file.
    fn prepare(
        &mut self,
        alloc: Global,
        name: &'w str,
        spared: Option<&'w str>,
        others: &[Option<&'w str>],
        clobber: ClobberOption,
        durability: Durability,
    ) -> Result<(), OpenError<'w>>
        ensures same { view self.new ≡ view self.old }
        ensures faults { IfErr result (OpenFails FileFault.Write) };

    /// Opens a file to be written, which need not exist yet. Fails with `Write` (27) if it can't be
    /// opened, or if it can be seen that no file can be made there; with `Memory` (28); and with
    /// [`SameFile`](OpenFault::SameFile) if it was opened, prepared or created before. If
    /// `durability` asks for a sync, the file is synced while it is written too, so that `close`
    /// needn't wait long.
    ///
    /// If `clobber` refuses existing files, fails with `Write` (27) for one, also for one that
    /// exists by the time the file is made. It is left unchanged, and no link is followed.
    fn create(
        &mut self,
        alloc: Global,
        name: &'w str,
        clobber: ClobberOption,
        durability: Durability,
    ) -> Result<Self::Out, OpenError<'w>>
        ensures noted { view self.new ≡ with_outcomes (made_as clobber name.now result) (view self.old) }
        ensures begun { IfOk result (λ o. ((Self.Out.view o).taken.bytes ≡ [])
            × ((Self.Out.view o).failed ≡ 0)) }
        ensures named { IfOk result (λ o. (Self.Out.view o).taken.label ≡ name.now) }
        ensures faults { IfErr result (OpenFails FileFault.Write) };

    /// Fails with `Write` (27) if anything has the name, even a link, as `create` does if existing
    /// files are refused. Changes nothing. It is called before work that takes long; by the end of
    /// that, something may have the name.
    fn check_absent(&mut self, name: &'w str) -> Result<(), OpenError<'w>>
        ensures same { view self.new ≡ view self.old }
        ensures faults { IfErr result (OpenFails FileFault.Write) };

    /// Returns whether nothing has the name, not even a link. Returns `false` if that can't be
    /// looked at.
    fn is_absent(&mut self, name: &'w str) -> bool
        ensures { view self.new ≡ with_outcomes (looked_as name.now result) (view self.old) };

    /// Returns whether a created file is that of standard error, to which the lines of progress and
    /// of faults go.
    fn is_for_faults(&mut self, out: &Self::Out) -> bool
        ensures same { view self.new ≡ view self.old };

    /// Returns whether a created file is a terminal. No regular file of a disk is one.
    fn is_terminal(&mut self, out: &Self::Out) -> bool
        ensures same { view self.new ≡ view self.old };

    /// Returns whether a created file has taken no byte so far.
    fn is_empty(&self, out: &Self::Out) -> bool
        ensures { result ≡ true ↔ ((Self.Out.view out.now).taken.bytes ≡ []) };

    /// Returns why a put or a flush of a created file has failed, if one has.
    fn reason(&self, out: &Self::Out) -> ErrorContext<'w>;

    /// Returns how many of the bytes that a sink took its file certainly holds: on the disk, if
    /// `durability` asks for that and the file system can sync. Waits for the sync. Never more than
    /// the sink took.
    fn durable_len(&mut self, out: &mut Self::Out, durability: Durability) -> u64
        ensures noted { view self.new ≡ with_outcomes
            (Settled durability (Self.Out.view out.old).taken.bytes result ∷ []) (view self.old) }
        ensures same { Self.Out.view out.new ≡ Self.Out.view out.old }
        ensures most { result ≤ length (Self.Out.view out.old).taken.bytes };

    /// Returns how many bytes a file certainly holds, like [`durable_len`](FileSet::durable_len), but
    /// without waiting, by what earlier syncs have shown. Leaves a failure for `close` to report.
    fn known_durable_len(&mut self, out: &Self::Out, durability: Durability) -> u64
        ensures noted { view self.new ≡ with_outcomes
            (Settled durability (Self.Out.view out.now).taken.bytes result ∷ []) (view self.old) }
        ensures most { result ≤ length (Self.Out.view out.now).taken.bytes };

    /// Ends a created file with exactly the bytes that its sink took, in place of what it held, and
    /// syncs it if `durability` asks for that and the file system can. Fails with `Write` (27); the
    /// file is then as the calls that succeeded left it.
    fn close(&mut self, out: Self::Out, durability: Durability) -> Result<(), FileError<'w>>
        ensures noted { (view self.new).outcomes ≡ (view self.old).outcomes
            ++ put_as (Self.Out.view out).taken.label (Self.Out.view out).taken.bytes result }
        ensures closed { IsSomeAnd (view self.new).ended
            (Closes durability (file out) (Self.Out.view out) result) }
        ensures faults { IsOkUnless result FileFault.Write };

    /// Ends a created file into which nothing was put, and leaves it unchanged. If a put that
    /// failed has made the file, removes it, if that is possible, also on the disk if `durability`
    /// asks for that.
    fn discard(&mut self, out: Self::Out, durability: Durability)
        requires none { (Self.Out.view out).taken.bytes ≡ [] }
        ensures noted { (view self.new).outcomes ≡ (view self.old).outcomes }
        ensures discarded { IsSomeAnd (view self.new).ended
            (Discards (file out) (Self.Out.view out)) };

    /// Makes a file of these bytes, and syncs it as `close` does. An existing file is replaced
    /// atomically, if its folder lets a temporary file be made beside it; otherwise it is written
    /// in place. Fails with `Write` (27) and with `Memory` (28); a file that is written in place
    /// may hold a part of the bytes then.
    fn replace(
        &mut self,
        alloc: Global,
        name: &'w str,
        bytes: &[u8],
        durability: Durability,
    ) -> Result<(), FileError<'w>>
        ensures noted { view self.new ≡ with_outcomes (put_as name.now bytes.now result) (view self.old) }
        ensures faults { IfErr result (IsMemoryOr FileFault.Write) };
}
