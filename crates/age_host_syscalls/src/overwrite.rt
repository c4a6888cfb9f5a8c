//! Regular files that are written in place.

ghost use Rattle.std.specs.Prelude.{◌≡◌, ◌≢◌, ◌⊎◌, ◌≤◌, ◌<◌, ◌+◌, ◌^◌, ◌∷◌, ◌++◌, [], ℕ, List, length, take};
ghost use Rattle.std.specs.Prelude.{string_bytes, true, false, is_some, IfOk, OnOk, OnErr};
ghost use Rattle.std.specs.Io.{WritesAtMost};
ghost use Rattle.age_host_model.specs.declared.options.Durability.TheVariants as wait;
ghost use Rattle.age_host_model.specs.Calls.{FileCall, Indeterminate, Synced, Unsyncable, Closed, ClosesLast, Locked};
ghost use Rattle.age_host_model.specs.Calls.{Unlockable, SyncedNames, UnsyncableNames, Waited};
ghost use Rattle.age_host_model.specs.Durable.{SavesWhole, IsSafe, IsThereAs};
ghost use Rattle.age_host_model.specs.Output.{opening_of, is_making, is_waited, text_of, has_changed, IsClaimed};
ghost use Rattle.age_host_model.specs.Output.{TouchesFile};
ghost use Rattle.age_host_syscalls.specs.OverwriteState.{AlwaysHasWritten};
ghost use Rattle.age_host_paths.specs.{number_of};
ghost use Rattle.age_host_syscalls.specs.inner.Steps.{IsAtPath, StaysHeld, RemovesAt};

use crate::file::{ExpectedStat, HostFile};
use crate::machine::Machine;
use age_host_model::{Durability, OpenOutcome};
use std::io;
use std::marker::Model;

/// The number of bytes that may be written to an existing file between two checks of its length.
/// Each write to a file that opening made goes to its end, so that truncating it leaves no hole,
/// and its length is checked less often.
const CHECK_EVERY_FOUND: u64 = 1 << 24;

const CHECK_EVERY_MADE: u64 = 1 << 30;

/// A regular file that is written in place, from its beginning on, and the calls made for it.
#[derive(Drop)]
pub struct Out {
    machine: Machine,
    file: HostFile,
    // The path, at the end of all links.
    path: String,
    opening: OpenOutcome,
    // Whether this run has locked the file, or its file system has no locks.
    is_claimed: bool,
    // Whether the file may hold old bytes, beyond those that were written.
    is_stale: bool,
    written: u64,
    // The number of bytes that were written when the length was last checked.
    checked_len: u64,
    // Whether the length is the number of bytes that were written, as long as nobody else changes
    // the file. Files that the system makes up, as in /proc, have another length.
    has_length: bool,
    // The error after which the file may hold anything: a sync or the truncation has failed, or
    // another program has changed the file. The system reports a failed sync only once, so a later
    // sync proves nothing.
    indeterminate: Option<io::Error>,
}

/// The result of ending a file that was written in place.
#[derive(Drop)]
pub struct CloseOutcome {
    /// The error of the first call that failed, or `Ok`.
    pub end: io::Result<()>,
    /// The machine, with all calls that were made for the file.
    pub machine: Machine,
}

impl Model for Out {
    ghost use Rattle.std.specs.Prelude.{◌≡◌, ◌<◌, ℕ, true, string_bytes, is_some};
    ghost use Rattle.age_host_model.specs.Output.{OutView, opening_of, is_making};
    ghost use Rattle.age_host_syscalls.specs.OverwriteState.{IsOut};
    ghost use Rattle.age_host_paths.specs.{number_of};

    ghost Value = { OutView };

    ghost view = { λ o. record {
      file = record {
        path = string_bytes o.path;
        number = number_of o.file.node;
        is_made = is_making o.opening;
      };
      calls = o.machine.calls;
      failed = o.machine.failed;
      is_indeterminate = is_some o.indeterminate;
    } };

    ghost invariant = { λ o. IsOut (string_bytes o.path) (number_of o.file.node)
        (opening_of (string_bytes o.path) (number_of o.file.node) o.opening) o.is_stale (is_some o.indeterminate)
        o.is_claimed o.written (o.machine.failed) (o.machine.calls) };
}

/// Syncs a file, if `durability` asks for that.
fn sync_if_asked(machine: &mut Machine, file: &HostFile, durability: Durability) -> io::Result<()>
    ensures either { OnOk result ((machine.new.calls ≡ machine.old.calls)
        ⊎ Waited (Synced (number_of file.now.node)) (Unsyncable (number_of file.now.node)) (machine.old.calls)
        (machine.new.calls)) }
    ensures synced { OnOk result (durability ≡ wait.Synced
        → Waited (Synced (number_of file.now.node)) (Unsyncable (number_of file.now.node))
        (machine.old.calls) (machine.new.calls)) }
    ensures broken { OnErr result
        (machine.new.calls ≡ Indeterminate (number_of file.now.node) ∷ machine.old.calls) }
    ensures counted { machine.old.failed ≤ machine.new.failed }
    ensures caused { OnErr result (machine.old.failed < machine.new.failed) }
{
    match durability {
        Durability::Synced => machine.sync(file),
        Durability::Buffered => Ok(()),
    }
}

/// Syncs the folder of a path, if `durability` asks for that.
fn sync_dir(machine: &mut Machine, path: &str, durability: Durability) -> io::Result<()>
    ensures ok { OnOk result (durability ≡ wait.Synced → Waited (SyncedNames path.now)
        (UnsyncableNames path.now) (machine.old.calls) (machine.new.calls)) }
    ensures either { (machine.new.calls ≡ machine.old.calls) ⊎ Waited (SyncedNames path.now)
        (UnsyncableNames path.now) (machine.old.calls) (machine.new.calls) }
    ensures counted { machine.old.failed ≤ machine.new.failed }
    ensures caused { OnErr result (machine.old.failed < machine.new.failed) }
{
    match durability {
        Durability::Synced => machine.sync_names(path),
        Durability::Buffered => Ok(()),
    }
}

/// Truncates a file to the bytes that were written, if old ones may follow them.
fn truncate_stale_tail(
    machine: &mut Machine,
    file: &HostFile,
    is_stale: bool,
    written: u64,
) -> io::Result<()>
    ensures held { (path : List ℕ) (opening : FileCall)
        → length (text_of (machine.old.calls)) ≤ written → StaysHeld path (number_of file.now.node)
        opening (machine.old.calls) (machine.new.calls) }
    ensures cut { OnOk result ((path text : List ℕ) → length text ≡ written
        → AlwaysHasWritten path (number_of file.now.node) is_stale text (machine.old.calls)
        → AlwaysHasWritten path (number_of file.now.node) false text (machine.new.calls)) }
    ensures text { text_of (machine.new.calls) ≡ text_of (machine.old.calls) }
    ensures counted { OnOk result (machine.new.failed ≡ machine.old.failed) }
    ensures caused { OnErr result (machine.old.failed < machine.new.failed) }
{
    if !is_stale {
        return Ok(());
    }
    machine.truncate(file, written)
}

/// Truncates a file to what was written, syncs it if `durability` asks for that, and checks its
/// length and name. Fails with the error in `indeterminate`, if there is one, before any of that.
fn finish(
    machine: &mut Machine,
    file: &HostFile,
    is_stale: bool,
    indeterminate: Option<io::Error>,
    shape: &ExpectedStat,
    durability: Durability,
) -> io::Result<()>
    ensures held { (path : List ℕ) (opening : FileCall)
        → length (text_of (machine.old.calls)) ≤ shape.now.len → StaysHeld path
        (number_of file.now.node) opening (machine.old.calls) (machine.new.calls) }
    ensures finished { OnOk result (durability ≡ wait.Synced → (path text : List ℕ)
        → length text ≡ shape.now.len
        → AlwaysHasWritten path (number_of file.now.node) is_stale text (machine.old.calls)
        → IsAtPath path (number_of file.now.node) text (machine.new.calls)) }
    ensures begun { OnOk result ((path text : List ℕ) → length text ≡ shape.now.len
        → AlwaysHasWritten path (number_of file.now.node) is_stale text (machine.old.calls)
        → AlwaysHasWritten path (number_of file.now.node) false text (machine.new.calls)) }
    ensures sure { OnOk result (is_some indeterminate ≡ false) }
    ensures counted { machine.old.failed ≤ machine.new.failed }
    ensures caused { OnErr result ((is_some indeterminate ≡ true)
        ⊎ (machine.old.failed < machine.new.failed)) }
{
    if let Some(error) = indeterminate {
        return Err(error);
    }
    truncate_stale_tail(machine, file, is_stale, shape.len)?;
    sync_if_asked(machine, file, durability)?;
    machine.verify_unchanged(file, shape)
}

/// Syncs the folder of a file, if `durability` asks for that. If opening didn't make the file, does
/// so only if the path is known to lead to it and the folder can be read.
fn sync_dir_entry(
    machine: &mut Machine,
    path: &str,
    opening: OpenOutcome,
    durability: Durability,
) -> io::Result<()>
    ensures ok { OnOk result (durability ≡ wait.Synced → is_waited opening ≡ true
        → Waited (SyncedNames path.now) (UnsyncableNames path.now) (machine.old.calls)
        (machine.new.calls)) }
    ensures either { (machine.new.calls ≡ machine.old.calls) ⊎ Waited (SyncedNames path.now)
        (UnsyncableNames path.now) (machine.old.calls) (machine.new.calls) }
    ensures counted { machine.old.failed ≤ machine.new.failed }
    ensures caused { OnErr result (machine.old.failed < machine.new.failed) }
{
    match opening {
        OpenOutcome::New => sync_dir(machine, path, durability),
        OpenOutcome::Found { is_waited, .. } => match durability {
            Durability::Synced if is_waited => machine.sync_readable_names(path),
            _ => Ok(()),
        },
    }
}

/// Closes a file, and syncs its folder if `durability` asks for that.
fn close_and_sync_name(
    machine: &mut Machine,
    file: &HostFile,
    path: &str,
    opening: OpenOutcome,
    durability: Durability,
) -> io::Result<()>
    ensures held { (opened : FileCall) → StaysHeld path.now (number_of file.now.node) opened
        (machine.old.calls) (machine.new.calls) }
    ensures named { OnOk result (durability ≡ wait.Synced → is_waited opening ≡ true
        → Waited (SyncedNames path.now) (UnsyncableNames path.now)
        (Closed (number_of file.now.node) ∷ machine.old.calls) (machine.new.calls)) }
    ensures closed { OnOk result (ClosesLast (number_of file.now.node) (machine.new.calls)) }
    ensures begun { OnOk result ((text : List ℕ)
        → AlwaysHasWritten path.now (number_of file.now.node) false text (machine.old.calls)
        → AlwaysHasWritten path.now (number_of file.now.node) false text (machine.new.calls)) }
    ensures counted { machine.old.failed ≤ machine.new.failed }
    ensures caused { OnErr result (machine.old.failed < machine.new.failed) }
{
    machine.close(file)?;
    sync_dir_entry(machine, path, opening, durability)
}

/// Removes a file that opening made, if no other run has locked it and it is still empty.
fn remove_if_empty(
    machine: &mut Machine,
    file: &HostFile,
    path: &str,
    opening: OpenOutcome,
    durability: Durability,
)
    ensures removed { RemovesAt path.now (machine.old.calls) (machine.new.calls) }
    ensures there { is_making opening ≡ false → machine.new.calls ≡ machine.old.calls }
{
    if !opening.is_made() || !is_as_long(machine, file, 0) || !machine.try_lock(file) {
        return;
    }
    machine.remove(file, path);
    let _ = sync_dir(machine, path, durability);
}

/// Returns the number of bytes that may be written between two checks of a file's length.
fn check_interval(opening: OpenOutcome) -> u64 {
    if opening.is_made() {
        CHECK_EVERY_MADE
    } else {
        CHECK_EVERY_FOUND
    }
}

/// Returns whether a file has `len` bytes, or `false` if it can't be looked at.
fn is_as_long(machine: &Machine, file: &HostFile, len: u64) -> bool {
    matches!(machine.fstat(file), Ok(now) if now.len == len)
}

impl Out {
    /// Creates an output of a file that was opened for writing. What is written replaces what it
    /// holds.
    pub fn new(machine: Machine, file: HostFile, path: String, opening: OpenOutcome) -> Out
        requires unfailed { machine.failed ≡ 0 }
        requires opened { machine.calls
            ≡ opening_of (string_bytes path) (number_of file.node) opening ∷ [] }
        ensures { result ≡ record {
          file = record {
            path = string_bytes path;
            number = number_of file.node;
            is_made = is_making opening;
          };
          calls = machine.calls;
          failed = 0;
          is_indeterminate = false;
        } }
    {
        Out {
            machine,
            file,
            path,
            opening,
            is_claimed: false,
            is_stale: !opening.is_made(),
            written: 0,
            checked_len: 0,
            has_length: true,
            indeterminate: None,
        }
    }

    /// Returns the path at the end of all links, the file, and whether opening made it.
    pub fn file_identity(&self) -> (&str, &HostFile, bool)
        ensures path { result.0.now ≡ self.now.file.path }
        ensures number { number_of result.1.now.node ≡ self.now.file.number }
        ensures made { result.2 ≡ self.now.file.is_made }
    {
        (self.path.as_str(), &self.file, self.opening.is_made())
    }

    /// Returns the path, at the end of all links.
    pub fn path(&self) -> &str
        ensures { result.now ≡ self.now.file.path }
    {
        self.path.as_str()
    }

    /// Returns the open file.
    pub fn file(&self) -> &HostFile
        ensures { number_of result.now.node ≡ self.now.file.number }
    {
        &self.file
    }

    /// Locks the file for this run until it is ended. Fails if another run has the lock. Succeeds
    /// if the file system has no locks: then every run may write to the file.
    pub fn claim(&mut self) -> io::Result<()>
        ensures same { (self.new.file ≡ self.old.file) × (self.new.is_indeterminate ≡ self.old.is_indeterminate)
            × (text_of self.new.calls ≡ text_of self.old.calls) }
        ensures calls { (self.new.calls ≡ self.old.calls) ⊎ Waited (Locked self.old.file.number)
            (Unlockable self.old.file.number) self.old.calls self.new.calls }
        ensures claimed { OnOk result (IsClaimed self.new.file.number self.new.calls) }
        ensures again { IsClaimed self.old.file.number self.old.calls → self.new ≡ self.old }
        ensures counted { OnOk result (self.new.failed ≡ self.old.failed) }
        ensures err { OnErr result ((self.new.calls ≡ self.old.calls)
            × (self.old.failed < self.new.failed)) }
    {
        if self.is_claimed {
            return Ok(());
        }
        let locked = self.machine.lock(&self.file);
        self.is_claimed = locked.is_ok();
        locked
    }

    /// Returns the length that the file should have now, and whether it should have a name.
    fn shape(&self, may_be_longer: bool) -> ExpectedStat
        ensures { result.len ≡ length (text_of self.now.calls) }
    {
        ExpectedStat {
            len: self.written,
            may_be_longer,
            has_length: self.has_length,
            is_named: self.opening.is_named(),
        }
    }

    /// Checks, when it is due, that no other program has truncated or removed the file. Fails if
    /// one has, or if an earlier call left the file unknown. The file may be longer than what was
    /// written, since another program may append to it: that is noticed when it is ended.
    fn verify_if_due(&mut self) -> io::Result<()>
        ensures same { (self.new.file ≡ self.old.file) × (self.new.calls ≡ self.old.calls) }
        ensures sound { OnOk result ((self.new.failed ≡ self.old.failed)
            × (self.new.is_indeterminate ≡ self.old.is_indeterminate)) }
        ensures caused { OnErr result ((self.old.is_indeterminate ≡ true)
            ⊎ (self.old.failed < self.new.failed)) }
        ensures counted { self.old.failed ≤ self.new.failed }
    {
        if let Some(error) = self.indeterminate {
            return Err(error);
        }
        let most = check_interval(self.opening);
        if self.written.saturating_sub(self.checked_len) < most {
            return Ok(());
        }
        self.checked_len = self.written;
        let shape = self.shape(true);
        match self.machine.verify_unchanged(&self.file, &shape) {
            Ok(()) => Ok(()),
            Err(error) => {
                self.indeterminate = Some(error);
                Err(error)
            }
        }
    }

    /// Truncates the file after the first write, and not before, so that a first write that fails
    /// changes nothing. If it can't be truncated, the bytes count as written, and the next call
    /// fails.
    fn truncate_after_first_write(&mut self, is_first: bool)
        requires { 0 < length (text_of self.old.calls) }
        ensures file { self.new.file ≡ self.old.file }
        ensures text { text_of self.new.calls ≡ text_of self.old.calls }
        ensures sound { self.new.is_indeterminate ≡ false → (self.new.failed ≡ self.old.failed)
            × (self.old.is_indeterminate ≡ false) }
        ensures counted { self.old.failed ≤ self.new.failed }
    {
        if !is_first {
            return;
        }
        match truncate_stale_tail(&mut self.machine, &self.file, self.is_stale, self.written) {
            Ok(()) => {
                self.is_stale = false;
                self.has_length = is_as_long(&self.machine, &self.file, self.written);
            }
            Err(error) => self.indeterminate = Some(error),
        }
    }

    /// Writes some bytes after those that were written, and returns their number. Locks the file
    /// before the first write.
    fn write(&mut self, from: &[u8]) -> io::Result<usize>
        requires { 0 < length from.now }
        ensures bound { IfOk result (λ n. (n ≤ length from.now) × (0 < n)) }
        ensures file { self.new.file ≡ self.old.file }
        ensures taken { IfOk result (λ n. text_of self.new.calls
            ≡ text_of self.old.calls ++ take n from.now) }
        ensures kept { OnErr result (text_of self.new.calls ≡ text_of self.old.calls) }
        ensures sound { OnOk result (self.new.is_indeterminate ≡ false
            → (self.new.failed ≡ self.old.failed) × (self.old.is_indeterminate ≡ false)) }
        ensures caused { OnErr result ((self.old.failed < self.new.failed)
            ⊎ (2 ^ 64 ≤ length (text_of self.old.calls) + length from.now)) }
        ensures counted { self.old.failed ≤ self.new.failed }
    {
        if from.len() as u64 > u64::MAX - self.written {
            return Err(io::Error::from(io::ErrorKind::FileTooLarge));
        }
        self.claim()?;
        let n = self.machine.write(&self.file, self.written, from)?;
        let is_first = self.written == 0;
        self.written += n as u64;
        self.truncate_after_first_write(is_first);
        Ok(n)
    }

    /// Writes some bytes, and returns their number: at least 1, unless there are none.
    pub fn put(&mut self, from: &[u8]) -> io::Result<usize>
        ensures bound { WritesAtMost result from.now }
        ensures some { IfOk result (λ n. 0 < length from.now → 0 < n) }
        ensures file { self.new.file ≡ self.old.file }
        ensures taken { IfOk result (λ n. text_of self.new.calls
            ≡ text_of self.old.calls ++ take n from.now) }
        ensures kept { OnErr result (text_of self.new.calls ≡ text_of self.old.calls) }
        ensures sound { OnOk result (self.new.is_indeterminate ≡ false
            → (self.new.failed ≡ self.old.failed) × (self.old.is_indeterminate ≡ false)) }
        ensures caused { OnErr result ((self.old.is_indeterminate ≡ true)
            ⊎ ((self.old.failed < self.new.failed)
            ⊎ (2 ^ 64 ≤ length (text_of self.old.calls) + length from.now))) }
    {
        if from.is_empty() {
            return Ok(0);
        }
        self.verify_if_due()?;
        self.write(from)
    }

    /// Syncs what was written, if anything was. Once a sync has failed, each later one fails. After
    /// a truncation that failed, what was written before it can still be synced.
    pub fn sync_written(&mut self) -> io::Result<()>
        ensures file { self.new.file ≡ self.old.file }
        ensures still { text_of self.old.calls ≡ [] → self.new ≡ self.old }
        ensures waits { OnOk result (text_of self.old.calls ≢ [] → Waited (Synced self.old.file.number)
            (Unsyncable self.old.file.number) self.old.calls self.new.calls) }
        ensures text { text_of self.new.calls ≡ text_of self.old.calls }
        ensures sound { self.new.is_indeterminate ≡ false → (self.new.failed ≡ self.old.failed)
            × (self.old.is_indeterminate ≡ false) }
        ensures caused { OnErr result ((self.old.is_indeterminate ≡ true)
            ⊎ (self.old.failed < self.new.failed)) }
    {
        if self.written == 0 {
            return Ok(());
        }
        if let Some(error) = self.indeterminate
            && !self.is_stale
        {
            return Err(error);
        }
        match self.machine.sync(&self.file) {
            Ok(()) => Ok(()),
            Err(error) => {
                self.indeterminate = Some(error);
                Err(error)
            }
        }
    }

    /// Returns how many of the written bytes the file can hold, by its length. Returns 0 if it was
    /// removed or can't be looked at, and `u64::MAX` if its length doesn't show what was written.
    pub fn room(&self) -> u64 {
        match self.machine.fstat(&self.file) {
            Ok(_) if !self.has_length => u64::MAX,
            Ok(now) if self.opening.is_named() && !now.is_named => 0,
            Ok(now) => now.len,
            Err(_) => 0,
        }
    }

    /// Returns whether the file is unchanged, or still empty if opening made it.
    pub fn is_untouched(&self) -> bool {
        if self.is_stale {
            self.written == 0
        } else {
            is_as_long(&self.machine, &self.file, 0)
        }
    }

    /// Ends the output with exactly what was written: truncates the file, syncs it if `durability`
    /// asks for that, and closes it in any case. If nothing was written, locks the file first, and
    /// leaves it unchanged if another run has the lock.
    pub fn end(mut self, durability: Durability) -> CloseOutcome
        ensures safe { durability ≡ wait.Synced → self.failed ≡ 0 → OnOk result.end
            (IsSafe self.file.path (text_of self.calls) (result.machine.calls)) }
        ensures there { self.failed ≡ 0 → OnOk result.end (IsThereAs self.file.path self.file.number
            (text_of self.calls) (result.machine.calls)) }
        ensures sure { OnOk result.end (self.is_indeterminate ≡ false) }
        ensures closed { OnOk result.end (ClosesLast self.file.number (result.machine.calls)) }
        ensures within { TouchesFile self.file (result.machine.calls) }
        ensures caused { OnErr result.end ((self.is_indeterminate ≡ true)
            ⊎ (self.failed < result.machine.failed)) }
        ensures failing { OnErr result.end (0 < result.machine.failed) }
    {
        let claimed = self.claim();
        let shape = self.shape(false);
        let Out {
            mut machine,
            file,
            path,
            opening,
            is_stale,
            indeterminate,
            ..
        } = self;
        if let Err(error) = claimed {
            return CloseOutcome {
                end: Err(error),
                machine,
            };
        }
        let finished = finish(
            &mut machine,
            &file,
            is_stale,
            indeterminate,
            &shape,
            durability,
        );
        let closed = close_and_sync_name(&mut machine, &file, path.as_str(), opening, durability);
        match finished {
            Ok(()) => CloseOutcome {
                end: closed,
                machine,
            },
            Err(error) => CloseOutcome {
                end: Err(error),
                machine,
            },
        }
    }

    /// Ends the output with the file unchanged, if nothing was written. Removes a file that opening
    /// made, if no other run has locked it and it is still empty.
    pub fn discard(self, durability: Durability) -> Machine
        ensures kept { self.failed ≡ 0 → text_of self.calls ≡ []
            → SavesWhole self.file.path [] [] (result.calls) }
        ensures there { self.file.is_made ≡ false → result.calls ≡ self.calls }
        ensures untouched { self.file.is_made ≡ false → text_of self.calls ≡ []
            → has_changed (result.calls) ≡ false }
        ensures within { TouchesFile self.file (result.calls) }
    {
        let Out {
            mut machine,
            file,
            path,
            opening,
            ..
        } = self;
        remove_if_empty(&mut machine, &file, path.as_str(), opening, durability);
        machine
    }
}
