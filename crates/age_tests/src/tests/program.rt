ghost use Rattle.std.specs.Prelude.{None};
ghost use Rattle.age_cli_memory.specs.{seen_in, size_in};

use age_cli::{
    ClobberOption, Durability, ErrorContext, FileError, FileSet, IfMissing, Meter, OpenError,
    Purpose, run,
};
use age_cli_memory::{MemFiles, MemIn, MemOut};
use age_cli_messages::{LineStyle, ProgressLine};
use age_memory::{MemSink, MemSource};
use std::alloc::Global;
use std::cell::Cell;
use std::io;
use std::process::Abort;
use std::test::Fail;
use std::time::{Clock, Duration};

const MIB: u64 = 1 << 20;

const GIB: u64 = 1 << 30;

/// A clock that advances by so many milliseconds at each look.
#[derive(Drop)]
struct FakeClock {
    now: Cell<u64>,
    step: u64,
}

impl FakeClock {
    fn by(step: u64) -> FakeClock {
        FakeClock {
            now: Cell::new(0),
            step,
        }
    }
}

impl Clock for FakeClock {
    fn monotonic(&self) -> io::Result<Duration> {
        let now = self.now.get();
        self.now.set(now.saturating_add(self.step));
        Ok(Duration::from_millis(now))
    }

    fn since_1970(&self) -> io::Result<Duration> {
        self.monotonic()
    }
}

/// Runs that are shown one after another: the length of each, and the bytes that it counts.
type Runs<'a> = &'a [(Option<u64>, &'a [u64])];

/// A table of runs: the runs, how far the clock advances at each look, the style, and what they
/// show.
const ROWS: &[(Runs<'static>, u64, LineStyle, &str)] = &[
    // Each percentage comes once.
    (
        &[(Some(512), &[0, 5, 1, 250, 256, 0])],
        0,
        LineStyle::Rewritten,
        "  0% of 512 B                     \r  1% of 512 B                     \r \
         50% of 512 B                     \r100% of 512 B                     \r\n",
    ),
    // In a log, each tenth comes once at most.
    (
        &[(Some(512), &[0, 5, 1, 250, 256, 0])],
        600,
        LineStyle::Separate,
        "  0%  0 of 512 B\n 50%  256 of 512 B\n100%  512 of 512 B\n",
    ),
    // 37 hundredths of 80 GiB are 29.6 GiB.
    (
        &[(Some(80 * GIB), &[30_311 * MIB, 50 * GIB])],
        0,
        LineStyle::Rewritten,
        " 37% of 80.0 GiB                     \r 99% of 80.0 GiB                     \r\n",
    ),
    // A second has passed after the second look: 50 MiB in 1.2 s.
    (
        &[(Some(100 * MIB), &[25 * MIB, 25 * MIB])],
        600,
        LineStyle::Rewritten,
        " 25% of 100.0 MiB                     \r 50% of 100.0 MiB  41 MiB/s  0:00:01  \r\n",
    ),
    // 1 TiB in an hour, and nine hours for the rest.
    (
        &[(Some(10_240 * GIB), &[1_024 * GIB])],
        3_600_000,
        LineStyle::Rewritten,
        " 10% of 10.0 TiB  291 MiB/s  9:00:00 \r\n",
    ),
    // A pipe: 1,228 MiB are 1.199 GiB, and 2,001.2 GiB are 1.954 TiB.
    (
        &[(
            None,
            &[64 * MIB - 1, 1, 63 * MIB, MIB, 1100 * MIB, 2000 * GIB],
        )],
        0,
        LineStyle::Rewritten,
        "  64.0 MiB                     \r 128.0 MiB                     \r   1.1 \
         GiB                     \r   1.9 TiB                     \r\n",
    ),
    (
        &[(None, &[9 * GIB, GIB, 5 * GIB, 25 * GIB])],
        0,
        LineStyle::Separate,
        "  10.0 GiB\n  40.0 GiB\n",
    ),
    // What came is said at the end.
    (
        &[(None, &[64 * MIB - 1])],
        2_000,
        LineStyle::Rewritten,
        "  63.9 MiB  31 MiB/s           \r\n",
    ),
    (
        &[(None, &[1024, 1024])],
        0,
        LineStyle::Separate,
        "   2.0 KiB\n",
    ),
    (
        &[(Some(1000), &[100, 30])],
        0,
        LineStyle::Separate,
        " 10%  100 of 1000 B\n 13%  130 of 1000 B\n",
    ),
    // Nothing to be read.
    (
        &[(Some(0), &[0, 0])],
        0,
        LineStyle::Rewritten,
        "100% of 0 B                     \r\n",
    ),
    // A file grew: no part of its length is shown any more, and the longer line is covered.
    (
        &[(Some(2048), &[1024, 4096, 4096])],
        0,
        LineStyle::Rewritten,
        " 50% of 2.0 KiB                     \r   5.0 KiB                               \r   \
         9.0 KiB                               \r\n",
    ),
    (
        &[(Some(2048), &[1024, 4096])],
        0,
        LineStyle::Separate,
        " 50%  1.0 of 2.0 KiB\n   5.0 KiB\n",
    ),
    // It begins anew.
    (
        &[(Some(10), &[5]), (Some(4), &[4])],
        0,
        LineStyle::Rewritten,
        " 50% of 10 B                     \r\n100% of 4 B                     \r\n",
    ),
];

/// Shows the runs in a sink, and compares its contents with `wanted`.
fn see(
    rt: &impl Abort,
    sink: MemSink,
    style: LineStyle,
    clock: FakeClock,
    runs: Runs<'_>,
    wanted: &str,
) {
    let mut progress = ProgressLine::new(sink, style, clock);
    for (length, counts) in runs {
        progress.begin(*length);
        for bytes in *counts {
            progress.advance(*bytes);
        }
        progress.end();
        // Ended, it has nothing left to end.
        progress.end();
    }
    let sink = progress.into_sink();
    assert!(rt; sink.bytes() == wanted.as_bytes(), "{wanted}");
}

/// Checks what runs show, in a sink that takes all of a line and in one that takes it in parts.
#[test]
fn shows_runs(rt: HostRuntime) -> Result<(), Fail> {
    for (runs, tick, style, wanted) in ROWS {
        for step in [3, usize::MAX] {
            let sink = MemSink::new(rt.alloc(), 10_000, step, None)?;
            see(&rt, sink, *style, FakeClock::by(*tick), *runs, *wanted);
        }
    }
    Ok(())
}

/// Checks what follows a line that the sink didn't take. Each line makes a put and a flush, and one
/// of these calls fails.
#[test]
fn continues_after_a_failed_line(rt: HostRuntime) -> Result<(), Fail> {
    for (call, wanted) in [
        (
            0,
            " 50% of 10 B                     \r 80% of 10 B                     \r\n",
        ),
        (
            1,
            " 20% of 10 B                     \r 50% of 10 B                     \r \
             80% of 10 B                     \r\n",
        ),
        (
            2,
            " 20% of 10 B                     \r 80% of 10 B                     \r\n",
        ),
    ] {
        let sink = MemSink::new(rt.alloc(), 10_000, usize::MAX, Some(call))?;
        see(
            &rt,
            sink,
            LineStyle::Rewritten,
            FakeClock::by(0),
            &[(Some(10), &[2, 3, 3])],
            wanted,
        );
    }
    Ok(())
}

#[test]
fn shows_at_most_101_lines(rt: HostRuntime) -> Result<(), Fail> {
    let sink = MemSink::new(rt.alloc(), 10_000, usize::MAX, None)?;
    let mut progress = ProgressLine::new(sink, LineStyle::Rewritten, FakeClock::by(1));
    progress.begin(Some(80 * GIB));
    for _ in 0..1280 {
        progress.advance(64 * MIB);
    }
    progress.end();
    let sink = progress.into_sink();
    let lines = sink.bytes().iter().filter(|byte| **byte == b'\r').count();
    assert!(rt; lines == 101);
    Ok(())
}

const HEADER: &[u8] =
    b"age-encryption.org/v1\n-> x\n\n--- AAAAAAAAAAAAAAAAAAAAAAAAAAAAAAAAAAAAAAAAAAA\n";

fn put(alloc: Global, files: &mut MemFiles, name: &str, bytes: &[u8]) -> bool {
    match bytes.to_vec(alloc) {
        Ok(copy) => files.put(alloc, name, copy).is_ok(),
        Err(_) => false,
    }
}

/// A meter that shows nothing.
#[derive(Clone, Copy)]
struct Silent {}

impl Meter for Silent {
    fn begin(&mut self, _length: Option<u64>) {}

    fn advance(&mut self, _bytes: u64) {}

    fn end(&mut self) {}
}

/// Returns whether a run over files in memory ends with this status.
fn ends(alloc: Global, files: &mut MemFiles, words: &[&str], wanted: u8) -> bool {
    let (Ok(mut output), Ok(mut faults)) = (
        MemSink::new(alloc, 100, 100, None),
        MemSink::new(alloc, 100, 100, None),
    ) else {
        return false;
    };
    let status = run(
        alloc,
        words,
        files,
        &mut MemSource::new(Vec::new(alloc), 1, None),
        &mut output,
        &mut faults,
        &mut Silent {},
    );
    status == wanted
}

fn encrypts(alloc: Global, files: &mut MemFiles) -> bool {
    let words = [
        "encrypt", "--pass", "PASS", "--log", "1", "--random", "RANDOM", "IN", "FILE",
    ];
    put(alloc, files, "PASS", b"correct horse\n")
        && put(
            alloc,
            files,
            "RANDOM",
            b"the file key...!the scrypt salt!the payload nonc",
        )
        && put(alloc, files, "IN", b"hello")
        && ends(alloc, files, &words, 0)
}

fn decrypts(alloc: Global, files: &mut MemFiles, wanted: u8) -> bool {
    let words = [
        "decrypt", "--pass", "PASS", "--save", "POSITION", "FILE", "BACK",
    ];
    ends(alloc, files, &words, wanted)
}

fn without_last_byte(alloc: Global, files: &MemFiles) -> Option<Vec<u8>> {
    files.get("FILE")?.get(..185)?.to_vec(alloc).ok()
}

fn is_cut(alloc: Global, files: &mut MemFiles) -> bool {
    match without_last_byte(alloc, files) {
        Some(front) => files.put(alloc, "FILE", front).is_ok(),
        None => false,
    }
}

/// Returns whether a text is encrypted and decrypted, and a stop saves its position, unless that or
/// OUT is refused.
fn are_served(alloc: Global, files: &mut MemFiles) -> bool {
    encrypts(alloc, files)
        && decrypts(alloc, files, 0)
        && files.get("BACK") == Some(b"hello".as_slice())
        && files.get("POSITION").is_none()
        && is_cut(alloc, files)
        && decrypts(alloc, files, 1)
        && matches!(files.get("POSITION"), Some(text) if text.starts_with(b"age-position/v2 0 "))
        && put(alloc, files, "POSITION", b"kept")
        && files.refuse(alloc, "POSITION").is_ok()
        && decrypts(alloc, files, 1)
        && files.get("POSITION") == Some(b"kept".as_slice())
        && files.refuse(alloc, "BACK").is_ok()
        && decrypts(alloc, files, 1)
}

/// A set of files in memory that counts how many were opened, as a caller's own set would.
#[derive(Drop)]
struct Counted {
    files: MemFiles,
    opened: u64,
}

impl<'w> FileSet<'w> for Counted {
    type In = MemIn;

    type Out = MemOut;

    ghost view = { λ c. seen_in c.files };

    ghost size = { size_in };

    ghost file = { λ _. None };

    fn is_same(&mut self, one: &'w str, other: &'w str) -> bool {
        self.files.is_same(one, other)
    }

    fn check_streams(
        &mut self,
        alloc: Global,
        names: &[Option<&'w str>],
    ) -> Result<(), OpenError<'w>> {
        self.files.check_streams(alloc, names)
    }

    fn open(
        &mut self,
        alloc: Global,
        name: &'w str,
        missing: IfMissing,
        purpose: Purpose,
    ) -> Result<MemIn, OpenError<'w>> {
        self.opened = self.opened.saturating_add(1);
        self.files.open(alloc, name, missing, purpose)
    }

    fn length(&self, source: &MemIn) -> Option<u64> {
        self.files.length(source)
    }

    fn close_input(&mut self, source: MemIn) -> ErrorContext<'w> {
        self.files.close_input(source)
    }

    fn prepare(
        &mut self,
        alloc: Global,
        name: &'w str,
        spared: Option<&'w str>,
        others: &[Option<&'w str>],
        clobber: ClobberOption,
        durability: Durability,
    ) -> Result<(), OpenError<'w>> {
        self.files
            .prepare(alloc, name, spared, others, clobber, durability)
    }

    fn create(
        &mut self,
        alloc: Global,
        name: &'w str,
        clobber: ClobberOption,
        durability: Durability,
    ) -> Result<MemOut, OpenError<'w>> {
        self.files.create(alloc, name, clobber, durability)
    }

    fn check_absent(&mut self, name: &'w str) -> Result<(), OpenError<'w>> {
        self.files.check_absent(name)
    }

    fn is_absent(&mut self, name: &'w str) -> bool {
        self.files.is_absent(name)
    }

    fn is_for_faults(&mut self, out: &MemOut) -> bool {
        self.files.is_for_faults(out)
    }

    fn is_terminal(&mut self, out: &MemOut) -> bool {
        self.files.is_terminal(out)
    }

    fn is_empty(&self, out: &MemOut) -> bool {
        self.files.is_empty(out)
    }

    fn reason(&self, out: &MemOut) -> ErrorContext<'w> {
        self.files.reason(out)
    }

    fn durable_len(&mut self, out: &mut MemOut, durability: Durability) -> u64 {
        self.files.durable_len(out, durability)
    }

    fn known_durable_len(&mut self, out: &MemOut, durability: Durability) -> u64 {
        self.files.known_durable_len(out, durability)
    }

    fn close(&mut self, out: MemOut, durability: Durability) -> Result<(), FileError<'w>> {
        self.files.close(out, durability)
    }

    fn discard(&mut self, out: MemOut, durability: Durability) {
        self.files.discard(out, durability)
    }

    fn replace(
        &mut self,
        alloc: Global,
        name: &'w str,
        bytes: &[u8],
        durability: Durability,
    ) -> Result<(), FileError<'w>> {
        self.files.replace(alloc, name, bytes, durability)
    }
}

#[test]
fn a_set_of_a_caller(rt: HostRuntime) -> Result<(), Fail> {
    let mut files = Counted {
        files: MemFiles::new(rt.alloc(), 4096),
        opened: 0,
    };
    assert!(rt;
        put(
            rt.alloc(),
            &mut files.files,
            "IN",
            b"age-encryption.org/v1\n"
        )
    );
    let (mut output, mut faults) = (
        MemSink::new(rt.alloc(), 100, 100, None)?,
        MemSink::new(rt.alloc(), 100, 100, None)?,
    );
    let status = run(
        rt.alloc(),
        &["inspect", "IN"],
        &mut files,
        &mut MemSource::new(Vec::new(rt.alloc()), 1, None),
        &mut output,
        &mut faults,
        &mut Silent {},
    );
    assert_eq!(rt; status, 1);
    assert!(rt; faults.bytes() == b"age_tool: 8 HeadCut line 2\n".as_slice());
    assert_eq!(rt; files.opened, 1);
    Ok(())
}

#[test]
fn files_in_memory(rt: HostRuntime) {
    assert!(rt; are_served(rt.alloc(), &mut MemFiles::new(rt.alloc(), 300)));
}

/// Returns the status of a run without words, whose output fails at this call.
fn run_failing(alloc: Global, fail_call: u64) -> Result<u8, Fail> {
    let mut input = MemSource::new(HEADER.to_vec(alloc)?, 100, None);
    let mut output = MemSink::new(alloc, 100, 100, Some(fail_call))?;
    let mut faults = MemSink::new(alloc, 100, 100, None)?;
    let status = run(
        alloc,
        &[],
        &mut MemFiles::new(alloc, 0),
        &mut input,
        &mut output,
        &mut faults,
        &mut Silent {},
    );
    let is_reported = faults.bytes() == b"age_tool: 27 Write\n".as_slice();
    Ok(if is_reported == (status == 1) {
        status
    } else {
        9
    })
}

/// Checks the status of a run whose report isn't taken: its put fails, or its flush.
#[test]
fn outputs_that_fail(rt: HostRuntime) -> Result<(), Fail> {
    assert!(rt; run_failing(rt.alloc(), 0)? == 1);
    assert!(rt; run_failing(rt.alloc(), 1)? == 1);
    assert!(rt; run_failing(rt.alloc(), 2)? == 0);
    Ok(())
}
