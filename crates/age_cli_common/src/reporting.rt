//! Reports why a command isn't done.

ghost use Rattle.std.specs.Prelude.{Some, [], true};

use crate::command_error::{CommandError, Usage};
use crate::put::put_bytes;
use age_fault::FileFault;
use age_io::{Failed, FailureCount, Sink, flush_all};
use arrayvec::ArrayVec;
use itoa::Buffer;

/// A buffer for one line on the stack, so that the line goes out in one write and lines of several
/// runs don't mix. The longest line has 54 bytes.
#[derive(Drop)]
struct FaultLine {
    bytes: ArrayVec<u8, 128>,
    failures: FailureCount,
}

impl FaultLine {
    fn new() -> FaultLine {
        FaultLine {
            bytes: ArrayVec::new(),
            failures: FailureCount::none(),
        }
    }
}

impl Sink for FaultLine {
    ghost view = { λ line. record {
      taken = record { bytes = line.bytes.items; contents = Some line.bytes.items; label = [] };
      failed = line.failures.count;
      failing = line.failures.last;
      flushed = true;
    } };

    fn put(&mut self, from: &[u8]) -> Result<usize, Failed> {
        let taken = match self.bytes.try_extend_from_slice(from) {
            Ok(()) => Ok(from.len()),
            Err(_) => Err(Failed),
        };
        self.failures.note(taken)
    }

    fn flush(&mut self) -> Result<(), Failed> {
        self.failures.note(Ok(()))
    }

    fn failures(&self) -> u64 {
        self.failures.count
    }
}

/// Writes a word, and a number in decimal.
fn put_number<E: Sink>(faults: &mut E, word: &str, number: u64) -> Result<(), FileFault> {
    put_bytes(faults, word.as_bytes())?;
    let mut digits = Buffer::new();
    put_bytes(faults, digits.format(number).as_bytes())
}

/// Writes the line of a header's fault, or the chunk of a payload's.
fn put_place<E: Sink>(faults: &mut E, fault: FileFault) -> Result<(), FileFault> {
    match fault.place() {
        Some(line) if fault.number() <= 8 => put_number(faults, " line ", line),
        Some(chunk) if fault.number() <= 20 => put_number(faults, " chunk ", chunk),
        _ => Ok(()),
    }
}

/// Writes the fault's number and name, and its line or chunk. Allocates nothing, so that running
/// out of memory can be reported too.
fn put_fault_line<E: Sink>(faults: &mut E, fault: FileFault) -> Result<(), FileFault> {
    put_number(faults, "age_tool: ", fault.number() as u64)?;
    put_bytes(faults, b" ")?;
    put_bytes(faults, fault.name().as_bytes())?;
    put_place(faults, fault)?;
    put_bytes(faults, b"\n")
}

/// Writes the line of a fault by one write.
fn put_fault<E: Sink>(faults: &mut E, fault: FileFault) -> Result<(), FileFault> {
    let mut line = FaultLine::new();
    match put_fault_line(&mut line, fault) {
        Ok(()) => put_bytes(faults, line.bytes.as_slice()),
        // A line that is too long goes out in parts.
        Err(_) => put_fault_line(faults, fault),
    }
}

/// Writes the message about a malformed line of a script.
fn put_script_line<E: Sink>(faults: &mut E, line: u64) -> Result<(), FileFault> {
    put_number(faults, "age_tool: bad script line ", line)?;
    put_bytes(faults, b"\n")
}

/// Writes the message about a malformed line of a script by one write.
fn put_whole_script_line<E: Sink>(faults: &mut E, line: u64) -> Result<(), FileFault> {
    let mut whole = FaultLine::new();
    match put_script_line(&mut whole, line) {
        Ok(()) => put_bytes(faults, whole.bytes.as_slice()),
        Err(_) => put_script_line(faults, line),
    }
}

/// Writes the message about a bad command line by one write. Allocates nothing.
fn put_usage<E: Sink>(faults: &mut E, usage: Usage) -> Result<(), FileFault> {
    match usage {
        Usage::GiveOneIdentity => put_bytes(
            faults,
            b"age_tool: give one of --pass, --file-key and --shared\n",
        ),
        Usage::BadFileKey => put_bytes(faults, b"age_tool: bad file key\n"),
        Usage::SameFile => put_bytes(faults, b"age_tool: same file named twice\n"),
        Usage::OutIsTerminal => put_bytes(faults, b"age_tool: the output is a terminal\n"),
        Usage::BadPassphraseFile => put_bytes(faults, b"age_tool: bad passphrase file\n"),
        Usage::BadSharedFile => put_bytes(faults, b"age_tool: bad shared file\n"),
        Usage::BadRandomFile => put_bytes(faults, b"age_tool: bad random file\n"),
        Usage::GiveClearOrPass => put_bytes(faults, b"age_tool: give one of --clear and --pass\n"),
        Usage::ScriptTooLong => put_bytes(faults, b"age_tool: script too long\n"),
        Usage::BadScriptLine(line) => put_whole_script_line(faults, line as u64),
        Usage::PayloadTooLong => put_bytes(faults, b"age_tool: payload too long\n"),
    }
}

/// Writes the lines of an ending.
fn put_ending<E: Sink>(faults: &mut E, ending: &CommandError<'_>) -> Result<(), FileFault> {
    match ending {
        CommandError::Usage(error) => put_usage(faults, error.usage()),
        CommandError::Fault(error) => put_fault(faults, error.fault()),
        CommandError::Unsaved(error, second) => {
            put_fault(faults, error.fault())?;
            put_fault(faults, second.fault())
        }
    }
}

/// Writes the lines of an ending, and flushes the sink.
fn print_error<E: Sink>(faults: &mut E, ending: &CommandError<'_>) -> Result<(), FileFault> {
    put_ending(faults, ending)?;
    Ok(flush_all(faults)?)
}

/// Writes the line of a fault, and flushes the sink.
pub fn report_fault<E: Sink>(faults: &mut E, fault: FileFault) -> Result<(), FileFault> {
    put_fault(faults, fault)?;
    Ok(flush_all(faults)?)
}

/// Writes why a command isn't done, and flushes the sink. Ignores a failure of the sink.
pub fn report_ending<E: Sink>(faults: &mut E, ending: &CommandError<'_>) {
    let _ = print_error(faults, ending);
}
