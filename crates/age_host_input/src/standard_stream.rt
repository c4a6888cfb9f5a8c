//! A standard stream, and what people are told of it.

use age_cli_files::{Action, ErrorContext, Failure, ReadSummary};
use std::io::{self, Read, Write};

/// A standard stream for a whole run, which counts the bytes that it gave, or keeps why it failed.
#[derive(Drop)]
pub struct RecordingStream<T> {
    stream: T,
    context: ErrorContext<'static>,
}

impl<T> RecordingStream<T> {
    /// Wraps a stream.
    pub fn new(stream: T) -> RecordingStream<T> {
        RecordingStream {
            stream,
            context: ErrorContext::Nothing,
        }
    }

    /// Returns how much the stream gave, or why it failed.
    pub fn context(&self) -> ErrorContext<'static> {
        self.context
    }

    fn count(&mut self, read: &[u8]) {
        let mut summary = match self.context {
            ErrorContext::Read(summary) => summary,
            _ => ReadSummary::none(""),
        };
        summary.count(read);
        self.context = ErrorContext::Read(summary);
    }

    fn fail(&mut self, action: Action, name: &'static str, error: io::Error) {
        self.context = ErrorContext::Failed(Failure {
            action,
            name,
            error,
        });
    }
}

impl<R: Read> Read for RecordingStream<R> {
    fn read(&mut self, into: &mut [u8]) -> io::Result<usize> {
        let read = self.stream.read(into);
        match read {
            Ok(n) => self.count(&into[..n]),
            Err(error) => self.fail(Action::Read, "standard input", error),
        }
        read
    }
}

impl<W: Write> Write for RecordingStream<W> {
    fn write(&mut self, from: &[u8]) -> io::Result<usize> {
        let written = self.stream.write(from);
        if let Err(error) = written {
            self.fail(Action::Write, "standard output", error);
        }
        written
    }

    fn flush(&mut self) -> io::Result<()> {
        self.stream.flush()
    }
}
