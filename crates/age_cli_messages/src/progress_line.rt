//! A meter that shows how far a run has come. Tests check what it shows.

ghost use Rattle.std.specs.Prelude.{◌≡◌, Some};

use crate::line::{count_steps, format_end, format_progress};
use crate::line_style::LineStyle;
use crate::text::show;
use age_io::{Meter, Sink};
use std::time::{Clock, Instant};

/// A meter that shows how far a run has come: on one line of a sink, which ends in a carriage
/// return so that each later line overwrites it; or in a few separate lines, as in a log.
///
/// If the length is known, a line is due as the percentage rises, and otherwise, or after more than
/// that was read, with each 64 MiB; in a log with each tenth, or each 10 GiB. At the end comes the
/// last line, unless it was shown. A line on a terminal also says how fast the run is, and how long
/// the rest takes. What the sink fails to take is left out.
#[derive(Drop)]
pub struct ProgressLine<O: Sink, C: Clock + Drop> {
    sink: O,
    style: LineStyle,
    clock: C,
    begun: Option<Instant>,
    length: Option<u64>,
    count: u64,
    next: u64,
    millis: u64,
    last: Option<u64>,
    is_open: bool,
}

impl<O: Sink, C: Clock + Drop> ProgressLine<O, C> {
    /// Creates a meter that writes its lines to `sink`.
    pub fn new(sink: O, style: LineStyle, clock: C) -> ProgressLine<O, C>
        ensures { result.sink ≡ sink }
    {
        ProgressLine {
            sink,
            style,
            clock,
            begun: None,
            length: None,
            count: 0,
            next: 1,
            millis: 0,
            last: None,
            is_open: false,
        }
    }

    /// Returns the sink, with what was shown.
    pub fn into_sink(self) -> O
        ensures { result ≡ self.sink }
    {
        let ProgressLine { sink, .. } = self;
        sink
    }
}

/// Returns how many milliseconds have passed, or 0 if the clock can't be read.
fn millis_since<C: Clock>(begun: Option<Instant>, clock: &C) -> u64 {
    match (begun, Instant::now(clock)) {
        (Some(begun), Ok(now)) => {
            let millis = now.duration_since(begun).as_millis();
            millis.min(u64::MAX as u128) as u64
        }
        _ => 0,
    }
}

impl<O: Sink, C: Clock + Drop> Meter for ProgressLine<O, C> {
    /// Begins a run, and writes nothing.
    fn begin(&mut self, length: Option<u64>) {
        self.length = length;
        self.count = 0;
        self.begun = Instant::now(&self.clock).ok();
        self.last = None;
        self.is_open = true;
        self.next = match length {
            Some(_) => 0,
            None => 1,
        };
    }

    /// Counts bytes that were read, and writes a line if one is due.
    fn advance(&mut self, bytes: u64) {
        self.count = self.count.saturating_add(bytes);
        let mark = count_steps(self.style, self.length, self.count);
        if mark >= self.next {
            self.next = mark.saturating_add(1);
            self.millis = millis_since(self.begun, &self.clock);
            self.last = Some(self.count);
            let line = format_progress(self.style, self.length, self.count, self.millis);
            show(&mut self.sink, line.as_slice());
        }
    }

    /// Ends the run: writes the last line, unless it was shown, and a line feed on a terminal.
    fn end(&mut self) {
        if self.is_open {
            self.is_open = false;
            self.millis = millis_since(self.begun, &self.clock);
            let text = format_end(self.style, self.length, self.count, self.millis, self.last);
            show(&mut self.sink, text.as_slice());
        }
    }
}
