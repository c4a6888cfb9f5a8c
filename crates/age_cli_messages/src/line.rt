//! The line that shows how far a run has come. Tests say what it must be, and contracts only that
//! no step of it fails.

ghost use Rattle.std.specs.Prelude.{◌≤◌, ◌<◌, ◌^◌};

use crate::line_style::LineStyle;
use arrayvec::ArrayVec;
use itoa::Buffer;
use std::fmt::{self, Formatter};

/// A buffer for one line on the stack, so that it allocates nothing and goes out in one write. It
/// has room for numbers of any length that itoa writes.
pub(crate) type Line = ArrayVec<u8, 512>;

/// A unit of bytes: its size and its name.
#[derive(Clone, Copy)]
struct ByteUnit {
    size: u128,
    name: &'static str,
}

fn choose_unit(bytes: u128) -> ByteUnit
    ensures some { 0 < result.size }
    ensures small { result.size ≤ 2 ^ 40 }
{
    let (size, name) = if bytes < 1 << 10 {
        (1, "B")
    } else if bytes < 1 << 20 {
        (1 << 10, "KiB")
    } else if bytes < 1 << 30 {
        (1 << 20, "MiB")
    } else if bytes < 1 << 40 {
        (1 << 30, "GiB")
    } else {
        (1 << 40, "TiB")
    };
    ByteUnit { size, name }
}

/// Appends a text, or leaves it out if the line has no room for it, which no count or time needs.
fn push(line: &mut Line, text: &[u8]) {
    let _ = line.try_extend_from_slice(text);
}

/// Appends a number in decimal.
fn push_number(line: &mut Line, number: u128) {
    let mut digits = Buffer::new();
    push(line, digits.format(number).as_bytes());
}

/// Formats a number of bytes in units of this size, rounded down to a tenth.
fn amount_in(size: u128, bytes: u128) -> Line
    requires some { 0 < size }
    requires small { size ≤ 2 ^ 40 }
{
    let mut text = Line::new();
    if size == 1 {
        push_number(&mut text, bytes);
    } else {
        push_number(&mut text, bytes / size);
        push(&mut text, b".");
        push_number(&mut text, bytes % size * 10 / size);
    }
    text
}

/// Appends a text after as many spaces as it is short of the width.
fn push_padded(line: &mut Line, width: usize, text: &[u8])
    requires width { width ≤ 6 }
{
    push(line, &b"      "[..width.saturating_sub(text.len())]);
    push(line, text);
}

/// Appends the name of a unit, and what ends the line.
fn push_unit(line: &mut Line, unit: ByteUnit, end: &[u8]) {
    push(line, b" ");
    push(line, unit.name.as_bytes());
    push(line, end);
}

/// Appends a number below 100 in two digits.
fn push_two_digits(line: &mut Line, number: u8) {
    push(line, &[b'0' + number / 10, b'0' + number % 10]);
}

/// Formats seconds as hours, minutes and seconds.
fn clock_text(seconds: u128) -> Line {
    let mut text = Line::new();
    push_number(&mut text, seconds / 3600);
    push(&mut text, b":");
    push_two_digits(&mut text, (seconds / 60 % 60) as u8);
    push(&mut text, b":");
    push_two_digits(&mut text, (seconds % 60) as u8);
    text
}

/// Returns the number of bytes a second, or 0 before the first second has passed.
fn rate(count: u64, millis: u64) -> u128 {
    if millis < 1000 {
        return 0;
    }
    count as u128 * 1000 / millis as u128
}

fn rate_text(rate: u128) -> Line {
    let mut text = Line::new();
    if rate != 0 {
        let measure = choose_unit(rate);
        push(&mut text, b"  ");
        push_number(&mut text, rate / measure.size);
        push_unit(&mut text, measure, b"/s");
    }
    text
}

/// Formats the time that the rest takes, or nothing if the whole length or the rate isn't known.
fn left_text(whole: Option<u64>, count: u64, rate: u128) -> Line {
    let mut text = Line::new();
    if let Some(whole) = whole
        && rate != 0
    {
        push(&mut text, b"  ");
        let seconds = whole.saturating_sub(count) as u128 / rate;
        push(&mut text, clock_text(seconds).as_slice());
    }
    text
}

/// Formats the rate and the time that is left, with the spaces that cover a longer text before
/// them.
fn pace(whole: Option<u64>, count: u64, rate: u128) -> Line {
    let mut text = rate_text(rate);
    push(&mut text, left_text(whole, count, rate).as_slice());
    let missing = 21_usize.saturating_sub(text.len());
    push(&mut text, &b"                     "[..missing]);
    text
}

/// Formats the end of a line. `cover` are spaces, if the line before it may be longer.
fn line_end(style: LineStyle, whole: Option<u64>, count: u64, millis: u64, cover: &[u8]) -> Line {
    match style {
        LineStyle::Rewritten => {
            let mut text = pace(whole, count, rate(count, millis));
            push(&mut text, cover);
            push(&mut text, b"\r");
            text
        }
        LineStyle::Separate => line_feed(),
    }
}

fn line_feed() -> Line {
    let mut text = Line::new();
    push(&mut text, b"\n");
    text
}

/// Formats the line for a number of bytes, with its end.
fn count_line(end: &[u8], count: u64) -> Line {
    let measure = choose_unit(count as u128);
    let mut line = Line::new();
    push_padded(
        &mut line,
        6,
        amount_in(measure.size, count as u128).as_slice(),
    );
    push_unit(&mut line, measure, end);
    line
}

fn percentage(length: u64, count: u64) -> u64 {
    if length == 0 {
        return 100;
    }
    (count as u128 * 100 / length as u128).min(100) as u64
}

/// A number of bytes, displayed with its unit.
#[derive(Clone, Copy)]
pub struct Size(pub u64);

impl fmt::Display for Size {
    fn fmt<W: fmt::Write>(&self, f: &mut Formatter<W>) -> fmt::Result {
        f.write_str(str::from_utf8(size_line(self.0).as_slice()).unwrap_or(""))
    }
}

/// Formats a number of bytes with its unit.
pub(crate) fn size_line(bytes: u64) -> Line {
    let measure = choose_unit(bytes as u128);
    let mut line = amount_in(measure.size, bytes as u128);
    push_unit(&mut line, measure, b"");
    line
}

/// Appends what stands before the whole length, of which `count` bytes were read.
fn push_share(line: &mut Line, style: LineStyle, size: u128, count: u64)
    requires some { 0 < size }
    requires small { size ≤ 2 ^ 40 }
{
    match style {
        LineStyle::Rewritten => push(line, b"% of "),
        LineStyle::Separate => {
            push(line, b"%  ");
            push(line, amount_in(size, count as u128).as_slice());
            push(line, b" of ");
        }
    }
}

/// Formats the line for `count` bytes of `whole`.
fn share_line(style: LineStyle, whole: u64, count: u64, millis: u64) -> Line {
    let measure = choose_unit(whole as u128);
    let mut percent = Buffer::new();
    let mut line = Line::new();
    push_padded(
        &mut line,
        3,
        percent.format(percentage(whole, count)).as_bytes(),
    );
    push_share(&mut line, style, measure.size, count);
    push(&mut line, amount_in(measure.size, whole as u128).as_slice());
    let end = line_end(style, Some(whole), count, millis, &[]);
    push_unit(&mut line, measure, end.as_slice());
    line
}

/// Formats the line for `count` bytes after `millis` milliseconds, of the whole length if that is
/// known.
pub(crate) fn format_progress(
    style: LineStyle,
    whole: Option<u64>,
    count: u64,
    millis: u64,
) -> Line {
    match whole {
        Some(whole) if count <= whole => share_line(style, whole, count, millis),
        Some(_) => count_line(
            line_end(style, None, count, millis, b"          ").as_slice(),
            count,
        ),
        None => count_line(line_end(style, None, count, millis, &[]).as_slice(), count),
    }
}

/// Returns whether the line for `count` bytes was shown, if that for `last` bytes came last.
fn was_shown(last: Option<u64>, count: u64) -> bool {
    match last {
        Some(last) => last == count,
        None => false,
    }
}

/// Formats what ends a run, if the line for `last` bytes came last.
pub(crate) fn format_end(
    style: LineStyle,
    length: Option<u64>,
    count: u64,
    millis: u64,
    last: Option<u64>,
) -> Line {
    let mut text = if was_shown(last, count) {
        Line::new()
    } else {
        format_progress(style, length, count, millis)
    };
    push(&mut text, run_end(style));
    text
}

fn run_end(style: LineStyle) -> &'static [u8] {
    match style {
        LineStyle::Rewritten => b"\n",
        LineStyle::Separate => b"",
    }
}

/// Returns the number of steps that were read: of 64 MiB, or of 10 GiB in a log.
fn steps(style: LineStyle, count: u64) -> u64 {
    match style {
        LineStyle::Rewritten => count / (64 << 20),
        LineStyle::Separate => count / (10 << 30),
    }
}

/// Returns how many shares of the length were read, each a hundredth of it, or a tenth in a log.
/// Returns the number of steps if no length is known, and counts these after all shares if more
/// than the length was read.
pub(crate) fn count_steps(style: LineStyle, length: Option<u64>, count: u64) -> u64 {
    match (length, style) {
        (Some(length), _) if count > length => steps(style, count).saturating_add(101),
        (Some(length), LineStyle::Rewritten) => percentage(length, count),
        (Some(length), LineStyle::Separate) => percentage(length, count) / 10,
        (None, _) => steps(style, count),
    }
}
