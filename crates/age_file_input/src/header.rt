//! The reading of the header at the beginning of a source.

ghost use Rattle.std.specs.Prelude.{◌≡◌, ℕ, List, [], IfOk, IfErr};
ghost use Rattle.age_file_input.specs.Headers.{HeadFails, InHeader};
ghost use Rattle.age_file_input.specs.Pulls.{view_of_reader, SameReader, ReadsHead};
ghost use Rattle.age_file_input.specs.inner.{IsReading, IsFront, TakesFront, head_of};

use crate::buffer::InputBuffer;
use crate::reader::Reader;
use age_fault::FileFault;
use age_io::Source;
use age_stanza::{HeadFault, HeadParser, HeadStep, Header};
use sha2::{Digest, Sha256};
use std::alloc::Global;

/// A header that was read from a source.
#[derive(Drop)]
pub struct Head {
    /// The header.
    pub header: Header,
    /// The length of the header's text in bytes.
    pub len: u64,
    /// The SHA-256 digest that was fed the header's text.
    pub digest: Sha256,
}

/// The state of reading a header: the parser, the length of the text so far in bytes, and the
/// digest that was fed it.
#[derive(Drop)]
struct HeaderReader {
    parser: HeadParser,
    len: u64,
    digest: Sha256,
}

impl HeaderReader {
    /// Makes the state in which nothing was read.
    fn new(alloc: Global) -> HeaderReader
        ensures { IsFront result [] }
    {
        HeaderReader {
            parser: HeadParser::new(alloc),
            len: 0,
            digest: Sha256::new(),
        }
    }

    /// Adds the length and the digest to the header that was parsed.
    fn head(self, header: Header) -> Head
        ensures { result ≡ head_of header self }
    {
        Head {
            header,
            len: self.len,
            digest: self.digest,
        }
    }

    /// Parses the bytes that were pulled, up to the header's end, and returns the header if it is
    /// complete. The bytes after it stay in the buffer.
    fn take(&mut self, intake: &mut InputBuffer) -> Result<Option<Header>, HeadFault>
        requires { IsReading self.old }
        ensures { (held : List ℕ) → IsFront self.old held
            → TakesFront held intake.old intake.new self.new result }
    {
        let piece = intake.bytes();
        match self.parser.feed(piece)? {
            HeadStep::More => {
                self.len += piece.len() as u64;
                self.digest.update(piece);
                intake.use_all();
                Ok(None)
            }
            HeadStep::Ready { taken, header } => {
                self.len += taken as u64;
                self.digest.update(&piece[..taken]);
                intake.use_front(taken);
                Ok(Some(header))
            }
        }
    }
}

/// Reads a header from a source. The bytes that follow it and were pulled with it stay in the
/// buffer. Requires that nothing was pulled before.
pub fn read_head<S: Source>(alloc: Global, reader: &mut Reader<'_, S>) -> Result<Head, FileFault>
    requires { (reader.old.intake.now.bytes ≡ []) × (reader.old.intake.now.pulls ≡ 0) }
    ensures found { IfOk result (ReadsHead (S.view reader.old.source.now)
        (view_of_reader S.view reader.new)) }
    ensures fails { IfErr result (HeadFails InHeader (S.view reader.old.source.now)
        (S.view reader.new.source.now)) }
    ensures same { SameReader S.view reader.old reader.new }
{
    let mut front = HeaderReader::new(alloc);
    'pieces: while reader.intake.refill(reader.source)? {
        if let Some(header) = front.take(reader.intake)? {
            return Ok(front.head(header));
        }
    }
    Err(FileFault::from(front.parser.end()))
}
