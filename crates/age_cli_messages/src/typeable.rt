//! A check whether a passphrase can be typed where `age` asks for it.

/// The largest number of bytes of a line that a terminal takes.
const LINE_MAX: u32 = 4095;

/// The reason for bytes that no keyboard types where text is UTF-8.
const NO_TEXT: &str = "bytes that are no UTF-8";

/// The rest of a UTF-8 character: the number of its bytes, and the range of the next one.
#[derive(Clone, Copy)]
pub struct Utf8Tail {
    more: u8,
    from: u8,
    to: u8,
}

impl Utf8Tail {
    /// Returns a rest of `more` bytes, each of any value that isn't the first byte of a character.
    fn of(more: u8) -> Utf8Tail {
        Utf8Tail {
            more,
            from: 0x80,
            to: 0xbf,
        }
    }

    /// Returns the rest after its next byte, or `None` if that byte can't come next.
    fn after(self, byte: u8) -> Option<Utf8Tail> {
        if self.from <= byte && byte <= self.to {
            Some(Utf8Tail::of(self.more.saturating_sub(1)))
        } else {
            None
        }
    }

    /// Returns the rest of a character that begins with a byte beyond ASCII, or `None` if none
    /// does.
    fn begun(byte: u8) -> Option<Utf8Tail> {
        match byte {
            0xc2..=0xdf => Some(Utf8Tail::of(1)),
            0xe0 => Some(Utf8Tail {
                more: 2,
                from: 0xa0,
                to: 0xbf,
            }),
            0xed => Some(Utf8Tail {
                more: 2,
                from: 0x80,
                to: 0x9f,
            }),
            0xe1..=0xef => Some(Utf8Tail::of(2)),
            0xf0 => Some(Utf8Tail {
                more: 3,
                from: 0x90,
                to: 0xbf,
            }),
            0xf1..=0xf3 => Some(Utf8Tail::of(3)),
            0xf4 => Some(Utf8Tail {
                more: 3,
                from: 0x80,
                to: 0x8f,
            }),
            _ => None,
        }
    }
}

/// A check whether a passphrase can be typed, as far as the passphrase was read.
#[derive(Clone, Copy)]
pub enum TypeableScan {
    /// The number of bytes of a byte order mark that were read, and nothing else.
    Mark(u8),
    /// The number of bytes of the line that were read, and the rest of its last character.
    Line(u32, Utf8Tail),
    /// The newline that ends the line was read.
    Ended,
    /// The passphrase can't be typed, for this reason.
    Untypable(&'static str),
}

impl TypeableScan {
    /// Creates a check of a passphrase of which nothing was read.
    pub fn new() -> TypeableScan {
        TypeableScan::Mark(0)
    }

    /// Returns the check after more bytes of the passphrase.
    pub fn after(self, bytes: &[u8]) -> TypeableScan {
        let mut typing = self;
        for byte in bytes {
            typing = typing.after_byte(*byte);
        }
        typing
    }

    fn after_byte(self, byte: u8) -> TypeableScan {
        match (self, byte) {
            (TypeableScan::Mark(0), 0xef) => TypeableScan::Mark(1),
            (TypeableScan::Mark(1), 0xbb) => TypeableScan::Mark(2),
            (TypeableScan::Mark(2), 0xbf) => TypeableScan::Untypable("a byte order mark"),
            (TypeableScan::Mark(0), _) => after_line(0, Utf8Tail::of(0), byte),
            (TypeableScan::Mark(1), _) => after_line(1, Utf8Tail::of(2), byte),
            (TypeableScan::Mark(_), _) => after_line(2, Utf8Tail::of(1), byte),
            (TypeableScan::Line(len, rest), _) => after_line(len, rest, byte),
            (TypeableScan::Ended, b'\n') => TypeableScan::Untypable("a second newline"),
            (TypeableScan::Ended, _) => TypeableScan::Untypable("a second line"),
            (TypeableScan::Untypable(_), _) => self,
        }
    }

    /// Returns what can't be typed, if there is something.
    pub fn untypable(self) -> Option<&'static str> {
        match self {
            TypeableScan::Untypable(what) => Some(what),
            TypeableScan::Mark(1 | 2) => Some(NO_TEXT),
            TypeableScan::Line(_, rest) if rest.more > 0 => Some(NO_TEXT),
            _ => None,
        }
    }
}

/// Returns the check after a byte of the line, with `len` bytes before it.
fn after_line(len: u32, rest: Utf8Tail, byte: u8) -> TypeableScan {
    let rest = if rest.more > 0 {
        rest.after(byte)
    } else {
        match byte {
            b'\n' => return TypeableScan::Ended,
            b'\r' => return TypeableScan::Untypable("a carriage return"),
            0 => return TypeableScan::Untypable("a zero byte"),
            1..=31 | 127 => return TypeableScan::Untypable("a control character"),
            32..=126 => Some(Utf8Tail::of(0)),
            _ => Utf8Tail::begun(byte),
        }
    };
    match rest {
        None => TypeableScan::Untypable(NO_TEXT),
        Some(_) if len >= LINE_MAX => TypeableScan::Untypable("more than 4,095 bytes"),
        Some(rest) => TypeableScan::Line(len + 1, rest),
    }
}
