//! The texts that `age_tool help N` prints about faults. Made from docs/FAULTS.md by
//! checks/documents --write.

/// The number of the last fault.
pub(crate) const LAST_FAULT: u8 = 31;

/// The name of a fault, and the text that says what it means, what it leaves and what to do.
pub(crate) type Row = (&'static str, &'static str);

/// Returns the row of the fault of this number, if there is one.
#[rattlefmt::skip]
pub(crate) fn look_up_row(number: u8) -> Option<Row> {
    let row = match number {
        1 => ("NotAge", "1 NotAge
The file doesn't begin with the version line (if the first 1,048,576 bytes have
no newline, 7 is reported, or 8 if the file is shorter).
OUT: unchanged.
What to do: its first line isn't age-encryption.org/v1: check the name."),
        2 => ("Armored", "2 Armored
The file is armored: text that begins with -----BEGIN AGE ENCRYPTED FILE-----.
OUT: unchanged.
What to do: remove the armor first:
grep -v '^-----' IN | tr -d '\\r' | base64 -d > NEW."),
        3 => ("BadStanzaLine", "3 BadStanzaLine
A line of the header should begin a stanza (the entry for a recipient) or end
the header, but does neither.
OUT: unchanged.
What to do: fetch the file again: its header is damaged. If that doesn't help,
it isn't an age file."),
        4 => ("BadBody", "4 BadBody
A line of a stanza's body isn't valid base64.
OUT: unchanged.
What to do: fetch the file again: its header is damaged."),
        5 => ("BadEndLine", "5 BadEndLine
The header's last line is malformed.
OUT: unchanged.
What to do: fetch the file again: its header is damaged."),
        6 => ("NoStanza", "6 NoStanza
The header has no stanza.
OUT: unchanged.
What to do: fetch the file again: its header is damaged."),
        7 => ("HeadTooLong", "7 HeadTooLong
The header is longer than 1,048,576 bytes; at line 1, the file has no newline in
its first 1,048,576 bytes and is probably no age file.
OUT: unchanged.
What to do: no age program writes a header this large, except for thousands of
recipients: check where the file comes from. At line 1: this may not be an age
file: its first line has no newline."),
        8 => ("HeadCut", "8 HeadCut
The file ends inside its header; at line 1, it is empty or has no newline, and
is probably no age file.
OUT: unchanged.
What to do: fetch all of it: the file was truncated. At line 1: it is empty:
check where it comes from; or it may not be an age file: its first line has no
newline."),
        9 => ("ScryptNotAlone", "9 ScryptNotAlone
The header has a passphrase stanza and another stanza.
OUT: unchanged.
What to do: no age program writes such a header: don't trust the file. It was
altered or forged."),
        10 => ("BadScrypt", "10 BadScrypt
The passphrase stanza is malformed.
OUT: unchanged.
What to do: no age program writes such a header: don't trust the file. It was
altered or forged."),
        11 => ("WorkTooHigh", "11 WorkTooHigh
The work factor is above the limit; a line says which it is.
OUT: unchanged.
What to do: if you trust the file, retry with a larger --max-log (up to 22; N
needs 2^N KiB of memory). No age_tool opens a file above that."),
        12 => ("NoMatch", "12 NoMatch
The file isn't encrypted with a passphrase (for --pass), or to an X25519
recipient (for --shared).
OUT: unchanged.
What to do: age_tool inspect shows its stanzas; a key file is for age -d -i, or
for agefile decrypt --identity. --pass opens scrypt, --shared X25519, and
--file-key any file."),
        13 => ("WrongKey", "13 WrongKey
The passphrase, or the shared secret, doesn't open the stanza; or the stanza is
damaged.
OUT: unchanged.
What to do: check the passphrase, whose file may end with one newline, not two,
and has no carriage return or BOM. With --shared: check the shared secret. If it
is right, fetch the file again."),
        14 => ("MacMismatch", "14 MacMismatch
The MAC of the header doesn't match the file key.
OUT: unchanged.
What to do: the header was altered, or --file-key belongs to another file. Fetch
the file again."),
        15 => ("BadX25519", "15 BadX25519
An X25519 stanza is malformed, or the shared secret is zero.
OUT: unchanged.
What to do: check the file of --shared; if it is right, fetch the age file
again."),
        16 => ("NonceCut", "16 NonceCut
The file ends less than 16 bytes after its header.
OUT: unchanged.
What to do: fetch all of it: the file ends after its header."),
        17 => ("ChunkDamaged", "17 ChunkDamaged
This chunk isn't what the writer wrote there, or the file ends inside it (most
cut downloads show up as 17), or something was appended to it.
OUT: the chunks before it; unchanged, if this is chunk 0.
What to do: fetch it again; age_tool resume continues from a position that
--save saved. Without another copy, agefile salvage saves what still opens."),
        18 => ("ChunkCut", "18 ChunkCut
The file ends in the first 15 bytes of this chunk.
OUT: the chunks before it; unchanged, if this is chunk 0.
What to do: fetch the rest; age_tool resume continues from a position that
--save saved."),
        19 => ("EmptyLast", "19 EmptyLast
This chunk has only 16 bytes, and isn't chunk 0.
OUT: the chunks before it.
What to do: fetch it again; if this happens again, don't trust the file."),
        20 => ("Truncated", "20 Truncated
The file ends before this chunk (or in it, if resume passes over it), so the
file's last chunk is missing.
OUT: the chunks before it, if any; after resume, if this chunk comes before the
position, the earlier output up to the position.
What to do: fetch the rest; age_tool resume continues from a position that
--save saved."),
        21 => ("Trailing", "21 Trailing
Bytes follow the last chunk, which is full (after a shorter last chunk, what is
appended shows up as 17).
OUT: all chunks.
What to do: OUT has the complete plaintext, but the file isn't as its writer
left it: something was appended to it."),
        22 => ("TooManyChunks", "22 TooManyChunks
More than 2^48 chunks.
OUT: the chunks before that.
What to do: split the plaintext."),
        23 => ("BadPosition", "23 BadPosition
The file that you gave to --position isn't a position, or is longer than 256
bytes.
OUT: unchanged.
What to do: --position takes the file that --save wrote."),
        24 => ("OtherFile", "24 OtherFile
The position belongs to another file.
OUT: unchanged.
What to do: IN must be the file that was being decrypted when the position was
saved."),
        25 => ("ShortText", "25 ShortText
The earlier output is shorter than the position says.
OUT: a copy of all of it; unchanged, if it is empty.
What to do: --old takes the output of the run that saved the position."),
        26 => ("Read", "26 Read
A file couldn't be opened or read (FAULTS.md says more). A missing --old is no
fault if the position is at chunk 0. Files are opened in this order: --pass,
--shared, --random, --position, --old, the drill's script, IN.
OUT: what was written so far; unchanged if nothing was.
What to do: check the names and the disk; decrypt again, or resume, if a
position was saved. If IN can't be read, then without another copy,
agefile salvage saves what still opens. --pass and --shared take the name of a
file."),
        27 => ("Write", "27 Write
A file couldn't be created, written or synced to disk; or another program holds
its lock; or it was removed or got another length meanwhile (FAULTS.md says
more).
OUT: what was written so far; unchanged if nothing was.
What to do: check free space and permissions; decrypt again, or resume, if a
position was saved."),
        28 => ("Memory", "28 Memory
Out of memory.
OUT: unchanged.
What to do: a passphrase with work factor N takes 2^N KiB of memory: a line says
how much that is for this file."),
        29 => ("ReadNeverEnds", "29 ReadNeverEnds
The input was read 2^63 times without ending.
OUT: what was written so far.
What to do: supply an input that ends."),
        30 => ("PositionForged", "30 PositionForged
The position was altered, or wasn't made under this file's key.
OUT: unchanged.
What to do: use the position file exactly as --save wrote it."),
        31 => ("OldTextDiffers", "31 OldTextDiffers
The earlier output isn't the one that the position was saved for.
OUT: a copy of it, as far as the position says.
What to do: --old takes the output of the run that saved the position. If it is
lost, decrypt from the start."),
        _ => return None,
    };
    Some(row)
}
