//! The sentences about faults: what is wrong, and what to do.

use age_fault::FileFault;

/// A sentence about a fault: what is wrong, and what to do.
pub(crate) type Sentence = (&'static str, &'static str);

/// Returns what is wrong and what to do, of a fault, as docs/FAULTS.md has it. Returns `None` for
/// 11, whose line names the work factor, and for 26 and 27, whose lines have the system's message.
/// `by_pass` is true if a passphrase was to open the file.
pub(crate) fn find_sentence(fault: FileFault, by_pass: bool) -> Option<Sentence> {
    let number = fault.number();
    match number {
        7 | 8 if fault.place() == Some(1) => {
            Some((
                "this may not be an age file",
                "its first line has no newline",
            ))
        }
        11 | 26 | 27 => None,
        12 | 13 => Some(sentence_of_key(number, by_pass)),
        1..=15 => Some(sentence_of_head(number)),
        16..=22 => Some(sentence_of_payload(number)),
        _ => Some(sentence_of_rest(number)),
    }
}

#[rattlefmt::skip]
fn sentence_of_key(number: u8, by_pass: bool) -> Sentence {
    match number {
        12 if by_pass => ("it isn't encrypted with a passphrase", "age_tool inspect shows its stanzas; a key \
            file is for age -d -i, or for agefile decrypt --identity"),
        12 => ("it isn't encrypted to an X25519 recipient", "age_tool inspect shows its stanzas; a key \
            file is for age -d -i, or for agefile decrypt --identity"),
        _ if by_pass => ("the passphrase doesn't open it", "check the passphrase, whose file may end with \
            one newline, not two, and has no carriage return or BOM"),
        _ => ("the shared secret doesn't open it", "check the shared secret"),
    }
}

#[rattlefmt::skip]
fn sentence_of_head(number: u8) -> Sentence {
    match number {
        1 => ("not an age file", "its first line isn't age-encryption.org/v1"),
        2 => ("it is armored", "remove the armor first: grep -v '^-----' IN | tr -d '\\r' | base64 -d > NEW"),
        3 | 4 | 5 | 6 => ("its header is damaged", "fetch the file again"),
        7 => ("its header is too long", "no age program writes a header this large, except for thousands \
            of recipients: check where the file comes from"),
        8 => ("truncated in its header", "fetch all of it"),
        9 | 10 => ("altered or forged", "no age program writes such a header: don't trust the file"),
        14 => ("the key doesn't match its header", "the header was altered, or --file-key belongs to \
            another file"),
        _ => ("bad X25519 stanza or shared secret", "check the file of --shared; if it is right, fetch the \
            age file again"),
    }
}

#[rattlefmt::skip]
fn sentence_of_payload(number: u8) -> Sentence {
    match number {
        16 => ("truncated after its header", "fetch all of it"),
        17 => ("damaged or truncated", "fetch it again"),
        18 | 20 => ("truncated", "fetch the rest"),
        19 => ("truncated or altered", "fetch it again; if this happens again, don't trust the file"),
        21 => ("something was appended", "OUT has the complete plaintext, but the file isn't as its writer \
            left it"),
        _ => ("too long (more than 2^48 chunks)", "split the plaintext"),
    }
}

#[rattlefmt::skip]
fn sentence_of_rest(number: u8) -> Sentence {
    match number {
        23 => ("not a position", "--position takes the file that --save wrote"),
        24 => ("not the file of the position", "IN must be the file that was being decrypted when the \
            position was saved"),
        25 => ("shorter than the position says", "--old takes the output of the run that saved the position"),
        29 => ("read 2^63 times without ending", "supply an input that ends"),
        30 => ("altered, or made with another key", "use the position file exactly as --save wrote it"),
        31 => ("it doesn't match the position", "--old takes the output of the run that saved the position"),
        _ => ("out of memory", "a passphrase with work factor N takes 2^N KiB of memory"),
    }
}
