//! Tests that run the examples, over a file that Python made.

use age_examples::{Counted, CountingSink, Either, open_bytes, seal_to};
use age_file::{MemSink, MemSource, Source};
use age_keys::{FileKey, KnownKey, Passphrase, payload_key};
use age_vectors::FILE_KEY;
use std::test::Fail;

/// The age file of `hello` under [`FILE_KEY`]: a header of one stanza `x` with an empty body, the
/// payload nonce, and from byte 92 on the payload.
pub(crate) const FILE: [u8; 113] =
    *b"age-encryption.org/v1\n-> x\n\n--- 1mO1p2iHr1hXsC4oPA3JQsoy5EVuHeaNqF7FyjrAkCE\n\
        defghijklmnopqrs\
        \xf2\x2d\xc0\x2f\x3c\x1c\x77\xef\x50\xd9\x5e\xf3\x04\xdd\xde\x21\xd8\xfb\x79\xe2\xf9";

#[test]
fn a_file_in_memory(rt: HostRuntime) -> Result<(), Fail> {
    let key = KnownKey::new(FILE_KEY);
    let text = open_bytes(rt.alloc(), &key, FILE.to_vec(rt.alloc())?)?;
    assert!(rt; text.as_slice() == b"hello".as_slice());
    let cut = open_bytes(rt.alloc(), &key, FILE[..112].to_vec(rt.alloc())?);
    assert!(rt; matches!(&cut, Err(fault) if fault.number() == 17));
    Ok(())
}

#[test]
fn the_second_of_two_keys(rt: HostRuntime) -> Result<(), Fail> {
    let both = Either {
        first: Passphrase::new(b"another", 10).ok_or("no passphrase")?,
        second: KnownKey::new(FILE_KEY),
    };
    let text = open_bytes(rt.alloc(), &both, FILE.to_vec(rt.alloc())?)?;
    assert!(rt; text.as_slice() == b"hello".as_slice());
    Ok(())
}

#[test]
fn bytes_that_are_counted(rt: HostRuntime) -> Result<(), Fail> {
    let mut source = Counted::new(MemSource::new(FILE.to_vec(rt.alloc())?, 50, None));
    let mut into = [0; 64];
    assert!(rt; source.pull(&mut into) == Ok(50) && source.pull(&mut into) == Ok(50));
    assert!(rt; source.count() == 100);
    Ok(())
}

#[test]
fn a_payload_that_is_kept_or_measured(rt: HostRuntime) -> Result<(), Fail> {
    let key = payload_key(&FileKey::new(FILE_KEY), b"defghijklmnopqrs");
    let mut kept = MemSink::new(rt.alloc(), 100, 7, None)?;
    seal_to(&key, b"hello", &mut kept)?;
    assert!(rt; kept.bytes() == &FILE[92..]);
    let mut measured = CountingSink::new();
    seal_to(&key, b"hello", &mut measured)?;
    assert!(rt; measured.count == 21);
    Ok(())
}
