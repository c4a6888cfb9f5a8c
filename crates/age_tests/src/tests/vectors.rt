//! Tests that call each function of the vectors once, and a test of how faults of the libraries are
//! displayed.

use age_stanza::{HeadFault, HeadKind};
use age_stream::{CHUNK_LIMIT, SealFault, StreamFault, StreamKind};
use age_vectors::{
    delivery_rows, header_rows, hostile_rows, key_rows, rfc_aead, rfc_chacha, rfc_hkdf, rfc_hmac,
    rfc_pbkdf2, rfc_poly1305, rfc_scrypt, shared_rows, stop_rows,
};
use std::test::Fail;

#[test]
fn values_of_standards(rt: HostRuntime) {
    assert!(rt; rfc_chacha());
    assert!(rt; rfc_poly1305());
    assert!(rt; rfc_aead());
    assert!(rt; rfc_hmac());
    assert!(rt; rfc_hkdf());
    assert!(rt; rfc_pbkdf2());
    assert!(rt; rfc_scrypt(rt.alloc()));
}

#[test]
fn worked_rows(rt: HostRuntime) {
    assert!(rt; header_rows(rt.alloc()));
    assert!(rt; key_rows(rt.alloc()));
    assert!(rt; shared_rows(rt.alloc()));
    assert!(rt; delivery_rows(rt.alloc()));
    assert!(rt; hostile_rows(rt.alloc()));
}

#[test]
fn every_failure_in_turn(rt: HostRuntime) {
    assert!(rt; stop_rows(rt.alloc()));
}

#[test]
fn texts_of_faults(rt: HostRuntime) -> Result<(), Fail> {
    let bad_line = HeadFault {
        kind: HeadKind::BadStanzaLine,
        line: 3,
    };
    let refused = SealFault::Stream(StreamFault {
        kind: StreamKind::TooManyChunks,
        chunk: CHUNK_LIMIT - 1,
    });
    let text = format!(in rt.alloc(); "{bad_line}, {refused}, {}", SealFault::Memory)?;
    assert!(rt;
        text.as_str()
            == "bad stanza line at line 3, too many chunks at chunk 281474976710655, out of memory"
    );
    Ok(())
}
