//! HMAC, HKDF and PBKDF2 with SHA-256, and scrypt. A constant named for a case is what its RFC
//! gives.
ghost use Rattle.std.specs.Prelude.{◌≡◌, [], IsTrue, take, replicate, codes};
ghost use Rattle.age_kdf.specs.{hmac, hkdf32, pbkdf2_once};
ghost use Rattle.age_scrypt.specs.{scrypt};

use age_kdf::{hkdf32, hmac, pbkdf2_once};
use age_scrypt::{Steps, derive};
use std::alloc::Global;

const HMAC_MESSAGE_7: [u8; 152] =
    *b"This is a test using a larger than block-size key and a larger than block-size data. The \
        key needs to be hashed before being used by the HMAC algorithm.";

const HMAC_KEY_4: [u8; 25] =
    *b"\x01\x02\x03\x04\x05\x06\x07\x08\x09\x0a\x0b\x0c\x0d\x0e\x0f\x10\x11\x12\x13\x14\x15\x16\
        \x17\x18\x19";

const HKDF_SALT_1: [u8; 13] = *b"\0\x01\x02\x03\x04\x05\x06\x07\x08\x09\x0a\x0b\x0c";

const HKDF_INFO_1: [u8; 10] = *b"\xf0\xf1\xf2\xf3\xf4\xf5\xf6\xf7\xf8\xf9";

const HKDF_IKM_2: [u8; 80] =
    *b"\0\x01\x02\x03\x04\x05\x06\x07\x08\x09\x0a\x0b\x0c\x0d\x0e\x0f\x10\x11\x12\x13\x14\x15\x16\
        \x17\x18\x19\x1a\x1b\x1c\x1d\x1e\x1f\x20\x21\x22\x23\x24\x25\x26\x27\x28\x29\x2a\x2b\x2c\
        \x2d\x2e\x2f\x30\x31\x32\x33\x34\x35\x36\x37\x38\x39\x3a\x3b\x3c\x3d\x3e\x3f\x40\x41\x42\
        \x43\x44\x45\x46\x47\x48\x49\x4a\x4b\x4c\x4d\x4e\x4f";

const HKDF_SALT_2: [u8; 80] =
    *b"\x60\x61\x62\x63\x64\x65\x66\x67\x68\x69\x6a\x6b\x6c\x6d\x6e\x6f\x70\x71\x72\x73\x74\x75\
        \x76\x77\x78\x79\x7a\x7b\x7c\x7d\x7e\x7f\x80\x81\x82\x83\x84\x85\x86\x87\x88\x89\x8a\x8b\
        \x8c\x8d\x8e\x8f\x90\x91\x92\x93\x94\x95\x96\x97\x98\x99\x9a\x9b\x9c\x9d\x9e\x9f\xa0\xa1\
        \xa2\xa3\xa4\xa5\xa6\xa7\xa8\xa9\xaa\xab\xac\xad\xae\xaf";

const HKDF_INFO_2: [u8; 80] =
    *b"\xb0\xb1\xb2\xb3\xb4\xb5\xb6\xb7\xb8\xb9\xba\xbb\xbc\xbd\xbe\xbf\xc0\xc1\xc2\xc3\xc4\xc5\
        \xc6\xc7\xc8\xc9\xca\xcb\xcc\xcd\xce\xcf\xd0\xd1\xd2\xd3\xd4\xd5\xd6\xd7\xd8\xd9\xda\xdb\
        \xdc\xdd\xde\xdf\xe0\xe1\xe2\xe3\xe4\xe5\xe6\xe7\xe8\xe9\xea\xeb\xec\xed\xee\xef\xf0\xf1\
        \xf2\xf3\xf4\xf5\xf6\xf7\xf8\xf9\xfa\xfb\xfc\xfd\xfe\xff";

const HMAC_CASE_1: [u8; 32] =
    *b"\xb0\x34\x4c\x61\xd8\xdb\x38\x53\x5c\xa8\xaf\xce\xaf\x0b\xf1\x2b\x88\x1d\xc2\0\xc9\x83\x3d\
        \xa7\x26\xe9\x37\x6c\x2e\x32\xcf\xf7";

const HMAC_CASE_2: [u8; 32] =
    *b"\x5b\xdc\xc1\x46\xbf\x60\x75\x4e\x6a\x04\x24\x26\x08\x95\x75\xc7\x5a\0\x3f\x08\x9d\x27\x39\
        \x83\x9d\xec\x58\xb9\x64\xec\x38\x43";

const HMAC_CASE_3: [u8; 32] =
    *b"\x77\x3e\xa9\x1e\x36\x80\x0e\x46\x85\x4d\xb8\xeb\xd0\x91\x81\xa7\x29\x59\x09\x8b\x3e\xf8\
        \xc1\x22\xd9\x63\x55\x14\xce\xd5\x65\xfe";

const HMAC_CASE_4: [u8; 32] =
    *b"\x82\x55\x8a\x38\x9a\x44\x3c\x0e\xa4\xcc\x81\x98\x99\xf2\x08\x3a\x85\xf0\xfa\xa3\xe5\x78\
        \xf8\x07\x7a\x2e\x3f\xf4\x67\x29\x66\x5b";

const HMAC_CASE_5: [u8; 16] = *b"\xa3\xb6\x16\x74\x73\x10\x0e\xe0\x6e\x0c\x79\x6c\x29\x55\x55\x2b";

const HMAC_CASE_6: [u8; 32] =
    *b"\x60\xe4\x31\x59\x1e\xe0\xb6\x7f\x0d\x8a\x26\xaa\xcb\xf5\xb7\x7f\x8e\x0b\xc6\x21\x37\x28\
        \xc5\x14\x05\x46\x04\x0f\x0e\xe3\x7f\x54";

const HMAC_CASE_7: [u8; 32] =
    *b"\x9b\x09\xff\xa7\x1b\x94\x2f\xcb\x27\x63\x5f\xbc\xd5\xb0\xe9\x44\xbf\xdc\x63\x64\x4f\x07\
        \x13\x93\x8a\x7f\x51\x53\x5c\x3a\x35\xe2";

const HKDF_CASE_1: [u8; 32] =
    *b"\x3c\xb2\x5f\x25\xfa\xac\xd5\x7a\x90\x43\x4f\x64\xd0\x36\x2f\x2a\x2d\x2d\x0a\x90\xcf\x1a\
        \x5a\x4c\x5d\xb0\x2d\x56\xec\xc4\xc5\xbf";

const HKDF_CASE_2: [u8; 32] =
    *b"\xb1\x1e\x39\x8d\xc8\x03\x27\xa1\xc8\xe7\xf7\x8c\x59\x6a\x49\x34\x4f\x01\x2e\xda\x2d\x4e\
        \xfa\xd8\xa0\x50\xcc\x4c\x19\xaf\xa9\x7c";

const HKDF_CASE_3: [u8; 32] =
    *b"\x8d\xa4\xe7\x75\xa5\x63\xc1\x8f\x71\x5f\x80\x2a\x06\x3c\x5a\x31\xb8\xa1\x1f\x5c\x5e\xe1\
        \x87\x9e\xc3\x45\x4e\x5f\x3c\x73\x8d\x2d";

const PBKDF2_KEY: [u8; 64] =
    *b"\x55\xac\x04\x6e\x56\xe3\x08\x9f\xec\x16\x91\xc2\x25\x44\xb6\x05\xf9\x41\x85\x21\x6d\xde\
        \x04\x65\xe6\x8b\x9d\x57\xc2\x0d\xac\xbc\x49\xca\x9c\xcc\xf1\x79\xb6\x45\x99\x16\x64\xb3\
        \x9d\x77\xef\x31\x7c\x71\xb8\x45\xb1\xe3\x0b\xd5\x09\x11\x20\x41\xd3\xa1\x97\x83";

const SCRYPT_CASE_3: [u8; 32] =
    *b"\x70\x23\xbd\xcb\x3a\xfd\x73\x48\x46\x1c\x06\xcd\x81\xfd\x38\xeb\xfd\xa8\xfb\xba\x90\x4f\
        \x8e\x3e\xa9\xb5\x43\xf6\x54\x5d\xa1\xf2";

/// Returns whether the seven cases of RFC 4231, section 4, are as given there. The fifth gives 16
/// bytes of the HMAC.
pub fn rfc_hmac() -> bool
    ensures case_1 { IsTrue result → hmac (replicate 20 0x0b) (codes "Hi There") ≡ HMAC_CASE_1 }
    ensures case_2 { IsTrue result
        → hmac (codes "Jefe") (codes "what do ya want for nothing?") ≡ HMAC_CASE_2 }
    ensures case_3 { IsTrue result → hmac (replicate 20 0xaa) (replicate 50 0xdd) ≡ HMAC_CASE_3 }
    ensures case_4 { IsTrue result → hmac HMAC_KEY_4 (replicate 50 0xcd) ≡ HMAC_CASE_4 }
    ensures case_5 { IsTrue result
        → take 16 (hmac (replicate 20 0x0c) (codes "Test With Truncation")) ≡ HMAC_CASE_5 }
    ensures case_6 { IsTrue result
        → hmac (replicate 131 0xaa) (codes "Test Using Larger Than Block-Size Key - Hash Key First")
        ≡ HMAC_CASE_6 }
    ensures case_7 { IsTrue result → hmac (replicate 131 0xaa) HMAC_MESSAGE_7 ≡ HMAC_CASE_7 }
{
    hmac(&[0x0b; 20], &[b"Hi There"]) == HMAC_CASE_1
        && hmac(b"Jefe", &[b"what do ya want for nothing?"]) == HMAC_CASE_2
        && hmac(&[0xaa; 20], &[&[0xdd; 50]]) == HMAC_CASE_3
        && hmac(&HMAC_KEY_4, &[&[0xcd; 50]]) == HMAC_CASE_4
        && hmac(&[0x0c; 20], &[b"Test With Truncation"]).starts_with(&HMAC_CASE_5)
        && hmac(
            &[0xaa; 131],
            &[b"Test Using Larger Than Block-Size Key - Hash Key First"],
        ) == HMAC_CASE_6
        && hmac(&[0xaa; 131], &[&HMAC_MESSAGE_7]) == HMAC_CASE_7
}

/// Returns whether the cases of RFC 5869, appendices A.1 to A.3, are as given there, by the first
/// 32 bytes of their output.
pub fn rfc_hkdf() -> bool
    ensures case_1 { IsTrue result
        → hkdf32 (replicate 22 0x0b) HKDF_SALT_1 HKDF_INFO_1 ≡ HKDF_CASE_1 }
    ensures case_2 { IsTrue result → hkdf32 HKDF_IKM_2 HKDF_SALT_2 HKDF_INFO_2 ≡ HKDF_CASE_2 }
    ensures case_3 { IsTrue result → hkdf32 (replicate 22 0x0b) [] [] ≡ HKDF_CASE_3 }
{
    hkdf32(&[0x0b; 22], &HKDF_SALT_1, &HKDF_INFO_1) == HKDF_CASE_1
        && hkdf32(&HKDF_IKM_2, &HKDF_SALT_2, &HKDF_INFO_2) == HKDF_CASE_2
        && hkdf32(&[0x0b; 22], &[], &[]) == HKDF_CASE_3
}

/// Returns whether the case of RFC 7914, section 11, with one iteration, is as given there.
pub fn rfc_pbkdf2() -> bool
    ensures { IsTrue result
        → pbkdf2_once (codes "passwd") (codes "salt") 64 ≡ PBKDF2_KEY }
{
    let mut key = [0; 64];
    pbkdf2_once(b"passwd", b"salt", &mut key);
    key == PBKDF2_KEY
}

/// Returns whether the third case of RFC 7914, section 12, is as given there, by the first 32 bytes
/// of its output. Returns `false` also if memory runs out.
pub fn rfc_scrypt(alloc: Global) -> bool
    ensures { IsTrue result
        → scrypt (codes "pleaseletmein") (codes "SodiumChloride") 14 ≡ SCRYPT_CASE_3 }
{
    match derive(
        alloc,
        b"pleaseletmein",
        b"SodiumChloride",
        14,
        &mut Steps::new(),
    ) {
        Ok(key) => key == SCRYPT_CASE_3,
        Err(_) => false,
    }
}
