//! The places of a header's stanzas, and their bodies.

ghost use Rattle.std.specs.Prelude.{◌≡◌, ◌+◌, ◌≤◌, length, take, drop};
ghost use Rattle.age_stanza.specs.{header_limit, stanza_text, stanzas_text};
ghost use Rattle.age_c.specs.{PutsFront, bodies_of};
ghost use Rattle.age_c.specs.inner.{place_of, places_from};

use crate::stanza_place::StanzaPlace;
use crate::text_len::{args_len as spaced_len, stanza_len};
use age_stanza::Stanza;

/// The length of the version line in bytes, with its LF.
const VERSION_LINE_LEN: usize = 22;

/// Returns the place of a stanza whose text begins at `at`, and whose body at `body_at` of a
/// buffer.
fn locate_stanza(stanza: &Stanza, at: usize, body_at: usize) -> StanzaPlace
    requires { at + length (stanza_text stanza.now) ≤ header_limit }
    ensures { result ≡ place_of at body_at stanza.now }
{
    let mark_len = 3;
    StanzaPlace {
        args_at: at + mark_len,
        args_len: spaced_len(stanza.args.as_slice()).saturating_sub(1),
        body_at,
        body_len: stanza.body.len(),
    }
}

/// Writes the places of stanzas that follow the version line to the front of `places`. Their bodies
/// follow one another in a buffer.
pub(crate) fn put_places(stanzas: &[Stanza], places: &mut [StanzaPlace])
    requires limit { length (stanzas_text stanzas.now) ≤ header_limit }
    requires room { length stanzas.now ≤ length places.old }
    ensures places { take (length stanzas.now) places.new ≡ places_from 22 0 stanzas.now }
    ensures after { drop (length stanzas.now) places.new ≡ drop (length stanzas.now) places.old }
{
    let mut at = VERSION_LINE_LEN;
    let mut body_at = 0;
    for (index, stanza) in stanzas.iter().enumerate() {
        places[index] = locate_stanza(stanza, at, body_at);
        at += stanza_len(stanza);
        body_at += stanza.body.len();
    }
}

/// Copies the bodies of stanzas to the front of `out`, one after the other, and returns the number
/// of bytes.
pub(crate) fn put_bodies(stanzas: &[Stanza], out: &mut [u8]) -> usize
    requires { length (bodies_of stanzas.now) ≤ length out.old }
    ensures bodies { take result out.new ≡ bodies_of stanzas.now }
    ensures put { PutsFront result out.old out.new }
{
    let mut written = 0;
    for stanza in stanzas {
        let body = stanza.body.as_slice();
        out[written..written + body.len()].copy_from_slice(body);
        written += body.len();
    }
    written
}
