//! The C functions that read a header without opening it.

ghost use Rattle.std.specs.Prelude.{length, take};
ghost use Rattle.age_c.specs.{PutsFront, TellsHeader, TellsStanzas};

use crate::MISUSED;
use crate::stanza_place::StanzaPlace;
use crate::stanzas::{put_bodies, put_places};
use crate::start::parse_front;
use crate::work::find_work_factor;
use std::alloc::Global;

/// Reports on the header that `front` begins with: its length in bytes, its number of stanzas, and
/// the work factor that it demands of a passphrase, saturating at 2^32 - 1. The work factor is 0 if
/// the header isn't one valid scrypt stanza, so that no passphrase opens it. Opens nothing.
#[unsafe(no_mangle)]
pub extern "C" fn age_c_header(
    alloc: Global,
    front: &[u8],
    header_len: &mut usize,
    stanzas: &mut usize,
    work: &mut u32,
) -> u32
    ensures { TellsHeader front.now result header_len.new stanzas.new work.new }
{
    *header_len = 0;
    *stanzas = 0;
    *work = 0;
    match parse_front(alloc, front) {
        Ok(head) => {
            *header_len = head.len;
            *stanzas = head.header.stanzas.len();
            *work = find_work_factor(&head.header);
            0
        }
        Err(fault) => fault.number(),
    }
}

/// Reports the places of all stanzas of the header that `front` begins with: the first `count` of
/// `places` say where their arguments are in `front`, and their bodies in `out`. `out` has room for
/// as many bytes as `front` has or more. There must be room for all places, or none is written.
#[unsafe(no_mangle)]
pub extern "C" fn age_c_stanzas(
    alloc: Global,
    front: &[u8],
    places: &mut [StanzaPlace],
    count: &mut usize,
    out: &mut [u8],
    written: &mut usize,
) -> u32
    ensures tells { TellsStanzas front.now (length places.old) (length out.old) result
        (take count.new places.new) (take written.new out.new) }
    ensures placed { PutsFront count.new places.old places.new }
    ensures put { PutsFront written.new out.old out.new }
{
    *count = 0;
    *written = 0;
    if out.len() < front.len() {
        return MISUSED;
    }
    let head = match parse_front(alloc, front) {
        Ok(head) => head,
        Err(fault) => return fault.number(),
    };
    let stanzas = head.header.stanzas.as_slice();
    if places.len() < stanzas.len() {
        return MISUSED;
    }
    put_places(stanzas, places);
    *count = stanzas.len();
    *written = put_bodies(stanzas, out);
    0
}
