//! The decoding of a file's payload.

ghost use Rattle.std.specs.Prelude.{◌≡◌, ◌≢◌, ◌-◌, ◌≤◌, length, take, drop};
ghost use Rattle.age_c.specs.{misused, FeedsStream, FinishesStream, IsFinishCall, Decodes};
ghost use Rattle.age_c.specs.inner.{IsStreamCall, KeepsRoom};

use crate::MISUSED;
use crate::decoder::Decoder;
use crate::feed::{feed_stream, finish_stream};

/// Removes the first `skip` of the `count` bytes at the front of `out`, and returns the number
/// left.
fn pass_over(skip: usize, out: &mut [u8], count: usize) -> usize
    requires { count ≤ length out.old }
    ensures text { take result out.new ≡ drop skip (take count out.old) }
    ensures left { result ≡ count - skip }
    ensures after { drop count out.new ≡ drop count out.old }
    ensures most { result ≤ length out.new }
{
    if skip == 0 {
        return count;
    }
    if skip >= count {
        return 0;
    }
    out.copy_within(skip..count, 0);
    count - skip
}

/// Takes bytes of the payload from the front of `piece`, up to the end of the block that is open,
/// and copies the plaintext of a block that is full to `out`, from the place of a seek on. `out`
/// has room for 65,536 bytes or more if a block becomes full. Returns 0 or the number of a fault,
/// 17 to 22, with which the decoder refuses each further call that gives it bytes or an end.
pub(crate) fn decode(
    decoder: &mut Decoder,
    piece: &[u8],
    taken: &mut usize,
    out: &mut [u8],
    written: &mut usize,
) -> u32
    ensures decodes { result ≢ misused → Decodes
        (λ answer text new. FeedsStream piece.now decoder.old.stream answer taken.new text new)
        decoder.old decoder.new result written.new out.old out.new }
    ensures idle { result ≡ misused → decoder.new ≡ decoder.old }
    ensures nothing { result ≢ 0 → written.new ≡ 0 }
    ensures none { result ≡ misused → taken.new ≡ 0 }
    ensures room { result ≢ misused → KeepsRoom piece.now decoder.old.stream taken.new written.new
        decoder.new.stream }
    ensures most { written.new ≤ length out.new }
    ensures fits { decoder.old.open ≡ 1 → IsStreamCall decoder.old.stream piece.now out.old
        → result ≢ misused }
    ensures meant { result ≢ misused
        → (decoder.old.open ≡ 1) × IsStreamCall decoder.old.stream piece.now out.old }
{
    *taken = 0;
    *written = 0;
    if decoder.open != 1 {
        return MISUSED;
    }
    let answer = feed_stream(&mut decoder.stream, piece, taken, out, written);
    let count = *written;
    *written = pass_over(decoder.skip, out, count);
    decoder.skip = decoder.skip.saturating_sub(count);
    answer
}

/// Ends the file, and copies the rest of its plaintext, from the place of a seek on, to `out`,
/// which has room for it. The plaintext is complete only if the result is 0.
#[unsafe(no_mangle)]
pub extern "C" fn age_c_decode_end(
    decoder: &mut Decoder,
    out: &mut [u8],
    written: &mut usize,
) -> u32
    ensures decodes { result ≢ misused → Decodes (FinishesStream decoder.old.stream) decoder.old
        decoder.new result written.new out.old out.new }
    ensures idle { result ≡ misused → decoder.new ≡ decoder.old }
    ensures nothing { result ≢ 0 → written.new ≡ 0 }
    ensures most { written.new ≤ length out.new }
    ensures fits { decoder.old.open ≡ 1 → IsFinishCall decoder.old.stream out.old
        → result ≢ misused }
    ensures meant { result ≢ misused
        → (decoder.old.open ≡ 1) × IsFinishCall decoder.old.stream out.old }
{
    *written = 0;
    if decoder.open != 1 {
        return MISUSED;
    }
    let answer = finish_stream(&mut decoder.stream, out, written);
    let count = *written;
    *written = pass_over(decoder.skip, out, count);
    decoder.skip = decoder.skip.saturating_sub(count);
    answer
}
