//! The rule by which a header that wasn't complete is tried again.

ghost use Rattle.std.specs.Prelude.{◌≡◌, ◌≢◌, ℕ, ◌+◌, ◌<◌, ◌≤◌, ◌↔◌, IsTrue, true, false, length};
ghost use Rattle.age_stanza.specs.declared.header.Header.{Header};
ghost use Rattle.age_c.specs.{more, HasFront};
ghost use Rattle.age_c.specs.inner.Tries.{EndsAt, IsWorthATry, marks_in};

use crate::MORE;
use age_stanza::HEAD_MAX;

/// The beginning of a header's end line, after the line before it.
const END_MARK: &[u8; 5] = b"\n--- ";

/// The length of the end line in bytes, with the LF of the line before it and its own.
const END_LEN: usize = 49;

/// The length of the payload nonce in bytes.
const NONCE_LEN: usize = 16;

/// The greatest length of a header and its nonce in bytes.
const FRONT_MAX: usize = HEAD_MAX + NONCE_LEN;

/// Returns whether a header can end with the line after `at`, with a nonce behind it.
fn ends_at(front: &[u8], at: usize) -> bool
    requires { at ≤ length front.now }
    ensures { IsTrue result ↔ EndsAt front.now at }
{
    let rest = &front[at..];
    rest.len() >= END_LEN + NONCE_LEN && rest.starts_with(END_MARK) && rest[END_LEN - 1] == b'\n'
}

/// Returns whether a header can end, with a nonce behind it, with the line after `from` or after a
/// later byte.
fn ends_from(front: &[u8], from: usize) -> bool
    ensures found { result ≡ true → (at : ℕ) × (from ≤ at) × EndsAt front.now at }
    ensures none { result ≡ false → (at : ℕ) → from ≤ at → ¬ EndsAt front.now at }
{
    for at in from..front.len() {
        if ends_at(front, at) {
            return true;
        }
    }
    false
}

/// Returns whether a header and its nonce can end after the first `seen` bytes.
fn ends_after(front: &[u8], seen: usize) -> bool
    ensures found { result ≡ true → (at : ℕ) × (seen < at + 65) × EndsAt front.now at }
    ensures none { result ≡ false → (at : ℕ) → seen < at + 65 → ¬ EndsAt front.now at }
    ensures begun { result ≡ false → (header : Header) (len : ℕ) → HasFront front.now header len
        → len + 16 ≤ seen }
{
    ends_from(front, seen.saturating_sub(END_LEN + NONCE_LEN - 1))
}

/// Returns how many retry thresholds `len` has passed. At each of them a header is tried even if it
/// looks incomplete, so that a faulty one is refused early. They are few, so all tries together
/// take linear time.
fn marks_in(len: usize) -> u32
    ensures { result ≡ marks_in len }
{
    if len >= FRONT_MAX {
        5
    } else if len >= 65_536 {
        4
    } else if len >= 4_096 {
        3
    } else if len >= 64 {
        2
    } else if len >= 1 {
        1
    } else {
        0
    }
}

/// Returns 0 if the header that `front` begins with should be tried again, after its first `seen`
/// bytes weren't enough, or else [`MORE`]. It is tried as soon as the header and the nonce look
/// complete, and only a few times before. So all calls for one header together take time linear in
/// its length, however small its pieces are.
pub(crate) fn may_open(front: &[u8], seen: usize) -> u32
    ensures begun { (header : Header) (len : ℕ) → HasFront front.now header len
        → seen < len + 16 → result ≡ 0 }
    ensures tries { IsWorthATry front.now seen → result ≡ 0 }
    ensures seldom { result ≡ 0 → IsWorthATry front.now seen }
    ensures waits { result ≢ 0 → result ≡ more }
{
    if marks_in(seen) < marks_in(front.len()) {
        return 0;
    }
    if ends_after(front, seen) {
        return 0;
    }
    MORE
}
