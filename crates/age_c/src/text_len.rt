//! The lengths of a header's parts in its text.

ghost use Rattle.std.specs.Prelude.{◌≡◌, ◌≤◌, ◌∷◌, length};
ghost use Rattle.std.specs.List.{flat_map};
ghost use Rattle.age_stanza.specs.{header_limit, in_lines, stanza_text, base64_text};

use age_stanza::{Argument, Stanza};

/// Returns the length of arguments, each with the space before it.
pub(crate) fn args_len(args: &[Argument]) -> usize
    requires { length (flat_map (λ a. 32 ∷ a) args.now) ≤ header_limit }
    ensures { result ≡ length (flat_map (λ a. 32 ∷ a) args.now) }
{
    let mut len = 0;
    for argument in args {
        len += 1 + argument.len();
    }
    len
}

/// Returns the length of a body in lines of base64.
fn body_len(body: &[u8]) -> usize
    requires { length body.now ≤ header_limit }
    ensures { result ≡ length (in_lines (base64_text body.now)) }
{
    let characters = (4 * body.len()).div_ceil(3);
    characters + characters / 64 + 1
}

/// Returns the length of a stanza's text.
pub(crate) fn stanza_len(stanza: &Stanza) -> usize
    requires { length (stanza_text stanza.now) ≤ header_limit }
    ensures { result ≡ length (stanza_text stanza.now) }
{
    let mark_and_line_end = 3;
    mark_and_line_end + args_len(stanza.args.as_slice()) + body_len(stanza.body.as_slice())
}
