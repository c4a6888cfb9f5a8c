//! The argument line of a stanza.

ghost use Rattle.std.specs.Prelude.{◌≡◌, ◌==◌, ◌≤◌, ◌++◌, ◌∷◌, [], length, true, false, IfOk, Some, None};
ghost use Rattle.std.specs.List.{position};
ghost use Rattle.age_stanza.specs.{IsArgument};
ghost use Rattle.age_stanza.specs.inner.{arguments_from, arguments_of as spec_arguments_of, at_spaces};

use crate::argument::{Argument, Arguments};
use crate::valid::is_argument;
use std::alloc::{AllocError, Global};

/// Appends an argument, and returns whether its characters are valid. Leaves `args` unchanged if
/// they aren't.
fn push_valid(alloc: Global, args: &mut Arguments, characters: &[u8]) -> Result<bool, AllocError>
    ensures pushed { IfOk result (λ r. r ≡ true → IsArgument characters.now
        × (args.new ≡ args.old ++ characters.now ∷ [])) }
    ensures refused { IfOk result (λ r. r ≡ false → IsArgument characters.now → ⊥) }
{
    if !is_argument(characters) {
        return Ok(false);
    }
    args.push(Argument::from_slice(alloc, characters)?)?;
    Ok(true)
}

/// Returns the position of the first space, which ends the first argument.
fn argument_end(letters: &[u8]) -> Option<usize>
    ensures { result ≡ position (λ c. c == 32) letters.now }
{
    letters.iter().position(|c| *c == b' ')
}

/// Appends the arguments that `letters` has, separated by single spaces, and returns whether all
/// are valid.
fn push_all(alloc: Global, args: &mut Arguments, letters: &[u8]) -> Result<bool, AllocError>
    ensures all { IfOk result
        (λ r. r ≡ true → arguments_from args.old (at_spaces letters.now) ≡ Some args.new) }
    ensures refused { IfOk result
        (λ r. r ≡ false → arguments_from args.old (at_spaces letters.now) ≡ None) }
{
    let mut rest = letters;
    while let Some(end) = argument_end(rest) {
        if !push_valid(alloc, args, &rest[..end])? {
            return Ok(false);
        }
        rest = &rest[end + 1..];
    }
    push_valid(alloc, args, rest)
}

/// Returns the number of spaces.
fn spaces_in(letters: &[u8]) -> usize
    ensures { result ≤ length letters.now }
{
    letters.iter().filter(|c| **c == b' ').count()
}

/// Parses arguments that are separated by single spaces. Returns `None` if one isn't valid.
fn arguments_in(alloc: Global, letters: &[u8]) -> Result<Option<Arguments>, AllocError>
    ensures { IfOk result (λ r. r ≡ arguments_from [] (at_spaces letters.now)) }
{
    let mut args = Arguments::from_vec(Vec::with_capacity(alloc, spaces_in(letters) + 1)?);
    if push_all(alloc, &mut args, letters)? {
        Ok(Some(args))
    } else {
        Ok(None)
    }
}

/// Parses an argument line, without its LF. Returns `None` if it isn't one.
#[tactic(auto, unfolding(crate::specs::inner::LineMachine::arguments_of))]
pub(crate) fn split_arguments(alloc: Global, line: &[u8]) -> Result<Option<Arguments>, AllocError>
    ensures { IfOk result (λ r. r ≡ spec_arguments_of line.now) }
{
    if !line.starts_with(b"-> ") {
        return Ok(None);
    }
    arguments_in(alloc, &line[3..])
}
