//! Names that a command line gives to two of its files.

ghost use Rattle.std.specs.Prelude.{◌≡◌, IfNone, IfSome, Some, true};
ghost use Rattle.age_cli_args.specs.{option_text};
ghost use Rattle.age_cli.specs.Runs.{AreApart, IsApart, IsOutputApart, IsSaveApart};

use age_cli_args::{Decrypting, Paths, Request};

/// Returns whether an optional name is given, and is `name`.
fn is_given(given: Option<&str>, name: &str) -> bool
    ensures { option_text given.entry ≡ Some name.now → result ≡ true }
{
    match given {
        Some(given) => given == name,
        None => false,
    }
}

/// Returns the name that the output shares with a file that is read, or the earlier output with the
/// input, if there is one.
fn find_read_output<'w>(
    paths: &Paths<'w>,
    first: Option<&'w str>,
    second: Option<&'w str>,
    position: Option<&'w str>,
    old: Option<&'w str>,
) -> Option<&'w str>
    ensures { IfNone result (IsOutputApart paths.now.from.now paths.now.to.now
        (option_text first.entry) (option_text second.entry) (option_text position.entry)
        (option_text old.entry)) }
{
    let from = paths.from;
    let to = paths.to;
    if to == from || is_given(first, to) || is_given(second, to) {
        return Some(to);
    }
    if is_given(position, to) || is_given(old, to) {
        return Some(to);
    }
    if is_given(old, from) {
        return Some(from);
    }
    None
}

/// Returns the name of the file of `--save`, if another file of the command has it. The file of the
/// position may.
fn find_used_save<'w>(asked: &Decrypting<'w>, old: Option<&'w str>) -> Option<&'w str>
    ensures { IfNone result (IfSome (option_text asked.now.save)
        (IsSaveApart asked.now.paths.from.now asked.now.paths.to.now
        (option_text asked.now.identity.pass) (option_text asked.now.identity.shared)
        (option_text old.entry))) }
{
    let Some(save) = asked.save else {
        return None;
    };
    if save == asked.paths.to || save == asked.paths.from {
        return Some(save);
    }
    let identity = asked.identity;
    if is_given(identity.pass, save) || is_given(identity.shared, save) || is_given(old, save) {
        return Some(save);
    }
    None
}

/// Returns a name that two of the files of a decryption share, if there is one.
fn find_shared<'w>(
    asked: &Decrypting<'w>,
    position: Option<&'w str>,
    old: Option<&'w str>,
) -> Option<&'w str>
    ensures { IfNone result (AreApart asked.now (option_text position.entry) (option_text old.entry)) }
{
    let identity = asked.identity;
    match find_read_output(&asked.paths, identity.pass, identity.shared, position, old) {
        Some(name) => Some(name),
        None => find_used_save(asked, old),
    }
}

/// Returns a name that two of the files of a command share, if there is one, and if the command
/// writes a file.
pub(crate) fn find_shared_name<'w>(request: &Request<'w>) -> Option<&'w str>
    ensures { IfNone result (IsApart request.now) }
{
    match request {
        Request::Encrypt(asked) => {
            find_read_output(&asked.paths, Some(asked.pass), asked.random, None, None)
        }
        Request::Decrypt(asked) => find_shared(asked, None, None),
        Request::Resume(asked) => {
            find_shared(&asked.decrypting, Some(asked.position), Some(asked.old))
        }
        Request::Inspect(_) | Request::Drill(_) => None,
    }
}
