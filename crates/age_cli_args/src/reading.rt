//! Converts the arguments to a request.

ghost use Rattle.std.specs.Prelude.{◌≡◌, ◌≤◌, ℕ, None, Some, IfNone, IfOk, IfSome, codes};
ghost use Rattle.std.specs.Prelude.{if◌then◌else◌};
ghost use Rattle.clap.specs.Words.{subcommand_rows_of, rows_of, found_of, one_of, first_of, FailsBy};
ghost use Rattle.clap.specs.Walk.{texts};
ghost use Rattle.age_cli_args.specs.{refusals, is_given, IsNumber, option_text, IsPaths, IsEncrypting};
ghost use Rattle.age_cli_args.specs.{IsIdentityOptions, IsDecrypting, IsResuming, IsDrilling, IsRequest};
ghost use Rattle.age_cli_args.specs.Requests.{Requests};
ghost use Rattle.age_cli_args.specs.declared.request.Encrypting.{Encrypting};
ghost use Rattle.age_cli_args.specs.declared.request.IdentityOptions.{IdentityOptions};
ghost use Rattle.age_cli_args.specs.declared.request.Decrypting.{Decrypting};
ghost use Rattle.age_cli_args.specs.declared.request.Paths.{Paths};
ghost use Rattle.age_cli_args.specs.declared.request.Resuming.{Resuming};
ghost use Rattle.age_cli_args.specs.declared.request.Drilling.{Drilling};
ghost use Rattle.age_cli_args.specs.declared.request.Request.{Request};
ghost use Rattle.age_host_model.specs.declared.options.ClobberOption.TheVariants.{Allowed, Refused};
ghost use Rattle.age_cli_args.specs.declared.request.ProgressOption.TheVariants.{Shown, Silent};
ghost use Rattle.age_host_model.specs.declared.options.Durability.TheVariants.{Buffered, Synced};

use crate::commands::parse_words;
use crate::request::{
    Decrypting, Drilling, Encrypting, IdentityOptions, MOST_WORK, Paths, ProgressOption, Request,
    Resuming,
};
use age_host_model::{ClobberOption, Durability};
use clap::{ArgMatches, Error};
use std::alloc::Global;

/// Returns the number if it is a work factor, 1 to 22.
fn work_factor_in_range(n: u32) -> Option<u32>
    ensures some { IfSome result (λ m. (m ≡ n) × (1 ≤ n) × (n ≤ 22)) }
    ensures none { IfNone result (1 ≤ n → n ≤ 22 → ⊥) }
{
    if n >= 1 && n <= MOST_WORK {
        Some(n)
    } else {
        None
    }
}

/// Returns the work factor in an argument, 1 to 22, or the default if it isn't given. The parser's
/// contract says nothing about a number's range, so it is checked here.
fn number(matches: &ArgMatches<'_>, id: &str, default: u32) -> Option<u32>
    ensures value { IfSome result
        (IsNumber default (one_of id.now (rows_of (found_of matches.now)))) }
    ensures none { IfNone result ((n : ℕ)
        → IsNumber default (one_of id.now (rows_of (found_of matches.now))) n → ⊥) }
{
    match matches.get_one::<u32>(id) {
        Some(n) => work_factor_in_range(n),
        None if matches.get_str(id).is_none() => Some(default),
        None => None,
    }
}

/// Returns the first value of an argument.
fn text<'a>(matches: &ArgMatches<'a>, id: &str) -> Option<&'a str>
    ensures { option_text result ≡ first_of id.now (rows_of (found_of matches.now)) }
{
    matches.get_str(id)
}

/// Returns whether a flag is given.
fn flag(matches: &ArgMatches<'_>, id: &str) -> bool
    ensures { result ≡ is_given id.now (rows_of (found_of matches.now)) }
{
    matches.get_one::<bool>(id).unwrap_or(false)
}

/// Returns whether OUT and a saved position are synced: unless `--no-sync` is given.
fn durability(matches: &ArgMatches<'_>) -> Durability
    ensures { result ≡ (if is_given (codes "no-sync") (rows_of (found_of matches.now)) then Buffered
        else Synced) }
{
    if flag(matches, "no-sync") {
        Durability::Buffered
    } else {
        Durability::Synced
    }
}

/// Returns whether an existing OUT is overwritten or refused, as `--no-clobber` asks.
fn clobber(matches: &ArgMatches<'_>) -> ClobberOption
    ensures { result ≡ (if is_given (codes "no-clobber") (rows_of (found_of matches.now)) then Refused
        else Allowed) }
{
    if flag(matches, "no-clobber") {
        ClobberOption::Refused
    } else {
        ClobberOption::Allowed
    }
}

/// Returns whether progress is shown, as `--progress` asks.
fn progress(matches: &ArgMatches<'_>) -> ProgressOption
    ensures { result ≡ (if is_given (codes "progress") (rows_of (found_of matches.now)) then Shown
        else Silent) }
{
    if flag(matches, "progress") {
        ProgressOption::Shown
    } else {
        ProgressOption::Silent
    }
}

/// Returns the name of the command that the arguments give, and its own arguments.
fn find_subcommand<'m, 'a>(matches: &'m ArgMatches<'a>) -> Option<(&'a str, &'m ArgMatches<'a>)>
    ensures some { IfSome result
        (λ p. subcommand_rows_of matches.now ≡ Some (p.0.now, rows_of (found_of p.1.now))) }
    ensures none { IfNone result (subcommand_rows_of matches.now ≡ None) }
{
    matches.subcommand()
}

fn paths<'a>(matches: &ArgMatches<'a>) -> Option<Paths<'a>>
    ensures some { IfSome result (IsPaths (rows_of (found_of matches.now))) }
    ensures none { IfNone result ((x : Paths) → IsPaths (rows_of (found_of matches.now)) x → ⊥) }
{
    Some(Paths {
        from: text(matches, "IN")?,
        to: text(matches, "OUT")?,
        clobber: clobber(matches),
        durability: durability(matches),
        progress: progress(matches),
    })
}

fn encrypting<'a>(matches: &ArgMatches<'a>) -> Option<Encrypting<'a>>
    ensures some { IfSome result (IsEncrypting (rows_of (found_of matches.now))) }
    ensures none { IfNone result ((x : Encrypting) → IsEncrypting (rows_of (found_of matches.now)) x → ⊥) }
{
    Some(Encrypting {
        pass: text(matches, "pass")?,
        log: number(matches, "log", 18)?,
        random: text(matches, "random"),
        paths: paths(matches)?,
    })
}

fn identity_options<'a>(matches: &ArgMatches<'a>) -> Option<IdentityOptions<'a>>
    ensures some { IfSome result (IsIdentityOptions (rows_of (found_of matches.now))) }
    ensures none { IfNone result ((x : IdentityOptions)
        → IsIdentityOptions (rows_of (found_of matches.now)) x → ⊥) }
{
    Some(IdentityOptions {
        pass: text(matches, "pass"),
        file_key: text(matches, "file-key"),
        shared: text(matches, "shared"),
        max_log: number(matches, "max-log", MOST_WORK)?,
    })
}

fn decrypting<'a>(matches: &ArgMatches<'a>) -> Option<Decrypting<'a>>
    ensures some { IfSome result (IsDecrypting (rows_of (found_of matches.now))) }
    ensures none { IfNone result ((x : Decrypting) → IsDecrypting (rows_of (found_of matches.now)) x → ⊥) }
{
    Some(Decrypting {
        identity: identity_options(matches)?,
        save: text(matches, "save"),
        paths: paths(matches)?,
    })
}

fn resuming<'a>(matches: &ArgMatches<'a>) -> Option<Resuming<'a>>
    ensures some { IfSome result (IsResuming (rows_of (found_of matches.now))) }
    ensures none { IfNone result ((x : Resuming) → IsResuming (rows_of (found_of matches.now)) x → ⊥) }
{
    Some(Resuming {
        decrypting: decrypting(matches)?,
        position: text(matches, "position")?,
        old: text(matches, "old")?,
    })
}

fn drilling<'a>(matches: &ArgMatches<'a>) -> Option<Drilling<'a>>
    ensures some { IfSome result (IsDrilling (rows_of (found_of matches.now))) }
    ensures none { IfNone result ((x : Drilling) → IsDrilling (rows_of (found_of matches.now)) x → ⊥) }
{
    Some(Drilling {
        clear: flag(matches, "clear"),
        pass: text(matches, "pass"),
        script: text(matches, "SCRIPT")?,
        from: text(matches, "IN")?,
    })
}

/// Returns the request of a command, by its name and its arguments.
fn build_request<'a>(name: &str, matches: &ArgMatches<'a>) -> Option<Request<'a>>
    ensures some { IfSome result (IsRequest name.now (rows_of (found_of matches.now))) }
    ensures none { IfNone result ((r : Request)
        → IsRequest name.now (rows_of (found_of matches.now)) r → ⊥) }
{
    match name {
        "encrypt" => encrypting(matches).map(Request::Encrypt),
        "decrypt" => decrypting(matches).map(Request::Decrypt),
        "resume" => resuming(matches).map(Request::Resume),
        "inspect" => Some(Request::Inspect(text(matches, "FILE"))),
        "drill" => drilling(matches).map(Request::Drill),
        _ => None,
    }
}

/// Parses the arguments after the program's name. Fails with the error of the parser of command
/// lines: for arguments that no command takes, for a request for help or the version, and if memory
/// runs out.
///
/// Never returns `None`: each command declares every argument that it reads, and numbers outside 1
/// to 22 are refused. But the parser of command lines doesn't promise this, so callers must handle
/// it.
pub fn read_request<'a>(alloc: Global, words: &'a [&'a str]) -> Result<Option<Request<'a>>, Error>
    ensures asked { IfOk result (λ o. IfSome o (Requests (texts words.now))) }
    ensures unasked { IfOk result (λ o. IfNone o ((r : Request) → Requests (texts words.now) r → ⊥)) }
    ensures refusals { FailsBy (refusals (texts words.now)) result }
{
    let matches = parse_words(alloc, words)?;
    match find_subcommand(&matches) {
        Some((name, inner)) => Ok(build_request(name, inner)),
        None => Ok(None),
    }
}
