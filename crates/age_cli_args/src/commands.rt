//! The commands of the program and their arguments, for the parser of command lines.

ghost use Rattle.std.specs.Prelude.{◌≡◌, false, IfOk};
ghost use Rattle.clap.specs.Words.{App, rule_of, new_rule, with_subcommand, new_app, FailsBy};
ghost use Rattle.clap.specs.Words.{subcommand_rows_of};
ghost use Rattle.clap.specs.Walk.{texts};
ghost use Rattle.age_cli_args.specs.Commands.{option_rule, required_rule, number_rule, flag_rule, age_tool};
ghost use Rattle.age_cli_args.specs.inner.{HasApp, described_tool, bare_tool};
ghost use Rattle.age_cli_args.specs.inner.{rule_as, with_all, app_as, with_subcommands};
ghost use Rattle.age_cli_args.specs.Requests.{refusals, named};

use crate::help;
use crate::request::MOST_WORK;
use clap::{Arg, ArgAction, ArgMatches, Command, Error};
use std::alloc::{AllocError, Global};

/// The form of an argument: an option with a value, a flag, or a word.
#[derive(Clone, Copy)]
pub enum ArgumentForm {
    /// An option with a value, `--ID VALUE`; the help shows this word for the value.
    Value(&'static str),
    /// A required option with a file, `--ID FILE`.
    File,
    /// An option with a number, `--ID N`, for N from 1 to [`MOST_WORK`].
    Number,
    /// A flag, `--ID`.
    Flag,
    /// A required word.
    Operand,
    /// An optional word.
    Word,
}

/// An argument of a command.
#[derive(Clone, Copy)]
pub struct Argument {
    /// The name of the argument.
    pub id: &'static str,
    /// The form of the argument.
    pub given: ArgumentForm,
    /// The text of the help.
    help: &'static str,
}

const PASS: Argument = Argument {
    id: "pass",
    given: ArgumentForm::Value("FILE"),
    help: help::PASS,
};

const FILE_KEY: Argument = Argument {
    id: "file-key",
    given: ArgumentForm::Value("HEX"),
    help: help::FILE_KEY,
};

const SHARED: Argument = Argument {
    id: "shared",
    given: ArgumentForm::Value("FILE"),
    help: help::SHARED,
};

const MAX_LOG: Argument = Argument {
    id: "max-log",
    given: ArgumentForm::Number,
    help: help::MAX_LOG,
};

const NO_SYNC: Argument = Argument {
    id: "no-sync",
    given: ArgumentForm::Flag,
    help: help::NO_SYNC,
};

const PROGRESS: Argument = Argument {
    id: "progress",
    given: ArgumentForm::Flag,
    help: help::PROGRESS,
};

#[rattlefmt::skip]
const ENCRYPT: &[Argument] = &[
    Argument { id: "pass", given: ArgumentForm::File, help: help::PASS },
    Argument { id: "log", given: ArgumentForm::Number, help: help::LOG },
    Argument { id: "random", given: ArgumentForm::Value("FILE"), help: help::RANDOM },
    NO_SYNC,
    Argument { id: "no-clobber", given: ArgumentForm::Flag, help: help::NO_CLOBBER },
    PROGRESS,
    Argument { id: "IN", given: ArgumentForm::Operand, help: help::PLAIN_IN },
    Argument { id: "OUT", given: ArgumentForm::Operand, help: help::FILE_OUT },
];

#[rattlefmt::skip]
const DECRYPT: &[Argument] = &[
    PASS,
    FILE_KEY,
    SHARED,
    MAX_LOG,
    Argument { id: "save", given: ArgumentForm::Value("FILE"), help: help::SAVE },
    NO_SYNC,
    Argument { id: "no-clobber", given: ArgumentForm::Flag, help: help::NO_CLOBBER_OR_SAVE },
    PROGRESS,
    Argument { id: "IN", given: ArgumentForm::Operand, help: help::FILE_IN },
    Argument { id: "OUT", given: ArgumentForm::Operand, help: help::PLAIN_OUT },
];

#[rattlefmt::skip]
const RESUME: &[Argument] = &[
    Argument { id: "position", given: ArgumentForm::File, help: help::POSITION },
    Argument { id: "old", given: ArgumentForm::File, help: help::OLD },
    PASS,
    FILE_KEY,
    SHARED,
    MAX_LOG,
    Argument { id: "save", given: ArgumentForm::Value("FILE"), help: help::SAVE_AGAIN },
    NO_SYNC,
    Argument { id: "no-clobber", given: ArgumentForm::Flag, help: help::NO_CLOBBER_AGAIN },
    PROGRESS,
    Argument { id: "IN", given: ArgumentForm::Operand, help: help::FILE_IN },
    Argument { id: "OUT", given: ArgumentForm::Operand, help: help::WHOLE_OUT },
];

#[rattlefmt::skip]
const INSPECT: &[Argument] = &[
    Argument { id: "FILE", given: ArgumentForm::Word, help: help::INSPECTED },
];

#[rattlefmt::skip]
const DRILL: &[Argument] = &[
    Argument { id: "clear", given: ArgumentForm::Flag, help: help::CLEAR },
    PASS,
    Argument { id: "SCRIPT", given: ArgumentForm::Operand, help: help::SCRIPT },
    Argument { id: "IN", given: ArgumentForm::Operand, help: help::DRILLED },
];

/// A page of the help.
#[derive(Clone, Copy)]
#[rattlefmt::skip]
enum Page { Encrypt, Decrypt, Resume, Inspect, Drill }

/// A command of the program.
#[derive(Clone, Copy)]
pub struct Subcommand {
    /// The name of the command.
    pub name: &'static str,
    /// The options of the command, and then its operands.
    pub arguments: &'static [Argument],
    page: Page,
}

impl Subcommand {
    /// Returns the usage: the lines that show how the command is given.
    pub fn usage(&self) -> &'static str {
        let (usage, _, _) = load_help_texts(self.page);
        usage
    }
}

/// The commands of the program. A static, since a constant would put all texts in it into what is
/// proved of `table`. Even those of a static cost the proof some time, so the long ones are in
/// [`load_help_texts`].
#[rattlefmt::skip]
static COMMANDS: [Subcommand; 5] = [
    Subcommand { name: "encrypt", arguments: ENCRYPT, page: Page::Encrypt },
    Subcommand { name: "decrypt", arguments: DECRYPT, page: Page::Decrypt },
    Subcommand { name: "resume", arguments: RESUME, page: Page::Resume },
    Subcommand { name: "inspect", arguments: INSPECT, page: Page::Inspect },
    Subcommand { name: "drill", arguments: DRILL, page: Page::Drill },
];

/// Returns a command's usage, and the texts before its arguments and after them.
#[rattlefmt::skip]
fn load_help_texts(page: Page) -> (&'static str, &'static str, &'static str) {
    match page {
        Page::Encrypt => (help::ENCRYPT_USAGE, help::ENCRYPT, help::AFTER_ENCRYPT),
        Page::Decrypt => (help::DECRYPT_USAGE, help::DECRYPT, help::AFTER_DECRYPT),
        Page::Resume => (help::RESUME_USAGE, help::RESUME, help::AFTER_RESUME),
        Page::Inspect => (help::INSPECT_USAGE, help::INSPECT, help::AFTER_INSPECT),
        Page::Drill => (help::DRILL_USAGE, help::DRILL, help::AFTER_DRILL),
    }
}

/// Returns an option with a value, `--ID VALUE`.
fn option<'a>(alloc: Global, id: &'a str, value: &'a str, help: &'a str) -> Arg<'a>
    ensures rule { rule_of result ≡ option_rule id.entry.now }
    ensures local { result.global ≡ false }
{
    Arg::new(alloc, id).long(id).value_name(value).help(help)
}

/// Returns a required option with a file, `--ID FILE`.
fn required<'a>(alloc: Global, id: &'a str, help: &'a str) -> Arg<'a>
    ensures rule { rule_of result ≡ required_rule (option_rule id.entry.now) }
    ensures local { result.global ≡ false }
{
    option(alloc, id, "FILE", help).required(true)
}

/// Returns an option with a number, `--ID N`, for N from 1 to [`MOST_WORK`].
fn number<'a>(alloc: Global, id: &'a str, help: &'a str) -> Arg<'a>
    ensures rule { rule_of result ≡ number_rule id.entry.now }
    ensures local { result.global ≡ false }
{
    option(alloc, id, "N", help).value_parser(clap::value_parser!(u32).range(1..=MOST_WORK as i64))
}

/// Returns a flag, `--ID`.
fn flag<'a>(alloc: Global, id: &'a str, help: &'a str) -> Arg<'a>
    ensures rule { rule_of result ≡ flag_rule id.entry.now }
    ensures local { result.global ≡ false }
{
    Arg::new(alloc, id)
        .long(id)
        .action(ArgAction::SetTrue)
        .help(help)
}

/// Returns an optional word.
fn word<'a>(alloc: Global, id: &'a str, help: &'a str) -> Arg<'a>
    ensures rule { rule_of result ≡ new_rule id.entry.now }
    ensures local { result.global ≡ false }
{
    Arg::new(alloc, id).help(help)
}

/// Returns a required word.
fn operand<'a>(alloc: Global, id: &'a str, help: &'a str) -> Arg<'a>
    ensures rule { rule_of result ≡ required_rule (new_rule id.entry.now) }
    ensures local { result.global ≡ false }
{
    word(alloc, id, help).required(true)
}

fn build_arg<'a>(alloc: Global, argument: &Argument) -> Arg<'a>
    ensures rule { rule_of result ≡ rule_as argument.now.id.now argument.now.given }
    ensures local { result.global ≡ false }
{
    let Argument { id, given, help } = *argument;
    match given {
        ArgumentForm::Value(name) => option(alloc, id, name, help),
        ArgumentForm::File => required(alloc, id, help),
        ArgumentForm::Number => number(alloc, id, help),
        ArgumentForm::Flag => flag(alloc, id, help),
        ArgumentForm::Operand => operand(alloc, id, help),
        ArgumentForm::Word => word(alloc, id, help),
    }
}

fn command<'a>(alloc: Global, name: &'a str, about: &'a str, after: &'a str) -> Command<'a>
    ensures { HasApp (new_app name.entry.now) result }
{
    Command::new(alloc, name).about(about).after_help(after)
}

fn with_arguments<'a>(
    alloc: Global,
    plain: Command<'a>,
    arguments: &[Argument],
) -> Result<Command<'a>, AllocError>
    ensures { (a : App) → HasApp a plain.entry
        → IfOk result (HasApp (with_all a arguments.now)) }
{
    let mut whole = plain;
    for argument in arguments {
        whole = whole.arg(build_arg(alloc, argument))?;
    }
    Ok(whole)
}

/// Returns a command with its usage and its arguments.
fn build_command<'a>(alloc: Global, sub: &Subcommand) -> Result<Command<'a>, AllocError>
    ensures { IfOk result (HasApp (app_as sub.now)) }
{
    let (usage, about, after) = load_help_texts(sub.page);
    let plain = command(alloc, sub.name, about, after);
    with_arguments(alloc, plain.override_usage(usage), sub.arguments)
}

/// Returns the program with one more command.
fn with_command<'a>(
    alloc: Global,
    program: Command<'a>,
    sub: &Subcommand,
) -> Result<Command<'a>, AllocError>
    ensures { (a : App) → HasApp a program.entry
        → IfOk result (HasApp (with_subcommand a (app_as sub.now).top)) }
{
    match build_command(alloc, sub) {
        Ok(command) => program.subcommand(command),
        Err(error) => {
            drop(program);
            Err(error)
        }
    }
}

fn with_commands<'a>(
    alloc: Global,
    bare: Command<'a>,
    subs: &[Subcommand],
) -> Result<Command<'a>, AllocError>
    ensures { (a : App) → HasApp a bare.entry
        → IfOk result (HasApp (with_subcommands a subs.now)) }
{
    let mut whole = bare;
    for sub in subs {
        whole = with_command(alloc, whole, sub)?;
    }
    Ok(whole)
}

/// Returns the program with its help and version, and without arguments.
fn described<'a>(alloc: Global) -> Command<'a>
    ensures { HasApp described_tool result }
{
    command(alloc, "age_tool", help::PROGRAM, help::AFTER_PROGRAM)
        .version(help::VERSION)
        .override_usage(help::USAGE)
}

/// Returns the program without its commands.
fn bare<'a>(alloc: Global) -> Result<Command<'a>, AllocError>
    ensures { IfOk result (HasApp bare_tool) }
{
    described(alloc)
        .no_binary_name(true)
        .subcommand_required(true)
        .bin_name("age_tool")
}

/// Returns the commands. Each function that names [`COMMANDS`] costs the proof of all texts in it,
/// so only this one does.
fn table() -> &'static [Subcommand]
    ensures { age_tool ≡ with_subcommands bare_tool result.now }
{
    &COMMANDS
}

fn program<'a>(alloc: Global) -> Result<Command<'a>, AllocError>
    ensures { IfOk result (HasApp age_tool) }
{
    with_commands(alloc, bare(alloc)?, table())
}

/// Parses the arguments after the program's name.
pub(crate) fn parse_words<'a>(alloc: Global, words: &'a [&'a str]) -> Result<ArgMatches<'a>, Error>
    ensures matches { IfOk result (λ m. subcommand_rows_of m ≡ named (texts words.now)) }
    ensures refusals { FailsBy (refusals (texts words.now)) result }
{
    program(alloc)?.try_get_matches_from(words)
}

/// Returns the commands, in the order in which the help lists them.
pub fn list_commands() -> &'static [Subcommand] {
    table()
}

/// Returns the command of this name, if there is one.
pub fn find_command(name: &str) -> Option<&'static Subcommand> {
    list_commands().iter().find(|it| it.name == name)
}
