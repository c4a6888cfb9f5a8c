//! Messages about words that the parser of command lines refuses. The kind of the error tells what
//! is wrong, and the table of the commands which word it is: no text of the parser is read.

use crate::faults::LAST_FAULT;
use crate::help::find_fault;
use crate::quoted::Quoted;
use crate::tips::{KNOWN_COMMANDS, push_command_tip, push_option_tip};
use crate::words::{Word, has_option, is_option, read_words, split_option, takes_value};
use age_cli_args::{Argument, ArgumentForm, Subcommand, USAGE, find_command};
use age_cli_messages::Escaped;
use clap::Error;
use clap::error::ErrorKind;
use std::alloc::AllocError;
use std::fmt::{self, Display, Formatter};
use std::fs;
use std::io::Eprint;
use std::rt::HostRuntime;

/// The beginning of a tip.
const TIP: &str = "\n\n  tip: ";

/// Prints on standard error why the parser refuses the words, what to give in place of them, and
/// the usage. A character that can't be shown is shown by its code.
pub fn explain_refusal(rt: &HostRuntime, words: &[&str], error: &Error) -> Result<(), AllocError> {
    let mut text = String::from_str(rt.alloc(), "age_tool: ")?;
    let kind = error.kind();
    let usage = match words.first().and_then(|it| find_command(*it)) {
        Some(command) => {
            push_refused_word(rt, &mut text, kind, command, words.get(1..).unwrap_or(&[]))?;
            command.usage()
        }
        None => {
            push_refused_command(rt, &mut text, words)?;
            USAGE
        }
    };
    push_usage(&mut text, kind, usage)?;
    let _ = rt.eprint(text.as_str());
    Ok(())
}

/// Appends the usage, unless a value alone is wrong, and where to find help.
fn push_usage(text: &mut String, kind: ErrorKind, usage: &str) -> Result<(), AllocError> {
    if !matches!(kind, ErrorKind::InvalidValue | ErrorKind::ValueValidation) {
        write!(text, "\n\nUsage: {usage}")?;
    }
    text.push_str("\n\nFor more information, try '--help'.\n")
}

/// Appends what is wrong with words whose first is no command.
fn push_refused_command(
    rt: &HostRuntime,
    text: &mut String,
    words: &[&str],
) -> Result<(), AllocError> {
    match words {
        [] | ["--"] => write!(text, "no command is given{TIP}{KNOWN_COMMANDS}"),
        ["help", topic, word, ..] if is_topic(*topic) => {
            push_unexpected(text, *word)?;
            text.push_str("help takes one command or fault")
        }
        ["help", word, ..] if word.bytes().all(|it| it.is_ascii_digit()) => {
            write!(
                text,
                "no such fault: '{word}'{TIP}the faults are 1 to {LAST_FAULT}"
            )
        }
        ["help", word, ..] | [word, ..] => push_no_command(rt, text, *word),
    }
}

/// Appends that a word is no command.
fn push_no_command(rt: &HostRuntime, text: &mut String, word: &str) -> Result<(), AllocError> {
    if is_option(word) {
        push_unexpected(text, word)?;
        return push_option_tip(rt, text, None, word);
    }
    let shown = Escaped(word.as_bytes());
    write!(text, "no such command: '{shown}'{TIP}")?;
    push_command_tip(rt.alloc(), text, word)
}

/// Returns whether there is help on a command or a fault of this name.
fn is_topic(word: &str) -> bool {
    find_command(word).is_some() || find_fault(word).is_some()
}

/// Appends what is wrong with the words after a command.
fn push_refused_word(
    rt: &HostRuntime,
    text: &mut String,
    kind: ErrorKind,
    command: &'static Subcommand,
    words: &[&str],
) -> Result<(), AllocError> {
    let found = read_words(rt.alloc(), command, words)?;
    if kind == ErrorKind::MissingRequiredArgument {
        return push_missing(text, command, found.as_slice());
    }
    match find_refused(kind, found.as_slice()) {
        Some(Word::Unknown(word)) => {
            let (name, _) = split_option(word);
            push_unexpected(text, name)?;
            push_option_tip(rt, text, Some(command), word)
        }
        Some(Word::Extra(word)) => {
            push_unexpected(text, word)?;
            text.push_str("a command takes one IN and one OUT at a time")
        }
        Some(Word::Given(argument, value)) => push_wrong(text, kind, argument, value.unwrap_or("")),
        None => text.push_str(kind.as_str().unwrap_or("bad command line")),
    }
}

/// Appends that a word isn't expected, before a tip.
fn push_unexpected(text: &mut String, word: &str) -> Result<(), AllocError> {
    let shown = Escaped(word.as_bytes());
    write!(text, "unexpected argument '{shown}'{TIP}")
}

/// Appends what is wrong with an argument that the command has.
fn push_wrong(
    text: &mut String,
    kind: ErrorKind,
    argument: &'static Argument,
    value: &str,
) -> Result<(), AllocError> {
    let (argument, is_empty) = (Form(argument), value.is_empty());
    let value = Escaped(value.as_bytes());
    match kind {
        ErrorKind::ValueValidation if !is_empty => write!(
            text,
            "invalid value '{value}' for '{argument}': not a number from 1 to 22"
        ),
        ErrorKind::InvalidValue | ErrorKind::ValueValidation => write!(
            text,
            "a value is required for '{argument}' but none was supplied"
        ),
        ErrorKind::TooManyValues => write!(text, "unexpected value '{value}' for '{argument}'"),
        _ => write!(
            text,
            "the argument '{argument}' cannot be used multiple times"
        ),
    }
}

/// Returns the first word that the parser refuses by an error of this kind.
fn find_refused<'w>(kind: ErrorKind, found: &[Word<'w>]) -> Option<Word<'w>> {
    for (i, word) in found.iter().enumerate() {
        if is_refused(kind, word, found.get(..i).unwrap_or(&[])) {
            return Some(*word);
        }
    }
    None
}

/// Returns whether a word is refused by an error of this kind, after the words before it.
fn is_refused(kind: ErrorKind, word: &Word<'_>, before: &[Word<'_>]) -> bool {
    match (kind, *word) {
        (ErrorKind::UnknownArgument, Word::Unknown(_) | Word::Extra(_)) => true,
        (ErrorKind::ValueValidation, Word::Given(argument, Some(value))) => {
            matches!(argument.given, ArgumentForm::Number) && !is_work_factor(value)
        }
        (ErrorKind::InvalidValue, Word::Given(argument, value)) => {
            takes_value(argument) && value.unwrap_or("").is_empty()
        }
        (ErrorKind::TooManyValues, Word::Given(argument, Some(_))) => !takes_value(argument),
        (ErrorKind::ArgumentConflict, Word::Given(argument, _)) => has_option(before, argument.id),
        _ => false,
    }
}

/// Returns whether a text is a number from 1 to 22.
fn is_work_factor(text: &str) -> bool {
    matches!(text.parse::<u32>(), Ok(1..=22))
}

/// An argument, displayed as it is given on the command line.
#[derive(Clone, Copy)]
struct Form(&'static Argument);

impl Display for Form {
    fn fmt<W: fmt::Write>(&self, f: &mut Formatter<W>) -> fmt::Result {
        let id = self.0.id;
        match self.0.given {
            ArgumentForm::Value(value) => write!(f, "--{id} <{value}>"),
            ArgumentForm::File => write!(f, "--{id} <FILE>"),
            ArgumentForm::Number => write!(f, "--{id} <N>"),
            ArgumentForm::Flag => write!(f, "--{id}"),
            ArgumentForm::Operand | ArgumentForm::Word => write!(f, "<{id}>"),
        }
    }
}

/// Appends the arguments that a command needs and doesn't get.
fn push_missing(
    text: &mut String,
    command: &'static Subcommand,
    found: &[Word<'_>],
) -> Result<(), AllocError> {
    text.push_str("these arguments are missing:")?;
    for argument in command.arguments {
        let is_required = matches!(argument.given, ArgumentForm::File | ArgumentForm::Operand);
        if is_required && !has_option(found, argument.id) {
            write!(text, "\n  {}", Form(argument))?;
        }
    }
    match missing_choice(command.name, found) {
        Some(choice) => write!(text, "\n  {choice}"),
        None => Ok(()),
    }
}

/// Returns the options of which a command needs one, if none is given. The parser doesn't know of
/// that need.
fn missing_choice(command: &str, found: &[Word<'_>]) -> Option<&'static str> {
    let (ids, choice): (&[&str], &str) = match command {
        "decrypt" | "resume" => (
            &["pass", "file-key", "shared"],
            "one of --pass <FILE>, --file-key <HEX> and --shared <FILE>",
        ),
        "drill" => (&["clear", "pass"], "one of --clear and --pass <FILE>"),
        _ => return None,
    };
    if ids.iter().any(|id| has_option(found, *id)) {
        None
    } else {
        Some(choice)
    }
}

/// Returns a word that begins with `-h` without being an option, such as the name `-holiday.jpg`,
/// if there is one. The parser would show the help, with status 0, and a script would take the file
/// for done.
pub fn find_fused_help_flag<'w>(words: &[&'w str]) -> Option<&'w str> {
    for word in words {
        if *word == "--" {
            return None;
        }
        if word.len() > 2 && word.starts_with("-h") {
            return Some(*word);
        }
    }
    None
}

/// Prints on standard error that a word is refused which only looks like `-h`, and what to write in
/// place of it.
pub fn explain_fused_help_flag(rt: &HostRuntime, word: &str) {
    let shown = Escaped(word.as_bytes());
    let name = Quoted(word);
    if fs::exists(rt, word).unwrap_or(false) {
        let _ = eprintln!(rt;
            "age_tool: unexpected argument '{shown}'{TIP}write --help for help, \
             and {name} for the file of that name"
        );
    } else {
        let _ = eprintln!(rt; "age_tool: unexpected argument '{shown}'{TIP}write --help for help");
    }
}
