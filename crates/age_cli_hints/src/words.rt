//! The words of a command line: which argument of its command each one gives.

use age_cli_args::{Argument, ArgumentForm, Subcommand};
use std::alloc::{AllocError, Global};

/// A word of a command line, or an option and the word after it.
#[derive(Clone, Copy)]
pub(crate) enum Word<'w> {
    /// An argument of the command, and its value.
    Given(&'static Argument, Option<&'w str>),
    /// An option that the command hasn't.
    Unknown(&'w str),
    /// One operand too many.
    Extra(&'w str),
}

/// Returns whether an argument is a word without an option.
fn is_operand(argument: &Argument) -> bool {
    matches!(argument.given, ArgumentForm::Operand | ArgumentForm::Word)
}

/// Returns whether an argument has a value, in the word after it or in the same one.
pub(crate) fn takes_value(argument: &Argument) -> bool {
    !matches!(argument.given, ArgumentForm::Flag)
}

/// Returns whether a word is an option.
pub(crate) fn is_option(word: &str) -> bool {
    word.starts_with('-') && word != "-"
}

/// Splits a word into the name of an option, and the value in the same word.
pub(crate) fn split_option(word: &str) -> (&str, Option<&str>) {
    match word.split_once('=') {
        Some((name, value)) => (name, Some(value)),
        None => (word, None),
    }
}

/// Returns the option of a command by its name, with its dashes.
pub(crate) fn find_option(command: &Subcommand, name: &str) -> Option<&'static Argument> {
    let id = name.strip_prefix("--")?;
    for argument in command.arguments {
        if argument.id == id && !is_operand(argument) {
            return Some(argument);
        }
    }
    None
}

/// The state of reading the words of a command.
#[derive(Clone, Copy)]
struct Reader {
    command: &'static Subcommand,
    /// The number of operands that were read.
    operands: usize,
    /// True if `--` was read, after which no word is an option.
    has_ended: bool,
    /// True if the next word was read already, as a value.
    is_value: bool,
}

impl Reader {
    /// Reads a word, before `next`. Returns its meaning, if it doesn't belong to another word.
    fn read<'w>(&mut self, word: &'w str, next: Option<&'w str>) -> Option<Word<'w>> {
        if self.is_value {
            self.is_value = false;
            return None;
        }
        if self.has_ended || !is_option(word) {
            return Some(self.read_operand(word));
        }
        if word == "--" {
            self.has_ended = true;
            return None;
        }
        let (name, joined) = split_option(word);
        let Some(argument) = find_option(self.command, name) else {
            return Some(Word::Unknown(word));
        };
        if joined.is_some() || !takes_value(argument) {
            return Some(Word::Given(argument, joined));
        }
        let value = next.filter(|it| !is_option(*it));
        self.is_value = value.is_some();
        Some(Word::Given(argument, value))
    }

    /// Reads a word that is no option.
    fn read_operand<'w>(&mut self, word: &'w str) -> Word<'w> {
        let mut before = self.operands;
        self.operands = before.saturating_add(1);
        for argument in self.command.arguments {
            if is_operand(argument) {
                if before == 0 {
                    return Word::Given(argument, Some(word));
                }
                before -= 1;
            }
        }
        Word::Extra(word)
    }
}

/// Reads the words after a command.
pub(crate) fn read_words<'w>(
    alloc: Global,
    command: &'static Subcommand,
    words: &[&'w str],
) -> Result<Vec<Word<'w>>, AllocError> {
    let mut reader = Reader {
        command,
        operands: 0,
        has_ended: false,
        is_value: false,
    };
    let mut found = Vec::new(alloc);
    for (i, word) in words.iter().enumerate() {
        let next = words.get(i.saturating_add(1)).copied();
        if let Some(it) = reader.read(*word, next) {
            found.push(it)?;
        }
    }
    Ok(found)
}

/// Returns whether the words give the argument of this name.
pub(crate) fn has_option(found: &[Word<'_>], id: &str) -> bool {
    for word in found {
        if let Word::Given(argument, _) = *word
            && argument.id == id
        {
            return true;
        }
    }
    false
}
