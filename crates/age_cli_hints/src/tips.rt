//! Tips: what to give in place of a word that is refused.

use crate::quoted::Quoted;
use crate::words::{find_option, split_option};
use age_cli_args::{ArgumentForm, Subcommand, list_commands};
use std::alloc::{AllocError, Global};
use std::fs;
use std::rt::HostRuntime;
use strsim::jaro;

/// A table of words of other programs, and of what to give in place of them.
type Tips = &'static [(&'static [&'static str], &'static str)];

#[rattlefmt::skip]
const COMMAND_TIPS: Tips = &[
    (&["verify", "test", "check"], "age_tool decrypt --pass FILE IN /dev/null checks all of IN"),
    (&["list", "ls", "info", "show"], "age_tool inspect FILE shows its header"),
    (&["extract", "open", "restore"], "age_tool decrypt --pass FILE IN OUT decrypts"),
    (&["keygen"], "age_tool makes no keys; age-keygen does"),
    (&["version"], "the version is shown by age_tool --version"),
];

#[rattlefmt::skip]
const OPTION_TIPS: Tips = &[
    (&["-d", "--decrypt"], "age_tool decrypt --pass FILE IN OUT decrypts"),
    (&["-e", "--encrypt", "-c", "--symmetric"], "age_tool encrypt --pass FILE IN OUT encrypts"),
    (&["-p", "--passphrase"], "the passphrase is read from a file: --pass FILE"),
    (&["-o", "--output"], "OUT is the last word, without an option"),
    (&["-i", "--identity"], "for a key file: agefile decrypt --identity FILE IN OUT"),
    (&["-r", "--recipient"], "for a recipient: agefile encrypt --recipient KEY IN OUT"),
    (&["-R", "--recipients-file"], "for recipients: agefile encrypt --recipients-file FILE IN OUT"),
    (&["-a", "--armor"], "age_tool doesn't do armor: leave it out"),
    (&["-f", "--force", "--overwrite", "--yes"], "without --no-clobber an existing OUT is overwritten"),
    (&["-v", "--verbose"], "--progress shows how far a run is, and age_tool --version the version"),
    (&["-q", "--quiet"], "leave it out: without --progress a run that succeeds says little"),
];

/// The tip for a word that isn't like any command.
pub(crate) const KNOWN_COMMANDS: &str =
    "the commands are encrypt, decrypt, resume, inspect, drill and help";

/// Returns the tip for a word in a table, if it has one.
fn find_tip(tips: Tips, word: &str) -> Option<&'static str> {
    for (words, tip) in tips {
        if words.iter().any(|it| *it == word) {
            return Some(*tip);
        }
    }
    None
}

/// The name that is most like a word, among those compared.
#[derive(Clone, Copy)]
struct Best {
    score: f64,
    name: Option<&'static str>,
}

impl Best {
    /// Compares one more name with the word.
    fn compare(&mut self, alloc: Global, word: &str, name: &'static str) -> Result<(), AllocError> {
        let score = jaro(alloc, word, name)?;
        if score > self.score {
            self.score = score;
            self.name = Some(name);
        }
        Ok(())
    }

    /// Starts a comparison without a name; a name must be at least so much like the word.
    fn new() -> Best {
        Best {
            score: 0.7,
            name: None,
        }
    }
}

/// Returns the command whose name is most like a word, if one is like it.
fn find_similar_command(alloc: Global, word: &str) -> Result<Option<&'static str>, AllocError> {
    let mut best = Best::new();
    for command in list_commands() {
        best.compare(alloc, word, command.name)?;
    }
    Ok(best.name)
}

/// Returns the option of a command whose name is most like that of a word, if one is like it.
fn find_similar_option(
    alloc: Global,
    command: &Subcommand,
    name: &str,
) -> Result<Option<&'static str>, AllocError> {
    let mut best = Best::new();
    let Some(name) = name.strip_prefix("--") else {
        return Ok(None);
    };
    for argument in command.arguments {
        if !matches!(argument.given, ArgumentForm::Operand | ArgumentForm::Word) {
            best.compare(alloc, name, argument.id)?;
        }
    }
    Ok(best.name)
}

/// Appends what to give in place of a word that is no command.
pub(crate) fn push_command_tip(
    alloc: Global,
    text: &mut String,
    word: &str,
) -> Result<(), AllocError> {
    if let Some(tip) = find_tip(COMMAND_TIPS, word) {
        return text.push_str(tip);
    }
    match find_similar_command(alloc, word)? {
        Some(name) => write!(text, "a similar command exists: '{name}'"),
        None => text.push_str(KNOWN_COMMANDS),
    }
}

/// Appends which commands have an option. Returns whether one does.
fn push_owners(text: &mut String, name: &str) -> Result<bool, AllocError> {
    let owners = list_commands()
        .iter()
        .filter(|it| find_option(*it, name).is_some())
        .count();
    let mut count: usize = 0;
    for command in list_commands() {
        if find_option(command, name).is_some() {
            let before = if count == 0 {
                ""
            } else if count.saturating_add(1) == owners {
                " and "
            } else {
                ", "
            };
            if count == 0 {
                write!(text, "{name} is an option of ")?;
            }
            write!(text, "{before}{}", command.name)?;
            count = count.saturating_add(1);
        }
    }
    Ok(count > 0)
}

/// Appends what to give in place of an option that a command doesn't have, or that stands before
/// the command.
pub(crate) fn push_option_tip(
    rt: &HostRuntime,
    text: &mut String,
    command: Option<&'static Subcommand>,
    word: &str,
) -> Result<(), AllocError> {
    let (name, _) = split_option(word);
    if fs::exists(rt, word).unwrap_or(false) {
        let word = Quoted(word);
        return write!(text, "write {word} for the file of that name");
    }
    if let Some(tip) = find_tip(OPTION_TIPS, name) {
        return text.push_str(tip);
    }
    if push_owners(text, name)? {
        return Ok(());
    }
    let Some(command) = command else {
        return text.push_str("no such option: age_tool --help lists the commands");
    };
    match find_similar_option(rt.alloc(), command, name)? {
        Some(similar) => write!(text, "a similar option exists: '--{similar}'"),
        None => write!(
            text,
            "no such option: age_tool {} --help lists them",
            command.name
        ),
    }
}
