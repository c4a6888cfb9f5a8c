//! The answers of `help N` and `help NAME`.

use crate::faults::{LAST_FAULT, look_up_row};

/// Returns the text about a fault, if the words are `help N` or `help NAME`.
pub fn find_fault_help(words: &[&str]) -> Option<&'static str> {
    match words {
        ["help", word] => find_fault(*word),
        _ => None,
    }
}

/// Returns the text about the fault of this number or name, if there is one.
pub(crate) fn find_fault(word: &str) -> Option<&'static str> {
    if let Ok(number) = word.parse::<u8>() {
        let (_, text) = look_up_row(number)?;
        return Some(text);
    }
    for number in 1..=LAST_FAULT {
        let (name, text) = look_up_row(number)?;
        if name == word {
            return Some(text);
        }
    }
    None
}
