//! A list of files in memory.

ghost use Rattle.std.specs.Prelude.{◌≡◌, IsOk, ℕ, List, IfOk, is_some, true, position, option_map};
ghost use Rattle.age_cli_memory.specs.{has_name, entry_of, PutsEntry};

use age_io::Bytes;
use std::alloc::{AllocError, Global};
use std::marker::Model;

/// The name of a file in memory. Contracts see its bytes.
#[derive(Drop)]
pub(crate) struct Name {
    text: String,
}

impl Model for Name {
    ghost use Rattle.std.specs.Prelude.{ℕ, List};
    ghost use Rattle.std.specs.String.{string_bytes};

    ghost Value = { List ℕ };

    ghost view = { λ n. string_bytes n.text };
}

impl Name {
    pub(crate) fn new(alloc: Global, text: &str) -> Result<Name, AllocError>
        ensures { IfOk result (λ n. n ≡ text.now) }
    {
        let text = String::from_str(alloc, text)?;
        Ok(Name { text })
    }

    pub(crate) fn as_str(&self) -> &str
        ensures { result.now ≡ self.now }
    {
        self.text.as_str()
    }
}

/// A file in memory: a name and its bytes.
#[derive(Drop)]
pub(crate) struct MemEntry {
    pub(crate) name: Name,
    pub(crate) bytes: Bytes,
}

/// Returns the index of the first file of a name.
fn place(entries: &[MemEntry], name: &str) -> Option<usize>
    ensures { result ≡ position (has_name name.now) entries.now }
{
    entries.iter().position(|e| e.name.as_str() == name)
}

/// Returns the bytes of the first file of a name.
pub(crate) fn find_bytes<'a>(entries: &'a [MemEntry], name: &str) -> Option<&'a [u8]>
    ensures { option_map (λ s. s.now) result ≡ entry_of entries.now name.now }
{
    let found = entries.iter().find(|e| e.name.as_str() == name)?;
    Some(found.bytes.as_slice())
}

/// Stores bytes under a name. Allocates nothing if the name exists.
pub(crate) fn put_entry(
    entries: &mut Vec<MemEntry>,
    name: Name,
    bytes: Bytes,
) -> Result<(), AllocError>
    ensures puts { PutsEntry name bytes result entries.old.items entries.new.items }
    ensures there { is_some (entry_of entries.old.items name) ≡ true → IsOk result }
{
    match place(entries.as_slice(), name.as_str()) {
        Some(at) => {
            entries[at] = MemEntry { name, bytes };
            Ok(())
        }
        None => {
            entries.push(MemEntry { name, bytes })?;
            Ok(())
        }
    }
}
