//! The work factor that a header demands of a passphrase.

ghost use Rattle.age_c.specs.{IsWork};

use age_keys::ScryptStanza;
use age_stanza::Header;

/// Returns the work factor that a header demands of a passphrase, or 0 if no passphrase opens it.
pub(crate) fn find_work_factor(header: &Header) -> u32
    ensures { IsWork header.now result }
{
    let [stanza] = header.stanzas.as_slice() else {
        return 0;
    };
    match ScryptStanza::read(stanza) {
        Some(read) => read.log,
        None => 0,
    }
}
