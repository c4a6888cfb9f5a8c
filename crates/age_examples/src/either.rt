//! An example of an unlocker.

ghost use Rattle.std.specs.Prelude.{◌≡◌, ◌⊎◌, ◌+◌};
ghost use Rattle.std.specs.Bool.{MatchBool};
ghost use Rattle.age_keys.specs.{is_before_work};
ghost use Rattle.age_keys.specs.{KeyFault as Fault};

use age_keys::{FileKey, KeyFault, Steps, Unlock};
use age_stanza::Header;
use std::alloc::Global;

/// Two unlockers for one file, such as a new passphrase and the one before it: the first that finds
/// a key counts. If neither does, the second's fault is reported, or the first's if the second's
/// was found from the header alone.
#[derive(Drop)]
pub struct Either<A: Unlock, B: Unlock> {
    /// The unlocker that is tried first.
    pub first: A,
    /// The unlocker that is tried if the first one fails.
    pub second: B,
}

impl<A: Unlock, B: Unlock> Unlock for Either<A, B> {
    ghost allows = { λ e header key. A.allows e.first header key ⊎ B.allows e.second header key };

    ghost refuses = { λ e header fault. (second : Fault) × B.refuses e.second header second
        × MatchBool (is_before_work second) (A.refuses e.first header fault) (fault ≡ second) };

    ghost most_steps = { λ e. A.most_steps e.first + B.most_steps e.second };

    fn unlock(
        &self,
        alloc: Global,
        header: &Header,
        steps: &mut Steps,
    ) -> Result<FileKey, KeyFault> {
        let first = match self.first.unlock(alloc, header, steps) {
            Ok(key) => return Ok(key),
            Err(fault) => fault,
        };
        let second = match self.second.unlock(alloc, header, steps) {
            Ok(key) => return Ok(key),
            Err(fault) => fault,
        };
        if second.is_before_work() {
            return Err(first);
        }
        Err(second)
    }
}
