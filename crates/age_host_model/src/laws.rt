//! Laws about disks: a disk can answer the calls of an output, and some calls must not be left out.

ghost use Rattle.age_host_model.specs.{OutsAreAnswered, CallsAreAnswered, OthersAreKept, TornIfUnsynced};
ghost use Rattle.age_host_model.specs.{TornIfCutLast, SecondRunIsHarmless, ChangedIfLockedLate};

/// States that a disk can answer the calls of an output, whether its file existed or is made. The
/// output then has the only lock on that file, though another run has opened it.
pub fn outs_are_answered()
    ensures { OutsAreAnswered }
{}

/// States that each output that was made, or opened where its path is known to lead, has a disk
/// that answers its calls.
pub fn calls_are_answered()
    ensures { CallsAreAnswered }
{}

/// States that a power cut may tear an output that wasn't synced.
#[tactic(auto, using(crate::proofs::LawLemmas::unsynced))]
pub fn torn_if_unsynced()
    ensures { TornIfUnsynced }
{}

/// States that a power cut may tear an output that is truncated after its sync.
#[tactic(auto, using(crate::proofs::LawLemmas::cut_last))]
pub fn torn_if_cut_last()
    ensures { TornIfCutLast }
{}

/// States that a run changes nothing in a file that another run has locked.
pub fn second_run_changes_nothing()
    ensures { SecondRunIsHarmless }
{}

/// States that a run which locks a file only after it wrote to it doesn't lock it first.
#[tactic(auto, using(crate::proofs::LawLemmas::late))]
pub fn changed_if_locked_late()
    ensures { ChangedIfLockedLate }
{}

/// States that an output changes no other file.
#[tactic(auto, using(crate::proofs::LawLemmas::others_kept))]
pub fn others_are_kept()
    ensures { OthersAreKept }
{}
