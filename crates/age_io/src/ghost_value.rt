//! Ghost values, which contracts see and no code has.

ghost use Rattle.std.specs.Prelude.{◌≡◌};
ghost use Rattle.std.specs.Borrow.{ftrue};

use std::marker::{Model, PhantomData};

/// A type that shows contracts a value of type `T`.
pub trait AsGhost<T> {
    // The value, as contracts see a `T`.
    ghost shows: { Self → T };
}

/// A ghost value of type `T`, set by [`GhostValue::of`]. Ghost: no bytes at run time.
#[derive(Drop)]
pub struct GhostValue<T> {
    of: PhantomData<T>,
    /// The value that contracts see.
    pub ghost value: { T },
}

impl<T> Model for GhostValue<T> {
    ghost also_owns = { λ _. ftrue };
}

impl<T> GhostValue<T> {
    /// Makes the ghost value that `_note` shows.
    pub fn of<N: AsGhost<T>>(_note: &N) -> GhostValue<T>
        ensures { result.value ≡ N.shows _note.now }
    {
        GhostValue { of: PhantomData }
    }
}
