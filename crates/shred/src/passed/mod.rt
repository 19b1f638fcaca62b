//! Systems that are passed what they read and what they write, resources of given types, each of number 0.
//!
//! What is read is passed by a `&` for each, up to four. What is written is passed by one `&mut`: `W` is one of `First` to `Fourth`,
//! or a tuple of up to four resources of any type, as `(R,)`. The traits whose name begins with `Try` may refuse.
mod fetching;
pub mod never_refuses;
pub mod reads_2_writes;
pub mod reads_3_writes;
pub mod reads_4_writes;
pub mod reads_writes;
pub mod writes;

ghost use Rattle.std.specs.Prelude.{◌≡◌};
ghost use Rattle.shred.specs.Passed.{as_outcome};

use crate::passed::never_refuses::NeverRefuses;
use crate::typed::{Ran, Typed};
use shred_run::Fault;
use shred_world::DataError;
use std::marker::PhantomData;

/// A system that is passed what it reads, of the types in the tuple `R`, and what it writes, as a `TypedSystem`.
#[derive(Drop)]
pub struct Passed<T, R, W, E> {
    pub(crate) system: T,
    pub(crate) types: PhantomData<(R, W, E)>,
}

/// The system of a dispatcher that `into_system` makes of one that may refuse.
pub type TrySystem<T, R, W, E> = Typed<Passed<T, R, W, E>>;

/// The system of a dispatcher that `into_system` makes of one that refuses nothing.
pub type PassedSystem<T, R, W, E = DataError> = TrySystem<NeverRefuses<T>, R, W, E>;

// As a system of a dispatcher.
pub(crate) fn into_typed<T, R, W, E>(system: T) -> TrySystem<T, R, W, E>
    ensures { result.0.system ≡ system }
{
    Typed(Passed {
        system,
        types: PhantomData,
    })
}

// What the system answered, as what a run answers.
pub(crate) fn answered<E>(answer: Result<(), E>) -> Ran<E>
    ensures { result ≡ as_outcome answer }
{
    match answer {
        Ok(()) => Ok(()),
        Err(error) => Err(Fault::Refused(error)),
    }
}
