//! Lists of types of systems, so that systems of up to eight types share a dispatcher.
ghost use Rattle.std.specs.Prelude.{◌≡◌, []};
ghost use Rattle.shred_run.specs.Controls.{Refuses};
ghost use Rattle.shred_run.specs.declared.system.RunningTime.TheVariants.{Average};
ghost use Rattle.shred.specs.declared.one_of.OneOf.TheVariants.{First, Second};

use crate::one_of::OneOf;
use shred_run::{Fault, RunningTime, System};
use shred_world::{OutOfMemory, ResourceValue, View, World};
use std::alloc::Global;
use std::marker::PhantomData;

/// The end of a list of types of systems: a system that no caller can make, with the error of an `S`. Its calls, which
/// nobody reaches, refuse for want of memory and change nothing.
#[derive(Drop)]
pub struct NoSystem<S> {
    system: PhantomData<S>,
}

/// One of two systems.
pub type Systems2<A, B> = OneOf<A, OneOf<B, NoSystem<B>>>;

/// One of three systems.
pub type Systems3<A, B, C> = OneOf<A, Systems2<B, C>>;

/// One of four systems.
pub type Systems4<A, B, C, D> = OneOf<A, Systems3<B, C, D>>;

/// One of five systems.
pub type Systems5<A, B, C, D, E> = OneOf<A, Systems4<B, C, D, E>>;

/// One of six systems.
pub type Systems6<A, B, C, D, E, F> = OneOf<A, Systems5<B, C, D, E, F>>;

/// One of seven systems.
pub type Systems7<A, B, C, D, E, F, G> = OneOf<A, Systems6<B, C, D, E, F, G>>;

/// One of eight systems.
pub type Systems8<A, B, C, D, E, F, G, H> = OneOf<A, Systems7<B, C, D, E, F, G, H>>;

/// A system of the first type of a list.
pub fn first_system<A, R>(system: A) -> OneOf<A, R>
    ensures { result ≡ First system }
{
    OneOf::First(system)
}

/// A system of the second type of a list.
pub fn second_system<A, B, R>(system: B) -> OneOf<A, OneOf<B, R>>
    ensures { result ≡ Second (First system) }
{
    OneOf::Second(first_system(system))
}

/// A system of the third type of a list.
pub fn third_system<A, B, C, R>(system: C) -> OneOf<A, OneOf<B, OneOf<C, R>>>
    ensures { result ≡ Second (Second (First system)) }
{
    OneOf::Second(second_system(system))
}

/// A system of the fourth type of a list.
pub fn fourth_system<A, B, C, D, R>(system: D) -> OneOf<A, OneOf<B, OneOf<C, OneOf<D, R>>>>
    ensures { result ≡ Second (Second (Second (First system))) }
{
    OneOf::Second(third_system(system))
}

/// A system of the fifth type of a list.
pub fn fifth_system<A, B, C, D, E, R>(
    system: E,
) -> OneOf<A, OneOf<B, OneOf<C, OneOf<D, OneOf<E, R>>>>>
    ensures { result ≡ Second (Second (Second (Second (First system)))) }
{
    OneOf::Second(fourth_system(system))
}

/// A system of the sixth type of a list.
pub fn sixth_system<A, B, C, D, E, F, R>(
    system: F,
) -> OneOf<A, OneOf<B, OneOf<C, OneOf<D, OneOf<E, OneOf<F, R>>>>>>
    ensures { result ≡ Second (Second (Second (Second (Second (First system))))) }
{
    OneOf::Second(fifth_system(system))
}

/// A system of the seventh type of a list.
pub fn seventh_system<A, B, C, D, E, F, G, R>(
    system: G,
) -> OneOf<A, OneOf<B, OneOf<C, OneOf<D, OneOf<E, OneOf<F, OneOf<G, R>>>>>>>
    ensures { result ≡ Second (Second (Second (Second (Second (Second (First system)))))) }
{
    OneOf::Second(sixth_system(system))
}

/// A system of the eighth type of a list.
pub fn eighth_system<A, B, C, D, E, F, G, H, R>(
    system: H,
) -> OneOf<A, OneOf<B, OneOf<C, OneOf<D, OneOf<E, OneOf<F, OneOf<G, OneOf<H, R>>>>>>>>
    ensures { result ≡ Second (Second (Second (Second (Second (Second (Second (First system))))))) }
{
    OneOf::Second(seventh_system(system))
}

impl<V: ResourceValue, S: System<V, Error = E>, E> System<V> for NoSystem<S> {
    type Error = E;

    type Accessor = ();

    ghost reads = { λ none. [] };

    ghost writes = { λ none. [] };

    ghost time = { λ none. Average };

    ghost step = { Refuses };

    ghost sets_up = { Refuses };

    ghost disposes = { λ before seen outcome left. Refuses before seen outcome before left };

    fn run(&mut self, _view: &mut View<V>) -> Result<(), Fault<E>> {
        Err(Fault::OutOfMemory)
    }

    fn running_time(&self) -> RunningTime {
        RunningTime::Average
    }

    fn accessor(&self, _alloc: Global) -> Result<(), OutOfMemory> {
        Ok(())
    }

    fn setup(&mut self, _world: &mut World<V>) -> Result<(), Fault<E>> {
        Err(Fault::OutOfMemory)
    }

    fn dispose(self, _world: &mut World<V>) -> Result<(), Fault<E>> {
        Err(Fault::OutOfMemory)
    }
}
