//! A system that runs over what it declares of a whole world.
ghost use Rattle.shred_run.specs.Alone.{KeepsLists, StepsAlone};

use crate::alone::run_alone;
use crate::run_now::RunNow;
use crate::system::{Fault, System};
use shred_world::parting::{keep, twin_of_local};
use shred_world::{LocalWorld, ResourceValue, World};
use std::thread::Threads;

/// Makes a system one that runs over a whole world: over what it declares, and nothing else. Where there is no memory for
/// its two lists, the answer is `OutOfMemory`, and nothing is done.
#[derive(Drop)]
pub struct Now<S>(pub S);

impl<V: ResourceValue + Drop, S: System<V>> RunNow<V> for Now<S> {
    type Error = S::Error;

    ghost runs = { λ before held outcome after left. StepsAlone V.kind_of S.step S.reads S.writes before.0 held outcome after.0 left };

    ghost sets_up = { λ before held outcome after left. S.sets_up before.0 held outcome after.0 left × KeepsLists S.reads S.writes before.0 after.0 };

    ghost disposes = { λ before held outcome left. S.disposes before.0 held outcome left };

    fn run_now<R: Threads + Sync>(
        &mut self,
        _rt: &R,
        world: &mut LocalWorld<V>,
    ) -> Result<(), Fault<S::Error>> {
        let alloc = world.allocator();
        let twin = twin_of_local(world);
        let outcome = run_alone(alloc, &mut self.0, &mut twin.table);
        keep(world);
        outcome
    }

    fn setup(&mut self, world: &mut World<V>) -> Result<(), Fault<S::Error>> {
        self.0.setup(world)
    }

    fn dispose(self, world: &mut World<V>) -> Result<(), Fault<S::Error>> {
        self.0.dispose(world)
    }
}
