//! Bundles of bundles: tuples of up to eight parts, in order.
ghost use Rattle.std.specs.Prelude.{◌≡◌, ◌++◌, IfOk};
ghost use Rattle.shred_world.specs.Bundles.{SetupBoth};

use crate::world::bundle::SystemData;
use crate::world::view::{DataError, View};
use crate::world::{World, WorldError};
use shred_table::accessor::OutOfMemory;
use shred_table::id::ResourceId;
use shred_table::resource::ResourceValue;
use std::alloc::Global;

// The ids of the second list behind those of the first.
pub(crate) fn joined(
    mut ids: Vec<ResourceId>,
    more: &[ResourceId],
) -> Result<Vec<ResourceId>, OutOfMemory>
    ensures { IfOk result (λ joined. joined.items ≡ ids.items ++ more.now) }
{
    ids.extend_from_slice(more)?;
    Ok(ids)
}

// The ids that the bundle reads, behind these.
fn with_reads_of<'s, V: ResourceValue, A: SystemData<'s, V>>(
    ids: Vec<ResourceId>,
    alloc: Global,
) -> Result<Vec<ResourceId>, OutOfMemory>
    ensures { IfOk result (λ joined. joined.items ≡ ids.items ++ A.read_ids) }
{
    let more = A::reads(alloc)?;
    joined(ids, more.as_slice())
}

// The ids that the bundle writes, behind these.
fn with_writes_of<'s, V: ResourceValue, A: SystemData<'s, V>>(
    ids: Vec<ResourceId>,
    alloc: Global,
) -> Result<Vec<ResourceId>, OutOfMemory>
    ensures { IfOk result (λ joined. joined.items ≡ ids.items ++ A.written_ids) }
{
    let more = A::writes(alloc)?;
    joined(ids, more.as_slice())
}

impl<'s, V: ResourceValue, A: SystemData<'s, V>> SystemData<'s, V> for (A,) {
    ghost read_ids = { A.read_ids };

    ghost written_ids = { A.written_ids };

    ghost sets_up = { A.sets_up };

    ghost parts = { A.parts };

    ghost shows = { λ bundle. A.shows bundle.0 };

    ghost moved = { λ bundle. A.moved bundle.0 };

    fn setup(world: &mut World<V>) -> Result<(), WorldError> {
        A::setup(world)
    }

    fn fetch(view: &mut View<'s, '_, V>) -> Result<Self, DataError> {
        match A::fetch(view) {
            Ok(a) => Ok((a,)),
            Err(error) => Err(error),
        }
    }

    fn give_back(self, view: &mut View<'s, '_, V>) {
        let (a,) = self;
        a.give_back(view);
    }

    fn reads(alloc: Global) -> Result<Vec<ResourceId>, OutOfMemory> {
        A::reads(alloc)
    }

    fn writes(alloc: Global) -> Result<Vec<ResourceId>, OutOfMemory> {
        A::writes(alloc)
    }
}

impl<'s, V: ResourceValue, A: SystemData<'s, V>, B: SystemData<'s, V>> SystemData<'s, V>
    for (A, B) {
    ghost read_ids = { A.read_ids ++ B.read_ids };

    ghost written_ids = { A.written_ids ++ B.written_ids };

    ghost sets_up = { SetupBoth A.sets_up B.sets_up };

    ghost parts = { A.parts ++ B.parts };

    ghost shows = { λ bundle. A.shows bundle.0 ++ B.shows bundle.1 };

    ghost moved = { λ bundle. A.moved bundle.0 ++ B.moved bundle.1 };

    fn setup(world: &mut World<V>) -> Result<(), WorldError> {
        if let Err(error) = A::setup(world) {
            return Err(error);
        }
        B::setup(world)
    }

    fn fetch(view: &mut View<'s, '_, V>) -> Result<Self, DataError> {
        let a = match A::fetch(view) {
            Ok(a) => a,
            Err(error) => return Err(error),
        };
        match B::fetch(view) {
            Ok(b) => Ok((a, b)),
            Err(error) => {
                a.give_back(view);
                Err(error)
            }
        }
    }

    #[tactic(auto, using(crate::proofs::Bundles::Both::out_last, crate::proofs::Bundles::Both::out_first, crate::proofs::Bundles::Both::given_both))]
    fn give_back(self, view: &mut View<'s, '_, V>) {
        let (a, b) = self;
        b.give_back(view);
        a.give_back(view);
    }

    fn reads(alloc: Global) -> Result<Vec<ResourceId>, OutOfMemory> {
        let ids = A::reads(alloc)?;
        with_reads_of::<V, B>(ids, alloc)
    }

    fn writes(alloc: Global) -> Result<Vec<ResourceId>, OutOfMemory> {
        let ids = A::writes(alloc)?;
        with_writes_of::<V, B>(ids, alloc)
    }
}

impl<
    's,
    V: ResourceValue,
    A: SystemData<'s, V>,
    B: SystemData<'s, V>,
    C: SystemData<'s, V>,
> SystemData<'s, V> for (A, B, C) {
    ghost read_ids = { (A.read_ids ++ B.read_ids) ++ C.read_ids };

    ghost written_ids = { (A.written_ids ++ B.written_ids) ++ C.written_ids };

    ghost sets_up = { SetupBoth (SetupBoth A.sets_up B.sets_up) C.sets_up };

    ghost parts = { (A.parts ++ B.parts) ++ C.parts };

    ghost shows = { λ bundle. (A.shows bundle.0 ++ B.shows bundle.1) ++ C.shows bundle.2 };

    ghost moved = { λ bundle. (A.moved bundle.0 ++ B.moved bundle.1) ++ C.moved bundle.2 };

    fn setup(world: &mut World<V>) -> Result<(), WorldError> {
        if let Err(error) = <(A, B)>::setup(world) {
            return Err(error);
        }
        C::setup(world)
    }

    fn fetch(view: &mut View<'s, '_, V>) -> Result<Self, DataError> {
        let first = match <(A, B)>::fetch(view) {
            Ok(first) => first,
            Err(error) => return Err(error),
        };
        match C::fetch(view) {
            Ok(c) => {
                let (a, b) = first;
                Ok((a, b, c))
            }
            Err(error) => {
                first.give_back(view);
                Err(error)
            }
        }
    }

    #[tactic(auto, using(crate::proofs::Bundles::Both::out_last, crate::proofs::Bundles::Both::out_first, crate::proofs::Bundles::Both::given_both))]
    fn give_back(self, view: &mut View<'s, '_, V>) {
        let (a, b, c) = self;
        c.give_back(view);
        (a, b).give_back(view);
    }

    fn reads(alloc: Global) -> Result<Vec<ResourceId>, OutOfMemory> {
        let ids = <(A, B)>::reads(alloc)?;
        with_reads_of::<V, C>(ids, alloc)
    }

    fn writes(alloc: Global) -> Result<Vec<ResourceId>, OutOfMemory> {
        let ids = <(A, B)>::writes(alloc)?;
        with_writes_of::<V, C>(ids, alloc)
    }
}

impl<
    's,
    V: ResourceValue,
    A: SystemData<'s, V>,
    B: SystemData<'s, V>,
    C: SystemData<'s, V>,
    D: SystemData<'s, V>,
> SystemData<'s, V> for (A, B, C, D) {
    ghost read_ids = { ((A.read_ids ++ B.read_ids) ++ C.read_ids) ++ D.read_ids };

    ghost written_ids = { ((A.written_ids ++ B.written_ids) ++ C.written_ids) ++ D.written_ids };

    ghost sets_up = { SetupBoth (SetupBoth (SetupBoth A.sets_up B.sets_up) C.sets_up) D.sets_up };

    ghost parts = { ((A.parts ++ B.parts) ++ C.parts) ++ D.parts };

    ghost shows = { λ bundle. ((A.shows bundle.0 ++ B.shows bundle.1) ++ C.shows bundle.2) ++ D.shows bundle.3 };

    ghost moved = { λ bundle. ((A.moved bundle.0 ++ B.moved bundle.1) ++ C.moved bundle.2) ++ D.moved bundle.3 };

    fn setup(world: &mut World<V>) -> Result<(), WorldError> {
        if let Err(error) = <(A, B, C)>::setup(world) {
            return Err(error);
        }
        D::setup(world)
    }

    fn fetch(view: &mut View<'s, '_, V>) -> Result<Self, DataError> {
        let first = match <(A, B, C)>::fetch(view) {
            Ok(first) => first,
            Err(error) => return Err(error),
        };
        match D::fetch(view) {
            Ok(d) => {
                let (a, b, c) = first;
                Ok((a, b, c, d))
            }
            Err(error) => {
                first.give_back(view);
                Err(error)
            }
        }
    }

    #[tactic(auto, using(crate::proofs::Bundles::Both::out_last, crate::proofs::Bundles::Both::out_first, crate::proofs::Bundles::Both::given_both))]
    fn give_back(self, view: &mut View<'s, '_, V>) {
        let (a, b, c, d) = self;
        d.give_back(view);
        (a, b, c).give_back(view);
    }

    fn reads(alloc: Global) -> Result<Vec<ResourceId>, OutOfMemory> {
        let ids = <(A, B, C)>::reads(alloc)?;
        with_reads_of::<V, D>(ids, alloc)
    }

    fn writes(alloc: Global) -> Result<Vec<ResourceId>, OutOfMemory> {
        let ids = <(A, B, C)>::writes(alloc)?;
        with_writes_of::<V, D>(ids, alloc)
    }
}

impl<
    's,
    V: ResourceValue,
    A: SystemData<'s, V>,
    B: SystemData<'s, V>,
    C: SystemData<'s, V>,
    D: SystemData<'s, V>,
    E: SystemData<'s, V>,
> SystemData<'s, V> for (A, B, C, D, E) {
    ghost read_ids = { ((A.read_ids ++ B.read_ids) ++ C.read_ids) ++ (D.read_ids ++ E.read_ids) };

    ghost written_ids = { ((A.written_ids ++ B.written_ids) ++ C.written_ids) ++ (D.written_ids ++ E.written_ids) };

    ghost sets_up = { SetupBoth (SetupBoth (SetupBoth A.sets_up B.sets_up) C.sets_up) (SetupBoth D.sets_up E.sets_up) };

    ghost parts = { ((A.parts ++ B.parts) ++ C.parts) ++ (D.parts ++ E.parts) };

    ghost shows = { λ bundle. ((A.shows bundle.0 ++ B.shows bundle.1) ++ C.shows bundle.2) ++ (D.shows bundle.3 ++ E.shows bundle.4) };

    ghost moved = { λ bundle. ((A.moved bundle.0 ++ B.moved bundle.1) ++ C.moved bundle.2) ++ (D.moved bundle.3 ++ E.moved bundle.4) };

    fn setup(world: &mut World<V>) -> Result<(), WorldError> {
        if let Err(error) = <(A, B, C)>::setup(world) {
            return Err(error);
        }
        <(D, E)>::setup(world)
    }

    fn fetch(view: &mut View<'s, '_, V>) -> Result<Self, DataError> {
        let first = match <(A, B, C)>::fetch(view) {
            Ok(first) => first,
            Err(error) => return Err(error),
        };
        match <(D, E)>::fetch(view) {
            Ok((d, e)) => {
                let (a, b, c) = first;
                Ok((a, b, c, d, e))
            }
            Err(error) => {
                first.give_back(view);
                Err(error)
            }
        }
    }

    #[tactic(auto, using(crate::proofs::Bundles::Both::out_last, crate::proofs::Bundles::Both::out_first, crate::proofs::Bundles::Both::given_both))]
    fn give_back(self, view: &mut View<'s, '_, V>) {
        let (a, b, c, d, e) = self;
        (d, e).give_back(view);
        (a, b, c).give_back(view);
    }

    fn reads(alloc: Global) -> Result<Vec<ResourceId>, OutOfMemory> {
        let ids = <(A, B, C)>::reads(alloc)?;
        let more = <(D, E)>::reads(alloc)?;
        joined(ids, more.as_slice())
    }

    fn writes(alloc: Global) -> Result<Vec<ResourceId>, OutOfMemory> {
        let ids = <(A, B, C)>::writes(alloc)?;
        let more = <(D, E)>::writes(alloc)?;
        joined(ids, more.as_slice())
    }
}

impl<
    's,
    V: ResourceValue,
    A: SystemData<'s, V>,
    B: SystemData<'s, V>,
    C: SystemData<'s, V>,
    D: SystemData<'s, V>,
    E: SystemData<'s, V>,
    F: SystemData<'s, V>,
> SystemData<'s, V> for (A, B, C, D, E, F) {
    ghost read_ids = { ((A.read_ids ++ B.read_ids) ++ C.read_ids) ++ ((D.read_ids ++ E.read_ids) ++ F.read_ids) };

    ghost written_ids = { ((A.written_ids ++ B.written_ids) ++ C.written_ids) ++ ((D.written_ids ++ E.written_ids) ++ F.written_ids) };

    ghost sets_up = { SetupBoth (SetupBoth (SetupBoth A.sets_up B.sets_up) C.sets_up) (SetupBoth (SetupBoth D.sets_up E.sets_up) F.sets_up) };

    ghost parts = { ((A.parts ++ B.parts) ++ C.parts) ++ ((D.parts ++ E.parts) ++ F.parts) };

    ghost shows = { λ bundle. ((A.shows bundle.0 ++ B.shows bundle.1) ++ C.shows bundle.2) ++ ((D.shows bundle.3 ++ E.shows bundle.4) ++ F.shows bundle.5) };

    ghost moved = { λ bundle. ((A.moved bundle.0 ++ B.moved bundle.1) ++ C.moved bundle.2) ++ ((D.moved bundle.3 ++ E.moved bundle.4) ++ F.moved bundle.5) };

    fn setup(world: &mut World<V>) -> Result<(), WorldError> {
        if let Err(error) = <(A, B, C)>::setup(world) {
            return Err(error);
        }
        <(D, E, F)>::setup(world)
    }

    fn fetch(view: &mut View<'s, '_, V>) -> Result<Self, DataError> {
        let first = match <(A, B, C)>::fetch(view) {
            Ok(first) => first,
            Err(error) => return Err(error),
        };
        match <(D, E, F)>::fetch(view) {
            Ok((d, e, f)) => {
                let (a, b, c) = first;
                Ok((a, b, c, d, e, f))
            }
            Err(error) => {
                first.give_back(view);
                Err(error)
            }
        }
    }

    #[tactic(auto, using(crate::proofs::Bundles::Both::out_last, crate::proofs::Bundles::Both::out_first, crate::proofs::Bundles::Both::given_both))]
    fn give_back(self, view: &mut View<'s, '_, V>) {
        let (a, b, c, d, e, f) = self;
        (d, e, f).give_back(view);
        (a, b, c).give_back(view);
    }

    fn reads(alloc: Global) -> Result<Vec<ResourceId>, OutOfMemory> {
        let ids = <(A, B, C)>::reads(alloc)?;
        let more = <(D, E, F)>::reads(alloc)?;
        joined(ids, more.as_slice())
    }

    fn writes(alloc: Global) -> Result<Vec<ResourceId>, OutOfMemory> {
        let ids = <(A, B, C)>::writes(alloc)?;
        let more = <(D, E, F)>::writes(alloc)?;
        joined(ids, more.as_slice())
    }
}

impl<
    's,
    V: ResourceValue,
    A: SystemData<'s, V>,
    B: SystemData<'s, V>,
    C: SystemData<'s, V>,
    D: SystemData<'s, V>,
    E: SystemData<'s, V>,
    F: SystemData<'s, V>,
    G: SystemData<'s, V>,
> SystemData<'s, V> for (A, B, C, D, E, F, G) {
    ghost read_ids = { (((A.read_ids ++ B.read_ids) ++ C.read_ids) ++ D.read_ids) ++ ((E.read_ids ++ F.read_ids) ++ G.read_ids) };

    ghost written_ids = { (((A.written_ids ++ B.written_ids) ++ C.written_ids) ++ D.written_ids) ++ ((E.written_ids ++ F.written_ids) ++ G.written_ids) };

    ghost sets_up = { SetupBoth (SetupBoth (SetupBoth (SetupBoth A.sets_up B.sets_up) C.sets_up) D.sets_up) (SetupBoth (SetupBoth E.sets_up F.sets_up) G.sets_up) };

    ghost parts = { (((A.parts ++ B.parts) ++ C.parts) ++ D.parts) ++ ((E.parts ++ F.parts) ++ G.parts) };

    ghost shows = { λ bundle. (((A.shows bundle.0 ++ B.shows bundle.1) ++ C.shows bundle.2) ++ D.shows bundle.3) ++ ((E.shows bundle.4 ++ F.shows bundle.5) ++ G.shows bundle.6) };

    ghost moved = { λ bundle. (((A.moved bundle.0 ++ B.moved bundle.1) ++ C.moved bundle.2) ++ D.moved bundle.3) ++ ((E.moved bundle.4 ++ F.moved bundle.5) ++ G.moved bundle.6) };

    fn setup(world: &mut World<V>) -> Result<(), WorldError> {
        if let Err(error) = <(A, B, C, D)>::setup(world) {
            return Err(error);
        }
        <(E, F, G)>::setup(world)
    }

    fn fetch(view: &mut View<'s, '_, V>) -> Result<Self, DataError> {
        let first = match <(A, B, C, D)>::fetch(view) {
            Ok(first) => first,
            Err(error) => return Err(error),
        };
        match <(E, F, G)>::fetch(view) {
            Ok((e, f, g)) => {
                let (a, b, c, d) = first;
                Ok((a, b, c, d, e, f, g))
            }
            Err(error) => {
                first.give_back(view);
                Err(error)
            }
        }
    }

    #[tactic(auto, using(crate::proofs::Bundles::Both::out_last, crate::proofs::Bundles::Both::out_first, crate::proofs::Bundles::Both::given_both))]
    fn give_back(self, view: &mut View<'s, '_, V>) {
        let (a, b, c, d, e, f, g) = self;
        (e, f, g).give_back(view);
        (a, b, c, d).give_back(view);
    }

    fn reads(alloc: Global) -> Result<Vec<ResourceId>, OutOfMemory> {
        let ids = <(A, B, C, D)>::reads(alloc)?;
        let more = <(E, F, G)>::reads(alloc)?;
        joined(ids, more.as_slice())
    }

    fn writes(alloc: Global) -> Result<Vec<ResourceId>, OutOfMemory> {
        let ids = <(A, B, C, D)>::writes(alloc)?;
        let more = <(E, F, G)>::writes(alloc)?;
        joined(ids, more.as_slice())
    }
}

impl<
    's,
    V: ResourceValue,
    A: SystemData<'s, V>,
    B: SystemData<'s, V>,
    C: SystemData<'s, V>,
    D: SystemData<'s, V>,
    E: SystemData<'s, V>,
    F: SystemData<'s, V>,
    G: SystemData<'s, V>,
    H: SystemData<'s, V>,
> SystemData<'s, V> for (A, B, C, D, E, F, G, H) {
    ghost read_ids = { (((A.read_ids ++ B.read_ids) ++ C.read_ids) ++ D.read_ids) ++ (((E.read_ids ++ F.read_ids) ++ G.read_ids) ++ H.read_ids) };

    ghost written_ids = { (((A.written_ids ++ B.written_ids) ++ C.written_ids) ++ D.written_ids) ++ (((E.written_ids ++ F.written_ids) ++ G.written_ids) ++ H.written_ids) };

    ghost sets_up = { SetupBoth (SetupBoth (SetupBoth (SetupBoth A.sets_up B.sets_up) C.sets_up) D.sets_up) (SetupBoth (SetupBoth (SetupBoth E.sets_up F.sets_up) G.sets_up) H.sets_up) };

    ghost parts = { (((A.parts ++ B.parts) ++ C.parts) ++ D.parts) ++ (((E.parts ++ F.parts) ++ G.parts) ++ H.parts) };

    ghost shows = { λ bundle. (((A.shows bundle.0 ++ B.shows bundle.1) ++ C.shows bundle.2) ++ D.shows bundle.3) ++ (((E.shows bundle.4 ++ F.shows bundle.5) ++ G.shows bundle.6) ++ H.shows bundle.7) };

    ghost moved = { λ bundle. (((A.moved bundle.0 ++ B.moved bundle.1) ++ C.moved bundle.2) ++ D.moved bundle.3) ++ (((E.moved bundle.4 ++ F.moved bundle.5) ++ G.moved bundle.6) ++ H.moved bundle.7) };

    fn setup(world: &mut World<V>) -> Result<(), WorldError> {
        if let Err(error) = <(A, B, C, D)>::setup(world) {
            return Err(error);
        }
        <(E, F, G, H)>::setup(world)
    }

    fn fetch(view: &mut View<'s, '_, V>) -> Result<Self, DataError> {
        let first = match <(A, B, C, D)>::fetch(view) {
            Ok(first) => first,
            Err(error) => return Err(error),
        };
        match <(E, F, G, H)>::fetch(view) {
            Ok((e, f, g, h)) => {
                let (a, b, c, d) = first;
                Ok((a, b, c, d, e, f, g, h))
            }
            Err(error) => {
                first.give_back(view);
                Err(error)
            }
        }
    }

    #[tactic(auto, using(crate::proofs::Bundles::Both::out_last, crate::proofs::Bundles::Both::out_first, crate::proofs::Bundles::Both::given_both))]
    fn give_back(self, view: &mut View<'s, '_, V>) {
        let (a, b, c, d, e, f, g, h) = self;
        (e, f, g, h).give_back(view);
        (a, b, c, d).give_back(view);
    }

    fn reads(alloc: Global) -> Result<Vec<ResourceId>, OutOfMemory> {
        let ids = <(A, B, C, D)>::reads(alloc)?;
        let more = <(E, F, G, H)>::reads(alloc)?;
        joined(ids, more.as_slice())
    }

    fn writes(alloc: Global) -> Result<Vec<ResourceId>, OutOfMemory> {
        let ids = <(A, B, C, D)>::writes(alloc)?;
        let more = <(E, F, G, H)>::writes(alloc)?;
        joined(ids, more.as_slice())
    }
}
