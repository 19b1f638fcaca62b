//! A tree of systems, a plan that runs while its caller goes on, a table of kinds, a cell and a world in cells.
#![tactic(auto)]

use shred::cell::TrustCell;
use shred::prelude::*;
use shred::{MetaTable, ParSeq, SharedWorld, par, seq};

type Hour = First<u32>;

type Light = Second<u32>;

type Warmth = Third<u32>;

type Value = OneOf3<u32, u32, u32>;

/// An hour goes by.
#[derive(Drop)]
struct Turns;

impl Writes<Hour> for Turns {
    fn run(&mut self, hour: &mut Hour) {
        hour.0 = (hour.0 % 24 + 1) % 24;
    }
}

/// It is light from six to eighteen.
#[derive(Drop)]
struct Shines;

impl ReadsWrites<Hour, Light> for Shines {
    fn run(&mut self, hour: &Hour, light: &mut Light) {
        light.0 = if hour.0 >= 6 && hour.0 < 18 { 1 } else { 0 };
    }
}

/// It is warmest at fifteen.
#[derive(Drop)]
struct Warms;

impl ReadsWrites<Hour, Warmth> for Warms {
    fn run(&mut self, hour: &Hour, warmth: &mut Warmth) {
        warmth.0 = 20u32.saturating_sub(hour.0.abs_diff(15));
    }
}

fn main(rt: HostRuntime) -> anyhow::Result<()> {
    let mut world: World<Value> = World::empty(rt.alloc());
    world.insert(First(4))?;
    world.insert(Second(0))?;
    world.insert(Third(0))?;

    // Two hours go by, and then it gets light and warm at once.
    let both = par![rt.alloc(); Now(Shines.into_system()), Now(Warms.into_system()),]?;
    let tree = seq![Now(Turns.into_system()), Now(Turns.into_system()), both,];
    let mut dawn = ParSeq::new(tree, 2);
    dawn.setup(&mut world)?;
    dawn.dispatch(&rt, &mut world)?;
    println!(rt; "light {}", world.fetch::<Light>()?.0)?;
    println!(rt; "warmth {}", world.fetch::<Warmth>()?.0)?;

    // What the world holds of the kinds that are listed.
    let mut kinds: MetaTable<Value> = MetaTable::new(rt.alloc());
    kinds.register::<Hour>()?;
    for value in kinds.iter(&world) {
        println!(rt; "{value:?}")?;
    }

    // The hours go by on another thread.
    let builder: DispatcherBuilder<_, _> = DispatcherBuilder::new(rt.alloc());
    let turns = builder.with(Turns.into_system(), "turns", &[])?;
    let mut apart = turns.build_async(world);
    apart.dispatch(&rt)?;
    println!(rt; "meanwhile")?;
    apart.wait(&rt)?;
    println!(rt; "hour {}", apart.world(&rt)?.fetch::<Hour>()?.0)?;

    // A value that many may read, or one may write.
    let cell = TrustCell::new(5u32);
    {
        let mut writer = cell.borrow_mut()?;
        *writer = 6;
    }
    println!(rt; "cell {}", *cell.borrow(&rt)?)?;

    // A world of such values.
    let mut held: World<Value> = World::empty(rt.alloc());
    held.insert(First(4))?;
    let Ok(shared) = SharedWorld::new(held) else {
        return Ok(());
    };
    shared.fetch_mut::<Hour>()?.0 = 7;
    println!(rt; "shared {}", shared.fetch::<Hour>(&rt)?.0)?;
    Ok(())
}
