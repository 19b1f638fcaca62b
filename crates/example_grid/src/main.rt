//! A small power grid, hour by hour: the demand rises in the evening, the plant follows it in quarters of an hour, and the battery
//! gives what is missing. Its four types of systems stand under one name of its own.
#![tactic(auto)]

use shred::prelude::*;
use shred::{Accessor, BatchAccessor, Plain, PlainSystem, System};
use std::alloc::Global;
use thiserror::Error;

/// Megawatts that are asked for.
type Demand = First<u32>;

/// Megawatt-hours that are stored.
type Battery = Second<u32>;

/// Cents for a kilowatt-hour.
type Price = Third<u32>;

type Plant = Fourth<Turbine>;

type Value = OneOf4<u32, u32, u32, Turbine>;

/// What a plant gives, and the most that it can give.
#[derive(Debug, Drop)]
struct Turbine {
    output: u32,
    most: u32,
}

/// Why a system refuses.
#[derive(Debug, Drop, Error)]
enum Outage {
    #[error("the battery is empty, {missing} MWh are missing")]
    Empty { missing: u32 },
    #[error("the output is closed")]
    Closed,
    #[error("{0}")]
    Data(#[from] DataError),
}

/// An hour goes by: what is asked for then, and the tariff that the hour begins with.
#[derive(Drop)]
struct Clock {
    hour: u32,
}

impl Writes<(Demand, Price)> for Clock {
    fn run(&mut self, (demand, price): &mut (Demand, Price)) {
        self.hour = self.hour.wrapping_add(1) % 24;
        if self.hour >= 17 && self.hour < 21 {
            demand.0 = 100;
            price.0 = 30;
        } else {
            demand.0 = 40;
            price.0 = 10;
        }
    }
}

/// The plant gives more where it is short, and that pays or the battery is low, and less where it gives too much.
#[derive(Drop)]
struct Ramps;

impl Reads3Writes<Demand, Battery, Price, Plant> for Ramps {
    fn run(&mut self, demand: &Demand, battery: &Battery, price: &Price, plant: &mut Plant) {
        let turbine = &mut plant.0;
        if turbine.output < demand.0 && (price.0 >= 20 || battery.0 < 50) {
            if turbine.output < turbine.most {
                turbine.output += 1;
            }
        } else if turbine.output > demand.0 {
            turbine.output -= 1;
        }
    }
}

/// The price follows what is missing.
#[derive(Drop)]
struct Quotes;

impl Reads2Writes<Demand, Plant, Price> for Quotes {
    fn run(&mut self, demand: &Demand, plant: &Plant, price: &mut Price) {
        price.0 = demand.0.saturating_sub(plant.0.output).saturating_add(10);
    }
}

/// The battery gives what is missing, and takes what is left over. It refuses where it has too little.
#[derive(Drop)]
struct Supplies;

impl TryReads2Writes<Demand, Plant, Battery, Outage> for Supplies {
    fn run(&mut self, demand: &Demand, plant: &Plant, battery: &mut Battery) -> Result<(), Outage> {
        let output = plant.0.output;
        if output >= demand.0 {
            battery.0 = battery.0.saturating_add(output - demand.0);
            return Ok(());
        }
        let wanted = demand.0 - output;
        if wanted > battery.0 {
            return Err(Outage::Empty {
                missing: wanted - battery.0,
            });
        }
        battery.0 -= wanted;
        Ok(())
    }
}

/// Prints the grid.
#[derive(Drop)]
struct Prints<R>(R);

impl<R: Print> TryReads4Writes<Demand, Battery, Price, Plant, (), Outage> for Prints<R> {
    fn run(
        &mut self,
        demand: &Demand,
        battery: &Battery,
        price: &Price,
        plant: &Plant,
        _none: &mut (),
    ) -> Result<(), Outage> {
        println!(self.0;
            "demand {}, plant {}, battery {}, price {}",
            demand.0, plant.0.output, battery.0, price.0
        )
        .map_err(|_| Outage::Closed)
    }
}

type Systems = Systems4<
    PassedSystem<Clock, (), (Demand, Price), Outage>,
    PassedSystem<Ramps, (Demand, Battery, Price), Plant, Outage>,
    PassedSystem<Quotes, (Demand, Plant), Price, Outage>,
    TrySystem<Supplies, (Demand, Plant), Battery, Outage>,
>;

/// A system of the grid. For the prover it is one name, whatever stands in the list.
#[derive(Drop)]
struct Hourly(Systems);

impl PlainSystem<Value> for Hourly {
    type Error = Outage;

    ghost reads = { λ hourly. ⟦<Systems as System<Value>>⟧.reads hourly.0 };

    ghost writes = { λ hourly. ⟦<Systems as System<Value>>⟧.writes hourly.0 };

    ghost step = { λ old seen outcome new left. ⟦<Systems as System<Value>>⟧.step old.0 seen outcome new.0 left };

    fn run(&mut self, view: &mut View<Value>) -> Ran<Outage> {
        self.0.run(view)
    }

    fn accessor(&self, alloc: Global) -> Result<BatchAccessor, OutOfMemory> {
        let lists = <Systems as System<Value>>::accessor(&self.0, alloc)?;
        Ok(BatchAccessor::new(lists.reads(alloc)?, lists.writes(alloc)?))
    }
}

/// The grid at three in the afternoon.
fn afternoon(alloc: Global) -> Result<World<Value>, WorldError> {
    let mut world = World::empty(alloc);
    world.insert(First(0))?;
    world.insert(Second(150))?;
    world.insert(Third(0))?;
    world.insert(Fourth(Turbine {
        output: 42,
        most: 60,
    }))?;
    Ok(world)
}

fn main(rt: HostRuntime) -> anyhow::Result<()> {
    let clock = Hourly(first_system(Clock { hour: 15 }.into_system_with_error()));
    let ramps = Hourly(second_system(Ramps.into_system_with_error()));
    let quotes = Hourly(third_system(Quotes.into_system_with_error()));
    let supplies = Hourly(fourth_system(Supplies.into_system()));
    let quarter = DispatcherBuilder::new(rt.alloc())
        .with(Plain(ramps), "ramps", &[])?
        .with(Plain(quotes), "quotes", &["ramps"])?;
    let (mut grid, names) = DispatcherBuilder::new(rt.alloc())
        .with(Plain(clock), "clock", &[])?
        .with_batch(Rounds::new(4), quarter, "quarters", &["clock"])?
        .with(Plain(supplies), "supplies", &["quarters"])?
        .with_thread_local(Now(Prints(&rt).into_system()))?
        .build_with_names();
    let mut world = afternoon(rt.alloc())?;
    for _ in 0..6 {
        if let Err(error) = grid.dispatch(&rt, &mut world) {
            println!(rt; "{}", names.told(&error))?;
        }
    }
    println!(rt; "left in the battery: {}", world.fetch::<Battery>()?.0)?;
    Ok(())
}
