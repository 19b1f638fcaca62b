//! A position moves by a speed, which is then halved.
#![tactic(auto)]

use shred::prelude::*;

type Position = First<i64>;

type Speed = Second<i64>;

#[derive(Drop)]
struct Moves;

impl ReadsWrites<Speed, Position> for Moves {
    fn run(&mut self, speed: &Speed, position: &mut Position) {
        position.0 = position.0.wrapping_add(speed.0);
    }
}

#[derive(Drop)]
struct Brakes;

impl Writes<Speed> for Brakes {
    fn run(&mut self, speed: &mut Speed) {
        speed.0 /= 2;
    }
}

fn main(rt: HostRuntime) -> anyhow::Result<()> {
    let mut game: Dispatcher<_, Systems2<_, _>> = DispatcherBuilder::new(rt.alloc())
        .with(first_system(Moves.into_system()), "moves", &[])?
        .with(second_system(Brakes.into_system()), "brakes", &["moves"])?
        .build();
    let mut world: World<OneOf2<i64, i64>> = World::empty(rt.alloc());
    world.insert(First(0))?;
    world.insert(Second(8))?;
    game.dispatch(&rt, &mut world)?;
    game.dispatch(&rt, &mut world)?;
    println!(rt; "position {}", world.fetch::<Position>()?.0)?;
    Ok(())
}
