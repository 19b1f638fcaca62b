//! A frame of a game: four sub-steps of moving and bouncing, then the score, which is printed on the caller's thread.
#![tactic(auto)]

use shred::prelude::*;
use thiserror::Error;

type Position = First<i64>;

type Velocity = Second<i64>;

type Score = Third<u32>;

type Value = OneOf3<i64, i64, u32>;

/// Why a system refuses.
#[derive(Debug, Drop, Error)]
enum Stopped {
    #[error("the game is over at frame {0}")]
    Over(u32),
    #[error("the output is closed")]
    Closed,
    #[error("{0}")]
    Data(#[from] DataError),
}

/// Adds the velocity to the position.
#[derive(Drop)]
struct Moves;

impl ReadsWrites<Velocity, Position> for Moves {
    fn run(&mut self, velocity: &Velocity, position: &mut Position) {
        position.0 = position.0.wrapping_add(velocity.0);
    }
}

/// Turns the velocity round at the walls.
#[derive(Drop)]
struct Bounces;

impl ReadsWrites<Position, Velocity> for Bounces {
    fn run(&mut self, position: &Position, velocity: &mut Velocity) {
        if position.0 >= 10 && velocity.0 > 0 || position.0 <= 0 && velocity.0 < 0 {
            velocity.0 = velocity.0.wrapping_neg();
        }
    }
}

/// A point for each frame that ends in the right half. The game is over at a given frame.
#[derive(Drop)]
struct Scores {
    frame: u32,
    last: u32,
}

impl TryReadsWrites<Position, Score, Stopped> for Scores {
    fn run(&mut self, position: &Position, score: &mut Score) -> Result<(), Stopped> {
        self.frame = self.frame.wrapping_add(1);
        if self.frame >= self.last {
            return Err(Stopped::Over(self.frame));
        }
        if position.0 >= 5 {
            score.0 = score.0.wrapping_add(1);
        }
        Ok(())
    }
}

/// Prints the score.
#[derive(Drop)]
struct Prints<R>(R);

impl<R: Print> TryReadsWrites<Score, (), Stopped> for Prints<R> {
    fn run(&mut self, score: &Score, _none: &mut ()) -> Result<(), Stopped> {
        println!(self.0; "score {}", score.0).map_err(|_| Stopped::Closed)
    }
}

fn main(rt: HostRuntime) -> anyhow::Result<()> {
    let moves = first_system(Moves.into_system_with_error::<Stopped>());
    let bounces = second_system(Bounces.into_system_with_error::<Stopped>());
    let steps = DispatcherBuilder::new(rt.alloc())
        .with_rule(Rule::Ordered)?
        .with(moves, "moves", &[])?
        .with(bounces, "bounces", &[])?;
    let scores = Scores { frame: 0, last: 7 };
    let frame: DispatcherBuilder<Value, Systems3<_, _, _>, _, _> = DispatcherBuilder::new(
        rt.alloc(),
    ).with_rule(Rule::Ordered)?
        .with_batch(Rounds::new(4), steps, "sub-steps", &[])?
        .with(third_system(scores.into_system()), "scores", &[])?
        .with_thread_local(Now(Prints(&rt).into_system()))?;
    let (mut game, names) = frame.build_with_names();
    let mut world = World::empty(rt.alloc());
    world.insert(First(0))?;
    world.insert(Second(1))?;
    world.insert(Third(0))?;
    for _ in 0..10 {
        if let Err(error) = game.dispatch(&rt, &mut world) {
            println!(rt; "{}", names.told(&error))?;
            break;
        }
    }
    println!(rt; "position {}", world.fetch::<Position>()?.0)?;
    Ok(())
}
