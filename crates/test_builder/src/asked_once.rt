//! How often a builder asks a system, and what becomes of a system that is refused.
ghost use Rattle.std.specs.Prelude.{[]};
ghost use Rattle.shred_run.specs.declared.system.RunningTime.TheVariants.{Average};

use crate::calls::expect_add;
use shred::{
    Accessor, AddError, DispatcherBuilder, Fault, OutOfMemory, ResourceId, RunningTime, System,
    SystemId, View, World,
};
use std::alloc::{AllocError, Global};
use std::cell::Cell;
use std::process::Abort;
use std::rc::Rc;
use std::test::Fail;
use test_values::Value;

/// A count in four digits: how often systems were asked for their reads, for their writes and for their time, and how many
/// were dropped.
#[derive(Drop)]
struct Asked {
    counts: Cell<u32>,
}

impl Asked {
    fn count(&self, digit: u32) {
        self.counts.set(self.counts.get().wrapping_add(digit));
    }
}

const READS: u32 = 1000;

const WRITES: u32 = 100;

const TIME: u32 = 10;

const DROPPED: u32 = 1;

/// Empty lists, which count how often they are asked for.
#[derive(Drop)]
struct Lists {
    asked: Rc<Asked>,
}

impl Accessor for Lists {
    ghost reads = { λ _. [] };

    ghost writes = { λ _. [] };

    fn reads(&self, alloc: Global) -> Result<Vec<ResourceId>, OutOfMemory> {
        self.asked.count(READS);
        Ok(Vec::new(alloc))
    }

    fn writes(&self, alloc: Global) -> Result<Vec<ResourceId>, OutOfMemory> {
        self.asked.count(WRITES);
        Ok(Vec::new(alloc))
    }
}

/// A system that touches nothing, and counts how often it is asked.
struct Watched {
    asked: Rc<Asked>,
}

fn watching(asked: &Rc<Asked>) -> Result<Watched, AllocError> {
    Ok(Watched {
        asked: Rc::clone(asked)?,
    })
}

impl Drop for Watched {
    fn drop(self) {
        let Watched { asked } = self;
        asked.count(DROPPED);
    }
}

impl System<Value> for Watched {
    type Error = u8;

    type Accessor = Lists;

    ghost reads = { λ _. [] };

    ghost writes = { λ _. [] };

    ghost time = { λ _. Average };

    ghost step = { λ _ _ _ _ _. Unit {0} };

    ghost sets_up = { λ _ _ _ _ _. Unit {0} };

    ghost disposes = { λ _ _ _ _. Unit {0} };

    fn run(&mut self, _view: &mut View<Value>) -> Result<(), Fault<u8>> {
        Ok(())
    }

    fn setup(&mut self, _world: &mut World<Value>) -> Result<(), Fault<u8>> {
        Ok(())
    }

    fn dispose(self, _world: &mut World<Value>) -> Result<(), Fault<u8>> {
        Ok(())
    }

    fn running_time(&self) -> RunningTime {
        self.asked.count(TIME);
        RunningTime::Average
    }

    fn accessor(&self, _alloc: Global) -> Result<Lists, OutOfMemory> {
        match Rc::clone(&self.asked) {
            Ok(asked) => Ok(Lists { asked }),
            Err(_) => Err(OutOfMemory),
        }
    }
}

fn never_asked(alloc: Global) -> Result<Rc<Asked>, Fail> {
    let counts = Cell::new(0);
    Ok(Rc::new(alloc, Asked { counts })?)
}

fn expect_counts(rt: &impl Abort, asked: &Rc<Asked>, counts: u32) {
    assert_eq!(rt; asked.counts.get(), counts);
}

#[test]
fn a_system_is_asked_once_and_dropped_where_it_is_refused(rt: HostRuntime) -> Result<(), Fail> {
    let asked = never_asked(rt.alloc())?;
    let mut builder = DispatcherBuilder::new(rt.alloc());
    let system = watching(&asked)?;
    expect_add(&rt, &mut builder, system, "a", &[], Ok(SystemId(0)));
    expect_counts(&rt, &asked, 1110);
    let taken = Err(AddError::NameTaken);
    expect_add(&rt, &mut builder, watching(&asked)?, "a", &[], taken);
    expect_counts(&rt, &asked, 1111);
    let unknown = Err(AddError::NoSuchSystem { place: 1 });
    let system = watching(&asked)?;
    expect_add(&rt, &mut builder, system, "b", &["a", "b"], unknown);
    expect_counts(&rt, &asked, 1112);
    drop(builder.build());
    expect_counts(&rt, &asked, 1113);
    Ok(())
}
