//! Does one thing to an entity store often, to be timed from outside.
//!
//! Standard input is one line, `MODE ROWS TIMES`, with one space between the words. There are ROWS entities, and each has a value
//! in table 0 and in table 1; where MODE is `few`, ten of them have one in table 0, and where it is `many`, ten in table 1. The
//! modes `add`, `few` and `many` tick an `Add`, `set` a `Set`; `get` reads a value, drawn by a generator of fixed seed; `put`
//! removes the value in the middle and sets it again; `walk` goes over a table, and `join` over the entities of both. A sum of what
//! was read is printed.
#![tactic(auto)]

use anyhow::bail;
use shredstore::{Entity, Store, StoreRule};
use std::alloc::Global;
use std::io::{Read, Write};

/// So many rows of each table lie between two.
#[derive(Clone, Copy)]
struct Steps(u64, u64);

const DENSE: Steps = Steps(1, 1);

/// Every so many rows, if these are ten of all.
fn tenth(rows: u64) -> u64 {
    (rows / 10).max(1)
}

fn set_each(store: &mut Store, entity: Entity, number: u64, steps: Steps) -> anyhow::Result<()> {
    if number.checked_rem(steps.0) == Some(0) {
        store.set(entity, 0, 1)?;
    }
    if number.checked_rem(steps.1) == Some(0) {
        store.set(entity, 1, 0)?;
    }
    Ok(())
}

/// A store of so many entities, with this rule.
fn store_of(alloc: Global, rule: StoreRule, rows: u64, steps: Steps) -> anyhow::Result<Store> {
    let mut store = Store::new(alloc, 2, &[rule])?;
    for number in 0..rows {
        let entity = store.create()?;
        set_each(&mut store, entity, number, steps)?;
    }
    Ok(store)
}

/// So many ticks.
fn ticked(store: &mut Store, times: u64) -> anyhow::Result<i64> {
    for _ in 0..times {
        store.tick_seq()?;
    }
    Ok(store.get(Entity(0), 0).unwrap_or(0))
}

fn read(store: &Store, rows: u64, times: u64) -> i64 {
    let (mut sum, mut drawn) = (0i64, 1u64);
    for _ in 0..times {
        drawn = drawn
            .wrapping_mul(6364136223846793005)
            .wrapping_add(1442695040888963407);
        let entity = Entity((drawn >> 33).checked_rem(rows).unwrap_or(0));
        sum = sum.wrapping_add(store.get(entity, 0).unwrap_or(0));
    }
    sum
}

fn put(store: &mut Store, rows: u64, times: u64) -> anyhow::Result<i64> {
    let middle = Entity(rows / 2);
    let mut sum = 0i64;
    for _ in 0..times {
        let value = store.remove(middle, 0).unwrap_or(0);
        store.set(middle, 0, value)?;
        sum = sum.wrapping_add(value);
    }
    Ok(sum)
}

fn walked(store: &Store, times: u64) -> anyhow::Result<i64> {
    let mut sum = 0i64;
    let rows = store.rows(0)?;
    for _ in 0..times {
        for (_, value) in rows.values() {
            sum = sum.wrapping_add(value);
        }
    }
    Ok(sum)
}

fn joined(store: &Store, times: u64) -> anyhow::Result<i64> {
    let mut sum = 0i64;
    let (rows, others) = (store.rows(0)?, store.rows(1)?);
    for _ in 0..times {
        for (_, (value, beside)) in rows.joined(&others) {
            sum = sum.wrapping_add(value).wrapping_add(beside);
        }
    }
    Ok(sum)
}

/// The sum that is printed.
fn measured(alloc: Global, mode: &str, rows: u64, times: u64) -> anyhow::Result<i64> {
    let add = StoreRule::Add(0, 1);
    match mode {
        "add" => ticked(&mut store_of(alloc, add, rows, DENSE)?, times),
        "few" => ticked(
            &mut store_of(alloc, add, rows, Steps(tenth(rows), 1))?,
            times,
        ),
        "many" => ticked(
            &mut store_of(alloc, add, rows, Steps(1, tenth(rows)))?,
            times,
        ),
        "set" => ticked(
            &mut store_of(alloc, StoreRule::Set(0, 7), rows, DENSE)?,
            times,
        ),
        "get" => Ok(read(&store_of(alloc, add, rows, DENSE)?, rows, times)),
        "put" => put(&mut store_of(alloc, add, rows, DENSE)?, rows, times),
        "walk" => walked(&store_of(alloc, add, rows, DENSE)?, times),
        "join" => joined(&store_of(alloc, add, rows, DENSE)?, times),
        _ => bail!("no such mode"),
    }
}

/// The words of a line, the second and the third as numbers.
fn words_of(line: &[u8]) -> Option<(&str, u64, u64)> {
    let text = str::from_utf8(line).ok()?;
    let (text, _) = text.split_once('\n')?;
    let (mode, numbers) = text.split_once(' ')?;
    let (rows, times) = numbers.split_once(' ')?;
    Some((mode, rows.parse::<u64>().ok()?, times.parse::<u64>().ok()?))
}

fn main(rt: HostRuntime) -> anyhow::Result<()> {
    let mut line = [0; 64];
    let length = rt.stdin().read(&mut line)?;
    let Some((mode, rows, times)) = words_of(&line[..length]) else {
        bail!("no such line");
    };
    println!(rt; "{}", measured(rt.alloc(), mode, rows, times)?)?;
    Ok(())
}
