//! The plan of a store's rules.
ghost use Rattle.std.specs.Prelude.{◌≡◌, [], IfOk, OnOk};
ghost use Rattle.shred.specs.Builders.{built};
ghost use Rattle.shred.specs.Dispatchers.{dispatcher_with, dispatcher_workers};
ghost use Rattle.shred.specs.KeptDispatchers.{dispatcher_of as of_kept};
ghost use Rattle.shredstore.specs.Plans.{IsAddedRule, IsPlanned, RunsOverAny};

use crate::rows::Rows;
use crate::rule_system::RuleSystem;
use crate::table_rule::TableRule;
use shred::{Dispatcher, DispatcherBuilder, KeptDispatcher, Only, OutOfMemory, Plain, Rule};
use std::alloc::Global;
use std::sync::Wait;
use std::thread::Threads;

/// What plans a store's rules.
type RuleBuilder<R> = DispatcherBuilder<Only<Rows>, Plain<RuleSystem<R>>>;

/// What runs them.
pub type RuleDispatcher<R> = Dispatcher<Only<Rows>, Plain<RuleSystem<R>>>;

/// What runs them on workers that are kept.
pub type KeptRules<T, R> = KeptDispatcher<T, Only<Rows>, Plain<RuleSystem<R>>>;

/// What runs rules.
pub trait RunsRules<R> {
    ghost use Rattle.std.specs.Prelude.{List};

    ghost runs: { Self → List R → Type 0 };
}

impl<R: TableRule> RunsRules<R> for RuleDispatcher<R> {
    ghost use Rattle.shred.specs.Dispatchers.{dispatcher_with};
    ghost use Rattle.shredstore.specs.Plans.{RunsOverAny};

    ghost runs = { λ dispatcher rules. RunsOverAny R.meaning rules (dispatcher_with dispatcher) };
}

impl<T: Threads + Wait, R: TableRule> RunsRules<R> for KeptRules<T, R> {
    ghost use Rattle.shred.specs.Dispatchers.{dispatcher_with};
    ghost use Rattle.shred.specs.KeptDispatchers.{dispatcher_of as of_kept};
    ghost use Rattle.shredstore.specs.Plans.{RunsOverAny};

    ghost runs = { λ kept rules. RunsOverAny R.meaning rules (dispatcher_with (of_kept kept)) };
}

// A builder that keeps the order of addition, without rules.
fn ordered_builder<R: TableRule>(alloc: Global) -> RuleBuilder<R>
    ensures { IsPlanned R.meaning [] (built result) }
{
    match RuleBuilder::<R>::new(alloc).with_rule(Rule::Ordered) {
        Ok(builder) => builder,
        Err(_) => unreachable!(),
    }
}

// Adds one rule, without a name.
fn add_rule<R: TableRule>(builder: &mut RuleBuilder<R>, rule: R) -> Result<(), OutOfMemory>
    ensures { OnOk result (IsAddedRule R.meaning rule (built builder.old) (built builder.new)) }
{
    match builder.add(Plain(RuleSystem(rule)), "", &[]) {
        Ok(_) => Ok(()),
        Err(_) => Err(OutOfMemory),
    }
}

// A builder with these rules, in order.
fn builder_of<R: TableRule>(alloc: Global, rules: &[R]) -> Result<RuleBuilder<R>, OutOfMemory>
    ensures { IfOk result (λ builder. IsPlanned R.meaning rules.now (built builder)) }
{
    let mut builder = ordered_builder(alloc);
    for rule in rules {
        add_rule(&mut builder, *rule)?;
    }
    Ok(builder)
}

/// A dispatcher that runs these rules in order.
pub(crate) fn dispatcher_of<R: TableRule>(
    alloc: Global,
    rules: &[R],
) -> Result<RuleDispatcher<R>, OutOfMemory>
    ensures { IfOk result (λ dispatcher. RunsOverAny R.meaning rules.now (dispatcher_with dispatcher)) }
{
    Ok(builder_of(alloc, rules)?.build())
}

/// The same on so many threads, which are kept. Who waits looks so often before it sleeps.
pub(crate) fn kept_of<T: Threads + Wait + Clone + Send + 'static, R: TableRule + Send + 'static>(
    rt: &T,
    alloc: Global,
    rules: &[R],
    threads: usize,
    looks: u32,
) -> Result<KeptRules<T, R>, OutOfMemory>
    ensures runs { IfOk result (λ kept. RunsOverAny R.meaning rules.now (dispatcher_with (of_kept kept))) }
    ensures threads { IfOk result (λ kept. dispatcher_workers (of_kept kept) ≡ threads) }
{
    let builder = builder_of(alloc, rules)?.with_pool(threads);
    match builder.build().keep(rt, alloc, looks) {
        Ok(kept) => Ok(kept),
        Err(_) => Err(OutOfMemory),
    }
}
