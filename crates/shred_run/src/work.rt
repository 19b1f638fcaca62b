//! What may stand in an entry of a plan: a system, or a batch.
ghost use Rattle.std.specs.Prelude.{◌≡◌};
ghost use Rattle.shred_run.specs.Rounds.{fault_within};

use crate::control::KeptController;
use crate::entry::{Group, StageFault};
use crate::system::Fault;

/// Groups that run beside each other.
#[derive(Drop)]
pub struct Tier<V, X> {
    pub groups: Vec<Group<V, X>>,
}

/// A controller and an inner plan, which is run as often as the controller says.
#[derive(Drop)]
pub struct Batch<V, C, X> {
    pub control: KeptController<V, C>,
    pub tiers: Vec<Tier<V, X>>,
    /// How deep batches nest here: one more than they do in what stands in the inner plan, or some number above that.
    pub depth: usize,
}

/// A system, or a batch.
#[derive(Drop)]
pub enum Work<S, B> {
    System(S),
    Batch(B),
}

impl<S, B> Work<S, B> {
    ghost use Rattle.shred_run.specs.OneBatch.{is_batch};

    // Whether it is a batch.
    pub(crate) fn is_batch(&self) -> bool
        ensures { result ≡ is_batch self.now }
    {
        matches!(self, Work::Batch(_))
    }
}

/// A batch whose inner plan holds systems and batches.
#[derive(Drop)]
pub struct Nested<V, S, C> {
    pub batch: Batch<V, C, Work<S, Nested<V, S, C>>>,
}

/// A fault of the inner plan, as the batch's own.
pub fn within<E>(fault: StageFault<E>) -> Fault<E>
    ensures { result ≡ fault_within fault }
{
    match fault {
        StageFault::System { id: _, fault } => fault,
        StageFault::Memory => Fault::OutOfMemory,
    }
}
