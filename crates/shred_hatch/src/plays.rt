//! The rule of a hatch, and what each step tells. These types are for the proofs alone.
ghost use Rattle.std.specs.Prelude.{◌≡◌, [], None, Option};
ghost use Rattle.shred_hatch.specs.declared.view.View.TheVariants.{Fresh, Paired, Holding, Ended, Idle};
ghost use Rattle.shred_hatch.specs.Phases.{Stands, holding, handed_over, collected, looked, finished};

use crate::job::Job;
use crate::view::View;
use atomic_table::{Play, Split, TableRule};

/// One job at a time is out, and comes back as its run left it.
pub struct OneJob;

impl<J: Job> TableRule<Option<J>, View<J>, ()> for OneJob {
    ghost holds = { λ _. Stands J.ready J.ran };

    ghost first = { λ _. Fresh };
}

pub(crate) struct Pair;

impl<J> Split<View<J>> for Pair {
    ghost left = { λ _. Paired };

    ghost right = { λ _. Idle };
}

pub(crate) struct PickUp;

impl<J> Play<Option<J>, View<J>> for PickUp {
    ghost then = { λ _ _ _ n. n ≡ holding None };
}

pub(crate) struct HandOver;

impl<J> Play<Option<J>, View<J>> for HandOver {
    ghost then = { λ _ m _ n. handed_over m n };
}

pub(crate) struct Collect;

impl<J: Job> Play<Option<J>, View<J>> for Collect {
    ghost then = { λ _. collected J.ran };
}

pub(crate) struct Fetch;

impl<J: Job> Play<Option<J>, View<J>> for Fetch {
    ghost then = { λ _. looked J.ready };
}

pub(crate) struct Finish;

impl<J> Play<Option<J>, View<J>> for Finish {
    ghost then = { λ _ _ _ n. finished n };
}

pub(crate) struct End;

impl<J> Play<Option<J>, View<J>> for End {
    ghost then = { λ _ _ _ n. n.0 ≡ Ended };
}
