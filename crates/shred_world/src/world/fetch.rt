//! Resources that a world lends.
ghost use Rattle.std.specs.Prelude.{◌≡◌, ⊤};
ghost use Rattle.shred_world.specs.Fetched.{fetched};

use std::alloc::AllocError;
use std::ops::Deref;

/// A held resource, to read.
#[derive(Drop)]
pub struct Fetch<'a, R> {
    pub(crate) resource: &'a R,
}

/// A held resource, to write.
pub type FetchMut<'a, R> = &'a mut R;

impl<'a, R> Deref for Fetch<'a, R> {
    type Target = R;

    ghost deref_gives = { λ fetch resource. resource ≡ fetched fetch };

    fn deref(&self) -> &R {
        self.resource
    }
}

impl<'a, R> Clone for Fetch<'a, R> {
    ghost is_clone = { λ fetch other. fetched other ≡ fetched fetch };

    ghost is_infallible = { λ fetch. ⊤ };

    fn clone(&self) -> Result<Self, AllocError> {
        Ok(Fetch {
            resource: self.resource,
        })
    }
}
