//! A runtime of which few copies can be made.

use std::alloc::{AllocError, Global};
use std::sync::atomic::{AtomicU64, Ordering};
use std::sync::{Arc, Wait};
use std::thread::Threads;

/// A runtime of which so many copies are there at once, and no more. A pool has one, and each of its workers.
pub struct FewCopies<R> {
    rt: R,
    left: Arc<AtomicU64>,
}

impl<R> FewCopies<R> {
    /// The first one, and how many copies of it can still be made.
    pub fn of(
        rt: R,
        alloc: Global,
        copies: u64,
    ) -> Result<(FewCopies<R>, Arc<AtomicU64>), AllocError>
    where
        R: Drop,
    {
        let left = Arc::new(alloc, AtomicU64::new(copies))?;
        let seen = left.clone()?;
        Ok((FewCopies { rt, left }, seen))
    }
}

impl<R: Threads> Threads for FewCopies<R> {}

impl<R: Wait> Wait for FewCopies<R> {}

impl<R: Clone + Drop> Clone for FewCopies<R> {
    fn clone(&self) -> Result<Self, AllocError> {
        if self.left.load(Ordering::SeqCst) == 0 {
            return Err(AllocError);
        }
        let (rt, left) = (self.rt.clone()?, self.left.clone()?);
        left.fetch_sub(1, Ordering::SeqCst);
        Ok(FewCopies { rt, left })
    }
}

impl<R: Drop> Drop for FewCopies<R> {
    fn drop(self) {
        let Self { rt: _, left } = self;
        left.fetch_add(1, Ordering::SeqCst);
    }
}
