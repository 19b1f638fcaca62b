//! The declarations of a plan's entries.
ghost use Rattle.std.specs.Prelude.{◌≡◌, ◌<◌, ◌++◌, [], ◌∷◌, All, OnErr, OnOk, vec_len};
ghost use Rattle.plan_engine.specs.Entries.{NameEarlier};

use crate::declaration::Declaration;
use std::alloc::{AllocError, Global};

/// The declarations of a plan's entries, in order of addition. Each names only earlier ones as its dependencies.
#[derive(Drop)]
pub struct Declarations {
    pub entries: Vec<Declaration>,
    ghost earlier: { NameEarlier entries.items },
}

impl Declarations {
    /// Those of an empty plan.
    pub fn new(alloc: Global) -> Declarations
        ensures { result.entries.items ≡ [] }
    {
        Declarations {
            entries: Vec::new(alloc),
        }
    }

    /// Adds that of the next entry.
    pub fn add(&mut self, declaration: Declaration) -> Result<(), AllocError>
        requires { All (λ place. place < vec_len self.old.entries) declaration.dependencies.items }
        ensures added { OnOk result (self.new.entries.items ≡ self.old.entries.items ++ declaration ∷ []) }
        ensures unchanged { OnErr result (self.new.entries.items ≡ self.old.entries.items) }
    {
        self.entries.push(declaration)?;
        Ok(())
    }
}
