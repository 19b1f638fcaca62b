//! The answer of two calls.
ghost use Rattle.std.specs.Prelude.{◌≡◌};
ghost use Rattle.shred_model.specs.Runs.{first_fault};

/// The first answer that is not Done.
pub fn first<E: Drop>(a: Result<(), E>, b: Result<(), E>) -> Result<(), E>
    ensures { result ≡ first_fault a b }
{
    a.and(b)
}
