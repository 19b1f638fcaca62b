//! A system that refuses nothing, as one that may refuse.

/// A system that is passed what it names and refuses nothing, as one of those whose name begins with `Try`.
#[derive(Drop)]
pub struct NeverRefuses<T>(pub T);
