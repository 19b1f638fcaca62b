//! Rules of the caller's own.
ghost use Rattle.std.specs.Prelude.{◌≡◌, IfNone, IfSome};
ghost use Rattle.shredstore.specs.Meaning.{Meaning};

/// What is done in each tick to the value that an entity has in one table, beside the one that it has in another, or in the same.
/// An entity without a value in one of the two is passed over. Where the rule is refused for an entity it changes nothing, and
/// the least such entity is told. All rules of a store are of one type: an enum, where they are of several kinds.
pub trait TableRule: Copy {
    ghost meaning: { Self → Meaning };

    /// The number of the table whose values are changed.
    fn writes(&self) -> u64
        ensures { result ≡ (meaning self.now).written };

    /// The number of the table whose values are read.
    fn reads(&self) -> u64
        ensures { result ≡ (meaning self.now).read };

    /// What becomes of an entity's value, beside its value in the table that is read; `None` where the rule is refused for the two.
    /// A tick asks twice for each entity.
    fn make(&self, value: i64, beside: i64) -> Option<i64>
        ensures made { IfSome result (λ new. new ≡ (meaning self.now).made value beside) }
        ensures taken { IfSome result (λ new. (meaning self.now).refused value beside → ⊥) }
        ensures refused { IfNone result ((meaning self.now).refused value beside) };
}
