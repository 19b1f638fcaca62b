//! Small helpers over lists.
ghost use Rattle.std.specs.Prelude.{◌≡◌, ◌↔◌, ◌&&◌, IsTrue, true, Contains};
ghost use Rattle.std.specs.List.{list_any};

/// Whether the two lists share an item.
pub fn check_intersection<T: PartialEq>(first: &[T], second: &[T]) -> bool
    ensures { result ≡ list_any (λ x. list_any (λ y. T.eq y x) second.now) first.now }
{
    first.iter().any(|x| second.contains(x))
}
