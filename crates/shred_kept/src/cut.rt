//! The last items of a list, in a list of their own.
ghost use Rattle.std.specs.Prelude.{◌≡◌, ◌+◌, ◌≤◌, ◌++◌, OnOk, OnErr, [], vec_capacity, vec_len};

use std::alloc::AllocError;

/// Moves the last items into an empty list, in their order. Where memory is refused, all stay.
pub(crate) fn cut_off<T: Drop>(
    items: &mut Vec<T>,
    count: usize,
    to: &mut Vec<T>,
) -> Result<(), AllocError>
    requires count { count ≤ vec_len items.old }
    requires empty { to.old.items ≡ [] }
    ensures cut { OnOk result (items.old.items ≡ items.new.items ++ to.new.items) }
    ensures stay { OnErr result (items.new ≡ items.old) }
    ensures room { vec_capacity items.new ≡ vec_capacity items.old }
{
    to.reserve(count)?;
    for _ in 0..count {
        let Some(item) = items.pop() else {
            unreachable!()
        };
        to.push_reserved(item);
    }
    to.reverse();
    Ok(())
}

/// Puts them back at the end, and leaves the other list empty.
pub(crate) fn put_back<T: Drop>(items: &mut Vec<T>, back: &mut Vec<T>)
    requires { vec_len items.old + vec_len back.old ≤ vec_capacity items.old }
    ensures items { items.new.items ≡ items.old.items ++ back.old.items }
    ensures room { vec_capacity items.old ≤ vec_capacity items.new }
{
    let Ok(()) = items.append(back) else {
        unreachable!()
    };
}
