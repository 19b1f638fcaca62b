//! A value that is taken out of its place for a call and put back, while another one is lent to the call.
ghost use Rattle.std.specs.Prelude.{◌≡◌};
ghost use Rattle.shred_trees.specs.Places.{AcceptsBeside, CallsBeside};

use core::mem::replace_with;

// What was lent comes back by itself: beside a result of any type its lender would not be told what it ends as.
#[derive(Drop)]
struct Back<'b, W> {
    beside: &'b mut W,
}

fn replace_lending<'b, T, W, R: Drop, F: FnOnce(T, &mut W) -> (T, R)>(
    place: &mut T,
    beside: &'b mut W,
    out: &mut R,
    call: F,
) -> Back<'b, W>
    requires { AcceptsBeside (F.pre call) place.old beside.old }
    ensures name { result.beside.ghost_name ≡ beside.entry.ghost_name }
    ensures called { CallsBeside (F.post call) place.old beside.old (place.new, out.new) result.beside.now }
{
    let (beside, result) = replace_with(
        place,
        beside,
        |value, beside| -> (T, (&mut W, R))
            requires { AcceptsBeside (F.pre call) value beside.old }
            ensures { (result.1.0.ghost_name ≡ beside.entry.ghost_name) × CallsBeside (F.post call) value beside.old (result.0, result.1.1) result.1.0.now }
        {
            let (value, result) = call(value, &mut *beside);
            (value, (beside, result))
        },
    );
    *out = result;
    Back { beside }
}

/// Takes the value out of its place for the call, to which the other one is lent, and puts what it gives back into the
/// place, and its result into `out`.
pub(crate) fn replace_beside<T, W, R: Drop, F: FnOnce(T, &mut W) -> (T, R)>(
    place: &mut T,
    beside: &mut W,
    out: &mut R,
    call: F,
)
    requires { AcceptsBeside (F.pre call) place.old beside.old }
    ensures { CallsBeside (F.post call) place.old beside.old (place.new, out.new) beside.new }
{
    replace_lending(place, beside, out, call);
}
