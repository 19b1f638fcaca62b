//! Several resources, fetched of a view one after the other.
ghost use Rattle.std.specs.Prelude.{◌≡◌, IfOk, [], ◌∷◌};
ghost use Rattle.std.specs.Result.{result_err};
ghost use Rattle.shred_table.specs.Id.{id_of};
ghost use Rattle.shred_world.specs.Views.{view_held};
ghost use Rattle.shred.specs.Passed.{AreShown, first_unfetched, named};

use shred_world::{DataError, Resource, ResourceValue, View};

// Two resources.
pub(crate) fn fetch_2<'v, V: ResourceValue, A: Resource<V>, B: Resource<V>>(
    view: &'v View<V>,
) -> Result<(&'v A, &'v B), DataError>
    ensures refused { result_err result ≡ first_unfetched V.kind_of view.now (id_of A.KIND 0 ∷ id_of B.KIND 0 ∷ []) }
    ensures shown { IfOk result (λ read. AreShown (named A.KIND A.wrapped read.0.now ∷ named B.KIND B.wrapped read.1.now ∷ []) (view_held V.kind_of view.now)) }
{
    let first = view.fetch::<A>()?;
    let second = view.fetch::<B>()?;
    Ok((first, second))
}

// Three resources.
pub(crate) fn fetch_3<'v, V: ResourceValue, A: Resource<V>, B: Resource<V>, C: Resource<V>>(
    view: &'v View<V>,
) -> Result<(&'v A, &'v B, &'v C), DataError>
    ensures refused { result_err result ≡ first_unfetched V.kind_of view.now (id_of A.KIND 0 ∷ id_of B.KIND 0 ∷ id_of C.KIND 0 ∷ []) }
    ensures shown { IfOk result (λ read. AreShown (named A.KIND A.wrapped read.0.now ∷ named B.KIND B.wrapped read.1.now ∷ named C.KIND C.wrapped read.2.now ∷ []) (view_held V.kind_of view.now)) }
{
    let first = view.fetch::<A>()?;
    let second = view.fetch::<B>()?;
    let third = view.fetch::<C>()?;
    Ok((first, second, third))
}

// Four resources.
pub(crate) fn fetch_4<
    'v,
    V: ResourceValue,
    A: Resource<V>,
    B: Resource<V>,
    C: Resource<V>,
    D: Resource<V>,
>(view: &'v View<V>) -> Result<(&'v A, &'v B, &'v C, &'v D), DataError>
    ensures refused { result_err result ≡ first_unfetched V.kind_of view.now (id_of A.KIND 0 ∷ id_of B.KIND 0 ∷ id_of C.KIND 0 ∷ id_of D.KIND 0 ∷ []) }
    ensures shown { IfOk result (λ read. AreShown (named A.KIND A.wrapped read.0.now ∷ named B.KIND B.wrapped read.1.now ∷ named C.KIND C.wrapped read.2.now ∷ named D.KIND D.wrapped read.3.now ∷ []) (view_held V.kind_of view.now)) }
{
    let first = view.fetch::<A>()?;
    let second = view.fetch::<B>()?;
    let third = view.fetch::<C>()?;
    let fourth = view.fetch::<D>()?;
    Ok((first, second, third, fourth))
}
