//! Worlds of values of one type.
ghost use Rattle.std.specs.Prelude.{◌≡◌};
ghost use Rattle.shred_table.specs.Id.{id_of};
ghost use Rattle.shred_table.specs.Only.{only_kind};

use crate::id::{Kind, ResourceId};
use crate::resource::{Resource, ResourceValue};

/// The value of a world whose resources are all of the type `T`, which are told apart by their number.
#[derive(Debug, Drop)]
pub struct Only<T>(pub T);

/// The id of this number in a world of one type of value.
pub fn only_id(number: u64) -> ResourceId
    ensures { result ≡ id_of only_kind number }
{
    ResourceId::from_type_id_and_dynamic_id(Kind(0), number)
}

impl<T> ResourceValue for Only<T> {
    ghost kind_of = { λ value. only_kind };

    fn kind(&self) -> Kind {
        Kind(0)
    }
}

impl<T> Resource<Only<T>> for T {
    ghost KIND = { only_kind };

    const KIND: Kind = Kind(0);

    ghost wrapped = { λ resource. record { 0 = resource } };

    fn wrap(self) -> Only<T> {
        Only(self)
    }

    fn unwrap(value: Only<T>) -> Result<T, Only<T>> {
        Ok(value.0)
    }

    fn view(value: &Only<T>) -> Option<&T> {
        Some(&value.0)
    }

    fn view_mut(value: &mut Only<T>) -> Option<&mut T> {
        Some(&mut value.0)
    }

    ghost use Rattle.std.proofs.Common.{ap, refl};

    ghost wrapped_kind = { λ r. refl };

    ghost wrapped_once = { λ r s e. ap (λ value. value.0) e };
}
