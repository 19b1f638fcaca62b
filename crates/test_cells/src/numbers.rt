//! Numbers of two kinds, to which orders are added, or by which they are multiplied.
ghost use Rattle.std.specs.Prelude.{◌≡◌, MatchOption, MatchResult};
ghost use Rattle.shred_table.specs.declared.id.Kind.{Kind};
ghost use Rattle.test_cells.specs.Numbers.{after_order, kind_of, product_kind, sum_kind};
ghost use Rattle.test_cells.specs.declared.numbers.Number.{Number};
ghost use Rattle.test_cells.specs.declared.numbers.Number.TheVariants.{Product, Sum};

use shred_meta::Common;
use shred_world::{Kind, Resource, ResourceValue};

/// What the worlds hold.
#[derive(Debug, Drop, PartialEq)]
pub enum Number {
    Sum(Sum),
    Product(Product),
}

/// A resource of kind 0, to which orders are added.
#[derive(Clone, Copy, Debug, Default, PartialEq)]
pub struct Sum(pub i64);

/// A resource of kind 1, by which orders are multiplied.
#[derive(Clone, Copy, Debug, Default, PartialEq)]
pub struct Product(pub i64);

impl ResourceValue for Number {
    ghost kind_of = { kind_of };

    fn kind(&self) -> Kind {
        match self {
            Number::Sum(_) => Kind(0),
            Number::Product(_) => Kind(1),
        }
    }
}

impl Common for Number {
    type Order = i64;

    type Reply = i64;

    ghost acts = { λ before order reply after. after ≡ after_order before order };

    // Replies with the number as it is then.
    fn act(&mut self, order: i64) -> i64 {
        match self {
            Number::Sum(sum) => {
                sum.0 = sum.0.wrapping_add(order);
                sum.0
            }
            Number::Product(product) => {
                product.0 = product.0.wrapping_mul(order);
                product.0
            }
        }
    }
}

impl Resource<Number> for Sum {
    ghost KIND = { sum_kind };

    const KIND: Kind = Kind(0);

    ghost wrapped = { λ s. Sum s };

    fn wrap(self) -> Number {
        Number::Sum(self)
    }

    fn unwrap(value: Number) -> Result<Self, Number> {
        match value {
            Number::Sum(sum) => Ok(sum),
            other => Err(other),
        }
    }

    fn view(value: &Number) -> Option<&Self> {
        match value {
            Number::Sum(sum) => Some(sum),
            _ => None,
        }
    }

    fn view_mut(value: &mut Number) -> Option<&mut Self> {
        match value {
            Number::Sum(sum) => Some(sum),
            _ => None,
        }
    }

    ghost use Rattle.std.proofs.Common.{refl};

    ghost wrapped_kind = { λ r. refl };

    ghost wrapped_once = { λ r s e. Prim.cc };
}

impl Resource<Number> for Product {
    ghost KIND = { product_kind };

    const KIND: Kind = Kind(1);

    ghost wrapped = { λ p. Product p };

    fn wrap(self) -> Number {
        Number::Product(self)
    }

    fn unwrap(value: Number) -> Result<Self, Number> {
        match value {
            Number::Product(product) => Ok(product),
            other => Err(other),
        }
    }

    fn view(value: &Number) -> Option<&Self> {
        match value {
            Number::Product(product) => Some(product),
            _ => None,
        }
    }

    fn view_mut(value: &mut Number) -> Option<&mut Self> {
        match value {
            Number::Product(product) => Some(product),
            _ => None,
        }
    }

    ghost use Rattle.std.proofs.Common.{refl};

    ghost wrapped_kind = { λ r. refl };

    ghost wrapped_once = { λ r s e. Prim.cc };
}
