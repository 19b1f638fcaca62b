//! Values of worlds whose resources are of two, three or four types.

mod by_type;
pub mod four;
pub mod places;
pub mod three;
pub mod two;

pub use four::OneOf4;
pub use places::{First, Fourth, Second, Third, first_id, fourth_id, second_id, third_id};
pub use three::OneOf3;
pub use two::OneOf2;
