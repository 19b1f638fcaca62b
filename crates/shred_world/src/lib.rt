//! Resources, the world that holds them, and the views through which systems reach them.
#![tactic(auto)]

pub mod parting;
pub mod values;
pub mod world;

pub use shred_table::{
    Accessor, BatchAccessor, Kind, Only, OutOfMemory, Resource, ResourceId, ResourceValue, Slot,
    Steps, Table, accessor, check_intersection, id, only, only_id, resource, table, util,
};
pub use world::bundle::{SystemData, bundle_accessor};
pub use world::dynamic::DynamicSystemData;
pub use world::each::ViewWork;
pub use world::entry::Entry;
pub use world::fetch::{Fetch, FetchMut};
pub use world::lent::Lent;
pub use world::local::LocalWorld;
pub use world::local_lent::LocalLent;
pub use world::parted::Parts;
pub use world::parts::Behind;
pub use world::read::{Read, ReadExpect};
pub use world::setup::{DefaultProvider, PanicHandler, SetupHandler};
pub use world::types::ResourceTypes;
pub use world::view::{DataError, Shelf, View};
pub use world::write::{Write, WriteExpect};
pub use world::{ReplaceError, Resources, World, WorldError};
