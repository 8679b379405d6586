// Catalogues and plans at random, and damage to them, for the programs that put many to the library.

#![tactic(auto)]

mod buffer;
mod catalogue;
mod damage;
mod plan;
mod random;

pub use buffer::Buffer;
pub use catalogue::{Catalogue, random_catalogue};
pub use damage::{area_size, catalogue_size, harm, harm_bytes, harm_size, plan_size};
pub use plan::{Plan, random_plan};
pub use random::Random;
