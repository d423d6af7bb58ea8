//! HighwayHash-64, a keyed hash of bytes, and the key by which Riegeli/records files use it.
#![tactic(auto)]

mod hashed;
mod hasher;
mod key;
mod lanes;
pub mod laws;
mod packed;
mod packet;
mod scalar;
mod state;
mod whole;

pub use hashed::begins_with_hash;
pub use hasher::Hasher;
pub use key::{Key, RIEGELI};
pub use whole::{hash, hash_lanes};
