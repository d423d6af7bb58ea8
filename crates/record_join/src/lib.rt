//! Files laid one after another, so that they are one file. All sizes and places are in bytes. Own.
#![tactic(auto)]

mod copies;
mod joins;
pub mod laws;

pub use joins::{JoinEnd, join};
