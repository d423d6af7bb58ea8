//! A damaged file copied without what damage took: its intact chunks, laid anew one after another. What was copied is put in
//! its order, also where the work is cut off.
#![tactic(auto)]

mod copying;
pub mod laws;
mod repairs;

pub use repairs::{RepairEnd, Repaired, repair};
