//! The values that all layers hand on: bytes, and what is counted over a file. Own, as a whole.
#![tactic(auto)]

mod byte_list;
mod file_totals;

pub use byte_list::Bytes;
pub use file_totals::Totals;
