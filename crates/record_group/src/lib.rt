//! How records are grouped into chunks, and the file of records.
#![tactic(auto)]

mod closing;
mod group_buffer;
mod grouper;
pub mod laws;
mod pad;

pub use group_buffer::GroupBuffer;
pub use grouper::Grouper;
pub use pad::Pad;
