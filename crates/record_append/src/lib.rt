//! Records behind those of an old file, and devices, files that are read, cut and grown at their end, as stores and sinks. All
//! sizes and places are in bytes. Own, as a whole.
#![tactic(auto)]

mod appends;
mod as_sink;
mod as_store;
pub mod laws;
mod old_file;
mod sized_sink;

pub use appends::{AppendEnd, Appended, append};
pub use as_sink::AsSink;
pub use as_store::AsStore;
pub use record_io::{Device, FileDevice};
