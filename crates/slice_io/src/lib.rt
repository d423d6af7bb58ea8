//! Memory that a caller lends: bytes as a store, and room as a sink.
#![tactic(auto)]

mod slice_sink;
mod slice_store;
mod void_sink;

pub use slice_sink::SliceSink;
pub use slice_store::SliceStore;
pub use void_sink::VoidSink;
