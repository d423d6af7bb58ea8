//! Recovering reading of record files: what a damaged file still gives, and which of its bytes are passed over.
#![tactic(auto)]

mod block_checks;
mod chunk_loads;
mod events;
pub mod laws;
mod pieces;
mod policies;
mod progress;
mod regions;
mod resyncs;
mod walks;

pub use events::{Event, WalkEnd};
pub use pieces::{Found, NextPiece, piece_at};
pub use policies::{Policy, may_skip};
pub use progress::Progress;
pub use regions::{Region, region_line};
pub use resyncs::resync;
pub use walks::Walker;
