//! Numbers that workers draw, each once, and the coded chunks of the runs of groups that have these numbers.
#![tactic(auto)]

mod coded_chunks;
mod coded_runs;
mod coder;
mod draws;
pub mod laws;
mod places;
mod window;
mod workers;

pub use coded_chunks::{CodedChunks, CodedHead};
pub use coded_runs::{CodedRuns, run_count};
pub use coder::{Coder, SimpleCoder};
pub use draws::{DrawSeat, Draws};
pub use places::{RunPlace, append_places};
pub use window::encode_window;
pub use workers::{Worker, seat_workers};
