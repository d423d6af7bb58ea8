//! `join` and `collect`, which make one file of several: one after another, or of the records that threads read of them; and what
//! they tell of it. Own, as a whole.
#![tactic(auto)]

mod collecting;
mod joining;
pub mod laws;
mod place_lines;
mod refusals;
mod sizes;
mod stops;
mod writing;

pub use collecting::{MOST_COLLECTED, collect_files};
pub use joining::{MOST_JOINED, join_files};
