//! Reading one file in parts, by threads that each have a store of their own, and the command `ranges`, which prints the
//! records of such a file. Positions, places and sizes are in bytes. Own.
#![tactic(auto)]

mod alone;
mod cut_places;
mod file_parts;
mod file_sizes;
mod keepers;
pub mod laws;
mod meeting;
mod part_lines;
mod printing;
mod range_ends;
pub mod ranges_words;
mod reading;
mod slots;
mod stretches;

pub use cut_places::Cuts;
pub use file_parts::Parts;
pub use printing::ranges;
pub use reading::read_ranges;
