//! Records that several threads put into one list, each at a place of its own, also those of files. All sizes are in bytes. Own.
#![tactic(auto)]

mod batches;
mod collector;
mod feeding;
mod file_places;
mod finishing;
mod gathered;
mod gathering;
pub mod laws;
mod placed;
mod slots;
mod span;

pub use batches::Batches;
pub use collector::{CollectEnd, Collector, Pass, Receipt};
pub use file_places::{places, places_in_turn};
pub use gathered::{Gathered, Numbers};
pub use gathering::{GatherEnd, gather, gather_batches};
pub use span::Span;
