//! Chunks laid one after another in a file, with the block headers between them, and put in order before. The headings
//! that items name are those of the Riegeli/records file format specification; "Own." stands where this project decided.
#![tactic(auto)]

pub mod laws;
mod laying;
mod reorder;
mod writer;

pub use reorder::Reorder;
pub use writer::{OrderedWriter, padded};
