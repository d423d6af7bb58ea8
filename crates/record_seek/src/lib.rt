//! Finding records of a file: by their position, and by a key. Of records in order the first is found that doesn't stand before
//! the key, and of others one that stands right behind one that does.
#![tactic(auto)]

mod chunk_records;
mod finds;
mod holders;
mod key_tests;
pub mod laws;
mod passes;
mod seeks;

pub use chunk_records::Found;
pub use finds::find;
pub use holders::{HolderEnd, holder};
pub use key_tests::KeyTest;
pub use seeks::seek;
