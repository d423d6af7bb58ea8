//! Files of chunks: where each is laid, with the block headers that interrupt it, the kinds of chunks, the
//! signature that a file begins with, and padding up to a block.
#![tactic(auto)]

mod file_signature;
mod kind_rules;
pub mod laws;
mod padding_chunk;

pub use chunk_header::{Kind, kind_of};
pub use file_signature::SIGNATURE;
pub use kind_rules::{BadFields, check};
pub use padding_chunk::padding_size;
