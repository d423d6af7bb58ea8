//! Lists of records, and the simple chunks without compression that hold them, as the Riegeli/records file
//! format specification has them under "Simple chunk with records". Sizes are in bytes. "Own." stands where this
//! project decided.
#![tactic(auto)]

mod checker;
mod decoding;
mod encoding;
mod record_groups;
mod record_list;
mod records_ref;
mod simple_parts;
mod sizes_left;

pub use checker::Checker;
pub use decoding::{SimpleFault, decode, decode_chunk};
pub use encoding::{append_front, encode};
pub use record_groups::RecordGroups;
pub use record_list::{RECORD_COST, Records};
pub use records_ref::RecordsRef;
pub use simple_parts::SimpleChunk;
