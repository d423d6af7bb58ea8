//! Strict reading of record files: the chunk at a place, whether it is well formed, and why it is not.
#![tactic(auto)]

mod block_headers;
mod block_judges;
mod chunk_content;
mod content_judge;
mod feeding;
mod file_reader;
mod hashed_data;
mod heads;
mod judging;
pub mod laws;
mod passed_heads;
mod piece_judge;
mod progress;
mod reasons;
mod usable_bytes;
mod verifying;

pub use block_headers::sane_header_at;
pub use block_judges::{BlockEnd, JudgesBlocks, judge_blocks};
pub use chunk_content::{Content, ContentEnd};
pub use content_judge::{content, content_under};
pub use feeding::{TakesData, read_data};
pub use file_reader::{ChunkAhead, Reader};
pub use hashed_data::HashedData;
pub use heads::{Head, head_at};
pub use judging::{Judged, LoadEnd, MAX_DATA_SIZE, What, data_at, strict_at};
pub use passed_heads::passed_head_at;
pub use reasons::{Fault, ReadEnd, VerifyEnd, Why};
pub use usable_bytes::UsableBytes;
pub use verifying::{Front, verify, verify_front};
