//! The write engine: a feed of records to the file of them.
#![tactic(auto)]

mod cut_off;
mod engine;
mod feed;
mod group_taker;
pub mod laws;
mod made_file;
mod options;
mod pace;
mod pipeline;
mod records_feed;
mod window;

pub use engine::{WriteEnd, write_after, write_coded, write_records};
pub use feed::{FeedEnd, RecordFeed, Stop};
pub use made_file::MadeFile;
pub use options::WriteOptions;
pub use records_feed::RecordsFeed;
