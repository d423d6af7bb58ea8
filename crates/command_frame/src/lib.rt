//! What every command stands on: the words of a command line, how a run ends, and what it says. Own, as a whole.
#![tactic(auto)]

mod ending;
mod many_files;
mod notes;
mod numbers;
mod options;
mod reports;
mod sizes;
mod status;

pub use ending::{Ending, unprinted};
pub use many_files::{FilesWords, files_words};
pub use notes::{LINE, cut_off, end, end_too_long, end_with_number};
pub use options::{
    are_words_of, file_place, has_flag, is_same_at, number_given, two_files, value_given,
};
pub use record_io::Cut;
pub use reports::{put_counts, put_report};
pub use sizes::{MOST_FILE_BYTES, SizeEnd, ask_sizes, is_one_past, size_of};
pub use status::Status;

/// The chunk size where none is named.
pub const DEFAULT_CHUNK_SIZE: u64 = 1 << 20;
