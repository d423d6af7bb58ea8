//! `show` and `verify`: record files that are read strictly. Own, as a whole.
#![tactic(auto)]

mod fault_lines;
mod plain_lines;
mod reading;
mod record_lines;
pub mod show_words;
mod showing;
mod verifying;

pub use fault_lines::{end_with_fault, end_with_file_fault};
pub use record_lines::{LINES, put_record, put_records};
pub use showing::show;
pub use verifying::verify;
