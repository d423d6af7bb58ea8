//! `write`: lines as records. Own, as a whole.
#![tactic(auto)]

mod held_input;
mod line_ends;
mod line_feed;
mod marks;
pub mod write_words;
mod writing;

pub use line_feed::LineFeed;
pub use writing::{MOST_INPUT, end_with_stop, write};
