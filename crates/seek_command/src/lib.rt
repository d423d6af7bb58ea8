//! `seek`: the record of a file that is found by its position or by a key. Own, as a whole.
#![tactic(auto)]

mod key;
mod searching;
pub mod seek_words;
mod seeking;

pub use searching::find_by_key;
pub use seeking::show_found;
