//! `show` past damage: record files of which what is intact is read. Own, as a whole.
#![tactic(auto)]

pub mod recover_words;
mod recovering;
mod walking;

pub use recovering::recover;
pub use walking::end_walk;
