//! `sample`: a large file of records that a number tells. Own, as a whole.
#![tactic(auto)]

mod generator;
mod sample_feed;
pub mod sample_words;
mod sampling;

pub use sample_feed::SampleFeed;
pub use sampling::sample;
