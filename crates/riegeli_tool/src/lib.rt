//! `run`, which does what words of a command line say over the source, stores, sinks and device that are handed in.
#![tactic(auto)]

mod append;
mod append_words;
mod command;
mod command_words;
pub mod laws;
mod options;
mod program;
mod repair;
mod repair_words;
mod words;

pub use command::Names;
pub use command_frame::Status;
pub use program::run;
pub use sample_command::SampleFeed;
pub use words::names;
pub use write_command::LineFeed;
