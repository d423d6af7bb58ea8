//! The outside of the project: where bytes come from and go to, and what a failure of it means. All sizes and
//! counts are in bytes or calls. Own, as a whole.
#![tactic(auto)]

mod cut;
mod file_sink;
mod named_file;
mod outside;
mod put_buffer;
pub mod std_calls;
mod streams;

pub use cut::Cut;
pub use file_sink::FileSink;
pub use named_file::{FileDevice, FileStore, NamedFile, Opening, ReadAppend, ReadOnly};
pub use outside::{Device, Failed, Sink, Source, Store, counted, fault, get_exact, put_all};
pub use put_buffer::PutBuffer;
pub use record_values::{Bytes, Totals};
pub use streams::{StdErr, StdInput, StdOut};
