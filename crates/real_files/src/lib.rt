//! What the program adds to real files: stores and devices that read ahead, and files that are used only where they are none of
//! some others. All sizes and places are in bytes. Own, as a whole.
#![tactic(auto)]

mod ahead;
mod apart;
mod apart_file;
mod apart_notes;
mod apart_sink;
mod held_part;
mod streams;

pub use ahead::{ReadAhead, ReadAheadBy};
pub use apart::is_one_of;
pub use apart_file::{ApartDevice, ApartFile, ApartStore};
pub use apart_notes::ApartNotes;
pub use apart_sink::ApartSink;
pub use streams::{Behind, FileId, file_at};
