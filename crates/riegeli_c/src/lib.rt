//! The calls for C. Each is a function of its arguments: the caller owns all memory that it hands
//! over, nothing of it is kept, and calls may run side by side. A call answers a status: 0 done, 1
//! a fault or a region of the file, 2 a bad argument, 3 no memory, 4 too little room, 5 nothing
//! found. Bytes are told for at most 2^60 of them.
#![tactic(auto)]

mod faults;
pub mod laws;
mod laying;
mod reading;
mod recovering;
mod repairing;
mod seeking;
mod splitting;
mod versions;
mod writing;

pub use faults::FaultAt;
pub use reading::{ChunkTold, FileTotals, riegeli_read_chunk, riegeli_verify};
pub use recovering::{PieceTold, riegeli_recover};
pub use repairing::{RegionTold, RepairTold, riegeli_repair};
pub use seeking::{FoundAt, riegeli_find, riegeli_seek};
pub use splitting::riegeli_split;
pub use versions::{riegeli_hash, riegeli_version};
pub use writing::{OptionsTold, WrittenTold, riegeli_write};
