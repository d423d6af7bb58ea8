use crate::reasons::Why;
use simple_chunk::Records;

/// What a chunk holds. Own.
#[derive(Debug, Drop)]
pub enum Content {
    /// Nothing: the chunk that a file begins with.
    Signature,
    /// A description of the file, which is not read.
    Metadata,
    /// Nothing: the chunk takes up room.
    Padding,
    /// The records of a simple chunk.
    Records(Records),
}

/// Why a chunk's content was not read. Own.
#[derive(Clone, Copy, Debug, PartialEq, Eq)]
pub enum ContentEnd {
    /// It is refused, or left unread.
    Fault(Why),
    /// There was no memory for the records.
    Memory,
}
