use record_group::Pad;

/// How records are written. Own.
#[derive(Clone, Copy, Debug, PartialEq, Eq)]
pub struct WriteOptions {
    /// What a group of two or more records may cost at most: each record its bytes and 8 more. From 1 to 2^24.
    pub size: u64,
    /// How many workers encode chunks, each in a thread of its own, from 1 to 16.
    pub workers: u32,
    /// How many records a group has at most, from 1 to 2^24, where that is limited.
    pub every: Option<u64>,
    /// Where the file is padded up to a block.
    pub pad: Pad,
}
