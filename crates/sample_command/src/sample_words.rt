use record_writer::WriteOptions;

/// The most records of a sample.
pub const MOST_RECORDS: u64 = 1_000_000;

/// What the words of `sample` say.
#[derive(Clone, Copy, Debug, PartialEq, Eq)]
pub struct SampleWords {
    /// How the records are written.
    pub options: WriteOptions,
    /// The seed of the records.
    pub seed: u64,
    /// How many records there are, 1,000,000 at most.
    pub count: u64,
    /// The place of the made file among the words.
    pub file: usize,
}
