/// What was counted over a record file.
#[derive(Clone, Copy, Debug, PartialEq, Eq, Default)]
pub struct Totals {
    /// How many chunks there are, with the signature.
    pub chunks: u64,

    /// How many records could be read.
    pub records: u64,

    /// The length of the file in bytes.
    pub bytes: u64,

    /// The compressed and transposed chunks, whose records are not read.
    pub unread: u64,
}
