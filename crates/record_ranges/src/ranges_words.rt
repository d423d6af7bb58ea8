/// The most parts of a file.
pub const MOST_PARTS: usize = 16;

/// What the words of `ranges` say.
#[derive(Clone, Copy, Debug, PartialEq, Eq)]
pub struct RangesWords {
    /// In how many parts the file is read, from 1 to 16.
    pub parts: u32,
    /// The place of the file among the words.
    pub file: usize,
}
