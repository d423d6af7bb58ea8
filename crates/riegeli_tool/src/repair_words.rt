/// What the words of `repair` say.
#[derive(Clone, Copy)]
pub(crate) struct RepairWords {
    /// The most bytes of a region that is skipped, where they are bounded.
    pub most: Option<u64>,
    /// The place of the damaged file among the words.
    pub from: usize,
    /// The place of the made file.
    pub to: usize,
}
