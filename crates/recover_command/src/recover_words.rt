use show_command::show_words::ShowWords;

/// What the words of `show` say where it goes on past damage.
#[derive(Clone, Copy, Debug, PartialEq, Eq)]
pub struct RecoverWords {
    /// How records are shown, and of which file.
    pub show: ShowWords,
    /// The most bytes of a region that is skipped, where they are bounded.
    pub most: Option<u64>,
}
