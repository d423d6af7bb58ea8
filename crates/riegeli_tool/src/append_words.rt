use write_command::write_words::WriteWords;

/// What the words of `append` say.
#[derive(Clone, Copy)]
pub(crate) struct AppendWords {
    /// How records are written, with the place of the grown file among the words.
    pub write: WriteWords,
    /// Whether more is cut off behind the last whole chunk than a chunk that the file ends within.
    pub cut: bool,
}
