use record_writer::WriteOptions;

/// What the words of `write` say, or of another command that reads lines.
#[derive(Clone, Copy, Debug, PartialEq, Eq)]
pub struct WriteWords {
    /// How records are written.
    pub options: WriteOptions,
    /// Whether lines are in the hexadecimal form.
    pub hex: bool,
    /// The place of the file among the words that the records go to.
    pub file: usize,
}
