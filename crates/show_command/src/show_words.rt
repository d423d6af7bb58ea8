/// How records are printed.
#[derive(Clone, Copy, Debug, PartialEq, Eq)]
pub struct RecordForm {
    /// Whether each record's position comes before it.
    pub positions: bool,
    /// Whether records are printed in the hexadecimal form.
    pub hex: bool,
}

/// What the words of `show` say.
#[derive(Clone, Copy, Debug, PartialEq, Eq)]
pub struct ShowWords {
    /// How records are printed.
    pub form: RecordForm,
    /// The place of the file among the words.
    pub file: usize,
}
