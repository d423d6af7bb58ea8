pub use crate::key::SearchKey;

/// What `seek` looks for.
#[derive(Debug, Drop)]
pub enum By<'a> {
    /// The first record at or past a position.
    At(u64),
    /// A record that isn't less than a key, behind one that is.
    Key(SearchKey<'a>),
}

/// What the words of `seek` say.
#[derive(Debug, Drop)]
pub struct SeekWords<'a> {
    /// What is looked for.
    pub by: By<'a>,
    /// Whether the record is printed in the hexadecimal form.
    pub hex: bool,
    /// The place of the file among the words.
    pub file: usize,
}
