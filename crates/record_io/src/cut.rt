/// What cuts work off: the object that failed, or want of memory. Own.
#[derive(Clone, Copy, Debug, PartialEq, Eq)]
pub enum Cut {
    /// Standard input failed.
    Input,
    /// A file that is read failed.
    File,
    /// The file that is made failed.
    Made,
    /// The file that is grown failed.
    Grown,
    /// Standard output failed.
    Out,
    /// Standard error failed.
    Notes,
    /// There was not enough memory.
    Memory,
}
