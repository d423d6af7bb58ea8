ghost use Rattle.std.specs.Prelude.{◌≡◌};
ghost use Rattle.record_group.specs.Groups.{pads_end, pads_start};

/// Where a file of records is padded up to a block. Own.
#[derive(Clone, Copy, Debug, PartialEq, Eq, Default)]
pub enum Pad {
    /// Nowhere.
    #[default]
    No,
    /// Behind the signature, so that the first chunk of records begins at a block.
    Start,
    /// Behind the last chunk, so that the file ends at a block.
    End,
    /// Behind the signature and behind the last chunk.
    Both,
}

impl Pad {
    /// Whether padding is wanted before the chunks of records.
    pub fn pads_start(self) -> bool
        ensures { result ≡ pads_start self }
    {
        matches!(self, Pad::Start | Pad::Both)
    }

    /// Whether padding is wanted behind them.
    pub fn pads_end(self) -> bool
        ensures { result ≡ pads_end self }
    {
        matches!(self, Pad::End | Pad::Both)
    }
}
