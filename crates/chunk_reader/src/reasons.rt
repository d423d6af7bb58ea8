ghost use Rattle.std.specs.Prelude.{◌≡◌};
ghost use Rattle.chunk_reader.specs.Names.{name_of};

use record_io::Failed;
use std::alloc::AllocError;

/// Why a chunk is refused or a region of a file is skipped, in the order in which the reasons are judged. Own.
#[derive(Clone, Copy, Debug, PartialEq, Eq)]
pub enum Why {
    /// The file doesn't begin with the 64 bytes that each file begins with.
    NoSignature,
    /// The file ends within the chunk's header.
    Short,
    /// The chunk's header doesn't have its own hash.
    HeaderHash,
    /// The file ends before the chunk does.
    Truncated,
    /// The chunk has more than 2^26 bytes of data.
    TooLarge,
    /// A block within the chunk doesn't have the header that the chunk gives it.
    BlockHeader,
    /// The data doesn't have the hash that the chunk's header says.
    DataHash,
    /// The fields or the data are not those of the chunk's kind.
    Contents,
    /// The records are compressed, and are not read.
    Compressed,
    /// The records are transposed, and are not read.
    Transposed,
    /// The kind has no name.
    UnknownKind,
    /// A block header within the chunk says otherwise than the chunk's header. It comes in skipped regions alone.
    Contradicted,
}

impl Why {
    /// The name of the reason, as messages give it.
    pub fn name(self) -> &'static str
        ensures { result.now ≡ name_of self }
    {
        match self {
            Why::NoSignature => "NoSignature",
            Why::Short => "Short",
            Why::HeaderHash => "HeaderHash",
            Why::Truncated => "Truncated",
            Why::TooLarge => "TooLarge",
            Why::BlockHeader => "BlockHeader",
            Why::DataHash => "DataHash",
            Why::Contents => "Contents",
            Why::Compressed => "Compressed",
            Why::Transposed => "Transposed",
            Why::UnknownKind => "UnknownKind",
            Why::Contradicted => "Contradicted",
        }
    }
}

/// Where strict reading stops, and why. Own.
#[derive(Clone, Copy, Debug, PartialEq, Eq)]
pub struct Fault {
    /// The chunk's begin; of a wrong block header its block.
    pub at: u64,
    /// Why.
    pub why: Why,
}

/// Why a file was not verified. Own.
#[derive(Clone, Copy, Debug, PartialEq, Eq)]
pub enum VerifyEnd {
    /// The file is refused.
    Refused(Fault),
    /// The store failed.
    Store,
}

impl From<Failed> for VerifyEnd {
    ghost use Rattle.std.specs.Prelude.{◌≡◌};
    ghost use Rattle.chunk_reader.specs.declared.reasons.VerifyEnd.TheVariants.{Store};

    ghost from_gives = { λ _ end. end ≡ Store };

    fn from(_failed: Failed) -> VerifyEnd {
        VerifyEnd::Store
    }
}

/// Why a file was not read on. Own.
#[derive(Clone, Copy, Debug, PartialEq, Eq)]
pub enum ReadEnd {
    /// The file is refused.
    Refused(Fault),
    /// The store failed.
    Store,
    /// There was not enough memory.
    Memory,
}

impl From<VerifyEnd> for ReadEnd {
    ghost use Rattle.std.specs.Prelude.{◌≡◌};
    ghost use Rattle.chunk_reader.specs.Ends.{read_end_of};

    ghost from_gives = { λ end read_end. read_end ≡ read_end_of end };

    fn from(end: VerifyEnd) -> ReadEnd {
        match end {
            VerifyEnd::Refused(fault) => ReadEnd::Refused(fault),
            VerifyEnd::Store => ReadEnd::Store,
        }
    }
}

impl From<AllocError> for ReadEnd {
    ghost use Rattle.std.specs.Prelude.{◌≡◌};
    ghost use Rattle.chunk_reader.specs.declared.reasons.ReadEnd.TheVariants.{Memory};

    ghost from_gives = { λ _ end. end ≡ Memory };

    fn from(_: AllocError) -> ReadEnd {
        ReadEnd::Memory
    }
}
