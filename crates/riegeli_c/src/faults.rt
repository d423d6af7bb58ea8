ghost use Rattle.std.specs.Prelude.{◌≡◌};
ghost use Rattle.riegeli_c.specs.Reasons.{reason_number};

use chunk_reader::{Fault, Why};

/// Where reading stops, and why.
#[repr(C)]
#[derive(Clone, Copy, Debug, Drop)]
pub struct FaultAt {
    /// The chunk's begin; of a wrong block header its block.
    pub place: u64,
    /// The number of the reason, from 1 on.
    pub why: u32,
}

impl FaultAt {
    /// This fault.
    pub(crate) fn of(fault: &Fault) -> FaultAt
        ensures place { result.place ≡ fault.now.at }
        ensures why { result.why ≡ reason_number fault.now.why }
    {
        FaultAt {
            place: fault.at,
            why: reason_number(fault.why),
        }
    }
}

/// The number of a reason, in the order in which reasons are judged.
pub(crate) fn reason_number(why: Why) -> u32
    ensures { result ≡ reason_number why }
{
    match why {
        Why::NoSignature => 1,
        Why::Short => 2,
        Why::HeaderHash => 3,
        Why::Truncated => 4,
        Why::TooLarge => 5,
        Why::BlockHeader => 6,
        Why::DataHash => 7,
        Why::Contents => 8,
        Why::Compressed => 9,
        Why::Transposed => 10,
        Why::UnknownKind => 11,
        Why::Contradicted => 12,
    }
}
