ghost use Rattle.std.specs.Prelude.{OnOk, OnErr};
ghost use Rattle.meta_chunk.specs.KindViews.{HeaderKeepsRule};

use chunk_header::{Header, Kind, kind_of};

/// A header breaks the rule that its kind has on its fields. Own.
#[derive(Clone, Copy, Debug, PartialEq, Eq)]
pub struct BadFields;

/// Checks the rule that the header's kind has on its fields: a signature has no data, records or decoded size,
/// metadata has no records, and padding has no records or decoded size. Other kinds have no rule.
///
/// Riegeli/records file format specification, "Chunk types". Own: the rules in their details.
pub fn check(header: &Header) -> Result<(), BadFields>
    ensures kept { OnOk result (HeaderKeepsRule header.now) }
    ensures broken { OnErr result (¬ HeaderKeepsRule header.now) }
{
    let kept = match kind_of(header.kind) {
        Kind::Signature => header.data_size == 0
            && header.num_records == 0
            && header.decoded_size == 0,
        Kind::Metadata => header.num_records == 0,
        Kind::Padding => header.num_records == 0 && header.decoded_size == 0,
        Kind::Simple | Kind::Transposed | Kind::Unknown(_) => true,
    };
    if kept { Ok(()) } else { Err(BadFields) }
}
