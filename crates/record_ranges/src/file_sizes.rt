ghost use Rattle.std.specs.Prelude.{◌≡◌, ◌<◌, not, ◌==◌, length};
ghost use Rattle.std.specs.List.{find};
ghost use Rattle.record_ranges.specs.RangesEnds.{IsSizeBy};

use command_frame::is_one_past;

/// The most bytes of a file that is read in parts: 256 MiB. All its records are held at once.
const MOST_BYTES: u64 = 1 << 28;

/// Why a file is not read by the sizes that its stores told.
#[derive(Clone, Copy, Debug, PartialEq, Eq)]
pub(crate) enum SizesEnd {
    /// One of them told more bytes than are read.
    Limit,
    /// They told different sizes: the first one, and the first that is another.
    Differ { first: u64, other: u64 },
}

/// The size that stores told, where none told more bytes than are read, nor another size than the first.
pub(crate) fn size_by(sizes: &[u64]) -> Result<u64, SizesEnd>
    requires some { 0 < length sizes.now }
    ensures { IsSizeBy result sizes.now }
{
    if is_one_past(sizes, MOST_BYTES) {
        return Err(SizesEnd::Limit);
    }
    let first = sizes[0];
    match first_other(first, sizes) {
        Some(other) => Err(SizesEnd::Differ { first, other }),
        None => Ok(first),
    }
}

/// The first of the sizes that is another than this one.
fn first_other(first: u64, sizes: &[u64]) -> Option<u64>
    ensures { result ≡ find (λ size. not (size == first)) sizes.now }
{
    sizes.iter().copied().find(|size| *size != first)
}
