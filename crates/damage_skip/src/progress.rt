ghost use Rattle.std.specs.Prelude.{◌<◌, ◌≤◌};
ghost use Rattle.block_layout.specs.NextPlaces.{IsOnBoundary};

use crate::regions::Region;

/// How far a file was walked. Own.
#[derive(Clone, Copy, Debug)]
pub struct Progress {
    /// How many bytes the file has.
    pub size: u64,
    /// Whether compressed and transposed chunks are kept.
    pub unread_ok: bool,
    /// Whether records are decoded, or simple chunks only judged and kept.
    pub decodes: bool,
    /// Where the next piece of the file begins: a boundary, or the file's end.
    pub place: u64,
    /// The region that the walk has stopped at.
    pub stopped: Option<Region>,
    pub ghost within: { place ≤ size },
    pub ghost boundary: { place < size → IsOnBoundary place },
}
