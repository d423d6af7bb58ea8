ghost use Rattle.std.specs.Prelude.{◌≡◌, ◌≢◌, ◌≤◌, ℕ, List, length};
ghost use Rattle.chunk_header.specs.Kinds.{simple_kind};
ghost use Rattle.chunk_header.specs.Views.{value_of};
ghost use Rattle.chunk_header.specs.declared.Header.{Header};
ghost use Rattle.highway_hash.specs.Riegeli.{riegeli_hash};
ghost use Rattle.simple_chunk.specs.Checkers.{HasChecked};
ghost use Rattle.meta_chunk.specs.Files.{max_data_size};
ghost use Rattle.chunk_reader.specs.BlockJudges.{IsUnfed};
ghost use Rattle.chunk_reader.specs.Pieces.{HasTaken, HasLeft, TellsUnread};

use crate::feeding::TakesData;
use crate::reasons::Why;
use chunk_header::Header;
use highway_hash::{Hasher, RIEGELI};
use meta_chunk::{BadFields, Kind, check, kind_of};
use simple_chunk::{Checker, SimpleFault};

/// Judges the content of a chunk whose data comes in pieces, of which none is held. Compressed and transposed chunks are left
/// unread.
#[derive(Drop)]
pub(crate) struct PieceJudge {
    header: Header,
    hasher: Hasher,
    /// Of a simple chunk.
    checker: Option<Checker>,
}

impl PieceJudge {
    /// A judge that has taken no data yet of the chunk of this header.
    pub(crate) fn new(header: &Header) -> PieceJudge
        ensures header { result.header ≡ header.now }
        ensures unfed { IsUnfed (HasTaken result) (HasLeft result) header.now.data_size }
    {
        PieceJudge {
            header: *header,
            hasher: Hasher::new(RIEGELI),
            checker: match kind_of(header.kind) {
                Kind::Simple => Some(Checker::new(header)),
                _ => None,
            },
        }
    }

    /// Whether the chunk is left unread, once all of its data was taken, or the first reason by which its content is refused.
    pub(crate) fn finish(self) -> Result<bool, Why>
        requires small { self.header.data_size ≤ max_data_size }
        requires whole { HasLeft self 0 }
        ensures { (bytes : List ℕ) → HasTaken self bytes → length bytes ≡ self.header.data_size
            → TellsUnread self.header.data_hash (value_of self.header bytes) result }
    {
        let PieceJudge {
            header,
            hasher,
            checker,
        } = self;
        if hasher.finish() != header.data_hash {
            return Err(Why::DataHash);
        }
        match checker {
            Some(checker) => simple_unread(checker),
            None => other_unread(&header),
        }
    }
}

impl TakesData for PieceJudge {
    ghost use Rattle.chunk_reader.specs.BlockJudges.{IsUnfed};
    ghost use Rattle.chunk_reader.specs.Pieces.{HasTaken, HasLeft};

    ghost header = { λ judge. judge.header };

    ghost has_taken = { HasTaken };

    ghost has_left = { HasLeft };

    fn feed(&mut self, piece: &[u8]) {
        self.hasher.update(piece);
        if let Some(checker) = &mut self.checker {
            checker.feed(piece);
        }
    }
}

/// Whether a simple chunk is left unread whose data has the right hash and was taken by the checker.
fn simple_unread(checker: Checker) -> Result<bool, Why>
    requires { checker.left ≡ 0 }
    ensures { (header : Header) (bytes : List ℕ) → HasChecked checker header bytes
        → header.kind ≡ simple_kind → length bytes ≤ max_data_size → riegeli_hash bytes ≡ header.data_hash
        → TellsUnread header.data_hash (value_of header bytes) result }
{
    match checker.finish() {
        Ok(()) => Ok(false),
        Err(SimpleFault::Compressed) => Ok(true),
        Err(SimpleFault::Contents) => Err(Why::Contents),
        Err(SimpleFault::Memory) => unreachable!(),
    }
}

/// Whether a chunk of another kind is left unread whose data has the right hash.
fn other_unread(header: &Header) -> Result<bool, Why>
    requires { header.now.data_size ≤ max_data_size }
    ensures { (bytes : List ℕ) → header.now.kind ≢ simple_kind → length bytes ≡ header.now.data_size
        → riegeli_hash bytes ≡ header.now.data_hash
        → TellsUnread header.now.data_hash (value_of header.now bytes) result }
{
    match kind_of(header.kind) {
        Kind::Transposed => Ok(true),
        Kind::Unknown(_) => Err(Why::UnknownKind),
        Kind::Signature | Kind::Metadata | Kind::Padding | Kind::Simple => match check(header) {
            Ok(()) => Ok(false),
            Err(BadFields) => Err(Why::Contents),
        },
    }
}
