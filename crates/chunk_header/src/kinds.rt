ghost use Rattle.std.specs.Prelude.{◌≡◌};
ghost use Rattle.chunk_header.specs.Kinds.{IsOfNoName};
ghost use Rattle.chunk_header.specs.Views.{byte_of_kind};

/// The kind of a chunk.
///
/// Riegeli/records file format specification, "Chunk types".
#[derive(Clone, Copy, Debug, PartialEq, Eq)]
pub enum Kind {
    /// `s`: the chunk that a file begins with.
    Signature,
    /// `m`: describes the file.
    Metadata,
    /// `p`: takes up room.
    Padding,
    /// `r`: records one after another.
    Simple,
    /// `t`: records taken apart by their fields.
    Transposed,
    /// Any other byte.
    Unknown(u8),
}

impl Kind {
    /// The byte that stands for it.
    pub fn byte(self) -> u8
        ensures { result ≡ byte_of_kind self }
    {
        match self {
            Kind::Signature => b's',
            Kind::Metadata => b'm',
            Kind::Padding => b'p',
            Kind::Simple => b'r',
            Kind::Transposed => b't',
            Kind::Unknown(byte) => byte,
        }
    }
}

/// The kind that a byte stands for.
///
/// Riegeli/records file format specification, "Chunk types".
pub fn kind_of(byte: u8) -> Kind
    ensures byte { byte_of_kind result ≡ byte }
    ensures unknown { result ≡ Kind.Unknown byte → IsOfNoName byte }
{
    match byte {
        b's' => Kind::Signature,
        b'm' => Kind::Metadata,
        b'p' => Kind::Padding,
        b'r' => Kind::Simple,
        b't' => Kind::Transposed,
        _ => Kind::Unknown(byte),
    }
}
