ghost use Rattle.std.specs.Prelude.{◌≡◌, ◌↔◌, false, IsTrue, IfOk, OnOk, OnErr};
ghost use Rattle.meta_chunk.specs.KindViews.{HeaderKeepsRule};
ghost use Rattle.chunk_header.specs.Views.{HasRightHash, value_of_chunk};
ghost use Rattle.chunk_reader.specs.Contents.{IsContent, JudgesContent};
ghost use Rattle.chunk_reader.specs.declared.reasons.Why.{Why};

use crate::chunk_content::{Content, ContentEnd};
use crate::reasons::Why;
use chunk_header::{Chunk, Header};
use meta_chunk::{BadFields, Kind, check, kind_of};
use simple_chunk::{SimpleFault, decode_chunk};
use std::alloc::Global;

/// What a chunk holds, judged by the hash of its data, the rule of its kind and the grammar of simple chunks.
///
/// Riegeli/records file format specification, "Chunk types". Own: the reasons and their order.
///
/// # Errors
///
/// `Fault` exactly with the first of these that applies: `DataHash`, `Contents`, `Compressed`, `Transposed`,
/// `UnknownKind`; unless memory is wanting first.
pub fn content(alloc: Global, chunk: &Chunk) -> Result<Content, ContentEnd>
    ensures content { IfOk result (λ content. IsContent (value_of_chunk chunk.now) content) }
    ensures judged { JudgesContent false chunk.now result }
{
    content_under(alloc, chunk, chunk.hash_right())
}

/// The same of a chunk of which it is known whether its header has the data's hash, so that the data isn't hashed again.
///
/// # Errors
///
/// Those of `content`.
pub fn content_under(alloc: Global, chunk: &Chunk, right: bool) -> Result<Content, ContentEnd>
    requires { IsTrue right ↔ HasRightHash chunk.now }
    ensures content { IfOk result (λ content. IsContent (value_of_chunk chunk.now) content) }
    ensures judged { JudgesContent false chunk.now result }
{
    if !right {
        return Err(ContentEnd::Fault(Why::DataHash));
    }
    match kind_of(chunk.header.kind) {
        Kind::Simple => match decode_chunk(alloc, chunk) {
            Ok(records) => Ok(Content::Records(records)),
            Err(SimpleFault::Compressed) => Err(ContentEnd::Fault(Why::Compressed)),
            Err(SimpleFault::Contents) => Err(ContentEnd::Fault(Why::Contents)),
            Err(SimpleFault::Memory) => Err(ContentEnd::Memory),
        },
        Kind::Transposed => Err(ContentEnd::Fault(Why::Transposed)),
        Kind::Unknown(_) => Err(ContentEnd::Fault(Why::UnknownKind)),
        Kind::Signature => checked(&chunk.header, Content::Signature),
        Kind::Metadata => checked(&chunk.header, Content::Metadata),
        Kind::Padding => checked(&chunk.header, Content::Padding),
    }
}

/// The content, where the header keeps the rule of its kind.
fn checked(header: &Header, content: Content) -> Result<Content, ContentEnd>
    ensures kept { OnOk result (HeaderKeepsRule header.now) }
    ensures same { IfOk result (λ kept. kept ≡ content) }
    ensures broken { OnErr result ((¬ HeaderKeepsRule header.now) × (result ≡ Err (ContentEnd.Fault Why.Contents))) }
{
    match check(header) {
        Ok(()) => Ok(content),
        Err(BadFields) => Err(ContentEnd::Fault(Why::Contents)),
    }
}
