ghost use Rattle.std.specs.Prelude.{◌≡◌, IfOk, IfSome, Err};
ghost use Rattle.record_io.specs.Calls.{AsksUpTo};
ghost use Rattle.block_layout.specs.Layout.{block_header_size, chunk_header_size};
ghost use Rattle.chunk_reader.specs.Holders.{TellsBegin, IsBlockFault};
ghost use Rattle.chunk_reader.specs.Reasons.{Applies, IsFirstOf, unpassed_reasons};
ghost use Rattle.chunk_reader.specs.Sizes.{MayBeginAt, HasBlock};
ghost use Rattle.chunk_reader.specs.declared.reasons.Fault.{Fault};
ghost use Rattle.record_seek.specs.Steps.{IsBoundaryTo, IsPassedAt, IsPassedWithin};

use chunk_reader::{Fault, VerifyEnd, Why, passed_head_at, sane_header_at};
use record_io::Store;

/// The begin that the header of a block tells.
pub(crate) fn told_begin<S: Store>(store: &mut S, size: u64, block: u64) -> Result<u64, VerifyEnd>
    requires { HasBlock (S.told store.old) size block }
    ensures told { IfOk result (λ begin. IfSome (S.bytes store.old) (λ file. TellsBegin file block begin)) }
    ensures begin { IfOk result (IsBoundaryTo block) }
    ensures refused { (fault : Fault) → result ≡ Err (VerifyEnd.Refused fault)
        → IfSome (S.bytes store.old) (λ file. IsBlockFault file block fault) }
    ensures store { AsksUpTo S.bytes S.told S.handed S.name S.faults (result ≡ Err VerifyEnd.Store)
        block_header_size store.old store.new }
{
    match sane_header_at(store, size, block)? {
        Some(header) => Ok(block - header.previous),
        None => Err(VerifyEnd::Refused(Fault {
            at: block,
            why: Why::BlockHeader,
        })),
    }
}

/// A chunk that is passed by its header alone.
#[derive(Clone, Copy, Debug)]
pub(crate) struct Passed {
    /// Where it ends.
    pub end: u64,
    /// How many records it has.
    pub num_records: u64,
}

/// The chunk at a place of a file, which is passed.
pub(crate) fn passed_at<S: Store>(store: &mut S, size: u64, at: u64) -> Result<Passed, VerifyEnd>
    requires place { MayBeginAt (S.told store.old) size at }
    ensures passed { IfOk result (λ chunk. IfSome (S.bytes store.old) (λ file. IsPassedAt file at chunk)) }
    ensures bounds { IfOk result (IsPassedWithin size at) }
    ensures refused { (fault : Fault) → result ≡ Err (VerifyEnd.Refused fault) → (fault.at ≡ at)
        × IfSome (S.bytes store.old) (λ file. IsFirstOf (Applies file at) unpassed_reasons fault.why) }
    ensures store { AsksUpTo S.bytes S.told S.handed S.name S.faults (result ≡ Err VerifyEnd.Store)
        chunk_header_size store.old store.new }
{
    let (header, end) = passed_head_at(store, size, at)?;
    Ok(Passed {
        end,
        num_records: header.num_records,
    })
}
