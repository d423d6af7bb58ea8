ghost use Rattle.std.specs.Prelude.{◌≡◌, ℕ, ◌+◌, ◌-◌, ◌*◌, ◌^◌, ◌≤◌, Option, List, IfSome, OnOk, Err};
ghost use Rattle.record_io.specs.Calls.{AsksUpTo};
ghost use Rattle.block_layout.specs.Layout.{block_header_size, blocks_below, IsBlock};
ghost use Rattle.chunk_reader.specs.BlockJudges.{MayJudge, EachBlock, StopsAtBlock, JudgesUpTo};

use block_layout::{BLOCK_HEADER_SIZE, BLOCK_SIZE, BlockHeader};
use record_io::{Failed, Store, get_exact};

/// Why the blocks within a chunk were not all passed. Own.
#[derive(Clone, Copy, Debug, PartialEq, Eq)]
pub enum BlockEnd {
    /// The header of one isn't accepted, of which its judge tells this.
    Refused(u64),
    /// The store failed.
    Store,
}

impl From<Failed> for BlockEnd {
    ghost use Rattle.std.specs.Prelude.{◌≡◌};
    ghost use Rattle.chunk_reader.specs.declared.block_judges.BlockEnd.TheVariants.{Store};

    ghost from_gives = { λ _ end. end ≡ Store };

    fn from(_: Failed) -> BlockEnd {
        BlockEnd::Store
    }
}

/// What judges the headers of the blocks within a chunk while its data is read. Own.
pub trait JudgesBlocks {
    /// It fits a file of which this size was told.
    ghost fits: { Self → Option ℕ → Type 0 };

    /// The blocks that it judges stand from here on.
    ghost begin: { Self → ℕ };

    /// They stand below this place.
    ghost end: { Self → ℕ };

    /// It accepts the header at a block of a file.
    ghost accepts: { Self → List ℕ → ℕ → Type 0 };

    /// It tells this of a block whose header it doesn't accept.
    ghost tells: { Self → List ℕ → ℕ → ℕ → Type 0 };

    /// It may tell this, whatever the file has.
    ghost may_tell: { Self → ℕ → Type 0 };

    /// Judges the header at a block. At most 24 bytes are handed out.
    fn judge<S: Store>(&self, store: &mut S, block: u64) -> Result<(), BlockEnd>
        requires judges { MayJudge (fits self.now (S.told store.old)) (begin self.now) (end self.now) block (block + 1) }
        requires at_block { IsBlock block }
        ensures accepted { OnOk result (IfSome (S.bytes store.old) (λ file. accepts self.now file block)) }
        ensures refused { (told : ℕ) → result ≡ Err (BlockEnd.Refused told)
            → may_tell self.now told × IfSome (S.bytes store.old) (λ file. tells self.now file block told) }
        ensures store { AsksUpTo S.bytes S.told S.handed S.name S.faults (result ≡ Err BlockEnd.Store)
            block_header_size store.old store.new };
}

/// Judges the headers of the blocks from a place up to another, up to the first that isn't accepted.
pub fn judge_blocks<S: Store, J: JudgesBlocks>(
    store: &mut S,
    judge: &J,
    from: u64,
    to: u64,
) -> Result<(), BlockEnd>
    requires judges { MayJudge (J.fits judge.now (S.told store.old)) (J.begin judge.now) (J.end judge.now) from to }
    requires in_reach { to ≤ 2 ^ 60 }
    ensures accepted { OnOk result (IfSome (S.bytes store.old) (λ file. EachBlock (J.accepts judge.now file) from to)) }
    ensures refused { (told : ℕ) → result ≡ Err (BlockEnd.Refused told) → J.may_tell judge.now told
        × IfSome (S.bytes store.old) (λ file. StopsAtBlock (J.accepts judge.now file) (J.tells judge.now file) from to told
        (S.handed store.new - S.handed store.old)) }
    ensures looks { IfSome (S.bytes store.old) (λ file.
        JudgesUpTo (J.accepts judge.now file) from to (S.handed store.new - S.handed store.old)) }
    ensures store { AsksUpTo S.bytes S.told S.handed S.name S.faults (result ≡ Err BlockEnd.Store)
        (block_header_size * (blocks_below to - blocks_below from)) store.old store.new }
{
    let mut block = from.div_ceil(BLOCK_SIZE) * BLOCK_SIZE;
    while block < to {
        judge.judge(store, block)?;
        block += BLOCK_SIZE;
    }
    Ok(())
}

/// Accepts the headers that the blocks of a chunk have, and tells the block of another one.
#[derive(Clone, Copy, Debug)]
pub(crate) struct ExactHeaders {
    pub begin: u64,
    pub end: u64,
}

impl JudgesBlocks for ExactHeaders {
    ghost use Rattle.std.specs.Prelude.{◌≡◌, ◌≤◌, ⊤, IsSomeAnd};
    ghost use Rattle.block_layout.specs.NextPlaces.{IsOnBoundary};
    ghost use Rattle.chunk_reader.specs.Places.{HasHeaderOf};

    ghost fits = { λ j told. IsSomeAnd told (λ size. j.end ≤ size) × IsOnBoundary j.end };

    ghost begin = { λ j. j.begin };

    ghost end = { λ j. j.end };

    ghost accepts = { λ j file block. HasHeaderOf file j.begin j.end block };

    ghost tells = { λ j file block told. (told ≡ block) × (¬ HasHeaderOf file j.begin j.end block) };

    ghost may_tell = { λ j told. ⊤ };

    fn judge<S: Store>(&self, store: &mut S, block: u64) -> Result<(), BlockEnd> {
        let mut bytes = [0; BLOCK_HEADER_SIZE as usize];
        get_exact(store, block, &mut bytes)?;
        let header = BlockHeader {
            previous: block - self.begin,
            next: self.end - block,
        };
        if bytes == header.to_bytes() {
            Ok(())
        } else {
            Err(BlockEnd::Refused(block))
        }
    }
}
