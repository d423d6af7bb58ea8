ghost use Rattle.std.specs.Prelude.{◌≡◌, ℕ, ◌+◌, ◌-◌, ◌<◌, ◌≤◌, List, ◌++◌, length, take, IfOk, IfSome, OnOk, Err};
ghost use Rattle.record_io.specs.Calls.{AsksWithin};
ghost use Rattle.block_layout.specs.Layout.{chunk_header_size, end_of, usable_bytes_at};
ghost use Rattle.chunk_header.specs.Views.{value_of_header};
ghost use Rattle.chunk_header.specs.declared.Header.{Header};
ghost use Rattle.chunk_reader.specs.BlockJudges.{MayJudge, EachBlock, StopsAtBlock, StopsAtBlockInChunk, IsUnfed};
ghost use Rattle.chunk_reader.specs.Places.{data_at};
ghost use Rattle.chunk_reader.specs.PlaceChecks.{HasUsableBytes, HaveHeadersOf, IsFirstWrong};
ghost use Rattle.chunk_reader.specs.Runs.{TakesRun};
ghost use Rattle.chunk_reader.specs.Sizes.{HasSpan};
ghost use Rattle.chunk_reader.specs.declared.reasons.Fault.{Fault};
ghost use Rattle.chunk_reader.specs.declared.reasons.Why.{Why};

use crate::block_judges::{BlockEnd, ExactHeaders, JudgesBlocks, judge_blocks};
use crate::judging::refused;
use crate::reasons::{VerifyEnd, Why};
use crate::usable_bytes::UsableBytes;
use block_layout::BLOCK_SIZE;
use chunk_header::Header;
use record_io::Store;

/// How many bytes of data are taken at a time at most. Own.
const BUFFER_SIZE: usize = 4096;

/// What takes the data of a chunk piece by piece. Own.
pub trait TakesData {
    /// The header of the chunk.
    ghost header: { Self → Header };

    /// These bytes of data were taken.
    ghost has_taken: { Self → List ℕ → Type 0 };

    /// So many bytes are still to come, where they are counted.
    ghost has_left: { Self → ℕ → Type 0 };

    /// Takes the next bytes of data, of which there are no more than are still to come.
    fn feed(&mut self, piece: &[u8])
        requires { (left : ℕ) × has_left self.old left × (length piece.now ≤ left) }
        ensures same_header { header self.new ≡ header self.old }
        ensures taken { (bytes : List ℕ) → has_taken self.old bytes → has_taken self.new (bytes ++ piece.now) }
        ensures left { (left : ℕ) → has_left self.old left → has_left self.new (left - length piece.now) };
}

/// Reads the data of a chunk, gives it to what takes it, and judges the headers of the blocks within the chunk as they are passed,
/// up to the first that isn't accepted. No byte is read twice, and none behind that block's header but in the chunk's.
///
/// # Errors
///
/// `Refused` exactly with what is told of that block. `Store` only where the store failed.
pub fn read_data<S: Store, J: JudgesBlocks, T: TakesData>(
    store: &mut S,
    judge: &J,
    at: u64,
    end: u64,
    header: &Header,
    taker: &mut T,
) -> Result<(), BlockEnd>
    requires span { HasSpan (S.told store.old) at end (value_of_header header.now) }
    requires judges { MayJudge (J.fits judge.now (S.told store.old)) (J.begin judge.now) (J.end judge.now) at end }
    requires unfed { IsUnfed (T.has_taken taker.old) (T.has_left taker.old) header.now.data_size }
    ensures same_header { OnOk result (T.header taker.new ≡ T.header taker.old) }
    ensures taken { OnOk result (IfSome (S.bytes store.old) (λ file. T.has_taken taker.new (data_at file at header.now.data_size))) }
    ensures none_left { OnOk result (T.has_left taker.new 0) }
    ensures accepted { OnOk result (IfSome (S.bytes store.old) (λ file. EachBlock (J.accepts judge.now file) at end)) }
    ensures refused { (told : ℕ) → result ≡ Err (BlockEnd.Refused told) → J.may_tell judge.now told
        × IfSome (S.bytes store.old) (λ file. StopsAtBlockInChunk (J.accepts judge.now file) (J.tells judge.now file) at end told
        (S.handed store.new - S.handed store.old)) }
    ensures store { AsksWithin S.bytes S.told S.handed S.name S.faults (result ≡ Err BlockEnd.Store)
        (at + chunk_header_size) end store.old store.new }
{
    let mut usable = UsableBytes::behind_header(at);
    judge_blocks(store, judge, at, usable.place)?;
    feed_data(store, judge, &mut usable, header.data_size, taker)?;
    judge_blocks(store, judge, usable.place, end)
}

/// Reads so many bytes of data piece by piece, and gives them to what takes them.
fn feed_data<S: Store, J: JudgesBlocks, T: TakesData>(
    store: &mut S,
    judge: &J,
    usable: &mut UsableBytes,
    size: u64,
    taker: &mut T,
) -> Result<(), BlockEnd>
    requires judges { MayJudge (J.fits judge.now (S.told store.old)) (J.begin judge.now) (J.end judge.now)
        usable.old.place (end_of usable.old.place size) }
    requires told { HasUsableBytes (S.told store.old) usable.old.place size }
    requires unfed { IsUnfed (T.has_taken taker.old) (T.has_left taker.old) size }
    ensures same_header { OnOk result (T.header taker.new ≡ T.header taker.old) }
    ensures taken { OnOk result (IfSome (S.bytes store.old) (λ file. T.has_taken taker.new (usable_bytes_at file usable.old.place size))) }
    ensures none_left { OnOk result (T.has_left taker.new 0) }
    ensures moved { OnOk result (usable.new.place ≡ end_of usable.old.place size) }
    ensures accepted { OnOk result (IfSome (S.bytes store.old) (λ file. EachBlock (J.accepts judge.now file) usable.old.place usable.new.place)) }
    ensures refused { (told : ℕ) → result ≡ Err (BlockEnd.Refused told) → J.may_tell judge.now told
        × IfSome (S.bytes store.old) (λ file. StopsAtBlock (J.accepts judge.now file) (J.tells judge.now file) usable.old.place
        (end_of usable.old.place size) told (S.handed store.new - S.handed store.old)) }
    ensures store { AsksWithin S.bytes S.told S.handed S.name S.faults (result ≡ Err BlockEnd.Store)
        usable.old.place (end_of usable.old.place size) store.old store.new }
{
    let mut buf = [0; BUFFER_SIZE];
    let mut left = size;
    while left > 0 {
        let most = left.min(BUFFER_SIZE as u64) as usize;
        let count = take_next(store, judge, usable, &mut buf[..most])?;
        taker.feed(&buf[..count]);
        left -= count as u64;
    }
    Ok(())
}

/// Puts the next bytes of data into the front of the buffer, at most those before the next block, and answers how many. Where the
/// header of a block stands before them, it is judged.
fn take_next<S: Store, J: JudgesBlocks>(
    store: &mut S,
    judge: &J,
    usable: &mut UsableBytes,
    buf: &mut [u8],
) -> Result<usize, BlockEnd>
    requires judges { MayJudge (J.fits judge.now (S.told store.old)) (J.begin judge.now) (J.end judge.now)
        usable.old.place (end_of usable.old.place (length buf.old)) }
    requires room { 0 < length buf.old }
    requires told { HasUsableBytes (S.told store.old) usable.old.place (length buf.old) }
    ensures run { IfOk result (λ n. TakesRun usable.old.place (length buf.old) n usable.new.place) }
    ensures given { IfOk result (λ n. IfSome (S.bytes store.old) (λ file. take n buf.new ≡ usable_bytes_at file usable.old.place n)) }
    ensures accepted { OnOk result (IfSome (S.bytes store.old) (λ file. EachBlock (J.accepts judge.now file) usable.old.place usable.new.place)) }
    ensures refused { (told : ℕ) → result ≡ Err (BlockEnd.Refused told) → J.may_tell judge.now told
        × IfSome (S.bytes store.old) (λ file. StopsAtBlock (J.accepts judge.now file) (J.tells judge.now file) usable.old.place
        (end_of usable.old.place (length buf.old)) told (S.handed store.new - S.handed store.old)) }
    ensures handed { OnOk result (S.handed store.new + usable.old.place ≤ S.handed store.old + usable.new.place) }
    ensures store { AsksWithin S.bytes S.told S.handed S.name S.faults (result ≡ Err BlockEnd.Store)
        usable.old.place (end_of usable.old.place (length buf.old)) store.old store.new }
{
    if usable.place % BLOCK_SIZE == 0 {
        judge.judge(store, usable.place)?;
    }
    Ok(usable.take(store, buf)?)
}

/// Reads the data of a chunk, and refuses the first block within the chunk that hasn't the header which the chunk gives it.
pub(crate) fn feed_chunk<S: Store, T: TakesData>(
    store: &mut S,
    at: u64,
    end: u64,
    header: &Header,
    taker: &mut T,
) -> Result<(), VerifyEnd>
    requires span { HasSpan (S.told store.old) at end (value_of_header header.now) }
    requires unfed { IsUnfed (T.has_taken taker.old) (T.has_left taker.old) header.now.data_size }
    ensures same_header { OnOk result (T.header taker.new ≡ T.header taker.old) }
    ensures taken { OnOk result (IfSome (S.bytes store.old) (λ file. T.has_taken taker.new (data_at file at header.now.data_size))) }
    ensures none_left { OnOk result (T.has_left taker.new 0) }
    ensures right { OnOk result (IfSome (S.bytes store.old) (λ file. HaveHeadersOf file at end at end)) }
    ensures wrong { (fault : Fault) → result ≡ Err (VerifyEnd.Refused fault) → (fault.why ≡ Why.BlockHeader)
        × IfSome (S.bytes store.old) (λ file. IsFirstWrong file at end at end fault.at) }
    ensures store { AsksWithin S.bytes S.told S.handed S.name S.faults (result ≡ Err VerifyEnd.Store)
        (at + chunk_header_size) end store.old store.new }
{
    let judge = ExactHeaders { begin: at, end };
    match read_data(store, &judge, at, end, header, taker) {
        Ok(()) => Ok(()),
        Err(BlockEnd::Refused(block)) => Err(refused(block, Why::BlockHeader)),
        Err(BlockEnd::Store) => Err(VerifyEnd::Store),
    }
}
