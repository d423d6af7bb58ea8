ghost use Rattle.std.specs.Prelude.{◌≡◌, ◌+◌, ◌-◌, ◌<◌, ◌≤◌, Bool, [], ◌∷◌, List, None, Some, IfOk, IfSome, OnOk, OnErr, Ok, Err, ℕ};
ghost use Rattle.record_io.specs.Calls.{AsksUpTo, HasSize, OnlyAsks};
ghost use Rattle.meta_chunk.specs.Files.{totals_of, IsChainOf, signature};
ghost use Rattle.chunk_reader.specs.Contents.{IsJudged, IsJudgedIn};
ghost use Rattle.chunk_reader.specs.Faults.{BeginsWithSignature, IsAllowed, IsFault};
ghost use Rattle.chunk_reader.specs.Progress.{AreReadFrom};
ghost use Rattle.chunk_reader.specs.Readers.{ReadsIn, ReadsOn, IsAhead, IsNextChunk, IsNextPassed, IsReadWhole, IsFaultBehind, IsChunkAtHand, ReadsAtMost};
ghost use Rattle.chunk_reader.specs.SearchBounds.{MayBeReadTo};
ghost use Rattle.chunk_reader.specs.declared.reasons.Fault.{Fault};
ghost use Rattle.chunk_reader.specs.declared.reasons.Why.{Why};
ghost use Rattle.chunk_reader.specs.declared.judging.Judged.{Judged};
ghost use Rattle.chunk_reader.specs.declared.file_reader.ChunkAhead.{ChunkAhead};

use crate::judging::{Judged, What, strict_at, strict_under, whole_head_at};
use crate::progress::{NO_CHUNKS, SIGNATURE_ALONE, check_signature, totals_with_chunk};
use crate::reasons::{ReadEnd, VerifyEnd};
use crate::verifying::judge_under;
use chunk_header::{Chunk, Header, Kind};
use meta_chunk::SIGNATURE;
use record_io::{Bytes, Store, Totals};
use std::alloc::Global;
use std::marker::Model;

/// The header of the next chunk of a file, which has the chunk whole. Own.
#[derive(Clone, Copy, Debug)]
pub struct ChunkAhead {
    /// The header.
    pub header: Header,
    /// Where the chunk ends.
    pub(crate) end: u64,
}

/// Reads the chunks of a file one by one, from its front to its end or to its first fault. Own.
#[derive(Debug, Drop)]
pub struct Reader {
    size: u64,
    unread_ok: bool,
    totals: Totals,
}

impl Model for Reader {
    ghost use Rattle.std.specs.Prelude.{◌≤◌, ◌^◌};
    ghost use Rattle.chunk_reader.specs.Progress.{ReaderValue, AreInBounds};

    ghost Value = { ReaderValue };

    ghost view = { λ r. record { size = r.size; unread_ok = r.unread_ok; totals = r.totals } };

    ghost invariant = { λ r. AreInBounds r.size r.totals };
}

impl Reader {
    /// A reader of a file of so many bytes, at its front. With `unread_ok`, compressed and transposed chunks are left unread in
    /// place of being refused.
    pub fn new(size: u64, unread_ok: bool) -> Reader
        ensures size { result.size ≡ size }
        ensures unread_ok { result.unread_ok ≡ unread_ok }
        ensures totals { result.totals ≡ record { chunks = 0; records = 0; bytes = 0; unread = 0 } }
        ensures at_front { (file : List ℕ) → AreReadFrom unread_ok file result.totals }
    {
        Reader {
            size,
            unread_ok,
            totals: NO_CHUNKS,
        }
    }

    /// A reader of a file of so many bytes, behind the signature that each file begins with. It takes no memory.
    ///
    /// # Errors
    ///
    /// `Refused` with the fault of a file that doesn't begin so. `Store` only where the store failed.
    pub fn behind_signature<S: Store>(
        store: &mut S,
        size: u64,
        unread_ok: bool,
    ) -> Result<Reader, VerifyEnd>
        requires sized { HasSize (S.told store.old) size }
        ensures reads { IfOk result (λ reader. ReadsIn (S.bytes store.old) (S.told store.old) reader) }
        ensures unread_ok { IfOk result (λ reader. reader.unread_ok ≡ unread_ok) }
        ensures totals { IfOk result (λ reader. reader.totals ≡ totals_of (signature ∷ [])) }
        ensures chain { IfOk result (λ reader. IfSome (S.bytes store.old) (λ file. IsChainOf (IsAllowed unread_ok) (signature ∷ []) file reader.totals.bytes)) }
        ensures refused { (fault : Fault) → result ≡ Err (VerifyEnd.Refused fault) → IfSome (S.bytes store.old) (λ file. IsFault unread_ok file fault) }
        ensures store { OnlyAsks S.bytes S.told S.name S.faults (result ≡ Err VerifyEnd.Store) store.old store.new }
    {
        check_signature(store, size)?;
        Ok(Reader {
            size,
            unread_ok,
            totals: SIGNATURE_ALONE,
        })
    }

    /// Where the next chunk begins, which is where the last one that was given ends.
    pub fn at(&self) -> u64
        ensures { result ≡ self.now.totals.bytes }
    {
        self.totals.bytes
    }

    /// The totals of the chunks that were given.
    pub fn totals(&self) -> Totals
        ensures { result ≡ self.now.totals }
    {
        self.totals
    }

    /// The next chunk of the file; `None` exactly at its end, where it has no fault. The file's size was told and is the
    /// reader's, at most 2^60.
    ///
    /// # Errors
    ///
    /// `Refused` exactly with the fault of the file, once all chunks before it were given. `Store` only where the store
    /// failed. After an error the reader is as before, and no more was handed out than a chunk header and the header of a block
    /// within it, or than the chunk that the file has there.
    pub fn next<S: Store>(
        &mut self,
        alloc: Global,
        store: &mut S,
    ) -> Result<Option<Judged>, ReadEnd>
        requires reads { ReadsIn (S.bytes store.old) (S.told store.old) self.old }
        ensures goes_on { ReadsOn (S.bytes store.old) self.old self.new }
        ensures chunk { (j : Judged) → result ≡ Ok (Some j) → IsNextChunk (S.bytes store.old) self.old self.new j }
        ensures ended { result ≡ Ok None → (self.new ≡ self.old) × IsReadWhole (S.bytes store.old) self.old }
        ensures refused { (fault : Fault) → result ≡ Err (ReadEnd.Refused fault) → IsFaultBehind (S.bytes store.old) self.old fault }
        ensures memory { result ≡ Err ReadEnd.Memory → IsChunkAtHand (S.bytes store.old) self.old.totals.bytes }
        ensures kept { OnErr result (self.new ≡ self.old) }
        ensures handed { ReadsAtMost self.old result (S.handed store.old) (S.handed store.new) }
        ensures read_to { IfSome (S.bytes store.old) (λ file.
            MayBeReadTo file self.old.totals.bytes (self.old.totals.bytes + (S.handed store.new - S.handed store.old))) }
        ensures store { OnlyAsks S.bytes S.told S.name S.faults (result ≡ Err ReadEnd.Store) store.old store.new }
    {
        let judged = if self.at() == 0 {
            first_chunk(alloc, store, self.size)?
        } else if self.at() < self.size {
            strict_at(alloc, store, self.size, self.at(), self.unread_ok)?
        } else {
            return Ok(None);
        };
        let unread = matches!(judged.what, What::Unread);
        let records = judged.chunk.header.num_records;
        self.totals = totals_with_chunk(&self.totals, judged.end, records, unread);
        Ok(Some(judged))
    }

    /// The header of the next chunk behind the signature, where the file has the chunk whole and its data isn't too large; `None`
    /// exactly at the end of the file, where it has no fault. The reader stays where it is. It takes no memory.
    ///
    /// # Errors
    ///
    /// `Refused` with the fault of the file, once all chunks before it were given. `Store` only where the store failed.
    pub fn ahead<S: Store>(&self, store: &mut S) -> Result<Option<ChunkAhead>, VerifyEnd>
        requires reads { ReadsIn (S.bytes store.old) (S.told store.old) self.now }
        requires behind { 0 < self.now.totals.bytes }
        ensures ahead { (ahead : ChunkAhead) → result ≡ Ok (Some ahead) → IsAhead (S.bytes store.old) self.now ahead }
        ensures ended { result ≡ Ok None → IsReadWhole (S.bytes store.old) self.now }
        ensures refused { (fault : Fault) → result ≡ Err (VerifyEnd.Refused fault) → IsFaultBehind (S.bytes store.old) self.now fault }
        ensures store { OnlyAsks S.bytes S.told S.name S.faults (result ≡ Err VerifyEnd.Store) store.old store.new }
    {
        if self.at() >= self.size {
            return Ok(None);
        }
        let (header, end) = whole_head_at(store, self.size, self.at())?;
        Ok(Some(ChunkAhead { header, end }))
    }

    /// Reads the next chunk, whose header was found, and holds it.
    ///
    /// # Errors
    ///
    /// Those of `ahead`, and `Memory`. After an error the reader is as before.
    pub fn read<S: Store>(
        &mut self,
        alloc: Global,
        store: &mut S,
        ahead: &ChunkAhead,
    ) -> Result<Judged, ReadEnd>
        requires reads { ReadsIn (S.bytes store.old) (S.told store.old) self.old }
        requires ahead { IsAhead (S.bytes store.old) self.old ahead.now }
        ensures goes_on { ReadsOn (S.bytes store.old) self.old self.new }
        ensures chunk { IfOk result (λ j. IsNextChunk (S.bytes store.old) self.old self.new j) }
        ensures header { IfOk result (λ j. j.chunk.header ≡ ahead.now.header) }
        ensures refused { (fault : Fault) → result ≡ Err (ReadEnd.Refused fault) → IsFaultBehind (S.bytes store.old) self.old fault }
        ensures kept { OnErr result (self.new ≡ self.old) }
        ensures store { OnlyAsks S.bytes S.told S.name S.faults (result ≡ Err ReadEnd.Store) store.old store.new }
    {
        let judged = strict_under(
            alloc,
            store,
            self.at(),
            ahead.end,
            ahead.header,
            self.unread_ok,
        )?;
        let unread = matches!(judged.what, What::Unread);
        let records = judged.chunk.header.num_records;
        self.totals = totals_with_chunk(&self.totals, judged.end, records, unread);
        Ok(judged)
    }

    /// Judges the next chunk, whose header was found, without holding it. It takes no memory.
    ///
    /// # Errors
    ///
    /// Those of `ahead`. After an error the reader is as before.
    pub fn pass<S: Store>(&mut self, store: &mut S, ahead: &ChunkAhead) -> Result<(), VerifyEnd>
        requires reads { ReadsIn (S.bytes store.old) (S.told store.old) self.old }
        requires ahead { IsAhead (S.bytes store.old) self.old ahead.now }
        ensures goes_on { ReadsOn (S.bytes store.old) self.old self.new }
        ensures chunk { OnOk result (IsNextPassed (S.bytes store.old) self.old self.new ahead.now.header) }
        ensures refused { (fault : Fault) → result ≡ Err (VerifyEnd.Refused fault) → IsFaultBehind (S.bytes store.old) self.old fault }
        ensures kept { OnErr result (self.new ≡ self.old) }
        ensures store { OnlyAsks S.bytes S.told S.name S.faults (result ≡ Err VerifyEnd.Store) store.old store.new }
    {
        let unread = judge_under(store, self.at(), ahead.end, &ahead.header, self.unread_ok)?;
        let records = ahead.header.num_records;
        self.totals = totals_with_chunk(&self.totals, ahead.end, records, unread);
        Ok(())
    }
}

/// The chunk that each file begins with, where a file of so many bytes begins with its bytes.
fn first_chunk<S: Store>(alloc: Global, store: &mut S, size: u64) -> Result<Judged, VerifyEnd>
    requires told { S.told store.old ≡ Some size }
    ensures judged { IfOk result (λ judged. (unread_ok : Bool) → IsJudged unread_ok size 0 judged) }
    ensures sound { IfOk result (λ judged. (unread_ok : Bool)
        → IfSome (S.bytes store.old) (λ file. IsJudgedIn unread_ok file 0 judged)) }
    ensures signed { OnOk result (IfSome (S.bytes store.old) BeginsWithSignature) }
    ensures refused { (fault : Fault) → result ≡ Err (VerifyEnd.Refused fault) → (fault.at ≡ 0) × (fault.why ≡ Why.NoSignature)
        × IfSome (S.bytes store.old) (λ file. ¬ BeginsWithSignature file) }
    ensures handed_given { IfOk result (λ judged. S.handed store.new ≤ S.handed store.old + judged.end) }
    ensures handed_at_most { S.handed store.new ≤ S.handed store.old + size }
    ensures store { AsksUpTo S.bytes S.told S.handed S.name S.faults (result ≡ Err VerifyEnd.Store)
        64 store.old store.new }
{
    check_signature(store, size)?;
    Ok(Judged {
        begin: 0,
        end: SIGNATURE.len() as u64,
        chunk: Chunk::new(Kind::Signature.byte(), 0, 0, Bytes::new(alloc)),
        what: What::Passive,
    })
}
