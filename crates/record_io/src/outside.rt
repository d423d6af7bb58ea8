ghost use Rattle.std.specs.Prelude.{◌≡◌, ℕ, ◌+◌, ◌-◌, ◌^◌, ◌<◌, ◌≤◌, ◌⊎◌, Option, List, length, slice_range, IsErr, IfOk, IfSome, IsSomeAnd, OnOk, OnErr};
ghost use Rattle.record_io.specs.Outside.{Lent, none_lent};
ghost use Rattle.record_io.specs.FaultCounts.{AddsFault, faults_after};
ghost use Rattle.record_io.specs.Seen.{seen_stream, seen_file, GivesPiece, TakesPiece, TellsSize, ReadsPiece, CutsAt, GrowsBy};
ghost use Rattle.record_io.specs.Calls.{AsksUpTo, PutsTo};

/// A call on the outside failed.
#[derive(Clone, Copy, Debug, PartialEq, Eq)]
pub struct Failed;

/// Counts a fault, for the call that failed to answer. A count at its greatest stays there.
pub fn fault(faults: &mut u64) -> Failed
    ensures { AddsFault faults.old faults.new }
{
    *faults = faults.saturating_add(1);
    Failed
}

/// What the call answered, whose failure is counted.
pub fn counted<X: Drop, E: Drop>(answer: Result<X, E>, faults: &mut u64) -> Result<X, Failed>
    ensures same { IfOk answer (λ value. result ≡ Ok value) }
    ensures failed { OnErr answer (IsErr result) }
    ensures counted { faults.new ≡ faults_after result faults.old }
{
    match answer {
        Ok(value) => Ok(value),
        Err(_) => Err(fault(faults)),
    }
}

/// A stream of bytes that come in.
pub trait Source {
    /// The bytes still to come, where the source shows them.
    ghost left: { Self → Option (List ℕ) };

    /// How many faults there were.
    ghost faults: { Self → ℕ };

    /// Puts the next bytes into the front of the buffer, and answers how many: 0 exactly at the end.
    fn take(&mut self, buf: &mut [u8]) -> Result<usize, Failed>
        requires { 0 < length buf.old }
        ensures gives { GivesPiece result (length buf.old) buf.new (seen_stream left faults self.old) (seen_stream left faults self.new) };
}

/// A file that is read at any place. Reading never changes its bytes.
pub trait Store {
    /// The bytes of the file, where the store shows them.
    ghost bytes: { Self → Option (List ℕ) };

    /// What `size` said the last time, if nothing was cut or put since.
    ghost told: { Self → Option ℕ };

    /// How many bytes were handed out; at 2^64 - 1 it stays.
    ghost handed: { Self → ℕ };

    /// How many faults there were.
    ghost faults: { Self → ℕ };

    /// The name of what the store borrows, if it borrows what it reads.
    ghost name: { Self → ℕ } = { λ _. 0 };

    /// The number of bytes of the file.
    fn size(&mut self) -> Result<u64, Failed>
        ensures tells { TellsSize result (seen_file bytes told handed faults self.old) (seen_file bytes told handed faults self.new) }
        ensures same_name { name self.new ≡ name self.old };

    /// Puts bytes that begin at a place into the front of the buffer, and answers how many: at least 1.
    fn read_at(&mut self, at: u64, buf: &mut [u8]) -> Result<usize, Failed>
        requires below { IsSomeAnd (told self.old) (λ size. at < size) }
        requires room { 0 < length buf.old }
        ensures reads { ReadsPiece result at (length buf.old) buf.new (seen_file bytes told handed faults self.old) (seen_file bytes told handed faults self.new) }
        ensures same_name { name self.new ≡ name self.old };

    /// Where the bytes are shown and the size was told, the size is how many there are.
    ghost sized: { (s : Self) → IfSome (bytes s) (λ file. IfSome (told s) (λ size. size ≡ length file)) };
}

/// A file that is read at any place, cut, and grown at its end.
///
/// Each call fails only where the count of faults rose. The bytes are then as they were.
pub trait Device: Store {
    /// Leaves the bytes before a place, and none behind it. No size is told afterwards, whatever it answers.
    fn cut(&mut self, at: u64) -> Result<(), Failed>
        requires { IsSomeAnd (Self.told self.old) (λ size. at ≤ size) }
        ensures cuts { CutsAt result at (seen_file Self.bytes Self.told Self.handed Self.faults self.old) (seen_file Self.bytes Self.told Self.handed Self.faults self.new) }
        ensures same_name { Self.name self.new ≡ Self.name self.old };

    /// Puts bytes from the front of the piece behind all others, and answers how many: at least 1. No size is told
    /// afterwards, whatever it answers.
    fn put(&mut self, piece: &[u8]) -> Result<usize, Failed>
        requires { 0 < length piece.now }
        ensures grows { GrowsBy result piece.now (seen_file Self.bytes Self.told Self.handed Self.faults self.old) (seen_file Self.bytes Self.told Self.handed Self.faults self.new) }
        ensures same_name { Self.name self.new ≡ Self.name self.old };
}

/// A stream of bytes that go out.
pub trait Sink {
    /// All bytes taken so far, where the sink shows them.
    ghost taken: { Self → Option (List ℕ) };

    /// How many faults there were.
    ghost faults: { Self → ℕ };

    /// What the sink borrows, and what stands before all that it takes.
    ghost lent: { Self → Lent } = { λ _. none_lent };

    /// Takes bytes from the front of the piece, and answers how many: at least 1.
    fn put(&mut self, piece: &[u8]) -> Result<usize, Failed>
        requires { 0 < length piece.now }
        ensures takes { TakesPiece result piece.now (seen_stream taken faults self.old) (seen_stream taken faults self.new) }
        ensures same_lent { lent self.new ≡ lent self.old };
}

/// Puts the whole piece. After a failure the sink took a front of it and not all.
pub fn put_all<M: Sink>(sink: &mut M, piece: &[u8]) -> Result<(), Failed>
    ensures sink { PutsTo M.taken M.lent M.faults result piece.now sink.old sink.new }
{
    let mut at = 0;
    while at < piece.len() {
        at += sink.put(&piece[at..])?;
    }
    Ok(())
}

/// Reads exactly the bytes that begin at a place, as many as the buffer has room for. An empty buffer asks nothing.
///
/// # Errors
///
/// `Failed` only where the store failed. A front of the buffer may hold bytes then.
pub fn get_exact<S: Store>(store: &mut S, at: u64, buf: &mut [u8]) -> Result<(), Failed>
    requires within { 0 < length buf.old → IsSomeAnd (S.told store.old) (λ size. at + length buf.old ≤ size) }
    ensures exact { OnOk result (IfSome (S.bytes store.old) (λ file. buf.new ≡ slice_range file at (at + length buf.old))) }
    ensures handed_out { OnOk result ((S.handed store.new ≡ S.handed store.old + length buf.old) ⊎ (S.handed store.new ≡ 2 ^ 64 - 1)) }
    ensures handed_small { S.handed store.old < 2 ^ 64 → (S.handed store.old ≤ S.handed store.new) × (S.handed store.new < 2 ^ 64) }
    ensures store { AsksUpTo S.bytes S.told S.handed S.name S.faults (IsErr result) (length buf.old)
        store.old store.new }
{
    let mut got = 0;
    while got < buf.len() {
        got += store.read_at(at + got as u64, &mut buf[got..])?;
    }
    Ok(())
}
