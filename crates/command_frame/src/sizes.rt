ghost use Rattle.std.specs.Prelude.{◌≡◌, ℕ, ◌+◌, None, Some, drop, length, nat_lt, slice_get, IfOk, IfSome, IfErr, IsErr, OnOk};
ghost use Rattle.std.specs.List.{list_any};
ghost use Rattle.record_io.specs.Calls.{HasSize, OnlyCounts};
ghost use Rattle.record_io.specs.ManyStores.{AreOnlyAsked, AreTold};
ghost use Rattle.command_frame.specs.FileSizes.{IsUnsized};

use record_io::{Failed, Store};

/// The most bytes that a record file may have that is read.
pub const MOST_FILE_BYTES: u64 = 1 << 60;

/// Why no size was told of a file that may be read.
#[derive(Clone, Copy, Debug, PartialEq, Eq)]
pub enum SizeEnd {
    /// The file has more bytes than are read.
    Limit,
    /// The file failed.
    File,
}

/// The size of a file that may be read.
pub fn size_of<S: Store>(file: &mut S) -> Result<u64, SizeEnd>
    ensures sized { IfOk result (λ size. HasSize (S.told file.new) size) }
    ensures exact { IfOk result (λ size. IfSome (S.bytes file.old) (λ bytes. size ≡ length bytes)) }
    ensures unread { IfErr result (λ ended. IsUnsized ended (S.told file.new) (S.bytes file.old) (S.faults file.old) (S.faults file.new)) }
    ensures same_handed { S.handed file.new ≡ S.handed file.old }
    ensures same_bytes { S.bytes file.new ≡ S.bytes file.old }
    ensures file { OnlyCounts S.name S.faults ⊥ file.old file.new }
{
    let Ok(size) = file.size() else {
        return Err(SizeEnd::File);
    };
    if size > MOST_FILE_BYTES {
        return Err(SizeEnd::Limit);
    }
    Ok(size)
}

/// Asks each file its size, in their order, and none behind one that fails.
pub fn ask_sizes<S: Store>(files: &mut [S], sizes: &mut [u64]) -> Result<(), Failed>
    requires as_many { length sizes.old ≡ length files.old }
    ensures told { OnOk result (AreTold S.told files.new sizes.new) }
    ensures in_order { (place : ℕ) (file : S) → slice_get files.new place ≡ Some file → S.told file ≡ None
        → drop (place + 1) files.new ≡ drop (place + 1) files.old }
    // Of each file its bytes stay, how many of them it handed out, and what it borrows.
    ensures files { AreOnlyAsked S.bytes (λ file. Some (S.handed file)) S.name S.faults (IsErr result) files.old files.new }
{
    for (index, file) in files.iter_mut().enumerate() {
        let size = file.size()?;
        sizes[index] = size;
    }
    Ok(())
}

/// Whether a size is of a file that has more bytes than these.
pub fn is_one_past(sizes: &[u64], most: u64) -> bool
    ensures { result ≡ list_any (λ size. nat_lt most size) sizes.now }
{
    sizes.iter().any(|size| *size > most)
}
