//! Calls on the readers, writers and files of std, each of whose failures counts one fault. They serve objects over files
//! and streams, also those of other crates.
ghost use Rattle.std.specs.Prelude.{◌≡◌, ◌≤◌, length, take, IfOk, OnErr};
ghost use Rattle.std.specs.Io.KnownBytes.{Appends, Keeps, ReadConsumes};
ghost use Rattle.record_io.specs.FaultCounts.{faults_after};
ghost use Rattle.record_io.specs.Calls.{HandlesSome};
ghost use Rattle.record_io.specs.Edge.{AppendsPiece, ReadsAt};

use crate::outside::{Failed, counted, fault};
use std::fs::OpenFile;
use std::io::{Read, Seek, SeekFrom, Write};

/// Reads into the front of the buffer, and answers how many bytes: 0 at the end.
pub(crate) fn take_from<T: Read>(
    from: &mut T,
    buf: &mut [u8],
    faults: &mut u64,
) -> Result<usize, Failed>
    ensures fits { IfOk result (λ n. n ≤ length buf.old) }
    ensures bytes { ReadConsumes (T.remaining from.old) (T.remaining from.new) result buf.new }
    ensures counted { faults.new ≡ faults_after result faults.old }
{
    counted(from.read(buf), faults)
}

/// Reads bytes that begin at a place of the file into the front of the buffer, and answers how many: at least 1.
pub fn read_from<F: Read + Seek>(
    file: &mut F,
    at: u64,
    buf: &mut [u8],
    faults: &mut u64,
) -> Result<usize, Failed>
    ensures some { HandlesSome result (length buf.old) }
    ensures bytes { IfOk result (λ n. ReadsAt F.stream_position F.remaining file.old file.new at (take n buf.new)) }
    ensures counted { faults.new ≡ faults_after result faults.old }
{
    counted(file.seek(SeekFrom::Start(at)), faults)?;
    let count = take_from(file, buf, faults)?;
    if count == 0 {
        return Err(fault(faults));
    }
    Ok(count)
}

/// The size of the open file, which must be a regular one.
pub fn size_of<F: OpenFile>(file: &F, faults: &mut u64) -> Result<u64, Failed>
    ensures counted { faults.new ≡ faults_after result faults.old }
{
    let about = counted(file.metadata(), faults)?;
    if !about.is_file() {
        return Err(fault(faults));
    }
    Ok(about.len())
}

/// Writes a front of the piece, and answers how many bytes: at least 1.
fn write_to<T: Write>(to: &mut T, piece: &[u8], faults: &mut u64) -> Result<usize, Failed>
    ensures some { HandlesSome result (length piece.now) }
    ensures appends { IfOk result (λ n. Appends (T.contents to.old) (T.contents to.new) (take n piece.now)) }
    ensures kept { OnErr result (Keeps (T.contents to.old) (T.contents to.new)) }
    ensures counted { faults.new ≡ faults_after result faults.old }
{
    let count = counted(to.write(piece), faults)?;
    if count == 0 {
        return Err(fault(faults));
    }
    Ok(count)
}

/// Writes a front of the piece, of which the writer holds nothing back, and answers how many bytes: at least 1.
pub fn put_to<T: Write>(to: &mut T, piece: &[u8], faults: &mut u64) -> Result<usize, Failed>
    ensures some { HandlesSome result (length piece.now) }
    ensures appends { AppendsPiece result piece.now (T.contents to.old) (T.contents to.new) }
    ensures counted { faults.new ≡ faults_after result faults.old }
{
    let count = write_to(to, piece, faults)?;
    counted(to.flush(), faults)?;
    Ok(count)
}
