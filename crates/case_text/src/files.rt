//! Files that are read or grown, and how statements change them.

use crate::bytes::bytes_of;
use crate::chunks::{header_of, kind_of, lay, rehash};
use crate::names::Known;
use crate::words::{Statement, number_of, one_number, refused, refused_size};
use anyhow::{Result, bail};
use chunk_header::Header;
use highway_hash::{RIEGELI, hash_lanes};
use std::alloc::Global;

/// A file that is read or grown.
#[derive(Drop)]
pub struct GivenFile {
    pub bytes: Vec<u8>,
    /// The size of one that shows nothing of its bytes: zero bytes follow those above.
    pub untold: Option<u64>,
    /// Whether none of its calls fails.
    pub sound: bool,
}

impl GivenFile {
    /// One that shows its bytes.
    pub fn new(bytes: Vec<u8>) -> GivenFile {
        GivenFile {
            bytes,
            untold: None,
            sound: false,
        }
    }
}

/// Carries out a statement that changes a file.
pub fn change(
    alloc: Global,
    known: &Known,
    file: &mut GivenFile,
    statement: &Statement,
) -> Result<()> {
    let words = statement.rest();
    match statement.kind() {
        "sound" if words.is_empty() => {
            file.sound = true;
            Ok(())
        }
        "untold" => tell_nothing(file, words),
        kind => change_bytes(alloc, known, &mut file.bytes, kind, words),
    }
}

/// Carries out a statement that changes the bytes of a file.
fn change_bytes(
    alloc: Global,
    known: &Known,
    bytes: &mut Vec<u8>,
    kind: &str,
    words: &[String],
) -> Result<()> {
    match kind {
        "cut" => cut(bytes, words),
        "zeros" => fill_up(bytes, words),
        "flip" => flip(bytes, words),
        "put" => put(alloc, known, bytes, words),
        "rehash" => mend(alloc, bytes, words),
        "chunk" => add_chunk(alloc, known, bytes, words),
        _ => Err(refused("no such statement, or not with these words", kind)),
    }
}

/// Lets a file show nothing of its bytes, and have the size that the words are.
fn tell_nothing(file: &mut GivenFile, words: &[String]) -> Result<()> {
    let size = one_number(words)?;
    if size < file.bytes.len() {
        return Err(refused_size("the file has more bytes", file.bytes.len()));
    }
    file.untold = Some(size as u64);
    Ok(())
}

/// Cuts a file to the size that the words are.
fn cut(file: &mut Vec<u8>, words: &[String]) -> Result<()> {
    let size = one_number(words)?;
    if size > file.len() {
        return Err(refused_size("the file has fewer bytes", file.len()));
    }
    file.truncate(size);
    Ok(())
}

/// Fills a file up to the size that the words are with zero bytes.
fn fill_up(file: &mut Vec<u8>, words: &[String]) -> Result<()> {
    let size = one_number(words)?;
    if size < file.len() {
        return Err(refused_size("the file has more bytes", file.len()));
    }
    Ok(file.resize(size, 0)?)
}

/// Inverts all bits of the bytes at these places, of which there are some.
fn flip(file: &mut [u8], places: &[String]) -> Result<()> {
    if places.is_empty() {
        bail!("no place");
    }
    for place in places {
        match file.get_mut(number_of(place.as_str())?) {
            Some(byte) => *byte = !*byte,
            None => bail!("no byte at {place}"),
        }
    }
    Ok(())
}

/// Makes the hash of the chunk header right that begins at the place that the words are.
fn mend(alloc: Global, file: &mut [u8], words: &[String]) -> Result<()> {
    let place = one_number(words)?;
    if !rehash(alloc, file, place)? {
        bail!("no chunk header at {place}");
    }
    Ok(())
}

/// Puts bytes in the place of others.
fn put(alloc: Global, known: &Known, file: &mut [u8], words: &[String]) -> Result<()> {
    let Some((place, words)) = words.split_first() else {
        bail!("no place");
    };
    let place = number_of(place.as_str())?;
    put_bytes(file, place, &bytes_of(alloc, known, words)?)
}

/// Puts these bytes at a place.
fn put_bytes(file: &mut [u8], place: usize, new: &[u8]) -> Result<()> {
    if place > file.len() || new.len() > file.len() - place {
        bail!("not so many bytes at {place}");
    }
    file[place..place + new.len()].copy_from_slice(new);
    Ok(())
}

/// Lays a chunk of a kind, a number of records, a decoded size and bytes.
fn add_chunk(alloc: Global, known: &Known, file: &mut Vec<u8>, words: &[String]) -> Result<()> {
    let Some((fields, words)) = words.split_first_chunk::<3>() else {
        bail!("no kind, number of records and decoded size");
    };
    let data = bytes_of(alloc, known, words)?;
    lay(alloc, file, &header_over(alloc, fields, &data)?, &data)
}

/// The header of a kind, a number of records and a decoded size, over this data.
fn header_over(alloc: Global, fields: &[String; 3], data: &[u8]) -> Result<Header> {
    let kind = kind_of(alloc, fields[0].as_str())?;
    let records = number_of(fields[1].as_str())?;
    let decoded = number_of(fields[2].as_str())?;
    header_of(
        kind,
        records,
        decoded,
        data.len(),
        hash_lanes(&RIEGELI, data),
    )
}

/// Lets the last file stand so many times.
pub fn copy(alloc: Global, files: &mut Vec<GivenFile>, times: usize) -> Result<()> {
    let Some(file) = files.pop() else {
        bail!("no file stands above it");
    };
    for _ in 0..times {
        files.push(GivenFile {
            bytes: file.bytes.to_vec(alloc)?,
            untold: file.untold,
            sound: file.sound,
        })?;
    }
    Ok(())
}
