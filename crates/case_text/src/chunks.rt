//! Chunks and their headers, laid with right hashes.

use crate::texts::plain;
use crate::words::refused;
use anyhow::{Result, bail};
use block_layout::{BLOCK_HEADER_SIZE, BLOCK_SIZE, BlockHeader, chunk_end, is_boundary};
use chunk_header::{HEADER_SIZE, Header};
use highway_hash::{RIEGELI, hash_lanes};
use std::alloc::{AllocError, Global};

/// The longest chunk that is laid, with what lies between its bytes.
const LONGEST: u64 = 1 << 27;

/// The kind that a word says: its one character, or that of a text in quotes.
pub fn kind_of(alloc: Global, word: &str) -> Result<u8> {
    let bytes = plain(alloc, word)?;
    match bytes.as_slice() {
        [kind] => Ok(*kind),
        _ => Err(refused("no kind", word)),
    }
}

/// The header of these fields.
pub fn header_of(
    kind: u8,
    records: usize,
    decoded: usize,
    size: usize,
    data_hash: u64,
) -> Result<Header> {
    let num_records = records as u64;
    if num_records >= 1 << 56 {
        bail!("too many records: {records}");
    }
    Ok(Header {
        data_size: size as u64,
        data_hash,
        kind,
        num_records,
        decoded_size: decoded as u64,
    })
}

/// Lays one more chunk at the end of a file: with the block headers that interrupt it, and zero bytes up to its own end.
pub fn lay(alloc: Global, file: &mut Vec<u8>, header: &Header, data: &[u8]) -> Result<()> {
    let begin = file.len() as u64;
    let end = end_of(begin, header)?;
    let mut bytes = header.to_bytes().to_vec(alloc)?;
    bytes.extend_from_slice(data)?;
    Ok(lay_bytes(file, begin, end, &bytes)?)
}

/// Lays the bytes of the chunk that goes from the end of a file to a place.
fn lay_bytes(file: &mut Vec<u8>, begin: u64, end: u64, bytes: &[u8]) -> Result<(), AllocError> {
    let mut rest = bytes;
    for block in begin / BLOCK_SIZE..end.div_ceil(BLOCK_SIZE) {
        let at = block.saturating_mul(BLOCK_SIZE);
        if at >= begin {
            let (previous, next) = (at - begin, end.saturating_sub(at));
            file.extend_from_slice(&BlockHeader { previous, next }.to_bytes())?;
        }
        rest = fill_with(file, end.min(at.saturating_add(BLOCK_SIZE)) as usize, rest)?;
    }
    Ok(())
}

/// Fills a file up to this size with bytes, and with zero bytes behind them. What is left of the bytes.
fn fill_with<'a>(file: &mut Vec<u8>, size: usize, bytes: &'a [u8]) -> Result<&'a [u8], AllocError> {
    let room = size.saturating_sub(file.len());
    let (piece, rest) = bytes.split_at_checked(room).unwrap_or((bytes, b""));
    file.extend_from_slice(piece)?;
    file.resize(size, 0)?;
    Ok(rest)
}

/// Where the chunk of this header ends that begins at a place.
fn end_of(begin: u64, header: &Header) -> Result<u64> {
    if !is_boundary(begin) || begin > 1 << 62 {
        bail!("no chunk begins at {begin}");
    }
    match chunk_end(begin, header.data_size, header.num_records) {
        Some(end) if end.saturating_sub(begin) <= LONGEST => Ok(end),
        _ => bail!("too long a chunk"),
    }
}

/// Makes the hash of the chunk header right that begins at a place of a file. Whether one can.
pub fn rehash(alloc: Global, file: &mut [u8], place: usize) -> Result<bool, AllocError> {
    let places = places_from(alloc, file.len(), place, HEADER_SIZE)?;
    let Some((hash, fields)) = places.split_at_checked(8) else {
        return Ok(false);
    };
    if fields.len() < HEADER_SIZE - 8 {
        return Ok(false);
    }
    let bytes = bytes_at(alloc, file, fields)?;
    put_at(file, hash, &hash_lanes(&RIEGELI, &bytes).to_le_bytes());
    Ok(true)
}

/// Up to so many places of a file that are in no block header, from a place on.
pub fn places_from(
    alloc: Global,
    size: usize,
    place: usize,
    count: usize,
) -> Result<Vec<usize>, AllocError> {
    let mut places = Vec::new(alloc);
    for at in place..size {
        if places.len() == count {
            break;
        }
        if at as u64 % BLOCK_SIZE >= BLOCK_HEADER_SIZE {
            places.push(at)?;
        }
    }
    Ok(places)
}

/// The bytes at these places of a file.
pub fn bytes_at(alloc: Global, file: &[u8], places: &[usize]) -> Result<Vec<u8>, AllocError> {
    let mut bytes = Vec::with_capacity(alloc, places.len())?;
    for at in places {
        bytes.push(file.get(*at).copied().unwrap_or(0))?;
    }
    Ok(bytes)
}

/// Puts bytes at these places, the first at the first one.
pub fn put_at(file: &mut [u8], places: &[usize], bytes: &[u8]) {
    for (at, byte) in places.iter().zip(bytes) {
        if let Some(old) = file.get_mut(*at) {
            *old = *byte;
        }
    }
}
