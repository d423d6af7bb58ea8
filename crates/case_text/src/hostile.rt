//! Hostile files: a whole file that a seed changes, often with right hashes.

use crate::chunks::{bytes_at, places_from, put_at, rehash};
use block_layout::{BLOCK_SIZE, BlockHeader, chunk_end, is_boundary};
use chunk_header::{HEADER_SIZE, Header};
use highway_hash::{RIEGELI, hash_lanes};
use std::alloc::{AllocError, Global};

/// Data of more bytes isn't changed.
const MOST_DATA: usize = 1 << 17;

/// Numbers at which something ends.
const EDGES: [u64; 10] = [
    0,
    24,
    40,
    1 << 16,
    1 << 26,
    1 << 56,
    1 << 60,
    1 << 62,
    1 << 63,
    u64::MAX,
];

/// The fields of a chunk header: their first byte, and how many they have.
const FIELDS: [(usize, usize); 4] = [(8, 8), (24, 1), (25, 7), (32, 8)];

/// Numbers that a seed tells, one after another.
#[derive(Drop)]
struct Draws {
    state: u64,
}

impl Draws {
    /// The next one, of 64 bits: the generator SplitMix64.
    fn draw(&mut self) -> u64 {
        self.state = self.state.wrapping_add(0x9e37_79b9_7f4a_7c15);
        let mixed = self.state;
        let mixed = (mixed ^ mixed >> 30).wrapping_mul(0xbf58_476d_1ce4_e5b9);
        let mixed = (mixed ^ mixed >> 27).wrapping_mul(0x94d0_49bb_1331_11eb);
        mixed ^ mixed >> 31
    }

    /// One below a count, or 0 where that is 0.
    fn below(&mut self, count: usize) -> usize {
        if count == 0 {
            return 0;
        }
        (self.draw() % count as u64) as usize
    }

    /// One that is near another one or near an edge, or any.
    fn number(&mut self, old: u64) -> u64 {
        let near = self.below(9) as u64;
        let edge = EDGES.get(self.below(EDGES.len())).copied().unwrap_or(0);
        match self.below(4) {
            0 => old.wrapping_add(near).wrapping_sub(4),
            1 => edge.wrapping_add(near).wrapping_sub(4),
            2 => near,
            _ => self.draw() >> (self.draw() % 64),
        }
    }
}

/// Where the chunks of a file begin, up to the first one without a right header.
pub fn begins_of(alloc: Global, file: &[u8]) -> Result<Vec<usize>, AllocError> {
    let mut begins = Vec::new(alloc);
    let mut begin = 0;
    for _ in 0..file.len() {
        let Some(end) = end_at(alloc, file, begin)? else {
            break;
        };
        begins.push(begin)?;
        begin = end;
    }
    Ok(begins)
}

/// Where the chunk of a right header ends that begins at a place.
fn end_at(alloc: Global, file: &[u8], begin: usize) -> Result<Option<usize>, AllocError> {
    let places = places_from(alloc, file.len(), begin, HEADER_SIZE)?;
    let bytes = bytes_at(alloc, file, &places)?;
    let Some(bytes) = bytes.first_chunk::<HEADER_SIZE>() else {
        return Ok(None);
    };
    let begin = begin as u64;
    match Header::from_bytes(bytes) {
        Some(header) if begin <= 1 << 62 && is_boundary(begin) => {
            let end = chunk_end(begin, header.data_size, header.num_records);
            Ok(end.map(|end| end as usize))
        }
        _ => Ok(None),
    }
}

/// The hostile file that a seed makes of a file whose chunks begin at these places.
pub fn hostile(
    alloc: Global,
    file: &[u8],
    begins: &[usize],
    seed: u64,
) -> Result<Vec<u8>, AllocError> {
    let mut draws = Draws { state: seed };
    let mut made = file.to_vec(alloc)?;
    if draws.below(16) == 0 {
        cut(&mut made, &mut draws);
        fill(&mut made, &mut draws);
        return Ok(made);
    }
    for _ in 0..=draws.below(4) {
        change(alloc, &mut made, begins, &mut draws)?;
    }
    Ok(made)
}

/// Changes a file in one of many ways.
fn change(
    alloc: Global,
    file: &mut Vec<u8>,
    begins: &[usize],
    draws: &mut Draws,
) -> Result<(), AllocError> {
    let begin = begins.get(draws.below(begins.len())).copied().unwrap_or(0);
    match draws.below(9) {
        2 => move_part(alloc, file, draws),
        5 | 6 => change_header(alloc, file, begin, draws),
        7 => change_data(alloc, file, begin, draws),
        way => {
            change_in_place(file, way, draws);
            Ok(())
        }
    }
}

/// Changes a file in one of the ways that need no memory.
fn change_in_place(file: &mut Vec<u8>, way: usize, draws: &mut Draws) {
    match way {
        0 => cut(file, draws),
        1 => change_part(file, draws),
        3 | 4 => change_block(file, draws),
        _ => change_byte(file, draws),
    }
}

/// Cuts the file anywhere.
fn cut(file: &mut Vec<u8>, draws: &mut Draws) {
    file.truncate(draws.below(file.len()));
}

/// Makes each of these bytes any.
fn fill(bytes: &mut [u8], draws: &mut Draws) {
    for byte in bytes {
        *byte = draws.draw().to_be_bytes()[0];
    }
}

/// Makes one byte any.
fn change_byte(bytes: &mut [u8], draws: &mut Draws) {
    let new = draws.draw().to_be_bytes()[0];
    if let Some(byte) = bytes.get_mut(draws.below(bytes.len())) {
        *byte = new;
    }
}

/// Makes the bytes of a part of at most 100 bytes any.
fn change_part(file: &mut [u8], draws: &mut Draws) {
    let (from, size) = (draws.below(file.len()), draws.below(101));
    if let Some((_, rest)) = file.split_at_mut_checked(from) {
        let size = size.min(rest.len());
        fill(&mut rest[..size], draws);
    }
}

/// Copies a part of the file over another one.
fn move_part(alloc: Global, file: &mut [u8], draws: &mut Draws) -> Result<(), AllocError> {
    let part = file.get(draws.below(file.len())..).unwrap_or(b"");
    let part = part.get(..draws.below(1001)).unwrap_or(part).to_vec(alloc)?;
    let to = draws.below(file.len());
    for (byte, new) in file.iter_mut().skip(to).zip(&part) {
        *byte = *new;
    }
    Ok(())
}

/// Puts another right block header in the place of one.
fn change_block(file: &mut [u8], draws: &mut Draws) {
    let block = draws.below(file.len().div_ceil(BLOCK_SIZE as usize));
    let mut blocks = file.chunks_mut(BLOCK_SIZE as usize);
    let Some(place) = blocks
        .nth(block)
        .and_then(|block| block.first_chunk_mut::<24>())
    else {
        return;
    };
    let (words, _) = place.as_chunks::<8>();
    let (previous, next) = (u64::from_le_bytes(words[1]), u64::from_le_bytes(words[2]));
    let (previous, next) = match draws.below(3) {
        0 => (draws.number(previous), next),
        1 => (previous, draws.number(next)),
        _ => (draws.number(previous), draws.number(next)),
    };
    *place = BlockHeader { previous, next }.to_bytes();
}

/// Puts another number into a field of the chunk header that begins at a place, mostly with a right hash.
fn change_header(
    alloc: Global,
    file: &mut [u8],
    begin: usize,
    draws: &mut Draws,
) -> Result<(), AllocError> {
    let places = places_from(alloc, file.len(), begin, HEADER_SIZE)?;
    let (from, size) = FIELDS
        .get(draws.below(FIELDS.len()))
        .copied()
        .unwrap_or((8, 8));
    let field = places
        .get(from..)
        .and_then(|rest| rest.get(..size))
        .unwrap_or(&[]);
    let old = number_at(file, field);
    put_at(file, field, &draws.number(old).to_le_bytes());
    if draws.below(8) > 0 {
        let _whole = rehash(alloc, file, begin)?;
    }
    Ok(())
}

/// The number at these places, its lowest byte at the first one.
fn number_at(file: &[u8], places: &[usize]) -> u64 {
    let mut number = 0_u64;
    for at in places.iter().rev() {
        number = number << 8 | u64::from(file.get(*at).copied().unwrap_or(0));
    }
    number
}

/// Changes bytes of the data of the chunk that begins at a place, and gives it right hashes.
fn change_data(
    alloc: Global,
    file: &mut [u8],
    begin: usize,
    draws: &mut Draws,
) -> Result<(), AllocError> {
    let places = places_from(alloc, file.len(), begin, HEADER_SIZE + MOST_DATA)?;
    let Some((header, rest)) = places.split_first_chunk::<HEADER_SIZE>() else {
        return Ok(());
    };
    let size = number_at(file, &header[8..16]) as usize;
    let Some(data) = rest.get(..size) else {
        return Ok(());
    };
    let hash = change_bytes(alloc, file, data, draws)?;
    put_at(file, &header[16..24], &hash.to_le_bytes());
    let _whole = rehash(alloc, file, begin)?;
    Ok(())
}

/// Changes some of the bytes at these places of a file. The hash of all of them then.
fn change_bytes(
    alloc: Global,
    file: &mut [u8],
    places: &[usize],
    draws: &mut Draws,
) -> Result<u64, AllocError> {
    let mut bytes = bytes_at(alloc, file, places)?;
    for _ in 0..=draws.below(3) {
        change_byte(&mut bytes, draws);
    }
    put_at(file, places, &bytes);
    Ok(hash_lanes(&RIEGELI, &bytes))
}
