//! What is said of the bytes that an object took.

use crate::words::{number_of, refused};
use anyhow::Result;
use highway_hash::{RIEGELI, hash_lanes};
use std::alloc::Global;

/// What is said of the bytes that an object took.
#[derive(Drop)]
pub enum Fact {
    /// They are these.
    All(Vec<u8>),
    /// They are so many.
    Size(usize),
    /// These stand at this place.
    At(usize, Vec<u8>),
    /// This is their hash under the key of files.
    Hash(u64),
    /// They may be any, and get this name.
    Named(String),
}

impl Fact {
    /// Whether it is so of these bytes.
    pub fn holds(&self, taken: &[u8]) -> bool {
        match self {
            Fact::All(bytes) => taken == bytes.as_slice(),
            Fact::Size(size) => taken.len() == *size,
            Fact::At(place, bytes) => match taken.get(*place..) {
                Some(rest) => rest.starts_with(bytes),
                None => false,
            },
            Fact::Hash(hash) => hash_lanes(&RIEGELI, taken) == *hash,
            Fact::Named(_) => true,
        }
    }
}

/// The fact that words say, if they say no bytes.
pub fn fact_without_bytes(alloc: Global, words: &[String]) -> Result<Option<Fact>> {
    let [first, word] = words else {
        return Ok(None);
    };
    let word = word.as_str();
    match first.as_str() {
        "as" => Ok(Some(Fact::Named(String::from_str(alloc, word)?))),
        "size" => Ok(Some(Fact::Size(number_of(word)?))),
        "hash" => Ok(Some(Fact::Hash(hash_of(word)?))),
        _ => Ok(None),
    }
}

/// The number of `0xHH..`.
fn hash_of(word: &str) -> Result<u64> {
    let digits = word.strip_prefix("0x").unwrap_or("");
    match u64::from_str_radix(digits, 16) {
        Ok(hash) => Ok(hash),
        Err(_) => Err(refused("no hash", word)),
    }
}
