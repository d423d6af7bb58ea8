//! Bytes as a statement says them.

use crate::chunks::{header_of, kind_of};
use crate::names::Known;
use crate::texts::unescaped;
use crate::words::{number_of, range_of, refused};
use anyhow::{Result, bail};
use block_layout::BlockHeader;
use std::alloc::{AllocError, Global};

/// The bytes of these words, of which there are some.
pub fn bytes_of(alloc: Global, known: &Known, words: &[String]) -> Result<Vec<u8>> {
    if words.is_empty() {
        bail!("no bytes");
    }
    let mut bytes = Vec::new(alloc);
    for word in words {
        add_word(alloc, known, &mut bytes, word.as_str())?;
    }
    Ok(bytes)
}

/// Adds the bytes of a word, as often as it says.
fn add_word(alloc: Global, known: &Known, bytes: &mut Vec<u8>, word: &str) -> Result<()> {
    let (said, times) = split_times(word)?;
    let times = times_of(times)?;
    Ok(add_times(bytes, &said_once(alloc, known, said)?, times)?)
}

/// What a word says and how often: a text without its closing quote, and what stands behind that.
fn split_times(word: &str) -> Result<(&str, &str)> {
    if !word.starts_with('"') {
        let end = word.find('*').unwrap_or(word.len());
        return Ok(word.split_at_checked(end).unwrap_or((word, "")));
    }
    match word.rsplit_once('"') {
        Some((text, times)) if !text.is_empty() => Ok((text, times)),
        _ => bail!("a text without an end"),
    }
}

/// Once, or as often as `*N` says.
fn times_of(times: &str) -> Result<usize> {
    match times.strip_prefix('*') {
        Some(digits) => number_of(digits),
        None if times.is_empty() => Ok(1),
        None => bail!("a text goes on behind its end"),
    }
}

/// The bytes of a word, whose text has no closing quote.
fn said_once(alloc: Global, known: &Known, said: &str) -> Result<Vec<u8>> {
    if let Some(text) = said.strip_prefix('"') {
        unescaped(alloc, text)
    } else if let Some(digits) = said.strip_prefix("0x") {
        digits_of(alloc, digits)
    } else if let Some((name, arguments)) = said.split_once('(') {
        made_of(alloc, name, arguments)
    } else {
        Ok(part_of(known, said)?.to_vec(alloc)?)
    }
}

/// Adds bytes so many times.
fn add_times(bytes: &mut Vec<u8>, more: &[u8], times: usize) -> Result<(), AllocError> {
    if let [byte] = more {
        return bytes.resize(bytes.len().saturating_add(times), *byte);
    }
    for _ in 0..times {
        bytes.extend_from_slice(more)?;
    }
    Ok(())
}

/// The bytes of a name, or the part of them that `[A..B]` says.
fn part_of<'a>(known: &'a Known, word: &str) -> Result<&'a [u8]> {
    let Some((name, range)) = word.split_once('[') else {
        return known.bytes(word);
    };
    let range = range_of(range.strip_suffix(']').unwrap_or(""))?;
    match known.bytes(name)?.get(range) {
        Some(part) => Ok(part),
        None => bail!("past the bytes of {name}"),
    }
}

/// The bytes of hexadecimal digits.
fn digits_of(alloc: Global, digits: &str) -> Result<Vec<u8>> {
    match hex::decode(alloc, digits) {
        Ok(bytes) => Ok(bytes),
        Err(_) => bail!("no hexadecimal digits of whole bytes"),
    }
}

/// The bytes of a name before a bracket, and of the arguments in it.
fn made_of(alloc: Global, name: &str, arguments: &str) -> Result<Vec<u8>> {
    let Some(arguments) = arguments.strip_suffix(')') else {
        return Err(refused("no closing bracket", name));
    };
    match name {
        "le64" => le64(alloc, arguments),
        "block" => block(alloc, arguments),
        "header" => header(alloc, arguments),
        "lines" => lines(alloc, arguments),
        "random" => random(alloc, arguments),
        _ => bail!("no such bytes: {name}(..)"),
    }
}

/// So many numbers with commas between them.
fn numbers<const N: usize>(text: &str) -> Result<[usize; N]> {
    let mut numbers = [0; N];
    let mut words = text.split(',');
    for number in &mut numbers {
        *number = number_of(words.next().unwrap_or(""))?;
    }
    if words.next().is_some() {
        return Err(refused("too many arguments", text));
    }
    Ok(numbers)
}

/// A number of eight bytes, the lowest first.
fn le64(alloc: Global, arguments: &str) -> Result<Vec<u8>> {
    let number = number_of(arguments)? as u64;
    Ok(number.to_le_bytes().to_vec(alloc)?)
}

/// A block header with its right hash.
fn block(alloc: Global, arguments: &str) -> Result<Vec<u8>> {
    let [previous, next] = numbers::<2>(arguments)?;
    let (previous, next) = (previous as u64, next as u64);
    Ok(BlockHeader { previous, next }.to_bytes().to_vec(alloc)?)
}

/// A chunk header with its right hash.
fn header(alloc: Global, arguments: &str) -> Result<Vec<u8>> {
    let (kind, arguments) = arguments.split_once(',').unwrap_or((arguments, ""));
    let [records, decoded, size] = numbers::<3>(arguments)?;
    let header = header_of(kind_of(alloc, kind)?, records, decoded, size, 0)?;
    Ok(header.to_bytes().to_vec(alloc)?)
}

/// A line for each number from one on below another one, of which there are some.
fn lines(alloc: Global, arguments: &str) -> Result<Vec<u8>> {
    let [from, to] = numbers::<2>(arguments)?;
    if from >= to {
        return Err(refused("an empty range", arguments));
    }
    let mut lines = String::new(alloc);
    for number in from..to {
        writeln!(lines, "{number}")?;
    }
    Ok(lines.into_bytes())
}

/// So many bytes of a generator of numbers.
fn random(alloc: Global, arguments: &str) -> Result<Vec<u8>> {
    let [seed, count] = numbers::<2>(arguments)?;
    let mut bytes = Vec::new(alloc);
    let mut state = seed as u64;
    for _ in 0..count {
        state = state
            .wrapping_mul(6_364_136_223_846_793_005)
            .wrapping_add(1_442_695_040_888_963_407);
        bytes.push(state.to_be_bytes()[0])?;
    }
    Ok(bytes)
}
