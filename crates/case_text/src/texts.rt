//! Texts in quotes.

use anyhow::{Result, bail};
use std::alloc::Global;

/// The bytes of a word, without its quotes where it has them.
pub fn plain(alloc: Global, word: &str) -> Result<Vec<u8>> {
    let Some(quoted) = word.strip_prefix('"') else {
        return Ok(word.as_bytes().to_vec(alloc)?);
    };
    match quoted.strip_suffix('"') {
        Some(text) => unescaped(alloc, text),
        None => bail!("a text without an end"),
    }
}

/// The words of a command, without their quotes.
pub fn command_of(alloc: Global, words: &[String]) -> Result<Vec<String>> {
    let mut command = Vec::new(alloc);
    for word in words {
        match String::from_utf8(plain(alloc, word.as_str())?) {
            Ok(word) => command.push(word)?,
            Err(_) => bail!("a word that is no text"),
        }
    }
    Ok(command)
}

/// The bytes of what stands between quotes.
pub fn unescaped(alloc: Global, text: &str) -> Result<Vec<u8>> {
    let mut bytes = Vec::new(alloc);
    let mut rest = text.as_bytes();
    for _ in 0..text.len() {
        let Some((byte, after)) = first_byte(rest)? else {
            break;
        };
        bytes.push(byte)?;
        rest = after;
    }
    Ok(bytes)
}

/// The first byte that a text says and what follows it, if it isn't empty.
fn first_byte(text: &[u8]) -> Result<Option<(u8, &[u8])>> {
    match text {
        [] => Ok(None),
        [b'"', ..] => bail!("a text goes on behind its end"),
        [b'\\', rest @ ..] => Ok(Some(escaped(rest)?)),
        [byte, rest @ ..] => Ok(Some((*byte, rest))),
    }
}

/// The byte that stands behind a backslash, and what follows.
fn escaped(text: &[u8]) -> Result<(u8, &[u8])> {
    let [first, rest @ ..] = text else {
        bail!("nothing behind a backslash");
    };
    let byte = match *first {
        b'n' => b'\n',
        b'r' => b'\r',
        b'0' => 0,
        b'\\' | b'"' => *first,
        b'x' => return byte_of_digits(rest),
        _ => bail!("nothing known behind a backslash"),
    };
    Ok((byte, rest))
}

/// The byte of two hexadecimal digits, and what follows.
fn byte_of_digits(text: &[u8]) -> Result<(u8, &[u8])> {
    match text {
        [high, low, rest @ ..] => Ok((digit(*high)? << 4 | digit(*low)?, rest)),
        _ => bail!("not two hexadecimal digits"),
    }
}

/// The value of a hexadecimal digit.
fn digit(byte: u8) -> Result<u8> {
    match (byte as char).to_digit(16) {
        Some(digit) => Ok(digit as u8),
        None => bail!("no hexadecimal digit"),
    }
}
