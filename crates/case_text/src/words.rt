//! Statements, and the words and numbers that they are made of.

use anyhow::{Error, Result, anyhow, bail};
use std::alloc::{AllocError, Global};
use std::ops::Range;

/// The words of a line and of the indented lines below it, each as it is written: a text with its quotes.
#[derive(Drop)]
pub struct Statement {
    /// The line that it begins in, from 1.
    pub line: u64,
    /// Its words, of which there are some.
    pub words: Vec<String>,
}

impl Statement {
    /// Its first word, which says what it is.
    pub fn kind(&self) -> &str {
        match self.words.first() {
            Some(word) => word.as_str(),
            None => "",
        }
    }

    /// The words behind the first one.
    pub fn rest(&self) -> &[String] {
        self.words.get(1..).unwrap_or(&[])
    }

    /// The statement with this number in place of each `{}`.
    fn filled(&self, alloc: Global, number: &str) -> Result<Statement, AllocError> {
        let mut words = Vec::new(alloc);
        for word in &self.words {
            words.push(word.as_str().replace(alloc, "{}", number)?)?;
        }
        Ok(Statement {
            line: self.line,
            words,
        })
    }
}

/// The statements with this number in place of each `{}`.
pub fn filled(alloc: Global, statements: &[Statement], number: usize) -> Result<Vec<Statement>> {
    let number = format!(in alloc; "{number}")?;
    Ok(filled_with(alloc, statements, number.as_str())?)
}

/// The same with a number that is written out.
fn filled_with(
    alloc: Global,
    statements: &[Statement],
    number: &str,
) -> Result<Vec<Statement>, AllocError> {
    let mut filled = Vec::new(alloc);
    for statement in statements {
        filled.push(statement.filled(alloc, number)?)?;
    }
    Ok(filled)
}

/// The statements of a text. A line without a word is no part of any.
pub fn statements_of(alloc: Global, text: &str) -> Result<Vec<Statement>> {
    let mut statements = Vec::new(alloc);
    let mut number = 0_u64;
    for line in text.split('\n') {
        number = number.saturating_add(1);
        take_line(alloc, &mut statements, number, line)?;
    }
    Ok(statements)
}

/// Takes in a line: a statement, or more words of the last one.
fn take_line(alloc: Global, statements: &mut Vec<Statement>, line: u64, text: &str) -> Result<()> {
    if first_word(text).is_none() {
        return Ok(());
    }
    if !text.starts_with(' ') {
        let words = Vec::new(alloc);
        statements.push(Statement { line, words })?;
    }
    match statements.last_mut() {
        Some(statement) => Ok(add_words(alloc, &mut statement.words, text)?),
        None => bail!("line {line}: no statement stands above it"),
    }
}

/// Adds the words of a line up to a comment.
fn add_words(alloc: Global, words: &mut Vec<String>, line: &str) -> Result<(), AllocError> {
    let mut rest = line;
    for _ in 0..line.len() {
        let Some((word, after)) = first_word(rest) else {
            break;
        };
        words.push(String::from_str(alloc, word)?)?;
        rest = after;
    }
    Ok(())
}

/// The first word of a text and what follows it, unless a comment comes first.
fn first_word(text: &str) -> Option<(&str, &str)> {
    let text = text.trim_start_matches(' ');
    if text.is_empty() || text.starts_with('#') {
        return None;
    }
    text.split_at_checked(end_of_word(text))
}

/// Where the word ends that a text begins with: at its first blank, or at the first one behind its quotes.
fn end_of_word(text: &str) -> usize {
    let (mut quoted, mut escaped) = (false, false);
    for (place, byte) in text.bytes().enumerate() {
        if escaped {
            escaped = false;
        } else if byte == b'"' && (quoted || place == 0) {
            quoted = !quoted;
        } else if quoted {
            escaped = byte == b'\\';
        } else if byte == b' ' {
            return place;
        }
    }
    text.len()
}

/// Why a word can't be taken in.
pub fn refused(what: &str, word: &str) -> Error {
    anyhow!("{what}: {word}")
}

/// Why something can't be done with a file of this size.
pub(crate) fn refused_size(what: &str, size: usize) -> Error {
    anyhow!("{what}: {size}")
}

/// The decimal number of these digits.
pub fn number_of(digits: &str) -> Result<usize> {
    match digits.parse() {
        Ok(number) => Ok(number),
        Err(_) => Err(refused("no number", digits)),
    }
}

/// The same, where it has 32 bits.
pub fn count_of(digits: &str) -> Result<u32> {
    match digits.parse() {
        Ok(number) => Ok(number),
        Err(_) => Err(refused("no number of 32 bits", digits)),
    }
}

/// The one number that the words are.
pub fn one_number(words: &[String]) -> Result<usize> {
    match words {
        [word] => number_of(word.as_str()),
        _ => bail!("not one number"),
    }
}

/// The numbers of `A..B`, of which there are some.
pub fn range_of(text: &str) -> Result<Range<usize>> {
    let Some((from, to)) = text.split_once("..") else {
        return Err(refused("no range", text));
    };
    let (from, to) = (number_of(from)?, number_of(to)?);
    if from >= to {
        return Err(refused("an empty range", text));
    }
    Ok(from..to)
}
