//! What a case is carried out for.

use crate::given::Object;
use crate::words::{count_of, range_of};
use anyhow::{Error, Result, anyhow, bail};
use std::alloc::Global;
use std::ops::Range;

/// What a case is carried out for.
#[derive(Drop)]
pub struct Each {
    /// Each of these numbers, if any.
    pub numbers: Option<Range<usize>>,
    /// Each of these ways to cut calls, if any.
    pub ways: Vec<Vec<u32>>,
    /// Each call of each of these objects failing.
    pub failing: Vec<Object>,
}

impl Each {
    /// Once, with no call that is cut or fails.
    pub fn new(alloc: Global) -> Each {
        Each {
            numbers: None,
            ways: Vec::new(alloc),
            failing: Vec::new(alloc),
        }
    }

    /// Takes in the words behind `each`.
    pub fn take(&mut self, alloc: Global, words: &[String]) -> Result<()> {
        let Some((first, rest)) = words.split_first() else {
            return Err(each_of_what());
        };
        match first.as_str() {
            "cuts" if self.ways.is_empty() => add_ways(alloc, &mut self.ways, rest),
            "fails" if self.failing.is_empty() => add_objects(&mut self.failing, rest),
            range if self.numbers.is_none() && rest.is_empty() => self.take_range(range),
            _ => Err(each_of_what()),
        }
    }

    /// Takes in the numbers of `A..B`.
    fn take_range(&mut self, range: &str) -> Result<()> {
        self.numbers = Some(range_of(range)?);
        Ok(())
    }
}

/// Why such words don't follow `each`.
fn each_of_what() -> Error {
    anyhow!("each of what? or that twice")
}

/// Adds the groups of numbers that a `/` begins, of which there are some.
fn add_ways(alloc: Global, ways: &mut Vec<Vec<u32>>, words: &[String]) -> Result<()> {
    if words.is_empty() {
        bail!("no group");
    }
    for word in words {
        add_way(alloc, ways, word.as_str())?;
    }
    Ok(())
}

/// Begins a group, or adds a number to the last one.
fn add_way(alloc: Global, ways: &mut Vec<Vec<u32>>, word: &str) -> Result<()> {
    if word == "/" {
        return Ok(ways.push(Vec::new(alloc))?);
    }
    match ways.last_mut() {
        Some(way) => Ok(way.push(count_of(word)?)?),
        None => bail!("a number before a group"),
    }
}

/// Adds the objects that these words name, of which there are some.
fn add_objects(objects: &mut Vec<Object>, words: &[String]) -> Result<()> {
    if words.is_empty() {
        bail!("no object");
    }
    for word in words {
        objects.push(Object::named(word.as_str())?)?;
    }
    Ok(())
}
