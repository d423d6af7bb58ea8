//! Names of bytes.

use crate::words::refused;
use anyhow::Result;
use std::alloc::{AllocError, Global};

/// Bytes with a name.
#[derive(Drop)]
struct Named {
    name: String,
    bytes: Vec<u8>,
}

/// All bytes that have a name.
#[derive(Drop)]
pub struct Known {
    names: Vec<Named>,
}

impl Known {
    /// No name.
    pub fn new(alloc: Global) -> Known {
        Known {
            names: Vec::new(alloc),
        }
    }

    /// How many names there are.
    pub fn count(&self) -> usize {
        self.names.len()
    }

    /// Forgets all names but so many of the oldest.
    pub fn forget(&mut self, count: usize) {
        self.names.truncate(count);
    }

    /// Gives bytes a name. Older bytes of this name are hidden.
    pub fn add(&mut self, alloc: Global, name: &str, bytes: Vec<u8>) -> Result<(), AllocError> {
        let name = String::from_str(alloc, name)?;
        self.names.push(Named { name, bytes })?;
        Ok(())
    }

    /// The bytes of this name.
    pub fn bytes(&self, name: &str) -> Result<&[u8]> {
        match self.named(name) {
            Some(named) => Ok(named.bytes.as_slice()),
            None => Err(refused("no such name", name)),
        }
    }

    /// The youngest bytes of this name, if there are some.
    fn named(&self, name: &str) -> Option<&Named> {
        self.names.iter().rfind(|named| named.name.as_str() == name)
    }
}
