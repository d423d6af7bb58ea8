//! What a run left, and how it is told.

use crate::given::Object;
use std::alloc::{AllocError, Global};

/// What a run left.
#[derive(Drop)]
pub struct Left {
    pub status: u8,
    /// The bytes that these objects took.
    pub made: Vec<u8>,
    pub out: Vec<u8>,
    pub notes: Vec<u8>,
    /// The bytes that the grown file had and then has, which are none where it shows none.
    pub old: Vec<u8>,
    pub grown: Vec<u8>,
    /// How many bytes the last file handed out, where it shows none of its bytes.
    pub handed: u64,
}

impl Left {
    /// The bytes that the object took, or that it has where it is grown.
    pub fn taken(&self, object: Object) -> &[u8] {
        match object {
            Object::Made => &self.made,
            Object::Grown => &self.grown,
            Object::Out => &self.out,
            Object::Notes => &self.notes,
            Object::Input | Object::File => b"",
        }
    }

    /// The same where nothing is done with the object.
    pub fn before(&self, object: Object) -> &[u8] {
        match object {
            Object::Grown => &self.old,
            _ => b"",
        }
    }

    /// Tells the status.
    pub fn tell_status(&self, told: &mut String) -> Result<(), AllocError> {
        write!(told, "\n  status {}", self.status)
    }

    /// Tells what an object took: how many bytes, and the first 200.
    pub fn tell_taken(
        &self,
        alloc: Global,
        told: &mut String,
        object: Object,
    ) -> Result<(), AllocError> {
        let taken = self.taken(object);
        write!(told, "\n  {} {}: ", object.name(), taken.len())?;
        tell_bytes(alloc, told, taken.get(..200).unwrap_or(taken))
    }
}

/// Tells bytes: a text in quotes, or others by their digits.
fn tell_bytes(alloc: Global, told: &mut String, bytes: &[u8]) -> Result<(), AllocError> {
    match str::from_utf8(bytes) {
        Ok(text) => write!(told, "{text:?}"),
        Err(_) => {
            let digits = hex::encode(alloc, bytes)?;
            write!(told, "0x{digits}")
        }
    }
}
