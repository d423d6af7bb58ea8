ghost use Rattle.std.specs.Prelude.{◌≡◌, ◌↔◌, ◌≤◌, [], ◌++◌, length, slice_range, IsTrue, IfOk, OnOk, OnErr};
ghost use Rattle.record_values.specs.Bytes.{AreBytes};
ghost use Rattle.record_values.specs.Held.{bytes_of};

use std::alloc::{AllocError, Global};
use std::marker::Model;
use std::ops::Range;

/// Fewer bytes than these aren't shared. Own.
const LEAST_SHARED: usize = 4096;

/// A growing list of bytes, which contracts see as that list. They lie in memory of their own, or share it with the
/// bytes that they are a part of.
#[derive(Debug, Drop)]
pub struct Bytes {
    held: Held,
}

/// Where bytes lie.
#[derive(Debug)]
enum Held {
    /// In a vector, which can grow.
    Own(Vec<u8>),
    /// In memory that others may read as well, and nobody writes. The allocator is for bytes that grow from these.
    Shared(bytes::Bytes, Global),
}

impl Held {
    /// The same bytes, shared where they are many.
    fn share(self) -> Result<Held, AllocError>
        ensures { IfOk result (λ shared. bytes_of shared ≡ bytes_of self) }
    {
        let bytes = match self {
            Held::Own(bytes) => bytes,
            Held::Shared(bytes, alloc) => return Ok(Held::Shared(bytes, alloc)),
        };
        if bytes.len() < LEAST_SHARED {
            return Ok(Held::Own(bytes));
        }
        let alloc = *bytes.allocator();
        Ok(Held::Shared(bytes::Bytes::from_vec(bytes)?, alloc))
    }
}

impl Drop for Held {
    fn drop(self) {
        match self {
            Held::Own(bytes) => drop(bytes),
            Held::Shared(bytes, _) => drop(bytes),
        }
    }
}

impl Model for Bytes {
    ghost use Rattle.std.specs.Prelude.{List, ℕ};
    ghost use Rattle.record_values.specs.Bytes.{AreBytes};
    ghost use Rattle.record_values.specs.Held.{bytes_of};

    ghost Value = { List ℕ };

    ghost view = { λ b. bytes_of b.held };

    ghost invariant = { λ b. AreBytes (bytes_of b.held) };
}

impl Bytes {
    /// No bytes. It takes no memory.
    pub fn new(alloc: Global) -> Bytes
        ensures { result ≡ [] }
    {
        Bytes::from(Vec::new(alloc))
    }

    /// Appends the piece. Bytes that are shared are copied first. After want of memory the bytes are as before.
    pub fn push_all(&mut self, piece: &[u8]) -> Result<(), AllocError>
        ensures appends { OnOk result (self.new ≡ self.old ++ piece.now) }
        ensures kept { OnErr result (self.new ≡ self.old) }
    {
        match &mut self.held {
            Held::Own(bytes) => bytes.extend_from_slice(piece)?,
            Held::Shared(bytes, alloc) => {
                let mut own = bytes.as_slice().to_vec(*alloc)?;
                own.extend_from_slice(piece)?;
                self.held = Held::Own(own);
            }
        }
        Ok(())
    }

    /// Takes room for so many more bytes, unless the bytes are shared.
    pub fn reserve(&mut self, additional: usize) -> Result<(), AllocError>
        ensures { self.new ≡ self.old }
    {
        match &mut self.held {
            Held::Own(bytes) => bytes.reserve(additional),
            Held::Shared(..) => Ok(()),
        }
    }

    /// The same bytes, which share their memory with each part that is taken of them, unless they are so few that to copy
    /// parts costs less. None is copied here.
    pub fn share(self) -> Result<Bytes, AllocError>
        ensures { IfOk result (λ shared. shared ≡ self) }
    {
        let held = self.held.share()?;
        Ok(Bytes { held })
    }

    /// The bytes of a range. Where these are shared, their memory is shared with the part, and else the part is copied.
    pub fn part(&self, range: Range<usize>) -> Result<Bytes, AllocError>
        requires ordered { range.start ≤ range.end }
        requires within { range.end ≤ length self.now }
        ensures { IfOk result (λ part. part ≡ slice_range self.now range.start range.end) }
    {
        let held = match &self.held {
            Held::Own(bytes) => Held::Own(bytes[range].to_vec(*bytes.allocator())?),
            Held::Shared(bytes, alloc) => Held::Shared(bytes.slice(range)?, *alloc),
        };
        Ok(Bytes { held })
    }

    /// The bytes.
    pub fn as_slice(&self) -> &[u8]
        ensures value { result.now ≡ self.now }
        ensures are_bytes { AreBytes self.now }
    {
        match &self.held {
            Held::Own(bytes) => bytes.as_slice(),
            Held::Shared(bytes, _) => bytes.as_slice(),
        }
    }

    /// How many bytes there are.
    pub fn len(&self) -> usize
        ensures { result ≡ length self.now }
    {
        self.as_slice().len()
    }

    /// For how many bytes there is memory, those that there are among them.
    pub fn room(&self) -> usize
        ensures { length self.now ≤ result }
    {
        match &self.held {
            Held::Own(bytes) => bytes.capacity(),
            Held::Shared(bytes, _) => bytes.len(),
        }
    }

    /// Whether there are no bytes.
    pub fn is_empty(&self) -> bool
        ensures { IsTrue result ↔ (self.now ≡ []) }
    {
        self.len() == 0
    }

    /// Forgets the bytes, and keeps their room unless it is shared.
    pub fn clear(&mut self)
        ensures { self.new ≡ [] }
    {
        match &mut self.held {
            Held::Own(bytes) => bytes.clear(),
            Held::Shared(_, alloc) => self.held = Held::Own(Vec::new(*alloc)),
        }
    }
}

impl From<Vec<u8>> for Bytes {
    ghost from_gives = { λ bytes made. made ≡ bytes.items };

    /// The bytes of a vector. It takes no memory.
    fn from(bytes: Vec<u8>) -> Bytes {
        Bytes {
            held: Held::Own(bytes),
        }
    }
}
