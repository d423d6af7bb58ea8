//! A file that shows no bytes.
ghost use Rattle.std.specs.Prelude.{None};

use record_io::{Device, Failed, Store};

/// A file of these bytes and of zero bytes behind them up to its size, which shows none of its bytes.
#[derive(Drop)]
pub(crate) struct Untold<'a> {
    bytes: &'a [u8],
    size: u64,
    asked: bool,
    handed: u64,
}

impl<'a> Untold<'a> {
    /// The file, whose size wasn't asked yet.
    pub(crate) fn new(bytes: &'a [u8], size: u64) -> Untold<'a> {
        Untold {
            bytes,
            size,
            asked: false,
            handed: 0,
        }
    }

    /// How many bytes were handed out.
    pub(crate) fn handed(&self) -> u64 {
        self.handed
    }
}

impl Store for Untold<'_> {
    ghost use Rattle.scripted_io.specs.Memory.{told_if};

    ghost bytes = { λ _. None };

    ghost told = { λ s. told_if s.asked s.size };

    ghost handed = { λ s. s.handed };

    ghost faults = { λ _. 0 };

    ghost sized = { λ _. tt };

    fn size(&mut self) -> Result<u64, Failed> {
        self.asked = true;
        Ok(self.size)
    }

    fn read_at(&mut self, at: u64, buf: &mut [u8]) -> Result<usize, Failed> {
        if !self.asked {
            unreachable!();
        }
        let count = buf.len().min((self.size - at) as usize);
        let rest = self.bytes.get(at as usize..).unwrap_or(b"");
        let held = rest.len().min(count);
        buf[..held].copy_from_slice(&rest[..held]);
        buf[held..count].fill(0);
        self.handed = self.handed.saturating_add(count as u64);
        Ok(count)
    }
}

/// What is put behind its bytes is forgotten.
impl Device for Untold<'_> {
    fn cut(&mut self, at: u64) -> Result<(), Failed> {
        self.asked = false;
        self.size = at;
        Ok(())
    }

    fn put(&mut self, piece: &[u8]) -> Result<usize, Failed> {
        self.asked = false;
        self.size = self.size.saturating_add(piece.len() as u64);
        Ok(piece.len())
    }
}
