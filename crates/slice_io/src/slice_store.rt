ghost use Rattle.std.specs.Prelude.{◌≡◌, length, Some};

use record_io::{Failed, Store};

/// Bytes that are lent, as a store, which tells their number from the first. It never fails, and
/// takes no memory.
#[derive(Drop)]
pub struct SliceStore<'a> {
    bytes: &'a [u8],
    handed: u64,
}

impl<'a> SliceStore<'a> {
    /// These bytes.
    pub fn new(bytes: &'a [u8]) -> SliceStore<'a>
        ensures bytes { ⟦<SliceStore<'a> as Store>⟧.bytes result ≡ Some bytes.now }
        ensures told { ⟦<SliceStore<'a> as Store>⟧.told result ≡ Some (length bytes.now) }
        ensures faults { ⟦<SliceStore<'a> as Store>⟧.faults result ≡ 0 }
        ensures handed { ⟦<SliceStore<'a> as Store>⟧.handed result ≡ 0 }
    {
        SliceStore { bytes, handed: 0 }
    }
}

impl<'a> Store for SliceStore<'a> {
    ghost use Rattle.std.specs.Prelude.{refl};

    ghost bytes = { λ s. Some s.bytes.now };

    ghost told = { λ s. Some (length s.bytes.now) };

    ghost handed = { λ s. s.handed };

    ghost faults = { λ _. 0 };

    ghost sized = { λ _. refl };

    fn size(&mut self) -> Result<u64, Failed> {
        Ok(self.bytes.len() as u64)
    }

    fn read_at(&mut self, at: u64, buf: &mut [u8]) -> Result<usize, Failed> {
        let rest = &self.bytes[at as usize..];
        let count = rest.len().min(buf.len());
        buf[..count].copy_from_slice(&rest[..count]);
        self.handed = self.handed.saturating_add(count as u64);
        Ok(count)
    }
}
