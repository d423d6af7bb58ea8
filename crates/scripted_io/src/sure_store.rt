ghost use Rattle.std.specs.Prelude.{◌≡◌, ◌-◌, ◌<◌, true, [], length, min, Some, IsOk, IfOk};
ghost use Rattle.record_io.specs.Seen.{TellsSize, ReadsPiece};
ghost use Rattle.scripted_io.specs.Memory.{HasByteAt, HasCalledFile, cut_to, new_file, sure_file_seen, told_if};

use crate::mem_store::MemStore;
use record_io::{Failed, Store};
use std::marker::Model;

/// Bytes in memory as a store, whose calls are cut short as they are told to, and never fail.
///
/// Calls of `size` and of `read_at` are numbered together, from 0. Call i hands out at most `cuts[i % cuts.len()]`
/// bytes, where a cut of 0 counts as 1 and no cuts cut nothing.
#[derive(Debug, Drop)]
pub struct SureStore {
    store: MemStore,
}

impl Model for SureStore {
    ghost use Rattle.std.specs.Prelude.{◌≡◌, []};
    ghost use Rattle.scripted_io.specs.Memory.{File};

    ghost Value = { File };

    ghost view = { λ s. s.store };

    ghost invariant = { λ s. s.store.script.fails ≡ [] };
}

impl SureStore {
    /// All these bytes, whose number wasn't asked yet. It takes no memory.
    pub fn new(bytes: Vec<u8>, cuts: Vec<u32>) -> SureStore
        ensures { result ≡ new_file bytes.items 0 cuts.items [] }
    {
        let fails = Vec::new(*bytes.allocator());
        SureStore {
            store: MemStore::new(bytes, cuts, fails),
        }
    }
}

impl Store for SureStore {
    ghost use Rattle.scripted_io.specs.Memory.{told_if-sized};

    ghost bytes = { λ s. Some s.bytes };

    ghost told = { λ s. told_if s.asked (length s.bytes) };

    ghost handed = { λ s. s.handed };

    ghost faults = { λ _. 0 };

    ghost sized = { λ s. told_if-sized s.asked s.bytes };

    fn size(&mut self) -> Result<u64, Failed>
        ensures sure { IsOk result }
        ensures tells { TellsSize result (sure_file_seen self.old) (sure_file_seen self.new) }
        ensures asked { self.new.asked ≡ true }
        ensures called { HasCalledFile result self.old self.new }
    {
        self.store.size()
    }

    fn read_at(&mut self, at: u64, buf: &mut [u8]) -> Result<usize, Failed>
        requires below { HasByteAt self.old at }
        requires room { 0 < length buf.old }
        ensures sure { IsOk result }
        ensures reads { ReadsPiece result at (length buf.old) buf.new (sure_file_seen self.old) (sure_file_seen self.new) }
        ensures cut { IfOk result (λ n. n ≡ cut_to self.old.script.cuts self.old.script.number (min (length buf.old) (length self.old.bytes - at))) }
        ensures called { HasCalledFile result self.old self.new }
    {
        self.store.read_at(at, buf)
    }
}
