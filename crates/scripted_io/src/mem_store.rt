ghost use Rattle.std.specs.Prelude.{◌≡◌, ◌-◌, ◌<◌, true, length, min, Some, IfOk, OnOk};
ghost use Rattle.record_io.specs.Seen.{TellsSize, ReadsPiece};
ghost use Rattle.scripted_io.specs.Memory.{HasByteAt, HasCalledFile, cut_to, file_seen, new_file, told_if};

use crate::mem_device::MemDevice;
use record_io::{Failed, Store};
use std::marker::Model;

/// Bytes in memory as a store, whose calls are cut short and fail as they are told to.
///
/// Calls of `size` and of `read_at` are numbered together, from 0. Call i hands out at most `cuts[i % cuts.len()]`
/// bytes, where a cut of 0 counts as 1 and no cuts cut nothing, and it fails if `fails` lists it, and not otherwise.
#[derive(Debug, Drop)]
pub struct MemStore {
    held: MemDevice,
}

impl Model for MemStore {
    ghost use Rattle.scripted_io.specs.Memory.{File};

    ghost Value = { File };

    ghost view = { λ s. s.held };
}

impl MemStore {
    /// All these bytes, whose number wasn't asked yet. It takes no memory.
    pub fn new(bytes: Vec<u8>, cuts: Vec<u32>, fails: Vec<u32>) -> MemStore
        ensures { result ≡ new_file bytes.items 0 cuts.items fails.items }
    {
        MemStore {
            held: MemDevice::full(bytes, cuts, fails),
        }
    }
}

impl Store for MemStore {
    ghost use Rattle.scripted_io.specs.Memory.{told_if-sized};

    ghost bytes = { λ s. Some s.bytes };

    ghost told = { λ s. told_if s.asked (length s.bytes) };

    ghost handed = { λ s. s.handed };

    ghost faults = { λ s. s.script.faults };

    ghost sized = { λ s. told_if-sized s.asked s.bytes };

    fn size(&mut self) -> Result<u64, Failed>
        ensures tells { TellsSize result (file_seen self.old) (file_seen self.new) }
        ensures asked { OnOk result (self.new.asked ≡ true) }
        ensures called { HasCalledFile result self.old self.new }
    {
        self.held.size()
    }

    fn read_at(&mut self, at: u64, buf: &mut [u8]) -> Result<usize, Failed>
        requires below { HasByteAt self.old at }
        requires room { 0 < length buf.old }
        ensures reads { ReadsPiece result at (length buf.old) buf.new (file_seen self.old) (file_seen self.new) }
        ensures cut { IfOk result (λ n. n ≡ cut_to self.old.script.cuts self.old.script.number (min (length buf.old) (length self.old.bytes - at))) }
        ensures called { HasCalledFile result self.old self.new }
    {
        self.held.read_at(at, buf)
    }
}
