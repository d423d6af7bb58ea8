ghost use Rattle.std.specs.Prelude.{◌≡◌, ◌-◌, ◌<◌, ◌≤◌, ◌↔◌, ◌⊎◌, true, length, min, Contains, Some, IsErr, IfOk, OnOk};
ghost use Rattle.record_io.specs.Seen.{TellsSize, ReadsPiece, CutsAt, GrowsBy};
ghost use Rattle.scripted_io.specs.Memory.{HasByteAt, HasCalledFile, HasCounted, cut_to, file_seen, new_file, told_if};

use crate::script::Script;
use record_io::{Device, Failed, Store};
use std::alloc::{AllocError, Global};
use std::marker::Model;

/// Bytes in memory as a device, whose calls are cut short and fail as they are told to.
///
/// All calls are numbered together, from 0. Call i reads or puts at most `cuts[i % cuts.len()]` bytes, where a cut of 0
/// counts as 1 and no cuts cut nothing. It fails if `fails` lists it, or if it puts where no room is left, and not
/// otherwise. What is cut makes room again.
#[derive(Debug, Drop)]
pub struct MemDevice {
    bytes: Vec<u8>,
    asked: bool,
    handed: u64,
    most: usize,
    script: Script,
}

impl Model for MemDevice {
    ghost use Rattle.std.specs.Prelude.{◌≤◌, vec_len, vec_capacity};
    ghost use Rattle.scripted_io.specs.Memory.{File};

    ghost Value = { File };

    ghost view = { λ d. record { bytes = d.bytes.items; asked = d.asked; handed = d.handed; most = d.most; script = d.script } };

    ghost invariant = { λ d. (vec_len d.bytes ≤ d.most) × (d.most ≤ vec_capacity d.bytes) };
}

impl MemDevice {
    /// All these bytes, whose number wasn't asked yet, and room for so many more. It takes memory for both at once.
    ///
    /// # Errors
    ///
    /// `AllocError` only for want of memory, also where so many bytes are more than there are addresses.
    pub fn new(
        alloc: Global,
        bytes: Vec<u8>,
        room: usize,
        cuts: Vec<u32>,
        fails: Vec<u32>,
    ) -> Result<MemDevice, AllocError>
        ensures { IfOk result (λ device. device ≡ new_file bytes.items room cuts.items fails.items) }
    {
        let Some(most) = bytes.len().checked_add(room) else {
            return Err(AllocError);
        };
        let mut held = Vec::with_capacity(alloc, most)?;
        held.extend_from_slice(&bytes)?;
        Ok(MemDevice {
            bytes: held,
            asked: false,
            handed: 0,
            most,
            script: Script::new(cuts, fails),
        })
    }

    /// All these bytes, whose number wasn't asked yet, and no room for more. It takes no memory.
    pub(super) fn full(bytes: Vec<u8>, cuts: Vec<u32>, fails: Vec<u32>) -> MemDevice
        ensures { result ≡ new_file bytes.items 0 cuts.items fails.items }
    {
        MemDevice {
            most: bytes.len(),
            bytes,
            asked: false,
            handed: 0,
            script: Script::new(cuts, fails),
        }
    }

    /// The bytes that it holds, of which there are at most as many as there was room.
    pub fn bytes(&self) -> &[u8]
        ensures value { result.now ≡ self.now.bytes }
        ensures within { length self.now.bytes ≤ self.now.most }
    {
        self.bytes.as_slice()
    }
}

impl Store for MemDevice {
    ghost use Rattle.scripted_io.specs.Memory.{told_if-sized};

    ghost bytes = { λ d. Some d.bytes };

    ghost told = { λ d. told_if d.asked (length d.bytes) };

    ghost handed = { λ d. d.handed };

    ghost faults = { λ d. d.script.faults };

    ghost sized = { λ d. told_if-sized d.asked d.bytes };

    fn size(&mut self) -> Result<u64, Failed>
        ensures tells { TellsSize result (file_seen self.old) (file_seen self.new) }
        ensures asked { OnOk result (self.new.asked ≡ true) }
        ensures called { HasCalledFile result self.old self.new }
    {
        self.script.begin(0)?;
        self.asked = true;
        Ok(self.bytes.len() as u64)
    }

    fn read_at(&mut self, at: u64, buf: &mut [u8]) -> Result<usize, Failed>
        requires below { HasByteAt self.old at }
        requires room { 0 < length buf.old }
        ensures reads { ReadsPiece result at (length buf.old) buf.new (file_seen self.old) (file_seen self.new) }
        ensures cut { IfOk result (λ n. n ≡ cut_to self.old.script.cuts self.old.script.number (min (length buf.old) (length self.old.bytes - at))) }
        ensures called { HasCalledFile result self.old self.new }
    {
        let given = self.script.copy(&self.bytes[at as usize..], buf)?;
        self.handed = self.handed.saturating_add(given as u64);
        Ok(given)
    }
}

impl Device for MemDevice {
    fn cut(&mut self, at: u64) -> Result<(), Failed>
        requires asked { self.old.asked ≡ true }
        requires within { at ≤ length self.old.bytes }
        ensures cuts { CutsAt result at (file_seen self.old) (file_seen self.new) }
        ensures called { HasCalledFile result self.old self.new }
    {
        self.asked = false;
        self.script.begin(0)?;
        self.bytes.truncate(at as usize);
        Ok(())
    }

    fn put(&mut self, piece: &[u8]) -> Result<usize, Failed>
        requires { 0 < length piece.now }
        ensures grows { GrowsBy result piece.now (file_seen self.old) (file_seen self.new) }
        ensures fails { IsErr result ↔ (Contains self.old.script.fails self.old.script.number ⊎ (length self.old.bytes ≡ self.old.most)) }
        ensures cut { IfOk result (λ n. n ≡ cut_to self.old.script.cuts self.old.script.number (min (length piece.now) (self.old.most - length self.old.bytes))) }
        ensures call { HasCounted result self.old.script self.new.script }
        ensures same_most { self.new.most ≡ self.old.most }
    {
        self.asked = false;
        let room = self.most - self.bytes.len();
        let count = self.script.begin(piece.len().min(room))?;
        if count == 0 || self.bytes.extend_from_slice(&piece[..count]).is_err() {
            return Err(self.script.fault());
        }
        Ok(count)
    }
}
