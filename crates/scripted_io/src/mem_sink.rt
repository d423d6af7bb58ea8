ghost use Rattle.std.specs.Prelude.{◌≡◌, ◌-◌, ◌<◌, ◌≤◌, ◌↔◌, ◌⊎◌, [], length, min, Contains, Some, IsErr, IfOk};
ghost use Rattle.record_io.specs.Seen.{TakesPiece};
ghost use Rattle.scripted_io.specs.Memory.{HasCounted, cut_to, new_script, output_seen};

use crate::script::Script;
use record_io::{Failed, Sink};
use std::alloc::{AllocError, Global};
use std::marker::Model;

/// A sink in memory with so much room, whose calls are cut short and fail as they are told to.
///
/// Calls are numbered from 0. Call i takes at most `cuts[i % cuts.len()]` bytes, where a cut of 0
/// counts as 1 and no cuts cut nothing, and it fails if `fails` lists it or no room is left, and not
/// otherwise.
#[derive(Debug, Drop)]
pub struct MemSink {
    taken: Vec<u8>,
    room: usize,
    script: Script,
}

impl Model for MemSink {
    ghost use Rattle.std.specs.Prelude.{◌≤◌, vec_len, vec_capacity};
    ghost use Rattle.scripted_io.specs.Memory.{Output};

    ghost Value = { Output };

    ghost view = { λ o. record { taken = o.taken.items; room = o.room; script = o.script } };

    ghost invariant = { λ o. (vec_len o.taken ≤ o.room) × (o.room ≤ vec_capacity o.taken) };
}

impl MemSink {
    /// An empty sink with room for so many bytes, which it takes at once.
    pub fn new(
        alloc: Global,
        room: usize,
        cuts: Vec<u32>,
        fails: Vec<u32>,
    ) -> Result<MemSink, AllocError>
        ensures { IfOk result (λ sink. sink ≡ record { taken = []; room = room; script = new_script cuts.items fails.items }) }
    {
        Ok(MemSink {
            taken: Vec::with_capacity(alloc, room)?,
            room,
            script: Script::new(cuts, fails),
        })
    }

    /// All bytes taken so far, of which there are at most as many as there was room.
    pub fn taken(&self) -> &[u8]
        ensures value { result.now ≡ self.now.taken }
        ensures within { length self.now.taken ≤ self.now.room }
    {
        self.taken.as_slice()
    }
}

impl Sink for MemSink {
    ghost taken = { λ o. Some o.taken };

    ghost faults = { λ o. o.script.faults };

    fn put(&mut self, piece: &[u8]) -> Result<usize, Failed>
        requires { 0 < length piece.now }
        ensures takes { TakesPiece result piece.now (output_seen self.old) (output_seen self.new) }
        ensures fails { IsErr result ↔ (Contains self.old.script.fails self.old.script.number ⊎ (length self.old.taken ≡ self.old.room)) }
        ensures cut { IfOk result (λ n. n ≡ cut_to self.old.script.cuts self.old.script.number (min (length piece.now) (self.old.room - length self.old.taken))) }
        ensures call { HasCounted result self.old.script self.new.script }
        ensures same_room { self.new.room ≡ self.old.room }
    {
        let room = self.room - self.taken.len();
        let count = self.script.begin(piece.len().min(room))?;
        if count == 0 || self.taken.extend_from_slice(&piece[..count]).is_err() {
            return Err(self.script.fault());
        }
        Ok(count)
    }
}
