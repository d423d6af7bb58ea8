ghost use Rattle.std.specs.Prelude.{◌≡◌, ◌<◌, ◌≤◌, [], length, take, Some};

use record_io::{Failed, Sink};

/// Room that is lent, as a sink. It fails once the room is full, and only then, and takes no memory.
#[derive(Drop)]
pub struct SliceSink<'a> {
    room: &'a mut [u8],
    used: usize,
    faults: u64,
    ghost within: { used ≤ length room.now },
    ghost full: { 0 < faults → used ≡ length room.now },
}

impl<'a> SliceSink<'a> {
    /// This room, of which nothing is used yet.
    pub fn new(room: &'a mut [u8]) -> SliceSink<'a>
        ensures taken { ⟦<SliceSink<'a> as Sink>⟧.taken result ≡ Some [] }
        ensures faults { ⟦<SliceSink<'a> as Sink>⟧.faults result ≡ 0 }
        ensures lent { (⟦<SliceSink<'a> as Sink>⟧.lent result).name ≡ room.entry.ghost_name }
    {
        SliceSink {
            room,
            used: 0,
            faults: 0,
        }
    }

    /// How many bytes of the room are used.
    pub fn used(&self) -> usize
        ensures within { result ≤ length self.now.room.now }
        ensures taken { ⟦<SliceSink<'a> as Sink>⟧.taken self.now ≡ Some (take result self.now.room.now) }
    {
        self.used
    }
}

impl<'a> Sink for SliceSink<'a> {
    ghost use Rattle.std.specs.Prelude.{None};

    ghost taken = { λ s. Some (take s.used s.room.now) };

    ghost faults = { λ s. s.faults };

    ghost lent = { λ s. record { name = s.room.ghost_name; front = None } };

    fn put(&mut self, piece: &[u8]) -> Result<usize, Failed> {
        let count = piece.len().min(self.room.len() - self.used);
        if count == 0 {
            return Err(record_io::fault(&mut self.faults));
        }
        self.room[self.used..self.used + count].copy_from_slice(&piece[..count]);
        self.used += count;
        Ok(count)
    }
}
