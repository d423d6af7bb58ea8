ghost use Rattle.std.specs.Prelude.{◌≡◌, ◌^◌, ◌<◌, ◌≤◌, [], length, option_map};
ghost use Rattle.std.specs.Option.{ForSome};
ghost use Rattle.record_append.specs.Devices.{EndsAt, bytes_from, bytes_before, name_of_sized};

use record_io::{Device, Failed, Sink};

/// A device that is lent, as `AsSink`, and tells the size that it told before, or none.
#[derive(Drop)]
pub(crate) struct SizedSink<'a, G: Device> {
    device: &'a mut G,
    at: u64,
    size: u64,
    ghost small: { size < 2 ^ 64 },
    ghost within: { ForSome (G.bytes device.now) (λ file. at ≤ length file) },
    ghost told: { ForSome (G.told device.now) (λ told. told ≡ size) },
}

impl<'a, G: Device> SizedSink<'a, G> {
    /// This device, which ends at the place, told the size if it tells one, and is only put to. It takes no memory.
    pub(crate) fn new(device: &'a mut G, at: u64, size: u64) -> SizedSink<'a, G>
        requires { EndsAt at size (G.bytes device.old) (G.told device.old) }
        ensures taken { ⟦<SizedSink<'a, G> as Sink>⟧.taken result ≡ option_map (λ _. []) (G.bytes device.old) }
        ensures faults { ⟦<SizedSink<'a, G> as Sink>⟧.faults result ≡ G.faults device.old }
        ensures lent { ⟦<SizedSink<'a, G> as Sink>⟧.lent result ≡ record { name = name_of_sized device.entry.ghost_name size; front = G.bytes device.old } }
    {
        SizedSink { device, at, size }
    }
}

impl<'a, G: Device> Sink for SizedSink<'a, G> {
    ghost taken = { λ s. bytes_from s.at (G.bytes s.device.now) };

    ghost faults = { λ s. G.faults s.device.now };

    ghost lent = { λ s. record { name = name_of_sized s.device.ghost_name s.size; front = bytes_before s.at (G.bytes s.device.now) } };

    fn put(&mut self, piece: &[u8]) -> Result<usize, Failed> {
        self.device.put(piece)
    }
}
