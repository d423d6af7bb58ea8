ghost use Rattle.std.specs.Prelude.{◌≡◌, ◌≤◌, [], length, option_map, IfSome};
ghost use Rattle.std.specs.Option.{ForSome};
ghost use Rattle.record_append.specs.Devices.{bytes_from, bytes_before};

use record_io::{Device, Failed, Sink};

/// A device that is lent, as a sink, which has taken the bytes from a place on.
#[derive(Drop)]
pub struct AsSink<'a, G: Device> {
    device: &'a mut G,
    at: u64,
    ghost within: { ForSome (G.bytes device.now) (λ file. at ≤ length file) },
}

impl<'a, G: Device> AsSink<'a, G> {
    /// This device, which ends at the place, and is only put to. It takes no memory.
    pub fn new(device: &'a mut G, at: u64) -> AsSink<'a, G>
        requires { IfSome (G.bytes device.old) (λ file. length file ≡ at) }
        ensures taken { ⟦<AsSink<'a, G> as Sink>⟧.taken result ≡ option_map (λ _. []) (G.bytes device.old) }
        ensures faults { ⟦<AsSink<'a, G> as Sink>⟧.faults result ≡ G.faults device.old }
        ensures lent { ⟦<AsSink<'a, G> as Sink>⟧.lent result ≡ record { name = device.entry.ghost_name; front = G.bytes device.old } }
    {
        AsSink { device, at }
    }
}

impl<'a, G: Device> Sink for AsSink<'a, G> {
    ghost taken = { λ s. bytes_from s.at (G.bytes s.device.now) };

    ghost faults = { λ s. G.faults s.device.now };

    ghost lent = { λ s. record { name = s.device.ghost_name; front = bytes_before s.at (G.bytes s.device.now) } };

    fn put(&mut self, piece: &[u8]) -> Result<usize, Failed> {
        self.device.put(piece)
    }
}
