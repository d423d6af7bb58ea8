ghost use Rattle.std.specs.Prelude.{◌≡◌};

use record_io::{Device, Failed, Store};

/// A device that is lent, as a store.
#[derive(Drop)]
pub struct AsStore<'a, G: Device> {
    device: &'a mut G,
}

impl<'a, G: Device> AsStore<'a, G> {
    /// This device, which is only asked and read. It takes no memory.
    pub fn new(device: &'a mut G) -> AsStore<'a, G>
        ensures bytes { ⟦<AsStore<'a, G> as Store>⟧.bytes result ≡ G.bytes device.old }
        ensures told { ⟦<AsStore<'a, G> as Store>⟧.told result ≡ G.told device.old }
        ensures handed { ⟦<AsStore<'a, G> as Store>⟧.handed result ≡ G.handed device.old }
        ensures faults { ⟦<AsStore<'a, G> as Store>⟧.faults result ≡ G.faults device.old }
        ensures name { ⟦<AsStore<'a, G> as Store>⟧.name result ≡ device.entry.ghost_name }
    {
        AsStore { device }
    }
}

impl<'a, G: Device> Store for AsStore<'a, G> {
    ghost bytes = { λ s. G.bytes s.device.now };

    ghost told = { λ s. G.told s.device.now };

    ghost handed = { λ s. G.handed s.device.now };

    ghost faults = { λ s. G.faults s.device.now };

    ghost name = { λ s. s.device.ghost_name };

    ghost sized = { λ s. G.sized s.device.now };

    fn size(&mut self) -> Result<u64, Failed> {
        self.device.size()
    }

    fn read_at(&mut self, at: u64, buf: &mut [u8]) -> Result<usize, Failed> {
        self.device.read_at(at, buf)
    }
}
