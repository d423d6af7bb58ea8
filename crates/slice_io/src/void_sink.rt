use record_io::{Failed, Sink};

/// A sink that takes all and keeps nothing, so that it can be learnt what a call would put. It never fails.
#[derive(Drop)]
pub struct VoidSink;

impl Sink for VoidSink {
    ghost use Rattle.std.specs.Prelude.{None};

    ghost taken = { λ _. None };

    ghost faults = { λ _. 0 };

    fn put(&mut self, piece: &[u8]) -> Result<usize, Failed> {
        Ok(piece.len())
    }
}
