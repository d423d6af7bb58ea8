//! Real streams, which show none of their bytes to a proof.
ghost use Rattle.std.specs.Prelude.{◌≡◌, length, None};
ghost use Rattle.std.specs.Io.KnownBytes.{ReadConsumes};
ghost use Rattle.record_io.specs.FaultCounts.{faults_after};
ghost use Rattle.record_io.specs.Seen.{GivesPiece, TakesPiece};
ghost use Rattle.record_io.specs.Edge.{AppendsPiece, incoming_seen, outgoing_seen};

use crate::outside::{Failed, Sink, Source};
use crate::std_calls::{put_to, take_from};
use std::io::{Read, Write};
use std::marker::Model;

/// The reader of the input as a source.
#[derive(Drop)]
pub struct StdInput<T: Read> {
    from: T,
    faults: u64,
}

impl<T: Read> Model for StdInput<T> {
    ghost use Rattle.std.specs.Prelude.{◌<◌, ◌^◌};
    ghost use Rattle.record_io.specs.Edge.{Incoming};

    ghost Value = { Incoming };

    ghost view = { λ s. record { remaining = T.remaining s.from; faults = s.faults } };

    ghost invariant = { λ s. s.faults < 2 ^ 64 };
}

impl<T: Read + Drop> StdInput<T> {
    /// What this reader gives.
    pub fn new(from: T) -> StdInput<T>
        ensures { result ≡ record { remaining = T.remaining from; faults = 0 } }
    {
        StdInput { from, faults: 0 }
    }
}

impl<T: Read + Drop> Source for StdInput<T> {
    ghost left = { λ _. None };

    ghost faults = { λ s. s.faults };

    fn take(&mut self, buf: &mut [u8]) -> Result<usize, Failed>
        ensures gives { GivesPiece result (length buf.old) buf.new (incoming_seen self.old) (incoming_seen self.new) }
        ensures bytes { ReadConsumes self.old.remaining self.new.remaining result buf.new }
        ensures counted { self.new.faults ≡ faults_after result self.old.faults }
    {
        take_from(&mut self.from, buf, &mut self.faults)
    }
}

/// The writer of the output as a sink. It is flushed at each call, so that it holds nothing back.
#[derive(Drop)]
pub struct StdOut<T: Write> {
    to: T,
    faults: u64,
}

/// The writer of what is told beside the output, as a sink like that of the output.
pub type StdErr<T> = StdOut<T>;

impl<T: Write> Model for StdOut<T> {
    ghost use Rattle.std.specs.Prelude.{◌<◌, ◌^◌};
    ghost use Rattle.record_io.specs.Edge.{Outgoing};

    ghost Value = { Outgoing };

    ghost view = { λ s. record { contents = T.contents s.to; faults = s.faults } };

    ghost invariant = { λ s. s.faults < 2 ^ 64 };
}

impl<T: Write + Drop> StdOut<T> {
    /// What goes to this writer.
    pub fn new(to: T) -> StdOut<T>
        ensures { result ≡ record { contents = T.contents to; faults = 0 } }
    {
        StdOut { to, faults: 0 }
    }
}

impl<T: Write + Drop> Sink for StdOut<T> {
    ghost taken = { λ _. None };

    ghost faults = { λ s. s.faults };

    fn put(&mut self, piece: &[u8]) -> Result<usize, Failed>
        ensures takes { TakesPiece result piece.now (outgoing_seen self.old) (outgoing_seen self.new) }
        ensures appends { AppendsPiece result piece.now self.old.contents self.new.contents }
        ensures counted { self.new.faults ≡ faults_after result self.old.faults }
    {
        put_to(&mut self.to, piece, &mut self.faults)
    }
}
