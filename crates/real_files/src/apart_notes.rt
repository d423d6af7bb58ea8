//! What is told, unless it would go to a file of the call.
ghost use Rattle.std.specs.Prelude.{◌≡◌, ◌<◌, length};
ghost use Rattle.record_io.specs.Seen.{TakesPiece};
ghost use Rattle.real_files.specs.Apart.{TellsApart, told_seen};

use record_io::{Failed, Sink, counted, fault};
use std::marker::Model;

/// A sink that is lent, unless what it takes goes to a file of the call. Where it does, each call fails, and it isn't asked. It
/// takes no memory.
#[derive(Drop)]
pub struct ApartNotes<'a, N: Sink> {
    notes: &'a mut N,
    apart: bool,
    faults: u64,
}

impl<'a, N: Sink> Model for ApartNotes<'a, N> {
    ghost use Rattle.std.specs.Prelude.{◌<◌, ◌^◌};
    ghost use Rattle.real_files.specs.Apart.{TellingApart};

    ghost Value = { TellingApart };

    ghost view = { λ s. record { apart = s.apart; taken = N.taken s.notes.now; lent = N.lent s.notes.now; faults = s.faults; notes_faults = N.faults s.notes.now } };

    ghost invariant = { λ s. s.faults < 2 ^ 64 };
}

impl<'a, N: Sink> ApartNotes<'a, N> {
    /// This sink, and whether what it takes goes to no file of the call.
    pub fn new(notes: &'a mut N, apart: bool) -> ApartNotes<'a, N>
        ensures { result ≡ record { apart = apart; taken = N.taken notes.old; lent = N.lent notes.old; faults = 0; notes_faults = N.faults notes.old } }
    {
        ApartNotes {
            notes,
            apart,
            faults: 0,
        }
    }
}

impl<'a, N: Sink> Sink for ApartNotes<'a, N> {
    ghost taken = { λ s. s.taken };

    ghost faults = { λ s. s.faults };

    ghost lent = { λ s. s.lent };

    fn put(&mut self, piece: &[u8]) -> Result<usize, Failed>
        requires { 0 < length piece.now }
        ensures takes { TakesPiece result piece.now (told_seen self.old) (told_seen self.new) }
        ensures same_lent { self.new.lent ≡ self.old.lent }
        ensures keeps { TellsApart result self.old self.new }
    {
        if !self.apart {
            return Err(fault(&mut self.faults));
        }
        counted(self.notes.put(piece), &mut self.faults)
    }
}
