ghost use Rattle.std.specs.Prelude.{◌≡◌, ℕ, List, [], ◌∷◌, OnOk};
ghost use Rattle.record_ranges.specs.Stretches.{Adds};

use simple_chunk::Records;
use std::alloc::{AllocError, Global};
use std::marker::Model;

/// What the records of a part of a file are kept in. Own.
pub(crate) trait Keeper: Drop {
    /// What these records are kept in.
    ghost kept_as: { List (List ℕ) → Self };

    /// No records yet. It takes no memory.
    fn none(alloc: Global) -> Self
        ensures { result ≡ kept_as [] };

    /// Takes room for the records of so many bytes of a file, so that what is kept isn't moved as more come.
    fn make_room(&mut self, bytes: usize) -> Result<(), AllocError>
        ensures { self.new ≡ self.old };

    /// Keeps a record behind the others.
    fn add(&mut self, bytes: &[u8]) -> Result<(), AllocError>
        ensures { OnOk result (Adds kept_as self.old self.new (bytes.now ∷ [])) };
}

impl Keeper for Records {
    ghost kept_as = { λ records. records };

    fn none(alloc: Global) -> Records {
        Records::new(alloc)
    }

    fn make_room(&mut self, bytes: usize) -> Result<(), AllocError> {
        self.reserve(bytes, 0)
    }

    fn add(&mut self, bytes: &[u8]) -> Result<(), AllocError> {
        self.push(bytes)
    }
}

/// Records as they are printed, each as a line. Contracts see their text.
#[derive(Debug, Drop)]
pub(crate) struct Lines {
    text: Vec<u8>,
}

impl Model for Lines {
    ghost use Rattle.std.specs.Prelude.{ℕ, List};

    ghost Value = { List ℕ };

    ghost view = { λ l. l.text.items };
}

impl Lines {
    /// The text.
    pub(crate) fn text(&self) -> &[u8]
        ensures { result.now ≡ self.now }
    {
        &self.text
    }
}

impl Keeper for Lines {
    ghost use Rattle.record_ranges.specs.RangesEnds.{part_lines};

    ghost kept_as = { λ records. part_lines records };

    fn none(alloc: Global) -> Lines {
        Lines {
            text: Vec::new(alloc),
        }
    }

    fn make_room(&mut self, bytes: usize) -> Result<(), AllocError> {
        self.text.reserve(bytes)
    }

    #[tactic(auto, using(crate::proofs::RangesLines::line_steps))]
    fn add(&mut self, bytes: &[u8]) -> Result<(), AllocError> {
        self.text.extend_from_slice(bytes)?;
        self.text.push(b'\n')?;
        Ok(())
    }
}
