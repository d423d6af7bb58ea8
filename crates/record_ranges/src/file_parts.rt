ghost use Rattle.std.specs.Prelude.{◌≡◌, ◌<◌, Some, length, slice_get};

use crate::stretches::Stretch;
use simple_chunk::Records;
use std::marker::Model;

/// The parts of a file, in order, which contracts see as the list of their records. Own.
#[derive(Debug, Drop)]
pub struct Parts {
    pub(crate) stretches: Vec<Stretch<Records>>,
}

impl Model for Parts {
    ghost use Rattle.std.specs.Prelude.{ℕ, List, map};

    ghost Value = { List (List (List ℕ)) };

    ghost view = { λ p. map (λ s. s.kept) p.stretches.items };
}

impl Parts {
    /// How many parts there are.
    pub fn len(&self) -> usize
        ensures { result ≡ length self.now }
    {
        self.stretches.len()
    }

    /// The records of the part of this number, which counts from 0 and is below `len`.
    pub fn part(&self, i: usize) -> &Records
        requires { i < length self.now }
        ensures { slice_get self.now i ≡ Some result.now }
    {
        &self.stretches[i].kept
    }
}
