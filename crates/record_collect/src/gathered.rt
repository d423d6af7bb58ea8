//! Collected records, and where those of each pass stand.
ghost use Rattle.std.specs.Prelude.{◌≡◌, ◌<◌, Some, length, IfOk, slice_get};
ghost use Rattle.record_collect.specs.Gatherings.{IsInBounds};

use crate::batches::Batches;
use simple_chunk::Records;
use std::alloc::{AllocError, Global};
use std::marker::Model;

/// Numbers, which contracts see as their list. Own.
#[derive(Debug, Drop)]
pub struct Numbers {
    numbers: Vec<u64>,
}

impl Model for Numbers {
    ghost use Rattle.std.specs.Prelude.{ℕ, List};

    ghost Value = { List ℕ };

    ghost view = { λ n. n.numbers.items };
}

impl Numbers {
    /// These numbers.
    pub(crate) fn of(numbers: Vec<u64>) -> Numbers
        ensures { result ≡ numbers.items }
    {
        Numbers { numbers }
    }

    /// How many numbers there are.
    pub fn len(&self) -> usize
        ensures { result ≡ length self.now }
    {
        self.numbers.len()
    }

    /// The number at this place, which counts from 0 and is below `len`.
    pub fn get(&self, i: usize) -> u64
        requires { i < length self.now }
        ensures { slice_get self.now i ≡ Some result }
    {
        self.numbers[i]
    }
}

/// Collected records in one list, and for each pass or store the numbers of its records there. Each record has at most 2^24
/// bytes, and all together cost at most 2^26. Own.
#[derive(Debug, Drop)]
pub struct Gathered {
    records: Records,
    numbers: Vec<Numbers>,
}

impl Model for Gathered {
    ghost use Rattle.record_collect.specs.Gatherings.{GatheredValue, IsInBounds};

    ghost Value = { GatheredValue };

    ghost view = { λ g. record { records = g.records; numbers = g.numbers.items } };

    ghost invariant = { λ g. IsInBounds (record { records = g.records; numbers = g.numbers.items }) };
}

impl Gathered {
    /// The records of batches in one list, and the numbers of each pass.
    pub(crate) fn of_batches(alloc: Global, all: &Batches) -> Result<Gathered, AllocError>
        ensures { IfOk result (λ made. made ≡ all.now) }
    {
        let records = all.joined(alloc)?;
        let numbers = all.numbers(alloc)?;
        Ok(Gathered { records, numbers })
    }

    /// All records, in one list.
    pub fn records(&self) -> &Records
        ensures value { result.now ≡ self.now.records }
        ensures bounds { IsInBounds self.now }
    {
        &self.records
    }

    /// The numbers of the records of the pass or store of this number, which counts from 0. They rise.
    pub fn numbers(&self, i: usize) -> &Numbers
        requires { i < length self.now.numbers }
        ensures { slice_get self.now.numbers i ≡ Some result.now }
    {
        &self.numbers[i]
    }
}
