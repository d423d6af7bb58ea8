ghost use Rattle.std.specs.Prelude.{◌≡◌, ◌^◌, ◌<◌, ◌↔◌, length, take, min, Contains, IsTrue, IfOk};
ghost use Rattle.record_io.specs.FaultCounts.{AddsFault, one_more};
ghost use Rattle.scripted_io.specs.Memory.{HasCalled, cut_to, new_script};

use record_io::{Failed, fault};
use std::marker::Model;

/// Which calls on an object in memory are cut short, and which fail.
///
/// Calls are numbered from 0. Call i handles at most `cuts[i % cuts.len()]` bytes, where a cut of 0 counts as 1 and no
/// cuts cut nothing, and it fails if `fails` lists it. Each call that fails counts a fault.
#[derive(Debug, Drop)]
pub struct Script {
    cuts: Vec<u32>,
    fails: Vec<u32>,
    number: u64,
    faults: u64,
}

impl Model for Script {
    ghost use Rattle.std.specs.Prelude.{◌<◌, ◌^◌};
    ghost use Rattle.scripted_io.specs.Memory.{CallScript};

    ghost Value = { CallScript };

    ghost view = { λ s. record { number = s.number; cuts = s.cuts.items; fails = s.fails.items; faults = s.faults } };

    ghost invariant = { λ s. s.faults < 2 ^ 64 };
}

impl Script {
    /// No call was made yet. It takes no memory.
    pub fn new(cuts: Vec<u32>, fails: Vec<u32>) -> Script
        ensures { result ≡ new_script cuts.items fails.items }
    {
        Script {
            cuts,
            fails,
            number: 0,
            faults: 0,
        }
    }

    /// Begins the next call, which could handle so many bytes, and answers how many it handles.
    pub fn begin(&mut self, most: usize) -> Result<usize, Failed>
        ensures called { HasCalled result self.old self.new }
        ensures cut { IfOk result (λ n. n ≡ cut_to self.old.cuts self.old.number most) }
    {
        let number = self.number;
        self.number = number.saturating_add(1);
        if stands_in(&self.fails, number) {
            return Err(self.fault());
        }
        Ok(cut_to(&self.cuts, number, most))
    }

    /// Begins the next call, which copies from the front of these bytes into that of the buffer, and answers how many.
    pub fn copy(&mut self, from: &[u8], buf: &mut [u8]) -> Result<usize, Failed>
        ensures given { IfOk result (λ n. take n buf.new ≡ take n from.now) }
        ensures called { HasCalled result self.old self.new }
        ensures cut { IfOk result (λ n. n ≡ cut_to self.old.cuts self.old.number (min (length buf.old) (length from.now))) }
    {
        let given = self.begin(buf.len().min(from.len()))?;
        buf[..given].copy_from_slice(&from[..given]);
        Ok(given)
    }

    /// Counts a fault, for the call that failed to answer.
    pub fn fault(&mut self) -> Failed
        ensures counted { self.new ≡ record self.old { faults = one_more self.old.faults } }
        ensures fault { AddsFault self.old.faults self.new.faults }
    {
        fault(&mut self.faults)
    }
}

/// Whether the number stands in the list.
fn stands_in(numbers: &[u32], number: u64) -> bool
    ensures { IsTrue result ↔ Contains numbers.now number }
{
    numbers.iter().any(|listed| u64::from(*listed) == number)
}

/// How many of so many bytes a call handles under these cuts.
fn cut_to(cuts: &[u32], number: u64, most: usize) -> usize
    ensures { result ≡ cut_to cuts.now number most }
{
    if cuts.is_empty() {
        return most;
    }
    let cut = cuts[(number % cuts.len() as u64) as usize];
    most.min(cut.max(1) as usize)
}
