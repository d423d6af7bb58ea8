ghost use Rattle.std.specs.Prelude.{◌≡◌, ◌*◌, ◌/◌, ◌^◌, ◌≤◌, IfOk};
ghost use Rattle.record_ranges.specs.Ranges.{even_cuts};
ghost use Rattle.record_ranges.specs.Stretches.{spans_from};

use crate::stretches::Span;
use std::alloc::{AllocError, Global};
use std::marker::Model;

/// Where a file is cut into parts: the positions between them, which contracts see as a list. Own.
#[derive(Debug, Drop)]
pub struct Cuts {
    places: Vec<u64>,
}

impl Model for Cuts {
    ghost use Rattle.std.specs.Prelude.{ℕ, List};

    ghost Value = { List ℕ };

    ghost view = { λ c. c.places.items };
}

impl Cuts {
    /// Cuts of a file of `size` bytes, at most 2^28, into parts that are alike, up to a byte: 1 to 16 of them.
    pub fn even(alloc: Global, size: u64, parts: u32) -> Result<Cuts, AllocError>
        requires parts { (1 ≤ parts) × (parts ≤ 16) }
        requires small { size ≤ 2 ^ 28 }
        ensures { IfOk result (λ cuts. cuts ≡ even_cuts size parts) }
    {
        let mut places = Vec::new(alloc);
        for part in 1..parts {
            places.push(even_cut(size, parts, part))?;
        }
        Ok(Cuts { places })
    }

    /// Cuts at these places.
    pub fn of(alloc: Global, places: &[u64]) -> Result<Cuts, AllocError>
        ensures { IfOk result (λ cuts. cuts ≡ places.now) }
    {
        Ok(Cuts {
            places: places.to_vec(alloc)?,
        })
    }

    /// The parts of a file of `size` bytes.
    pub(crate) fn spans(&self, alloc: Global, size: u64) -> Result<Vec<Span>, AllocError>
        ensures { IfOk result (λ spans. spans.items ≡ spans_from size 0 self.now) }
    {
        let mut spans = Vec::new(alloc);
        let mut from = 0;
        for &cut in &self.places {
            spans.push(Span { from, to: cut })?;
            from = cut;
        }
        spans.push(Span { from, to: size })?;
        Ok(spans)
    }
}

/// Where the part of this number begins, from 0 on, of so many that are alike.
fn even_cut(size: u64, parts: u32, part: u32) -> u64
    requires parts { (1 ≤ parts) × (part ≤ 16) }
    requires small { size ≤ 2 ^ 28 }
    ensures { result ≡ part * size / parts }
{
    u64::from(part) * size / u64::from(parts)
}
