//! The batches of all passes in one list.
ghost use Rattle.std.specs.Prelude.{◌≡◌, ◌++◌, ◌≤◌, map, IfOk, OnOk};
ghost use Rattle.record_collect.specs.Batches.{numbers_in};
ghost use Rattle.record_collect.specs.Limits.{limit};
ghost use Rattle.record_collect.specs.Orders.{cost_of_placed, lists_in, place_in, places_of};

use crate::collector::Batch;
use crate::span::Span;
use simple_chunk::Records;
use std::alloc::{AllocError, Global};

/// Records that were accepted together, with the receipt of the first and the number of their pass.
#[derive(Drop)]
pub(crate) struct Placed {
    pub(crate) at: u64,
    pub(crate) pass: usize,
    pub(crate) records: Records,
}

/// Appends the batches of a pass to those of others.
pub(crate) fn place_all(
    all: &mut Vec<Placed>,
    pass: usize,
    batches: Vec<Batch>,
) -> Result<(), AllocError>
    ensures { OnOk result (all.new.items ≡ all.old.items ++ map (place_in pass) batches.items) }
{
    for e in batches {
        all.push(Placed {
            at: e.at,
            pass,
            records: e.records,
        })?;
    }
    Ok(())
}

/// The lists of records alone, in their order.
pub(crate) fn lists_alone(alloc: Global, all: Vec<Placed>) -> Result<Vec<Records>, AllocError>
    ensures { IfOk result (λ lists. lists.items ≡ lists_in all.items) }
{
    let mut lists = Vec::with_capacity(alloc, all.len())?;
    for e in all {
        lists.push_reserved(e.records);
    }
    Ok(lists)
}

/// At which numbers the records of a pass stand.
pub(crate) fn spans_of(alloc: Global, all: &[Placed], pass: usize) -> Result<Vec<Span>, AllocError>
    requires { cost_of_placed all.now ≤ limit }
    ensures { IfOk result (λ spans. numbers_in spans.items ≡ places_of pass 0 all.now) }
{
    let mut spans = Vec::new(alloc);
    let mut first = 0;
    for e in all {
        let count = e.records.len() as u64;
        if e.pass == pass {
            spans.push(Span { first, count })?;
        }
        first += count;
    }
    Ok(spans)
}
