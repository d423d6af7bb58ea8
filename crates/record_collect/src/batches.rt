//! Collected records in the batches that they were put in.
ghost use Rattle.std.specs.Prelude.{◌≡◌, ◌++◌, ◌<◌, ◌≤◌, ◌^◌, Some, IfOk, OnOk, length, map, slice_get};
ghost use Rattle.std.specs.List.{AllByRecursion, range_with_len};
ghost use Rattle.record_collect.specs.Batches.{in_turn, numbers_in, numbers_in_span};
ghost use Rattle.record_collect.specs.Gatherings.{IsInBounds};
ghost use Rattle.record_collect.specs.Limits.{limit};
ghost use Rattle.record_collect.specs.Orders.{cost_of_placed, gathered_of, places_of};
ghost use Rattle.record_collect.specs.Passes.{IsShort};

use crate::gathered::Numbers;
use crate::placed::{Placed, lists_alone, spans_of};
use crate::span::Span;
use simple_chunk::Records;
use std::alloc::{AllocError, Global};
use std::marker::Model;

/// The numbers of the records of a pass, each batch's as one span.
#[derive(Debug, Drop)]
struct Spans {
    spans: Vec<Span>,
}

impl Model for Spans {
    ghost use Rattle.std.specs.Prelude.{ℕ, List};
    ghost use Rattle.record_collect.specs.Batches.{numbers_in};

    ghost Value = { List ℕ };

    ghost view = { λ s. numbers_in s.spans.items };
}

/// Collected records in the batches that they were put in, and for each pass or store the numbers of its records. Each record
/// has at most 2^24 bytes, and all together cost at most 2^26. Own.
#[derive(Debug, Drop)]
pub struct Batches {
    batches: Vec<Records>,
    numbers: Vec<Spans>,
}

impl Model for Batches {
    ghost use Rattle.record_collect.specs.Batches.{gathered_in};
    ghost use Rattle.record_collect.specs.Gatherings.{GatheredValue, IsInBounds};

    ghost Value = { GatheredValue };

    ghost view = { λ b. gathered_in b.batches.items b.numbers.items };

    ghost invariant = { λ b. IsInBounds (gathered_in b.batches.items b.numbers.items) };
}

impl Batches {
    /// The batches of so many passes, in their order.
    pub(crate) fn of(alloc: Global, all: Vec<Placed>, passes: usize) -> Result<Batches, AllocError>
        requires short { AllByRecursion (λ e. IsShort e.records) all.items }
        requires most { cost_of_placed all.items ≤ limit }
        ensures { IfOk result (λ made. made ≡ gathered_of all.items passes) }
    {
        let numbers = spans_of_each(alloc, &all, passes)?;
        let batches = lists_alone(alloc, all)?;
        Ok(Batches { batches, numbers })
    }

    /// The batches. Joined they are all records.
    pub fn batches(&self) -> &[Records]
        ensures value { in_turn result.now ≡ self.now.records }
        ensures bounds { IsInBounds self.now }
    {
        self.batches.as_slice()
    }

    /// The numbers of the records of the pass or store of this number, which counts from 0. They rise.
    pub fn spans(&self, i: usize) -> &[Span]
        requires { i < length self.now.numbers }
        ensures { slice_get self.now.numbers i ≡ Some (numbers_in result.now) }
    {
        self.numbers[i].spans.as_slice()
    }

    /// All records in one list.
    pub(crate) fn joined(&self, alloc: Global) -> Result<Records, AllocError>
        ensures value { IfOk result (λ records. records ≡ self.now.records) }
        ensures bounds { IsInBounds self.now }
    {
        records_in(alloc, &self.batches)
    }

    /// The numbers of the records of each pass or store.
    pub(crate) fn numbers(&self, alloc: Global) -> Result<Vec<Numbers>, AllocError>
        ensures { IfOk result (λ each. each.items ≡ self.now.numbers) }
    {
        numbers_of_each(alloc, &self.numbers)
    }
}

/// The numbers of the records of each of so many passes.
fn spans_of_each(alloc: Global, all: &[Placed], passes: usize) -> Result<Vec<Spans>, AllocError>
    requires { cost_of_placed all.now ≤ limit }
    ensures { IfOk result (λ each. each.items ≡ map (λ pass. places_of pass 0 all.now) (range_with_len 0 passes)) }
{
    let mut each = Vec::new(alloc);
    for pass in 0..passes {
        let spans = spans_of(alloc, all, pass)?;
        each.push(Spans { spans })?;
    }
    Ok(each)
}

/// The records of batches in one list.
fn records_in(alloc: Global, batches: &[Records]) -> Result<Records, AllocError>
    ensures { IfOk result (λ records. records ≡ in_turn batches.now) }
{
    let mut records = Records::new(alloc);
    for k in 0..batches.len() {
        push_batch(&mut records, &batches[k])?;
    }
    Ok(records)
}

/// Appends the records of a batch.
fn push_batch(records: &mut Records, batch: &Records) -> Result<(), AllocError>
    ensures { OnOk result (records.new ≡ records.old ++ batch.now) }
{
    for number in 0..batch.len() {
        records.push(batch.get(number))?;
    }
    Ok(())
}

/// The numbers of each pass, one by one.
fn numbers_of_each(alloc: Global, all: &[Spans]) -> Result<Vec<Numbers>, AllocError>
    ensures { IfOk result (λ each. each.items ≡ all.now) }
{
    let mut each = Vec::new(alloc);
    for numbers in all {
        each.push(numbers_of(alloc, &numbers.spans)?)?;
    }
    Ok(each)
}

/// The numbers of spans, one by one.
fn numbers_of(alloc: Global, spans: &[Span]) -> Result<Numbers, AllocError>
    ensures { IfOk result (λ numbers. numbers ≡ numbers_in spans.now) }
{
    let mut numbers = Vec::new(alloc);
    for span in spans {
        push_numbers(&mut numbers, *span)?;
    }
    Ok(Numbers::of(numbers))
}

/// Appends the numbers of a span.
fn push_numbers(numbers: &mut Vec<u64>, span: Span) -> Result<(), AllocError>
    ensures { OnOk result (numbers.new.items ≡ numbers.old.items ++ numbers_in_span span) }
{
    for number in span.first..span.first + span.count {
        numbers.push(number)?;
    }
    Ok(())
}
