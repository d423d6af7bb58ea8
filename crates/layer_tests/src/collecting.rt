//! Records that passes put into one list, in turns and in threads.
ghost use Rattle.std.specs.Prelude.{◌≡◌, All, IfOk, length, vec_len};
ghost use Rattle.record_collect.specs.Passes.{BelongsTo};

use record_collect::{Collector, Gathered, Numbers, Pass, Receipt};
use simple_chunk::Records;
use std::alloc::{AllocError, Global};
use std::process::Abort;
use std::test::Fail;
use std::thread;
use std::thread::Threads;

/// Puts a record, and asserts its receipt.
fn put(rt: &impl Abort, collector: &Collector, pass: &mut Pass, rec: &[u8], at: u64)
    requires { BelongsTo collector.now pass.old }
    ensures { BelongsTo collector.now pass.new }
{
    assert_eq!(rt; collector.put(pass, rec), Ok(Receipt { at }));
}

/// What a collector makes of its passes: each has a list of numbers.
#[tactic(auto, using(crate::proofs::NumberLists::one_each))]
fn finish(alloc: Global, collector: Collector, passes: Vec<Pass>) -> Result<Gathered, AllocError>
    requires passes { vec_len passes ≡ collector.passes }
    requires each { All (BelongsTo collector) passes.items }
    ensures { IfOk result (λ made. length made.numbers ≡ vec_len passes) }
{
    collector.finish(alloc, passes)
}

fn assert_numbers(rt: &impl Abort, numbers: &Numbers, expected: &[u64]) {
    assert!(rt; numbers.len() == expected.len());
    for i in 0..expected.len() {
        assert_eq!(rt; numbers.get(i), expected[i]);
    }
}

fn assert_records(rt: &impl Abort, records: &Records, expected: &[&str]) {
    assert!(rt; records.len() == expected.len());
    for i in 0..expected.len() {
        assert_eq!(rt; records.get(i), expected[i].as_bytes());
    }
}

/// Two passes put three records in turns: the first `a`, the second `bc`, and the first an empty one.
fn put_in_turns(rt: &impl Abort, collector: &Collector, first: &mut Pass, second: &mut Pass)
    requires first { BelongsTo collector.now first.old }
    requires second { BelongsTo collector.now second.old }
    ensures first { BelongsTo collector.now first.new }
    ensures second { BelongsTo collector.now second.new }
{
    put(rt, collector, first, b"a", 0);
    put(rt, collector, second, b"bc", 9);
    put(rt, collector, first, b"", 19);
    assert_eq!(rt; first.ended(), None);
    assert_eq!(rt; second.ended(), None);
}

/// What is made of these passes.
fn gathered_in_turns(rt: &impl Abort, alloc: Global) -> Result<Gathered, AllocError>
    ensures { IfOk result (λ made. length made.numbers ≡ 2) }
{
    let mut ended = Vec::with_capacity(alloc, 2)?;
    let (collector, mut passes) = Collector::new(alloc, 2)?;
    let mut second = passes.pop().expect(rt, "two passes");
    let mut first = passes.pop().expect(rt, "two passes");
    put_in_turns(rt, &collector, &mut first, &mut second);
    ended.push_reserved(first);
    ended.push_reserved(second);
    finish(alloc, collector, ended)
}

#[test]
fn records_stand_in_the_order_of_their_receipts(rt: HostRuntime) -> Result<(), Fail> {
    let gathered = gathered_in_turns(&rt, rt.alloc())?;
    assert_records(&rt, gathered.records(), &["a", "bc", ""]);
    assert_numbers(&rt, gathered.numbers(0), &[0, 2]);
    assert_numbers(&rt, gathered.numbers(1), &[1]);
    Ok(())
}

/// Puts 100 records, or those before the first that is refused.
fn put_hundred(collector: &Collector, mut pass: Pass) -> Pass
    requires { BelongsTo collector.now pass }
    ensures { BelongsTo collector.now result }
{
    for _ in 0..100 {
        if collector.put(&mut pass, b"a").is_err() {
            break;
        }
    }
    pass
}

/// Puts records of each pass in a thread of its own.
fn put_in_threads<R: Threads + Sync>(
    rt: &R,
    collector: &Collector,
    passes: Vec<Pass>,
) -> Result<Vec<Pass>, AllocError>
    requires { All (BelongsTo collector.now) passes.items }
    ensures count { IfOk result (λ put. vec_len put ≡ vec_len passes) }
    ensures each { IfOk result (λ put. All (BelongsTo collector.now) put.items) }
{
    thread::map_vec(rt, passes, &|pass| put_hundred(collector, pass))
}

/// Two passes put 100 records each side by side.
fn gathered_in_threads<R: Threads + Sync>(rt: &R, alloc: Global) -> Result<Gathered, AllocError>
    ensures { IfOk result (λ made. length made.numbers ≡ 2) }
{
    let (collector, passes) = Collector::new(alloc, 2)?;
    let passes = put_in_threads(rt, &collector, passes)?;
    finish(alloc, collector, passes)
}

/// Counts each number of a pass of 100 records.
fn count_numbers(rt: &impl Abort, numbers: &Numbers, counts: &mut [u8]) {
    assert_eq!(rt; numbers.len(), 100);
    for i in 0..numbers.len() {
        let count = counts
            .get_mut(numbers.get(i) as usize)
            .expect(rt, "below 200");
        *count = count.wrapping_add(1);
    }
}

/// Asserts that each of 200 numbers is one of two passes, once.
fn assert_each_once(rt: &impl Abort, gathered: &Gathered)
    requires { length gathered.now.numbers ≡ 2 }
{
    let mut counts = [0u8; 200];
    count_numbers(rt, gathered.numbers(0), &mut counts);
    count_numbers(rt, gathered.numbers(1), &mut counts);
    assert!(rt; counts.iter().all(|&count| count == 1));
}

#[test]
fn records_of_two_threads_stand_each_once(rt: HostRuntime) -> Result<(), Fail> {
    let gathered = gathered_in_threads(&rt, rt.alloc())?;
    assert_eq!(rt; gathered.records().len(), 200);
    assert_each_once(&rt, &gathered);
    Ok(())
}
