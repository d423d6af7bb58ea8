//! Numbers that seats draw, in turns and in threads.
ghost use Rattle.std.specs.Prelude.{◌≢◌, ◌≤◌, []};
ghost use Rattle.chunk_workers.specs.Seats.{BelongsTo};

use chunk_workers::{DrawSeat, Draws};
use std::alloc::{AllocError, Global};
use std::process::Abort;
use std::test::Fail;
use std::thread::{self, Threads};

/// Draws twice, and asserts that the seat ended at this number.
fn end_at(rt: &impl Abort, draws: &Draws, seat: &mut DrawSeat, number: u64)
    requires { BelongsTo draws.now seat.old }
    ensures belongs { BelongsTo draws.now seat.new }
    ensures past { seat.new.hand.past ≢ [] }
{
    assert_eq!(rt; seat.ended(), None);
    assert_eq!(rt; draws.draw(seat), None);
    assert_eq!(rt; draws.draw(seat), None);
    assert_eq!(rt; seat.ended(), Some(number));
}

/// Draws three numbers by two seats in turns.
fn draw_three(rt: &impl Abort, draws: &Draws, first: &mut DrawSeat, second: &mut DrawSeat)
    requires first { BelongsTo draws.now first.old }
    requires second { BelongsTo draws.now second.old }
    ensures first { BelongsTo draws.now first.new }
    ensures second { BelongsTo draws.now second.new }
    ensures first_past { first.new.hand.past ≢ [] }
    ensures second_past { second.new.hand.past ≢ [] }
{
    assert_eq!(rt; draws.draw(first), Some(0));
    assert_eq!(rt; draws.draw(second), Some(1));
    assert_eq!(rt; draws.draw(first), Some(2));
    end_at(rt, draws, second, 3);
    end_at(rt, draws, first, 4);
}

#[test]
fn two_seats_draw_three_numbers_in_turns(rt: HostRuntime) -> Result<(), Fail> {
    let mut ended = Vec::with_capacity(rt.alloc(), 2)?;
    let (draws, mut seats) = Draws::new(rt.alloc(), 3, 2)?;
    let mut second = seats.pop().expect(&rt, "two seats");
    let mut first = seats.pop().expect(&rt, "two seats");
    draw_three(&rt, &draws, &mut first, &mut second);
    ended.push_reserved(first);
    ended.push_reserved(second);
    draws.finish(ended);
    Ok(())
}

/// The first step draws 0, which is no number below none.
#[test]
fn a_seat_of_no_numbers_ends_at_once(rt: HostRuntime) -> Result<(), Fail> {
    let (draws, mut seats) = Draws::new(rt.alloc(), 0, 1)?;
    let mut seat = seats.pop().expect(&rt, "a seat");
    end_at(&rt, &draws, &mut seat, 0);
    let mut seats = Vec::with_capacity(rt.alloc(), 1)?;
    seats.push_reserved(seat);
    draws.finish(seats);
    Ok(())
}

/// How many numbers are drawn in threads.
const COUNT: u64 = 10_000;

/// What a seat draws until it ends.
fn draw_to_the_end(alloc: Global, draws: &Draws, mut seat: DrawSeat) -> Result<Vec<u64>, AllocError>
    requires { BelongsTo draws.now seat }
{
    let mut numbers = Vec::new(alloc);
    for _ in 0..=COUNT {
        let Some(number) = draws.draw(&mut seat) else {
            break;
        };
        numbers.push(number)?;
    }
    Ok(numbers)
}

/// What so many seats draw in threads of their own.
fn drawn_by<R: Threads + Sync>(
    rt: &R,
    alloc: Global,
    workers: u32,
) -> Result<Vec<Result<Vec<u64>, AllocError>>, AllocError>
    requires { (1 ≤ workers) × (workers ≤ 16) }
{
    let (draws, seats) = Draws::new(alloc, COUNT, workers)?;
    thread::map_vec(rt, seats, &|seat| draw_to_the_end(alloc, &draws, seat))
}

/// Counts each of these numbers.
fn count_each(rt: &impl Abort, numbers: &[u64], counts: &mut [u8]) {
    for number in numbers {
        let count = counts.get_mut(*number as usize).expect(rt, "below n");
        *count = count.wrapping_add(1);
    }
}

/// Asserts that each number was drawn once.
fn assert_each_once(
    rt: &impl Abort,
    parts: &[Result<Vec<u64>, AllocError>],
) -> Result<(), AllocError> {
    let mut counts = [0u8; COUNT as usize];
    for part in parts {
        match part {
            Ok(numbers) => count_each(rt, numbers, &mut counts),
            Err(_) => return Err(AllocError),
        }
    }
    assert!(rt; counts.iter().all(|&count| count == 1));
    Ok(())
}

#[test]
fn threads_draw_each_number_once(rt: HostRuntime) -> Result<(), Fail> {
    for workers in [1, 2, 16] {
        let parts = drawn_by(&rt, rt.alloc(), workers)?;
        assert_each_once(&rt, &parts)?;
    }
    Ok(())
}
