//! Windows of groups, encoded by workers that draw runs.
ghost use Rattle.std.specs.Prelude.{◌≡◌, ◌^◌, ◌≤◌, All, IfOk, length};
ghost use Rattle.simple_chunk.specs.Costs.{cost_of};

use crate::meetings::{Meeting, MeetingCoder};
use chunk_workers::{CodedRuns, RunPlace, append_places, encode_window, run_count, seat_workers};
use simple_chunk::RecordGroups;
use std::alloc::{AllocError, Global};
use std::process::Abort;
use std::test::Fail;
use std::thread::Threads;

/// So many groups of one record, which has one byte: the number of the group.
fn numbered_groups(alloc: Global, count: u8) -> Result<RecordGroups, AllocError>
    ensures count { IfOk result (λ all. length all.groups ≡ count) }
    ensures short { IfOk result (λ all. All (λ group. cost_of group ≤ 2 ^ 25) all.groups) }
{
    let mut groups = RecordGroups::new(alloc);
    for byte in 0..count {
        groups.push_record(&[byte])?;
        groups.close_group()?;
    }
    Ok(groups)
}

/// The place of the run of this number.
fn place_of(places: &[(u64, RunPlace)], number: u64) -> Option<RunPlace> {
    for &(other, place) in places {
        if other == number {
            return Some(place);
        }
    }
    None
}

/// Whether the chunk of the group of this number lies where the place of its run tells.
fn is_encoded(encoded: &[CodedRuns], places: &[(u64, RunPlace)], step: u8, number: u8) -> bool
    requires { 1 ≤ step }
{
    let Some(place) = place_of(places, u64::from(number / step)) else {
        return false;
    };
    let Some(runs) = encoded.get(place.worker as usize) else {
        return false;
    };
    let at = place.first as usize + usize::from(number % step);
    // No compression, one byte of sizes, a size of 1, and the record.
    at < runs.len() && runs.chunk(at).1 == [0, 1, 1, number].as_slice()
}

/// How many chunks all workers have.
fn chunk_count(encoded: &[CodedRuns]) -> usize {
    encoded
        .iter()
        .fold(0, |count: usize, runs| count.saturating_add(runs.len()))
}

/// Encodes so many groups in runs of `step` by so many workers, whose coder meets others on the groups with the flags of
/// `coming`, and asserts that each run came out once, with the chunks of all its groups.
fn encode_each_once<R: Threads + Abort + Sync>(
    rt: &R,
    alloc: Global,
    workers: u32,
    coming: u64,
    count: u8,
    step: u8,
) -> Result<(), AllocError>
    requires workers { (1 ≤ workers) × (workers ≤ 16) }
    requires step { 1 ≤ step }
{
    let coder = MeetingCoder {
        meeting: &Meeting::of(coming),
        coming,
    };
    let groups = numbered_groups(alloc, count)?;
    let runs = run_count(groups.len(), step as usize);
    let (draws, seated) = seat_workers(alloc, runs as u64, workers, &mut Vec::new(alloc))?;
    let (encoded, seats) = encode_window(
        rt,
        alloc,
        &draws,
        seated,
        &coder,
        &groups,
        step as usize,
    )?;
    draws.finish(seats);
    assert_eq!(rt; coder.meeting.gave_up(), 0, "{workers} workers");
    let mut places = Vec::new(alloc);
    append_places(&mut places, &encoded, step as usize, groups.len())?;
    assert_eq!(rt; places.len(), runs);
    assert_eq!(rt; chunk_count(&encoded), groups.len());
    for number in 0..count {
        assert!(rt;
            is_encoded(&encoded, &places, step, number),
            "group {number} of {count}"
        );
    }
    Ok(())
}

/// The first groups of all runs, of which there are as many as workers, wait for each other. The last run is short.
#[test]
fn as_many_runs_are_encoded_at_once_as_there_are_workers(rt: HostRuntime) -> Result<(), Fail> {
    encode_each_once(&rt, rt.alloc(), 2, 0b101, 3, 2)?;
    encode_each_once(&rt, rt.alloc(), 4, 0b101_0101, 7, 2)?;
    encode_each_once(&rt, rt.alloc(), 16, 0x5555_5555, 31, 2)?;
    Ok(())
}

#[test]
fn groups_come_out_with_their_numbers(rt: HostRuntime) -> Result<(), Fail> {
    for workers in [1, 3, 16] {
        for (count, step) in [(0, 1), (1, 1), (1, 9), (8, 4), (9, 4), (11, 4), (200, 7)] {
            encode_each_once(&rt, rt.alloc(), workers, 0, count, step)?;
        }
    }
    Ok(())
}
