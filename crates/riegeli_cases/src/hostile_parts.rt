//! Hostile files through `seek` and `ranges`.

use crate::running::{alone, run_line};
use crate::tries::Tries;
use anyhow::Result;
use case_text::files::copy;
use case_text::given::Given;
use case_text::left::Left;
use plain_reading::agreement::{check_first, check_parts};
use std::alloc::Global;
use std::thread::Threads;

/// Seeks the first record of a file.
pub(crate) fn try_first<R: Threads + Sync>(
    rt: &R,
    alloc: Global,
    tries: &mut Tries,
    given: &Given,
) -> Result<()> {
    let shown = run_line(rt, alloc, tries, given, "show --hex --positions F")?;
    let found = run_line(rt, alloc, tries, given, "seek --hex --at=0 F")?;
    check_first(&found, &shown)
}

/// Reads a file in three parts.
pub(crate) fn try_parts<R: Threads + Sync>(
    rt: &R,
    alloc: Global,
    tries: &mut Tries,
    file: &[u8],
    shown: &Left,
) -> Result<()> {
    let mut given = alone(alloc, file.to_vec(alloc)?)?;
    copy(alloc, &mut given.files, 3)?;
    let left = run_line(rt, alloc, tries, &given, "ranges --parts=3 F")?;
    check_parts(&left, shown)
}
