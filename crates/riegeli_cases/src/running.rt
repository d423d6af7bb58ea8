//! Runs of the whole program over objects in memory.

use crate::stores::Untold;
use crate::tries::Tries;
use anyhow::{Result, bail};
use case_text::files::GivenFile;
use case_text::given::{Given, Object};
use case_text::left::Left;
use record_io::{Device, Store};
use riegeli_tool::run;
use scripted_io::{MemDevice, MemInput, MemSink, MemStore};
use std::alloc::{AllocError, Global};
use std::thread::Threads;

/// The room of a sink for more than what comes from the bytes that a run is given.
const ROOM: usize = 1 << 18;

/// How many bytes a sink has room for, for each byte that a run is given.
const ROOM_FOR_EACH: usize = 4;

/// A file by itself, which shows no bytes, since then no run copies it.
pub(crate) fn alone(alloc: Global, bytes: Vec<u8>) -> Result<Given> {
    let mut file = GivenFile::new(bytes);
    file.untold = Some(file.bytes.len() as u64);
    let mut given = Given::new(alloc);
    given.files.push(file)?;
    Ok(given)
}

/// Runs the words of a line over what is given.
pub(crate) fn run_line<R: Threads + Sync>(
    rt: &R,
    alloc: Global,
    tries: &mut Tries,
    given: &Given,
    line: &str,
) -> Result<Left> {
    let mut words = Vec::new(alloc);
    for word in line.split(' ') {
        words.push(String::from_str(alloc, word)?)?;
    }
    run_in_memory(rt, alloc, &words, given, &mut tries.runs)
}

/// Runs the words over what is given.
pub(crate) fn run_in_memory<R: Threads + Sync>(
    rt: &R,
    alloc: Global,
    words: &[String],
    given: &Given,
    runs: &mut u64,
) -> Result<Left> {
    *runs = runs.saturating_add(1);
    if are_told(&given.files) {
        Ok(run_over_told(rt, alloc, words, given)?)
    } else {
        run_over_untold(rt, alloc, words, given)
    }
}

/// Whether each of these files shows its bytes.
fn are_told(files: &[GivenFile]) -> bool {
    for file in files {
        if file.untold.is_some() {
            return false;
        }
    }
    true
}

/// Runs the words where each file shows its bytes.
fn run_over_told<R: Threads + Sync>(
    rt: &R,
    alloc: Global,
    words: &[String],
    given: &Given,
) -> Result<Left, AllocError> {
    let mut files = Vec::new(alloc);
    for file in &given.files {
        files.push(store_of(alloc, given, file)?)?;
    }
    run_over(rt, alloc, words, given, &mut files)
}

/// The store that this file is.
fn store_of(alloc: Global, given: &Given, file: &GivenFile) -> Result<MemStore, AllocError> {
    let fails = if file.sound {
        Vec::new(alloc)
    } else {
        given.fails_of(alloc, Object::File)?
    };
    let cuts = given.cuts.to_vec(alloc)?;
    Ok(MemStore::new(file.bytes.to_vec(alloc)?, cuts, fails))
}

/// Runs the words where a file shows nothing: then none does.
fn run_over_untold<R: Threads + Sync>(
    rt: &R,
    alloc: Global,
    words: &[String],
    given: &Given,
) -> Result<Left> {
    if !given.cuts.is_empty() || !given.fails_of(alloc, Object::File)?.is_empty() {
        bail!("no call of an untold file is cut or fails");
    }
    let mut files = untold_files(alloc, &given.files)?;
    let mut left = run_over(rt, alloc, words, given, &mut files)?;
    if let Some(file) = files.last() {
        left.handed = file.handed();
    }
    Ok(left)
}

/// These files, which show no bytes.
fn untold_files(alloc: Global, files: &[GivenFile]) -> Result<Vec<Untold<'_>>, AllocError> {
    let mut untold = Vec::new(alloc);
    for file in files {
        let size = file.untold.unwrap_or(file.bytes.len() as u64);
        untold.push(Untold::new(&file.bytes, size))?;
    }
    Ok(untold)
}

/// Runs the words over these files, and what is given beside them.
fn run_over<R: Threads + Sync, S: Store + Send>(
    rt: &R,
    alloc: Global,
    words: &[String],
    given: &Given,
    files: &mut [S],
) -> Result<Left, AllocError> {
    if let Some(file) = &given.grown
        && let Some(size) = file.untold
    {
        let mut grown = Untold::new(&file.bytes, size);
        return run_on(rt, alloc, words, given, files, &mut grown);
    }
    run_on_told(rt, alloc, words, given, files)
}

/// The same where the grown file shows its bytes.
fn run_on_told<R: Threads + Sync, S: Store + Send>(
    rt: &R,
    alloc: Global,
    words: &[String],
    given: &Given,
    files: &mut [S],
) -> Result<Left, AllocError> {
    let mut grown = device_of(alloc, given)?;
    let old = grown.bytes().to_vec(alloc)?;
    let mut left = run_on(rt, alloc, words, given, files, &mut grown)?;
    left.old = old;
    left.grown = grown.bytes().to_vec(alloc)?;
    Ok(left)
}

/// Runs the words over these files and this device, and what is given beside them.
fn run_on<R: Threads + Sync, S: Store + Send, G: Device + Send>(
    rt: &R,
    alloc: Global,
    words: &[String],
    given: &Given,
    files: &mut [S],
    grown: &mut G,
) -> Result<Left, AllocError> {
    let mut input = input_of(alloc, given)?;
    let mut sinks = Sinks::new(alloc, given)?;
    let Sinks { made, out, notes } = &mut sinks;
    let status = run(rt, alloc, words, &mut input, files, made, grown, out, notes);
    sinks.left(alloc, status.number())
}

/// What takes bytes, beside a grown file.
#[derive(Drop)]
struct Sinks {
    made: MemSink,
    out: MemSink,
    notes: MemSink,
}

impl Sinks {
    /// Those of a run that is given this.
    fn new(alloc: Global, given: &Given) -> Result<Sinks, AllocError> {
        let room = room_for(given);
        Ok(Sinks {
            made: sink_of(alloc, given, Object::Made, given.room.unwrap_or(room))?,
            out: sink_of(alloc, given, Object::Out, room)?,
            notes: sink_of(alloc, given, Object::Notes, room)?,
        })
    }

    /// What is left of a run that ended with this status and grew nothing.
    fn left(&self, alloc: Global, status: u8) -> Result<Left, AllocError> {
        Ok(Left {
            status,
            made: self.made.taken().to_vec(alloc)?,
            out: self.out.taken().to_vec(alloc)?,
            notes: self.notes.taken().to_vec(alloc)?,
            old: Vec::new(alloc),
            grown: Vec::new(alloc),
            handed: 0,
        })
    }
}

/// The input, whose first call fails where none is given.
fn input_of(alloc: Global, given: &Given) -> Result<MemInput, AllocError> {
    let mut fails = given.fails_of(alloc, Object::Input)?;
    let bytes = match &given.input {
        Some(bytes) => bytes.to_vec(alloc)?,
        None => {
            fails.push(0)?;
            Vec::new(alloc)
        }
    };
    Ok(MemInput::new(bytes, given.cuts.to_vec(alloc)?, fails))
}

/// The file that is grown, whose first call fails where none is given.
fn device_of(alloc: Global, given: &Given) -> Result<MemDevice, AllocError> {
    let mut fails = given.fails_of(alloc, Object::Grown)?;
    let bytes = match &given.grown {
        Some(file) => file.bytes.to_vec(alloc)?,
        None => {
            fails.push(0)?;
            Vec::new(alloc)
        }
    };
    let room = given.room.unwrap_or(room_for(given));
    MemDevice::new(alloc, bytes, room, given.cuts.to_vec(alloc)?, fails)
}

/// The sink that this object is, with room for so many bytes.
fn sink_of(
    alloc: Global,
    given: &Given,
    object: Object,
    room: usize,
) -> Result<MemSink, AllocError> {
    let cuts = given.cuts.to_vec(alloc)?;
    MemSink::new(alloc, room, cuts, given.fails_of(alloc, object)?)
}

/// Room for all that comes from what is given.
fn room_for(given: &Given) -> usize {
    let mut size = match &given.input {
        Some(bytes) => bytes.len(),
        None => 0,
    };
    for file in &given.files {
        size = size.saturating_add(file.bytes.len());
    }
    size.saturating_mul(ROOM_FOR_EACH).saturating_add(ROOM)
}
