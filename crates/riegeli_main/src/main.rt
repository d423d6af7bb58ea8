//! The program: makes the real files and streams of its words, and hands them to `run`.
#![tactic(auto)]

mod named_files;
mod streams;
#[cfg(test)]
mod tests;

use named_files::run_on_files;
use record_io::{StdErr, StdInput, StdOut};
use riegeli_tool::Status;
use std::alloc::{AllocError, Global};
use std::env;
use std::io::{self, ErrorKind};
use std::process::ExitCode;
use streams::{occupy_closed, standard_streams};

/// The greatest block of memory that is kept once it is freed, in bytes: above those of most chunks.
const KEPT_MEMORY: usize = 16 << 20;

fn main(rt: HostRuntime) -> ExitCode {
    if occupy_closed(&rt).is_err() {
        return exit_code(Status::Notes);
    }
    keep_freed_memory(rt.alloc());
    let words = match words(&rt) {
        Ok(words) => words,
        Err(error) => return exit_code(unread_words(&error)),
    };
    let status = run_on_files(
        &rt,
        &rt,
        &words,
        &standard_streams(&rt),
        &mut StdInput::new(rt.reader()),
        &mut StdOut::new(io::writer(&rt)),
        &mut StdErr::new(rt.stderr()),
    );
    exit_code(status)
}

/// Takes a block of memory and gives it back untouched. The C library's allocator then keeps freed blocks up to this size for
/// the next chunk, in place of giving each back to the system, which makes every page anew.
fn keep_freed_memory(alloc: Global) {
    let _block: Result<Vec<u8>, AllocError> = Vec::with_capacity(alloc, KEPT_MEMORY);
}

fn exit_code(status: Status) -> ExitCode {
    ExitCode::from(status.number())
}

/// The arguments alone.
fn words(rt: &HostRuntime) -> io::Result<Vec<String>> {
    Ok(env::args(rt)?.skip(1).collect(rt.alloc())?)
}

/// The status where the words could not be read.
fn unread_words(error: &io::Error) -> Status {
    match error.kind() {
        ErrorKind::OutOfMemory => Status::Memory,
        _ => Status::Usage,
    }
}
