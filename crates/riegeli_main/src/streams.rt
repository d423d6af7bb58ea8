//! What stands behind the standard streams.
use real_files::Behind;
use std::fs::{self, File, OpenOptions};
use std::io::{self, IsTerminal};
use std::os::fd::{AsRawFd, IntoRawFd};
use std::rt::Files;

/// What stands behind standard input, output and error.
pub(crate) fn standard_streams(rt: &HostRuntime) -> [Behind; 3] {
    [
        look_behind(rt, &rt.stdin(), "/proc/self/fd/0"),
        look_behind(rt, &rt.stdout(), "/proc/self/fd/1"),
        look_behind(rt, &rt.stderr(), "/proc/self/fd/2"),
    ]
}

/// What stands behind a stream, by the name of its descriptor. Where the name can't be looked up, a terminal is still known to
/// be no file.
fn look_behind<R: Files, T: IsTerminal>(rt: &R, stream: &T, name: &str) -> Behind {
    match fs::metadata(rt, name) {
        Ok(about) => Behind::of(&about),
        Err(_) if stream.is_terminal() => Behind::NoFile,
        Err(_) => Behind::Unknown,
    }
}

/// Puts a device in the place of each standard stream that the caller closed, so that no file comes to stand there: a full one,
/// opened to be written. It can't be read by its descriptor, and whatever name leads to it, it is no regular file and takes no
/// byte. Where there is none, the folder `/` serves, which can neither be read nor written.
pub(crate) fn occupy_closed(rt: &HostRuntime) -> io::Result<()> {
    for _ in 0..3 {
        let file = unusable(rt)?;
        if file.as_raw_fd() > rt.stderr().as_raw_fd() {
            break;
        }
        file.into_raw_fd();
    }
    Ok(())
}

/// A file that can be neither read nor written.
fn unusable(rt: &HostRuntime) -> io::Result<File> {
    let full = OpenOptions::new().write(true).open(rt, "/dev/full");
    full.or_else(|_| fs::open(rt, "/"))
}
