//! Files and streams of 8 bytes, which fail at a call and move fewer bytes than they are asked to.
ghost use Rattle.std.specs.Prelude.{◌≤◌, length};

use std::alloc::Allocator;
use std::cell::Cell;
use std::fs::{Metadata, OpenFile, OpenOptions};
use std::io::{self, Error, ErrorKind, Read, Seek, SeekFrom, Write};
use std::rt::Files;

/// A call on a file system, an open file or a stream.
#[derive(Clone, Copy, Debug, PartialEq, Eq)]
pub enum Call {
    About,
    Open,
    Size,
    Seek,
    Read,
    Write,
    Flush,
}

/// Which call fails, and how many bytes a call moves at most.
#[derive(Clone, Copy, Debug)]
pub struct Script {
    pub fails: Option<Call>,
    pub most: usize,
}

impl Script {
    /// How many bytes the call moves at most, unless it fails.
    fn begin(self, call: Call) -> io::Result<usize> {
        if self.fails == Some(call) {
            return Err(Error::from(ErrorKind::Other));
        }
        Ok(self.most)
    }
}

/// An open file or a stream.
#[derive(Drop)]
pub struct Fake {
    script: Script,
    is_folder: bool,
    at: usize,
}

impl Fake {
    pub fn new(script: Script) -> Fake {
        Fake {
            script,
            is_folder: false,
            at: 0,
        }
    }
}

/// Puts at most so many bytes into a buffer, and answers how many.
fn put_front(bytes: &[u8], most: usize, buf: &mut [u8]) -> usize
    ensures { result ≤ length buf.old }
{
    let count = most.min(bytes.len()).min(buf.len());
    buf[..count].copy_from_slice(&bytes[..count]);
    count
}

impl Read for Fake {
    fn read(&mut self, buf: &mut [u8]) -> io::Result<usize> {
        let most = self.script.begin(Call::Read)?;
        let left = b"abcdefgh".get(self.at..).unwrap_or(b"");
        let count = put_front(left, most, buf);
        self.at = self.at.saturating_add(count);
        Ok(count)
    }
}

impl Write for Fake {
    fn write(&mut self, piece: &[u8]) -> io::Result<usize> {
        Ok(self.script.begin(Call::Write)?.min(piece.len()))
    }

    fn flush(&mut self) -> io::Result<()> {
        self.script.begin(Call::Flush)?;
        Ok(())
    }
}

impl Seek for Fake {
    fn seek(&mut self, to: SeekFrom) -> io::Result<u64> {
        self.script.begin(Call::Seek)?;
        let SeekFrom::Start(at) = to else {
            return Err(Error::from(ErrorKind::Unsupported));
        };
        self.at = at as usize;
        Ok(at)
    }
}

impl OpenFile for Fake {
    fn metadata(&self) -> io::Result<Metadata> {
        self.script.begin(Call::Size)?;
        if self.is_folder {
            return Ok(Metadata::of_dir());
        }
        Ok(Metadata::of_file(8))
    }

    fn set_len(&self, _: u64) -> io::Result<()> {
        Err(Error::from(ErrorKind::Unsupported))
    }

    fn sync_all(&self) -> io::Result<()> {
        Err(Error::from(ErrorKind::Unsupported))
    }

    fn sync_data(&self) -> io::Result<()> {
        Err(Error::from(ErrorKind::Unsupported))
    }
}

/// The name of a folder.
pub const FOLDER: &str = "folder";

/// The name of a file in whose place a folder stands once it is opened.
pub const REPLACED: &str = "replaced";

/// A file system in which each other name is that of a file.
#[derive(Drop)]
pub struct FakeFiles {
    script: Script,
    /// How often a file was opened, or would have been but for a failure.
    pub opened: Cell<u32>,
}

impl FakeFiles {
    pub fn new(script: Script) -> FakeFiles {
        FakeFiles {
            script,
            opened: Cell::new(0),
        }
    }
}

impl Files for FakeFiles {
    type File = Fake;

    type Dir = Fake;

    fn open_file(&self, how: &OpenOptions, path: &str) -> io::Result<Fake> {
        how.check()?;
        self.opened.set(self.opened.get().saturating_add(1));
        self.script.begin(Call::Open)?;
        Ok(Fake {
            is_folder: path == REPLACED,
            ..Fake::new(self.script)
        })
    }

    fn metadata(&self, path: &str) -> io::Result<Metadata> {
        self.script.begin(Call::About)?;
        if path == FOLDER {
            return Ok(Metadata::of_dir());
        }
        Ok(Metadata::of_file(8))
    }

    fn open_dir(&self, _: &str) -> io::Result<Fake> {
        Err(Error::from(ErrorKind::Unsupported))
    }

    fn symlink_metadata(&self, path: &str) -> io::Result<Metadata> {
        self.metadata(path)
    }

    fn copy(&self, _: &str, _: &str) -> io::Result<u64> {
        Err(Error::from(ErrorKind::Unsupported))
    }

    fn rename(&self, _: &str, _: &str) -> io::Result<()> {
        Err(Error::from(ErrorKind::Unsupported))
    }

    fn remove_file(&self, _: &str) -> io::Result<()> {
        Err(Error::from(ErrorKind::Unsupported))
    }

    fn create_dir(&self, _: &str) -> io::Result<()> {
        Err(Error::from(ErrorKind::Unsupported))
    }

    fn remove_dir(&self, _: &str) -> io::Result<()> {
        Err(Error::from(ErrorKind::Unsupported))
    }

    fn remove_dir_all<B: Allocator>(&self, _: B, _: &str) -> io::Result<()> {
        Err(Error::from(ErrorKind::Unsupported))
    }
}
