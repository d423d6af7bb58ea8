//! What stands behind a name or a standard stream.
ghost use Rattle.std.specs.Prelude.{◌≡◌, ◌↔◌, IsTrue};
ghost use Rattle.real_files.specs.Streams.{MayBe, known};

use std::fs::{self, Metadata};
use std::os::unix::fs::MetadataExt;
use std::rt::Files;

/// A regular file under whatever name: its device, and its number there.
#[derive(Clone, Copy, PartialEq, Eq)]
pub struct FileId {
    device: u64,
    inode: u64,
}

impl FileId {
    /// The file that this is told of, if it is a regular one.
    fn of(about: &Metadata) -> Option<FileId> {
        about.is_file().then(|| FileId {
            device: about.dev(),
            inode: about.ino(),
        })
    }
}

/// The regular file that this path leads to, if it leads to one.
pub fn file_at<R: Files>(rt: &R, path: &str) -> Option<FileId> {
    match fs::metadata(rt, path) {
        Ok(about) => FileId::of(&about),
        Err(_) => None,
    }
}

/// What stands behind a stream.
#[derive(Clone, Copy)]
pub enum Behind {
    /// This regular file.
    File(FileId),
    /// No regular file.
    NoFile,
    /// Something of which nothing can be learned.
    Unknown,
}

impl Behind {
    /// What this is told of.
    pub fn of(about: &Metadata) -> Behind {
        match FileId::of(about) {
            Some(file) => Behind::File(file),
            None => Behind::NoFile,
        }
    }

    /// Whether this file may stand there.
    pub fn may_be(&self, file: FileId) -> bool
        ensures { IsTrue result ↔ MayBe self.now file }
    {
        match *self {
            Behind::File(own) => own == file,
            Behind::NoFile => false,
            Behind::Unknown => true,
        }
    }

    /// What is known to stand there: where nothing can be learned, no regular file is.
    pub fn known(self) -> Behind
        ensures { result ≡ known self }
    {
        match self {
            Behind::Unknown => Behind::NoFile,
            known => known,
        }
    }
}
