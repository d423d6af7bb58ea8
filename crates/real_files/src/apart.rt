//! Real files that are none of those that the other words and the standard streams lead to.
ghost use Rattle.std.specs.Prelude.{◌≡◌, None, Some, true, false, is_some, IfSome, OnOk, OnErr};
ghost use Rattle.record_io.specs.FaultCounts.{faults_after};

use crate::streams::{Behind, file_at};
use record_io::{Failed, fault};
use std::rt::Files;

/// Whether a path leads to a file that none of the paths of files leads to, and that stands behind none of the streams.
///
/// That is looked at once. Where the path leads to a regular file that one of the others leads to as well, or that may stand
/// behind one of the streams, it isn't apart. A path that leads nowhere yet, or of which nothing can be learned, is taken for
/// that of no other file.
#[derive(Drop)]
pub(crate) struct Apart<'a, R: Files> {
    rt: &'a R,
    path: &'a str,
    files: &'a [String],
    streams: &'a [Behind],
    pub(crate) seen: Option<bool>,
}

impl<'a, R: Files> Apart<'a, R> {
    /// The file of this path, beside those of the paths of files and those behind streams.
    pub(crate) fn new(
        rt: &'a R,
        path: &'a str,
        files: &'a [String],
        streams: &'a [Behind],
    ) -> Apart<'a, R>
        ensures { result.seen ≡ None }
    {
        Apart {
            rt,
            path,
            files,
            streams,
            seen: None,
        }
    }

    /// Looks whether it is apart, and counts a fault where it isn't.
    pub(crate) fn look(&mut self, faults: &mut u64) -> Result<(), Failed>
        ensures apart { OnOk result (self.new.seen ≡ Some true) }
        ensures refuses { OnErr result (self.new.seen ≡ Some false) }
        ensures once { IfSome self.old.seen (λ apart. self.new.seen ≡ Some apart) }
        ensures counted { faults.new ≡ faults_after result faults.old }
    {
        let (rt, path) = (self.rt, self.path);
        let (files, streams) = (self.files, self.streams);
        let apart = *self
            .seen
            .get_or_insert_with(|| !is_one_of(rt, path, files, streams));
        if apart { Ok(()) } else { Err(fault(faults)) }
    }
}

/// Whether this path leads to a regular file that one of the other paths leads to as well, or that may stand behind one of the
/// streams.
pub fn is_one_of<R: Files>(rt: &R, path: &str, files: &[String], streams: &[Behind]) -> bool {
    match file_at(rt, path) {
        Some(file) => {
            streams.iter().any(|stream| stream.may_be(file))
                || files
                    .iter()
                    .any(|other| file_at(rt, other.as_str()) == Some(file))
        }
        None => false,
    }
}
