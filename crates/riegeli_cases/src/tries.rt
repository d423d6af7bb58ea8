//! What is kept while cases are tried.

use crate::written::said_bytes;
use anyhow::{Result, bail};
use case_text::names::Known;
use case_text::words::Statement;
use std::alloc::Global;
use std::thread::Threads;

/// What is kept while cases are tried.
#[derive(Drop)]
pub(crate) struct Tries {
    /// The names that are known.
    pub(crate) known: Known,
    /// How many runs there were.
    pub(crate) runs: u64,
    /// The line of the case's name.
    pub(crate) case: u64,
    /// The line of the statement, or of the run, at which it stands.
    pub(crate) line: u64,
    /// The number that it is carried out for, where it is for many.
    pub(crate) number: Option<usize>,
    /// Which way to cut calls it is carried out for, where it is for many, from 0.
    pub(crate) way: Option<usize>,
    /// What was got in place of an answer, each in a line of its own.
    pub(crate) got: String,
}

impl Tries {
    pub(crate) fn new(alloc: Global) -> Tries {
        Tries {
            known: Known::new(alloc),
            runs: 0,
            case: 0,
            line: 0,
            number: None,
            way: None,
            got: String::new(alloc),
        }
    }

    /// Begins the case whose name stands at a line.
    pub(crate) fn begin(&mut self, line: u64) {
        self.case = line;
        self.line = line;
        self.number = None;
        self.way = None;
        self.got.clear();
    }

    /// Fails where something was got in place of an answer.
    pub(crate) fn compare(&mut self, got: String) -> Result<()> {
        if got.as_str().is_empty() {
            return Ok(());
        }
        self.got = got;
        bail!("it answers something else")
    }

    /// Adds the name of a statement `let NAME BYTES`.
    pub(crate) fn learn<R: Threads + Sync>(
        &mut self,
        rt: &R,
        alloc: Global,
        statement: &Statement,
    ) -> Result<()> {
        let Some((name, words)) = statement.rest().split_first() else {
            bail!("no name");
        };
        let bytes = said_bytes(rt, alloc, self, words)?;
        Ok(self.known.add(alloc, name.as_str(), bytes)?)
    }
}
