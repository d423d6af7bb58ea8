//! The statements of a case, carried out one after another.

use crate::faults::try_faults;
use crate::hostile_files::try_hostile;
use crate::running::run_in_memory;
use crate::sought::try_sought;
use crate::tries::Tries;
use crate::written::{fact_of, said_bytes};
use anyhow::{Result, bail};
use case_text::files::GivenFile;
use case_text::given::{Given, Object};
use case_text::texts::command_of;
use case_text::words::Statement;
use plain_reading::answers::{Answer, says_answer};
use std::alloc::{AllocError, Global};
use std::thread::Threads;

/// A run whose answer is awaited.
#[derive(Drop)]
struct Run {
    line: u64,
    words: Vec<String>,
}

/// A case that is carried out.
#[derive(Drop)]
pub(crate) struct Trial {
    given: Given,
    /// The objects whose calls fail in turn.
    failing: Vec<Object>,
    runs: Vec<Run>,
    answer: Answer,
    /// Whether a run stands behind the last file.
    files_used: bool,
    /// Whether there was a run.
    ran: bool,
}

impl Trial {
    /// Nothing is given yet, the calls of these objects fail in turn, and calls are cut in this way.
    pub(crate) fn new(
        alloc: Global,
        failing: &[Object],
        cuts: &[u32],
    ) -> Result<Trial, AllocError> {
        let failing = failing.to_vec(alloc)?;
        let mut given = Given::new(alloc);
        given.cuts = cuts.to_vec(alloc)?;
        Ok(Trial {
            given,
            failing,
            runs: Vec::new(alloc),
            answer: Answer::new(alloc),
            files_used: false,
            ran: false,
        })
    }

    /// Carries out the statements of the case.
    pub(crate) fn carry_out_all<R: Threads + Sync>(
        &mut self,
        rt: &R,
        alloc: Global,
        tries: &mut Tries,
        statements: &[Statement],
    ) -> Result<()> {
        for statement in statements {
            if self.is_settled_by(statement.kind()) {
                self.settle(rt, alloc, tries)?;
            }
            tries.line = statement.line;
            self.carry_out(rt, alloc, tries, statement)?;
        }
        self.settle(rt, alloc, tries)?;
        tries.line = tries.case;
        if !self.ran {
            bail!("nothing is run");
        }
        Ok(())
    }

    /// Whether the runs above such a statement are told their answer by what stands before it.
    fn is_settled_by(&self, kind: &str) -> bool {
        !says_answer(kind) && (kind != "run" || self.answer.told)
    }

    /// Carries out a statement.
    fn carry_out<R: Threads + Sync>(
        &mut self,
        rt: &R,
        alloc: Global,
        tries: &mut Tries,
        statement: &Statement,
    ) -> Result<()> {
        let words = statement.rest();
        match statement.kind() {
            "each" => Ok(()),
            "run" => self.take_run(alloc, statement),
            "file" => self.take_file(rt, alloc, tries, words),
            "sought" => try_sought(rt, alloc, tries, self.used(), words),
            "hostile" => try_hostile(rt, alloc, tries, self.used(), words),
            kind if says_answer(kind) => self.take_answer(rt, alloc, tries, statement),
            _ => self.given.carry_out(alloc, &tries.known, statement),
        }
    }

    /// What is given, to many runs, which other runs tell their answers.
    fn used(&mut self) -> &Given {
        self.files_used = true;
        self.ran = true;
        &self.given
    }

    /// Takes in one more run.
    fn take_run(&mut self, alloc: Global, statement: &Statement) -> Result<()> {
        let words = command_of(alloc, statement.rest())?;
        let line = statement.line;
        self.runs.push(Run { line, words })?;
        self.files_used = true;
        self.ran = true;
        Ok(())
    }

    /// Takes in what the runs above answer.
    fn take_answer<R: Threads + Sync>(
        &mut self,
        rt: &R,
        alloc: Global,
        tries: &mut Tries,
        statement: &Statement,
    ) -> Result<()> {
        if self.runs.is_empty() {
            bail!("no run stands above it");
        }
        let is_taken = self
            .answer
            .take(alloc, &tries.known, &self.given, statement)?;
        if is_taken {
            return Ok(());
        }
        let object = Object::named(statement.kind())?;
        let fact = fact_of(rt, alloc, tries, statement.rest())?;
        self.answer.add_fact(object, fact)
    }

    /// Takes in one more file, or gives the last one a name.
    fn take_file<R: Threads + Sync>(
        &mut self,
        rt: &R,
        alloc: Global,
        tries: &mut Tries,
        words: &[String],
    ) -> Result<()> {
        match words {
            [first, name] if first.as_str() == "as" => {
                let bytes = self.given.last_file()?.bytes.to_vec(alloc)?;
                Ok(tries.known.add(alloc, name.as_str(), bytes)?)
            }
            _ => Ok(self.add_file(said_bytes(rt, alloc, tries, words)?)?),
        }
    }

    /// Adds a file of these bytes, the first one where a run stands above.
    fn add_file(&mut self, bytes: Vec<u8>) -> Result<(), AllocError> {
        if self.files_used {
            self.given.files.clear();
            self.files_used = false;
        }
        self.given.files.push(GivenFile::new(bytes))?;
        Ok(())
    }

    /// Runs what stands above, and compares what it answers.
    fn settle<R: Threads + Sync>(
        &mut self,
        rt: &R,
        alloc: Global,
        tries: &mut Tries,
    ) -> Result<()> {
        for run in &self.runs {
            tries.line = run.line;
            try_run(
                rt,
                alloc,
                tries,
                &run.words,
                &mut self.given,
                &self.answer,
                &self.failing,
            )?;
        }
        self.runs.clear();
        self.answer = Answer::new(alloc);
        Ok(())
    }
}

/// Runs the words, where calls of objects are to fail with each of these calls failing, and compares what is answered.
fn try_run<R: Threads + Sync>(
    rt: &R,
    alloc: Global,
    tries: &mut Tries,
    words: &[String],
    given: &mut Given,
    answer: &Answer,
    failing: &[Object],
) -> Result<()> {
    if !answer.told {
        bail!("nothing is said of this run");
    }
    if failing.is_empty() {
        return try_whole(rt, alloc, tries, words, given, answer);
    }
    for object in failing {
        try_faults(rt, alloc, tries, words, given, answer, *object)?;
    }
    Ok(())
}

/// Runs the words once, and compares what is answered.
fn try_whole<R: Threads + Sync>(
    rt: &R,
    alloc: Global,
    tries: &mut Tries,
    words: &[String],
    given: &Given,
    answer: &Answer,
) -> Result<()> {
    let left = run_in_memory(rt, alloc, words, given, &mut tries.runs)?;
    tries.compare(answer.differences(alloc, &left)?)?;
    Ok(answer.name_left(alloc, &mut tries.known, &left)?)
}
