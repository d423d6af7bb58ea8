//! What a run is given.

use crate::bytes::bytes_of;
use crate::files::{GivenFile, change, copy};
use crate::names::Known;
use crate::words::{Statement, count_of, one_number, refused};
use anyhow::{Result, bail};
use std::alloc::{AllocError, Global};

/// An object that a run uses.
#[derive(Clone, Copy, PartialEq, Eq)]
pub enum Object {
    Input,
    File,
    Made,
    Grown,
    Out,
    Notes,
}

impl Object {
    /// Those that take bytes.
    pub const TAKING: [Object; 4] = [Object::Made, Object::Grown, Object::Out, Object::Notes];

    /// The object of this name.
    pub fn named(word: &str) -> Result<Object> {
        match word {
            "input" => Ok(Object::Input),
            "file" => Ok(Object::File),
            "made" => Ok(Object::Made),
            "grown" => Ok(Object::Grown),
            "out" => Ok(Object::Out),
            "notes" => Ok(Object::Notes),
            _ => Err(refused("no such object", word)),
        }
    }

    /// Its name.
    pub fn name(self) -> &'static str {
        match self {
            Object::Input => "input",
            Object::File => "file",
            Object::Made => "made",
            Object::Grown => "grown",
            Object::Out => "out",
            Object::Notes => "notes",
        }
    }
}

/// What a run is given.
#[derive(Drop)]
pub struct Given {
    /// Standard input, if it is given.
    pub input: Option<Vec<u8>>,
    pub files: Vec<GivenFile>,
    /// The file that is grown, if one is given.
    pub grown: Option<GivenFile>,
    /// How many bytes calls move at most, by turns.
    pub cuts: Vec<u32>,
    /// Calls that fail.
    pub fails: Vec<(Object, u32)>,
    /// How many bytes the made file takes, and the grown one, if that is said.
    pub room: Option<usize>,
}

impl Given {
    /// Nothing, of which no call is cut or fails.
    pub fn new(alloc: Global) -> Given {
        Given {
            input: None,
            files: Vec::new(alloc),
            grown: None,
            cuts: Vec::new(alloc),
            fails: Vec::new(alloc),
            room: None,
        }
    }

    /// The last file.
    pub fn last_file(&self) -> Result<&GivenFile> {
        match self.files.last() {
            Some(file) => Ok(file),
            None => bail!("no file stands above it"),
        }
    }

    /// The calls of the object that fail.
    pub fn fails_of(&self, alloc: Global, object: Object) -> Result<Vec<u32>, AllocError> {
        let mut calls = Vec::new(alloc);
        for (failing, call) in &self.fails {
            if *failing == object {
                calls.push(*call)?;
            }
        }
        Ok(calls)
    }

    /// Carries out a statement that says what a run is given beside files, or changes these.
    pub fn carry_out(&mut self, alloc: Global, known: &Known, statement: &Statement) -> Result<()> {
        let words = statement.rest();
        match statement.kind() {
            "input" => self.take_input(alloc, known, words),
            "copies" => self.copy_last(alloc, words),
            "grows" => self.grow_last(words),
            "cuts" => set_cuts(&mut self.cuts, words),
            "fails" => set_fails(&mut self.fails, words),
            "room" => self.take_room(words),
            _ => self.change_last(alloc, known, statement),
        }
    }

    /// Lets the bytes of these words be standard input.
    fn take_input(&mut self, alloc: Global, known: &Known, words: &[String]) -> Result<()> {
        self.input = Some(bytes_of(alloc, known, words)?);
        Ok(())
    }

    /// Lets the last file stand as often as the words say.
    fn copy_last(&mut self, alloc: Global, words: &[String]) -> Result<()> {
        copy(alloc, &mut self.files, one_number(words)?)
    }

    /// Takes in how many bytes there is room for.
    fn take_room(&mut self, words: &[String]) -> Result<()> {
        self.room = Some(one_number(words)?);
        Ok(())
    }

    /// Carries out a statement that changes the last file.
    fn change_last(&mut self, alloc: Global, known: &Known, statement: &Statement) -> Result<()> {
        match self.files.last_mut() {
            Some(file) => change(alloc, known, file, statement),
            None => Err(refused("no such statement, or no file above it", statement.kind())),
        }
    }

    /// Lets the last file be grown in place of being read.
    fn grow_last(&mut self, words: &[String]) -> Result<()> {
        if !words.is_empty() {
            bail!("no word follows it");
        }
        let Some(file) = self.files.pop() else {
            bail!("no file stands above it");
        };
        self.grown = Some(file);
        Ok(())
    }
}

/// Lets the numbers that these words are, of which there are some, take the place of others.
fn set_cuts(cuts: &mut Vec<u32>, words: &[String]) -> Result<()> {
    if words.is_empty() {
        bail!("no number");
    }
    cuts.clear();
    for word in words {
        cuts.push(count_of(word.as_str())?)?;
    }
    Ok(())
}

/// Takes in the calls of `OBJECT N .. A..B ..` in place of those of this object before.
fn set_fails(fails: &mut Vec<(Object, u32)>, words: &[String]) -> Result<()> {
    let [object, calls @ ..] = words else {
        bail!("no object");
    };
    if calls.is_empty() {
        bail!("no number");
    }
    let object = Object::named(object.as_str())?;
    fails.retain(|(failing, _)| *failing != object);
    for word in calls {
        add_fails(fails, object, word.as_str())?;
    }
    Ok(())
}

/// Adds the calls of `N` or `A..B`.
fn add_fails(fails: &mut Vec<(Object, u32)>, object: Object, word: &str) -> Result<()> {
    match word.split_once("..") {
        Some((from, to)) => add_calls(fails, object, count_of(from)?, count_of(to)?),
        None => Ok(fails.push((object, count_of(word)?))?),
    }
}

/// Adds the calls from one on below another one, of which there are some.
fn add_calls(fails: &mut Vec<(Object, u32)>, object: Object, from: u32, to: u32) -> Result<()> {
    if from >= to {
        bail!("an empty range");
    }
    for call in from..to {
        fails.push((object, call))?;
    }
    Ok(())
}
