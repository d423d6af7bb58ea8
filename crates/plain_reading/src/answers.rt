//! What a run is to answer, and where it answers something else.

use crate::walk::walked;
use crate::weave::is_woven;
use anyhow::{Result, bail};
use case_text::facts::Fact;
use case_text::files::GivenFile;
use case_text::given::{Given, Object};
use case_text::left::Left;
use case_text::names::Known;
use case_text::words::{Statement, one_number, refused};
use std::alloc::{AllocError, Global};

/// What a run is to answer.
#[derive(Drop)]
pub struct Answer {
    /// Whether anything is said of it.
    pub told: bool,
    /// Whether nothing but status 0 is allowed.
    silent: bool,
    /// What is said of the status.
    statuses: Vec<u8>,
    /// The name that the status gets, if one is wanted.
    status_name: Option<String>,
    /// What is said of the bytes that objects took.
    facts: Vec<(Object, Fact)>,
    /// How many bytes the last file handed out at most, if that is said.
    handed: Option<u64>,
    /// How many of its bytes the grown file keeps, if that is said.
    kept: Option<usize>,
    /// What a plain walk shows of each file whose records are woven into the made one, if they are.
    woven: Option<Vec<Vec<u8>>>,
}

/// The kinds of statements that say what a run answers.
const KINDS: &str = "silent status made grown kept out notes handed walked woven";

/// Whether this kind of statement says what a run answers.
pub fn says_answer(kind: &str) -> bool {
    for said in KINDS.split(' ') {
        if said == kind {
            return true;
        }
    }
    false
}

impl Answer {
    /// Status 0, and no bytes. Nothing is said of it yet.
    pub fn new(alloc: Global) -> Answer {
        Answer {
            told: false,
            silent: false,
            statuses: Vec::new(alloc),
            status_name: None,
            facts: Vec::new(alloc),
            handed: None,
            kept: None,
            woven: None,
        }
    }

    /// Takes in a statement that says what the run answers that is given this. Whether it did: what is said of bytes is a fact to
    /// add.
    pub fn take(
        &mut self,
        alloc: Global,
        known: &Known,
        given: &Given,
        statement: &Statement,
    ) -> Result<bool> {
        let (kind, words) = (statement.kind(), statement.rest());
        if self.silent || self.told && kind == "silent" {
            bail!("silent, and more is said");
        }
        self.told = true;
        match kind {
            "silent" | "walked" | "woven" => self.take_word(alloc, given, kind, words)?,
            "status" => self.take_status(alloc, known, words)?,
            "handed" => self.take_handed(given, words)?,
            "kept" => self.take_kept(words)?,
            _ => return Ok(false),
        }
        Ok(true)
    }

    /// Takes in a statement that is one word.
    fn take_word(
        &mut self,
        alloc: Global,
        given: &Given,
        kind: &str,
        words: &[String],
    ) -> Result<()> {
        if !words.is_empty() {
            bail!("no word follows it");
        }
        match kind {
            "walked" => self.take_walk(alloc, given),
            "woven" => self.take_weave(alloc, given),
            _ => {
                self.silent = true;
                Ok(())
            }
        }
    }

    /// Adds what is said of the bytes of an object.
    pub fn add_fact(&mut self, object: Object, fact: Fact) -> Result<()> {
        self.facts.push((object, fact))?;
        Ok(())
    }

    /// Takes in the status of `N`, of a name, or of `as NAME`.
    fn take_status(&mut self, alloc: Global, known: &Known, words: &[String]) -> Result<()> {
        match words {
            [first, name] if first.as_str() == "as" => {
                self.status_name = Some(String::from_str(alloc, name.as_str())?);
            }
            [word] => self.statuses.push(status_of(known, word.as_str())?)?,
            _ => bail!("not one status"),
        }
        Ok(())
    }

    /// Takes in how many bytes the last file hands out at most.
    fn take_handed(&mut self, given: &Given, words: &[String]) -> Result<()> {
        if given.last_file()?.untold.is_none() {
            bail!("the last file isn't an untold one");
        }
        self.handed = Some(one_number(words)? as u64);
        Ok(())
    }

    /// Takes in what a plain walk over the last file answers.
    fn take_walk(&mut self, alloc: Global, given: &Given) -> Result<()> {
        let file = given.last_file()?;
        if file.untold.is_some() {
            bail!("no walk goes over an untold file");
        }
        let (out, notes) = walked(alloc, &file.bytes)?;
        self.statuses.push(if notes.is_empty() { 0 } else { 9 })?;
        self.add_fact(Object::Out, Fact::All(out))?;
        self.add_fact(Object::Notes, Fact::All(notes))
    }

    /// Takes in that the records of all files are woven into the made one.
    fn take_weave(&mut self, alloc: Global, given: &Given) -> Result<()> {
        let mut woven = Vec::new(alloc);
        for file in &given.files {
            woven.push(shown_whole(alloc, file)?)?;
        }
        self.woven = Some(woven);
        Ok(())
    }

    /// Takes in how many of its bytes the grown file keeps.
    fn take_kept(&mut self, words: &[String]) -> Result<()> {
        self.kept = Some(one_number(words)?);
        Ok(())
    }

    /// Whether the status is as it is said: 0 where nothing is.
    pub fn is_status(&self, status: u8) -> bool {
        if self.statuses.is_empty() {
            self.status_name.is_some() || status == 0
        } else {
            self.statuses.iter().all(|said| *said == status)
        }
    }

    /// Whether what a run left of the object is as it is said: as it was before where nothing is.
    fn holds(&self, object: Object, left: &Left) -> bool {
        let taken = left.taken(object);
        let mut said = self.woven.is_some() && matches!(object, Object::Made | Object::Out);
        for (about, fact) in &self.facts {
            if *about == object {
                said = true;
                if !fact.holds(taken) {
                    return false;
                }
            }
        }
        said || taken == left.before(object)
    }

    /// All bytes that the object is to take, or to have where it is grown.
    pub fn whole<'a>(&'a self, object: Object, left: &'a Left) -> Result<&'a [u8]> {
        if self.woven.is_some() {
            bail!("records may be woven in many ways");
        }
        let mut whole = left.before(object);
        for (about, fact) in &self.facts {
            if *about == object {
                whole = all_bytes(object, fact)?;
            }
        }
        Ok(whole)
    }

    /// Whether the grown file is as it was, or has the front that it keeps and a front of what is to stand behind it.
    pub fn is_grown_in_part(&self, left: &Left) -> Result<bool> {
        let (old, held) = (left.old.as_slice(), left.grown.as_slice());
        let whole = self.whole(Object::Grown, left)?;
        let kept = self.kept.unwrap_or(old.len());
        if old.len() < kept || !whole.starts_with(old.get(..kept).unwrap_or(old)) {
            bail!("the grown file doesn't keep its first {kept} bytes");
        }
        Ok(held == old || kept <= held.len() && whole.starts_with(held))
    }

    /// Tells of what a run left all that is something else. It is empty where nothing is.
    pub fn differences(&self, alloc: Global, left: &Left) -> Result<String> {
        let mut told = String::new(alloc);
        if !self.is_status(left.status) {
            left.tell_status(&mut told)?;
        }
        for object in Object::TAKING {
            if !self.holds(object, left) {
                left.tell_taken(alloc, &mut told, object)?;
            }
        }
        if let Some(files) = &self.woven {
            compare_weave(alloc, &mut told, files, left)?;
        }
        self.compare_handed(&mut told, left)?;
        Ok(told)
    }

    /// Tells how many bytes the last file handed out, where they are too many.
    fn compare_handed(&self, told: &mut String, left: &Left) -> Result<(), AllocError> {
        match self.handed {
            Some(most) if left.handed > most => write!(told, "\n  handed {}", left.handed),
            _ => Ok(()),
        }
    }

    /// Gives what a run left the names that are wanted.
    pub fn name_left(
        &self,
        alloc: Global,
        known: &mut Known,
        left: &Left,
    ) -> Result<(), AllocError> {
        if let Some(name) = &self.status_name {
            name_status(alloc, known, name.as_str(), left.status)?;
        }
        for (object, fact) in &self.facts {
            if let Fact::Named(name) = fact {
                known.add(alloc, name.as_str(), left.taken(*object).to_vec(alloc)?)?;
            }
        }
        Ok(())
    }
}

/// Gives a status a name.
fn name_status(alloc: Global, known: &mut Known, name: &str, status: u8) -> Result<(), AllocError> {
    let digits = format!(in alloc; "{status}")?;
    known.add(alloc, name, digits.into_bytes())
}

/// Tells what a run left where its records aren't those of these files.
fn compare_weave(alloc: Global, told: &mut String, files: &[Vec<u8>], left: &Left) -> Result<()> {
    if is_woven(alloc, files, &left.made, &left.out)? {
        return Ok(());
    }
    told.push_str("\n  not woven")?;
    left.tell_taken(alloc, told, Object::Made)?;
    left.tell_taken(alloc, told, Object::Out)?;
    Ok(())
}

/// The bytes that are all that the object takes, by this fact.
fn all_bytes(object: Object, fact: &Fact) -> Result<&[u8]> {
    match fact {
        Fact::All(bytes) => Ok(bytes),
        _ => bail!("not all bytes of {} are said", object.name()),
    }
}

/// What a plain walk shows of a whole file that shows its bytes.
fn shown_whole(alloc: Global, file: &GivenFile) -> Result<Vec<u8>> {
    let size = file.bytes.len() as u64;
    if file.untold.unwrap_or(size) != size {
        bail!("no walk goes over an untold file");
    }
    let (shown, notes) = walked(alloc, &file.bytes)?;
    if !notes.is_empty() {
        bail!("a file is refused");
    }
    Ok(shown)
}

/// The status that a word says: a number, or the name of what a run ended with.
fn status_of(known: &Known, word: &str) -> Result<u8> {
    if let Ok(status) = word.parse() {
        return Ok(status);
    }
    let named = str::from_utf8(known.bytes(word)?).unwrap_or("");
    match named.parse() {
        Ok(status) => Ok(status),
        Err(_) => Err(refused("no status", word)),
    }
}
