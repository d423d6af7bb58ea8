//! The language of worked cases: statements of words, the bytes that words say, and the files and other things that a run is
//! given and leaves. It knows nothing of what is run. `docs/CASES.md` has the language.
#![tactic(auto)]

pub mod bytes;
mod chunks;
pub mod each;
pub mod facts;
pub mod files;
pub mod given;
pub mod hostile;
pub mod left;
pub mod names;
pub mod texts;
pub mod words;
