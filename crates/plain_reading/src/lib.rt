//! What runs are to answer: as statements of cases say, as reading answers, worked out slowly from the rules of files alone, to
//! compare a quick reader with, and as other commands answer of the same file.
#![tactic(auto)]

pub mod agreement;
pub mod answers;
pub mod faults;
pub mod search;
pub mod walk;
pub mod weave;
