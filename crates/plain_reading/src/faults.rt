//! What a run leaves of which a call fails.

use crate::answers::Answer;
use anyhow::Result;
use case_text::given::Object;
use case_text::left::Left;
use std::alloc::Global;

/// What a run ends with whose call of the object failed: its status, and its line of notes.
fn fault_of(object: Object) -> (u8, &'static [u8]) {
    match object {
        Object::Input => (3, b"input fault\n"),
        Object::File => (4, b"file fault\n"),
        Object::Made => (5, b"made fault\n"),
        Object::Grown => (15, b"grown fault\n"),
        Object::Out => (6, b"out fault\n"),
        Object::Notes => (13, b""),
    }
}

/// Whether notes end with the fault's line, behind a front of whole lines of what they are to take. Unless regions were
/// skipped the last of these says how the run ends, and is no part of that front.
fn tells_fault(notes: &[u8], line: &[u8], whole: &[u8], skipped: bool) -> bool {
    match notes.strip_suffix(line) {
        Some([]) => true,
        Some(told) => {
            told.ends_with(b"\n")
                && whole.starts_with(told)
                && (skipped || told.len() < whole.len())
        }
        None => false,
    }
}

/// Whether what a run left of one object is a front of what it is to leave, and less than that where the object's own call
/// failed. Of notes it is that front and the fault's line.
fn is_front(answer: &Answer, left: &Left, taking: Object, failing: Object) -> Result<bool> {
    let (taken, whole) = (left.taken(taking), answer.whole(taking, left)?);
    if taking == Object::Grown {
        let may_be_whole = taking != failing || whole == left.before(taking);
        Ok(answer.is_grown_in_part(left)? && (may_be_whole || taken != whole))
    } else if taking == Object::Notes && taking != failing {
        let (_, line) = fault_of(failing);
        Ok(tells_fault(taken, line, whole, answer.is_status(9)))
    } else {
        Ok(whole.starts_with(taken) && (taking != failing || taken != whole))
    }
}

/// Tells of what a run left all that is not what one leaves whose call of the object failed: its status and its line, and
/// fronts of what the others are to take, where the object itself did not take the whole.
pub fn fault_differences(
    alloc: Global,
    answer: &Answer,
    left: &Left,
    object: Object,
) -> Result<String> {
    let mut told = String::new(alloc);
    let (status, _) = fault_of(object);
    if left.status != status {
        left.tell_status(&mut told)?;
    }
    for taking in Object::TAKING {
        if !is_front(answer, left, taking, object)? {
            left.tell_taken(alloc, &mut told, taking)?;
        }
    }
    Ok(told)
}
