//! Streams over stand-ins.
use crate::stand_ins::{Call, Fake, Script};
use record_io::{Failed, Sink, Source, StdInput, StdOut};
use std::process::Abort;

/// Which call fails, how many bytes a call moves at most, and the answers.
const READERS: [(Option<Call>, usize, [Result<usize, Failed>; 3]); 3] = [
    (None, 9, [Ok(8), Ok(0), Ok(0)]),
    (None, 3, [Ok(3), Ok(3), Ok(2)]),
    (Some(Call::Read), 3, [Err(Failed), Err(Failed), Err(Failed)]),
];

/// Takes from a reader three times.
fn assert_reader(rt: &impl Abort, script: Script, answers: &[Result<usize, Failed>; 3]) {
    let mut input = StdInput::new(Fake::new(script));
    let mut buf = [0; 100_000];
    for answer in answers {
        assert_eq!(rt; input.take(&mut buf), *answer, "{script:?}");
    }
}

#[test]
fn readers_give_less_and_fail(rt: HostRuntime) {
    for (fails, most, answers) in READERS {
        assert_reader(&rt, Script { fails, most }, &answers);
    }
}

/// Which call fails, how many bytes a call moves at most, and the answer.
const WRITERS: [(Option<Call>, usize, Result<usize, Failed>); 6] = [
    (None, 1 << 20, Ok(100_000)),
    (None, 70_000, Ok(70_000)),
    (None, 3, Ok(3)),
    (None, 0, Err(Failed)),
    (Some(Call::Write), 3, Err(Failed)),
    (Some(Call::Flush), 3, Err(Failed)),
];

/// Puts to a writer.
fn assert_writer(rt: &impl Abort, script: Script, answer: Result<usize, Failed>) {
    let mut out = StdOut::new(Fake::new(script));
    assert_eq!(rt; out.put(&[b'x'; 100_000]), answer, "{script:?}");
}

#[test]
fn writers_take_less_and_fail(rt: HostRuntime) {
    for (fails, most, answer) in WRITERS {
        assert_writer(&rt, Script { fails, most }, answer);
    }
}
