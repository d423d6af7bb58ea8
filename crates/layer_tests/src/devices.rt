//! Devices over stand-ins, and real ones.
ghost use Rattle.std.specs.Prelude.{◌≤◌, length, IsSomeAnd};

use crate::stand_ins::{Call, FOLDER, FakeFiles, REPLACED, Script};
use record_append::{AsSink, AsStore, Device, FileDevice};
use record_io::{Failed, Store, get_exact, put_all};
use std::fs::{self, OpenFile, OpenOptions};
use std::io;
use std::process::Abort;
use std::test::Fail;

/// Reads the front of a device, cuts off what is behind it, and puts a piece there.
fn regrow<G: Device>(device: &mut G, front: &mut [u8], piece: &[u8]) -> Result<(), Failed>
    requires { IsSomeAnd (G.told device.old) (λ size. length front.old ≤ size) }
{
    get_exact(&mut AsStore::new(device), 0, front)?;
    let at = front.len() as u64;
    device.cut(at)?;
    put_all(&mut AsSink::new(device, at), piece)
}

/// What a device answers that is asked for its size, cut and put to.
type SizeCutAndPut = (
    Result<u64, Failed>,
    Result<(), Failed>,
    Result<usize, Failed>,
);

fn size_cut_and_put<G: Device>(device: &mut G) -> SizeCutAndPut {
    match device.size() {
        Ok(size) if size > 2 => (Ok(size), device.cut(2), device.put(b"abc")),
        size => (size, Err(Failed), device.put(b"abc")),
    }
}

/// The name of a file, which call fails, the answers of the size and of the put, and how often the file is opened.
const DEVICES: [(
    &str,
    Option<Call>,
    Result<u64, Failed>,
    Result<usize, Failed>,
    u32,
); 8] = [
    ("file", None, Ok(8), Ok(3), 1),
    ("file", Some(Call::About), Ok(8), Ok(3), 1),
    ("file", Some(Call::Open), Err(Failed), Err(Failed), 1),
    ("file", Some(Call::Size), Err(Failed), Err(Failed), 1),
    ("file", Some(Call::Write), Ok(8), Err(Failed), 1),
    ("file", Some(Call::Flush), Ok(8), Err(Failed), 1),
    (FOLDER, None, Err(Failed), Err(Failed), 0),
    (REPLACED, None, Err(Failed), Err(Failed), 1),
];

/// Asks, cuts and puts to a device twice. A stand-in is never cut, and keeps its size.
fn use_twice<G: Device>(device: &mut G) -> [SizeCutAndPut; 2] {
    [size_cut_and_put(device), size_cut_and_put(device)]
}

fn assert_device(
    rt: &impl Abort,
    path: &str,
    script: Script,
    answers: &SizeCutAndPut,
    opened: u32,
) {
    let files = FakeFiles::new(script);
    let mut device = FileDevice::named(&files, path);
    assert_eq!(rt; files.opened.get(), 0);
    let used = use_twice(&mut device);
    let is_right = used == [*answers; 2] && files.opened.get() == opened;
    assert!(rt; is_right, "{path}, {script:?}: {used:?}");
}

#[test]
fn devices_fail_with_each_call_of_a_file(rt: HostRuntime) {
    for (path, fails, size, put, opened) in DEVICES {
        let answers = (size, Err(Failed), put);
        assert_device(&rt, path, Script { fails, most: 9 }, &answers, opened);
    }
}

/// The size, the front that is read before the rest is cut off, and what is put behind it.
const GROWN: [(u64, &str, &str); 3] = [(0, "", "abcdef"), (6, "abcd", "gh"), (6, "abcdgh", "i")];

/// Grows a device.
fn assert_grown<G: Device>(
    rt: &impl Abort,
    device: &mut G,
    size: u64,
    front: &[u8],
    piece: &[u8],
) -> Result<(), Failed> {
    let told = device.size()?;
    assert!(rt; told == size && front.len() as u64 <= told && front.len() <= 6);
    let mut buf = [0; 6];
    let read = &mut buf[..front.len()];
    regrow(device, read, piece)?;
    assert_eq!(rt; &buf[..front.len()], front);
    Ok(())
}

/// Where a real file is cut no clause says, since std's `set_len` has none.
#[test]
fn a_file_is_made_cut_and_grown_at_its_end(rt: HostRuntime) -> Result<(), Fail> {
    let mut device = FileDevice::named(&rt, "grown");
    for (size, front, piece) in GROWN {
        assert_grown(&rt, &mut device, size, front.as_bytes(), piece.as_bytes())?;
    }
    assert_eq!(rt; device.size(), Ok(7));
    fs::remove_file(&rt, "grown")?;
    Ok(())
}

/// The size that somebody else gives a file of seven bytes before it is cut to five, the answer, the size before a byte is put,
/// the answer, and the last size.
const CHANGES: [(u64, Result<(), Failed>, u64, Result<usize, Failed>, u64); 5] = [
    (7, Ok(()), 5, Ok(1), 6),
    (7, Ok(()), 6, Err(Failed), 6),
    (7, Ok(()), 4, Err(Failed), 4),
    (8, Err(Failed), 8, Err(Failed), 8),
    (4, Err(Failed), 4, Err(Failed), 4),
];

/// Has a device tell a size of at least five.
fn tell_five<G: Device>(rt: &impl Abort, device: &mut G)
    ensures { IsSomeAnd (G.told device.new) (λ size. 5 ≤ size) }
{
    let told = device.size().expect(rt, "a size");
    assert!(rt; told >= 5);
}

/// Cuts a device that told such a size to five bytes.
fn assert_cut<G: Device>(rt: &impl Abort, device: &mut G, answer: Result<(), Failed>)
    requires { IsSomeAnd (G.told device.old) (λ size. 5 ≤ size) }
{
    assert_eq!(rt; device.cut(5), answer);
}

/// Puts to a device whose file is given a size, and asks for the last one.
fn assert_put<G: Device, F: OpenFile>(
    rt: &impl Abort,
    device: &mut G,
    file: &F,
    size: u64,
    answer: Result<usize, Failed>,
    last: u64,
) -> io::Result<()> {
    file.set_len(size)?;
    assert_eq!(rt; device.put(b"x"), answer, "{size}");
    assert_eq!(rt; device.size(), Ok(last), "{size}");
    Ok(())
}

/// Uses a device by turns with somebody else.
fn assert_changed<G: Device, F: OpenFile>(
    rt: &impl Abort,
    device: &mut G,
    file: &F,
    row: &(u64, Result<(), Failed>, u64, Result<usize, Failed>, u64),
) -> io::Result<()> {
    let (before_cut, cut, before_put, put, last) = *row;
    file.set_len(7)?;
    tell_five(rt, device);
    file.set_len(before_cut)?;
    assert_cut(rt, device, cut);
    assert_put(rt, device, file, before_put, put, last)
}

#[test]
fn a_file_that_somebody_else_changes_is_left_as_it_is(rt: HostRuntime) -> Result<(), Fail> {
    let mut device = FileDevice::named(&rt, "shared");
    assert_eq!(rt; device.put(b"abcdefg"), Ok(7));
    let file = OpenOptions::new().write(true).open(&rt, "shared")?;
    for row in &CHANGES {
        assert_changed(&rt, &mut device, &file, row)?;
    }
    fs::remove_file(&rt, "shared")?;
    Ok(())
}
