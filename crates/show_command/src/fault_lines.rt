ghost use Rattle.std.specs.Prelude.{◌++◌, ◌∷◌, decimal};
ghost use lib.Chars.{codes};
ghost use Rattle.record_io.specs.Calls.{PutsThrough, PutsTo};
ghost use Rattle.chunk_reader.specs.Names.{name_of};
ghost use Rattle.command_frame.specs.Answers.{line};
ghost use Rattle.command_frame.specs.Endings.{EndsWith};
ghost use Rattle.show_command.specs.Readings.{file_text, refusal_line, refused_file_text, refused_text};

use chunk_reader::Fault;
use command_frame::{LINE, Status};
use itoa::Buffer;
use record_io::{Failed, PutBuffer, Sink};

/// Ends the work with the line of a fault of a file, which is refused.
pub fn end_with_fault<E: Sink>(notes: &mut E, fault: &Fault) -> Status
    ensures notes { EndsWith E.taken E.lent E.faults result Status.Refused (refused_text fault.now)
        notes.old notes.new }
{
    match put_refusal(notes, None, fault) {
        Ok(()) => Status::Refused,
        Err(Failed) => Status::Notes,
    }
}

/// The same with a fault of one of several files, which is told by its number from 0.
pub fn end_with_file_fault<E: Sink>(notes: &mut E, index: u64, fault: &Fault) -> Status
    ensures notes { EndsWith E.taken E.lent E.faults result Status.Refused
        (refused_file_text index fault.now) notes.old notes.new }
{
    match put_refusal(notes, Some(index), fault) {
        Ok(()) => Status::Refused,
        Err(Failed) => Status::Notes,
    }
}

/// Puts the line of a fault of a file, by its number where it is one of several.
fn put_refusal<E: Sink>(notes: &mut E, index: Option<u64>, fault: &Fault) -> Result<(), Failed>
    ensures notes { PutsTo E.taken E.lent E.faults result (refusal_line index fault.now) notes.old notes.new }
{
    let mut held = PutBuffer::<LINE>::new();
    put_front(&mut held, index, notes)?;
    put_fault(&mut held, fault, notes)?;
    held.flush(notes)
}

/// Puts the front of the line, up to the fault.
fn put_front<E: Sink>(
    held: &mut PutBuffer<LINE>,
    index: Option<u64>,
    notes: &mut E,
) -> Result<(), Failed>
    ensures notes { PutsThrough E.taken E.lent E.faults result held.old held.new
        (codes "refused " ++ file_text index) notes.old notes.new }
{
    let Some(index) = index else {
        return held.put(notes, "refused ".as_bytes());
    };
    let mut number = Buffer::new();
    let pieces = [
        "refused ".as_bytes(),
        number.format(index).as_bytes(),
        " ".as_bytes(),
    ];
    held.put_each(notes, &pieces)
}

/// Puts a fault, which ends the line.
fn put_fault<E: Sink>(
    held: &mut PutBuffer<LINE>,
    fault: &Fault,
    notes: &mut E,
) -> Result<(), Failed>
    ensures notes { PutsThrough E.taken E.lent E.faults result held.old held.new
        (line (decimal fault.now.at ++ 32 ∷ name_of fault.now.why)) notes.old notes.new }
{
    let mut at = Buffer::new();
    let pieces = [
        at.format(fault.at).as_bytes(),
        " ".as_bytes(),
        fault.why.name().as_bytes(),
        "\n".as_bytes(),
    ];
    held.put_each(notes, &pieces)
}
