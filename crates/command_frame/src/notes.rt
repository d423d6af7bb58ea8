ghost use Rattle.std.specs.Prelude.{◌≡◌, ◌++◌, [], decimal};
ghost use Rattle.record_io.specs.Calls.{OnlyCounts, PutsTo};
ghost use Rattle.record_io.specs.Seen.{seen_stream};
ghost use Rattle.command_frame.specs.Answers.{line};
ghost use Rattle.command_frame.specs.Endings.{EndsWith, status_of};
ghost use Rattle.command_frame.specs.FileAnswers.{limit_text};
ghost use Rattle.command_frame.specs.RunLeaves.{TakesThen};
ghost use Rattle.command_frame.specs.Statuses.{fault_text};

use crate::status::Status;
use itoa::Buffer;
use record_io::{Cut, Failed, PutBuffer, Sink, put_all};

/// The most bytes of a line.
pub const LINE: usize = 128;

/// Ends the work with a text and its status, or with that of a fault of notes.
pub fn end<E: Sink>(notes: &mut E, text: &str, status: Status) -> Status
    ensures notes { EndsWith E.taken E.lent E.faults result status text.now notes.old notes.new }
{
    match put_all(notes, text.as_bytes()) {
        Ok(()) => status,
        Err(Failed) => Status::Notes,
    }
}

/// The same where a file has more bytes than are read.
pub fn end_too_long<E: Sink>(notes: &mut E) -> Status
    ensures notes { EndsWith E.taken E.lent E.faults result Status.Limit limit_text
        notes.old notes.new }
{
    end(notes, "limit file\n", Status::Limit)
}

/// The same with a line of a text and a number.
pub fn end_with_number<E: Sink>(notes: &mut E, text: &str, number: u64, status: Status) -> Status
    ensures notes { EndsWith E.taken E.lent E.faults result status (line (text.now ++ decimal number))
        notes.old notes.new }
{
    match put_number(notes, text, number) {
        Ok(()) => status,
        Err(Failed) => Status::Notes,
    }
}

/// Puts a line of a text and a number.
fn put_number<E: Sink>(notes: &mut E, text: &str, number: u64) -> Result<(), Failed>
    ensures notes { PutsTo E.taken E.lent E.faults result (line (text.now ++ decimal number)) notes.old notes.new }
{
    let mut line = PutBuffer::<LINE>::new();
    line.put(notes, text.as_bytes())?;
    line.put(notes, Buffer::new().format(number).as_bytes())?;
    line.put(notes, b"\n")?;
    line.flush(notes)
}

/// Ends the work that was cut off, with the line that tells it. The status stays where notes fail too.
pub fn cut_off<E: Sink>(notes: &mut E, cut: Cut) -> Status
    ensures status { result ≡ status_of cut }
    ensures told { TakesThen (seen_stream E.taken E.faults notes.old)
        (seen_stream E.taken E.faults notes.new) [] (fault_text (status_of cut)) }
    ensures kept { cut ≡ Cut.Notes → notes.new ≡ notes.old }
    ensures notes { OnlyCounts E.lent E.faults ⊥ notes.old notes.new }
{
    if cut == Cut::Notes {
        return Status::Notes;
    }
    let _ = put_all(notes, fault_line(cut).as_bytes());
    Status::of(cut)
}

/// The line that tells a fault or want of memory.
fn fault_line(cut: Cut) -> &'static str
    ensures { result.now ≡ fault_text (status_of cut) }
{
    match cut {
        Cut::Input => "input fault\n",
        Cut::File => "file fault\n",
        Cut::Made => "made fault\n",
        Cut::Grown => "grown fault\n",
        Cut::Out => "out fault\n",
        Cut::Notes => "",
        Cut::Memory => "out of memory\n",
    }
}
