ghost use Rattle.std.specs.Prelude.{map};
ghost use Rattle.std.specs.List.{concat};
ghost use Rattle.record_io.specs.Calls.{PutsTo, PutsThrough};
ghost use Rattle.command_frame.specs.FileAnswers.{count_line, report};

use itoa::Buffer;
use record_io::{Failed, PutBuffer, Sink, Totals};

/// How many bytes of lines are held.
const HELD: usize = 256;

/// Puts the report of totals.
pub fn put_report<O: Sink>(totals: &Totals, out: &mut O) -> Result<(), Failed>
    ensures out { PutsTo O.taken O.lent O.faults result (report totals.now) out.old out.new }
{
    let counts = [
        ("chunks", totals.chunks),
        ("records", totals.records),
        ("bytes", totals.bytes),
        ("unread", totals.unread),
    ];
    put_counts(&counts, out)
}

/// Puts numbers, each as a line behind its name.
///
/// # Errors
///
/// `Failed` only where the sink failed. It took a front of the lines and not all.
pub fn put_counts<O: Sink>(counts: &[(&str, u64)], out: &mut O) -> Result<(), Failed>
    ensures out { PutsTo O.taken O.lent O.faults result
        (concat (map (λ count. count_line count.0.now count.1) counts.now)) out.old out.new }
{
    let mut lines = PutBuffer::<HELD>::new();
    for count in counts {
        put_count(&mut lines, count.0, count.1, out)?;
    }
    lines.flush(out)
}

/// Puts a number as a line behind its name, by way of lines that are held.
fn put_count<O: Sink>(
    lines: &mut PutBuffer<HELD>,
    name: &str,
    number: u64,
    out: &mut O,
) -> Result<(), Failed>
    ensures out { PutsThrough O.taken O.lent O.faults result lines.old lines.new (count_line name.now number) out.old out.new }
{
    let mut digits = Buffer::new();
    let pieces = [
        name.as_bytes(),
        " ".as_bytes(),
        digits.format(number).as_bytes(),
        "\n".as_bytes(),
    ];
    lines.put_each(out, &pieces)
}
