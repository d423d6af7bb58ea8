ghost use Rattle.record_io.specs.Calls.{PutsThrough, PutsTo};
ghost use Rattle.record_ranges.specs.RangesEnds.{all_texts};

use crate::keepers::Lines;
use crate::stretches::Stretch;
use record_io::{Failed, PutBuffer, Sink};
use show_command::LINES;

/// Puts the lines of parts one after another.
pub(crate) fn put_parts<O: Sink>(parts: &[Stretch<Lines>], out: &mut O) -> Result<(), Failed>
    ensures out { PutsTo O.taken O.lent O.faults result (all_texts parts.now) out.old out.new }
{
    let mut lines = PutBuffer::<LINES>::new();
    put_each_part(parts, &mut lines, out)?;
    lines.flush(out)
}

/// Puts the lines of parts. The last ones may be held.
fn put_each_part<O: Sink>(
    parts: &[Stretch<Lines>],
    lines: &mut PutBuffer<LINES>,
    out: &mut O,
) -> Result<(), Failed>
    ensures out { PutsThrough O.taken O.lent O.faults result lines.old lines.new (all_texts parts.now) out.old out.new }
{
    for number in 0..parts.len() {
        lines.put(out, parts[number].kept.text())?;
    }
    Ok(())
}
