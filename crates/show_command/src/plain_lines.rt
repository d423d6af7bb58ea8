ghost use Rattle.std.specs.Prelude.{◌≡◌, ◌+◌, ◌<◌, ◌≤◌, ◌++◌, length, take};
ghost use Rattle.record_io.specs.Calls.{PutsThrough};
ghost use Rattle.command_frame.specs.Answers.{line};
ghost use Rattle.show_command.specs.ShowProgress.{plain_lines};

use crate::record_lines::{BARE, LINES, put_record};
use record_io::{Failed, PutBuffer, Sink};
use simple_chunk::Records;

/// How many bytes of lines are laid one behind another before they are put. Such a page is not copied again, since it is
/// more than a quarter of `LINES`.
const PAGE: usize = 1 << 16;

/// Puts a line for each record, as it is, by whole pages.
pub(crate) fn put_plain<O: Sink>(
    records: &Records,
    lines: &mut PutBuffer<LINES>,
    out: &mut O,
) -> Result<(), Failed>
    ensures out { PutsThrough O.taken O.lent O.faults result lines.old lines.new (plain_lines records.now) out.old out.new }
{
    let mut page = [0; PAGE];
    let mut number = 0;
    while number < records.len() {
        let (next, count) = lay_lines(&mut page, records, number);
        if number < next {
            lines.put_straight(out, &page[..count])?;
            number = next;
        } else {
            put_record(&BARE, 0, records.get(number), lines, out)?;
            number += 1;
        }
    }
    Ok(())
}

/// Lays the lines of records from a number on, as many as the page has room for. Answers the number behind them, and how
/// many bytes they take.
fn lay_lines(page: &mut [u8], records: &Records, from: usize) -> (usize, usize)
    requires { from ≤ length records.now }
    ensures from { from ≤ result.0 }
    ensures within { result.0 ≤ length records.now }
    ensures fits { result.1 ≤ length page.old }
    ensures laid { plain_lines (take from records.now) ++ take result.1 page.new ≡ plain_lines (take result.0 records.now) }
{
    let mut count = 0;
    for number in from..records.len() {
        let rec = records.get(number);
        if rec.len() >= page.len() - count {
            return (number, count);
        }
        lay_line(page, count, rec);
        count += rec.len() + 1;
    }
    (records.len(), count)
}

/// Lays the line of a record at a place of the page.
fn lay_line(page: &mut [u8], at: usize, rec: &[u8])
    requires { at + length rec.now < length page.old }
    ensures { take (at + (length rec.now + 1)) page.new ≡ take at page.old ++ line rec.now }
{
    let end = at + rec.len();
    page[at..end].copy_from_slice(rec);
    page[end] = b'\n';
}
