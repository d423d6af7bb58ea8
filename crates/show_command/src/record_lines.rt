ghost use Rattle.std.specs.Prelude.{◌+◌, ◌^◌, ◌<◌, ◌≤◌, Ok, length};
ghost use Rattle.std.specs.List.{enumerate_from};
ghost use Rattle.record_io.specs.Calls.{PutsThrough};
ghost use Rattle.hex.specs.Hex.{encode_lower};
ghost use Rattle.show_command.specs.Readings.{bytes_text, position_text, record_line};
ghost use Rattle.show_command.specs.ShowProgress.{record_lines};

use crate::plain_lines::put_plain;
use crate::show_words::RecordForm;
use itoa::Buffer;
use record_io::{Failed, PutBuffer, Sink};
use simple_chunk::Records;

/// How many bytes of lines are gathered.
pub const LINES: usize = 1 << 16;

/// How many bytes are turned to digits at once.
const PIECE: usize = 512;

/// Records as they are, and nothing before them.
pub(crate) const BARE: RecordForm = RecordForm {
    positions: false,
    hex: false,
};

/// Of so many records the lines are laid by pages.
const MANY: usize = 256;

/// Puts a line for each record of a chunk that begins at a place.
pub fn put_records<O: Sink>(
    form: &RecordForm,
    begin: u64,
    records: &Records,
    lines: &mut PutBuffer<LINES>,
    out: &mut O,
) -> Result<(), Failed>
    requires { begin + length records.now < 2 ^ 64 }
    ensures out { PutsThrough O.taken O.lent O.faults result lines.old lines.new (record_lines form.now (enumerate_from begin records.now)) out.old out.new }
{
    if !form.positions && !form.hex && records.len() >= MANY {
        return put_plain(records, lines, out);
    }
    for number in 0..records.len() {
        put_record(form, begin + number as u64, records.get(number), lines, out)?;
    }
    Ok(())
}

/// Puts the line of a record.
pub fn put_record<O: Sink>(
    form: &RecordForm,
    position: u64,
    bytes: &[u8],
    lines: &mut PutBuffer<LINES>,
    out: &mut O,
) -> Result<(), Failed>
    ensures out { PutsThrough O.taken O.lent O.faults result lines.old lines.new (record_line form.now (position, bytes.now)) out.old out.new }
{
    put_position(form, position, lines, out)?;
    put_bytes(form, bytes, lines, out)?;
    lines.put(out, "\n".as_bytes())
}

/// Puts what comes before a record.
fn put_position<O: Sink>(
    form: &RecordForm,
    position: u64,
    lines: &mut PutBuffer<LINES>,
    out: &mut O,
) -> Result<(), Failed>
    ensures out { PutsThrough O.taken O.lent O.faults result lines.old lines.new (position_text form.now.positions position) out.old out.new }
{
    if !form.positions {
        return Ok(());
    }
    let mut number = Buffer::new();
    let pieces = [number.format(position).as_bytes(), " ".as_bytes()];
    lines.put_each(out, &pieces)
}

/// Puts the bytes of a record, or their digits.
fn put_bytes<O: Sink>(
    form: &RecordForm,
    bytes: &[u8],
    lines: &mut PutBuffer<LINES>,
    out: &mut O,
) -> Result<(), Failed>
    ensures out { PutsThrough O.taken O.lent O.faults result lines.old lines.new (bytes_text form.now.hex bytes.now) out.old out.new }
{
    if form.hex {
        put_digits(bytes, lines, out)
    } else {
        lines.put_straight(out, bytes)
    }
}

/// Puts the hexadecimal digits of bytes, piece by piece.
fn put_digits<O: Sink>(
    bytes: &[u8],
    lines: &mut PutBuffer<LINES>,
    out: &mut O,
) -> Result<(), Failed>
    ensures out { PutsThrough O.taken O.lent O.faults result lines.old lines.new (encode_lower bytes.now) out.old out.new }
{
    let mut at = 0;
    while at < bytes.len() {
        let count = (bytes.len() - at).min(PIECE);
        put_piece(&bytes[at..at + count], lines, out)?;
        at += count;
    }
    Ok(())
}

/// Puts the hexadecimal digits of a piece.
fn put_piece<O: Sink>(piece: &[u8], lines: &mut PutBuffer<LINES>, out: &mut O) -> Result<(), Failed>
    requires { length piece.now ≤ 512 }
    ensures out { PutsThrough O.taken O.lent O.faults result lines.old lines.new (encode_lower piece.now) out.old out.new }
{
    let mut room = [0; 2 * PIECE];
    let digits = &mut room[..2 * piece.len()];
    // There is room for exactly these digits.
    let _ = hex::encode_to_slice(piece, &mut *digits);
    lines.put(out, digits)
}
