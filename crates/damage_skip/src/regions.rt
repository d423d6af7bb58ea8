ghost use Rattle.std.specs.Prelude.{◌<◌};
ghost use Rattle.record_io.specs.Calls.{PutsTo};
ghost use Rattle.damage_skip.specs.Regions.{region_text};

use chunk_reader::Why;
use itoa::Buffer;
use record_io::{Failed, PutBuffer, Sink};

/// The most bytes of a line.
const LINE: usize = 128;

/// Bytes of a file that are passed over, and why. Own.
#[derive(Clone, Copy, Debug, PartialEq, Eq)]
pub struct Region {
    /// Where they begin.
    pub begin: u64,
    /// Where they end.
    pub end: u64,
    /// Why they are passed over.
    pub why: Why,
}

/// Puts the line that tells a region: a word, where it begins and ends, and why. It takes no memory. Own.
///
/// # Errors
///
/// `Failed` only where the sink failed. It took a front of the line and not all.
pub fn region_line<E: Sink>(sink: &mut E, word: &str, region: &Region) -> Result<(), Failed>
    ensures sink { PutsTo E.taken E.lent E.faults result (region_text word.now region.now) sink.old sink.new }
{
    let mut line = PutBuffer::<LINE>::new();
    line.put(sink, word.as_bytes())?;
    let mut begin = Buffer::new();
    let mut end = Buffer::new();
    let pieces = [
        " ".as_bytes(),
        begin.format(region.begin).as_bytes(),
        " ".as_bytes(),
        end.format(region.end).as_bytes(),
        " ".as_bytes(),
        region.why.name().as_bytes(),
        "\n".as_bytes(),
    ];
    line.put_each(sink, &pieces)?;
    line.flush(sink)
}
