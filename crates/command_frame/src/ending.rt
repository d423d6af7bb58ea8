ghost use Rattle.std.specs.Prelude.{◌≡◌};
ghost use Rattle.command_frame.specs.Endings.{cut_unprinted};

use crate::sizes::SizeEnd;
use record_io::Cut;

/// Why the work of a command that reads a record file ended before it was done. Own.
#[derive(Clone, Copy, Debug, PartialEq, Eq)]
pub enum Ending<W> {
    /// The file has more bytes than are read.
    Limit,
    /// The command doesn't go past this.
    At(W),
    /// The work was cut off.
    Cut(Cut),
}

impl<W> From<SizeEnd> for Ending<W> {
    ghost use Rattle.std.specs.Prelude.{◌≡◌};
    ghost use Rattle.command_frame.specs.Endings.{end_of_size};

    ghost from_gives = { λ end ending. ending ≡ end_of_size end };

    fn from(end: SizeEnd) -> Ending<W> {
        match end {
            SizeEnd::Limit => Ending::Limit,
            SizeEnd::File => Ending::Cut(Cut::File),
        }
    }
}

/// What cut work off whose lines standard output then failed to take.
pub fn unprinted<X, W>(ended: &Result<X, Ending<W>>) -> Cut
    ensures { result ≡ cut_unprinted ended.now }
{
    match ended {
        Err(Ending::Cut(cut)) => *cut,
        _ => Cut::Out,
    }
}
