ghost use Rattle.std.specs.Prelude.{◌≡◌};

use record_io::Failed;
use std::alloc::AllocError;

/// What cut the work off. Own.
#[derive(Clone, Copy, Debug, PartialEq, Eq)]
pub enum CutOff {
    /// The feed failed.
    Input,
    /// What the file is written to failed.
    Made,
    /// There was not enough memory.
    Memory,
}

impl From<AllocError> for CutOff {
    ghost use Rattle.record_writer.specs.declared.cut_off.CutOff.TheVariants.{Memory};

    ghost from_gives = { λ _ cut. cut ≡ Memory };

    fn from(_: AllocError) -> CutOff {
        CutOff::Memory
    }
}

impl From<Failed> for CutOff {
    ghost use Rattle.record_writer.specs.declared.cut_off.CutOff.TheVariants.{Made};

    ghost from_gives = { λ _ cut. cut ≡ Made };

    fn from(_: Failed) -> CutOff {
        CutOff::Made
    }
}
