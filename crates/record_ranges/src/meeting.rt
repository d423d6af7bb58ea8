ghost use Rattle.std.specs.Prelude.{◌≡◌, ◌⊎◌, ◌++◌, ◌∷◌, ◌↔◌, List, IsTrue, IfOk, Ok, Err, map, Result};
ghost use Rattle.record_ranges.specs.Stretches.{MeetUpTo};
ghost use Rattle.record_ranges.specs.Reads.{IsAmong};
ghost use Rattle.chunk_reader.specs.declared.reasons.ReadEnd.{ReadEnd};

use crate::stretches::Stretch;
use chunk_reader::ReadEnd;
use std::alloc::Global;

/// What all answers give, or the first that gives nothing.
pub(crate) fn all_read<K: Drop>(
    alloc: Global,
    answers: Vec<Result<Stretch<K>, ReadEnd>>,
) -> Result<Vec<Stretch<K>>, ReadEnd>
    ensures all { IfOk result (λ read. answers.items ≡ map (λ s. Ok s) read.items) }
    ensures some { (end : ReadEnd) → result ≡ Err end → (end ≡ ReadEnd.Memory) ⊎ IsAmong (Err end) answers.items }
{
    let mut all = Vec::new(alloc);
    for answer in answers {
        match answer {
            Ok(stretch) => {
                let Ok(()) = all.push(stretch) else {
                    return Err(ReadEnd::Memory);
                };
            }
            Err(end) => return Err(end),
        }
    }
    Ok(all)
}

/// Whether the parts of a file of `size` bytes meet from its front to its end: whether each begins where the part before it
/// ends, or where the last chunk of that begins.
pub(crate) fn meet<K>(stretches: &[Stretch<K>], size: u64) -> bool
    ensures { IsTrue result → MeetUpTo size 0 0 stretches.now }
{
    let mut last = 0;
    let mut end = 0;
    for stretch in stretches {
        if stretch.begin != last && stretch.begin != end {
            return false;
        }
        last = stretch.last;
        end = stretch.end;
    }
    end == size
}
