ghost use Rattle.std.specs.Prelude.{◌≡◌, ◌≤◌, ◌*◌, Some, None};
ghost use Rattle.record_writer.specs.Feeds.{Rest};
ghost use Rattle.sample_command.specs.Generator.{drawn_from, sample_of};
ghost use Rattle.sample_command.specs.SampleCommand.{most_records};

use crate::generator::Generator;
use record_io::Bytes;
use record_writer::{FeedEnd, RecordFeed};
use std::alloc::Global;

/// The records of a seed as a feed: each has 255 letters at most, from `a` to `z`. Own.
#[derive(Debug, Drop)]
pub struct SampleFeed {
    generator: Generator,
    left: u64,
}

impl SampleFeed {
    /// The first records of a seed, 1,000,000 at most. It takes no memory.
    pub fn new(seed: u64, count: u64) -> SampleFeed
        requires most { count ≤ most_records }
        ensures rest { ⟦<SampleFeed as RecordFeed>⟧.rest result ≡ Some (record { records = sample_of seed count; stop = None }) }
        ensures bound { ⟦<SampleFeed as RecordFeed>⟧.bound result ≡ 256 * count }
        ensures faults { ⟦<SampleFeed as RecordFeed>⟧.faults result ≡ 0 }
    {
        SampleFeed {
            generator: Generator { state: seed },
            left: count,
        }
    }
}

impl RecordFeed for SampleFeed {
    ghost rest = { λ f. Some (record { records = drawn_from f.left f.generator.state; stop = None }) };

    ghost bound = { λ f. 256 * f.left };

    ghost faults = { λ _. 0 };

    fn pull(&mut self, _alloc: Global, into: &mut Bytes) -> Result<bool, FeedEnd> {
        if self.left == 0 {
            return Ok(false);
        }
        self.generator.draw_record(into)?;
        self.left -= 1;
        Ok(true)
    }
}
