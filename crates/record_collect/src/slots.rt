//! Threads that each read one store.
ghost use Rattle.std.specs.Prelude.{◌≡◌, ◌<◌, length, vec_len};
ghost use Rattle.std.specs.Thread.{IsSync, IsSend};
ghost use Rattle.record_collect.specs.Takings.{AreFed, CanBeFed};

use crate::collector::Collector;
use crate::feeding::{Fed, feed_file};
use chunk_reader::ReadEnd;
use record_io::Store;
use std::mem;
use std::thread::{Threads, join_mut};

/// Reads files of these sizes, each of a store of its own, and writes in the place of what was to be fed what was held of each.
/// Halves go to threads, down to one store; where no thread can be made, they are read one after the other.
#[cycle(slots)]
pub(crate) fn feed_slots<R: Threads + Sync, S: Store + Send>(
    rt: &R,
    sizes: &[u64],
    collector: &Collector,
    fed: &mut [Result<Fed, ReadEnd>],
    stores: &mut [S],
)
    requires { CanBeFed S.told collector.now sizes.now fed.old stores.old }
    ensures { AreFed S.bytes S.told S.name S.faults collector.now stores.old stores.new fed.new }
{
    if stores.len() < 2 {
        feed_slot(sizes, collector, fed, stores);
        return;
    }
    let half = stores.len() / 2;
    let (low, high) = sizes.split_at(half);
    let (x, y) = fed.split_at_mut(half);
    let (front, back) = stores.split_at_mut(half);
    join_mut(
        rt,
        &mut ||
            requires { IsSync R.row × IsSend S.row
                × CanBeFed S.told collector.now low.now x.now front.now }
            ensures { AreFed S.bytes S.told S.name S.faults collector.entry.now front.entry.now front.exit.now x.exit.now }
        { feed_slots(rt, low, collector, x, front) },
        &mut ||
            requires { IsSync R.row × IsSend S.row
                × CanBeFed S.told collector.now high.now y.now back.now }
            ensures { AreFed S.bytes S.told S.name S.faults collector.entry.now back.entry.now back.exit.now y.exit.now }
        { feed_slots(rt, high, collector, y, back) },
    );
}

/// Reads the file of one store, or of none.
fn feed_slot<S: Store>(
    sizes: &[u64],
    collector: &Collector,
    fed: &mut [Result<Fed, ReadEnd>],
    stores: &mut [S],
)
    requires short { length stores.old < 2 }
    requires ready { CanBeFed S.told collector.now sizes.now fed.old stores.old }
    ensures { AreFed S.bytes S.told S.name S.faults collector.now stores.old stores.new fed.new }
{
    if stores.is_empty() {
        return;
    }
    fed[0] = match mem::replace(&mut fed[0], Err(ReadEnd::Memory)) {
        Ok(ready) => feed_file(&mut stores[0], sizes[0], collector, ready),
        Err(end) => Err(end),
    };
}

/// The same into a vector.
pub(crate) fn feed_into<R: Threads + Sync, S: Store + Send>(
    rt: &R,
    sizes: &[u64],
    collector: &Collector,
    fed: &mut Vec<Result<Fed, ReadEnd>>,
    stores: &mut [S],
)
    requires { CanBeFed S.told collector.now sizes.now fed.old.items stores.old }
    ensures count { vec_len fed.new ≡ vec_len fed.old }
    ensures fed { AreFed S.bytes S.told S.name S.faults collector.now stores.old stores.new fed.new.items }
{
    feed_slots(rt, sizes, collector, fed.as_mut_slice(), stores);
}
