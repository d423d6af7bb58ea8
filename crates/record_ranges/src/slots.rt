ghost use Rattle.std.specs.Prelude.{◌≡◌, ◌^◌, ◌<◌, ◌≤◌, All, Some, length, vec_len};
ghost use Rattle.std.specs.Thread.{IsSync, IsSend};
ghost use Rattle.record_ranges.specs.Reads.{AreAnswered, CanBeRead};
ghost use Rattle.record_ranges.specs.Stretches.{LiesWithin};

use crate::keepers::Keeper;
use crate::stretches::{Span, Stretch, read_stretch};
use chunk_reader::ReadEnd;
use record_io::Store;
use std::alloc::Global;
use std::thread::{Threads, join_mut};

/// What each thread reads with.
#[derive(Clone, Copy, Debug)]
pub(crate) struct Setup {
    /// Where memory is taken.
    pub alloc: Global,
    /// How many bytes the file has.
    pub size: u64,
}

/// Reads parts of a file, each of a store of its own, and writes down what each gives. Halves go to threads, down to one store;
/// where no thread can be made, they are read one after the other.
#[cycle(slots)]
pub(crate) fn read_slots<R: Threads + Sync, S: Store + Send, K: Keeper + Send>(
    rt: &R,
    setup: &Setup,
    spans: &[Span],
    answers: &mut [Result<Stretch<K>, ReadEnd>],
    stores: &mut [S],
)
    requires { CanBeRead S.told setup.now.size spans.now answers.old stores.old }
    ensures { AreAnswered K.kept_as S.bytes S.told S.name S.faults spans.now stores.old stores.new answers.new }
{
    if stores.len() < 2 {
        read_slot(setup, spans, answers, stores);
        return;
    }
    let half = stores.len() / 2;
    let (low, high) = spans.split_at(half);
    let (x, y) = answers.split_at_mut(half);
    let (front, back) = stores.split_at_mut(half);
    join_mut(
        rt,
        &mut ||
            requires { IsSync R.row × IsSend S.row × IsSend K.row × CanBeRead S.told setup.now.size low.now x.now front.now }
            ensures { AreAnswered K.kept_as S.bytes S.told S.name S.faults low.entry.now front.entry.now front.exit.now x.exit.now }
        { read_slots(rt, setup, low, x, front) },
        &mut ||
            requires { IsSync R.row × IsSend S.row × IsSend K.row × CanBeRead S.told setup.now.size high.now y.now back.now }
            ensures { AreAnswered K.kept_as S.bytes S.told S.name S.faults high.entry.now back.entry.now back.exit.now y.exit.now }
        { read_slots(rt, setup, high, y, back) },
    );
}

/// Reads the part of one store, or of none.
fn read_slot<S: Store, K: Keeper>(
    setup: &Setup,
    spans: &[Span],
    answers: &mut [Result<Stretch<K>, ReadEnd>],
    stores: &mut [S],
)
    requires short { length stores.old < 2 }
    requires ready { CanBeRead S.told setup.now.size spans.now answers.old stores.old }
    ensures { AreAnswered K.kept_as S.bytes S.told S.name S.faults spans.now stores.old stores.new answers.new }
{
    if !stores.is_empty() {
        answers[0] = read_stretch(setup.alloc, &mut stores[0], setup.size, spans[0]);
    }
}

/// The same into a vector.
pub(crate) fn read_into<R: Threads + Sync, S: Store + Send, K: Keeper + Send>(
    rt: &R,
    setup: &Setup,
    spans: &[Span],
    answers: &mut Vec<Result<Stretch<K>, ReadEnd>>,
    stores: &mut [S],
)
    requires spans { length spans.now ≡ length stores.old }
    requires answers { vec_len answers.old ≡ length stores.old }
    requires sized { All (λ s. S.told s ≡ Some setup.now.size) stores.old × (setup.now.size ≤ 2 ^ 60) }
    requires within { All (λ span. LiesWithin setup.now.size span) spans.now }
    ensures { AreAnswered K.kept_as S.bytes S.told S.name S.faults spans.now stores.old stores.new answers.new.items }
{
    read_slots(rt, setup, spans, answers.as_mut_slice(), stores);
}
