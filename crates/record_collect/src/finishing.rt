//! What is made of the passes of a collector.
ghost use Rattle.std.specs.Prelude.{◌≡◌, ◌<◌, All, IfOk, vec_len};
ghost use Rattle.record_collect.specs.Gatherings.{IsInBounds};
ghost use Rattle.record_collect.specs.Passes.{AreGathered, BelongsTo};
ghost use Rattle.record_collect.specs.Orders.{ArePlaced, AreSorted, HasAllOf};

use crate::batches::Batches;
use crate::collector::{Collector, Pass};
use crate::gathered::Gathered;
use crate::placed::{Placed, place_all};
use atomic_table::Seat;
use number_shares::{Behind, SeatView};
use std::alloc::{AllocError, Global};

impl Collector {
    /// All accepted records in one list, in the order of their receipts, and for each pass the numbers of its records there.
    /// `passes` are all that were made with the collector. Where a pass has ended, the records cost the least `held` at which
    /// one did. After want of memory the collector and its passes are gone. Own.
    pub fn finish(self, alloc: Global, passes: Vec<Pass>) -> Result<Gathered, AllocError>
        requires passes { vec_len passes ≡ self.passes }
        requires each { All (BelongsTo self) passes.items }
        ensures gathered { IfOk result (λ made. AreGathered passes.items made) }
        ensures bounds { IfOk result IsInBounds }
    {
        Gathered::of_batches(alloc, &self.finish_batches(alloc, passes)?)
    }

    /// The same in the batches that were put.
    pub(crate) fn finish_batches(
        self,
        alloc: Global,
        passes: Vec<Pass>,
    ) -> Result<Batches, AllocError>
        requires passes { vec_len passes ≡ self.passes }
        requires each { All (BelongsTo self) passes.items }
        ensures gathered { IfOk result (λ made. AreGathered passes.items made) }
        ensures bounds { IfOk result IsInBounds }
    {
        let count = passes.len();
        let all = self.sorted(alloc, passes)?;
        Batches::of(alloc, all, count)
    }

    /// The batches of all passes, in the order of their receipts.
    fn sorted(self, alloc: Global, passes: Vec<Pass>) -> Result<Vec<Placed>, AllocError>
        requires passes { vec_len passes ≡ self.passes }
        requires each { All (BelongsTo self) passes.items }
        ensures { IfOk result (λ all. AreSorted passes.items (vec_len passes) all.items) }
    {
        let (whole, mut all) = self.joined(alloc, passes)?;
        let Collector { table, .. } = self;
        table.close_with(whole).free();
        all.sort_by_key(|e| e.at)?;
        Ok(all)
    }

    /// One seat that has taken in all of them, and the batches, with the numbers of their passes.
    fn joined(
        &self,
        alloc: Global,
        mut passes: Vec<Pass>,
    ) -> Result<(Seat<(), SeatView>, Vec<Placed>), AllocError>
        requires passes { 0 < vec_len passes }
        requires each { All (BelongsTo self.now) passes.items }
        ensures table { IfOk result (λ r. r.0.table_id ≡ self.now.table) }
        ensures seat { IfOk result (λ r. HasAllOf passes.items (vec_len passes) r.1.items r.0.me) }
        ensures placed { IfOk result (λ r. ArePlaced passes.items (vec_len passes) r.1.items) }
    {
        let mut all = Vec::new(alloc);
        let Some(last) = passes.pop() else {
            unreachable!()
        };
        let mut whole = last.seat;
        place_all(&mut all, passes.len(), last.batches)?;
        while let Some(other) = passes.pop() {
            self.table
                .shared
                .join_seat::<Behind>(&mut whole, other.seat);
            place_all(&mut all, passes.len(), other.batches)?;
        }
        Ok((whole, all))
    }
}
