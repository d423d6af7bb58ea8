//! A list that several threads put records into.
ghost use Rattle.std.specs.Prelude.{◌≡◌, ℕ, ◌^◌, ◌≤◌, [], ◌∷◌, All, IfErr, IfOk, None, length, vec_len};
ghost use Rattle.std.specs.List.{AllByRecursion};
ghost use Rattle.simple_chunk.specs.Costs.{cost_of};
ghost use Rattle.record_collect.specs.Passes.{BelongsTo, EndsHere, IsFilled, IsFresh, IsPut, IsReady, IsRefused, IsReserved};
ghost use Rattle.record_collect.specs.Puts.{CanStep, EndsAbove, TakesPiece, puts};

use atomic_table::{Seat, Table};
use number_shares::{Bounds, EachOnce, OneSeat, OneTake, SeatView, Terms};
use simple_chunk::{RECORD_COST, Records};
use std::alloc::{AllocError, Global};
use std::marker::Model;

/// What a record has at most, in bytes.
pub(crate) const RECORD_SIZE: usize = 1 << 24;

/// What the collected records may cost together: for each its length and 8. Own.
pub(crate) const LIMIT: u64 = 1 << 26;

/// Where a record stands among all that are collected. Own.
#[derive(Clone, Copy, Debug, PartialEq, Eq)]
pub struct Receipt {
    /// What the records before it cost together.
    pub at: u64,
}

/// Why a record was not collected. Own.
#[derive(Clone, Copy, Debug, PartialEq, Eq)]
pub enum CollectEnd {
    /// It has more than 2^24 bytes.
    TooLong,
    /// With it the records would cost more than 2^26, or a record before it was refused for that.
    Full {
        /// What the records cost, those that were refused so far among them, where the first of the pass was refused.
        held: u64,
    },
    /// There was not enough memory.
    Memory,
}

/// Records that were accepted together, with the receipt of the first.
#[derive(Drop)]
pub(crate) struct Batch {
    pub(crate) at: u64,
    pub(crate) records: Records,
}

/// A list that threads put records into, each by a pass of its own. It takes at most 2^26 of cost: a record costs its length
/// and 8. Own.
#[derive(Drop)]
pub struct Collector {
    pub(crate) table: Table<(), SeatView, Terms, EachOnce, Global>,
    passes: u32,
    pub(crate) alloc: Global,
}

impl Model for Collector {
    ghost use Rattle.std.specs.Prelude.{◌≡◌, ◌≤◌};
    ghost use Rattle.record_collect.specs.Passes.{CollectorValue};
    ghost use Rattle.record_collect.specs.Puts.{puts};

    ghost Value = { CollectorValue };

    ghost view = { λ c. record { table = c.table.shared.table_id; passes = c.passes } };

    ghost invariant = { λ c. (c.table.shared.table_id.words ≡ 1) × (c.table.shared.table_id.slots ≡ 0) × (c.table.shared.key.bounds ≡ puts) × (c.table.shared.key.seats ≡ c.passes) × (1 ≤ c.passes) };
}

/// One thread's part of a collector, with the records that were accepted of it. Own.
#[derive(Drop)]
pub struct Pass {
    pub(crate) seat: Seat<(), SeatView>,
    pub(crate) batches: Vec<Batch>,
    ended: Option<u64>,
}

impl Model for Pass {
    ghost use Rattle.std.specs.Prelude.{◌≡◌, [], map};
    ghost use Rattle.std.specs.Option.{option_to_list};
    ghost use Rattle.record_collect.specs.Passes.{AreShort, PassValue, Rises};
    ghost use Rattle.record_collect.specs.Puts.{batch_piece, puts};

    ghost Value = { PassValue };

    ghost view = { λ p. record { table = p.seat.table_id; mine = p.batches.items; ended = p.ended } };

    ghost invariant = { λ p. (p.seat.me.0.mine ≡ map batch_piece p.batches.items) × (map (λ x. x.at) p.seat.me.0.past ≡ option_to_list p.ended) × (p.seat.me.0.weight ≡ 1) × (p.seat.me.1 ≡ []) × Rises p.batches.items × (p.seat.me.0.bounds ≡ puts) × AreShort p.batches.items };
}

/// A pass that took its step for records before they are read, with what those before them cost and what they cost themselves.
#[derive(Drop)]
pub(crate) struct Reserved {
    seat: Seat<(), SeatView>,
    batches: Vec<Batch>,
    at: u64,
    cost: u64,
}

impl Model for Reserved {
    ghost use Rattle.std.specs.Prelude.{◌≡◌, ◌+◌, ◌≤◌, ◌++◌, ◌∷◌, [], map};
    ghost use Rattle.std.specs.List.{AllByRecursion};
    ghost use Rattle.simple_chunk.specs.Costs.{cost_of};
    ghost use Rattle.record_collect.specs.Passes.{AreShort, ReservedValue, Rises};
    ghost use Rattle.record_collect.specs.Puts.{batch_piece, puts};

    ghost Value = { ReservedValue };

    ghost view = { λ r. record { table = r.seat.table_id; mine = r.batches.items; at = r.at; cost = r.cost } };

    ghost invariant = { λ r. (r.seat.me.0.mine ≡ map batch_piece r.batches.items ++ record { at = r.at; cost = r.cost } ∷ []) × (r.seat.me.0.past ≡ []) × (r.seat.me.0.weight ≡ 1) × (r.seat.me.1 ≡ []) × Rises r.batches.items × AllByRecursion (λ b. b.at + cost_of b.records ≤ r.at) r.batches.items × (r.seat.me.0.bounds ≡ puts) × AreShort r.batches.items };
}

impl Collector {
    /// A collector for 1 to 16 passes, and these passes. Own.
    pub fn new(alloc: Global, passes: u32) -> Result<(Collector, Vec<Pass>), AllocError>
        requires passes { (1 ≤ passes) × (passes ≤ 16) }
        ensures collector { IfOk result (λ made. made.0.passes ≡ passes) }
        ensures passes { IfOk result (λ made. vec_len made.1 ≡ passes) }
        ensures each { IfOk result (λ made. All (IsReady made.0) made.1.items) }
    {
        let mut made = Vec::with_capacity(alloc, passes as usize)?;
        let bounds = Bounds {
            limit: LIMIT,
            least: RECORD_COST,
            most: LIMIT + 1,
        };
        let terms = Terms {
            bounds,
            seats: passes,
        };
        let (table, mut first) = Table::of_words(alloc, &[0], &terms)?;
        for _ in 1..passes {
            let seat = table.shared.split_seat::<OneSeat>(&mut first);
            made.push_reserved(Pass::fresh(alloc, seat));
        }
        made.push_reserved(Pass::fresh(alloc, first));
        Ok((
            Collector {
                table,
                passes,
                alloc,
            },
            made,
        ))
    }

    /// Puts a copy of a record behind those of the pass, and tells what all records before it cost. It takes no lock, and
    /// waits for nobody: it takes one step on a number that all passes share, or none. Own.
    ///
    /// # Errors
    ///
    /// `TooLong` exactly where the record has more than 2^24 bytes. `Full` where the pass has ended, or ends here, since with
    /// the record all would cost more than 2^26: no more is taken of this pass then. `Memory`, before the step.
    pub fn put(&self, pass: &mut Pass, rec: &[u8]) -> Result<Receipt, CollectEnd>
        requires { BelongsTo self.now pass.old }
        ensures belongs { BelongsTo self.now pass.new }
        ensures ok { IfOk result (λ receipt. IsPut pass.old rec.now receipt.at pass.new) }
        ensures err { IfErr result (λ end. IsRefused pass.old rec.now end pass.new) }
    {
        if rec.len() > RECORD_SIZE {
            return Err(CollectEnd::TooLong);
        }
        if let Some(held) = pass.ended {
            return Err(CollectEnd::Full { held });
        }
        let Ok(records) = one_record(self.alloc, rec) else {
            return Err(CollectEnd::Memory);
        };
        if pass.batches.try_reserve(1).is_err() {
            return Err(CollectEnd::Memory);
        }
        match self.step(&mut pass.seat, rec.len() as u64 + RECORD_COST) {
            Ok(at) => {
                pass.batches.push_reserved(Batch { at, records });
                Ok(Receipt { at })
            }
            Err(held) => {
                pass.ended = Some(held);
                Err(CollectEnd::Full { held })
            }
        }
    }

    /// Takes the step for records that cost so much, before they are read, or ends the pass.
    pub(crate) fn reserve(&self, pass: Pass, cost: u64) -> Result<Reserved, Pass>
        requires belongs { BelongsTo self.now pass }
        requires going { pass.ended ≡ None }
        requires some { 8 ≤ cost }
        ensures reserved { IfOk result (IsReserved pass cost) }
        ensures full { IfErr result (λ full. (held : ℕ) × EndsHere pass cost held full) }
    {
        let Pass {
            mut seat,
            batches,
            ..
        } = pass;
        match self.step(&mut seat, cost) {
            Ok(at) => Ok(Reserved {
                seat,
                batches,
                at,
                cost,
            }),
            Err(held) => Err(Pass {
                seat,
                batches,
                ended: Some(held),
            }),
        }
    }

    /// One step of records that cost so much: what those before them cost, as an error where with them all would cost more than
    /// 2^26.
    fn step(&self, seat: &mut Seat<(), SeatView>, cost: u64) -> Result<u64, u64>
        requires table { seat.old.table_id ≡ self.now.table }
        requires going { CanStep seat.old.me }
        requires some { 8 ≤ cost }
        ensures table { seat.new.table_id ≡ seat.old.table_id }
        ensures taken { IfOk result (λ at. TakesPiece seat.old.me at cost seat.new.me) }
        ensures over { IfErr result (λ held. EndsAbove seat.old.me held cost seat.new.me) }
    {
        let taken = cost.min(LIMIT + 1);
        let held = self.table.shared.fetch_add::<OneTake>(seat, 0, taken);
        if held + taken > LIMIT {
            return Err(held);
        }
        Ok(held)
    }
}

impl Reserved {
    /// The pass with these records, which cost what it took its step for.
    pub(crate) fn fill(self, records: Records) -> Result<Pass, AllocError>
        requires cost { cost_of records ≡ self.cost }
        requires short { AllByRecursion (λ r. length r ≤ 2 ^ 24) records }
        ensures { IfOk result (IsFilled self records) }
    {
        let Reserved {
            seat,
            mut batches,
            at,
            ..
        } = self;
        batches.push(Batch { at, records })?;
        Ok(Pass {
            seat,
            batches,
            ended: None,
        })
    }
}

impl Pass {
    /// A pass of which nothing was put.
    fn fresh(alloc: Global, seat: Seat<(), SeatView>) -> Pass
        requires view { (seat.me.0.mine ≡ []) × (seat.me.0.past ≡ []) × (seat.me.0.weight ≡ 1) × (seat.me.0.bounds ≡ puts) }
        requires slots { seat.me.1 ≡ [] }
        ensures table { result.table ≡ seat.table_id }
        ensures fresh { IsFresh result }
    {
        Pass {
            seat,
            batches: Vec::new(alloc),
            ended: None,
        }
    }

    /// The number `held` of the first `Full` that a put of this pass was answered, or `None` where none was. Own.
    pub fn ended(&self) -> Option<u64>
        ensures { result ≡ self.now.ended }
    {
        self.ended
    }
}

/// A list of one record.
fn one_record(alloc: Global, rec: &[u8]) -> Result<Records, AllocError>
    ensures { IfOk result (λ records. records ≡ rec.now ∷ []) }
{
    let mut records = Records::new(alloc);
    records.push(rec)?;
    Ok(records)
}
