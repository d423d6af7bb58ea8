//! Numbers that threads draw, each once.
ghost use Rattle.std.specs.Prelude.{◌≡◌, ◌≢◌, ℕ, ◌^◌, ◌<◌, ◌≤◌, [], ◌∷◌, All, IfOk, IfNone, IfSome, vec_len};
ghost use Rattle.std.specs.List.{AllByRecursion, flat_map};
ghost use Rattle.std.specs.Option.{option_to_list};
ghost use Rattle.number_shares.specs.Once.{HasEachBelow};
ghost use Rattle.number_shares.specs.Machine.{IsHand, empty_hand, with_mine};
ghost use Rattle.chunk_workers.specs.Seats.{BelongsTo, IsSeatDraw, drawn_by, numbers_at, one, ones};

use atomic_table::{Seat, Table};
use number_shares::{Before, Bounds, EachOnce, OneSeat, OneTake, SeatView, Terms};
use std::alloc::{AllocError, Global};
use std::marker::Model;

/// The numbers from 0 to n - 1, which seats draw one by one, in any threads. Own.
#[derive(Drop)]
pub struct Draws {
    table: Table<(), SeatView, Terms, EachOnce, Global>,
    n: u64,
    workers: u32,
}

impl Model for Draws {
    ghost use Rattle.std.specs.Prelude.{◌≡◌, ◌≤◌};
    ghost use Rattle.chunk_workers.specs.Seats.{DrawsValue, ones};

    ghost Value = { DrawsValue };

    ghost view = { λ d. record { table = d.table.shared.table_id; n = d.n; workers = d.workers } };

    ghost invariant = { λ d. (d.table.shared.table_id.words ≡ 1) × (d.table.shared.table_id.slots ≡ 0) × (d.table.shared.key.bounds ≡ ones d.n) × (d.table.shared.key.seats ≡ d.workers) × (1 ≤ d.workers) };
}

/// The seat of one worker, with the numbers that it drew. Own.
#[derive(Drop)]
pub struct DrawSeat {
    seat: Seat<(), SeatView>,
    ended: Option<u64>,
}

impl Model for DrawSeat {
    ghost use Rattle.std.specs.Prelude.{◌≡◌, []};
    ghost use Rattle.std.specs.Option.{option_to_list};
    ghost use Rattle.number_shares.specs.Machine.{IsHand};
    ghost use Rattle.number_shares.specs.Rule.{hand_of};
    ghost use Rattle.chunk_workers.specs.Seats.{SeatValue, numbers_at, ones};

    ghost Value = { SeatValue };

    ghost view = { λ s. record { table = s.seat.table_id; n = s.seat.me.0.bounds.limit; hand = hand_of s.seat.me.0 } };

    ghost invariant = { λ s. (numbers_at s.seat.me.0.past ≡ option_to_list s.ended) × (s.seat.me.0.weight ≡ 1) × (s.seat.me.1 ≡ []) × (s.seat.me.0.bounds ≡ ones s.seat.me.0.bounds.limit) × IsHand (ones s.seat.me.0.bounds.limit) (hand_of s.seat.me.0) };
}

impl Draws {
    /// The numbers from 0 to `n` - 1, of which there are at most 2^32, and a seat for each of 1 to 16 workers, none of
    /// which has drawn yet. Own.
    pub fn new(alloc: Global, n: u64, workers: u32) -> Result<(Draws, Vec<DrawSeat>), AllocError>
        requires n { n ≤ 2 ^ 32 }
        requires workers { (1 ≤ workers) × (workers ≤ 16) }
        ensures draws { IfOk result (λ d. (d.0.n ≡ n) × (d.0.workers ≡ workers)) }
        ensures seats { IfOk result (λ d. vec_len d.1 ≡ workers) }
        ensures each { IfOk result (λ d. All (λ seat. BelongsTo d.0 seat × (seat.hand ≡ empty_hand)) d.1.items) }
    {
        let mut seats = Vec::with_capacity(alloc, workers as usize)?;
        let bounds = Bounds {
            limit: n,
            least: 1,
            most: 1,
        };
        let terms = Terms {
            bounds,
            seats: workers,
        };
        let (table, mut first) = Table::of_words(alloc, &[0], &terms)?;
        for _ in 1..workers {
            let seat = table.shared.split_seat::<OneSeat>(&mut first);
            seats.push_reserved(DrawSeat { seat, ended: None });
        }
        seats.push_reserved(DrawSeat {
            seat: first,
            ended: None,
        });
        Ok((Draws { table, n, workers }, seats))
    }

    /// The next number that no seat drew, or `None` where it is n or more: then the seat has ended, and further calls
    /// answer `None` and draw nothing. A seat's numbers rise. A draw takes no lock and no memory, and waits for nobody. Own.
    pub fn draw(&self, seat: &mut DrawSeat) -> Option<u64>
        requires { BelongsTo self.now seat.old }
        ensures ended { seat.old.hand.past ≢ [] → (result ≡ None) × (seat.new ≡ seat.old) }
        ensures event { seat.old.hand.past ≡ [] → IsSeatDraw seat.old result seat.new }
        ensures some { IfSome result (λ m. (m < self.now.n) × (seat.new ≡ record seat.old { hand = with_mine (one m) seat.old.hand }) × AllByRecursion (λ p. p < m) (numbers_at seat.old.hand.mine)) }
        ensures none { IfNone result ((seat.new.hand.mine ≡ seat.old.hand.mine) × (seat.new.hand.past ≢ [])) }
        ensures belongs { BelongsTo self.now seat.new }
    {
        if seat.ended.is_some() {
            return None;
        }
        let number = self.table.shared.fetch_add::<OneTake>(&mut seat.seat, 0, 1);
        if number < self.n {
            Some(number)
        } else {
            seat.ended = Some(number);
            None
        }
    }

    /// Ends the draws once each seat has ended: together they drew each number from 0 to n - 1 once, and no other. Takes
    /// no memory. Own.
    pub fn finish(self, seats: Vec<DrawSeat>)
        requires seats { vec_len seats ≡ self.workers }
        requires each { All (λ seat. BelongsTo self seat × (seat.hand.past ≢ [])) seats.items }
        ensures { HasEachBelow self.n (drawn_by seats.items) }
    {
        let whole = self.joined(seats);
        let Draws {
            table,
            n: _,
            workers: _,
        } = self;
        table.close_with(whole).free();
    }

    // One seat that has taken in all of them.
    fn joined(&self, mut seats: Vec<DrawSeat>) -> Seat<(), SeatView>
        requires seats { 0 < vec_len seats }
        requires each { All (BelongsTo self.now) seats.items }
        ensures table { result.table_id ≡ self.now.table }
        ensures view { result.me.0 ≡ record { mine = flat_map (λ seat. seat.hand.mine) seats.items; past = flat_map (λ seat. seat.hand.past) seats.items; weight = vec_len seats; bounds = ones self.now.n } }
        ensures slots { result.me.1 ≡ [] }
    {
        let Some(last) = seats.pop() else {
            unreachable!()
        };
        let mut whole = last.seat;
        while let Some(other) = seats.pop() {
            self.table
                .shared
                .join_seat::<Before>(&mut whole, other.seat);
        }
        whole
    }
}

impl DrawSeat {
    /// The number of n or more that this seat drew last, or `None` where it hasn't drawn one. Own.
    pub fn ended(&self) -> Option<u64>
        ensures past { numbers_at self.now.hand.past ≡ option_to_list result }
        ensures hand { IsHand (ones self.now.n) self.now.hand }
    {
        self.ended
    }
}
