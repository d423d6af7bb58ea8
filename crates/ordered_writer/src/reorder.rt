ghost use Rattle.std.specs.Prelude.{◌≡◌, ◌+◌, ◌%◌, ◌^◌, ◌<◌, ◌≤◌, ◌++◌, length, IfOk, IfSome, IfNone};
ghost use Rattle.std.specs.Option.{option_to_list};
ghost use Rattle.ordered_writer.specs.Reorders.{CanHold, coming, count_held, held_at, moved_on, reordering_from, room_of, with_held};

use std::alloc::{AllocError, Global};
use std::marker::Model;

/// Takes numbered items in any order and gives them by rising numbers.
///
/// It has room for the item of the number that comes next and for those of the numbers behind it, and takes memory for
/// that once. An item comes out as it was handed in. Own.
#[derive(Debug, Drop)]
pub struct Reorder<T> {
    // A ring: the item of a number lies in the slot that the number leaves as a remainder.
    slots: Vec<Option<T>>,
    wanted: u64,
}

impl<T> Model for Reorder<T> {
    ghost use Rattle.std.specs.Prelude.{◌<◌, vec_len};
    ghost use Rattle.ordered_writer.specs.Reorders.{Reordering, in_ring, reordering_code};

    ghost Value = { Reordering T };

    ghost coded = { reordering_code T.code };

    ghost view = { λ r. record { wanted = r.wanted; held = in_ring r.wanted r.slots.items } };

    ghost invariant = { λ r. 0 < vec_len r.slots };
}

impl<T: Drop> Reorder<T> {
    /// Holds nothing yet, and has room for the items of `room` numbers at a time, at least one. The number `first` comes
    /// first. Both together must be at most 2^40.
    pub fn new(alloc: Global, first: u64, room: usize) -> Result<Reorder<T>, AllocError>
        requires some { 1 ≤ room }
        requires in_reach { first + room ≤ 2 ^ 40 }
        ensures value { IfOk result (λ r. r ≡ reordering_from first room) }
        ensures empty { IfOk result (λ r. count_held r ≡ 0) }
    {
        let mut slots = Vec::with_capacity(alloc, room)?;
        for _ in 0..room {
            slots.push_reserved(None);
        }
        Ok(Reorder {
            slots,
            wanted: first,
        })
    }

    /// The number that comes next: the least whose item was not given yet.
    pub fn wanted(&self) -> u64
        ensures { result ≡ self.now.wanted }
    {
        self.wanted
    }

    /// Holds the item of a number: one of the numbers that there is room for, from the next one on, of which no item is
    /// held. The next number and the room together must be at most 2^40. Takes no memory.
    pub fn hold(&mut self, number: u64, item: T)
        requires in_reach { self.old.wanted + room_of self.old ≤ 2 ^ 40 }
        requires free { CanHold self.old number }
        ensures held { self.new ≡ with_held self.old number item }
        ensures count { count_held self.new ≡ count_held self.old + 1 }
    {
        let slot = slot_of(number, self.slots.len());
        self.slots[slot] = Some(item);
    }

    /// Gives the item of the number that comes next, and goes on to the number behind it; `None` exactly where that item is
    /// not held, and then all stays. The next number and the room together must be at most 2^40. Takes no memory.
    pub fn next(&mut self) -> Option<T>
        requires in_reach { self.old.wanted + room_of self.old ≤ 2 ^ 40 }
        ensures gives { result ≡ held_at self.old self.old.wanted }
        ensures some { IfSome result (λ _. self.new ≡ moved_on self.old) }
        ensures none { IfNone result (self.new ≡ self.old) }
        ensures room { room_of self.new ≡ room_of self.old }
        ensures coming { coming self.old ≡ option_to_list result ++ coming self.new }
        ensures count { count_held self.old ≡ length (option_to_list result) + count_held self.new }
    {
        let slot = slot_of(self.wanted, self.slots.len());
        let item = self.slots[slot].take()?;
        self.wanted += 1;
        Some(item)
    }
}

// In which of so many slots the item of a number lies.
fn slot_of(number: u64, slots: usize) -> usize
    requires { 0 < slots }
    ensures { result ≡ number % slots }
{
    (number % slots as u64) as usize
}
