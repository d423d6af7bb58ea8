//! The state of the hash, and its steps.

ghost use Rattle.std.specs.Prelude.{◌≡◌, ◌<◌, length};
ghost use Rattle.std.specs.List.{fold};
ghost use Rattle.highway_hash.specs.HighwayHash.{after_packet, after_remainder, finished, finishing_round, mixed, multiplied, reset, updated};

use crate::key::Key;
use crate::lanes::Lanes;
use crate::packet::{PACKET, lanes_of, remainder_packet};
use std::marker::Model;

/// How many updates end a hash.
const FINISHING_ROUNDS: usize = 4;

/// The multipliers at the start.
const FIRST_MUL0: [u64; 4] = [
    0xdbe6_d5d5_fe4c_ce2f,
    0xa409_3822_299f_31d0,
    0x1319_8a2e_0370_7344,
    0x243f_6a88_85a3_08d3,
];

const FIRST_MUL1: [u64; 4] = [
    0x3bd3_9e10_cb0e_f593,
    0xc0ac_f169_b5f1_8a8c,
    0xbe54_66cf_34e9_0c6c,
    0x4528_21e6_38d0_1377,
];

/// Four lanes each of two running values and of two multipliers.
#[derive(Drop)]
pub(crate) struct State<L: Lanes> {
    v0: L,
    v1: L,
    mul0: L,
    mul1: L,
}

impl<L: Lanes> Model for State<L> {
    ghost use Rattle.highway_hash.specs.HighwayHash.{HashState};

    ghost Value = { HashState };

    ghost view = { λ s. record { v0 = L.list s.v0; v1 = L.list s.v1; mul0 = L.list s.mul0; mul1 = L.list s.mul1 } };
}

impl<L: Lanes> State<L> {
    /// The state before any input.
    #[tactic(auto, unfolding(crate::specs::HighwayHash::reset))]
    pub(crate) fn reset(key: &Key) -> State<L>
        ensures { result ≡ reset key.now.0 }
    {
        let words = L::of(key.0);
        let mul0 = L::of(FIRST_MUL0);
        let mul1 = L::of(FIRST_MUL1);
        State {
            v0: mul0.xor(words),
            v1: mul1.xor(words.swapped()),
            mul0,
            mul1,
        }
    }

    /// Takes four lanes of input.
    #[tactic(auto, unfolding(crate::specs::HighwayHash::updated))]
    pub(crate) fn update(&mut self, input: L)
        ensures { self.new ≡ updated self.old (L.list input) }
    {
        self.multiply(input);
        self.mix();
    }

    /// The first part of an update: the input goes into v1, and the products into the multipliers.
    #[tactic(auto, unfolding(crate::specs::HighwayHash::multiplied))]
    fn multiply(&mut self, input: L)
        ensures { self.new ≡ multiplied self.old (L.list input) }
    {
        let v1 = self.v1.plus(self.mul0).plus(input);
        let v0 = self.v0.plus(self.mul1);
        let mul0 = self.mul0.xor(v1.half_product(self.v0));
        let mul1 = self.mul1.xor(v0.half_product(v1));
        *self = State { v0, v1, mul0, mul1 };
    }

    /// The second part: the zipper of v1 is added to v0, and then that of v0 to v1.
    #[tactic(auto, unfolding(crate::specs::HighwayHash::mixed))]
    fn mix(&mut self)
        ensures { self.new ≡ mixed self.old }
    {
        self.v0 = self.v0.plus(self.v1.zipped());
        self.v1 = self.v1.plus(self.v0.zipped());
    }

    /// Takes whole packets in order.
    pub(crate) fn update_packets(&mut self, packets: &[[u8; PACKET]])
        ensures { self.new ≡ fold after_packet self.old packets.now }
    {
        // A state of its own can stay in registers.
        let State { v0, v1, mul0, mul1 } = *self;
        let mut state = State { v0, v1, mul0, mul1 };
        for packet in packets {
            state.update(L::of(lanes_of(packet)));
        }
        *self = state;
    }

    /// Takes the bytes behind the last whole packet, where there are any.
    #[tactic(auto, unfolding(crate::specs::HighwayHash::after_remainder))]
    pub(crate) fn update_remainder(&mut self, rest: &[u8])
        requires { length rest.now < 32 }
        ensures { self.new ≡ after_remainder self.old rest.now }
    {
        if rest.is_empty() {
            return;
        }
        let len = rest.len() as u64;
        self.v0 = self.v0.plus(L::of([(len << 32) + len; 4]));
        self.v1 = self.v1.rotated_halves(len as u32);
        self.update(L::of(lanes_of(&remainder_packet(rest))));
    }

    /// Takes the first running value itself, permuted.
    #[tactic(auto, unfolding(crate::specs::HighwayHash::finishing_round))]
    fn finishing_round(&mut self)
        ensures { self.new ≡ finishing_round self.old }
    {
        let input = self.v0.permuted();
        self.update(input);
    }

    /// The hash of all that was taken.
    #[tactic(auto, unfolding(crate::specs::HighwayHash::finished))]
    pub(crate) fn finished(mut self) -> u64
        ensures { result ≡ finished self }
    {
        for _round in 0..FINISHING_ROUNDS {
            self.finishing_round();
        }
        let running = self.v0.first().wrapping_add(self.v1.first());
        let multipliers = self.mul0.first().wrapping_add(self.mul1.first());
        running.wrapping_add(multipliers)
    }
}
