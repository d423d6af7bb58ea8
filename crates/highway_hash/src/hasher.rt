//! The hash of bytes that come in pieces.

ghost use Rattle.std.specs.Prelude.{◌≡◌, ℕ, ◌+◌, ◌*◌, ◌/◌, ◌<◌, List, [], ◌++◌, drop, length, take};
ghost use Rattle.std.specs.List.{fold};
ghost use Rattle.std.specs.Simd.{first_chunks};
ghost use Rattle.highway_hash.specs.HighwayHash.{after_packet, hash_of};
ghost use Rattle.highway_hash.specs.Hashers.{HasherValue, hasher_of};

use crate::key::Key;
use crate::lanes::Lanes;
use crate::packed::Packed;
use crate::packet::{PACKET, lanes_of};
use crate::state::State;
use std::marker::Model;

/// The hash of bytes that come in pieces: the value of `hash` of the pieces joined, however they are cut.
///
/// It takes no memory, cannot fail, and holds at most 31 bytes between its calls. Own.
#[derive(Drop)]
pub struct Hasher {
    state: State<Packed>,
    /// The bytes behind the last whole packet, at the front, and how many they are.
    held: [u8; PACKET],
    count: usize,
}

impl Model for Hasher {
    ghost Value = { HasherValue };

    ghost view = { λ h. record { state = h.state; held = take h.count h.held } };

    ghost invariant = { λ h. h.count < 32 };
}

impl Hasher {
    /// A hasher that has taken no bytes yet.
    #[tactic(auto, unfolding(crate::specs::HighwayHash::after_packets, crate::specs::Hashers::hasher_of))]
    pub fn new(key: Key) -> Hasher
        ensures { result ≡ hasher_of key.0 [] }
    {
        Hasher {
            state: State::reset(&key),
            held: [0; PACKET],
            count: 0,
        }
    }

    /// Takes the next bytes.
    #[tactic(auto, using(crate::proofs::HasherSteps::packets_taken))]
    pub fn update(&mut self, piece: &[u8])
        ensures { (key bytes : List ℕ)
            → self.old ≡ hasher_of key bytes
            → self.new ≡ hasher_of key (bytes ++ piece.now) }
    {
        if self.count == 0 {
            return self.take(piece);
        }
        let room = PACKET - self.count;
        if piece.len() < room {
            return self.hold(piece);
        }
        let (front, behind) = piece.split_at(room);
        self.complete(front);
        self.take(behind);
    }

    /// The hash of all bytes that were taken.
    #[tactic(auto, unfolding(crate::specs::HighwayHash::hash_of, crate::specs::Hashers::hasher_of))]
    pub fn finish(self) -> u64
        ensures { (key bytes : List ℕ) → self ≡ hasher_of key bytes → result ≡ hash_of key bytes }
    {
        let Hasher {
            mut state,
            held,
            count,
        } = self;
        state.update_remainder(&held[..count]);
        state.finished()
    }

    /// Takes bytes while none are held: whole packets where they lie, and holds the rest.
    fn take(&mut self, piece: &[u8])
        requires { self.old.held ≡ [] }
        ensures { self.new ≡ record {
          state = fold after_packet self.old.state (first_chunks 32 (length piece.now / 32) piece.now);
          held = drop (length piece.now / 32 * 32) piece.now;
        } }
    {
        let (packets, rest) = piece.as_chunks::<PACKET>();
        self.state.update_packets(packets);
        self.hold(rest);
    }

    /// Holds more bytes, which with those held are less than a packet.
    fn hold(&mut self, bytes: &[u8])
        requires { length self.old.held + length bytes.now < 32 }
        ensures { self.new ≡ record self.old { held = self.old.held ++ bytes.now } }
    {
        let end = self.count + bytes.len();
        self.held[self.count..end].copy_from_slice(bytes);
        self.count = end;
    }

    /// Takes the packet of the bytes that are held and those that it lacks.
    fn complete(&mut self, bytes: &[u8])
        requires { length self.old.held + length bytes.now ≡ 32 }
        ensures { self.new ≡ record { state = after_packet self.old.state (self.old.held ++ bytes.now); held = [] } }
    {
        self.held[self.count..].copy_from_slice(bytes);
        self.state.update(Packed::of(lanes_of(&self.held)));
        self.count = 0;
    }
}
