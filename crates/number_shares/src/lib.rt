//! Numbers that seats in threads take from one atomic word, each once: what it means, and what leaves them so.
#![tactic(auto)]

pub mod laws;
mod table;

pub use table::{Before, Behind, Bounds, EachOnce, OneSeat, OneTake, Piece, SeatView, Terms};
