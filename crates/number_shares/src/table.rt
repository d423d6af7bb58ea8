//! The table that numbers are taken from: what a seat knows, the rule, and what each step does.
use atomic_table::{Join, Play, Split, TableRule};
use std::collections::LinkedList;

/// The numbers that one step takes: from a place on, as many as it costs. Own.
#[derive(Clone, Copy)]
pub struct Piece {
    /// The first of them.
    pub at: u64,
    /// How many they are.
    pub cost: u64,
}

/// What a piece may cost, and the limit that some end at or below, and others above. Own.
#[derive(Clone, Copy)]
pub struct Bounds {
    /// The limit.
    pub limit: u64,
    /// What a piece costs at least.
    pub least: u64,
    /// What it costs at most.
    pub most: u64,
}

/// What the table is told once: the bounds, and the number of seats. Own.
#[derive(Clone, Copy)]
pub struct Terms {
    /// The bounds.
    pub bounds: Bounds,
    /// How many seats there are, once each is split off.
    pub seats: u32,
}

/// What a seat knows: the pieces that it took, those that end at or below the limit and those that end above it, for how
/// many seats it stands, and the bounds. No value of it is made. Own.
pub struct SeatView {
    /// The pieces that end at or below the limit.
    pub mine: LinkedList<Piece>,
    /// Those that end above it.
    pub past: LinkedList<Piece>,
    /// For how many seats it stands.
    pub weight: u64,
    /// The bounds, since what a step tells can't read the terms.
    pub bounds: Bounds,
}

/// Each number is taken once. Own.
pub struct EachOnce;

impl TableRule<(), SeatView, Terms> for EachOnce {
    ghost use Rattle.number_shares.specs.Rule.{IsKept, first_view};

    ghost holds = { IsKept };

    ghost first = { first_view };
}

/// A piece is taken. Own.
pub struct OneTake;

impl Play<(), SeatView> for OneTake {
    ghost use Rattle.number_shares.specs.Rule.{TellsTake};

    ghost then = { TellsTake };
}

/// One seat is split off. Own.
pub struct OneSeat;

impl Split<SeatView> for OneSeat {
    ghost use Rattle.number_shares.specs.Rule.{view_less_one, view_of_one};

    ghost left = { view_less_one };

    ghost right = { view_of_one };
}

/// A seat takes in another, whose pieces go before its own. Own.
pub struct Before;

impl Join<SeatView> for Before {
    ghost use Rattle.number_shares.specs.Rule.{joined_before, spent_view};

    ghost both = { joined_before };

    ghost spent = { spent_view };
}

/// A seat takes in another, whose pieces go behind its own where they end at or below the limit, and else before. Own.
pub struct Behind;

impl Join<SeatView> for Behind {
    ghost use Rattle.number_shares.specs.Rule.{joined_behind, spent_view};

    ghost both = { joined_behind };

    ghost spent = { spent_view };
}
