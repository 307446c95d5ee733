//! What the proof keeps beside the counter's word, and the rule between the two. No value of these types is made.

use atomic_table::{Join, Play, Split, TableRule};
use std::collections::LinkedList;

/// What a seat knows of the counter.
pub struct View {
    /// How many of the counter's 65 parts it has.
    pub parts: u64,
    /// How often it may still be split.
    pub spare: u64,
    /// How many numbers the counter hands out.
    pub limit: u64,
    /// What it has drawn, the first first.
    pub drawn: LinkedList<u64>,
    /// How often it was answered None.
    pub late: u64,
}

/// The rule between the counter's word and the views of its seats.
pub struct Draws;

impl TableRule<(), View, u64> for Draws {
    ghost use Rattle.tickets.specs.Rule.{IsHandedOut, first_view};

    ghost holds = { IsHandedOut };

    ghost first = { first_view };
}

/// A draw.
pub struct DrawStep;

impl Play<(), View> for DrawStep {
    ghost use Rattle.tickets.specs.Rule.{Drew};

    ghost then = { Drew };
}

/// A split, which gives one part away.
pub struct OnePart;

impl Split<View> for OnePart {
    ghost use Rattle.tickets.specs.Rule.{kept_part, new_part};

    ghost left = { kept_part };

    ghost right = { new_part };
}

/// A join, which takes in the parts of both.
pub struct BothParts;

impl Join<View> for BothParts {
    ghost use Rattle.tickets.specs.Rule.{joined_view, spent_view};

    ghost both = { joined_view };

    ghost spent = { spent_view };
}
