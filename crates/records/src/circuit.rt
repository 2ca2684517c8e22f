// A circuit: legs run one after another, and the sum that is due.
ghost use Rattle.std.specs.Prelude.{◌≡◌, true, length, vec_len, None};
ghost use Rattle.records.specs.Ranges.{is_leg_count};
ghost use Rattle.records.specs.Uses.{use_unranged};

use crate::number::{CircuitNumber, LegNumber};
use crate::word::Payload;

pub mod codec;
mod named;

// Which way a leg is run, by the bit of a use.
#[derive(Clone, Copy, PartialEq, Eq, Debug)]
pub enum Sense {
    Along = 0,
    Against = 1,
}

// A leg as a circuit runs it.
#[derive(Clone, Copy)]
pub struct LegUse {
    pub leg: LegNumber,
    pub sense: Sense,
}

// The words of a circuit's legs, each in range.
#[derive(Clone, Copy)]
pub struct Uses<'a> {
    pub words: &'a [u32],
    ghost ranged: { use_unranged 2 words.now ≡ None },
    ghost few: { is_leg_count (length words.now) ≡ true },
}

// What a circuit's first two words say.
#[derive(Clone, Copy)]
pub struct Head {
    pub number: CircuitNumber,
    pub due: Payload,
}

// What all of a circuit's words say, before there is room for its legs.
#[derive(Clone, Copy)]
pub struct View<'a> {
    pub head: Head,
    pub uses: Uses<'a>,
}

#[derive(Drop)]
pub struct Circuit {
    pub number: CircuitNumber,
    pub due: Payload,
    pub legs: Vec<LegUse>,
    ghost few: { is_leg_count (vec_len legs) ≡ true },
}
