// A survey's book: the quantity and the standard that it was opened with, and legs and circuits by number.
ghost use Rattle.std.specs.Prelude.{T};
ghost use Rattle.std.proofs.Props.{props};
ghost use Rattle.survey.specs.Numbered.{Numbered, every};
ghost use Rattle.survey.specs.Standing.{own_leg, own_circuit, chains_over};

use records::circuit::Circuit;
use records::leg::Leg;
use std::collections::BTreeMap;

mod chain;
mod enter;
mod join;
mod keep;
mod uses;

#[derive(Drop)]
pub struct Book<Q, S> {
    pub quantity: Q,
    pub standard: S,
    pub legs: BTreeMap<u16, Leg>,
    pub circuits: BTreeMap<u16, Circuit>,
    // numbers are in order and in range, and each value has its own
    ghost legs_numbered: { Numbered 128 legs } by { Prim.hlevel props },
    ghost circuits_numbered: { Numbered 32 circuits } by { Prim.hlevel props },
    ghost own_legs: { T (every own_leg legs) },
    ghost own_circuits: { T (every own_circuit circuits) },
    // each circuit's legs stand, none is named twice, and each begins where the one before it ended
    ghost chained: { T (every (chains_over legs) circuits) },
}
