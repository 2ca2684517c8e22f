// The numbers that name legs, circuits and nodes, each from 1 to a greatest.
ghost use Rattle.std.specs.Prelude.{◌≡◌, true};
ghost use Rattle.records.specs.Ranges.{between};

pub mod ranges;

#[derive(Clone, Copy, PartialEq, Eq, Debug)]
pub struct Number<const GREATEST: u16> {
    pub value: u16,
    ghost ranged: { between 1 GREATEST value ≡ true },
}

pub type LegNumber = Number<128>;

pub type CircuitNumber = Number<32>;

// A bench mark in levelling, a line between two stations in triangulation.
pub type Node = Number<1023>;
