// A leg: one observation between two nodes.
ghost use Rattle.std.specs.Prelude.{◌≡◌, ◌^◌, ◌<◌, false, ◌==◌};

use crate::number::{LegNumber, Node};
use crate::word::Payload;

pub mod codec;

// How a leg was run: once, or out and back.
#[derive(Clone, Copy, PartialEq, Eq, Debug)]
pub enum Running {
    Single,
    Double,
}

#[derive(Clone, Copy)]
pub struct Length {
    pub metres: u32,
}

// Three readings that a standard judges; what they are is the standard's to say.
#[derive(Clone, Copy)]
pub struct Readings {
    pub a: u8,
    pub b: u16,
    pub c: u16,
}

#[derive(Clone, Copy)]
pub struct Leg {
    pub number: LegNumber,
    pub start: Node,
    pub end: Node,
    pub value: Payload,
    pub length: Length,
    pub readings: Readings,
    // absent where the leg was run once
    pub back: Option<Payload>,
    ghost apart: { (start.value == end.value) ≡ false },
    ghost length_fits: { length.metres < 2 ^ 28 },
    ghost b_fits: { readings.b < 2 ^ 10 },
    ghost c_fits: { readings.c < 2 ^ 10 },
}
