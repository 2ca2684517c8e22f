// Words: 32 bits, of which the top four are the kind and the rest the payload.
ghost use Rattle.std.specs.Prelude.{◌^◌, ◌<◌};

pub mod parts;

// What a word says, by its top four bits.
#[derive(Clone, Copy, PartialEq, Eq, Debug)]
pub enum Kind {
    Leg = 1,
    Value = 2,
    Length = 3,
    Readings = 4,
    Back = 5,
    Circuit = 6,
    Due = 7,
    Use = 8,
}

// What a layout has at an index: a word of this kind, which may be left out or may not. Each kind can be either, so an enum of the two
// would hold a kind in both.
#[derive(Clone, Copy)]
pub struct Slot {
    pub kind: Kind,
    pub required: bool,
}

// The 28 bits below the kind.
#[derive(Clone, Copy)]
pub struct Payload {
    pub bits: u32,
    ghost fits: { bits < 2 ^ 28 },
}
