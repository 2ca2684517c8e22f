// What a survey shows of a leg, of a circuit and of the whole, for a standard to judge.
//
// A misclosure or a closure that there is none of is 0 and no Option: tables and the order of findings compare sizes, and a missing
// one would be read as 0 wherever it is asked.
use records::leg::{Length, Readings, Running};

#[derive(Clone, Copy)]
pub struct LegFinding {
    pub length: Length,
    pub running: Running,
    // size of the leg's own misclosure, 0 where it was run once
    pub misclosure: u64,
    pub readings: Readings,
}

// Whether a circuit ends where it began, and how many legs it has: two facts, of which neither depends on the other.
#[derive(Clone, Copy)]
pub struct Form {
    pub closed: bool,
    pub legs: u8,
}

#[derive(Clone, Copy)]
pub struct CircuitFinding {
    pub form: Form,
    // of all its legs together
    pub length: Length,
    // single if any leg is single
    pub running: Running,
    // size of the closure, 0 where the circuit is open
    pub closure: u64,
    // size of the sum of the legs' own misclosures
    pub misclosure: u64,
}

#[derive(Clone, Copy)]
pub struct WholeFinding {
    // how many circuits are closed
    pub circuits: u8,
    // sum of the sizes of their closures, which stops at 2^64 - 1
    pub closures: u64,
}

// Which way a reading is better.
#[derive(Clone, Copy)]
pub enum Direction {
    More,
    Less,
    // only an equal reading is no worse
    Equal,
}

#[derive(Clone, Copy)]
pub struct Directions {
    pub a: Direction,
    pub b: Direction,
    pub c: Direction,
}

// A is better as more, b and c as less.
pub const MORE_LESS_LESS: Directions = Directions {
    a: Direction::More,
    b: Direction::Less,
    c: Direction::Less,
};
