// Refusals: what was wrong, which part found it, and where.
ghost use Rattle.std.specs.Prelude.{◌≡◌};

mod table;
mod told;
mod turned;

// The part of the program that finds a refusal.
#[derive(Clone, Copy, PartialEq, Eq, Debug)]
pub enum Part {
    Words,
    Quantity,
    Standard,
    Book,
}

// What was wrong, by its number.
#[derive(Clone, Copy, PartialEq, Eq, Debug)]
pub enum Reason {
    // a word is absent, surplus or of another kind than the layout's
    Layout = 1,
    // a number, a node or a zero bit breaks its range, or a leg's nodes are equal
    Range = 2,
    // the number already stands
    Taken = 3,
    // the number does not stand
    Absent = 4,
    // a standing circuit uses the leg
    InUse = 5,
    // a value, a back value or a due sum that the quantity does not accept
    Measure = 6,
    // a length or readings that the standard does not accept
    Observation = 7,
    // a circuit names a leg twice
    Twice = 8,
    // a leg does not begin where the one before it ended
    Broken = 9,
    // a circuit form that the standard does not accept
    Form = 10,
    NoLeg = 11,
    // a leg that no circuit uses
    Loose = 12,
    // a class that is not 1 to 5
    NoClass = 13,
    // fewer words than misses
    TooFew = 14,
}

#[derive(Clone, Copy, PartialEq, Eq, Debug)]
pub struct Refusal {
    pub reason: Reason,
    pub place: u32,
}

// Why a call that allocates gave no answer.
#[derive(Clone, Copy, PartialEq, Eq, Debug)]
pub enum Fault {
    Refused(Refusal),
    Memory,
}
