// A set of classes: five bits, class 1 lowest, as a grade is told.
ghost use Rattle.std.specs.Prelude.{◌^◌, ◌<◌};

pub mod members;

#[derive(Clone, Copy, PartialEq, Eq, Debug)]
pub struct ClassSet {
    pub bits: u8,
    ghost five: { bits < 2 ^ 5 },
}
