// Angles: in 0.01 seconds of arc, on a circle of 129,600,000.
use crate::residue::Residue;

mod terms;

// The greatest angle below a whole circle.
const GREATEST: u64 = 129_599_999;

#[derive(Clone, Copy)]
pub struct Angles;

// A sum of angles.
pub type Angle = Residue<GREATEST>;
