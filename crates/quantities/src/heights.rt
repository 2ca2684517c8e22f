// Heights: differences of height in 0.01 mm, with sums modulo 2^64.
use crate::residue::Residue;

mod terms;

#[derive(Clone, Copy)]
pub struct Heights;

// A sum of height differences.
pub type Height = Residue<{ u64::MAX }>;
